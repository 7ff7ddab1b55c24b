//! The doorbell between submitters and the poller: each ring's tail, and the bit by which a poller that dozes asks to be
//! woken (IORING_SQ_NEED_WAKEUP of io_uring_setup(2)).
#![tactic(auto)]

pub mod bell;
pub mod error;
pub mod law;
mod plays;
pub mod ringer;
pub mod sleeper;
pub mod view;
pub mod wakes;

pub use bell::Bell;
pub use error::BellError;
pub use law::Law;
pub use ringer::{MustWake, Ringer};
pub use sleeper::{Nap, Sleeper};
pub use view::{Change, Load, Role, View};
pub use wakes::Wakes;

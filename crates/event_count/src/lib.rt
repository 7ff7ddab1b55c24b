//! An event count (Reed and Kanodia 1979, "Synchronization with Eventcounts and Sequencers"): threads that sleep until there was a
//! notice, and threads that give notice, which costs one load where no thread may sleep.
#![tactic(auto)]

pub mod error;
pub mod event_count;
pub mod law;
pub mod notifier;
mod plays;
pub mod view;
pub mod waiter;
pub mod wakes;

pub use error::EventCountError;
pub use event_count::{EventCount, Reach};
pub use law::Law;
pub use notifier::Notifier;
pub use view::{Line, Role, View};
pub use waiter::Waiter;
pub use wakes::Wakes;

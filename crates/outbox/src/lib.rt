//! A bounded queue of requests; as an outbox it has those that a thread's turn answered, until they are posted to the completion rings.
#![tactic(auto)]

pub mod delivery;
pub mod error;
pub mod requests;

pub use delivery::{deliver, deliver_all};
pub use error::Memory;
pub use requests::{Outbox, RequestQueue};

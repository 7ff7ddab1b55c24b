//! What the threads of a run are lent: a turnstile at the points of each request, and a clock.
#![tactic(auto)]

pub mod clock;
pub mod hold;
pub mod turnstile;

pub use clock::{Clock, NoClock};
pub use hold::{Hold, Holds};
pub use turnstile::{Open, Point, Turnstile};

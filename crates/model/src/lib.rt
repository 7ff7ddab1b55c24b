//! The one-thread ring, which carries events out and accepts exactly the legal histories.
#![tactic(auto)]

mod answer;
mod asked;
mod cancel;
mod chain;
mod copy;
mod ends;
mod errno;
pub mod error;
mod found;
mod kind;
mod moves;
pub mod object;
pub mod packing;
pub mod past;
mod pipe;
mod reads;
mod ready;
mod reply;
mod request;
mod ring;
mod shared;
mod splice;
mod state;
mod steps;
mod timing;
mod whole;
mod worded;

pub use error::{Memory, Refused};
pub use history::{Bytes, Event, Req};
pub use object::Object;
pub use packing::Packing;
pub use past::Past;

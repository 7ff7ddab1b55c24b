//! The board as a static library: exports for C over opaque handles.
#![tactic(auto)]

mod batch;
pub mod calls;
pub mod client;
mod code;
pub mod desk;
pub mod hand;
pub mod handle;
pub mod inside;
pub mod life;
pub mod number;
mod out;
mod parts;
mod passes;
mod reports;
pub mod results;
pub mod slot;
mod turn;

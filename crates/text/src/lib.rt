//! The numbers and the lines of the program's texts.
#![tactic(auto)]

pub mod digits;
pub mod line;
pub mod number;

pub use digits::bytes_of;
pub use line::{line_at, push_line, shown_count};
pub use number::{number_of, reply_of};

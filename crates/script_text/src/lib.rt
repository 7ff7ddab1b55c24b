//! The texts of the program: tables written and read, histories written, and scripts read.
#![tactic(auto)]

mod actor;
mod acts;
mod declared_line;
mod entry_line;
pub mod fault;
mod faults;
pub mod history_text;
mod keyword;
mod labels;
mod line;
mod line_faults;
mod options;
mod outline;
mod parts;
mod raw;
mod reading;
pub mod table;
mod words;

pub use fault::{Fault, Memory, ScriptFault};
pub use history_text::{label_of, settled, write_event, write_history};
pub use reading::read_script;
pub use table::{read_table, write_table};

//! Answers about tables that are given or come: which of them a script has, how each comes about, and how often.
#![tactic(auto)]

mod counts;
mod explained;
mod listed;
mod table_files;

pub use counts::counts_of;
pub use explained::explain;
pub use listed::are_listed;
pub use table_files::read_tables;

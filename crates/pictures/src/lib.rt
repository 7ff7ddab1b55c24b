//! What a program prints of a script's tables and histories beside their plain texts: pictures, and JSON.
#![tactic(auto)]

mod json;
mod lanes;
mod marks;
mod mermaid;
mod texts;
mod values;
mod workers;

pub use json::{
    write_counts, write_explained, write_history, write_none, write_table, write_tables,
    write_verdicts,
};
pub use lanes::write_lanes;
pub use marks::{Lane, Mark, marks_of};
pub use mermaid::write_mermaid;
pub use texts::{counts_text, explained_text, verdicts_text};

//! What a script is: its entries, the lines of its actors, and the rules that it keeps; and tables.
#![tactic(auto)]

pub mod act;
pub mod label;
pub mod named;
pub mod requests;
mod rules;
pub mod script;
pub mod step;
pub mod table;

pub use act::Act;
pub use label::is_label;
pub use named::Named;
pub use requests::requests_of;
pub use script::Script;
pub use step::{Step, step_at};
pub use table::Table;

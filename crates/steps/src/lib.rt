//! The shared table of a board: its words and slots, the one rule over them, and each kind of step that a pass takes.
#![tactic(auto)]

pub mod cancels;
pub mod claims;
pub mod facts;
pub mod law;
pub mod layout;
pub mod line;
pub mod pipes;
mod plays;
pub mod seat;
pub mod slot;
pub mod submitter;
pub mod table;
pub mod timers;
pub mod view;

pub use law::{About, Law};
pub use line::{Laid, Line};
pub use slot::{Submission, Thing, WaitedPipe};
pub use table::{BoardTable, TableSeat, Words};
pub use view::{Layout, Role, Step, View};

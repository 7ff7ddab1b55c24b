//! The commands of the program: what each reads, answers and writes.
#![tactic(auto)]

mod answer;
mod checking;
mod files;
mod given;
mod inputs;
mod listing;
mod looking;
mod problem;
mod progress;
mod runs;
mod told;

pub use answer::perform;
pub use command_line::{Invocation, Job, Look, invocation_of};
pub use files::serve;
pub use inputs::Inputs;
pub use problem::Problem;
pub use progress::Progress;
pub use told::Console;

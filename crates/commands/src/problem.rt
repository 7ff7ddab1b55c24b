//! Why a command gives no answer.
ghost use Rattle.std.specs.Prelude.{◌≡◌};
ghost use Rattle.commands.specs.Status.{of_input, of_script, of_search, of_run};
ghost use Rattle.commands.specs.declared.problem.Problem.{Problem};

use crate::told::Line;
use explore::ExploreError;
use itoa::Buffer;
use script_run::RunFault;
use script_text::{Memory, ScriptFault};
use std::alloc::{AllocError, AllocFailed};
use std::fmt;
use streams::{InputFault, OutputFault};

/// Why a command gives no answer.
#[derive(Drop)]
pub enum Problem {
    /// Standard input or a file could not be read, also where the machine had no memory for it.
    Input,
    /// The answer could not be written.
    Output,
    /// Memory ran out, or a thread was refused.
    Memory,
    /// The board refused a call, or could not be ended.
    Shared,
    /// Another number of workers than 1 to 64.
    Workers,
    /// A search met more states than the program's limit.
    TooManyStates,
    /// A line of the script ran out of turns: the label that it waits for, or of the first entry that it submits.
    Stuck(String),
    /// A line of the script has a fault.
    Line(ScriptFault),
}

impl Problem {
    ghost use Rattle.commands.specs.Status.{status_of};

    /// The status that the program ends with.
    pub fn status(&self) -> u8
        ensures { result ≡ status_of self.now }
    {
        match self {
            Problem::Stuck(_) => 3,
            Problem::Line(_) => 2,
            _ => 1,
        }
    }
}

impl Problem {
    ghost use Rattle.commands.specs.Told.{line_of, text_of};

    /// The line that tells it. A number's digits stand in the buffer.
    pub fn line<'a>(&'a self, digits: &'a mut Buffer) -> Line<'a>
        ensures { text_of result ≡ line_of self.now }
    {
        match self {
            Problem::Input => Line::of("fault: input", ""),
            Problem::Output => Line::of("fault: output", ""),
            Problem::Memory => Line::of("fault: memory", ""),
            Problem::Shared => Line::of("fault: shared", ""),
            Problem::Workers => Line::of("fault: workers", ""),
            Problem::TooManyStates => Line::of("fault: too many states", ""),
            Problem::Stuck(label) => Line::of("stuck ", label.as_str()),
            Problem::Line(ScriptFault::Memory) => Line::of("fault: memory", ""),
            Problem::Line(ScriptFault::Line { line, fault }) => Line {
                lead: "line ",
                name: digits.format(*line),
                mark: ": ",
                words: fault.words(),
            },
        }
    }
}

/// The line that tells it, without its line feed.
impl fmt::Display for Problem {
    fn fmt<W: fmt::Write>(&self, f: &mut fmt::Formatter<W>) -> fmt::Result {
        let mut digits = Buffer::new();
        let line = self.line(&mut digits);
        f.write_str(line.lead)?;
        f.write_str(line.name)?;
        f.write_str(line.mark)?;
        f.write_str(line.words)
    }
}

impl From<InputFault> for Problem {
    ghost from_gives = { λ fault p. p ≡ of_input fault };

    fn from(fault: InputFault) -> Problem {
        match fault {
            InputFault::Input(_) => Problem::Input,
            InputFault::Memory => Problem::Memory,
        }
    }
}

impl From<OutputFault> for Problem {
    ghost from_gives = { λ _ p. p ≡ Problem.Output };

    fn from(fault: OutputFault) -> Problem {
        match fault {
            OutputFault::Output(_) | OutputFault::WriteZero => Problem::Output,
        }
    }
}

impl From<ScriptFault> for Problem {
    ghost from_gives = { λ fault p. p ≡ of_script fault };

    fn from(fault: ScriptFault) -> Problem {
        match fault {
            ScriptFault::Memory => Problem::Memory,
            fault => Problem::Line(fault),
        }
    }
}

impl From<ExploreError> for Problem {
    ghost from_gives = { λ error p. p ≡ of_search error };

    fn from(error: ExploreError) -> Problem {
        match error {
            ExploreError::TooMany => Problem::TooManyStates,
            ExploreError::Memory => Problem::Memory,
        }
    }
}

impl From<RunFault> for Problem {
    ghost from_gives = { λ fault p. p ≡ of_run fault };

    fn from(fault: RunFault) -> Problem {
        match fault {
            RunFault::Stuck(label) => Problem::Stuck(label),
            RunFault::Memory | RunFault::Thread => Problem::Memory,
            RunFault::Workers => Problem::Workers,
            RunFault::Shared => Problem::Shared,
        }
    }
}

impl From<Memory> for Problem {
    ghost from_gives = { λ _ p. p ≡ Problem.Memory };

    fn from(_e: Memory) -> Problem {
        Problem::Memory
    }
}

impl From<AllocError> for Problem {
    ghost from_gives = { λ _ p. p ≡ Problem.Memory };

    fn from(_e: AllocError) -> Problem {
        Problem::Memory
    }
}

impl<T: Drop> From<AllocFailed<T>> for Problem {
    ghost from_gives = { λ _ p. p ≡ Problem.Memory };

    fn from(_e: AllocFailed<T>) -> Problem {
        Problem::Memory
    }
}

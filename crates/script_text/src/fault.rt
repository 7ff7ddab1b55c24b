//! What can be wrong with a script or a table file.
ghost use Rattle.std.specs.Prelude.{◌≡◌};
ghost use Rattle.script_text.specs.declared.fault.ScriptFault.TheVariants.{Memory};

use std::alloc::{AllocError, AllocFailed};
use std::fmt;
use thiserror::Error;

/// What is wrong with a line. Of several faults of one line the first in this list is reported.
#[derive(Clone, Copy, PartialEq, Eq, PartialOrd, Ord, Debug, Error)]
pub enum Fault {
    /// A byte that is neither a line feed nor from 0x20 to 0x7e.
    NotAscii,
    /// A first word or an option that is not known.
    UnknownWord,
    /// A line of another actor, or at the wrong place.
    OutOfPlace,
    /// Too few words.
    MissingArgument,
    /// A word too many, or an option twice.
    ExtraArgument,
    /// A word that should be a label, and is not of its form.
    BadLabel,
    /// A word that should be a number, and is not of its form.
    BadNumber,
    /// A word that should be 128 lower-case hexadecimal digits.
    BadBytes,
    /// A value past a limit.
    OutOfRange,
    /// A label that an earlier line declares.
    DuplicateLabel,
    /// A label that no line declares.
    UnknownLabel,
    /// An entry line that no `submit` follows.
    UnsubmittedEntries,
    /// A line of a table file that is not the table's line.
    BadTable,
}

impl Fault {
    ghost use Rattle.script_text.specs.FaultWords.{fault_words};

    /// The words that it is reported with.
    pub fn words(self) -> &'static str
        ensures { result.now ≡ fault_words self }
    {
        match self {
            Fault::NotAscii => "not ascii",
            Fault::UnknownWord => "unknown word",
            Fault::OutOfPlace => "out of place",
            Fault::MissingArgument => "missing argument",
            Fault::ExtraArgument => "extra argument",
            Fault::BadLabel => "bad label",
            Fault::BadNumber => "bad number",
            Fault::BadBytes => "bad bytes",
            Fault::OutOfRange => "out of range",
            Fault::DuplicateLabel => "duplicate label",
            Fault::UnknownLabel => "unknown label",
            Fault::UnsubmittedEntries => "unsubmitted entries",
            Fault::BadTable => "bad table",
        }
    }
}

impl fmt::Display for Fault {
    fn fmt<W: fmt::Write>(&self, f: &mut fmt::Formatter<W>) -> fmt::Result {
        f.write_str(self.words())
    }
}

/// Why a script or a table could not be read.
#[derive(Debug, Drop, Error)]
pub enum ScriptFault {
    /// The least line that has a fault, from 1, and the first of its faults.
    #[error("line {line}: {fault}")]
    Line { line: u64, fault: Fault },
    /// Memory ran out.
    #[error("out of memory")]
    Memory,
}

/// Memory ran out.
#[derive(Clone, Copy, PartialEq, Eq, Debug, Error)]
#[error("out of memory")]
pub struct Memory;

impl From<AllocError> for Memory {
    fn from(_e: AllocError) -> Memory {
        Memory
    }
}

impl<T: Drop> From<AllocFailed<T>> for Memory {
    fn from(_e: AllocFailed<T>) -> Memory {
        Memory
    }
}

impl From<AllocError> for ScriptFault {
    ghost from_gives = { λ _ e. e ≡ Memory };

    fn from(_e: AllocError) -> ScriptFault {
        ScriptFault::Memory
    }
}

impl<T: Drop> From<AllocFailed<T>> for ScriptFault {
    ghost from_gives = { λ _ e. e ≡ Memory };

    fn from(_e: AllocFailed<T>) -> ScriptFault {
        ScriptFault::Memory
    }
}

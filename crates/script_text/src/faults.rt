//! The faults of one line.
ghost use Rattle.std.specs.Prelude.{◌≡◌, IsSome, IsTrue, None};
ghost use Rattle.text.specs.Number.{number_in};
ghost use Rattle.script_text.specs.{IsOfScript, KeepsFault, fault_if, long_faults, noted, number_faults, rank, with_faults};

use crate::fault::Fault;
use text::number_of;

/// The faults that were found on a line, of which the first in the list of faults is kept.
/// So what finds one kind of fault needs to know of no other.
#[derive(Drop)]
pub struct Faults {
    least: Option<Fault>,
}

impl Faults {
    /// No fault.
    pub fn new() -> Faults
        ensures { result.least ≡ None }
    {
        Faults { least: None }
    }

    /// The first of the faults, in the list's order.
    pub fn least(&self) -> Option<Fault>
        ensures { result ≡ self.now.least }
    {
        self.least
    }

    /// One more fault.
    pub fn note(&mut self, fault: Fault)
        ensures is_first { self.new.least ≡ noted self.old.least fault }
        ensures noted { IsSome self.new.least }
        ensures stays { IsOfScript fault → KeepsFault self.old.least self.new.least }
    {
        let known = self.least;
        self.least = match known {
            Some(least) if rank(least) <= rank(fault) => Some(least),
            _ => Some(fault),
        };
    }

    /// One more fault, where it is one.
    pub fn note_if(&mut self, is_one: bool, fault: Fault)
        ensures is_first { self.new.least ≡ with_faults self.old.least (fault_if is_one fault) }
        ensures stays { IsOfScript fault → KeepsFault self.old.least self.new.least }
        ensures noted { IsTrue is_one → IsSome self.new.least }
    {
        if is_one {
            self.note(fault);
        }
    }

    /// The faults of a word that should write a number from `low` to `high`.
    pub fn number(&mut self, word: &[u8], low: u32, high: u32)
        ensures stays { KeepsFault self.old.least self.new.least }
        ensures is_first { self.new.least ≡ with_faults self.old.least (number_faults word.now low high) }
    {
        match number_of(word) {
            None => self.note(Fault::BadNumber),
            Some(number) => {
                let is_within = low as u64 <= number && number <= high as u64;
                self.note_if(!is_within, Fault::OutOfRange);
            }
        }
    }

    /// The faults of a word that should write a number of 64 bits.
    pub fn long_number(&mut self, word: &[u8])
        ensures stays { KeepsFault self.old.least self.new.least }
        ensures is_first { self.new.least ≡ with_faults self.old.least (long_faults (number_in word.now)) }
    {
        if number_of(word).is_none() {
            self.note(Fault::BadNumber);
        }
    }
}

/// The place of a fault in the list of faults, from 1.
fn rank(fault: Fault) -> u8
    ensures { result ≡ rank fault }
{
    match fault {
        Fault::NotAscii => 1,
        Fault::UnknownWord => 2,
        Fault::OutOfPlace => 3,
        Fault::MissingArgument => 4,
        Fault::ExtraArgument => 5,
        Fault::BadLabel => 6,
        Fault::BadNumber => 7,
        Fault::BadBytes => 8,
        Fault::OutOfRange => 9,
        Fault::DuplicateLabel => 10,
        Fault::UnknownLabel => 11,
        Fault::UnsubmittedEntries => 12,
        Fault::BadTable => 13,
    }
}

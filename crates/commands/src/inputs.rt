//! Standard input, and files by their names.
ghost use Rattle.std.specs.Prelude.{ℕ, List, IfOk};

use std::fs::open;
use std::io;
use std::io::{Input, Read};
use std::rt::Files;

/// What the program reads from.
pub trait Inputs {
    type Standard: Read + Drop;

    type File: Read + Drop;

    /// Standard input may be this.
    ghost stands: { Self → Self.Standard → Type 0 };

    /// The file of a name may be this.
    ghost opens: { Self → List ℕ → Self.File → Type 0 };

    /// Standard input.
    fn standard(&self) -> Self::Standard
        ensures { stands self.now result };

    /// The file of this name, opened.
    fn file(&self, name: &str) -> io::Result<Self::File>
        ensures { IfOk result (λ file. opens self.now name.now file) };
}

/// The machine's, of whose bytes nothing is said.
impl<R: Files + Input> Inputs for R {
    type Standard = R::Reader;

    type File = R::File;

    ghost stands = { λ _ _. Unit {0} };

    ghost opens = { λ _ _ _. Unit {0} };

    fn standard(&self) -> R::Reader {
        self.reader()
    }

    fn file(&self, name: &str) -> io::Result<R::File> {
        open(self, name)
    }
}

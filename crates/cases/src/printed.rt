//! What is printed of a case.
use history::Req;
use std::alloc::{AllocError, AllocFailed, Global};
use std::fmt;
use std::fmt::{Debug, Display, Formatter};

/// Why nothing is printed of a case.
#[derive(Clone, Copy)]
pub enum Slip {
    /// The line is of none of the forms.
    BadLine,
    Memory,
}

impl From<AllocError> for Slip {
    fn from(_error: AllocError) -> Slip {
        Slip::Memory
    }
}

impl<T: Drop> From<AllocFailed<T>> for Slip {
    fn from(_failed: AllocFailed<T>) -> Slip {
        Slip::Memory
    }
}

/// The text of an answer, in which a `/` stands for a line's end.
pub type Printed = Result<String, Slip>;

/// These words.
pub fn said(alloc: Global, words: &str) -> Printed {
    Ok(String::from_str(alloc, words)?)
}

/// Whether it is so.
pub fn yes(alloc: Global, is_so: bool) -> Printed {
    said(alloc, if is_so { "yes" } else { "no" })
}

/// The text of a value.
pub fn shown<T: Display>(alloc: Global, value: &T) -> Printed {
    Ok(format!(in alloc; "{value}")?)
}

/// A value as it is written in the code.
pub fn debugged<T: Debug>(alloc: Global, value: &T) -> Printed {
    Ok(format!(in alloc; "{value:?}")?)
}

/// The bytes in hexadecimal digits, `-` for none.
#[derive(Clone, Copy)]
pub struct Digits<'a>(pub &'a [u8]);

impl Display for Digits<'_> {
    fn fmt<W: fmt::Write>(&self, f: &mut Formatter<W>) -> fmt::Result {
        if self.0.is_empty() {
            return f.write_str("-");
        }
        for byte in self.0 {
            write!(f, "{byte:02x}")?;
        }
        Ok(())
    }
}

/// A request as the lines name it.
#[derive(Clone, Copy)]
pub struct Named(pub Req);

impl Display for Named {
    fn fmt<W: fmt::Write>(&self, f: &mut Formatter<W>) -> fmt::Result {
        let Req { ring, k } = self.0;
        write!(f, "{ring}.{k}")
    }
}

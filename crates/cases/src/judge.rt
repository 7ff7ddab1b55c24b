//! Whether cases answer what their lines want.
use crate::printed::{Printed, Slip};
use std::alloc::{AllocError, Global};
use std::io;

/// The call of a line, before ` => `. None of an empty line, and of one that begins with `#`.
pub fn call_of(line: &str) -> Option<&str> {
    if line.is_empty() || line.starts_with('#') {
        return None;
    }
    let (call, _) = line.split_once(" => ").unwrap_or((line, ""));
    Some(call)
}

/// Prints the cases whose answer is another than their lines want, and counts all.
#[derive(Drop)]
pub struct Judge<'a, R> {
    pub rt: &'a R,
    pub count: u64,
}

impl<R: AllocGlobal + Print> Judge<'_, R> {
    pub fn alloc(&self) -> Global {
        self.rt.alloc()
    }

    /// Compares what is printed of a line, which has this before it, with what stands after its ` => `, or `ok`, and prints the line where it is another.
    pub fn hear(&mut self, lead: &str, line: &str, printed: Printed) -> io::Result<()> {
        let printed = match printed {
            Ok(printed) => printed,
            Err(Slip::BadLine) => String::from_str(self.alloc(), "bad line")?,
            Err(Slip::Memory) => return Err(io::Error::from(AllocError)),
        };
        let (_, wanted) = line.split_once(" => ").unwrap_or((line, "ok"));
        self.count = self.count.saturating_add(1);
        if printed.as_str() == wanted {
            Ok(())
        } else {
            println!(self.rt; "{lead}{line}: {printed}")
        }
    }
}

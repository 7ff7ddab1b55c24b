//! A writer and a reader of which contracts see what each call gives.
ghost use Rattle.std.specs.Prelude.{ℕ, List, Option, Result};
ghost use Rattle.std.specs.Io.{ReadsAtMost, WritesAtMost};
ghost use Rattle.std.specs.Io.KnownBytes.{ReadConsumes, WriteAppends};
ghost use Rattle.std.specs.declared.io.Error.{Error as IoError};

use std::io;
use std::io::{Read, Write};

/// A writer of bytes (write(2)).
pub trait Sink {
    /// The bytes that it holds, where they are known.
    ghost contents: { Self → Option (List ℕ) };

    /// What a write of these bytes may give: the writer before it, the bytes, the answer, the writer after it.
    ghost gives: { Self → List ℕ → Result ℕ IoError → Self → Type 0 };

    /// Writes some first bytes. The answer is how many.
    fn put(&mut self, bytes: &[u8]) -> io::Result<usize>
        ensures bound { WritesAtMost result bytes.now }
        ensures bytes { WriteAppends (contents self.old) (contents self.new) result bytes.now }
        ensures gives { gives self.old bytes.now result self.new };
}

/// A reader of bytes (read(2)).
pub trait Source {
    /// The bytes that it will give from here on, where they are known.
    ghost remaining: { Self → Option (List ℕ) };

    /// What a read may give: the reader before it, the answer, the buffer and the reader after it.
    ghost gives: { Self → Result ℕ IoError → List ℕ → Self → Type 0 };

    /// Reads some next bytes to the front of the buffer. The answer is how many.
    fn get(&mut self, buffer: &mut [u8]) -> io::Result<usize>
        ensures bound { ReadsAtMost result buffer.new }
        ensures bytes { ReadConsumes (remaining self.old) (remaining self.new) result buffer.new }
        ensures gives { gives self.old result buffer.new self.new };
}

/// Each writer of std, of which nothing is said of when it fails.
impl<W: Write> Sink for W {
    ghost contents = { λ w. W.contents w };

    ghost gives = { λ _ _ _ _. Unit {0} };

    fn put(&mut self, bytes: &[u8]) -> io::Result<usize> {
        self.write(bytes)
    }
}

/// Each reader of std, of which nothing is said of when it fails.
impl<R: Read> Source for R {
    ghost remaining = { λ r. R.remaining r };

    ghost gives = { λ _ _ _ _. Unit {0} };

    fn get(&mut self, buffer: &mut [u8]) -> io::Result<usize> {
        self.read(buffer)
    }
}

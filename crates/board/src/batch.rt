//! Which buffers go with an entry, and with the entries of a batch.
ghost use Rattle.std.specs.Prelude.{◌↔◌, IsTrue};
ghost use Rattle.history.specs.Legal.{FitsOp};
ghost use Rattle.board.specs.Batches.{AreFit};

use entry::{Sqe, by_opcode};

macro_rules! fits_buffer {
    ([no_buffer] ($length:ident)) => { $length == 0 };
    ([reads $len:ident] ($length:ident)) => { $length == $len as usize };
    ([writes $len:ident] ($length:ident)) => { $length == $len as usize };
    ([any_buffer] ($length:ident)) => { true };
}

/// Whether a buffer of this length goes with the entry.
pub(crate) fn fits_length(sqe: &Sqe, length: usize) -> bool
    ensures { IsTrue result ↔ FitsOp sqe.now.op length }
{
    let op = sqe.op();
    by_opcode!(buffer of op => fits_buffer!(length))
}

/// Whether the buffer of each entry has the length that the entry asks for.
pub(crate) fn are_fit(batch: &[(Sqe, Vec<u8>)]) -> bool
    ensures { IsTrue result ↔ AreFit batch.now }
{
    for (sqe, buffer) in batch {
        if !fits_length(sqe, buffer.len()) {
            return false;
        }
    }
    true
}

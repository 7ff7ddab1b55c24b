//! Why bytes can't be written out or read in.
ghost use Rattle.std.specs.Prelude.{◌≡◌};
ghost use Rattle.streams.specs.declared.fault.InputFault.TheVariants.{Memory};

use std::alloc::AllocError;
use std::io;
use thiserror::Error;

/// Why bytes can't be written out.
#[derive(Clone, Copy, Debug, Error)]
pub enum OutputFault {
    /// A write failed, or was interrupted 2^64 - 1 times without a byte (`TimedOut`, as std has it).
    #[error("a write failed: {0}")]
    Output(io::Error),
    /// A write took no byte.
    #[error("a write took no byte")]
    WriteZero,
}

/// Why bytes can't be read in.
#[derive(Clone, Copy, Debug, Error)]
pub enum InputFault {
    /// A read failed, or was interrupted 2^64 - 1 times without a byte (`TimedOut`, as std has it).
    #[error("a read failed: {0}")]
    Input(io::Error),
    /// The room for the bytes wasn't found.
    #[error("out of memory")]
    Memory,
}

impl From<AllocError> for InputFault {
    ghost from_gives = { λ _ fault. fault ≡ Memory };

    fn from(_e: AllocError) -> InputFault {
        InputFault::Memory
    }
}

//! Why a script gave no table.
ghost use Rattle.std.specs.Prelude.{◌≡◌};
ghost use Rattle.script_run.specs.declared.fault.RunFault.TheVariants.{Memory};

use runtime::{JoinError, StartError};
use std::alloc::{AllocError, AllocFailed};
use thiserror::Error;

/// Why a script gave no table.
#[derive(Debug, Drop, Error)]
pub enum RunFault {
    /// A line ran out of tries. The label is the one that it waits for, or that of the first entry which it submits. Of
    /// several lines the lowest ring's is told, the clock's last.
    #[error("stuck {0}")]
    Stuck(String),
    /// Memory ran out.
    #[error("out of memory")]
    Memory,
    /// A thread was refused.
    #[error("a thread was refused")]
    Thread,
    /// The number of workers is not one that a board may have, 1 to 64.
    #[error("not 1 to 64 workers")]
    Workers,
    /// The board refused a batch that it has room for; or it could not be ended though all threads had come to their ends; or an
    /// entry had no completion. No script is known for which it comes.
    #[error("the board refused a call")]
    Shared,
}

impl From<AllocError> for RunFault {
    ghost from_gives = { λ _ e. e ≡ Memory };

    fn from(_error: AllocError) -> RunFault {
        RunFault::Memory
    }
}

impl<T: Drop> From<AllocFailed<T>> for RunFault {
    ghost from_gives = { λ _ e. e ≡ Memory };

    fn from(_error: AllocFailed<T>) -> RunFault {
        RunFault::Memory
    }
}

impl From<StartError> for RunFault {
    ghost use Rattle.script_run.specs.Faults.{IsUnstuck};

    ghost from_gives = { λ _ fault. IsUnstuck fault };

    fn from(error: StartError) -> RunFault {
        match error {
            StartError::BadShape => RunFault::Workers,
            StartError::Memory => RunFault::Memory,
            StartError::Thread => RunFault::Thread,
        }
    }
}

impl From<JoinError> for RunFault {
    ghost use Rattle.script_run.specs.Faults.{IsUnstuck};

    ghost from_gives = { λ _ fault. IsUnstuck fault };

    fn from(error: JoinError) -> RunFault {
        match error {
            JoinError::Memory => RunFault::Memory,
            JoinError::Missing | JoinError::Shared => RunFault::Shared,
        }
    }
}

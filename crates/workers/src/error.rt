// Why work is not done.
ghost use Rattle.std.specs.Prelude.{◌≡◌};
ghost use Rattle.workers.specs.Errors.{error_of};
ghost use Rattle.workers.specs.declared.error.WorkError.TheVariants.{Memory};

use node_lock::LockError;
use std::alloc::AllocError;
use std::fmt;
use thiserror::Error;

/// Why work is not done.
#[derive(Drop, Error)]
pub enum WorkError {
    /// The node refuses what was asked of it.
    #[error("{0}")]
    Lock(LockError),
    /// The gate doesn't let a job pass. It stays with its process, which runs it, for a retake.
    #[error("the gate doesn't let the job pass")]
    GateClosed,
    /// In all rounds no reply has come.
    #[error("no reply has come")]
    NoReply,
    /// Memory was refused. A job that was got stays with its process, which runs it, for a retake.
    #[error("out of memory")]
    Memory,
}

impl From<AllocError> for WorkError {
    ghost from_gives = { λ _ e. e ≡ Memory };

    fn from(_error: AllocError) -> WorkError {
        WorkError::Memory
    }
}

impl From<LockError> for WorkError {
    ghost from_gives = { λ why e. e ≡ error_of why };

    fn from(error: LockError) -> WorkError {
        match error {
            LockError::Memory => WorkError::Memory,
            error => WorkError::Lock(error),
        }
    }
}

/// As it is displayed.
impl fmt::Debug for WorkError {
    fn fmt<W: fmt::Write>(&self, f: &mut fmt::Formatter<W>) -> fmt::Result {
        write!(f, "{self}")
    }
}

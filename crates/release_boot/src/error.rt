// Why a release doesn't boot.
ghost use Rattle.std.specs.Prelude.{◌≡◌};
ghost use Rattle.release_boot.specs.declared.error.BootError.TheVariants.{Memory};

use erl_term::{Atom, Term};
use std::alloc::AllocError;
use std::fmt;
use thiserror::Error;

/// Why a release doesn't boot.
#[derive(Drop, Error)]
pub enum BootError {
    /// An application doesn't start.
    #[error("an application doesn't start")]
    NotStarted {
        /// The application.
        app: Atom,
        /// Why: `{already_started,App}`, `{bad_init,V}` or `{start_failed,Id,R}`.
        reason: Term,
    },
    /// Memory was refused.
    #[error("out of memory")]
    Memory,
}

impl From<AllocError> for BootError {
    ghost from_gives = { λ _ e. e ≡ Memory };

    fn from(_error: AllocError) -> BootError {
        BootError::Memory
    }
}

/// As it is displayed.
impl fmt::Debug for BootError {
    fn fmt<W: fmt::Write>(&self, f: &mut fmt::Formatter<W>) -> fmt::Result {
        write!(f, "{self}")
    }
}

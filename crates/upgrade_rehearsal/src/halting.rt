// Why a rehearsal has no end.
use release_boot::BootError;
use std::alloc::AllocError;
use std::fmt;
use thiserror::Error;

/// Why a rehearsal that has begun could not continue.
#[derive(Clone, Copy, Debug, PartialEq, Eq, Error)]
pub enum Halt {
    /// Something can't be counted further.
    #[error("a number can't be counted further")]
    Full,
    /// An allocation failed.
    #[error("out of memory")]
    Memory(#[from(alloc)] AllocError),
}

/// Why a rehearsal could not reach its end.
#[derive(Drop, Error)]
pub enum Fault {
    /// The release that is left doesn't boot.
    #[error("{0}")]
    Boot(BootError),
    /// The rehearsal could not continue.
    #[error("{0}")]
    Halted(Halt),
}

/// Displays it as `Display` does.
impl fmt::Debug for Fault {
    fn fmt<W: fmt::Write>(&self, f: &mut fmt::Formatter<W>) -> fmt::Result {
        write!(f, "{self}")
    }
}

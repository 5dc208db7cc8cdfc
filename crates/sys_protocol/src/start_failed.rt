// Why a child doesn't start.
use erl_term::Term;
use std::alloc::{AllocError, Global};
use std::fmt;
use thiserror::Error;
use values::{Duplicate, Same};

/// A child has failed to start: its start function has failed, or the name that it asks for is taken.
#[derive(Drop, Error)]
#[error("a child has failed to start")]
pub struct StartFailed {
    /// What the supervisor calls it by, its Id.
    pub child: Term,
    /// Why it has failed.
    pub reason: Term,
}

/// As it is displayed.
impl fmt::Debug for StartFailed {
    fn fmt<W: fmt::Write>(&self, f: &mut fmt::Formatter<W>) -> fmt::Result {
        write!(f, "{self}")
    }
}

impl Same for StartFailed {
    fn same(&self, other: &StartFailed) -> bool {
        self.child.same(&other.child) && self.reason.same(&other.reason)
    }
}

impl Duplicate for StartFailed {
    fn copy(&self, alloc: Global) -> Result<StartFailed, AllocError> {
        Ok(StartFailed {
            child: self.child.copy(alloc)?,
            reason: self.reason.copy(alloc)?,
        })
    }
}

// Why a step of applications is refused.
use crate::start_failed::StartFailed;
use std::alloc::{AllocError, Global};
use std::fmt;
use thiserror::Error;
use values::{Duplicate, Same};

/// Why a child isn't revived.
#[derive(Drop, Error)]
pub enum SysError {
    /// It has failed to start.
    #[error("a child has failed to start")]
    StartFailed(StartFailed),
    /// No application of the name has a child of the Id.
    #[error("no such child")]
    NoChild,
    /// The child is not due.
    #[error("the child is not due")]
    NotDue,
}

/// As it is displayed.
impl fmt::Debug for SysError {
    fn fmt<W: fmt::Write>(&self, f: &mut fmt::Formatter<W>) -> fmt::Result {
        write!(f, "{self}")
    }
}

impl Same for SysError {
    fn same(&self, other: &SysError) -> bool {
        match (self, other) {
            (SysError::StartFailed(one), SysError::StartFailed(another)) => one.same(another),
            (SysError::NoChild, SysError::NoChild) => true,
            (SysError::NotDue, SysError::NotDue) => true,
            (_, _) => false,
        }
    }
}

impl Duplicate for SysError {
    fn copy(&self, alloc: Global) -> Result<SysError, AllocError> {
        match self {
            SysError::StartFailed(failed) => Ok(SysError::StartFailed(failed.copy(alloc)?)),
            SysError::NoChild => Ok(SysError::NoChild),
            SysError::NotDue => Ok(SysError::NotDue),
        }
    }
}

// Releases in the list.
use crate::status::Status;
use release_table::Release;
use std::alloc::{AllocError, Global};
use values::{Duplicate, Same};

/// A release that a node has, and its status.
#[derive(Drop)]
pub struct Listed {
    /// The release.
    pub release: Release,
    /// Its status.
    pub status: Status,
}

impl Same for Listed {
    fn same(&self, other: &Listed) -> bool {
        self.status == other.status && self.release.same(&other.release)
    }
}

impl Duplicate for Listed {
    fn copy(&self, alloc: Global) -> Result<Listed, AllocError> {
        Ok(Listed {
            release: self.release.copy(alloc)?,
            status: self.status,
        })
    }
}

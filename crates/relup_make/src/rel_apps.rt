// A release with its applications.
use otp_files::{AppSpec, RelSpec};
use std::alloc::{AllocError, Global};
use values::{Duplicate, Row, Same};

/// A release and the specifications of its applications.
#[derive(Drop)]
pub struct RelApps {
    /// The release.
    pub rel: RelSpec,
    /// The applications that the release names, without kernel, stdlib and sasl, in any order. Of two with one name the
    /// first counts; one that the release doesn't name is neither changed nor added on the way to it, nor removed on the way
    /// from it.
    pub apps: Row<AppSpec>,
}

impl Same for RelApps {
    fn same(&self, other: &RelApps) -> bool {
        self.rel.same(&other.rel) && self.apps.same(&other.apps)
    }
}

impl Duplicate for RelApps {
    fn copy(&self, alloc: Global) -> Result<RelApps, AllocError> {
        Ok(RelApps {
            rel: self.rel.copy(alloc)?,
            apps: self.apps.copy(alloc)?,
        })
    }
}

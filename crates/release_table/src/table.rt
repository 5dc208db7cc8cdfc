// Releases as values.
use erl_ir::Module;
use otp_files::{AppSpec, Appup, RelSpec, Relup};
use std::alloc::{AllocError, Global};
use values::{Duplicate, Row, Same};

/// What the files of an application say.
#[derive(Drop)]
pub struct AppFiles {
    /// Its `.app`.
    pub spec: AppSpec,
    /// Its `.appup`, if it has one.
    pub appup: Option<Appup>,
    /// The modules of its sources, in the order of its key `modules`.
    pub modules: Row<Module>,
}

/// A release.
#[derive(Drop)]
pub struct Release {
    /// Its `.rel`.
    pub rel: RelSpec,
    /// Its relup: how it is upgraded from other releases, and downgraded to them.
    pub relup: Relup,
    /// The files of its applications, in the order of the `.rel`, but for `kernel`, `stdlib` and `sasl`, which have none.
    pub apps: Row<AppFiles>,
}

impl Same for AppFiles {
    fn same(&self, other: &AppFiles) -> bool {
        self.spec.same(&other.spec)
            && self.appup.same(&other.appup)
            && self.modules.same(&other.modules)
    }
}

impl Duplicate for AppFiles {
    fn copy(&self, alloc: Global) -> Result<AppFiles, AllocError> {
        Ok(AppFiles {
            spec: self.spec.copy(alloc)?,
            appup: self.appup.copy(alloc)?,
            modules: self.modules.copy(alloc)?,
        })
    }
}

impl Same for Release {
    fn same(&self, other: &Release) -> bool {
        self.rel.same(&other.rel) && self.relup.same(&other.relup) && self.apps.same(&other.apps)
    }
}

impl Duplicate for Release {
    fn copy(&self, alloc: Global) -> Result<Release, AllocError> {
        Ok(Release {
            rel: self.rel.copy(alloc)?,
            relup: self.relup.copy(alloc)?,
            apps: self.apps.copy(alloc)?,
        })
    }
}

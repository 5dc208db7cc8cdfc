// Why no relup is made.
use erl_term::Atom;
use release_words::Version;
use std::alloc::{AllocError, Global};
use std::fmt;
use thiserror::Error;
use values::{Duplicate, Same};

/// Why no relup is made of two releases, told in this order; of the last three what stands against the script up comes
/// before what stands against the script down, and each in the order of its work.
#[derive(Drop, Error)]
pub enum MakeError {
    /// The two releases have not the same runtime system.
    #[error("the runtime system is another one")]
    ErtsChanged,
    /// The first of kernel, stdlib and sasl that has two versions, or stands in one release alone.
    #[error("the base application {} is another one", .0.as_str())]
    BaseChanged(Atom),
    /// The application has no appup, or none of its new version; or an instruction is on an application that is not in
    /// the release where it has to be: in the target to be added, in the source to be removed, in both to be restarted.
    #[error("there is no appup for the application {}", .0.as_str())]
    NoAppup(Atom),
    /// The application's appup has no entry for this version, its old one.
    #[error("the appup of {} has no entry for {}", .0.as_str(), .1.as_str())]
    NoEntry(Atom, Version),
    /// An instruction is on a module that the application has not: in the source where it is deleted, else in the target.
    #[error("the module {} is unknown", .0.as_str())]
    UnknownModule(Atom),
    /// Memory was refused.
    #[error("out of memory")]
    Memory,
}

/// As it is displayed, for a name has no other form.
impl fmt::Debug for MakeError {
    fn fmt<W: fmt::Write>(&self, f: &mut fmt::Formatter<W>) -> fmt::Result {
        write!(f, "{self}")
    }
}

impl Same for MakeError {
    fn same(&self, other: &MakeError) -> bool {
        match (self, other) {
            (MakeError::ErtsChanged, MakeError::ErtsChanged) => true,
            (MakeError::BaseChanged(one), MakeError::BaseChanged(another)) => one.same(another),
            (MakeError::NoAppup(one), MakeError::NoAppup(another)) => one.same(another),
            (MakeError::NoEntry(app, vsn), MakeError::NoEntry(other, version)) => {
                app.same(other) && vsn.same(version)
            }
            (MakeError::UnknownModule(one), MakeError::UnknownModule(another)) => one.same(another),
            (MakeError::Memory, MakeError::Memory) => true,
            (_, _) => false,
        }
    }
}

impl Duplicate for MakeError {
    fn copy(&self, alloc: Global) -> Result<MakeError, AllocError> {
        match self {
            MakeError::ErtsChanged => Ok(MakeError::ErtsChanged),
            MakeError::BaseChanged(app) => Ok(MakeError::BaseChanged(app.copy(alloc)?)),
            MakeError::NoAppup(app) => Ok(MakeError::NoAppup(app.copy(alloc)?)),
            MakeError::NoEntry(app, vsn) => {
                let app = app.copy(alloc)?;
                Ok(MakeError::NoEntry(app, vsn.copy(alloc)?))
            }
            MakeError::UnknownModule(module) => Ok(MakeError::UnknownModule(module.copy(alloc)?)),
            MakeError::Memory => Ok(MakeError::Memory),
        }
    }
}

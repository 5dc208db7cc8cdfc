// Why no node starts.
use release_boot::BootError;
use release_files::{Files, ReleaseFault};
use std::fmt;
use thiserror::Error;

/// Why no node starts.
#[derive(Drop, Error)]
pub enum StartFault {
    /// The files are no release.
    #[error("{fault}")]
    OfFiles {
        /// The first fault of the release's files.
        fault: ReleaseFault,
        /// All files, as they were given.
        files: Files,
    },
    /// The release doesn't boot.
    #[error("{0}")]
    OfBoot(BootError),
    /// Memory was refused.
    #[error("out of memory")]
    NoMemory,
}

/// As it is displayed.
impl fmt::Debug for StartFault {
    fn fmt<W: fmt::Write>(&self, f: &mut fmt::Formatter<W>) -> fmt::Result {
        write!(f, "{self}")
    }
}

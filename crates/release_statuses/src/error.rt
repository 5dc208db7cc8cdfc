// Why a change of the releases is refused.
use crate::status::Status;
use thiserror::Error;

/// Why a change of the releases is refused. The version is the one that the change names.
#[derive(Clone, Copy, Debug, PartialEq, Eq, Error)]
pub enum RelError {
    /// A release of the version is there.
    #[error("a release of this version is there already")]
    Exists,
    /// No release of the version is there.
    #[error("there is no release of this version")]
    NoSuchRelease,
    /// The release of the version runs.
    #[error("the release of this version is installed already")]
    AlreadyInstalled,
    /// The release of the version is the permanent one.
    #[error("the release of this version is permanent")]
    Permanent,
    /// The release of the version has a status with which the change can't be made.
    #[error("the release of this version has another status")]
    BadStatus(Status),
}

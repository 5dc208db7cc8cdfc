// Statuses of releases.

/// The status of a release (release_handler(3), which_releases).
#[derive(Clone, Copy, Debug, PartialEq, Eq)]
pub enum Status {
    /// It is known, and was not installed.
    Unpacked,
    /// It is installed, and runs until the next restart.
    Current,
    /// It is installed, and runs again after a restart.
    Permanent,
    /// It was installed, and another release has taken its place.
    Old,
}

// Why a change of the table is refused.
use thiserror::Error;

/// Why the code server refuses a change. The table is then as it was.
#[derive(Clone, Copy, Debug, PartialEq, Eq, Error)]
pub enum CodeError {
    /// The module has no current code.
    #[error("the module has no current code")]
    NotLoaded,
    /// The module has old code, which has to be purged first.
    #[error("the module has old code that is not purged")]
    NotPurged,
    /// The module's old code is in use.
    #[error("the module's old code is in use")]
    OldInUse,
    /// The last load serial was given.
    #[error("the last load serial was given")]
    CounterEnd,
}

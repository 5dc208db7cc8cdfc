// Why a call of a journal is refused.
use crate::journal::Mark;
use crate::report::Report;
use std::fmt::{Debug, Display};
use thiserror::Error;

/// Why a call of a journal is refused. [`Journal::perform`](crate::Journal::perform) looks for
/// `SerialEnd`, then `Step`, then `Memory`; [`Journal::undo`](crate::Journal::undo) for `Forgotten`,
/// then `DeadMark`, then `Memory`; [`Journal::forget`](crate::Journal::forget) for `Forgotten`, then
/// `DeadMark`.
#[derive(Drop, Error)]
#[error_bound(F: Debug + Display + Drop, N: Debug + Drop)]
pub enum JournalError<F, N> {
    /// The machine's rule refuses the event.
    #[error("the step is refused: {0}")]
    Step(F),
    /// The mark is below the first station's. Its station was forgotten, or cut before that.
    #[error("the mark is below the first station's")]
    Forgotten,
    /// Any other mark without a station: the station was cut, or the mark was never given.
    #[error("no station has this mark")]
    DeadMark,
    /// The last serial is `2^64 - 1`: there is none for another step.
    #[error("no serial is left")]
    SerialEnd,
    /// Memory was refused.
    #[error("out of memory at mark {mark}")]
    Memory {
        /// Where the journal stands: where it stood before the call, or, in an undo, at the station
        /// that it reached.
        mark: Mark,
        /// In an undo the reports of what was cut up to there, and none where nothing was.
        reports: Vec<Report<N>>,
    },
}

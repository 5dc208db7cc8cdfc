// How a line ends if an allocation fails.
use undo_journal::Mark;

/// How a line ends if an allocation fails.
#[derive(Clone, Copy)]
pub enum Fate {
    /// The line changed nothing: its text was not read, or no refusal applies to it that is found without memory.
    Refused,
    /// The line's undo stopped at this mark.
    StoppedAt(Mark),
}

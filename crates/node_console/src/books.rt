// What the console keeps beside the shell.
use console_answers::{LoggedStep, NamedMark};

/// What the console keeps beside the shell: the steps that lines made and that are not undone, and the names of marks.
#[derive(Drop)]
pub struct Books {
    /// The steps, in order.
    pub(crate) steps: Vec<LoggedStep>,
    /// The names.
    pub(crate) marks: Vec<NamedMark>,
}

// Entries of a history, and lines of a seat.
ghost use Rattle.std.specs.Prelude.{◌≡◌, ◌↔◌, IsTrue};
ghost use Rattle.node_history.specs.Lists.{line_of};

use crate::command::{Command, Fault, Said};
use node_types::Note;
use values::Same;

/// What was done in one holding of the node.
#[derive(Drop)]
pub struct Entry {
    /// The number of the seat that asked, from 1: the client whose calls and replies are the seat's.
    pub seat: u64,
    /// What it asked; of an undo that has stopped, the undo to the mark that it reached.
    pub command: Command,
    /// What it was answered, or why not.
    pub answer: Result<Said, Fault>,
    /// What an undo of the step reports, where a step was made.
    pub note: Option<Note>,
}

/// What a seat keeps of an entry of its own.
#[derive(Drop)]
pub struct Line {
    /// What it asked; of an undo that has stopped, the undo to the mark that it reached.
    pub command: Command,
    /// What it was answered, or why not.
    pub answer: Result<Said, Fault>,
}

impl Line {
    ghost use Rattle.std.specs.Prelude.{◌≡◌, ◌↔◌, IsTrue};
    ghost use Rattle.node_history.specs.Lists.{line_of};

    /// Whether it is what a seat keeps of an entry. Takes no memory.
    pub fn is_of(&self, entry: &Entry) -> bool
        ensures { IsTrue result ↔ (self.now ≡ line_of entry.now) }
    {
        self.command.same(&entry.command) && is_same_answer(&self.answer, &entry.answer)
    }
}

/// Whether two answers are equal.
fn is_same_answer(answer: &Result<Said, Fault>, other: &Result<Said, Fault>) -> bool
    ensures { IsTrue result ↔ (answer.now ≡ other.now) }
{
    match (answer, other) {
        (Ok(said), Ok(with)) => said.same(with),
        (Err(fault), Err(with)) => fault.same(with),
        (_, _) => false,
    }
}

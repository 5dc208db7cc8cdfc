// Marks: undos to them, and what is forgotten before them.
ghost use Rattle.std.specs.Prelude.{IfOk};
ghost use Rattle.shell_state.specs.Serving.{Forgets, Undoes};
ghost use Rattle.shell_state.specs.Done.{IsDone};

use crate::shell::{SPARE, Shell};
use shell_steps::{Said, tell_forget, tell_undo, undo_steps};
use undo_journal::Mark;

impl Shell {
    /// Undoes every step after a mark, and tells what was undone. Behind it memory is kept back again for the next one,
    /// where it is there.
    pub fn undo(&mut self, mark: Mark, out: &mut Vec<u8>) -> Said
        ensures { IfOk result (λ fate. IsDone (Undoes self.old mark fate) self.new out.old.items out.new.items) }
    {
        let said = {
            let done = undo_steps(self.alloc, &mut self.journal, &mut self.spare, mark);
            tell_undo(self.alloc, &done, out)
        };
        let _ = self.spare.reserve(SPARE);
        said
    }

    /// Forgets every station before a mark's, and tells the floor. Takes no memory: what is forgotten is let go of.
    pub fn forget(&mut self, mark: Mark, out: &mut Vec<u8>) -> Said
        ensures { IfOk result (λ fate. IsDone (Forgets self.old mark fate) self.new out.old.items out.new.items) }
    {
        let done = self.journal.forget(mark);
        tell_forget(self.alloc, mark, &done, out)
    }
}

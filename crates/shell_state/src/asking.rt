// Questions.
ghost use Rattle.std.specs.Prelude.{◌≡◌, ◌++◌, IfOk, OnOk};
ghost use Rattle.erl_term.specs.Tree.{list};
ghost use Rattle.shell_answers.specs.Answers.{line_of, replies_in};
ghost use Rattle.shell_state.specs.Done.{IsDone};
ghost use Rattle.shell_state.specs.Serving.{Asks};
ghost use Rattle.shell_requests.specs.declared.request.Question.TheVariants as questions;

use crate::shell::Shell;
use shell_answers::{
    names_in_releases, write_apps, write_mark, write_modules, write_releases, write_replies,
};
use shell_requests::Question;
use shell_steps::{Said, refuse};
use std::alloc::AllocError;

impl Shell {
    /// Tells what is asked.
    pub fn tell(&self, question: Question, out: &mut Vec<u8>) -> Said
        ensures { IfOk result (λ fate. IsDone (Asks self.now question fate) self.now out.old.items out.new.items) }
    {
        match question {
            Question::Modules => write_modules(self.journal.state().modules(), out)?,
            Question::Apps => write_apps(self.journal.state().apps(), out)?,
            Question::Replies => self.tell_replies(out)?,
            Question::Mark => write_mark(self.journal.mark(), out)?,
            Question::Which => return self.tell_releases(out),
        }
        Ok(None)
    }

    /// Tells all replies that were ever sent.
    fn tell_replies(&self, out: &mut Vec<u8>) -> Result<(), AllocError>
        ensures { OnOk result (out.new.items ≡ out.old.items ++ line_of (list (replies_in self.now.sent))) }
    {
        write_replies(self.sent.as_slice(), out)
    }

    /// Tells the releases that the node knows. What is written is made before, so that it is told where there is no memory
    /// for it.
    fn tell_releases(&self, out: &mut Vec<u8>) -> Said
        ensures { IfOk result (λ fate. IsDone (Asks self.now questions.Which fate) self.now out.old.items out.new.items) }
    {
        let releases = self.node().releases().as_slice();
        let Ok(names) = names_in_releases(self.alloc, releases) else {
            return refuse(out);
        };
        write_releases(releases, names.as_slice(), out)?;
        Ok(None)
    }
}

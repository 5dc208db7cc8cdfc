// Old code that scripts have left.
ghost use Rattle.std.specs.Prelude.{◌≡◌, ◌++◌, IfOk, None};
ghost use Rattle.shell_answers.specs.Answers.{line_of};
ghost use Rattle.shell_state.specs.Done.{IsDone};
ghost use Rattle.shell_state.specs.Performing.{swept_in};
ghost use Rattle.shell_upgrades.specs.Upgrades.{Sweeps};

use node_types::{Answer, Event};
use shell_answers::{Fixed, write_swept};
use shell_state::{Said, Shell, say, tell_halt};

/// Purges old code that scripts have left to be purged softly, where nobody lingers in it.
pub fn sweep(held: &mut Shell, out: &mut Vec<u8>) -> Said
    ensures { IfOk result (λ fate. IsDone (Sweeps held.old fate) held.new out.old.items out.new.items) }
{
    match held.perform(Event::Sweep) {
        Ok(answer) => tell_swept(&answer, out),
        Err(halt) => tell_halt(halt, out),
    }
}

/// Tells the modules whose old code was purged.
pub fn tell_swept(answer: &Answer, out: &mut Vec<u8>) -> Said
    ensures { IfOk result (λ fate. (fate ≡ None) × (out.new.items ≡ out.old.items ++ line_of (swept_in answer.now))) }
{
    match answer {
        Answer::Swept(modules) => {
            write_swept(modules.as_slice(), out)?;
            Ok(None)
        }
        Answer::Job(_) | Answer::Revived(_) | Answer::Killed(_) => say(Fixed::Done, out),
        Answer::Installing { .. } | Answer::Ran(_) | Answer::Finished { .. } => {
            say(Fixed::Done, out)
        }
        Answer::Recovered(_) | Answer::Restarted(_) | Answer::Unit => say(Fixed::Done, out),
    }
}

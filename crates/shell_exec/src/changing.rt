// Changes of modules that need nothing but a name.
ghost use Rattle.std.specs.Prelude.{◌≡◌, ◌++◌, IfOk, None};
ghost use Rattle.std.specs.Str.{chars};
ghost use Rattle.shell_answers.specs.Answers.{line_of};
ghost use Rattle.shell_exec.specs.Execution.{Changes, change_event};
ghost use Rattle.shell_upgrades.specs.Performing.{truth_in};
ghost use Rattle.shell_upgrades.specs.Done.{IsDone};
ghost use Rattle.shell_upgrades.specs.Halts.{Halts};
ghost use Rattle.shell_exec.specs.Done.{refusal_of_change};

use code_loading::is_lingered_in;
use code_server::CodeError;
use erl_term::Atom;
use node_types::{Answer, Event, Refusal};
use shell_answers::Fixed;
use shell_requests::{CodeOperation, Name};
use shell_upgrades::{Halt, Node, Said, Shell, say, tell_halt};

/// Deletes or purges a module's code.
pub(crate) fn change(
    held: &mut Shell,
    kind: CodeOperation,
    name: Name<'_>,
    out: &mut Vec<u8>,
) -> Said
    ensures { IfOk result (λ fate. IsDone (Changes held.old kind (chars name.entry.text.now) fate) held.new out.old.items
        out.new.items) }
{
    let Ok(atom) = name.atom(held.alloc()) else {
        return tell_halt(halt_of_change(held, kind, name), out);
    };
    match held.perform(change_event(kind, atom)) {
        Ok(answer) => tell_truth(&answer, out),
        Err(halt) => tell_halt(halt, out),
    }
}

/// What stands against a change for whose name there was no memory, or else want of it.
fn halt_of_change(held: &Shell, kind: CodeOperation, name: Name<'_>) -> Halt
    ensures { Halts result held.now (change_event kind (chars name.entry.text.now)) }
{
    if held.is_full() {
        return Halt::Full;
    }
    if held.node().is_installing() {
        return Halt::Refused(Refusal::Installing);
    }
    match change_refusal(held.node(), kind, name) {
        Some(why) => Halt::Refused(Refusal::OfModules(why)),
        None => Halt::Memory,
    }
}

/// The event of a change.
pub fn change_event(kind: CodeOperation, name: Atom) -> Event
    ensures { result ≡ change_event kind name }
{
    match kind {
        CodeOperation::Delete => Event::Delete(name),
        CodeOperation::Purge => Event::Purge(name),
        CodeOperation::SoftPurge => Event::SoftPurge(name),
    }
}

/// Why a change would be refused where no script runs. Takes no memory: it walks over the modules.
fn change_refusal(node: &Node, kind: CodeOperation, name: Name<'_>) -> Option<CodeError>
    ensures { result ≡ refusal_of_change kind (chars name.entry.text.now) node.now }
{
    let known = node.modules().find(name.as_str());
    match kind {
        CodeOperation::Delete => match known {
            Some(name) => node.modules().delete_refusal(name),
            None => Some(CodeError::NotLoaded),
        },
        CodeOperation::Purge => None,
        CodeOperation::SoftPurge => match known {
            Some(name) if is_lingered_in(node.modules(), node.processes(), name) => {
                Some(CodeError::OldInUse)
            }
            _ => None,
        },
    }
}

/// Tells whether processes were killed, and else `true`.
pub fn tell_truth(answer: &Answer, out: &mut Vec<u8>) -> Said
    ensures { IfOk result (λ fate. (fate ≡ None) × (out.new.items ≡ out.old.items ++ line_of (truth_in answer.now))) }
{
    match answer {
        Answer::Killed(false) => say(Fixed::False, out),
        Answer::Killed(true) | Answer::Job(_) | Answer::Revived(_) => say(Fixed::True, out),
        Answer::Installing { .. } | Answer::Ran(_) | Answer::Finished { .. } => {
            say(Fixed::True, out)
        }
        Answer::Recovered(_) | Answer::Restarted(_) | Answer::Swept(_) => say(Fixed::True, out),
        Answer::Unit => say(Fixed::True, out),
    }
}

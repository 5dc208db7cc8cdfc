// Children that are revived.
ghost use Rattle.std.specs.Prelude.{◌≡◌, ◌++◌, IfOk, MatchOption, None, position};
ghost use Rattle.std.specs.Option.{option_copied};
ghost use Rattle.std.specs.Str.{chars};
ghost use Rattle.app_table.specs.Applications.{app_of, has_id};
ghost use Rattle.erl_term.specs.declared.term.Term.TheVariants as term;
ghost use Rattle.node_types.specs.declared.event.Event.TheVariants.{Revive};
ghost use Rattle.shell_answers.specs.Answers.{line_of};
ghost use Rattle.shell_exec.specs.Execution.{RevivesChild};
ghost use Rattle.shell_upgrades.specs.Performing.{revived_in};
ghost use Rattle.shell_upgrades.specs.Done.{IsDone};
ghost use Rattle.shell_exec.specs.Done.{child_called, is_id};
ghost use Rattle.shell_upgrades.specs.Halts.{Halts};
ghost use Rattle.sys_protocol.specs.Refusals.{IsDue, IsNotDue};

use crate::naming::spells;
use erl_term::Term;
use node_types::{Answer, Event, Refusal};
use shell_answers::{Fixed, write_revived};
use shell_requests::Name;
use shell_upgrades::{Halt, Said, Shell, say, tell_halt};
use std::alloc::{AllocError, Global};
use sys_protocol::{App, AppTable, Child, SysError};

/// Revives a child of an application, by its Id.
pub(crate) fn revive(held: &mut Shell, app: Name<'_>, id: Name<'_>, out: &mut Vec<u8>) -> Said
    ensures { IfOk result (λ fate. IsDone (RevivesChild held.old (chars app.entry.text.now) (chars id.entry.text.now) fate)
        held.new out.old.items out.new.items) }
{
    let Ok(event) = revive_event(held.alloc(), app, id) else {
        return tell_halt(halt_of_revival(held, app, id), out);
    };
    match held.perform(event) {
        Ok(answer) => tell_revived(&answer, out),
        Err(halt) => tell_halt(halt, out),
    }
}

/// What stands against a revival for whose names there was no memory, or else want of it.
fn halt_of_revival(held: &Shell, app: Name<'_>, id: Name<'_>) -> Halt
    ensures { Halts result held.now (Revive (chars app.entry.text.now) (term.Atom (chars id.entry.text.now))) }
{
    if held.is_full() {
        return Halt::Full;
    }
    match revive_refusal(held.node().apps(), app, id) {
        Some(why) => Halt::Refused(Refusal::OfApps(why)),
        None => Halt::Memory,
    }
}

/// The event of a revival.
pub fn revive_event(alloc: Global, app: Name<'_>, id: Name<'_>) -> Result<Event, AllocError>
    ensures { IfOk result (λ it. it ≡ Revive (chars app.entry.text.now) (term.Atom (chars id.entry.text.now))) }
{
    let app = app.atom(alloc)?;
    let id = Term::Atom(id.atom(alloc)?);
    Ok(Event::Revive { app, id })
}

/// Tells which process a child runs as.
pub fn tell_revived(answer: &Answer, out: &mut Vec<u8>) -> Said
    ensures { IfOk result (λ fate. (fate ≡ None) × (out.new.items ≡ out.old.items ++ line_of (revived_in answer.now))) }
{
    match answer {
        Answer::Revived(pid) => {
            let pid = *pid;
            write_revived(pid, out)?;
            Ok(None)
        }
        Answer::Job(_) | Answer::Killed(_) | Answer::Installing { .. } => say(Fixed::Done, out),
        Answer::Ran(_) | Answer::Finished { .. } | Answer::Recovered(_) => say(Fixed::Done, out),
        Answer::Restarted(_) | Answer::Swept(_) | Answer::Unit => say(Fixed::Done, out),
    }
}

/// Why a child isn't revived, whatever its start would come to. Takes no memory: it walks over the applications.
fn revive_refusal(apps: &AppTable, app: Name<'_>, id: Name<'_>) -> Option<SysError>
    ensures { MatchOption result (IsDue (chars app.entry.text.now) (term.Atom (chars id.entry.text.now)) apps.now)
        (λ e. IsNotDue e (chars app.entry.text.now) (term.Atom (chars id.entry.text.now)) apps.now) }
{
    let Some(app) = find_app(apps, app.as_str()) else {
        return Some(SysError::NoChild);
    };
    match find_child(app.children(), id.as_str()) {
        Some(child) if child.is_due() => None,
        Some(_) => Some(SysError::NotDue),
        None => Some(SysError::NoChild),
    }
}

/// The application whose name a text spells.
fn find_app<'a>(apps: &'a AppTable, text: &str) -> Option<&'a App>
    ensures { option_copied result ≡ app_of (chars text.now) apps.now }
{
    for index in 0..apps.len() {
        let app = apps.app(index)?;
        if spells(&app.spec().name, text) {
            return Some(app);
        }
    }
    None
}

/// The child whose Id is the atom that a text spells.
fn find_child<'a>(children: &'a [Child], text: &str) -> Option<&'a Child>
    ensures { option_copied result ≡ child_called (term.Atom (chars text.now)) children.now }
{
    let index = index_of(children, text)?;
    children.get(index)
}

/// Where the child stands whose Id is the atom that a text spells.
fn index_of(children: &[Child], text: &str) -> Option<usize>
    ensures { result ≡ position (has_id (term.Atom (chars text.now))) children.now }
{
    children
        .iter()
        .position(|child| is_called(&child.spec.id, text))
}

/// Whether a term is the atom that a text spells.
fn is_called(id: &Term, text: &str) -> bool
    ensures { result ≡ is_id (term.Atom (chars text.now)) id.now }
{
    match id.as_atom() {
        Some(name) => spells(name, text),
        None => false,
    }
}

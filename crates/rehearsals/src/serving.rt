// What the served messages caused that is likely wrong.
ghost use Rattle.std.specs.Prelude.{◌≡◌, ◌↔◌, IsTrue, OnOk, Some};
ghost use Rattle.rehearsals.specs.Observing.{HasCallDown, HasDown, IsCallDown, IsDown, IsExit, IsExitOf, IsNewName, IsNewlyUnheard};
ghost use Rattle.rehearsals.specs.Observing.{IsServedBadly, IsUnheardIn, IsUnheardOf};
ghost use Rattle.rehearsals.specs.declared.observing.Observation.TheVariants.{Ends, Unheard};
ghost use Rattle.upgrade_review.specs.Gathering.{Adds};

use crate::happening::{Exit, Happening};
use crate::observing::{Moment, Observation};
use erl_term::Atom;
use process_effects::{Reply, ReplyBody};
use std::alloc::{AllocError, Global};
use upgrade_review::note;
use values::Duplicate;

/// Notes what the served messages caused: which processes have ended, whether a call got no reply, and which names no process
/// had, except those that no process had with what happened `first`.
pub(crate) fn note_served(
    alloc: Global,
    when: Moment,
    first: &[Happening],
    happened: &[Happening],
    found: &mut Vec<Observation>,
) -> Result<(), AllocError>
    ensures { OnOk result (Adds (IsServedBadly when first.now happened.now) found.old.items found.new.items) }
{
    note_exits(alloc, when, happened, found)?;
    note_downs(when, happened, found)?;
    note_unheard(alloc, when, first, happened, found)
}

/// Notes the processes that ended because of their jobs.
fn note_exits(
    alloc: Global,
    when: Moment,
    happened: &[Happening],
    found: &mut Vec<Observation>,
) -> Result<(), AllocError>
    ensures { OnOk result (Adds (IsExit when happened.now) found.old.items found.new.items) }
{
    for happening in happened {
        note_exit_of(alloc, when, happening, found)?;
    }
    Ok(())
}

/// Notes the process that ended because of its job, if one did.
fn note_exit_of(
    alloc: Global,
    when: Moment,
    happening: &Happening,
    found: &mut Vec<Observation>,
) -> Result<(), AllocError>
    ensures { OnOk result (Adds (IsExitOf when happening.now) found.old.items found.new.items) }
{
    match &happening.exit {
        Some(exit) => note_exit(alloc, when, exit, found),
        None => Ok(()),
    }
}

/// Notes that a process has ended.
fn note_exit(
    alloc: Global,
    when: Moment,
    exit: &Exit,
    found: &mut Vec<Observation>,
) -> Result<(), AllocError>
    ensures { OnOk result (Adds (λ o. o ≡ Ends when exit.now) found.old.items found.new.items) }
{
    let exit = exit.copy(alloc)?;
    note(found, Observation::Ends { when, exit })
}

/// Returns whether a reply is the exit reason of the process that was called.
fn is_down(reply: &Reply) -> bool
    ensures { IsTrue result ↔ IsDown reply.now.body }
{
    matches!(reply.body, ReplyBody::Down(_))
}

/// Returns whether a call got an exit reason.
fn has_down(happening: &Happening) -> bool
    ensures { IsTrue result ↔ HasDown happening.now }
{
    happening
        .replies
        .as_slice()
        .iter()
        .any(|reply| is_down(reply))
}

/// Returns whether a call got an exit reason with any of these events.
fn has_call_down(happened: &[Happening]) -> bool
    ensures { IsTrue result ↔ HasCallDown happened.now }
{
    happened.iter().any(|happening| has_down(happening))
}

/// Notes that a call got an exit reason, if one did.
fn note_downs(
    when: Moment,
    happened: &[Happening],
    found: &mut Vec<Observation>,
) -> Result<(), AllocError>
    ensures { OnOk result (Adds (IsCallDown when happened.now) found.old.items found.new.items) }
{
    if has_call_down(happened) {
        return note(found, Observation::CallsDown { when });
    }
    Ok(())
}

/// Returns whether a message was sent to this name and no process had it.
fn is_unheard_by(happening: &Happening, name: &Atom) -> bool
    ensures { IsTrue result ↔ (happening.now.unheard ≡ Some name.now) }
{
    match &happening.unheard {
        Some(unheard) => unheard == name,
        None => false,
    }
}

/// Returns whether no process had this name when a message was sent to it.
fn is_unheard(happened: &[Happening], name: &Atom) -> bool
    ensures { IsTrue result ↔ IsUnheardIn happened.now name.now }
{
    happened
        .iter()
        .any(|happening| is_unheard_by(happening, name))
}

/// Notes the names that no process had, except those that no process had `first`.
fn note_unheard(
    alloc: Global,
    when: Moment,
    first: &[Happening],
    happened: &[Happening],
    found: &mut Vec<Observation>,
) -> Result<(), AllocError>
    ensures { OnOk result (Adds (IsNewlyUnheard when first.now happened.now) found.old.items found.new.items) }
{
    for happening in happened {
        note_unheard_of(alloc, when, first, happening, found)?;
    }
    Ok(())
}

/// Notes the name that a message was sent to and no process had, if there is one.
fn note_unheard_of(
    alloc: Global,
    when: Moment,
    first: &[Happening],
    happening: &Happening,
    found: &mut Vec<Observation>,
) -> Result<(), AllocError>
    ensures { OnOk result (Adds (IsUnheardOf when first.now happening.now) found.old.items found.new.items) }
{
    match &happening.unheard {
        Some(name) => note_unheard_name(alloc, when, first, name, found),
        None => Ok(()),
    }
}

/// Notes a name that no process had, unless no process had it `first`.
fn note_unheard_name(
    alloc: Global,
    when: Moment,
    first: &[Happening],
    name: &Atom,
    found: &mut Vec<Observation>,
) -> Result<(), AllocError>
    ensures { OnOk result (Adds (IsNewName when first.now name.now) found.old.items found.new.items) }
{
    if is_unheard(first, name) {
        return Ok(());
    }
    let name = name.copy(alloc)?;
    note(found, Observation::Unheard { when, name })
}

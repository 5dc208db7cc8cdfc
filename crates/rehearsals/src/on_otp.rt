// What OTP's release handler does otherwise, judged by an instruction that was executed here.
ghost use Rattle.std.specs.Prelude.{◌≡◌, ◌↔◌, IsTrue, OnOk, length};
ghost use Rattle.std.specs.Option.{option_copied};
ghost use Rattle.erl_term.specs.Term.{tree, trees};
ghost use Rattle.node_questions.specs.Shapes.{tag_of};
ghost use Rattle.node_views.specs.Changes.{process_of};
ghost use Rattle.rehearsals.specs.OnOtp.{GetsSeveral, HasSeveralMessages, IsOrder, IsPassedOver, IsTemporary, OneGetsSeveral, failure_of, is_exit};
ghost use Rattle.rehearsals.specs.OnOtp.{is_exit_tag, is_passed_over, mailbox_of, passes_over};
ghost use Rattle.rehearsals.specs.declared.observing.Observation.TheVariants.{TemporaryOnOtp};
ghost use Rattle.upgrade_review.specs.Gathering.{Adds};

use crate::observing::Observation;
use crate::station::{Outcome, Station};
use erl_term::{Atom, Term};
use low_instructions::{Direction, Low};
use node_questions::tag_of;
use node_views::{NodeView, ProcessView};
use std::alloc::{AllocError, Global};
use upgrade_review::note;
use values::Duplicate;

/// Notes the temporary children that an instruction stops.
pub(crate) fn note_temporary(
    way: Direction,
    index: usize,
    station: &Station,
    found: &mut Vec<Observation>,
) -> Result<(), AllocError>
    ensures { OnOk result (Adds (IsTemporary way index station.now) found.old.items found.new.items) }
{
    for pid in station.outlook.temporary.as_slice() {
        note_stopped(way, index, *pid, found)?;
    }
    Ok(())
}

/// Notes that the process of a temporary child is stopped.
fn note_stopped(
    way: Direction,
    index: usize,
    pid: u64,
    found: &mut Vec<Observation>,
) -> Result<(), AllocError>
    ensures { OnOk result (Adds (λ o. o ≡ TemporaryOnOtp way index pid) found.old.items found.new.items) }
{
    note(found, Observation::TemporaryOnOtp { way, index, pid })
}

/// Notes that an instruction fails and OTP ignores it, if it is so.
pub(crate) fn note_passed_over(
    way: Direction,
    index: usize,
    station: &Station,
    found: &mut Vec<Observation>,
) -> Result<(), AllocError>
    ensures { OnOk result (Adds (IsPassedOver way index station.now) found.old.items found.new.items) }
{
    if is_passed_over(&station.instruction, failure_of(&station.outcome)) {
        return note(found, Observation::PassedOverOnOtp { way, index });
    }
    Ok(())
}

/// Returns the reason for which an instruction has failed, if it has.
fn failure_of(outcome: &Outcome) -> Option<&Term>
    ensures { option_copied result ≡ failure_of outcome.now }
{
    match outcome {
        Outcome::Recovered(reason) | Outcome::Restarted(reason) => Some(reason),
        Outcome::Ran | Outcome::Finished | Outcome::Refused(_) => None,
    }
}

/// Returns whether OTP ignores that an instruction fails for a reason.
fn is_passed_over(instruction: &Option<Low>, reason: Option<&Term>) -> bool
    ensures { result ≡ is_passed_over instruction.now (option_copied reason.entry) }
{
    match (instruction, reason) {
        (Some(low), Some(reason)) => passes_over(low, reason),
        (_, _) => false,
    }
}

/// Returns whether OTP ignores that an instruction fails for this reason.
fn passes_over(low: &Low, reason: &Term) -> bool
    ensures { result ≡ passes_over low.now reason.now }
{
    match low {
        Low::Start { .. } => true,
        Low::Apply { .. } => !is_exit(reason),
        _ => false,
    }
}

/// Returns whether a reason is that of a function that ended with an exit.
fn is_exit(reason: &Term) -> bool
    ensures { result ≡ is_exit (tree reason.now) }
{
    match reason {
        Term::Tuple(row) => is_exit_tag(tag_of(row.as_slice())),
        Term::Int(_) | Term::Atom(_) | Term::Pid(_) | Term::List(_) => false,
    }
}

/// Returns whether a tag is that of an exit.
fn is_exit_tag(tag: Option<&Atom>) -> bool
    ensures { result ≡ is_exit_tag (option_copied tag.entry) }
{
    match tag {
        Some(tag) => tag.is("EXIT"),
        None => false,
    }
}

/// Notes the modules that several children name, if an instruction changes or starts these children and puts several messages
/// into one mailbox.
pub(crate) fn note_order(
    alloc: Global,
    way: Direction,
    index: usize,
    before: &NodeView,
    station: &Station,
    found: &mut Vec<Observation>,
) -> Result<(), AllocError>
    ensures { OnOk result (Adds (IsOrder way index before.now station.now) found.old.items found.new.items) }
{
    if !has_several_messages(before, station) {
        return Ok(());
    }
    for name in station.outlook.several.as_slice() {
        let module = name.copy(alloc)?;
        note(found, Observation::OrderOnOtp { way, index, module })?;
    }
    Ok(())
}

/// Returns whether an instruction was executed and has put several messages into one mailbox.
fn has_several_messages(before: &NodeView, station: &Station) -> bool
    ensures { IsTrue result ↔ HasSeveralMessages before.now station.now }
{
    station.outcome.is_carried_out() && one_gets_several(before, &station.behind)
}

/// Returns whether a process has received several messages.
fn one_gets_several(before: &NodeView, after: &NodeView) -> bool
    ensures { IsTrue result ↔ OneGetsSeveral before.now after.now }
{
    for pid in 0..after.processes.as_slice().len() as u64 {
        if gets_several(before, after, pid) {
            return true;
        }
    }
    false
}

/// Returns whether a process has received several messages.
fn gets_several(before: &NodeView, after: &NodeView, pid: u64) -> bool
    ensures { IsTrue result ↔ GetsSeveral before.now after.now pid }
{
    let old = waiting(before.process(pid));
    let new = waiting(after.process(pid));
    new.saturating_sub(old) >= 2
}

/// Returns the number of messages that wait for a process.
fn waiting(process: Option<&ProcessView>) -> usize
    ensures { result ≡ length (mailbox_of (option_copied process.entry)) }
{
    match process {
        Some(process) => process.mailbox.as_slice().len(),
        None => 0,
    }
}

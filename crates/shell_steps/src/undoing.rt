// Undos, and what is forgotten.
ghost use Rattle.std.specs.Prelude.{◌≡◌, ◌++◌, ◌↔◌, [], IfErr, IfOk, IsTrue, None, OnOk, Some, replicate};
ghost use Rattle.shell_answers.specs.Answers.{line_of, stopped_undo, undone_steps};
ghost use Rattle.undo_journal.specs.Journal.{UndoFails};
ghost use Rattle.undo_journal.specs.Timeline.{cut_stations, cut_to, report_of};
ghost use Rattle.shell_steps.specs.Undone.{IsUnbegun, first_of, forget_answer, forget_fate, undo_answer, undo_fate, unfinished_answer, unfinished_fate};
ghost use Rattle.shell_steps.specs.declared.fate.Fate.TheVariants.{StoppedAt};

use crate::fate::Fate;
use crate::telling::{Said, say};
use node_core::Node;
use node_types::{Note, Refusal};
use shell_answers::{Fixed, write_floor, write_stopped, write_undone};
use std::alloc::Global;
use undo_journal::{Journal, JournalError, Mark, Report};
use values::Row;

/// How an undo ends.
pub type Undone = Result<Vec<Report<Note>>, JournalError<Refusal, Note>>;

/// Undoes every step after a mark, and reports it once. Where it finds no memory, and has cut nothing, it is tried once
/// more with what was kept back for it.
pub fn undo_steps(
    alloc: Global,
    journal: &mut Journal<Node>,
    spare: &mut Vec<u8>,
    mark: Mark,
) -> Undone
    ensures undone { OnOk result (cut_to mark journal.old ≡ Some journal.new) }
    ensures reported { IfOk result (λ reports. reports.items ≡ replicate 1 (report_of (cut_stations journal.old journal.new))) }
    ensures err { IfErr result (UndoFails mark 1 journal.old journal.new) }
{
    let done = journal.undo(mark, 1);
    if !is_unbegun(&done) {
        return done;
    }
    *spare = Vec::new(alloc);
    journal.undo(mark, 1)
}

/// Whether an undo found no memory, and cut nothing.
fn is_unbegun(done: &Undone) -> bool
    ensures { IsTrue result ↔ IsUnbegun done.now }
{
    match done {
        Err(JournalError::Memory { reports, .. }) => reports.is_empty(),
        _ => false,
    }
}

/// The report of an undo that cut nothing.
fn nothing_cut(alloc: Global) -> Report<Note>
    ensures { result ≡ first_of [] }
{
    Report {
        cut: 0,
        notes: Row::new(Vec::new(alloc)),
    }
}

/// Tells what was undone.
pub fn tell_undone(alloc: Global, reports: &[Report<Note>], out: &mut Vec<u8>) -> Said
    ensures { IfOk result (λ fate. (fate ≡ None) ×
        (out.new.items ≡ out.old.items ++ line_of (undone_steps (first_of reports.now)))) }
{
    match reports {
        [report, ..] => write_undone(report, out)?,
        [] => write_undone(&nothing_cut(alloc), out)?,
    }
    Ok(None)
}

/// Tells what was undone by an undo that stopped at a mark.
pub fn tell_stopped(alloc: Global, mark: Mark, reports: &[Report<Note>], out: &mut Vec<u8>) -> Said
    ensures { IfOk result (λ fate. (fate ≡ Some (StoppedAt mark)) ×
        (out.new.items ≡ out.old.items ++ line_of (stopped_undo mark (first_of reports.now)))) }
{
    match reports {
        [report, ..] => write_stopped(mark, report, out)?,
        [] => write_stopped(mark, &nothing_cut(alloc), out)?,
    }
    Ok(Some(Fate::StoppedAt(mark)))
}

/// Tells why an undo did not reach its mark. `Step` and `SerialEnd` are no errors of an undo.
fn tell_unfinished(alloc: Global, error: &JournalError<Refusal, Note>, out: &mut Vec<u8>) -> Said
    ensures { IfOk result (λ fate. (fate ≡ unfinished_fate error.now) ×
        (out.new.items ≡ out.old.items ++ line_of (unfinished_answer error.now))) }
{
    match error {
        JournalError::Memory { mark, reports } => {
            let mark = *mark;
            tell_stopped(alloc, mark, reports.as_slice(), out)
        }
        JournalError::Forgotten => say(Fixed::Forgotten, out),
        JournalError::DeadMark | JournalError::Step(_) | JournalError::SerialEnd => {
            say(Fixed::DeadMark, out)
        }
    }
}

/// Tells how an undo ended.
pub fn tell_undo(alloc: Global, done: &Undone, out: &mut Vec<u8>) -> Said
    ensures { IfOk result (λ fate. (fate ≡ undo_fate done.now) ×
        (out.new.items ≡ out.old.items ++ line_of (undo_answer done.now))) }
{
    match done {
        Ok(reports) => tell_undone(alloc, reports.as_slice(), out),
        Err(error) => tell_unfinished(alloc, error, out),
    }
}

/// Tells the floor of a forget up to a mark, or why nothing was forgotten.
pub fn tell_forget(
    alloc: Global,
    mark: Mark,
    done: &Result<(), JournalError<Refusal, Note>>,
    out: &mut Vec<u8>,
) -> Said
    ensures { IfOk result (λ fate. (fate ≡ forget_fate done.now) ×
        (out.new.items ≡ out.old.items ++ line_of (forget_answer mark done.now))) }
{
    match done {
        Ok(()) => {
            write_floor(mark, out)?;
            Ok(None)
        }
        Err(error) => tell_unfinished(alloc, error, out),
    }
}

// Marks: undos to them, and what is forgotten before them.
ghost use Rattle.std.specs.Prelude.{◌≡◌, ◌++◌, IfOk, None};
ghost use Rattle.node_history.specs.declared.command.Command.TheVariants as command;
ghost use Rattle.shell_answers.specs.Answers.{floor_at, line_of, undone_steps};
ghost use Rattle.shell_answers.specs.Refusals.{naming_nothing};
ghost use Rattle.worker_lines.specs.Asking.{Holds, IsAnswered, floor_told, undone_told};

use crate::office::Office;
use crate::telling::tell_error;
use node_types::Note;
use shell_answers::{write_floor, write_undone};
use shell_exec::Said;
use std::sync::Wait;
use undo_journal::{Mark, Report};
use workers::{Naming, Seat};

/// Undoes every step after a mark, and tells what was undone.
pub(crate) fn undo<N: Naming, R: Wait>(
    office: &Office<'_, '_, '_, N, R>,
    seat: &mut Seat<N>,
    mark: Mark,
    out: &mut Vec<u8>,
) -> Said
    ensures { IfOk result (λ fate. IsAnswered (Holds (command.Undo mark) naming_nothing undone_told fate)
        seat.old seat.new out.old.items out.new.items) }
{
    match office.shared.undo(office.rt, seat, mark) {
        Ok(report) => say_undone(report.get(), out),
        Err(error) => tell_error(office.alloc, error, out),
    }
}

/// Appends what was undone.
fn say_undone(report: &Report<Note>, out: &mut Vec<u8>) -> Said
    ensures { IfOk result (λ fate. (fate ≡ None) × (out.new.items ≡ out.old.items ++ line_of (undone_steps report.now))) }
{
    write_undone(report, out)?;
    Ok(None)
}

/// Forgets every station before a mark's, and tells the floor.
pub(crate) fn forget<N: Naming, R: Wait>(
    office: &Office<'_, '_, '_, N, R>,
    seat: &mut Seat<N>,
    mark: Mark,
    out: &mut Vec<u8>,
) -> Said
    ensures { IfOk result (λ fate. IsAnswered (Holds (command.Forget mark) naming_nothing (floor_told mark) fate)
        seat.old seat.new out.old.items out.new.items) }
{
    match office.shared.forget(office.rt, seat, mark) {
        Ok(()) => say_floor(mark, out),
        Err(error) => tell_error(office.alloc, error, out),
    }
}

/// Appends the floor.
fn say_floor(mark: Mark, out: &mut Vec<u8>) -> Said
    ensures { IfOk result (λ fate. (fate ≡ None) × (out.new.items ≡ out.old.items ++ line_of (floor_at mark))) }
{
    write_floor(mark, out)?;
    Ok(None)
}

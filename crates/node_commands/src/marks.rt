// Commands that go back to a mark, or forget up to one.
ghost use Rattle.std.specs.Prelude.{◌≡◌, ◌∷◌, [], IfOk, IsErr, None, OnErr, length};
ghost use Rattle.node_history.specs.History.{Drops};
ghost use Rattle.node_history.specs.declared.command.Said.TheVariants as said;
ghost use Rattle.node_types.specs.Note.{Note};
ghost use Rattle.undo_journal.specs.declared.report.Report.{Report};
ghost use Rattle.node_commands.specs.Acting.{IsCut, IsOne, TellsFault, TellsStop};

use crate::fault::fault_of;
use crate::given::{Acted, Given, Stop, Thrice, reserve_three, three_of, unstepped};
use node_core::Node;
use node_history::Said;
use node_types::{Note, Refusal};
use std::alloc::{AllocError, Global};
use undo_journal::{Journal, JournalError, Mark, Report};
use values::Reserved;

/// All steps after a mark are undone, or as many as there is memory for.
///
/// # Errors
///
/// `AllocError` where memory is refused before a station was cut. The journal is then as it was.
pub(crate) fn undo(
    alloc: Global,
    journal: &mut Journal<Node>,
    mark: Mark,
) -> Result<Acted, AllocError>
    ensures done { IfOk result (λ it. IsCut mark journal.old it journal.new) }
    ensures err { OnErr result (journal.new ≡ journal.old) }
{
    let rooms = reserve_three(alloc)?;
    match journal.undo(mark, 3) {
        Ok(reports) => Ok(Acted::Whole(undone(rooms, reports))),
        Err(
            JournalError::Memory {
                mark: reached,
                reports,
            },
        ) => stopped(rooms, reached, reports),
        Err(error) => unmoved(alloc, error),
    }
}

/// What is told of an undo whose mark has no station.
///
/// # Errors
///
/// `AllocError` where memory is refused.
fn unmoved(alloc: Global, error: JournalError<Refusal, Note>) -> Result<Acted, AllocError>
    ensures { IfOk result (λ it. TellsFault error it) }
{
    let fault = fault_of(alloc, error)?;
    Ok(Acted::Whole(unstepped(alloc, Err(fault))?))
}

/// What an undo has cut, in three values.
fn undone(rooms: Thrice<Reserved<Report<Note>>>, reports: Vec<Report<Note>>) -> Given
    requires { length reports.items ≡ 3 }
    ensures { (report : Report Note) → reports.items ≡ report ∷ report ∷ report ∷ [] →
        (result.entered ≡ Ok (said.Undone report)) × IsOne result × (result.note ≡ None) }
{
    let Thrice {
        first: room,
        second: other_room,
        third: last_room,
    } = rooms;
    let Thrice {
        first,
        second,
        third,
    } = three_of(reports);
    Given {
        entered: Ok(Said::Undone(room.fill(first))),
        listed: Ok(Said::Undone(other_room.fill(second))),
        told: Ok(Said::Undone(last_room.fill(third))),
        note: None,
    }
}

/// What an undo has cut that stopped, in three values, of which one stays in its vector.
///
/// # Errors
///
/// `AllocError` where it has cut nothing.
fn stopped(
    rooms: Thrice<Reserved<Report<Note>>>,
    reached: Mark,
    mut reports: Vec<Report<Note>>,
) -> Result<Acted, AllocError>
    ensures none { reports.items ≡ [] → IsErr result }
    ensures three { (report : Report Note) → reports.items ≡ report ∷ report ∷ report ∷ [] → TellsStop reached report result }
{
    let (Some(entered), Some(listed)) = (reports.pop(), reports.pop()) else {
        return Err(AllocError);
    };
    let Thrice {
        first,
        second,
        third,
    } = rooms;
    third.free();
    Ok(Acted::Stopped(Stop {
        reached,
        entered: first.fill(entered),
        listed: second.fill(listed),
        told: reports,
    }))
}

/// The steps up to a mark are forgotten.
///
/// # Errors
///
/// `AllocError` where memory is refused. The journal is then as it was.
pub(crate) fn forget(
    alloc: Global,
    journal: &mut Journal<Node>,
    mark: Mark,
) -> Result<Given, AllocError>
    ensures given { IfOk result (λ g. Drops mark journal.old g.entered g.note journal.new × IsOne g) }
    ensures err { OnErr result (journal.new ≡ journal.old) }
{
    match journal.forget(mark) {
        Ok(()) => Ok(floored()),
        Err(error) => unstepped(alloc, Err(fault_of(alloc, error)?)),
    }
}

/// A mark is the first that is kept.
fn floored() -> Given
    ensures { (result.entered ≡ Ok said.Floored) × IsOne result × (result.note ≡ None) }
{
    Given {
        entered: Ok(Said::Floored),
        listed: Ok(Said::Floored),
        told: Ok(Said::Floored),
        note: None,
    }
}

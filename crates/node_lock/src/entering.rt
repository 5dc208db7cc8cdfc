// Entries that are made.
ghost use Rattle.std.specs.Prelude.{◌≡◌, ◌++◌, ◌∷◌, [], IsTrue, None};
ghost use Rattle.node_history.specs.declared.command.Command.TheVariants.{Undo};
ghost use Rattle.node_history.specs.declared.command.Said.TheVariants.{Undone};
ghost use Rattle.node_lock.specs.Entering.{Puts};
ghost use Rattle.node_lock.specs.declared.error.LockError.TheVariants as lock;
ghost use Rattle.undo_journal.specs.declared.error.JournalError.TheVariants as error;

use crate::error::{LockError, told_fault};
use entry_lists::{Entries, History};
use node_commands::{Acted, Given, Stop};
use node_history::{Command, Entry, Fault, Line, Said};
use undo_journal::JournalError;

/// Enters a command with what it has given, in the history and in its seat's list, in both of which there is room,
/// and hands out what is told.
fn put_given(
    history: &mut History<Entry>,
    lines: &mut Entries<Line>,
    seat: u64,
    command: Command,
    listed: Command,
    given: Given,
) -> Result<Said, Fault>
    requires { IsTrue history.old.room × IsTrue lines.old.room }
    ensures entered { history.new.items ≡ history.old.items
        ++ record { seat = seat; command = command; answer = given.entered; note = given.note } ∷ [] }
    ensures listed { lines.new.items ≡ lines.old.items ++ record { command = listed; answer = given.listed } ∷ [] }
    ensures told { result ≡ given.told }
{
    history.push(Entry {
        seat,
        command,
        answer: given.entered,
        note: given.note,
    });
    lines.push(Line {
        command: listed,
        answer: given.listed,
    });
    given.told
}

/// Enters an undo that has stopped, as the undo to the mark where it stands.
fn put_stop(
    history: &mut History<Entry>,
    lines: &mut Entries<Line>,
    seat: u64,
    stop: Stop,
) -> LockError
    requires { IsTrue history.old.room × IsTrue lines.old.room }
    ensures entered { history.new.items ≡ history.old.items
        ++ record { seat = seat; command = Undo stop.reached; answer = Ok (Undone stop.entered); note = None } ∷ [] }
    ensures listed { lines.new.items ≡ lines.old.items
        ++ record { command = Undo stop.reached; answer = Ok (Undone stop.listed) } ∷ [] }
    ensures told { result ≡ lock.Journal (error.Memory stop.reached stop.told) }
{
    history.push(Entry {
        seat,
        command: Command::Undo(stop.reached),
        answer: Ok(Said::Undone(stop.entered)),
        note: None,
    });
    lines.push(Line {
        command: Command::Undo(stop.reached),
        answer: Ok(Said::Undone(stop.listed)),
    });
    LockError::Journal(JournalError::Memory {
        mark: stop.reached,
        reports: stop.told,
    })
}

/// Enters what was done of a command of a seat, of which there are two values, in the history and in the seat's list,
/// in both of which there is room. Hands out what is told.
pub(crate) fn put(
    history: &mut History<Entry>,
    lines: &mut Entries<Line>,
    seat: u64,
    command: Command,
    listed: Command,
    acted: Acted,
) -> Result<Said, LockError>
    requires { IsTrue history.old.room × IsTrue lines.old.room }
    ensures { Puts seat command listed acted history.old.items lines.old.items result history.new.items lines.new.items }
{
    match acted {
        Acted::Whole(given) => match put_given(history, lines, seat, command, listed, given) {
            Ok(said) => Ok(said),
            Err(fault) => Err(told_fault(fault)),
        },
        Acted::Stopped(stop) => Err(put_stop(history, lines, seat, stop)),
    }
}

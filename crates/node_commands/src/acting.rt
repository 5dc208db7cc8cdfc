// What each command does.
ghost use Rattle.std.specs.Prelude.{◌≡◌, IfOk, None, OnErr, drop};
ghost use Rattle.node_history.specs.History.{replies_to};
ghost use Rattle.node_history.specs.declared.command.Said.TheVariants as said;
ghost use Rattle.node_commands.specs.Acting.{IsDone, IsOne};

use crate::events::{call, perform, take_any};
use crate::given::{Acted, Given, unstepped};
use crate::marks::{forget, undo};
use crate::questions::{retake, which};
use entry_lists::History;
use node_core::Node;
use node_history::{Command, Entry, Said};
use std::alloc::{AllocError, Global};
use undo_journal::Journal;
use values::Shared;

/// Does what a command of a seat asks, behind a history, which stays as it is.
///
/// # Errors
///
/// `AllocError` where memory is refused. The journal is then as it was.
pub fn act(
    alloc: Global,
    journal: &mut Journal<Node>,
    history: &mut History<Entry>,
    seat: u64,
    command: &Command,
) -> Result<Acted, AllocError>
    ensures done { IfOk result (λ it. IsDone journal.old history.old.items seat command.now it journal.new) }
    ensures history { history.new ≡ history.old }
    ensures err { OnErr result (journal.new ≡ journal.old) }
{
    Ok(Acted::Whole(match command {
        Command::Undo(mark) => return undo(alloc, journal, *mark),
        Command::Perform(event) => perform(alloc, journal, event.get())?,
        Command::Call { name, term } => {
            call(alloc, journal, seat, history.len(), name.get(), term.get())?
        }
        Command::TakeAny(above) => take_any(alloc, journal, *above)?,
        Command::Mark => unstepped(alloc, Ok(Said::Marked(journal.mark())))?,
        Command::Forget(mark) => forget(alloc, journal, *mark)?,
        Command::Retake(pid) => retake(alloc, journal.state(), *pid)?,
        Command::Replies(from) => replies(alloc, history, seat, *from)?,
        Command::Which => which(alloc, journal.state().releases())?,
    }))
}

/// The replies to a client, from an index on.
///
/// # Errors
///
/// `AllocError` where memory is refused.
fn replies(
    alloc: Global,
    history: &mut History<Entry>,
    client: u64,
    from: usize,
) -> Result<Given, AllocError>
    ensures given { IfOk result (λ g. (g.entered ≡ Ok (said.Replied (drop from (replies_to client history.old.items))))
        × (g.note ≡ None) × IsOne g) }
    ensures history { history.new ≡ history.old }
{
    let found = history.replies(alloc, client, from)?;
    unstepped(alloc, Ok(Said::Replied(Shared::new(alloc, found)?)))
}

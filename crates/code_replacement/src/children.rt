// The children whose processes are killed.
ghost use Rattle.std.specs.Prelude.{◌≡◌, [], IfOk, IfSome, None, OnErr, OnOk};
ghost use Rattle.app_table.specs.Applications.{all_ended};
ghost use Rattle.app_table.specs.Undo.{undone};
ghost use Rattle.process_effects.specs.Told.{killed};
ghost use Rattle.code_replacement.specs.Undo.{ChildrenBack, held_of};

use app_table::{AppTable, AppsUndo};
use erl_term::{Atom, Predefined, Term};
use std::alloc::AllocError;

/// The children, if any, whose processes are killed have none, and are due or not.
///
/// # Errors
///
/// `AllocError` where memory is refused. All is then as it was.
pub(crate) fn end_children(
    apps: &mut AppTable,
    pids: &[u64],
) -> Result<Option<AppsUndo>, AllocError>
    ensures ended { OnOk result (apps.new ≡ all_ended killed pids.now apps.old) }
    ensures inverse { IfOk result (λ undo. ChildrenBack undo apps.old apps.new) }
    ensures pieces { IfOk result (λ undo. held_of undo apps.new ≡ []) }
    ensures err { OnErr result (apps.new ≡ apps.old) }
{
    if pids.is_empty() {
        return Ok(None);
    }
    let killed = Term::Atom(Atom::predefined(Predefined::Killed));
    let undo = apps.ended(pids, &killed)?;
    Ok(Some(undo))
}

/// Children run again as the processes that have ended. Takes no memory.
pub(crate) fn unend(apps: &mut AppTable, undo: Option<AppsUndo>)
    ensures undone { IfSome undo (λ it. apps.new ≡ undone it apps.old) }
    ensures none { undo ≡ None → apps.new ≡ apps.old }
{
    if let Some(undo) = undo {
        apps.revert(undo);
    }
}

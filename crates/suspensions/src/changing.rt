// Which suspended processes change their states.
ghost use Rattle.std.specs.Prelude.{◌≡◌, ◌++◌, ◌∷◌, [], All, IfOk, OnOk};
ghost use Rattle.process_store.specs.Table.{living};
ghost use Rattle.suspensions.specs.Suspending.{changes_for, is_changed};
ghost use Rattle.upgrade_calls.specs.Changing.{IsServer};

use crate::activities::is_server;
use crate::versions::old_vsn;
use app_table::AppTable;
use erl_term::{Atom, Term};
use low_instructions::{Direction, ModuleChange};
use process_table::Processes;
use script_state::NotedVersion;
use std::alloc::{AllocError, Global};
use upgrade_calls::CodeChangeCall;
use values::Duplicate;

/// Puts the change of a process behind others.
fn push_change(
    changes: &mut Vec<CodeChangeCall>,
    alloc: Global,
    pid: u64,
    vsn: &Term,
    extra: &Term,
) -> Result<(), AllocError>
    ensures { OnOk result (changes.new.items ≡ changes.old.items ++ record { pid = pid; vsn = vsn.now; extra = extra.now } ∷ []) }
{
    changes.push(CodeChangeCall {
        pid,
        vsn: vsn.copy(alloc)?,
        extra: extra.copy(alloc)?,
    })?;
    Ok(())
}

/// Whether a suspended gen_server process lives, and its child has a module.
fn is_changed(apps: &AppTable, processes: &Processes, name: &Atom, pid: u64) -> bool
    ensures { result ≡ is_changed name.now apps.now processes.now pid }
{
    is_server(processes, pid) && apps.runs_with(name, pid)
}

/// The changes of a module: those of the suspended gen_server processes that live, and whose children have the module, in
/// the order in which they were suspended. Each is told of the old version of the module, by the direction of the change,
/// and of its extra term.
///
/// # Errors
///
/// `AllocError` where memory is refused.
pub fn changes_for(
    apps: &AppTable,
    processes: &Processes,
    alloc: Global,
    direction: Direction,
    versions: &[NotedVersion],
    suspended: &[u64],
    change: &ModuleChange,
) -> Result<Vec<CodeChangeCall>, AllocError>
    ensures changes { IfOk result (λ it. it.items ≡ changes_for direction versions.now suspended.now apps.now processes.now
        change.now) }
    ensures servers { IfOk result (λ it. All (λ c. IsServer (living c.pid processes.now)) it.items) }
{
    let vsn = old_vsn(alloc, direction, &change.name, versions)?;
    let mut changes = Vec::new(alloc);
    for pid in suspended {
        if is_changed(apps, processes, &change.name, *pid) {
            push_change(&mut changes, alloc, *pid, &vsn, &change.extra)?;
        }
    }
    Ok(changes)
}

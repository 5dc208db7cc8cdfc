// Processes are suspended, and resumed.
ghost use Rattle.std.specs.Prelude.{◌≡◌, ◌≤◌, ◌++◌, IfErr, IfOk, OnErr, OnOk, List, ℕ, filter, length, map, option_map};
ghost use Rattle.std.specs.List.{list_any};
ghost use Rattle.app_table.specs.Modules.{runs_with};
ghost use Rattle.process_store.specs.Table.{living};
ghost use Rattle.process_table.specs.States.{all_resumed, all_suspended, all_unresumed};
ghost use Rattle.suspensions.specs.Suspending.{but_last, is_idle, is_resumed, last_of, names, still_suspended, to_resume, to_suspend};

use crate::activities::{is_alive, is_idle};
use app_table::{AppTable, ChildProcess};
use erl_term::Atom;
use low_instructions::Suspension;
use process_table::{Processes, Resumed};
use std::alloc::{AllocError, Global};
use std::mem;
use values::{Duplicate, Row};

/// What takes a resumption back.
#[derive(Drop)]
pub struct ResumeUndo {
    /// The processes that were suspended before, in order.
    pub former: Vec<u64>,
    /// Those that were resumed, and whether each was suspended.
    pub resumed: Row<Resumed>,
}

/// The modules that are named.
fn names_of(alloc: Global, modules: &[Suspension]) -> Result<Vec<Atom>, AllocError>
    ensures { IfOk result (λ it. it.items ≡ names modules.now) }
{
    let mut names = Vec::with_capacity(alloc, modules.len())?;
    for module in modules {
        names.push(module.name.copy(alloc)?)?;
    }
    Ok(names)
}

/// The pids of those of these children whose gen_server processes rest.
fn idle_of(
    alloc: Global,
    processes: &Processes,
    children: &[ChildProcess],
) -> Result<Vec<u64>, AllocError>
    ensures { IfOk result (λ it. it.items ≡ filter (λ p. is_idle (living p processes.now)) (map (λ c. c.pid) children.now)) }
{
    let mut pids = Vec::new(alloc);
    for child in children {
        if is_idle(processes, child.pid) {
            pids.push(child.pid)?;
        }
    }
    Ok(pids)
}

/// The processes that are suspended.
fn to_suspend(
    apps: &AppTable,
    processes: &Processes,
    alloc: Global,
    modules: &[Suspension],
) -> Result<Vec<u64>, AllocError>
    ensures { IfOk result (λ it. it.items ≡ to_suspend (names modules.now) apps.now processes.now) }
{
    let names = names_of(alloc, modules)?;
    let children = apps.running_with(alloc, names.as_slice())?;
    idle_of(alloc, processes, children.as_slice())
}

/// Puts pids behind others. There is room for them.
fn append(pids: &mut Vec<u64>, more: &[u64]) -> Result<(), AllocError>
    ensures ok { OnOk result (pids.new.items ≡ pids.old.items ++ more.now) }
    ensures err { OnErr result (pids.new.items ≡ pids.old.items) }
{
    pids.reserve(more.len())?;
    for pid in more {
        pids.push_reserved(*pid);
    }
    Ok(())
}

/// Suspends the gen_server processes that rest, of children that have one of these modules, and notes them after those that
/// are suspended. Returns how many there are, by which [`unsuspend`] takes it back. Those that run are passed over: whether
/// they are to be waited for, the caller asks [`crate::suspend_refusal`] before.
///
/// # Errors
///
/// `AllocError` if an allocation fails. All is then unchanged.
pub fn suspend(
    apps: &AppTable,
    processes: &mut Processes,
    alloc: Global,
    modules: &[Suspension],
    suspended: &mut Vec<u64>,
) -> Result<usize, AllocError>
    ensures suspended { OnOk result (processes.new ≡ all_suspended (to_suspend (names modules.now) apps.now processes.old)
        processes.old) }
    ensures noted { OnOk result (suspended.new.items ≡ suspended.old.items ++
        to_suspend (names modules.now) apps.now processes.old) }
    ensures count { IfOk result (λ count. count ≡ length (to_suspend (names modules.now) apps.now processes.old)) }
    ensures back { IfOk result (λ count. (all_resumed (last_of count suspended.new.items) processes.new ≡ processes.old) ×
        (but_last count suspended.new.items ≡ suspended.old.items) × (count ≤ length suspended.new.items)) }
    ensures err { OnErr result ((processes.new ≡ processes.old) × (suspended.new.items ≡ suspended.old.items)) }
{
    let pids = to_suspend(apps, processes, alloc, modules)?;
    append(suspended, pids.as_slice())?;
    processes.suspend_all(pids.as_slice());
    Ok(pids.as_slice().len())
}

/// So many that were suspended last are resumed, and noted no more. Takes no memory.
pub fn unsuspend(processes: &mut Processes, suspended: &mut Vec<u64>, count: usize)
    requires { count ≤ length suspended.old.items }
    ensures resumed { processes.new ≡ all_resumed (last_of count suspended.old.items) processes.old }
    ensures left { suspended.new.items ≡ but_last count suspended.old.items }
{
    let left = suspended.as_slice().len() - count;
    processes.resume_all(&suspended.as_slice()[left..]);
    suspended.truncate(left);
}

/// Whether the child that runs as the process of a pid has one of these modules.
fn has_any(apps: &AppTable, modules: &[Atom], pid: u64) -> bool
    ensures { result ≡ list_any (λ m. runs_with m pid apps.now) modules.now }
{
    modules.iter().any(|name| apps.runs_with(name, pid))
}

/// Whether a suspended process lives, and its child has one of these modules.
fn is_resumed(apps: &AppTable, processes: &Processes, modules: &[Atom], pid: u64) -> bool
    ensures { result ≡ is_resumed modules.now apps.now processes.now pid }
{
    is_alive(processes, pid) && has_any(apps, modules, pid)
}

/// Those of the suspended processes that are resumed.
fn to_resume(
    apps: &AppTable,
    processes: &Processes,
    alloc: Global,
    modules: &[Atom],
    suspended: &[u64],
) -> Result<Vec<Resumed>, AllocError>
    ensures { IfOk result (λ it. map (λ r. r.pid) it.items ≡ to_resume modules.now suspended.now apps.now processes.now) }
{
    let mut resumed = Vec::new(alloc);
    for pid in suspended {
        if is_resumed(apps, processes, modules, *pid) {
            resumed.push(Resumed {
                pid: *pid,
                was_suspended: false,
            })?;
        }
    }
    Ok(resumed)
}

/// Those of the suspended processes that stay suspended.
fn still_suspended(
    apps: &AppTable,
    processes: &Processes,
    alloc: Global,
    modules: &[Atom],
    suspended: &[u64],
) -> Result<Vec<u64>, AllocError>
    ensures { IfOk result (λ it. it.items ≡ still_suspended modules.now suspended.now apps.now processes.now) }
{
    let mut left = Vec::new(alloc);
    for pid in suspended {
        if !is_resumed(apps, processes, modules, *pid) {
            left.push(*pid)?;
        }
    }
    Ok(left)
}

/// Those of the suspended processes that live, and whose children have one of these modules, are resumed, and noted no more.
///
/// # Errors
///
/// `AllocError` where memory is refused. All is then as it was.
pub fn resume(
    apps: &AppTable,
    processes: &mut Processes,
    alloc: Global,
    modules: &[Atom],
    suspended: &mut Vec<u64>,
) -> Result<ResumeUndo, AllocError>
    ensures resumed { OnOk result (processes.new ≡ all_resumed
        (to_resume modules.now suspended.old.items apps.now processes.old) processes.old) }
    ensures left { OnOk result (suspended.new.items ≡ still_suspended modules.now suspended.old.items apps.now processes.old) }
    ensures back { IfOk result (λ undo. (all_unresumed undo.resumed processes.new ≡ processes.old) ×
        (undo.former.items ≡ suspended.old.items)) }
    ensures err { OnErr result ((processes.new ≡ processes.old) × (suspended.new.items ≡ suspended.old.items)) }
{
    let mut resumed = to_resume(apps, processes, alloc, modules, suspended.as_slice())?;
    let left = still_suspended(apps, processes, alloc, modules, suspended.as_slice())?;
    processes.resume_noting(resumed.as_mut_slice());
    Ok(ResumeUndo {
        former: mem::replace(suspended, left),
        resumed: Row::new(resumed),
    })
}

/// Takes a resumption back. Takes no memory.
pub fn unresume(processes: &mut Processes, suspended: &mut Vec<u64>, undo: ResumeUndo)
    ensures suspended { processes.new ≡ all_unresumed undo.resumed processes.old }
    ensures noted { suspended.new.items ≡ undo.former.items }
{
    processes.unresume(undo.resumed.as_slice());
    *suspended = undo.former;
}

// Several modules are purged at once.
ghost use Rattle.std.specs.Prelude.{◌≡◌, ◌+◌, ◌++◌, ◌≤◌, [], IfOk, MatchOption, OnErr, OnOk, length, replicate, vec_capacity, vec_len};
ghost use Rattle.code_server.specs.Modules.{old_of, purged};
ghost use Rattle.code_server.specs.Undo.{Fits, HasPurged, held, undone};
ghost use Rattle.process_effects.specs.Told.{killed};
ghost use Rattle.process_effects.specs.Uses.{users};
ghost use Rattle.code_loading.specs.Pieces.{IsTaken};
ghost use Rattle.code_loading.specs.Purging.{all_lingering, downs_of_purges, all_purged, all_spared};
ghost use Rattle.code_loading.specs.Several.{uses_any_by, without_all_users};
ghost use Rattle.code_loading.specs.Unpurging.{AllUnpurge, PurgesBack, all_unpurged};

use crate::loading::old_serial;
use crate::undo::Purges;
use code_server::{Modules, ModulesUndo};
use erl_ir::Module;
use erl_term::{Atom, Predefined, Term};
use process::Process;
use process_effects::{Reply, uses};
use process_table::Processes;
use std::alloc::{AllocError, Global};
use values::Row;

/// Whether a process uses the instance of one of these serials. Takes no memory.
fn uses_any(process: &Process, serials: &[u64]) -> bool
    ensures { result ≡ uses_any_by serials.now process.now.rests_in process.now.activity }
{
    serials.iter().any(|serial| uses(process, *serial))
}

/// Puts the pids last of the processes that use the instance of a serial and none of those others, in order.
fn push_users(
    pids: &mut Vec<u64>,
    processes: &Processes,
    serial: u64,
    others: &[u64],
) -> Result<(), AllocError>
    ensures { OnOk result (pids.new.items ≡ pids.old.items ++ users serial (without_all_users others.now processes.now)) }
{
    for (pid, living) in processes.iter() {
        if uses(&living.process, serial) && !uses_any(&living.process, others) {
            pids.push(*pid)?;
        }
    }
    Ok(())
}

/// The pids of the processes that linger in a module when its turn comes, where modules are purged one after the other: module
/// after module, of each in order of pid.
///
/// # Errors
///
/// `AllocError` where memory is refused.
pub fn all_lingering(
    modules: &Modules<Module>,
    processes: &Processes,
    alloc: Global,
    names: &[Atom],
) -> Result<Vec<u64>, AllocError>
    ensures { IfOk result (λ it. it.items ≡ all_lingering names.now modules.now processes.now) }
{
    // What holds of the modules.
    let _count = modules.len();
    let mut serials = Vec::new(alloc);
    let mut pids = Vec::new(alloc);
    for name in names {
        if let Some(serial) = old_serial(modules, name) {
            push_users(&mut pids, processes, serial, serials.as_slice())?;
            serials.push(serial)?;
        }
    }
    Ok(pids)
}

/// What clients are told where modules are purged one after the other, in `n` equal values: that the processes of their calls
/// were killed, in the order of [`all_lingering`].
///
/// # Errors
///
/// `AllocError` where memory is refused.
pub fn purges_told(
    modules: &Modules<Module>,
    processes: &Processes,
    alloc: Global,
    names: &[Atom],
    n: usize,
) -> Result<Vec<Row<Reply>>, AllocError>
    ensures { IfOk result (λ it. it.items ≡ replicate n (downs_of_purges names.now modules.now processes.now)) }
{
    let pids = all_lingering(modules, processes, alloc, names)?;
    let killed = Term::Atom(Atom::predefined(Predefined::Killed));
    processes.downs_of_each(pids.as_slice(), &killed, n)
}

/// Purges a module, if it has old code, and hands out what takes it back. Takes no memory.
fn purge_old(modules: &mut Modules<Module>, name: &Atom) -> Option<ModulesUndo<Module>>
    ensures purged { modules.new ≡ purged name.now modules.old }
    ensures inverse { MatchOption result (modules.new ≡ modules.old)
        (λ undo. Fits undo modules.new × HasPurged undo × (undone undo modules.new ≡ modules.old) ×
        (held undo ≡ old_of name.now modules.old)) }
{
    // What holds of the modules.
    let _count = modules.len();
    match modules.old(name) {
        Some(_) => Some(modules.purge(name)),
        None => None,
    }
}

/// Purges modules one after the other, and hands out what takes each purge of old code back. There is room for it, and it takes
/// no memory.
fn purge_each(
    modules: &mut Modules<Module>,
    names: &[Atom],
    mut undos: Vec<ModulesUndo<Module>>,
) -> Vec<ModulesUndo<Module>>
    requires none { undos.items ≡ [] }
    requires room { length names.now ≤ vec_capacity undos }
    ensures purged { modules.new ≡ all_purged names.now modules.old }
    ensures fits { AllUnpurge result.items modules.new }
    ensures back { all_unpurged result.items modules.new ≡ modules.old }
    ensures taken { IsTaken result.items modules.old modules.new }
{
    for name in names {
        if let Some(undo) = purge_old(modules, name) {
            undos.push_reserved(undo);
        }
    }
    undos
}

/// Purges modules one after the other: those who linger in one when its turn comes are killed, and its old code is gone, if it
/// has any. What clients are told is asked of [`purges_told`] before.
///
/// # Errors
///
/// `AllocError` where memory is refused. All is then as it was.
pub fn purge_all(
    modules: &mut Modules<Module>,
    processes: &mut Processes,
    alloc: Global,
    names: &[Atom],
) -> Result<Purges, AllocError>
    ensures modules { OnOk result (modules.new ≡ all_purged names.now modules.old) }
    ensures processes { OnOk result (processes.new ≡ all_spared names.now modules.old processes.old) }
    ensures inverse { IfOk result (λ undo. PurgesBack undo modules.old processes.old modules.new processes.new) }
    ensures err { OnErr result ((modules.new ≡ modules.old) × (processes.new ≡ processes.old)) }
{
    let pids = all_lingering(modules, processes, alloc, names)?;
    let room = Vec::with_capacity(alloc, names.len())?;
    let killed = processes.end_all(pids.as_slice())?;
    Ok(Purges {
        modules: Row::new(purge_each(modules, names, room)),
        killed,
    })
}

// Loads and purges.
ghost use Rattle.std.specs.Prelude.{◌≡◌, IfErr, IfOk, MatchResult, None, OnErr, OnOk, false, option_map, true};
ghost use Rattle.values.specs.Failure.{TellsFailure};
ghost use Rattle.code_server.specs.Modules.{load_refusal, loaded, old_of, purged};
ghost use Rattle.process_effects.specs.Uses.{users};
ghost use Rattle.code_loading.specs.Loading.{is_any, is_lingered_in, lingering, downs_of_purge, spared};
ghost use Rattle.code_loading.specs.Pieces.{held_killed};
ghost use Rattle.code_loading.specs.Undo.{UndoesKills, TakesBack};
ghost use Rattle.process_store.specs.Pieces.{HoldsLost};

use crate::undo::LoadUndo;
use code_server::{CodeError, Modules};
use erl_ir::Module;
use erl_term::Atom;
use process_effects::{Reply, uses};
use process_table::Processes;
use release_words::Purge;
use std::alloc::{AllocError, Global};
use values::{Duplicate, Failure};

/// The serial of a module's old code, if it has any.
pub(crate) fn old_serial(modules: &Modules<Module>, name: &Atom) -> Option<u64>
    ensures { result ≡ option_map (λ i. i.serial) (old_of name.now modules.now) }
{
    match modules.old(name) {
        Some(old) => Some(old.serial),
        None => None,
    }
}

/// Whether a process uses the instance of a serial. Takes no memory.
fn is_used(processes: &Processes, serial: u64) -> bool
    ensures { result ≡ is_any (users serial processes.now) }
{
    for (_, living) in processes.iter() {
        if uses(&living.process, serial) {
            return true;
        }
    }
    false
}

/// Whether a process lingers in a module: uses its old code. Takes no memory.
pub fn is_lingered_in(modules: &Modules<Module>, processes: &Processes, name: &Atom) -> bool
    ensures { result ≡ is_lingered_in name.now modules.now processes.now }
{
    match old_serial(modules, name) {
        Some(serial) => is_used(processes, serial),
        None => false,
    }
}

/// The pids of the processes that linger in a module, in order.
///
/// # Errors
///
/// `AllocError` where memory is refused.
pub fn lingering(
    modules: &Modules<Module>,
    processes: &Processes,
    alloc: Global,
    name: &Atom,
) -> Result<Vec<u64>, AllocError>
    ensures { IfOk result (λ it. it.items ≡ lingering name.now modules.now processes.now) }
{
    match old_serial(modules, name) {
        Some(serial) => processes.users(serial),
        None => Ok(Vec::new(alloc)),
    }
}

/// What clients are told where a module is purged: that the processes of their calls were killed, process after process in
/// order of pid.
///
/// # Errors
///
/// `AllocError` where memory is refused.
pub fn downs_of_purge(
    modules: &Modules<Module>,
    processes: &Processes,
    alloc: Global,
    name: &Atom,
) -> Result<Vec<Reply>, AllocError>
    ensures { IfOk result (λ it. it.items ≡ downs_of_purge name.now modules.now processes.now) }
{
    match old_serial(modules, name) {
        Some(serial) => processes.downs_of_users(serial),
        None => Ok(Vec::new(alloc)),
    }
}

/// Kills those who linger in a module, if it has old code.
pub(crate) fn kill_lingering(
    modules: &Modules<Module>,
    processes: &mut Processes,
    name: &Atom,
) -> Result<Option<process_table::ProcessesUndo>, AllocError>
    ensures spared { OnOk result (processes.new ≡ spared name.now modules.now processes.old) }
    ensures inverse { IfOk result (λ it. UndoesKills (old_of name.now modules.now) it processes.old processes.new) }
    ensures pieces { IfOk result (λ it. HoldsLost (held_killed it processes.new) processes.old processes.new) }
    ensures err { OnErr result (processes.new ≡ processes.old) }
{
    match old_serial(modules, name) {
        Some(serial) => {
            let (_, undo) = processes.kill_users(serial)?;
            Ok(Some(undo))
        }
        None => Ok(None),
    }
}

/// Purges a module: those who linger in it are killed, in order of pid, and its old code is gone, if it has any. What
/// clients are told is asked of [`downs_of_purge`] before.
///
/// # Errors
///
/// `AllocError` where memory is refused. All is then as it was.
pub fn purge(
    modules: &mut Modules<Module>,
    processes: &mut Processes,
    name: &Atom,
) -> Result<LoadUndo, AllocError>
    ensures modules { OnOk result (modules.new ≡ purged name.now modules.old) }
    ensures processes { OnOk result (processes.new ≡ spared name.now modules.old processes.old) }
    ensures inverse { IfOk result (λ undo. TakesBack undo modules.old processes.old modules.new processes.new) }
    ensures err { OnErr result ((modules.new ≡ modules.old) × (processes.new ≡ processes.old)) }
{
    let killed = kill_lingering(modules, processes, name)?;
    Ok(LoadUndo {
        modules: modules.purge(name),
        killed,
    })
}

/// Loads a module: it becomes current under the next serial. Its current code becomes old, and is purged later as the caller
/// says. Old code is purged first; [`downs_of_purge`] returns, before that, what clients get of it.
///
/// # Errors
///
/// In this order: `CounterEnd` where the last serial was given, `Memory`. All is then as it was; the module is dropped.
pub fn load(
    modules: &mut Modules<Module>,
    processes: &mut Processes,
    alloc: Global,
    code: Module,
    post: Option<Purge>,
) -> Result<LoadUndo, Failure<CodeError>>
    ensures ok { OnOk result (load_refusal code.name (purged code.name modules.old) ≡ None) }
    ensures modules { OnOk result (modules.new ≡ loaded code.name code post (purged code.name modules.old)) }
    ensures processes { OnOk result (processes.new ≡ spared code.name modules.old processes.old) }
    ensures inverse { IfOk result (λ undo. TakesBack undo modules.old processes.old modules.new processes.new) }
    ensures refused { IfErr result (λ failure. TellsFailure failure (load_refusal code.name (purged code.name modules.old))) }
    ensures err { OnErr result ((modules.new ≡ modules.old) × (processes.new ≡ processes.old)) }
{
    if let Some(refusal) = modules.purge_and_load_refusal() {
        return Err(Failure::Refused(refusal));
    }
    let Ok(name) = code.name().copy(alloc) else {
        return Err(Failure::Memory);
    };
    let Ok(killed) = kill_lingering(modules, processes, &name) else {
        return Err(Failure::Memory);
    };
    match modules.purge_and_load(&name, code, post) {
        Ok(modules) => Ok(LoadUndo { modules, killed }),
        Err(failure) => Err(failure),
    }
}

/// Purges a module in which nobody lingers.
///
/// # Errors
///
/// `OldInUse` where a process uses its old code. The modules are then as they were. Takes no memory.
pub fn soft_purge(
    modules: &mut Modules<Module>,
    processes: &Processes,
    name: &Atom,
) -> Result<LoadUndo, CodeError>
    ensures modules { OnOk result (modules.new ≡ purged name.now modules.old) }
    ensures inverse { IfOk result (λ undo. TakesBack undo modules.old processes.now modules.new processes.now) }
    ensures refused { MatchResult result (λ _. is_lingered_in name.now modules.old processes.now ≡ false)
        (λ e. (e ≡ CodeError.OldInUse) × (is_lingered_in name.now modules.old processes.now ≡ true)) }
    ensures err { OnErr result (modules.new ≡ modules.old) }
{
    let in_use = is_lingered_in(modules, processes, name);
    match modules.soft_purge(name, in_use) {
        Ok(purged) => Ok(LoadUndo {
            modules: purged,
            killed: None,
        }),
        Err(error) => Err(error),
    }
}

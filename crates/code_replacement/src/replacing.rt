// Code is loaded, purged and removed.
ghost use Rattle.std.specs.Prelude.{◌≡◌, IfErr, IfOk, None, OnErr, OnOk};
ghost use Rattle.values.specs.Failure.{TellsFailure};
ghost use Rattle.code_server.specs.Modules.{load_refusal, purged};
ghost use Rattle.code_replacement.specs.Replacing.{all_without, code_loaded, code_removed, running, without_lingering};
ghost use Rattle.code_replacement.specs.Undo.{PurgesBack, TakesBack};

use crate::children::{end_children, unend};
use crate::undo::{Purges, ReplacementUndo};
use app_table::AppTable;
use code_loading::{all_lingering, lingering};
use code_server::{CodeError, Modules};
use erl_ir::Module;
use erl_term::Atom;
use process_table::Processes;
use release_words::Purge;
use std::alloc::{AllocError, Global};
use values::Failure;

/// Loads a module: it becomes current under the next serial. Its current code becomes old, and is purged later as the caller
/// says. Old code is purged first: who lingers in it is killed, and its child is due, or not. [`code_loading::downs_of_purge`]
/// returns, before that, what clients get of it.
///
/// # Errors
///
/// In this order: `CounterEnd` where the last serial was given, `Memory`. All is then as it was; the module is dropped.
pub fn load(
    modules: &mut Modules<Module>,
    processes: &mut Processes,
    apps: &mut AppTable,
    alloc: Global,
    code: Module,
    post: Option<Purge>,
) -> Result<ReplacementUndo, Failure<CodeError>>
    ensures ok { OnOk result (load_refusal code.name (purged code.name modules.old) ≡ None) }
    ensures loaded { OnOk result (running modules.new processes.new apps.new
        ≡ code_loaded code post (running modules.old processes.old apps.old)) }
    ensures inverse { IfOk result (λ undo. TakesBack undo (running modules.old processes.old apps.old)
        (running modules.new processes.new apps.new)) }
    ensures refused { IfErr result (λ failure. TellsFailure failure (load_refusal code.name (purged code.name modules.old))) }
    ensures err { OnErr result (running modules.new processes.new apps.new ≡ running modules.old processes.old apps.old) }
{
    if let Some(refusal) = modules.purge_and_load_refusal() {
        return Err(Failure::Refused(refusal));
    }
    let Ok(pids) = lingering(modules, processes, alloc, code.name()) else {
        return Err(Failure::Memory);
    };
    let Ok(ended) = end_children(apps, pids.as_slice()) else {
        return Err(Failure::Memory);
    };
    match code_loading::load(modules, processes, alloc, code, post) {
        Ok(code) => Ok(ReplacementUndo { code, ended }),
        Err(failure) => {
            unend(apps, ended);
            Err(failure)
        }
    }
}

/// Purges a module: those who linger in it are killed, and their children are due, or not; its old code is gone, if it has any.
/// What clients are told is asked of [`code_loading::downs_of_purge`] before.
///
/// # Errors
///
/// `AllocError` where memory is refused. All is then as it was.
pub fn purge(
    modules: &mut Modules<Module>,
    processes: &mut Processes,
    apps: &mut AppTable,
    alloc: Global,
    name: &Atom,
) -> Result<ReplacementUndo, AllocError>
    ensures purged { OnOk result (running modules.new processes.new apps.new
        ≡ without_lingering name.now (running modules.old processes.old apps.old)) }
    ensures inverse { IfOk result (λ undo. TakesBack undo (running modules.old processes.old apps.old)
        (running modules.new processes.new apps.new)) }
    ensures err { OnErr result (running modules.new processes.new apps.new ≡ running modules.old processes.old apps.old) }
{
    let pids = lingering(modules, processes, alloc, name)?;
    let ended = end_children(apps, pids.as_slice())?;
    match code_loading::purge(modules, processes, name) {
        Ok(code) => Ok(ReplacementUndo { code, ended }),
        Err(error) => {
            unend(apps, ended);
            Err(error)
        }
    }
}

/// Removes a module (appup(4), remove): it is purged, as by [`purge`], and its current code becomes old, if it has any, and is
/// purged later as the caller says. [`code_loading::downs_of_purge`] returns, before that, what clients get of it.
///
/// # Errors
///
/// `AllocError` where memory is refused. All is then as it was.
pub fn remove(
    modules: &mut Modules<Module>,
    processes: &mut Processes,
    apps: &mut AppTable,
    alloc: Global,
    name: &Atom,
    post: Option<Purge>,
) -> Result<ReplacementUndo, AllocError>
    ensures removed { OnOk result (running modules.new processes.new apps.new
        ≡ code_removed name.now post (running modules.old processes.old apps.old)) }
    ensures inverse { IfOk result (λ undo. TakesBack undo (running modules.old processes.old apps.old)
        (running modules.new processes.new apps.new)) }
    ensures err { OnErr result (running modules.new processes.new apps.new ≡ running modules.old processes.old apps.old) }
{
    let pids = lingering(modules, processes, alloc, name)?;
    let ended = end_children(apps, pids.as_slice())?;
    match code_loading::remove(modules, processes, name, post) {
        Ok(code) => Ok(ReplacementUndo { code, ended }),
        Err(error) => {
            unend(apps, ended);
            Err(error)
        }
    }
}

/// Purges modules one after the other: those who linger in one when its turn comes are killed, and their children are due, or
/// not; its old code is gone, if it has any. What clients are told is asked of [`code_loading::purges_told`] before.
///
/// # Errors
///
/// `AllocError` where memory is refused. All is then as it was.
pub fn purge_all(
    modules: &mut Modules<Module>,
    processes: &mut Processes,
    apps: &mut AppTable,
    alloc: Global,
    names: &[Atom],
) -> Result<Purges, AllocError>
    ensures purged { OnOk result (running modules.new processes.new apps.new
        ≡ all_without names.now (running modules.old processes.old apps.old)) }
    ensures inverse { IfOk result (λ undo. PurgesBack undo (running modules.old processes.old apps.old)
        (running modules.new processes.new apps.new)) }
    ensures err { OnErr result (running modules.new processes.new apps.new ≡ running modules.old processes.old apps.old) }
{
    let pids = all_lingering(modules, processes, alloc, names)?;
    let ended = end_children(apps, pids.as_slice())?;
    match code_loading::purge_all(modules, processes, alloc, names) {
        Ok(code) => Ok(Purges { code, ended }),
        Err(error) => {
            unend(apps, ended);
            Err(error)
        }
    }
}

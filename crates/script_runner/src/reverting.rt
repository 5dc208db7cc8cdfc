// An instruction is taken back.
ghost use Rattle.std.specs.Prelude.{◌≡◌, IfErr, OnErr, OnOk};
ghost use Rattle.code_replacement.specs.Replacing.{HasItsCode};
ghost use Rattle.script_runner.specs.Instructions.{running_of};
ghost use Rattle.script_runner.specs.Parts.{Parts, parts_of};
ghost use Rattle.script_runner.specs.Undo.{TakesBack};
ghost use Rattle.script_runner.specs.declared.undo.InstructionUndo.TheVariants as undo_of;

use crate::undo::InstructionUndo;
use app_table::{AppTable, ChildName};
use code_changes::{CodeChangeUndo, revert_code_change};
use code_server::Modules;
use erl_ir::Module;
use process_table::Processes;
use script_state::{Progress, forget_versions};
use std::alloc::Global;
use suspensions::{ResumeUndo, unresume, unsuspend};
use sys_protocol::unnote;

/// Modules whose object code was read are noted no more.
fn revert_read(
    modules: &mut Modules<Module>,
    processes: &mut Processes,
    apps: &mut AppTable,
    progress: &mut Progress,
    count: usize,
) -> Result<(), InstructionUndo>
    requires { (before : Parts) × HasItsCode (running_of before) × TakesBack (undo_of.Read count) before
        (parts_of modules.old processes.old apps.old progress.old) }
    ensures ok { OnOk result ((before : Parts) → HasItsCode (running_of before) → TakesBack (undo_of.Read count) before
        (parts_of modules.old processes.old apps.old progress.old) →
        parts_of modules.new processes.new apps.new progress.new ≡ before) }
    ensures back { IfErr result (λ it. it ≡ undo_of.Read count) }
    ensures err { OnErr result (parts_of modules.new processes.new apps.new progress.new ≡
        parts_of modules.old processes.old apps.old progress.old) }
    ensures next { progress.new.next ≡ progress.old.next }
{
    forget_versions(&mut progress.versions, count);
    Ok(())
}

/// A load or a removal is taken back.
fn revert_replaced(
    modules: &mut Modules<Module>,
    processes: &mut Processes,
    apps: &mut AppTable,
    progress: &mut Progress,
    undo: code_replacement::ReplacementUndo,
) -> Result<(), InstructionUndo>
    requires { (before : Parts) × HasItsCode (running_of before) × TakesBack (undo_of.Replaced undo) before
        (parts_of modules.old processes.old apps.old progress.old) }
    ensures ok { OnOk result ((before : Parts) → HasItsCode (running_of before) → TakesBack (undo_of.Replaced undo) before
        (parts_of modules.old processes.old apps.old progress.old) →
        parts_of modules.new processes.new apps.new progress.new ≡ before) }
    ensures back { IfErr result (λ it. it ≡ undo_of.Replaced undo) }
    ensures err { OnErr result (parts_of modules.new processes.new apps.new progress.new ≡
        parts_of modules.old processes.old apps.old progress.old) }
    ensures next { progress.new.next ≡ progress.old.next }
{
    match code_replacement::revert(modules, processes, apps, undo) {
        Ok(()) => Ok(()),
        Err(undo) => Err(InstructionUndo::Replaced(undo)),
    }
}

/// Purges are taken back.
fn revert_purged(
    modules: &mut Modules<Module>,
    processes: &mut Processes,
    apps: &mut AppTable,
    progress: &mut Progress,
    alloc: Global,
    undo: code_replacement::Purges,
) -> Result<(), InstructionUndo>
    requires { (before : Parts) × HasItsCode (running_of before) × TakesBack (undo_of.Purged undo) before
        (parts_of modules.old processes.old apps.old progress.old) }
    ensures ok { OnOk result ((before : Parts) → HasItsCode (running_of before) → TakesBack (undo_of.Purged undo) before
        (parts_of modules.old processes.old apps.old progress.old) →
        parts_of modules.new processes.new apps.new progress.new ≡ before) }
    ensures back { IfErr result (λ it. it ≡ undo_of.Purged undo) }
    ensures err { OnErr result (parts_of modules.new processes.new apps.new progress.new ≡
        parts_of modules.old processes.old apps.old progress.old) }
    ensures next { progress.new.next ≡ progress.old.next }
{
    match code_replacement::revert_purges(modules, processes, apps, alloc, undo) {
        Ok(()) => Ok(()),
        Err(undo) => Err(InstructionUndo::Purged(undo)),
    }
}

/// Processes that were suspended are resumed.
fn revert_suspended(
    modules: &mut Modules<Module>,
    processes: &mut Processes,
    apps: &mut AppTable,
    progress: &mut Progress,
    count: usize,
) -> Result<(), InstructionUndo>
    requires { (before : Parts) × HasItsCode (running_of before) × TakesBack (undo_of.Suspended count) before
        (parts_of modules.old processes.old apps.old progress.old) }
    ensures ok { OnOk result ((before : Parts) → HasItsCode (running_of before) → TakesBack (undo_of.Suspended count) before
        (parts_of modules.old processes.old apps.old progress.old) →
        parts_of modules.new processes.new apps.new progress.new ≡ before) }
    ensures back { IfErr result (λ it. it ≡ undo_of.Suspended count) }
    ensures err { OnErr result (parts_of modules.new processes.new apps.new progress.new ≡
        parts_of modules.old processes.old apps.old progress.old) }
    ensures next { progress.new.next ≡ progress.old.next }
{
    unsuspend(processes, &mut progress.suspended, count);
    Ok(())
}

/// Processes that were resumed are suspended again.
fn revert_resumed(
    modules: &mut Modules<Module>,
    processes: &mut Processes,
    apps: &mut AppTable,
    progress: &mut Progress,
    undo: ResumeUndo,
) -> Result<(), InstructionUndo>
    requires { (before : Parts) × HasItsCode (running_of before) × TakesBack (undo_of.Resumed undo) before
        (parts_of modules.old processes.old apps.old progress.old) }
    ensures ok { OnOk result ((before : Parts) → HasItsCode (running_of before) → TakesBack (undo_of.Resumed undo) before
        (parts_of modules.old processes.old apps.old progress.old) →
        parts_of modules.new processes.new apps.new progress.new ≡ before) }
    ensures back { IfErr result (λ it. it ≡ undo_of.Resumed undo) }
    ensures err { OnErr result (parts_of modules.new processes.new apps.new progress.new ≡
        parts_of modules.old processes.old apps.old progress.old) }
    ensures next { progress.new.next ≡ progress.old.next }
{
    unresume(processes, &mut progress.suspended, undo);
    Ok(())
}

/// Processes have their former states again, and supervisors their former children.
fn revert_changed(
    modules: &mut Modules<Module>,
    processes: &mut Processes,
    apps: &mut AppTable,
    progress: &mut Progress,
    undo: CodeChangeUndo,
) -> Result<(), InstructionUndo>
    requires { (before : Parts) × HasItsCode (running_of before) × TakesBack (undo_of.Changed undo) before
        (parts_of modules.old processes.old apps.old progress.old) }
    ensures ok { OnOk result ((before : Parts) → HasItsCode (running_of before) → TakesBack (undo_of.Changed undo) before
        (parts_of modules.old processes.old apps.old progress.old) →
        parts_of modules.new processes.new apps.new progress.new ≡ before) }
    ensures back { IfErr result (λ it. it ≡ undo_of.Changed undo) }
    ensures err { OnErr result (parts_of modules.new processes.new apps.new progress.new ≡
        parts_of modules.old processes.old apps.old progress.old) }
    ensures next { progress.new.next ≡ progress.old.next }
{
    match revert_code_change(apps, processes, modules, undo) {
        Ok(()) => Ok(()),
        Err(undo) => Err(InstructionUndo::Changed(undo)),
    }
}

/// What was done to children and applications is taken back, and with it the names of children.
fn revert_children(
    modules: &mut Modules<Module>,
    processes: &mut Processes,
    apps: &mut AppTable,
    progress: &mut Progress,
    undo: script_children::ChildrenUndo,
    count: usize,
) -> Result<(), InstructionUndo>
    requires { (before : Parts) × HasItsCode (running_of before) × TakesBack (undo_of.Children undo count) before
        (parts_of modules.old processes.old apps.old progress.old) }
    ensures ok { OnOk result ((before : Parts) → HasItsCode (running_of before) → TakesBack (undo_of.Children undo count) before
        (parts_of modules.old processes.old apps.old progress.old) →
        parts_of modules.new processes.new apps.new progress.new ≡ before) }
    ensures back { IfErr result (λ it. it ≡ undo_of.Children undo count) }
    ensures err { OnErr result (parts_of modules.new processes.new apps.new progress.new ≡
        parts_of modules.old processes.old apps.old progress.old) }
    ensures next { progress.new.next ≡ progress.old.next }
{
    match script_children::revert(apps, processes, modules, undo) {
        Ok(()) => {
            unnote(&mut progress.stopped, count);
            Ok(())
        }
        Err(undo) => Err(InstructionUndo::Children(undo, count)),
    }
}

/// Takes an instruction back, the newest change: all parts are as before it.
///
/// # Errors
///
/// The undo, where memory is refused. All is then as it was.
pub fn revert(
    modules: &mut Modules<Module>,
    processes: &mut Processes,
    apps: &mut AppTable,
    progress: &mut Progress,
    alloc: Global,
    undo: InstructionUndo,
) -> Result<(), InstructionUndo>
    requires { (before : Parts) × HasItsCode (running_of before) × TakesBack undo before
        (parts_of modules.old processes.old apps.old progress.old) }
    ensures ok { OnOk result ((before : Parts) → HasItsCode (running_of before) → TakesBack undo before
        (parts_of modules.old processes.old apps.old progress.old) →
        parts_of modules.new processes.new apps.new progress.new ≡ before) }
    ensures back { IfErr result (λ it. it ≡ undo) }
    ensures err { OnErr result (parts_of modules.new processes.new apps.new progress.new ≡
        parts_of modules.old processes.old apps.old progress.old) }
    ensures next { progress.new.next ≡ progress.old.next }
{
    match undo {
        InstructionUndo::Nothing => Ok(()),
        InstructionUndo::Read(count) => revert_read(modules, processes, apps, progress, count),
        InstructionUndo::Replaced(undo) => revert_replaced(
            modules, processes, apps, progress, undo,
        ),
        InstructionUndo::Purged(undo) => revert_purged(
            modules, processes, apps, progress, alloc, undo,
        ),
        InstructionUndo::Suspended(count) => revert_suspended(
            modules, processes, apps, progress, count,
        ),
        InstructionUndo::Resumed(undo) => revert_resumed(modules, processes, apps, progress, undo),
        InstructionUndo::Changed(undo) => revert_changed(modules, processes, apps, progress, undo),
        InstructionUndo::Children(undo, count) => revert_children(
            modules, processes, apps, progress, undo, count,
        ),
    }
}

// A step of a script is taken back.
ghost use Rattle.std.specs.Prelude.{◌≡◌, ◌+◌, ◌<◌, IfErr, OnErr, OnOk};
ghost use Rattle.code_replacement.specs.Replacing.{HasItsCode};
ghost use Rattle.script_runner.specs.Instructions.{running_of};
ghost use Rattle.script_runner.specs.Parts.{Parts, parts_of};
ghost use Rattle.script_runner.specs.Undo.{TakesBack};

use app_table::AppTable;
use code_server::Modules;
use erl_ir::Module;
use process_table::Processes;
use script_runner::{InstructionUndo, revert};
use script_state::Progress;
use std::alloc::Global;

/// Takes a step of a script back, the newest change: all parts are as before it, and its instruction is next again.
///
/// # Errors
///
/// The undo, where memory is refused. All is then as it was.
pub fn unstep(
    modules: &mut Modules<Module>,
    processes: &mut Processes,
    apps: &mut AppTable,
    progress: &mut Progress,
    alloc: Global,
    undo: InstructionUndo,
) -> Result<(), InstructionUndo>
    requires stepped { 0 < progress.old.next }
    requires before { (before : Parts) × HasItsCode (running_of before) × TakesBack undo before
        (parts_of modules.old processes.old apps.old progress.old) }
    ensures ok { OnOk result ((before : Parts) → HasItsCode (running_of before) → TakesBack undo before
        (parts_of modules.old processes.old apps.old progress.old) →
        parts_of modules.new processes.new apps.new progress.new ≡ before) }
    ensures next { OnOk result (progress.new.next + 1 ≡ progress.old.next) }
    ensures back { IfErr result (λ it. it ≡ undo) }
    ensures err { OnErr result (parts_of modules.new processes.new apps.new progress.new ≡
        parts_of modules.old processes.old apps.old progress.old) }
    ensures stays { OnErr result (progress.new.next ≡ progress.old.next) }
{
    match revert(modules, processes, apps, progress, alloc, undo) {
        Ok(()) => {
            progress.next -= 1;
            Ok(())
        }
        Err(undo) => Err(undo),
    }
}

// Replacements of code are taken back.
ghost use Rattle.std.specs.Prelude.{◌≡◌, IfErr, OnErr, OnOk};
ghost use Rattle.code_replacement.specs.Replacing.{HasItsCode, RunningSystem, running};
ghost use Rattle.code_replacement.specs.Undo.{PurgesBack, TakesBack};

use crate::children::unend;
use crate::undo::{Purges, ReplacementUndo};
use app_table::AppTable;
use code_server::Modules;
use erl_ir::Module;
use process_table::Processes;
use std::alloc::Global;

/// Takes a load, a purge or a removal back, the newest change: modules, processes and children are as before it.
///
/// # Errors
///
/// The undo, where memory is refused. All is then as it was.
pub fn revert(
    modules: &mut Modules<Module>,
    processes: &mut Processes,
    apps: &mut AppTable,
    undo: ReplacementUndo,
) -> Result<(), ReplacementUndo>
    requires { (before : RunningSystem) × HasItsCode before × TakesBack undo before (running modules.old processes.old apps.old) }
    ensures ok { OnOk result ((before : RunningSystem) → HasItsCode before
        → TakesBack undo before (running modules.old processes.old apps.old)
        → running modules.new processes.new apps.new ≡ before) }
    ensures back { IfErr result (λ it. it ≡ undo) }
    ensures err { OnErr result (running modules.new processes.new apps.new ≡ running modules.old processes.old apps.old) }
{
    let ReplacementUndo { code, ended } = undo;
    match code_loading::revert(modules, processes, code) {
        Ok(()) => {
            unend(apps, ended);
            Ok(())
        }
        Err(code) => Err(ReplacementUndo { code, ended }),
    }
}

/// Takes several purges back, the newest change: modules, processes and children are as before them. All of it or nothing.
///
/// # Errors
///
/// The undo, where memory is refused. All is then as it was.
pub fn revert_purges(
    modules: &mut Modules<Module>,
    processes: &mut Processes,
    apps: &mut AppTable,
    alloc: Global,
    undo: Purges,
) -> Result<(), Purges>
    requires { (before : RunningSystem) × HasItsCode before ×
        PurgesBack undo before (running modules.old processes.old apps.old) }
    ensures ok { OnOk result ((before : RunningSystem) → HasItsCode before
        → PurgesBack undo before (running modules.old processes.old apps.old)
        → running modules.new processes.new apps.new ≡ before) }
    ensures back { IfErr result (λ it. it ≡ undo) }
    ensures err { OnErr result (running modules.new processes.new apps.new ≡ running modules.old processes.old apps.old) }
{
    let Purges { code, ended } = undo;
    match code_loading::revert_purges(modules, processes, alloc, code) {
        Ok(()) => {
            unend(apps, ended);
            Ok(())
        }
        Err(code) => Err(Purges { code, ended }),
    }
}

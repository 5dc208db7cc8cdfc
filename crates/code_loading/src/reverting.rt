// Loads and purges are taken back.
ghost use Rattle.std.specs.Prelude.{◌≡◌, IfErr, OnErr, OnOk};
ghost use Rattle.code_server.specs.Modules.{IsModuleTable, Table as Loaded};
ghost use Rattle.erl_ir.specs.Module.{Forms};
ghost use Rattle.process_effects.specs.Ends.{AllStand};
ghost use Rattle.process_store.specs.Table.{Table};
ghost use Rattle.process_table.specs.Undo.{TakesBackEnds};
ghost use Rattle.code_server.specs.Undo.{Fits, HasPurged, undone};
ghost use Rattle.code_loading.specs.Undo.{TakesBack};

use crate::undo::LoadUndo;
use code_server::Modules;
use erl_ir::Module;
use process_table::Processes;

/// Takes a change of the modules back that has purged old code, and a kill of those that lingered in it.
fn revert_kill(
    modules: &mut Modules<Module>,
    processes: &mut Processes,
    purge: code_server::ModulesUndo<Module>,
    kill: process_table::ProcessesUndo,
) -> Result<(), LoadUndo>
    requires fits { Fits purge modules.old × HasPurged purge }
    requires before { (t : Table) × TakesBackEnds kill t processes.old × IsModuleTable (undone purge modules.old) ×
        AllStand (undone purge modules.old) t }
    ensures modules { OnOk result (modules.new ≡ undone purge modules.old) }
    ensures processes { OnOk result ((t : Table) → TakesBackEnds kill t processes.old →
        IsModuleTable (undone purge modules.old) → AllStand (undone purge modules.old) t → processes.new ≡ t) }
    ensures back { IfErr result (λ it. it ≡ record { modules = purge; killed = Some kill }) }
    ensures err { OnErr result ((modules.new ≡ modules.old) × (processes.new ≡ processes.old)) }
{
    match modules.unpurge(purge) {
        Ok(redo) => match processes.revert(modules, kill) {
            Ok(()) => Ok(()),
            Err(kill) => Err(LoadUndo {
                modules: modules.redo(redo),
                killed: Some(kill),
            }),
        },
        Err(purge) => Err(LoadUndo {
            modules: purge,
            killed: Some(kill),
        }),
    }
}

/// Takes the newest change back: the modules are as before it, and the processes that were killed live again.
///
/// # Errors
///
/// The undo, where memory is refused. Modules and processes are then as they were.
pub fn revert(
    modules: &mut Modules<Module>,
    processes: &mut Processes,
    undo: LoadUndo,
) -> Result<(), LoadUndo>
    requires { (m : Loaded Forms) × (t : Table) × TakesBack undo m t modules.old processes.old × IsModuleTable m × AllStand m t }
    ensures modules { OnOk result ((m : Loaded Forms) (t : Table) → TakesBack undo m t modules.old processes.old →
        modules.new ≡ m) }
    ensures processes { OnOk result ((m : Loaded Forms) (t : Table) → TakesBack undo m t modules.old processes.old →
        IsModuleTable m → AllStand m t → processes.new ≡ t) }
    ensures back { IfErr result (λ it. it ≡ undo) }
    ensures err { OnErr result ((modules.new ≡ modules.old) × (processes.new ≡ processes.old)) }
{
    let LoadUndo {
        modules: change,
        killed,
    } = undo;
    match killed {
        Some(kill) => revert_kill(modules, processes, change, kill),
        None => match modules.revert(change) {
            Ok(()) => Ok(()),
            Err(change) => Err(LoadUndo {
                modules: change,
                killed: None,
            }),
        },
    }
}

// A change of children and applications is taken back.
ghost use Rattle.std.specs.Prelude.{◌≡◌, IfErr, List, OnErr, OnOk};
ghost use Rattle.app_table.specs.Applications.{Application};
ghost use Rattle.code_server.specs.Modules.{IsModuleTable};
ghost use Rattle.process_effects.specs.Ends.{AllStand};
ghost use Rattle.process_store.specs.Table.{Table};
ghost use Rattle.script_children.specs.Children.{Supervised};
ghost use Rattle.script_children.specs.Undo.{AppsBack, ProcessesBack, TakesBack};

use crate::undo::ChildrenUndo;
use app_table::AppTable;
use code_server::Modules;
use erl_ir::Module;
use process_table::Processes;

/// The processes are as before a change, where they were changed.
///
/// # Errors
///
/// The undo, where memory is refused. The processes are then as they were.
fn revert_processes(
    processes: &mut Processes,
    modules: &Modules<Module>,
    undo: Option<process_table::ProcessesUndo>,
) -> Result<(), Option<process_table::ProcessesUndo>>
    requires { (before : Table) × ProcessesBack undo before processes.old }
    ensures ok { OnOk result ((before : Table) → ProcessesBack undo before processes.old →
        IsModuleTable modules.now → AllStand modules.now before → processes.new ≡ before) }
    ensures back { IfErr result (λ it. it ≡ undo) }
    ensures err { OnErr result (processes.new ≡ processes.old) }
{
    let Some(undo) = undo else {
        return Ok(());
    };
    match processes.revert(modules, undo) {
        Ok(()) => Ok(()),
        Err(undo) => Err(Some(undo)),
    }
}

/// The applications are as before a change, where they were changed. Takes no memory.
fn revert_apps(apps: &mut AppTable, undo: Option<app_table::AppsUndo>)
    ensures { (before : List Application) → AppsBack undo before apps.old → apps.new ≡ before }
{
    if let Some(undo) = undo {
        apps.revert(undo);
    }
}

/// Takes a change back: the processes and the applications are as before it.
///
/// # Errors
///
/// The undo, where memory is refused. All is then as it was.
pub fn revert(
    apps: &mut AppTable,
    processes: &mut Processes,
    modules: &Modules<Module>,
    undo: ChildrenUndo,
) -> Result<(), ChildrenUndo>
    requires { (before : Supervised) × TakesBack undo before (record { apps = apps.old; processes = processes.old }) ×
        IsModuleTable modules.now × AllStand modules.now before.processes }
    ensures apps { OnOk result ((before : Supervised) →
        TakesBack undo before (record { apps = apps.old; processes = processes.old }) → apps.new ≡ before.apps) }
    ensures processes { OnOk result ((before : Supervised) →
        TakesBack undo before (record { apps = apps.old; processes = processes.old }) →
        IsModuleTable modules.now → AllStand modules.now before.processes → processes.new ≡ before.processes) }
    ensures back { IfErr result (λ it. it ≡ undo) }
    ensures err { OnErr result ((apps.new ≡ apps.old) × (processes.new ≡ processes.old)) }
{
    match undo {
        ChildrenUndo::Changed(of_processes, of_apps) => {
            match revert_processes(processes, modules, of_processes) {
                Ok(()) => {
                    revert_apps(apps, of_apps);
                    Ok(())
                }
                Err(of_processes) => Err(ChildrenUndo::Changed(of_processes, of_apps)),
            }
        }
        ChildrenUndo::Unloaded(unloaded) => match apps.reload(unloaded) {
            Ok(()) => Ok(()),
            Err(unloaded) => Err(ChildrenUndo::Unloaded(unloaded)),
        },
    }
}

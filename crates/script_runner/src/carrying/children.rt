// Instructions on children and applications: stop, start, apply.
ghost use Rattle.std.specs.Prelude.{◌≡◌};
ghost use Rattle.low_instructions.specs.declared.low.Low.TheVariants as low;
ghost use Rattle.script_runner.specs.Carrying.{Carries};
ghost use Rattle.script_runner.specs.Parts.{parts_of};

use crate::carrying::Carried;
use crate::children::{start_children, stop_children};
use crate::halt::Halt;
use crate::undo::InstructionUndo;
use app_table::AppTable;
use code_loading::current_code;
use code_server::Modules;
use erl_ir::Module;
use erl_term::{Atom, Terms};
use process_table::Processes;
use release_table::Release;
use script_children::apply;
use script_state::Progress;
use std::alloc::Global;
use values::{Failure, Row};

/// `stop`: see [`sys_protocol::stop`].
pub(crate) fn stop(
    modules: &mut Modules<Module>,
    processes: &mut Processes,
    apps: &mut AppTable,
    progress: &mut Progress,
    alloc: Global,
    release: &Release,
    give_up: bool,
    names: &Row<Atom>,
    n: usize,
) -> Result<Carried, Failure<Halt>>
    ensures carried { Carries release.now give_up (low.Stop names.now) n
        (parts_of modules.old processes.old apps.old progress.old)
        (parts_of modules.new processes.new apps.new progress.new) result }
    ensures next { progress.new.next ≡ progress.old.next }
{
    let stopped = &mut progress.stopped;
    match stop_children(apps, processes, alloc, names.as_slice(), stopped, n) {
        Ok(it) => Ok(Carried {
            told: it.told,
            undo: InstructionUndo::Children(it.undo, it.count),
        }),
        Err(_) => Err(Failure::Memory),
    }
}

/// `start`: see [`sys_protocol::start`].
pub(crate) fn start(
    modules: &mut Modules<Module>,
    processes: &mut Processes,
    apps: &mut AppTable,
    progress: &mut Progress,
    alloc: Global,
    release: &Release,
    give_up: bool,
    names: &Row<Atom>,
    n: usize,
) -> Result<Carried, Failure<Halt>>
    ensures carried { Carries release.now give_up (low.Start names.now) n
        (parts_of modules.old processes.old apps.old progress.old)
        (parts_of modules.new processes.new apps.new progress.new) result }
    ensures next { progress.new.next ≡ progress.old.next }
{
    let noted = progress.stopped.as_slice();
    match start_children(modules, apps, processes, alloc, noted, names.as_slice(), n) {
        Ok(it) => Ok(Carried {
            told: it.told,
            undo: InstructionUndo::Children(it.undo, it.count),
        }),
        Err(Failure::Refused(reason)) => Err(Failure::Refused(Halt::Failed(reason))),
        Err(Failure::Memory) => Err(Failure::Memory),
    }
}

/// `apply`: see [`script_children::apply`].
pub(crate) fn apply_function(
    modules: &mut Modules<Module>,
    processes: &mut Processes,
    apps: &mut AppTable,
    progress: &mut Progress,
    alloc: Global,
    release: &Release,
    give_up: bool,
    name: &Atom,
    function: &Atom,
    arguments: &Terms,
    n: usize,
) -> Result<Carried, Failure<Halt>>
    ensures carried { Carries release.now give_up (low.Apply name.now function.now arguments.now) n
        (parts_of modules.old processes.old apps.old progress.old)
        (parts_of modules.new processes.new apps.new progress.new) result }
    ensures next { progress.new.next ≡ progress.old.next }
{
    let Ok(code) = current_code(alloc, modules) else {
        return Err(Failure::Memory);
    };
    match apply(
        apps,
        processes,
        alloc,
        code.as_slice(),
        name,
        function,
        arguments,
        n,
    ) {
        Ok(it) => Ok(Carried {
            told: it.told,
            undo: InstructionUndo::Children(it.undo, 0),
        }),
        Err(Failure::Refused(reason)) => Err(Failure::Refused(Halt::Failed(reason))),
        Err(Failure::Memory) => Err(Failure::Memory),
    }
}

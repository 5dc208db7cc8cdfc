// Instructions on processes: suspend, resume, code_change.
ghost use Rattle.std.specs.Prelude.{◌≡◌};
ghost use Rattle.low_instructions.specs.declared.low.Low.TheVariants as low;
ghost use Rattle.script_runner.specs.Carrying.{Carries};
ghost use Rattle.script_runner.specs.Parts.{parts_of};

use crate::carrying::Carried;
use crate::halt::Halt;
use crate::suspending::{change_children, resume_children, suspend_children};
use crate::undo::InstructionUndo;
use app_table::AppTable;
use code_server::Modules;
use erl_ir::Module;
use erl_term::Atom;
use low_instructions::{Direction, ModuleChange, Suspension};
use process_table::Processes;
use release_table::Release;
use script_state::Progress;
use std::alloc::Global;
use values::{Failure, Row};

/// `suspend`: see [`suspensions::suspend`].
pub(crate) fn suspend(
    modules: &mut Modules<Module>,
    processes: &mut Processes,
    apps: &mut AppTable,
    progress: &mut Progress,
    alloc: Global,
    release: &Release,
    give_up: bool,
    names: &Row<Suspension>,
    n: usize,
) -> Result<Carried, Failure<Halt>>
    ensures carried { Carries release.now give_up (low.Suspend names.now) n
        (parts_of modules.old processes.old apps.old progress.old)
        (parts_of modules.new processes.new apps.new progress.new) result }
    ensures next { progress.new.next ≡ progress.old.next }
{
    let suspended = &mut progress.suspended;
    match suspend_children(
        apps,
        processes,
        alloc,
        names.as_slice(),
        give_up,
        suspended,
        n,
    ) {
        Ok(it) => Ok(Carried {
            told: it.told,
            undo: InstructionUndo::Suspended(it.count),
        }),
        Err(Failure::Refused(busy)) => Err(Failure::Refused(Halt::Busy(busy.pid))),
        Err(Failure::Memory) => Err(Failure::Memory),
    }
}

/// `resume`: see [`suspensions::resume`].
pub(crate) fn resume(
    modules: &mut Modules<Module>,
    processes: &mut Processes,
    apps: &mut AppTable,
    progress: &mut Progress,
    alloc: Global,
    release: &Release,
    give_up: bool,
    names: &Row<Atom>,
    n: usize,
) -> Result<Carried, Failure<Halt>>
    ensures carried { Carries release.now give_up (low.Resume names.now) n
        (parts_of modules.old processes.old apps.old progress.old)
        (parts_of modules.new processes.new apps.new progress.new) result }
    ensures next { progress.new.next ≡ progress.old.next }
{
    let suspended = &mut progress.suspended;
    match resume_children(apps, processes, alloc, names.as_slice(), suspended, n) {
        Ok(it) => Ok(Carried {
            told: it.told,
            undo: InstructionUndo::Resumed(it.undo),
        }),
        Err(_) => Err(Failure::Memory),
    }
}

/// `code_change`: see [`code_changes::change_code`].
pub(crate) fn change_code(
    modules: &mut Modules<Module>,
    processes: &mut Processes,
    apps: &mut AppTable,
    progress: &mut Progress,
    alloc: Global,
    release: &Release,
    give_up: bool,
    direction: Direction,
    changes: &Row<ModuleChange>,
    n: usize,
) -> Result<Carried, Failure<Halt>>
    ensures carried { Carries release.now give_up (low.CodeChange direction changes.now) n
        (parts_of modules.old processes.old apps.old progress.old)
        (parts_of modules.new processes.new apps.new progress.new) result }
    ensures next { progress.new.next ≡ progress.old.next }
{
    match change_children(
        modules,
        apps,
        processes,
        alloc,
        direction,
        changes.as_slice(),
        progress.versions.as_slice(),
        progress.suspended.as_slice(),
        n,
    ) {
        Ok(it) => Ok(Carried {
            told: it.told,
            undo: InstructionUndo::Changed(it.undo),
        }),
        Err(failure) => Err(failure),
    }
}

// Instructions on code: load_object_code, load, remove, purge.
ghost use Rattle.std.specs.Prelude.{◌≡◌};
ghost use Rattle.low_instructions.specs.declared.low.Low.TheVariants as low;
ghost use Rattle.script_runner.specs.Carrying.{Carries};
ghost use Rattle.script_runner.specs.Parts.{parts_of};

use crate::carrying::Carried;
use crate::halt::Halt;
use crate::reading::read_object_code;
use crate::replacing::{load_code, purge_code, remove_code};
use crate::undo::InstructionUndo;
use app_table::AppTable;
use code_server::Modules;
use erl_ir::Module;
use erl_term::Atom;
use process_table::Processes;
use release_table::Release;
use release_words::{Purge, Version};
use script_children::nothing_told;
use script_state::Progress;
use std::alloc::Global;
use values::{Failure, Row};

/// `point_of_no_return`: nothing is done.
pub(crate) fn pass_point(
    modules: &mut Modules<Module>,
    processes: &mut Processes,
    apps: &mut AppTable,
    progress: &mut Progress,
    alloc: Global,
    release: &Release,
    give_up: bool,
    n: usize,
) -> Result<Carried, Failure<Halt>>
    ensures carried { Carries release.now give_up (low.PointOfNoReturn) n
        (parts_of modules.old processes.old apps.old progress.old)
        (parts_of modules.new processes.new apps.new progress.new) result }
    ensures next { progress.new.next ≡ progress.old.next }
{
    let Ok(told) = nothing_told(alloc, n) else {
        return Err(Failure::Memory);
    };
    Ok(Carried {
        told,
        undo: InstructionUndo::Nothing,
    })
}

/// `load_object_code`: the modules are noted, if the release that is being installed has their sources.
pub(crate) fn read(
    modules: &mut Modules<Module>,
    processes: &mut Processes,
    apps: &mut AppTable,
    progress: &mut Progress,
    alloc: Global,
    release: &Release,
    give_up: bool,
    application: &Atom,
    version: &Version,
    names: &Row<Atom>,
    n: usize,
) -> Result<Carried, Failure<Halt>>
    ensures carried { Carries release.now give_up (low.LoadObjectCode application.now version.now names.now) n
        (parts_of modules.old processes.old apps.old progress.old)
        (parts_of modules.new processes.new apps.new progress.new) result }
    ensures next { progress.new.next ≡ progress.old.next }
{
    let versions = &mut progress.versions;
    match read_object_code(
        modules,
        alloc,
        release,
        application,
        version,
        names.as_slice(),
        versions,
        n,
    ) {
        Ok(it) => Ok(Carried {
            told: it.told,
            undo: InstructionUndo::Read(it.count),
        }),
        Err(Failure::Refused(reason)) => Err(Failure::Refused(Halt::Failed(reason))),
        Err(Failure::Memory) => Err(Failure::Memory),
    }
}

/// `load`: the object code that is at hand becomes current.
pub(crate) fn load(
    modules: &mut Modules<Module>,
    processes: &mut Processes,
    apps: &mut AppTable,
    progress: &mut Progress,
    alloc: Global,
    release: &Release,
    give_up: bool,
    name: &Atom,
    pre_purge: Purge,
    post_purge: Purge,
    n: usize,
) -> Result<Carried, Failure<Halt>>
    ensures carried { Carries release.now give_up (low.Load name.now pre_purge post_purge) n
        (parts_of modules.old processes.old apps.old progress.old)
        (parts_of modules.new processes.new apps.new progress.new) result }
    ensures next { progress.new.next ≡ progress.old.next }
{
    let versions = progress.versions.as_slice();
    match load_code(
        modules, processes, apps, alloc, release, versions, name, post_purge, n,
    ) {
        Ok(it) => Ok(Carried {
            told: it.told,
            undo: InstructionUndo::Replaced(it.undo),
        }),
        Err(failure) => Err(failure),
    }
}

/// `remove`: current code becomes old.
pub(crate) fn remove(
    modules: &mut Modules<Module>,
    processes: &mut Processes,
    apps: &mut AppTable,
    progress: &mut Progress,
    alloc: Global,
    release: &Release,
    give_up: bool,
    name: &Atom,
    pre_purge: Purge,
    post_purge: Purge,
    n: usize,
) -> Result<Carried, Failure<Halt>>
    ensures carried { Carries release.now give_up (low.Remove name.now pre_purge post_purge) n
        (parts_of modules.old processes.old apps.old progress.old)
        (parts_of modules.new processes.new apps.new progress.new) result }
    ensures next { progress.new.next ≡ progress.old.next }
{
    match remove_code(modules, processes, apps, alloc, name, post_purge, n) {
        Ok(it) => Ok(Carried {
            told: it.told,
            undo: InstructionUndo::Replaced(it.undo),
        }),
        Err(_) => Err(Failure::Memory),
    }
}

/// `purge`: old code is gone.
pub(crate) fn purge(
    modules: &mut Modules<Module>,
    processes: &mut Processes,
    apps: &mut AppTable,
    progress: &mut Progress,
    alloc: Global,
    release: &Release,
    give_up: bool,
    names: &Row<Atom>,
    n: usize,
) -> Result<Carried, Failure<Halt>>
    ensures carried { Carries release.now give_up (low.Purge names.now) n
        (parts_of modules.old processes.old apps.old progress.old)
        (parts_of modules.new processes.new apps.new progress.new) result }
    ensures next { progress.new.next ≡ progress.old.next }
{
    match purge_code(modules, processes, apps, alloc, names.as_slice(), n) {
        Ok(it) => Ok(Carried {
            told: it.told,
            undo: InstructionUndo::Purged(it.undo),
        }),
        Err(_) => Err(Failure::Memory),
    }
}

// One instruction is carried out.
mod children;
mod code;
mod processes;

ghost use Rattle.std.specs.Prelude.{◌≡◌};
ghost use Rattle.script_runner.specs.Carrying.{Carries};
ghost use Rattle.script_runner.specs.Parts.{parts_of};

use crate::halt::Halt;
use crate::undo::InstructionUndo;
use app_table::AppTable;
use code_server::Modules;
use erl_ir::Module;
use low_instructions::Low;
use process_effects::Reply;
use process_table::Processes;
use release_table::Release;
use script_state::Progress;
use std::alloc::Global;
use values::{Failure, Row};

/// What an instruction has come to.
#[derive(Drop)]
pub struct Carried {
    /// What clients are told, in as many equal values as were asked for.
    pub told: Vec<Row<Reply>>,
    /// What takes it back.
    pub undo: InstructionUndo,
}

/// Carries out one instruction of a script, over the parts of a node, for the release that is being installed. Where it is
/// given up to wait for processes that run, a suspension passes them over. What clients are told is handed out in `n` equal
/// values.
///
/// # Errors
///
/// In this order: `Busy` with the first process that runs and is to be suspended; `Failed` with the term that says why the
/// instruction has failed; `CounterEnd`; `Memory`, which may also come in place of a failure of what is evaluated. All is then
/// as it was.
pub fn carry_out(
    instruction: &Low,
    modules: &mut Modules<Module>,
    processes: &mut Processes,
    apps: &mut AppTable,
    progress: &mut Progress,
    alloc: Global,
    release: &Release,
    give_up: bool,
    n: usize,
) -> Result<Carried, Failure<Halt>>
    ensures carried { Carries release.now give_up instruction.now n
        (parts_of modules.old processes.old apps.old progress.old)
        (parts_of modules.new processes.new apps.new progress.new) result }
    ensures next { progress.new.next ≡ progress.old.next }
{
    match instruction {
        Low::LoadObjectCode {
            application,
            version,
            modules: names,
        } => code::read(
            modules,
            processes,
            apps,
            progress,
            alloc,
            release,
            give_up,
            application,
            version,
            names,
            n,
        ),
        Low::PointOfNoReturn => code::pass_point(
            modules, processes, apps, progress, alloc, release, give_up, n,
        ),
        Low::Load {
            name,
            pre_purge,
            post_purge,
        } => code::load(
            modules,
            processes,
            apps,
            progress,
            alloc,
            release,
            give_up,
            name,
            *pre_purge,
            *post_purge,
            n,
        ),
        Low::Remove {
            name,
            pre_purge,
            post_purge,
        } => code::remove(
            modules,
            processes,
            apps,
            progress,
            alloc,
            release,
            give_up,
            name,
            *pre_purge,
            *post_purge,
            n,
        ),
        Low::Purge { modules: names } => code::purge(
            modules, processes, apps, progress, alloc, release, give_up, names, n,
        ),
        Low::Suspend { modules: names } => processes::suspend(
            modules, processes, apps, progress, alloc, release, give_up, names, n,
        ),
        Low::Resume { modules: names } => processes::resume(
            modules, processes, apps, progress, alloc, release, give_up, names, n,
        ),
        Low::CodeChange { direction, changes } => processes::change_code(
            modules, processes, apps, progress, alloc, release, give_up, *direction, changes, n,
        ),
        Low::Stop { modules: names } => children::stop(
            modules, processes, apps, progress, alloc, release, give_up, names, n,
        ),
        Low::Start { modules: names } => children::start(
            modules, processes, apps, progress, alloc, release, give_up, names, n,
        ),
        Low::Apply {
            name,
            function,
            arguments,
        } => children::apply_function(
            modules, processes, apps, progress, alloc, release, give_up, name, function, arguments,
            n,
        ),
    }
}

// An instruction of the script is carried out.
ghost use Rattle.std.specs.Prelude.{◌≡◌, IfOk, replicate};
ghost use Rattle.script_events.specs.Carrying.{CarriesOnOrStops, script_of};
ghost use Rattle.script_runner.specs.Parts.{parts_of};
ghost use Rattle.script_state.specs.Runner.{progress_of, runner_of};

use code_server::Modules;
use erl_ir::Module;
use low_instructions::Low;
use node_parts::{room, tell_ran};
use node_types::{Answer, Note};
use process_table::Processes;
use release_table::Release;
use script_runner::InstructionUndo;
use script_state::{Runner, instruction_at};
use script_steps::{NoStep, Stepped, step};
use std::alloc::{AllocError, Global};
use sys_protocol::AppTable;
use undo_journal::Told;
use values::{Boxed, Duplicate, Failure, Reserved};

/// What an instruction that was carried out has come to.
#[derive(Drop)]
pub(crate) struct CarriedOn {
    /// What is told of it, in as many equal values as were asked for.
    pub(crate) told: Vec<Told<Answer, Note>>,
    /// What takes it back.
    pub(crate) undo: Boxed<InstructionUndo>,
}

/// `n` equal values of an instruction.
fn copies_of(alloc: Global, instruction: &Low, n: usize) -> Result<Vec<Low>, AllocError>
    ensures { IfOk result (λ it. it.items ≡ replicate n instruction.now) }
{
    let mut copies = Vec::with_capacity(alloc, n)?;
    for _i in 0..n {
        copies.push(instruction.copy(alloc)?)?;
    }
    Ok(copies)
}

/// The script goes on by its next instruction, for the release that is being installed. What is told of it is handed out in `n`
/// equal values.
///
/// # Errors
///
/// What [`script_steps::step`] says. All is then as it was.
pub(crate) fn carry_on(
    modules: &mut Modules<Module>,
    processes: &mut Processes,
    apps: &mut AppTable,
    runner: &mut Runner,
    alloc: Global,
    release: &Release,
    give_up: bool,
    n: usize,
) -> Result<CarriedOn, Failure<NoStep>>
    ensures runner { runner_of runner.new ≡ record (runner_of runner.old) { progress = progress_of runner.new.progress } }
    ensures goes_on { CarriesOnOrStops release.now give_up n
        (script_of runner.old (parts_of modules.old processes.old apps.old runner.old.progress))
        (script_of runner.new (parts_of modules.new processes.new apps.new runner.new.progress)) result }
{
    let script = runner.script.as_slice();
    let Some(next) = instruction_at(script, runner.progress.next) else {
        return Err(Failure::Refused(NoStep::AtEnd));
    };
    let Ok(told) = room(alloc, n) else {
        return Err(Failure::Memory);
    };
    let Ok(copies) = copies_of(alloc, next, n) else {
        return Err(Failure::Memory);
    };
    let Ok(memory) = Reserved::new(alloc) else {
        return Err(Failure::Memory);
    };
    match step(
        script,
        modules,
        processes,
        apps,
        &mut runner.progress,
        alloc,
        release,
        give_up,
        n,
    ) {
        Ok(Stepped { told: lists, undo }) => Ok(CarriedOn {
            told: tell_ran(told, copies, lists),
            undo: memory.fill(undo),
        }),
        Err(failure) => Err(failure),
    }
}

// A script goes on.
ghost use Rattle.std.specs.Prelude.{◌≡◌, take};
ghost use Rattle.script_checks.specs.Checks.{has_point};
ghost use Rattle.script_runner.specs.Parts.{parts_of};
ghost use Rattle.script_steps.specs.Steps.{StepsOrStops, no_step_of, side_by};

use app_table::AppTable;
use code_server::Modules;
use erl_ir::Module;
use erl_term::Term;
use low_instructions::Low;
use process_effects::Reply;
use process_table::Processes;
use release_table::Release;
use script_checks::has_point;
use script_runner::{Carried, Halt, InstructionUndo, carry_out};
use script_state::{Progress, instruction_at};
use std::alloc::Global;
use std::fmt;
use thiserror::Error;
use values::{Failure, Row};

/// What a step of a script has come to.
#[derive(Drop)]
pub struct Stepped {
    /// What clients are told, in as many equal values as were asked for.
    pub told: Vec<Row<Reply>>,
    /// What takes the instruction back.
    pub undo: InstructionUndo,
}

/// On which side of the point of no return an instruction stands.
#[derive(Clone, Copy, Debug, PartialEq, Eq, Drop)]
pub enum Side {
    /// Before it, or it is the point itself.
    Before,
    /// Behind it.
    Behind,
}

/// Why a script doesn't go on.
#[derive(Drop, Error)]
pub enum NoStep {
    /// No instruction is left.
    #[error("no instruction is left")]
    AtEnd,
    /// This process runs, and is to be suspended.
    #[error("process {0} runs, and is to be suspended")]
    Busy(u64),
    /// The next instruction, which stands on this side of the point of no return, has failed, for this reason.
    #[error("the next instruction has failed")]
    Failed(Side, Term),
    /// The serial of a load, or the turn of a process, can't be counted further.
    #[error("the serial of a load or the turn of a process can't be counted further")]
    CounterEnd,
}

/// As it is displayed.
impl fmt::Debug for NoStep {
    fn fmt<W: fmt::Write>(&self, f: &mut fmt::Formatter<W>) -> fmt::Result {
        write!(f, "{self}")
    }
}

/// Whether the point of no return stands before an index of a script.
fn is_behind(script: &[Low], index: usize) -> bool
    ensures { result ≡ has_point (take index script.now) }
{
    match script.get(..index) {
        Some(before) => has_point(before),
        None => has_point(script),
    }
}

/// On which side of the point of no return an index of a script is.
fn side_of(script: &[Low], index: usize) -> Side
    ensures { result ≡ side_by (has_point (take index script.now)) }
{
    if is_behind(script, index) {
        return Side::Behind;
    }
    Side::Before
}

/// Why an instruction at an index of a script was not carried out.
fn no_step(script: &[Low], index: usize, halt: Halt) -> NoStep
    ensures { result ≡ no_step_of (side_by (has_point (take index script.now))) halt }
{
    match halt {
        Halt::Busy(pid) => NoStep::Busy(pid),
        Halt::Failed(reason) => NoStep::Failed(side_of(script, index), reason),
        Halt::CounterEnd => NoStep::CounterEnd,
    }
}

/// Carries out the next instruction of a script over the parts of a node, for the release that is being installed. Where
/// waiting is given up, a suspension passes over processes that run. What clients are told is handed out in `n` equal values.
///
/// # Errors
///
/// In this order: `AtEnd`, `Busy`, `Failed`, `CounterEnd`; `Memory`, which may also come in place of a failure of what is
/// evaluated. All is then as it was.
pub fn step(
    script: &[Low],
    modules: &mut Modules<Module>,
    processes: &mut Processes,
    apps: &mut AppTable,
    progress: &mut Progress,
    alloc: Global,
    release: &Release,
    give_up: bool,
    n: usize,
) -> Result<Stepped, Failure<NoStep>>
    ensures { StepsOrStops release.now give_up n
        (record {
          parts = parts_of modules.old processes.old apps.old progress.old;
          script = script.now;
          next = progress.old.next;
        })
        (record {
          parts = parts_of modules.new processes.new apps.new progress.new;
          script = script.now;
          next = progress.new.next;
        }) result }
{
    let index = progress.next;
    let Some(next) = instruction_at(script, index) else {
        return Err(Failure::Refused(NoStep::AtEnd));
    };
    match carry_out(
        next, modules, processes, apps, progress, alloc, release, give_up, n,
    ) {
        Ok(carried) => {
            let Carried { told, undo } = carried;
            progress.next = index + 1;
            Ok(Stepped { told, undo })
        }
        Err(Failure::Refused(halt)) => Err(Failure::Refused(no_step(script, index, halt))),
        Err(Failure::Memory) => Err(Failure::Memory),
    }
}

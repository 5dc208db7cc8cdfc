// The script goes on, or ends.
ghost use Rattle.std.specs.Prelude.{◌≡◌, IfOk, Some, [], replicate};
ghost use Rattle.node_parts.specs.Changes.{IsStep, IsStepOf, state_of};
ghost use Rattle.node_parts.specs.Node.{RunsScript};
ghost use Rattle.node_parts.specs.Scripts.{CanHalt, HaltsAs, reporting};
ghost use Rattle.node_parts.specs.Step.{MayRunOut};
ghost use Rattle.node_types.specs.declared.event.Answer.TheVariants as answer;
ghost use Rattle.node_types.specs.declared.event.Event.TheVariants as event;
ghost use Rattle.script_state.specs.Runner.{RunnerState};
ghost use Rattle.script_steps.specs.declared.stepping.NoStep.TheVariants.{AtEnd, Failed};
ghost use Rattle.script_steps.specs.declared.stepping.Side.TheVariants.{Before};

use crate::carrying::{CarriedOn, carry_on};
use crate::restarting::fall_back;
use erl_term::Term;
use node_parts::{NodeParts, Record, Step, WayBack, reporting_nothing, tell};
use node_types::{Answer, Note, Refusal};
use release_words::Version;
use script_ends::{finish, recover};
use script_steps::{NoStep, Side};
use std::alloc::{AllocError, Global};
use undo_journal::{Stepped, Told};
use values::{Duplicate, Failure, Reserved};

/// What is told of a script that is finished, in `n` equal values.
fn finished_told(
    alloc: Global,
    vsn: &Version,
    description: &Term,
    n: usize,
) -> Result<Vec<Told<Answer, Note>>, AllocError>
    ensures { IfOk result (λ it. it.items ≡
        replicate n (record { answer = answer.Finished vsn.now description.now; note = reporting [] })) }
{
    let answer = Answer::Finished {
        vsn: vsn.copy(alloc)?,
        description: description.copy(alloc)?,
    };
    tell(alloc, answer, reporting_nothing(alloc), n)
}

/// The script is finished.
fn end_script(parts: &mut NodeParts, alloc: Global, n: usize) -> Step
    requires { (s : RunnerState) × ((state_of parts.old).runner ≡ Some s) × CanHalt AtEnd s (state_of parts.old) }
    ensures { (s : RunnerState) → (state_of parts.old).runner ≡ Some s →
        IsStepOf (HaltsAs AtEnd s (state_of parts.old)) (Unit {0}) n (state_of parts.old) (state_of parts.new) result }
{
    let Some(runner) = parts.runner.take() else {
        unreachable!()
    };
    let Ok(told) = finished_told(alloc, &runner.other, &runner.description, n) else {
        parts.runner = Some(runner);
        return Err(Failure::Memory);
    };
    let Ok(memory) = Reserved::new(alloc) else {
        parts.runner = Some(runner);
        return Err(Failure::Memory);
    };
    match finish(&mut parts.processes, &mut parts.releases, alloc, runner) {
        Ok(undo) => Ok(Stepped {
            told,
            trace: Record {
                way_back: WayBack::OfFinish(memory.fill(undo)),
            },
        }),
        Err(runner) => {
            parts.runner = Some(runner);
            Err(Failure::Memory)
        }
    }
}

/// The script is given up, before its point of no return, since an instruction has failed for this reason.
fn give_up_script(parts: &mut NodeParts, alloc: Global, reason: Term, n: usize) -> Step
    requires { (s : RunnerState) × ((state_of parts.old).runner ≡ Some s) ×
        CanHalt (Failed Before reason) s (state_of parts.old) }
    ensures { (s : RunnerState) → (state_of parts.old).runner ≡ Some s →
        IsStepOf (HaltsAs (Failed Before reason) s (state_of parts.old)) (Unit {0}) n (state_of parts.old) (state_of parts.new)
        result }
{
    let Ok(told) = tell(
        alloc,
        Answer::Recovered(reason),
        reporting_nothing(alloc),
        n,
    ) else {
        return Err(Failure::Memory);
    };
    let Ok(memory) = Reserved::new(alloc) else {
        return Err(Failure::Memory);
    };
    let Some(runner) = parts.runner.take() else {
        unreachable!()
    };
    match recover(&mut parts.apps, runner) {
        Ok(undo) => Ok(Stepped {
            told,
            trace: Record {
                way_back: WayBack::OfRecovery(memory.fill(undo)),
            },
        }),
        Err(runner) => {
            parts.runner = Some(runner);
            Err(Failure::Memory)
        }
    }
}

/// What becomes of a script whose next instruction isn't carried out.
fn halt(parts: &mut NodeParts, alloc: Global, stop: NoStep, n: usize) -> Step
    requires { (s : RunnerState) × ((state_of parts.old).runner ≡ Some s) × CanHalt stop s (state_of parts.old) }
    ensures { (s : RunnerState) → (state_of parts.old).runner ≡ Some s →
        IsStepOf (HaltsAs stop s (state_of parts.old)) (Unit {0}) n (state_of parts.old) (state_of parts.new) result }
{
    match stop {
        NoStep::AtEnd => end_script(parts, alloc, n),
        NoStep::Busy(pid) => Err(Failure::Refused(Refusal::Busy(pid))),
        NoStep::Failed(Side::Before, reason) => give_up_script(parts, alloc, reason, n),
        NoStep::Failed(Side::Behind, reason) => fall_back(parts, alloc, reason, n),
        NoStep::CounterEnd => Err(Failure::Refused(Refusal::CounterEnd)),
    }
}

/// The script goes on by its next instruction, or ends.
pub fn advance(parts: &mut NodeParts, alloc: Global, give_up: bool, n: usize) -> Step
    requires wants { MayRunOut (state_of parts.old) (event.Advance give_up) }
    requires kept { RunsScript (state_of parts.old).runner (state_of parts.old).releases (state_of parts.old).apps }
    ensures { IsStep (event.Advance give_up) n (state_of parts.old) (state_of parts.new) result }
{
    let Some(mut runner) = parts.runner.take() else {
        unreachable!()
    };
    let Some(target) = parts.releases.get(runner.target.as_str()) else {
        unreachable!()
    };
    let carried = carry_on(
        &mut parts.modules,
        &mut parts.processes,
        &mut parts.apps,
        &mut runner,
        alloc,
        &target.release,
        give_up,
        n,
    );
    parts.runner = Some(runner);
    match carried {
        Ok(CarriedOn { told, undo }) => Ok(Stepped {
            told,
            trace: Record {
                way_back: WayBack::OfInstruction(undo),
            },
        }),
        Err(Failure::Refused(stop)) => halt(parts, alloc, stop, n),
        Err(Failure::Memory) => Err(Failure::Memory),
    }
}

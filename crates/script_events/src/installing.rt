// An install begins.
ghost use Rattle.std.specs.Prelude.{◌≡◌, [], IfOk, replicate};
ghost use Rattle.node_parts.specs.Changes.{IsStep, state_of};
ghost use Rattle.node_parts.specs.Scripts.{reporting};
ghost use Rattle.node_parts.specs.Step.{MayRunOut};
ghost use Rattle.node_types.specs.declared.event.Answer.TheVariants as answer;
ghost use Rattle.node_types.specs.declared.event.Event.TheVariants as event;

use install_checks::script_to;
use node_parts::{NodeParts, Record, Step, WayBack, reporting_nothing, tell};
use node_types::{Answer, Note};
use release_statuses::Vsn;
use release_words::Version;
use script_state::begin;
use std::alloc::{AllocError, Global};
use undo_journal::{Stepped, Told};
use values::{Duplicate, Failure};

/// What is told of an install that begins, in `n` equal values.
fn begun_told(
    alloc: Global,
    vsn: &Version,
    instructions: usize,
    n: usize,
) -> Result<Vec<Told<Answer, Note>>, AllocError>
    ensures { IfOk result (λ it. it.items ≡
        replicate n (record { answer = answer.Installing vsn.now instructions; note = reporting [] })) }
{
    let vsn = vsn.copy(alloc)?;
    let answer = Answer::Installing { vsn, instructions };
    tell(alloc, answer, reporting_nothing(alloc), n)
}

/// An install of the release of a version begins: its specifications are put in place, and its script is to run.
pub fn install(parts: &mut NodeParts, alloc: Global, vsn: &Vsn, n: usize) -> Step
    requires { MayRunOut (state_of parts.old) (event.Install vsn.now) }
    ensures { IsStep (event.Install vsn.now) n (state_of parts.old) (state_of parts.new) result }
{
    let Some(entry) = script_to(&parts.releases, vsn.as_str()) else {
        unreachable!()
    };
    let Some(target) = parts.releases.get(vsn.as_str()) else {
        unreachable!()
    };
    let release = &target.release;
    let count = entry.instructions.as_slice().len();
    let Ok(told) = begun_told(alloc, &release.rel.vsn, count, n) else {
        return Err(Failure::Memory);
    };
    match begin(&mut parts.apps, alloc, release, entry) {
        Ok(runner) => {
            parts.runner = Some(runner);
            Ok(Stepped {
                told,
                trace: Record {
                    way_back: WayBack::OfInstall,
                },
            })
        }
        Err(_) => Err(Failure::Memory),
    }
}

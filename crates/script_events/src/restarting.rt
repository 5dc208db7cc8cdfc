// The node restarts.
ghost use Rattle.std.specs.Prelude.{◌≡◌, List, None, Some, IfErr, IfOk, OnOk, replicate};
ghost use Rattle.code_server.specs.declared.error.CodeError.TheVariants.{CounterEnd as AtEnd};
ghost use Rattle.node_parts.specs.Changes.{IsStep, IsStepOf, state_of};
ghost use Rattle.node_parts.specs.Node.{NodeState};
ghost use Rattle.node_parts.specs.Record.{Restores};
ghost use Rattle.node_parts.specs.Scripts.{FallBack, reporting};
ghost use Rattle.node_parts.specs.Step.{MayRunOut};
ghost use Rattle.node_restart.specs.Restart.{RestartsAs, TellsRestart, restart_refusal};
ghost use Rattle.node_types.specs.declared.event.Event.TheVariants as event;
ghost use Rattle.node_types.specs.declared.event.Refusal.{Refusal as Why};
ghost use Rattle.node_types.specs.declared.event.Refusal.TheVariants.{CounterEnd};
ghost use Rattle.process_effects.specs.declared.told.Reply.{Reply as Sent};
ghost use Rattle.release_statuses.specs.Undo.{IsRemoval, TakesBack};
ghost use Rattle.values.specs.Failure.{Fails};

use erl_term::Term;
use node_parts::{Displaced, NodeParts, Record, Step, WayBack, reporting, tell};
use node_restart::{Restart, prepare};
use node_types::{Answer, Note, Refusal};
use release_boot::Booted;
use release_statuses::{ReleasesUndo, Vsn};
use release_table::Release;
use std::alloc::Global;
use std::mem;
use undo_journal::{Stepped, Told};
use values::{Failure, Reserved};

/// What a restart is made of, and what is told of it.
#[derive(Drop)]
struct Ready {
    told: Vec<Told<Answer, Note>>,
    booted: Booted,
    memory: Reserved<Displaced>,
}

/// Makes ready what a restart with a release is made of. What is told of it, with this answer, is made in `n` equal values.
fn make_ready(
    parts: &NodeParts,
    alloc: Global,
    release: &Release,
    answer: Answer,
    n: usize,
) -> Result<Ready, Failure<Refusal>>
    ensures ok { OnOk result (restart_refusal release.now (state_of parts.now).modules ≡ None) }
    ensures told { IfOk result (λ it. (told : List Sent) × TellsRestart (state_of parts.now).processes told ×
        (it.told.items ≡ replicate n (record { answer = answer; note = reporting told }))) }
    ensures boots { IfOk result (λ it. RestartsAs release.now (state_of parts.now).modules (state_of parts.now).processes
        it.booted.modules it.booted.processes it.booted.apps) }
    ensures refused { IfErr result (Fails (λ (e : Why). (e ≡ CounterEnd) ×
        (restart_refusal release.now (state_of parts.now).modules ≡ Some AtEnd)) (Unit {0})) }
{
    let Restart { told, booted } = match prepare(&parts.modules, &parts.processes, alloc, release) {
        Ok(made) => made,
        Err(Failure::Refused(_)) => return Err(Failure::Refused(Refusal::CounterEnd)),
        Err(Failure::Memory) => return Err(Failure::Memory),
    };
    let Ok(told) = tell(alloc, answer, reporting(told), n) else {
        return Err(Failure::Memory);
    };
    let Ok(memory) = Reserved::new(alloc) else {
        return Err(Failure::Memory);
    };
    Ok(Ready {
        told,
        booted,
        memory,
    })
}

/// What has booted is put in place of what ran, and no script runs. Takes no memory.
fn put_in_place(
    parts: &mut NodeParts,
    ready: Ready,
    statuses: ReleasesUndo,
) -> Stepped<Answer, Note, Record>
    ensures told { result.told ≡ ready.told }
    ensures stands { state_of parts.new ≡ record {
      modules = ready.booted.modules;
      processes = ready.booted.processes;
      apps = ready.booted.apps;
      releases = (state_of parts.old).releases;
      runner = None;
    } }
    ensures displaced { (before : NodeState) → (state_of parts.old ≡ record before { releases = (state_of parts.old).releases }) →
        TakesBack statuses before.releases (state_of parts.old).releases → (IsRemoval statuses → ⊥) →
        Restores result.trace.way_back before (state_of parts.new) }
{
    let Ready {
        told,
        booted: Booted {
            modules,
            processes,
            apps,
        },
        memory,
    } = ready;
    let displaced = Displaced {
        modules: mem::replace(&mut parts.modules, modules),
        processes: mem::replace(&mut parts.processes, processes),
        apps: mem::replace(&mut parts.apps, apps),
        runner: parts.runner.take(),
        statuses,
    };
    Stepped {
        told,
        trace: Record {
            way_back: WayBack::OfRestart(memory.fill(displaced)),
        },
    }
}

/// The node restarts with the permanent release, since an instruction behind the point of no return has failed for this reason.
pub(crate) fn fall_back(parts: &mut NodeParts, alloc: Global, reason: Term, n: usize) -> Step
    ensures { IsStepOf (FallBack reason (state_of parts.old)) (Unit {0}) n (state_of parts.old) (state_of parts.new) result }
{
    let permanent = &parts.releases.permanent().release;
    let ready = make_ready(parts, alloc, permanent, Answer::Restarted(reason), n)?;
    match parts.releases.restarted() {
        Ok(statuses) => Ok(put_in_place(parts, ready, statuses)),
        Err(_) => Err(Failure::Memory),
    }
}

/// The node restarts with the release of a version, which is old.
pub fn reboot_old(parts: &mut NodeParts, alloc: Global, vsn: &Vsn, n: usize) -> Step
    requires { MayRunOut (state_of parts.old) (event.RebootOld vsn.now) }
    ensures { IsStep (event.RebootOld vsn.now) n (state_of parts.old) (state_of parts.new) result }
{
    let Some(old) = parts.releases.get(vsn.as_str()) else {
        unreachable!()
    };
    let ready = make_ready(parts, alloc, &old.release, Answer::Unit, n)?;
    match parts.releases.reboot_old(vsn.as_str()) {
        Ok(statuses) => Ok(put_in_place(parts, ready, statuses)),
        Err(_) => Err(Failure::Memory),
    }
}

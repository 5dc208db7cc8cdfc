// Events of processes.
ghost use Rattle.std.specs.Prelude.{◌≡◌, ◌∷◌, [], IfOk, IfSome, OnErr, OnOk};
ghost use Rattle.app_table.specs.Applications.{all_ended};
ghost use Rattle.app_table.specs.Pieces.{held as held_specs};
ghost use Rattle.process_store.specs.Pieces.{HoldsLost};
ghost use Rattle.process_table.specs.Undo.{TakesBackEnds, held};
ghost use Rattle.script_events.specs.Changes.{IsStep, state_of};
ghost use Rattle.script_events.specs.Node.{NodeState};
ghost use Rattle.script_events.specs.Record.{AppsBack, Restores};
ghost use Rattle.script_events.specs.Step.{MayRunOut, ended_by};
ghost use Rattle.node_types.specs.declared.event.Event.TheVariants as event;

use app_table::AppTable;
use erl_semantics::{Done, End};
use erl_term::{Atom, Predefined, Term};
use process_table::ClientMessage;
use script_events::{
    NodeParts, Record, Step, WayBack, room, tell_arrivals, tell_done, tell_jobs, unend,
};
use std::alloc::{AllocError, Global};
use undo_journal::Stepped;
use values::{Boxed, Failure, Reserved};

/// The child, if any, whose process ends for a reason has none, and is due or not.
fn end_one(
    apps: &mut AppTable,
    alloc: Global,
    pid: u64,
    reason: &Term,
) -> Result<Option<Boxed<app_table::AppsUndo>>, AllocError>
    ensures ended { OnOk result (apps.new ≡ all_ended reason.now (pid ∷ []) apps.old) }
    ensures inverse { IfOk result (λ undo. AppsBack undo apps.old apps.new) }
    ensures pieces { IfOk result (λ undo. IfSome undo (λ it. held_specs it apps.new ≡ [])) }
    ensures err { OnErr result (apps.new ≡ apps.old) }
{
    let room = Reserved::new(alloc)?;
    let undo = apps.ended(&[pid], reason)?;
    Ok(Some(room.fill(undo)))
}

/// The child, if any, whose process ends by a job has none, and is due or not.
fn end_child(
    apps: &mut AppTable,
    alloc: Global,
    done: &Done,
) -> Result<Option<Boxed<app_table::AppsUndo>>, AllocError>
    ensures ended { OnOk result (apps.new ≡ ended_by done.now.job.pid done.now.outcome.end apps.old) }
    ensures inverse { IfOk result (λ undo. AppsBack undo apps.old apps.new) }
    ensures pieces { IfOk result (λ undo. IfSome undo (λ it. held_specs it apps.new ≡ [])) }
    ensures err { OnErr result (apps.new ≡ apps.old) }
{
    let pid = done.job().pid;
    match &done.outcome().end {
        End::Rest(_) => Ok(None),
        End::Value(_) => {
            let normal = Term::Atom(Atom::predefined(Predefined::Normal));
            end_one(apps, alloc, pid, &normal)
        }
        End::Exit(reason) => end_one(apps, alloc, pid, reason),
    }
}

/// The way back of a change of processes, and with it that of children, if any.
fn way_back_of(
    undo: process_table::ProcessesUndo,
    ended: Option<Boxed<app_table::AppsUndo>>,
) -> WayBack
    ensures { (before after : NodeState) → TakesBackEnds undo before.processes after.processes →
        AppsBack ended before.apps after.apps → (after ≡ record before { processes = after.processes; apps = after.apps }) →
        HoldsLost (held undo after.processes) before.processes after.processes →
        IfSome ended (λ it. held_specs it after.apps ≡ []) → Restores result before after }
{
    match ended {
        None => WayBack::OfProcesses(undo),
        Some(ended) => WayBack::OfChildren(undo, ended),
    }
}

/// A message of a client comes for the process of a name.
pub(crate) fn arrive(
    parts: &mut NodeParts,
    alloc: Global,
    client: u64,
    name: &Atom,
    body: &ClientMessage,
    n: usize,
) -> Step
    requires { MayRunOut (state_of parts.old) (event.Arrive client name.now body.now) }
    ensures { IsStep (event.Arrive client name.now body.now) n (state_of parts.old) (state_of parts.new) result }
{
    let Ok(told) = room(alloc, n) else {
        return Err(Failure::Memory);
    };
    let Ok((arrivals, undo)) = parts.processes.deliver(client, name, body, n) else {
        return Err(Failure::Memory);
    };
    Ok(Stepped {
        told: tell_arrivals(told, arrivals),
        trace: Record {
            way_back: WayBack::OfProcesses(undo),
        },
    })
}

/// A process takes its next message, and runs it.
pub(crate) fn take(parts: &mut NodeParts, alloc: Global, pid: u64, n: usize) -> Step
    requires { MayRunOut (state_of parts.old) (event.Take pid) }
    ensures { IsStep (event.Take pid) n (state_of parts.old) (state_of parts.new) result }
{
    let Ok(told) = room(alloc, n) else {
        return Err(Failure::Memory);
    };
    let Ok((jobs, undo)) = parts.processes.take_up(&parts.modules, pid, n) else {
        return Err(Failure::Memory);
    };
    Ok(Stepped {
        told: tell_jobs(told, alloc, jobs),
        trace: Record {
            way_back: WayBack::OfProcesses(undo),
        },
    })
}

/// What a job has done is done. A child whose process ends with it ends first, and lives again where the commit isn't made.
pub(crate) fn commit(parts: &mut NodeParts, alloc: Global, done: &Done, n: usize) -> Step
    requires { MayRunOut (state_of parts.old) (event.Commit done.now) }
    ensures { IsStep (event.Commit done.now) n (state_of parts.old) (state_of parts.new) result }
{
    let Ok(told) = room(alloc, n) else {
        return Err(Failure::Memory);
    };
    let Ok(ended) = end_child(&mut parts.apps, alloc, done) else {
        return Err(Failure::Memory);
    };
    match parts.processes.conclude(done, n) {
        Ok((lists, undo)) => Ok(Stepped {
            told: tell_done(told, lists),
            trace: Record {
                way_back: way_back_of(undo, ended),
            },
        }),
        Err(_) => {
            unend(&mut parts.apps, ended);
            Err(Failure::Memory)
        }
    }
}

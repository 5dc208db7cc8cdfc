// Children that an upgrade has stopped start again.
ghost use Rattle.std.specs.Prelude.{◌≡◌, [], All, IfErr, IfOk, List, OnErr, OnOk, length, map, replicate};
ghost use Rattle.app_table.specs.Changes.{IsIdleAt};
ghost use Rattle.app_table.specs.Pieces.{held as held_apps};
ghost use Rattle.app_table.specs.Undo.{undone};
ghost use Rattle.process_effects.specs.declared.told.Reply.{Reply as Told};
ghost use Rattle.process_store.specs.Pieces.{HoldsLost};
ghost use Rattle.process_store.specs.Table.{Table};
ghost use Rattle.process_table.specs.Undo.{TakesBack, held};
ghost use Rattle.values.specs.Failure.{Fails};
ghost use Rattle.sys_protocol.specs.ChildFaults.{StartFails};
ghost use Rattle.sys_protocol.specs.ChildStarts.{AllStart};
ghost use Rattle.sys_protocol.specs.Stopping.{FailToStartAgain, StartAgain, specs_at};

use crate::child_starting::start_children;
use crate::start_failed::StartFailed;
use app_table::{AppTable, AppsUndo, ChildName, Spot};
use child_specs::ChildSpec;
use erl_semantics::Instance;
use erl_term::Atom;
use process_effects::{Batch, Reply};
use process_table::Processes;
use std::alloc::{AllocError, Global};
use values::{Duplicate, Failure, Row};

/// What starting children again has come to.
#[derive(Drop)]
pub struct StartedAgain {
    /// What clients are told, in as many equal values as were asked for.
    pub told: Vec<Row<Reply>>,
    /// What takes the start of their processes back.
    pub processes: process_table::ProcessesUndo,
    /// What takes back that the children run.
    pub undo: AppsUndo,
}

/// Processes that have started together: their pids, what clients are told, and what takes them back.
struct Together {
    pids: Vec<u64>,
    told: Vec<Row<Reply>>,
    undo: process_table::ProcessesUndo,
}

/// The specifications of the children at these spots.
fn specs_at(apps: &AppTable, alloc: Global, spots: &[Spot]) -> Result<Vec<ChildSpec>, AllocError>
    requires { All (λ spot. IsIdleAt spot apps.now) spots.now }
    ensures { IfOk result (λ it. it.items ≡ specs_at spots.now apps.now) }
{
    let mut specs = Vec::with_capacity(alloc, spots.len())?;
    for spot in spots {
        specs.push(apps.child_at(*spot).spec.copy(alloc)?)?;
    }
    Ok(specs)
}

/// Children start together, in order: all or none. What clients are told is handed out in `n` equal values.
fn start_together(
    processes: &mut Processes,
    alloc: Global,
    code: &[Instance],
    specs: &[ChildSpec],
    n: usize,
) -> Result<Together, Failure<StartFailed>>
    ensures started { IfOk result (λ it. (told : List Told) ×
        AllStart code.now specs.now processes.old it.pids.items processes.new told × (it.told.items ≡ replicate n told)) }
    ensures enough { IfOk result (λ it. length it.pids.items ≡ length specs.now) }
    ensures inverse { IfOk result (λ it. TakesBack it.undo processes.old processes.new) }
    ensures pieces { IfOk result (λ it. HoldsLost (held it.undo processes.new) processes.old processes.new) }
    ensures failed { IfErr result (Fails (λ failed. StartFails failed code.now specs.now processes.old) (Unit {0})) }
    ensures err { OnErr result (processes.new ≡ processes.old) }
{
    let mut batch = Batch::new(alloc);
    match start_children(processes, alloc, &mut batch, code, specs) {
        Ok(pids) => {
            let (told, undo) = processes.finish(batch, n)?;
            Ok(Together { pids, told, undo })
        }
        Err(failure) => {
            processes.give_up(batch);
            Err(failure)
        }
    }
}

/// Of the children that are named those that have one of these modules and no process start again, where their applications
/// are started: for each module in turn those that have it, in order. Their start functions are evaluated in this code,
/// which is every module's current code. All start, or none. What clients are told is handed out in `n` equal values.
///
/// # Errors
///
/// `StartFailed` of the first that fails, and `Memory`. All is then as it was, and no pid is used.
pub fn start(
    apps: &mut AppTable,
    processes: &mut Processes,
    alloc: Global,
    code: &[Instance],
    names: &[ChildName],
    modules: &[Atom],
    n: usize,
) -> Result<StartedAgain, Failure<StartFailed>>
    ensures started { IfOk result (λ it. (told : List Told) ×
        StartAgain code.now names.now modules.now apps.old processes.old apps.new processes.new told ×
        (it.told.items ≡ replicate n told)) }
    ensures processes { IfOk result (λ it. TakesBack it.processes processes.old processes.new) }
    ensures pieces { IfOk result (λ it. HoldsLost (held it.processes processes.new) processes.old processes.new) }
    ensures inverse { IfOk result (λ it. undone it.undo apps.new ≡ apps.old) }
    ensures app_pieces { IfOk result (λ it. held_apps it.undo apps.new ≡ []) }
    ensures failed { IfErr result (Fails (λ failed. FailToStartAgain failed code.now names.now modules.now apps.old
        processes.old) (Unit {0})) }
    ensures err { OnErr result ((apps.new ≡ apps.old) × (processes.new ≡ processes.old)) }
{
    let spots = apps.startable(alloc, names, modules)?;
    let specs = specs_at(apps, alloc, spots.as_slice())?;
    let reruns = apps.reruns(alloc, spots.as_slice())?;
    let Together { pids, told, undo } = start_together(
        processes,
        alloc,
        code,
        specs.as_slice(),
        n,
    )?;
    Ok(StartedAgain {
        told,
        processes: undo,
        undo: apps.run(reruns, pids.as_slice()),
    })
}

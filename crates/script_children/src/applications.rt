// Applications start, stop and are unloaded.
ghost use Rattle.std.specs.Prelude.{◌≡◌, [], IfErr, IfOk, List, OnErr, Some, replicate};
ghost use Rattle.process_effects.specs.declared.told.Reply.{Reply as Told};
ghost use Rattle.process_store.specs.Pieces.{HoldsLost};
ghost use Rattle.process_store.specs.Table.{Table};
ghost use Rattle.sys_protocol.specs.Refusals.{RefusesStart};
ghost use Rattle.sys_protocol.specs.Stopping.{stop_refusal, unload_refusal};
ghost use Rattle.values.specs.Failure.{Fails};
ghost use Rattle.script_children.specs.Applying.{AppStarts, AppStops, AppUnloads, DoesAppCall, Refuses};
ghost use Rattle.script_children.specs.Pieces.{SpecsTaken, held_apps, held_processes};
ghost use Rattle.script_children.specs.Undo.{TakesBack};

use crate::applying::Applied;
use crate::calls::AppCall;
use crate::telling::nothing_told;
use crate::undo::ChildrenUndo;
use app_table::AppTable;
use erl_semantics::Instance;
use erl_term::Atom;
use process_table::Processes;
use std::alloc::Global;
use sys_protocol::{AppError, start_app, stop_app, unload_app};
use values::Failure;

/// The application of a name starts, in this code, which is every module's current code. What clients are told is handed out in
/// `n` equal values.
fn start(
    apps: &mut AppTable,
    processes: &mut Processes,
    alloc: Global,
    code: &[Instance],
    name: &Atom,
    n: usize,
) -> Result<Applied, Failure<AppError>>
    ensures applied { IfOk result (λ it. (told : List Told) × AppStarts code.now name.now
        (record { apps = apps.old; processes = processes.old }) (record { apps = apps.new; processes = processes.new }) told ×
        (it.told.items ≡ replicate n told)) }
    ensures inverse { IfOk result (λ it. TakesBack it.undo
        (record { apps = apps.old; processes = processes.old }) (record { apps = apps.new; processes = processes.new })) }
    ensures pieces { IfOk result (λ it. HoldsLost (held_processes it.undo processes.new) processes.old processes.new) }
    ensures app_pieces { IfOk result (λ it. SpecsTaken (held_apps it.undo apps.new) apps.old apps.new) }
    ensures refused { IfErr result (Fails (λ e. RefusesStart e code.now name.now apps.old processes.old) (Unit {0})) }
    ensures err { OnErr result ((apps.new ≡ apps.old) × (processes.new ≡ processes.old)) }
{
    let started = start_app(apps, processes, alloc, code, name, n)?;
    Ok(Applied {
        told: started.told,
        undo: ChildrenUndo::Changed(started.processes, Some(started.undo)),
    })
}

/// The application of a name stops. What clients are told is handed out in `n` equal values.
fn stop(
    apps: &mut AppTable,
    processes: &mut Processes,
    alloc: Global,
    name: &Atom,
    n: usize,
) -> Result<Applied, Failure<AppError>>
    ensures applied { IfOk result (λ it. (told : List Told) × AppStops name.now
        (record { apps = apps.old; processes = processes.old }) (record { apps = apps.new; processes = processes.new }) told ×
        (it.told.items ≡ replicate n told)) }
    ensures inverse { IfOk result (λ it. TakesBack it.undo
        (record { apps = apps.old; processes = processes.old }) (record { apps = apps.new; processes = processes.new })) }
    ensures pieces { IfOk result (λ it. HoldsLost (held_processes it.undo processes.new) processes.old processes.new) }
    ensures app_pieces { IfOk result (λ it. SpecsTaken (held_apps it.undo apps.new) apps.old apps.new) }
    ensures refused { IfErr result (Fails (λ e. stop_refusal name.now apps.old ≡ Some e) (Unit {0})) }
    ensures err { OnErr result ((apps.new ≡ apps.old) × (processes.new ≡ processes.old)) }
{
    let stopped = stop_app(apps, processes, alloc, name, n)?;
    Ok(Applied {
        told: stopped.told,
        undo: ChildrenUndo::Changed(Some(stopped.processes), Some(stopped.undo)),
    })
}

/// The application of a name is unloaded. That clients are told nothing is handed out in `n` equal values.
fn unload(
    apps: &mut AppTable,
    alloc: Global,
    name: &Atom,
    n: usize,
) -> Result<Applied, Failure<AppError>>
    ensures applied { IfOk result (λ it. (t : Table) → AppUnloads name.now
        (record { apps = apps.old; processes = t }) (record { apps = apps.new; processes = t }) []) }
    ensures told { IfOk result (λ it. it.told.items ≡ replicate n []) }
    ensures inverse { IfOk result (λ it. (t : Table) → TakesBack it.undo
        (record { apps = apps.old; processes = t }) (record { apps = apps.new; processes = t })) }
    ensures pieces { IfOk result (λ it. (t : Table) → HoldsLost (held_processes it.undo t) t t) }
    ensures app_pieces { IfOk result (λ it. SpecsTaken (held_apps it.undo apps.new) apps.old apps.new) }
    ensures refused { IfErr result (Fails (λ e. unload_refusal name.now apps.old ≡ Some e) (Unit {0})) }
    ensures err { OnErr result (apps.new ≡ apps.old) }
{
    let told = nothing_told(alloc, n)?;
    match unload_app(apps, name) {
        Ok(unloaded) => Ok(Applied {
            told,
            undo: ChildrenUndo::Unloaded(unloaded),
        }),
        Err(refusal) => Err(Failure::Refused(refusal)),
    }
}

/// A function of `application` does what it does to the application of a name. What clients are told is handed out in `n` equal
/// values.
///
/// # Errors
///
/// Why it doesn't, and `Memory`. All is then as it was.
pub(crate) fn call_app(
    apps: &mut AppTable,
    processes: &mut Processes,
    alloc: Global,
    code: &[Instance],
    call: AppCall,
    name: &Atom,
    n: usize,
) -> Result<Applied, Failure<AppError>>
    ensures applied { IfOk result (λ it. (told : List Told) × DoesAppCall code.now call (Some name.now)
        (record { apps = apps.old; processes = processes.old }) (record { apps = apps.new; processes = processes.new }) told ×
        (it.told.items ≡ replicate n told)) }
    ensures inverse { IfOk result (λ it. TakesBack it.undo
        (record { apps = apps.old; processes = processes.old }) (record { apps = apps.new; processes = processes.new })) }
    ensures pieces { IfOk result (λ it. HoldsLost (held_processes it.undo processes.new) processes.old processes.new) }
    ensures app_pieces { IfOk result (λ it. SpecsTaken (held_apps it.undo apps.new) apps.old apps.new) }
    ensures refused { IfErr result (Fails (λ e. Refuses e code.now call (Some name.now)
        (record { apps = apps.old; processes = processes.old })) (Unit {0})) }
    ensures err { OnErr result ((apps.new ≡ apps.old) × (processes.new ≡ processes.old)) }
{
    match call {
        AppCall::Start => start(apps, processes, alloc, code, name, n),
        AppCall::Stop => stop(apps, processes, alloc, name, n),
        AppCall::Unload => unload(apps, alloc, name, n),
    }
}

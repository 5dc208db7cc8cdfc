// Children stop, and start again.
ghost use Rattle.std.specs.Prelude.{◌≡◌, ◌-◌, ◌≤◌, ◌++◌, List, IfErr, IfOk, OnErr, OnOk, length, replicate, take};
ghost use Rattle.app_table.specs.Changes.{all_stopped};
ghost use Rattle.app_table.specs.Modules.{names_at, running_with};
ghost use Rattle.code_loading.specs.Current.{current_code};
ghost use Rattle.process_effects.specs.Ends.{all_vacated};
ghost use Rattle.process_effects.specs.Kills.{downs_of_each};
ghost use Rattle.process_effects.specs.declared.told.Reply.{Reply as Told};
ghost use Rattle.process_store.specs.Pieces.{HoldsLost};
ghost use Rattle.script_children.specs.Calls.{start_failed};
ghost use Rattle.script_children.specs.Children.{Supervised};
ghost use Rattle.script_children.specs.Pieces.{SpecsTaken, held_apps, held_processes};
ghost use Rattle.script_children.specs.Undo.{TakesBack};
ghost use Rattle.sys_protocol.specs.Stopping.{FailToStartAgain, StartAgain, shutdown, to_stop};
ghost use Rattle.sys_protocol.specs.declared.start_failed.StartFailed.{StartFailed as FailedStart};
ghost use Rattle.values.specs.Failure.{Fails};

use app_table::{AppTable, ChildName};
use code_loading::current_code;
use code_server::Modules;
use erl_ir::Module;
use erl_term::{Atom, Term};
use process_effects::Reply;
use process_table::Processes;
use script_children::{ChildrenUndo, start_failed};
use std::alloc::{AllocError, Global};
use sys_protocol::{ChildStop, StartFailed, StartedAgain, start, stop};
use values::{Failure, Row};

/// What a stop or a start of children has come to: what clients are told, how many children were noted, and what takes it back.
#[derive(Drop)]
pub(crate) struct ChildrenChanged {
    pub(crate) told: Vec<Row<Reply>>,
    pub(crate) count: usize,
    pub(crate) undo: ChildrenUndo,
}

/// The children that run and have one of these modules are stopped, and noted.
pub(crate) fn stop_children(
    apps: &mut AppTable,
    processes: &mut Processes,
    alloc: Global,
    modules: &[Atom],
    noted: &mut Vec<ChildName>,
    n: usize,
) -> Result<ChildrenChanged, AllocError>
    ensures apps { OnOk result (apps.new ≡ all_stopped (running_with modules.now apps.old) apps.old) }
    ensures processes { OnOk result (processes.new ≡ all_vacated (to_stop modules.now apps.old) processes.old) }
    ensures told { IfOk result (λ it. it.told.items ≡
        replicate n (downs_of_each shutdown (to_stop modules.now apps.old) processes.old)) }
    ensures noted { OnOk result (noted.new.items ≡ noted.old.items ++ names_at (running_with modules.now apps.old) apps.old) }
    ensures count { IfOk result (λ it. (it.count ≤ length noted.new.items) ×
        (take (length noted.new.items - it.count) noted.new.items ≡ noted.old.items)) }
    ensures back { IfOk result (λ it. TakesBack it.undo
        (record { apps = apps.old; processes = processes.old }) (record { apps = apps.new; processes = processes.new })) }
    ensures pieces { IfOk result (λ it. HoldsLost (held_processes it.undo processes.new) processes.old processes.new) }
    ensures app_pieces { IfOk result (λ it. SpecsTaken (held_apps it.undo apps.new) apps.old apps.new) }
    ensures err { OnErr result ((apps.new ≡ apps.old) × (processes.new ≡ processes.old) × (noted.new.items ≡ noted.old.items)) }
{
    let stopped = stop(apps, processes, alloc, modules, noted, n)?;
    let ChildStop {
        told,
        count,
        processes: ended,
        undo,
    } = stopped;
    Ok(ChildrenChanged {
        told,
        count,
        undo: ChildrenUndo::Changed(Some(ended), Some(undo)),
    })
}

/// Of the children that are noted those that have one of these modules and no process start again, in every module's current
/// code, where their applications are started.
pub(crate) fn start_children(
    modules: &Modules<Module>,
    apps: &mut AppTable,
    processes: &mut Processes,
    alloc: Global,
    noted: &[ChildName],
    names: &[Atom],
    n: usize,
) -> Result<ChildrenChanged, Failure<Term>>
    ensures started { IfOk result (λ it. (told : List Told) ×
        StartAgain (current_code modules.now) noted.now names.now apps.old processes.old apps.new processes.new told ×
        (it.told.items ≡ replicate n told)) }
    ensures count { IfOk result (λ it. it.count ≡ 0) }
    ensures back { IfOk result (λ it. TakesBack it.undo
        (record { apps = apps.old; processes = processes.old }) (record { apps = apps.new; processes = processes.new })) }
    ensures pieces { IfOk result (λ it. HoldsLost (held_processes it.undo processes.new) processes.old processes.new) }
    ensures app_pieces { IfOk result (λ it. SpecsTaken (held_apps it.undo apps.new) apps.old apps.new) }
    ensures failed { IfErr result (Fails (λ reason. (failed : FailedStart) ×
        FailToStartAgain failed (current_code modules.now) noted.now names.now apps.old processes.old ×
        (reason ≡ start_failed failed.child failed.reason)) (Unit {0})) }
    ensures err { OnErr result ((apps.new ≡ apps.old) × (processes.new ≡ processes.old)) }
{
    let code = current_code(alloc, modules)?;
    match start(apps, processes, alloc, code.as_slice(), noted, names, n) {
        Ok(started) => {
            let StartedAgain {
                told,
                processes: begun,
                undo,
            } = started;
            Ok(ChildrenChanged {
                told,
                count: 0,
                undo: ChildrenUndo::Changed(Some(begun), Some(undo)),
            })
        }
        Err(Failure::Refused(failed)) => {
            let StartFailed { child, reason } = failed;
            Err(Failure::Refused(start_failed(alloc, child, reason)?))
        }
        Err(Failure::Memory) => Err(Failure::Memory),
    }
}

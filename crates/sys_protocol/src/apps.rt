// Applications and children start.
ghost use Rattle.std.specs.Prelude.{◌≡◌, [], IfErr, IfOk, IfSome, List, MatchOption, None, OnErr, OnOk, Some, replicate, true};
ghost use Rattle.app_table.specs.Applications.{app_of, child_of, index_of, revived, started};
ghost use Rattle.app_table.specs.Children.{is_due};
ghost use Rattle.app_table.specs.Pieces.{child_pieces, held as held_apps};
ghost use Rattle.app_table.specs.Undo.{undone};
ghost use Rattle.app_table.specs.declared.child.Child.{Child as OneChild};
ghost use Rattle.values.specs.Failure.{Fails};
ghost use Rattle.sys_protocol.specs.ChildStarts.{Restarts};
ghost use Rattle.process_effects.specs.declared.told.Reply.{Reply as Told};
ghost use Rattle.process_store.specs.Pieces.{HoldsLost};
ghost use Rattle.process_table.specs.Undo.{TakesBack, held};
ghost use Rattle.sys_protocol.specs.Refusals.{IsDue, IsNotDue, RefusesRevive, RefusesStart, RunsStartModule, StartsBack, module_of, start_refusal};
ghost use Rattle.sys_protocol.specs.Refusals.{held_of_start};

use crate::app_error::AppError;
use crate::error::SysError;
use crate::restarting::{Restarted, restart_child};
use crate::running::{Running, run};
use app_table::{AppTable, AppsUndo};
use erl_semantics::Instance;
use erl_term::{Atom, Term};
use process_effects::Reply;
use process_table::Processes;
use std::alloc::Global;
use values::{Failure, Row};

/// What the start of an application has come to.
#[derive(Drop)]
pub struct AppStart {
    /// What clients are told, in as many equal values as were asked for.
    pub told: Vec<Row<Reply>>,
    /// What takes the start of its processes back; there are none where it has no callback module.
    pub processes: Option<process_table::ProcessesUndo>,
    /// What takes the start of the application back.
    pub undo: AppsUndo,
}

/// What the revival of a child has come to.
#[derive(Drop)]
pub struct Revival {
    /// Its process.
    pub pid: u64,
    /// What clients are told, in as many equal values as were asked for.
    pub told: Vec<Row<Reply>>,
    /// What takes the start of its process back.
    pub processes: process_table::ProcessesUndo,
    /// What takes the revival of the child back.
    pub undo: AppsUndo,
}

/// The index of an application that can be started, or why it can't, whatever its start would come to. Takes no memory.
fn index_to_start(apps: &AppTable, name: &Atom) -> Result<usize, AppError>
    ensures index { IfOk result (λ index. index_of name.now apps.now ≡ Some index) }
    ensures ok { OnOk result (start_refusal name.now apps.now ≡ None) }
    ensures refused { IfErr result (λ e. start_refusal name.now apps.now ≡ Some e) }
{
    let Some(index) = apps.index_of(name) else {
        return Err(AppError::NotLoaded);
    };
    if apps.app_at(index).is_started() {
        return Err(AppError::AlreadyStarted);
    }
    Ok(index)
}

/// An application starts: `init` of its callback module is evaluated in this code, which is every module's current code, and the
/// children of its supervision start, in order. What clients are told is handed out in `n` equal values.
///
/// # Errors
///
/// In this order: `NotLoaded`, `AlreadyStarted`; and then, as they come, `BadInit` where it has no supervision,
/// `StartFailed` of the first child that fails, and `Memory`. All is then as it was, and no pid is used.
pub fn start_app(
    apps: &mut AppTable,
    processes: &mut Processes,
    alloc: Global,
    code: &[Instance],
    name: &Atom,
    n: usize,
) -> Result<AppStart, Failure<AppError>>
    ensures ok { OnOk result (start_refusal name.now apps.old ≡ None) }
    ensures started { IfOk result (λ it. (children : List OneChild) × (told : List Told) ×
        RunsStartModule code.now (module_of name.now apps.old) processes.old children processes.new told ×
        (it.told.items ≡ replicate n told) × (apps.new ≡ started name.now children apps.old)) }
    ensures inverse { IfOk result (λ it. undone it.undo apps.new ≡ apps.old) }
    ensures app_pieces { IfOk result (λ it. IfSome (app_of name.now apps.old)
        (λ a. held_apps it.undo apps.new ≡ child_pieces a.spec.name a.children)) }
    ensures processes { IfOk result (λ it. StartsBack it.processes processes.old processes.new) }
    ensures pieces { IfOk result (λ it. HoldsLost (held_of_start it.processes processes.new) processes.old processes.new) }
    ensures refused { IfErr result (Fails (λ e. RefusesStart e code.now name.now apps.old processes.old)
        (start_refusal name.now apps.old ≡ None)) }
    ensures err { OnErr result ((apps.new ≡ apps.old) × (processes.new ≡ processes.old)) }
{
    let index = match index_to_start(apps, name) {
        Ok(index) => index,
        Err(refusal) => return Err(Failure::Refused(refusal)),
    };
    let module = apps.app_at(index).spec().start.as_ref();
    let Running {
        children,
        told,
        undo,
    } = run(processes, alloc, code, module, n)?;
    Ok(AppStart {
        told,
        processes: undo,
        undo: apps.start(index, children),
    })
}

/// Why a child isn't revived, but for a failed start and lack of memory. Takes no memory.
pub fn revive_refusal(apps: &AppTable, name: &Atom, id: &Term) -> Option<SysError>
    ensures { MatchOption result (IsDue name.now id.now apps.now) (λ e. IsNotDue e name.now id.now apps.now) }
{
    let Some(spot) = apps.spot_of(name, id) else {
        return Some(SysError::NoChild);
    };
    if apps.child_at(spot).is_due() {
        None
    } else {
        Some(SysError::NotDue)
    }
}

/// A child that is due starts again. What clients are told is handed out in `n` equal values.
///
/// # Errors
///
/// In this order: `NoChild` where no application of the name has a child of the Id, `NotDue`, `StartFailed`, `Memory`. All
/// is then as it was, and no pid is used.
pub fn revive(
    apps: &mut AppTable,
    processes: &mut Processes,
    alloc: Global,
    code: &[Instance],
    name: &Atom,
    id: &Term,
    n: usize,
) -> Result<Revival, Failure<SysError>>
    ensures revived { IfOk result (λ it. (c : OneChild) × (told : List Told) × (child_of name.now id.now apps.old ≡ Some c) ×
        (is_due c ≡ true) × Restarts code.now c.spec processes.old it.pid processes.new told ×
        (it.told.items ≡ replicate n told) × (apps.new ≡ revived name.now id.now it.pid apps.old)) }
    ensures inverse { IfOk result (λ it. undone it.undo apps.new ≡ apps.old) }
    ensures app_pieces { IfOk result (λ it. held_apps it.undo apps.new ≡ []) }
    ensures processes { IfOk result (λ it. TakesBack it.processes processes.old processes.new) }
    ensures pieces { IfOk result (λ it. HoldsLost (held it.processes processes.new) processes.old processes.new) }
    ensures refused { IfErr result (Fails (λ e. RefusesRevive e code.now name.now id.now apps.old processes.old)
        (IsDue name.now id.now apps.old)) }
    ensures err { OnErr result ((apps.new ≡ apps.old) × (processes.new ≡ processes.old)) }
{
    let Some(spot) = apps.spot_of(name, id) else {
        return Err(Failure::Refused(SysError::NoChild));
    };
    let child = apps.child_at(spot);
    if !child.is_due() {
        return Err(Failure::Refused(SysError::NotDue));
    }
    let restarted = match restart_child(processes, alloc, code, &child.spec, n) {
        Ok(restarted) => restarted,
        Err(Failure::Refused(failed)) => {
            return Err(Failure::Refused(SysError::StartFailed(failed)));
        }
        Err(Failure::Memory) => return Err(Failure::Memory),
    };
    let Restarted { pid, told, undo } = restarted;
    Ok(Revival {
        pid,
        told,
        processes: undo,
        undo: apps.revive(spot, pid),
    })
}

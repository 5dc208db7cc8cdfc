// Children stop, and applications.
ghost use Rattle.std.specs.Prelude.{◌≡◌, ◌-◌, ◌≤◌, ◌+◌, ◌++◌, IfErr, IfOk, None, OnErr, OnOk, Some, length, map, replicate, take, vec_capacity, vec_len};
ghost use Rattle.std.specs.Prelude.{[], IsPermutation};
ghost use Rattle.app_table.specs.Applications.{index_of};
ghost use Rattle.app_table.specs.Changes.{all_stopped};
ghost use Rattle.app_table.specs.Modules.{names_at, running_with};
ghost use Rattle.app_table.specs.Pieces.{held as held_apps, held_unloaded, pieces};
ghost use Rattle.app_table.specs.Undo.{reloaded, undone};
ghost use Rattle.process_effects.specs.Ends.{all_vacated};
ghost use Rattle.process_effects.specs.Kills.{downs_of_each};
ghost use Rattle.process_store.specs.Pieces.{HoldsLost};
ghost use Rattle.process_table.specs.Undo.{TakesBackEnds, held};
ghost use Rattle.values.specs.Failure.{TellsFailure};
ghost use Rattle.sys_protocol.specs.Stopping.{app_pids, shutdown, stop_refusal, stopped_app, to_stop, unload_refusal, unloaded_app};

use crate::app_error::AppError;
use app_table::{AppTable, AppsUndo, ChildName, ChildProcess, Unloaded};
use erl_term::{Atom, Term};
use process_effects::Reply;
use process_table::Processes;
use std::alloc::{AllocError, Global};
use values::{Failure, Row};

/// What stopping children has come to.
#[derive(Drop)]
pub struct ChildStop {
    /// What clients are told, in as many equal values as were asked for.
    pub told: Vec<Row<Reply>>,
    /// How many children were noted.
    pub count: usize,
    /// What takes the end of their processes back.
    pub processes: process_table::ProcessesUndo,
    /// What takes the stop of the children back.
    pub undo: AppsUndo,
}

/// What stopping an application has come to.
#[derive(Drop)]
pub struct AppStop {
    /// What clients are told, in as many equal values as were asked for.
    pub told: Vec<Row<Reply>>,
    /// What takes the end of its processes back.
    pub processes: process_table::ProcessesUndo,
    /// What takes the stop of the application back.
    pub undo: AppsUndo,
}

/// The reason of a process that its supervisor ends.
fn shutdown(alloc: Global) -> Result<Term, AllocError>
    ensures { IfOk result (λ it. it ≡ shutdown) }
{
    Ok(Term::Atom(Atom::word(alloc, "shutdown")?))
}

/// The pids of children's processes.
fn pids_of(alloc: Global, children: &[ChildProcess]) -> Result<Vec<u64>, AllocError>
    ensures { IfOk result (λ it. it.items ≡ map (λ c. c.pid) children.now) }
{
    let mut pids = Vec::with_capacity(alloc, children.len())?;
    for child in children {
        pids.push(child.pid)?;
    }
    Ok(pids)
}

/// Moves names behind others. There is room for them.
fn note(noted: &mut Vec<ChildName>, names: Vec<ChildName>)
    requires { vec_len noted.old + vec_len names ≤ vec_capacity noted.old }
    ensures { noted.new.items ≡ noted.old.items ++ names.items }
{
    for name in names {
        noted.push_reserved(name);
    }
}

/// The children that run and have one of these modules are stopped: their processes end with `shutdown`, and none of them
/// is due, whatever its Restart. Their names are noted behind others. What clients are told is handed out in `n` equal
/// values.
///
/// # Errors
///
/// `AllocError` where memory is refused. All is then as it was.
pub fn stop(
    apps: &mut AppTable,
    processes: &mut Processes,
    alloc: Global,
    modules: &[Atom],
    noted: &mut Vec<ChildName>,
    n: usize,
) -> Result<ChildStop, AllocError>
    ensures apps { OnOk result (apps.new ≡ all_stopped (running_with modules.now apps.old) apps.old) }
    ensures processes { OnOk result (processes.new ≡ all_vacated (to_stop modules.now apps.old) processes.old) }
    ensures told { IfOk result (λ it. it.told.items ≡ replicate n
        (downs_of_each shutdown (to_stop modules.now apps.old) processes.old)) }
    ensures noted { OnOk result (noted.new.items ≡ noted.old.items ++ names_at (running_with modules.now apps.old) apps.old) }
    ensures count { IfOk result (λ it. it.count ≡ length (names_at (running_with modules.now apps.old) apps.old)) }
    ensures ended { IfOk result (λ it. TakesBackEnds it.processes processes.old processes.new) }
    ensures pieces { IfOk result (λ it. HoldsLost (held it.processes processes.new) processes.old processes.new) }
    ensures inverse { IfOk result (λ it. undone it.undo apps.new ≡ apps.old) }
    ensures app_pieces { IfOk result (λ it. held_apps it.undo apps.new ≡ []) }
    ensures err { OnErr result ((apps.new ≡ apps.old) × (processes.new ≡ processes.old) × (noted.new.items ≡ noted.old.items)) }
{
    let children = apps.running_with(alloc, modules)?;
    let pids = pids_of(alloc, children.as_slice())?;
    let names = apps.names_of(alloc, children.as_slice())?;
    let told = processes.downs_of_each(pids.as_slice(), &shutdown(alloc)?, n)?;
    noted.reserve(names.len())?;
    let ended = processes.end_all(pids.as_slice())?;
    let count = names.as_slice().len();
    note(noted, names);
    Ok(ChildStop {
        told,
        count,
        processes: ended,
        undo: apps.stop(Row::new(children)),
    })
}

/// So many that were noted last are noted no more. Takes no memory.
pub fn unnote(noted: &mut Vec<ChildName>, count: usize)
    requires { count ≤ length noted.old.items }
    ensures { noted.new.items ≡ take (length noted.old.items - count) noted.old.items }
{
    let left = noted.as_slice().len() - count;
    noted.truncate(left);
}

/// The index of an application that can be stopped, or why it can't. Takes no memory.
fn index_to_stop(apps: &AppTable, name: &Atom) -> Result<usize, AppError>
    ensures index { IfOk result (λ index. index_of name.now apps.now ≡ Some index) }
    ensures ok { OnOk result (stop_refusal name.now apps.now ≡ None) }
    ensures refused { IfErr result (λ e. stop_refusal name.now apps.now ≡ Some e) }
{
    let Some(index) = apps.index_of(name) else {
        return Err(AppError::NotStarted);
    };
    if apps.app_at(index).is_started() {
        return Ok(index);
    }
    Err(AppError::NotStarted)
}

/// An application stops: its children end with `shutdown`, from the last to the first. It keeps them; none of them has a
/// process, and none is due. What clients are told is handed out in `n` equal values.
///
/// # Errors
///
/// In this order: `NotStarted` where no application of the name is loaded and started, `Memory`. All is then as it was.
pub fn stop_app(
    apps: &mut AppTable,
    processes: &mut Processes,
    alloc: Global,
    name: &Atom,
    n: usize,
) -> Result<AppStop, Failure<AppError>>
    ensures ok { OnOk result (stop_refusal name.now apps.old ≡ None) }
    ensures apps { OnOk result (apps.new ≡ stopped_app name.now apps.old) }
    ensures processes { OnOk result (processes.new ≡ all_vacated (app_pids name.now apps.old) processes.old) }
    ensures told { IfOk result (λ it. it.told.items ≡ replicate n
        (downs_of_each shutdown (app_pids name.now apps.old) processes.old)) }
    ensures ended { IfOk result (λ it. TakesBackEnds it.processes processes.old processes.new) }
    ensures pieces { IfOk result (λ it. HoldsLost (held it.processes processes.new) processes.old processes.new) }
    ensures inverse { IfOk result (λ it. undone it.undo apps.new ≡ apps.old) }
    ensures app_pieces { IfOk result (λ it. held_apps it.undo apps.new ≡ []) }
    ensures refused { IfErr result (λ failure. TellsFailure failure (stop_refusal name.now apps.old)) }
    ensures err { OnErr result ((apps.new ≡ apps.old) × (processes.new ≡ processes.old)) }
{
    let index = match index_to_stop(apps, name) {
        Ok(index) => index,
        Err(refusal) => return Err(Failure::Refused(refusal)),
    };
    let pids = apps.ending_order(alloc, index)?;
    let states = apps.states(alloc, index)?;
    let told = processes.downs_of_each(pids.as_slice(), &shutdown(alloc)?, n)?;
    let ended = processes.end_all(pids.as_slice())?;
    Ok(AppStop {
        told,
        processes: ended,
        undo: apps.stop_app(index, states),
    })
}

/// The index of an application that can be unloaded, or why it can't. Takes no memory.
fn index_to_unload(apps: &AppTable, name: &Atom) -> Result<usize, AppError>
    ensures index { IfOk result (λ index. index_of name.now apps.now ≡ Some index) }
    ensures ok { OnOk result (unload_refusal name.now apps.now ≡ None) }
    ensures refused { IfErr result (λ e. unload_refusal name.now apps.now ≡ Some e) }
{
    let Some(index) = apps.index_of(name) else {
        return Err(AppError::NotLoaded);
    };
    if apps.app_at(index).is_started() {
        return Err(AppError::Running);
    }
    Ok(index)
}

/// An application is unloaded: it leaves, with its children, and is handed out. Takes no memory; [`AppTable::reload`] takes
/// it back.
///
/// # Errors
///
/// In this order: `NotLoaded`, `Running` where it is started. All is then as it was.
pub fn unload_app(apps: &mut AppTable, name: &Atom) -> Result<Unloaded, AppError>
    ensures ok { OnOk result (unload_refusal name.now apps.old ≡ None) }
    ensures unloaded { OnOk result (apps.new ≡ unloaded_app name.now apps.old) }
    ensures inverse { IfOk result (λ it. (reloaded it apps.new ≡ apps.old) × (it.index ≤ length apps.new)) }
    ensures app_pieces { IfOk result (λ it. IsPermutation (held_unloaded it ++ pieces apps.new) (pieces apps.old)) }
    ensures refused { IfErr result (λ e. unload_refusal name.now apps.old ≡ Some e) }
    ensures err { OnErr result (apps.new ≡ apps.old) }
{
    let index = index_to_unload(apps, name)?;
    Ok(apps.unload(index))
}

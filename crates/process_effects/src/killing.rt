// Processes end together, as all do that use an instance which is purged.
ghost use Rattle.std.specs.Prelude.{◌≡◌, ◌+◌, ◌++◌, ◌≤◌, [], All, IfOk, OnErr, OnOk, map, vec_capacity, vec_len};
ghost use Rattle.process_store.specs.Pieces.{HoldsLost};
ghost use Rattle.process_store.specs.Table.{living};
ghost use Rattle.process_effects.specs.Ends.{HasCodeRefs, UndoesEnds, all_vacated};
ghost use Rattle.process_effects.specs.Kills.{downs_of_each, downs_of_users, without_users};
ghost use Rattle.process_effects.specs.EndedPieces.{held_by_all};
ghost use Rattle.process_effects.specs.Told.{downs, killed};

use crate::ending::{EndedProcess, ToldProcess, take_out};
use crate::told::{Reply, tell};
use crate::using::users;
use erl_term::{Atom, Predefined, Term};
use process_store::ProcessStore;
use std::alloc::{AllocError, Global};

/// The reason of a process that is killed. Takes no memory.
fn killed() -> Term
    ensures { result ≡ killed }
{
    Term::Atom(Atom::predefined(Predefined::Killed))
}

/// Those of these processes that live, in order, and what tells their instances.
fn told_processes(
    store: &ProcessStore,
    alloc: Global,
    pids: &[u64],
) -> Result<Vec<ToldProcess>, AllocError>
    ensures leave { IfOk result (λ it. all_vacated (map (λ p. p.pid) it.items) store.now ≡ all_vacated pids.now store.now) }
    ensures told { IfOk result (λ it. All (λ p. HasCodeRefs p.told (living p.pid store.now)) it.items) }
{
    let mut leaving = Vec::new(alloc);
    for pid in pids {
        if let Some(living) = store.get(*pid) {
            let told = living.process.told(alloc)?;
            leaving.push(ToldProcess { pid: *pid, told })?;
        }
    }
    Ok(leaving)
}

/// What clients are told where the process of a pid ends, behind what is told already.
fn tell_of(
    replies: &mut Vec<Reply>,
    store: &ProcessStore,
    alloc: Global,
    pid: u64,
    reason: &Term,
) -> Result<(), AllocError>
    ensures { OnOk result (replies.new.items ≡ replies.old.items ++ downs reason.now (living pid store.now)) }
{
    match store.get(pid) {
        Some(living) => tell(replies, alloc, &living.calls, reason),
        None => Ok(()),
    }
}

/// What clients would be told where these processes ended for a reason: of each open call of the first that it is down, in order
/// of client and number, then of the next, and so on. Nothing of a pid that no process has.
///
/// # Errors
///
/// `AllocError` where memory is refused.
pub fn downs_of_each(
    store: &ProcessStore,
    alloc: Global,
    pids: &[u64],
    reason: &Term,
) -> Result<Vec<Reply>, AllocError>
    ensures { IfOk result (λ it. it.items ≡ downs_of_each reason.now pids.now store.now) }
{
    let mut replies = Vec::new(alloc);
    for pid in pids {
        tell_of(&mut replies, store, alloc, *pid, reason)?;
    }
    Ok(replies)
}

/// What clients would be told by the kill of all users of the instance of a serial: that the processes of their calls were
/// killed, process after process in order of pid.
///
/// # Errors
///
/// `AllocError` where memory is refused.
pub fn downs_of_users(
    store: &ProcessStore,
    alloc: Global,
    serial: u64,
) -> Result<Vec<Reply>, AllocError>
    ensures { IfOk result (λ it. it.items ≡ downs_of_users serial store.now) }
{
    let pids = users(store, alloc, serial)?;
    downs_of_each(store, alloc, pids.as_slice(), &killed())
}

/// Takes processes out, the last first. There is room for what they are then, which takes no memory.
fn take_all_out(
    store: &mut ProcessStore,
    mut leaving: Vec<ToldProcess>,
    mut ended: Vec<EndedProcess>,
) -> Vec<EndedProcess>
    requires none { ended.items ≡ [] }
    requires room { vec_len ended + vec_len leaving ≤ vec_capacity ended }
    requires told { All (λ p. HasCodeRefs p.told (living p.pid store.old)) leaving.items }
    ensures table { store.new ≡ all_vacated (map (λ p. p.pid) leaving.items) store.old }
    ensures back { UndoesEnds result.items store.old store.new }
    ensures pieces { HoldsLost (held_by_all result.items) store.old store.new }
{
    while let Some(leaves) = leaving.pop() {
        if let Some(process) = take_out(store, leaves) {
            ended.push_reserved(process);
        }
    }
    ended
}

/// Processes end together: each of them that lives leaves, with its name, its mailbox and its open calls. What their clients are
/// told is made of their calls before ([`downs_of_each`]).
///
/// # Errors
///
/// `AllocError` where memory is refused. The processes are then as they were.
pub fn end_all(
    store: &mut ProcessStore,
    alloc: Global,
    pids: &[u64],
) -> Result<Vec<EndedProcess>, AllocError>
    ensures ended { OnOk result (store.new ≡ all_vacated pids.now store.old) }
    ensures inverse { IfOk result (λ it. UndoesEnds it.items store.old store.new) }
    ensures pieces { IfOk result (λ it. HoldsLost (held_by_all it.items) store.old store.new) }
    ensures err { OnErr result (store.new ≡ store.old) }
{
    let leaving = told_processes(store, alloc, pids)?;
    let room = Vec::with_capacity(alloc, leaving.len())?;
    Ok(take_all_out(store, leaving, room))
}

/// Kills each process that uses the instance of a serial: it leaves, with its name, its mailbox and its open calls. What clients
/// are told is handed out, and what lets the processes live again.
///
/// # Errors
///
/// `AllocError` where memory is refused. The processes are then as they were.
pub fn kill_users(
    store: &mut ProcessStore,
    alloc: Global,
    serial: u64,
) -> Result<(Vec<Reply>, Vec<EndedProcess>), AllocError>
    ensures killed { OnOk result (store.new ≡ without_users serial store.old) }
    ensures told { IfOk result (λ it. it.0.items ≡ downs_of_users serial store.old) }
    ensures inverse { IfOk result (λ it. UndoesEnds it.1.items store.old store.new) }
    ensures pieces { IfOk result (λ it. HoldsLost (held_by_all it.1.items) store.old store.new) }
    ensures err { OnErr result (store.new ≡ store.old) }
{
    let pids = users(store, alloc, serial)?;
    let replies = downs_of_each(store, alloc, pids.as_slice(), &killed())?;
    let ended = end_all(store, alloc, pids.as_slice())?;
    Ok((replies, ended))
}

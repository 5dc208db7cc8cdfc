// Several processes are suspended or resumed, or get another state, one after the other.
ghost use Rattle.std.specs.Prelude.{◌≡◌, All, map};
ghost use Rattle.process_store.specs.Changes.{CanRestate, CanUnrestate, restate_living, unrestate_living};
ghost use Rattle.process_store.specs.Pieces.{HoldsLost};
ghost use Rattle.process_store.specs.Table.{changed, living};
ghost use Rattle.process_table.specs.States.{CanRestateAll, CanUnrestateAll, IsIdle, all_restated, all_resumed, all_suspended};
ghost use Rattle.process_table.specs.States.{all_unrestated, all_unresumed, held_places};

use erl_term::Term;
use process_store::ProcessStore;
use std::mem;

/// A process that is resumed.
#[derive(Clone, Copy)]
pub struct Resumed {
    /// Its pid.
    pub pid: u64,
    /// Whether it was suspended before.
    pub was_suspended: bool,
}

/// Another state of a gen_server process, which its code has changed.
#[derive(Drop)]
pub struct StateChange {
    /// Its pid.
    pub pid: u64,
    /// The state that it gets; and when it has got it, the one that it had before.
    pub state: Term,
    /// How many turns it is counted on.
    pub turns: u64,
}

/// Suspends each of these processes, where it lives and rests.
pub(crate) fn suspend_all(store: &mut ProcessStore, pids: &[u64])
    ensures suspended { store.new ≡ all_suspended pids.now store.old }
    ensures back { All (λ pid. IsIdle (living pid store.old)) pids.now → all_resumed pids.now store.new ≡ store.old }
{
    for pid in pids {
        store.suspend(*pid);
    }
}

/// Resumes each of these processes, where it lives and is suspended.
pub(crate) fn resume_all(store: &mut ProcessStore, pids: &[u64])
    ensures { store.new ≡ all_resumed pids.now store.old }
{
    for pid in pids {
        store.resume(*pid);
    }
}

/// Resumes each of these processes, where it lives and is suspended, and notes whether it was.
pub(crate) fn resume_noting(store: &mut ProcessStore, resumed: &mut [Resumed])
    ensures resumed { store.new ≡ all_resumed (map (λ r. r.pid) resumed.old) store.old }
    ensures same { map (λ r. r.pid) resumed.new ≡ map (λ r. r.pid) resumed.old }
    ensures back { all_unresumed resumed.new store.new ≡ store.old }
{
    for it in resumed.iter_mut() {
        it.was_suspended = store.resume(it.pid);
    }
}

/// Each of these processes is suspended, or not, as it was noted when it was resumed: the last first.
pub(crate) fn unresume(store: &mut ProcessStore, resumed: &[Resumed])
    ensures { store.new ≡ all_unresumed resumed.now store.old }
{
    for index in (0..resumed.len()).rev() {
        let it = resumed[index];
        store.set_suspended(it.pid, it.was_suspended);
    }
}

/// A process gets the state of a change, and the change the one that the process had.
fn restate(store: &mut ProcessStore, change: &mut StateChange)
    requires { CanRestate change.old.turns (living change.old.pid store.old) }
    ensures pid { change.new.pid ≡ change.old.pid }
    ensures turns { change.new.turns ≡ change.old.turns }
    ensures restated { store.new ≡ changed (restate_living change.old.state change.old.turns) change.old.pid store.old }
    ensures back { changed (unrestate_living change.new.state change.old.turns) change.old.pid store.new ≡ store.old }
    ensures fits { CanUnrestate change.old.turns (living change.old.pid store.new) }
{
    let state = mem::replace(&mut change.state, Term::Int(0));
    change.state = store.restate(change.pid, state, change.turns);
}

/// Each of these processes gets the state of its change, and the change the one that the process had.
pub(crate) fn restate_all(store: &mut ProcessStore, changes: &mut [StateChange])
    requires { CanRestateAll changes.old store.old }
    ensures restated { store.new ≡ all_restated changes.old store.old }
    ensures pids { map (λ c. c.pid) changes.new ≡ map (λ c. c.pid) changes.old }
    ensures turns { map (λ c. c.turns) changes.new ≡ map (λ c. c.turns) changes.old }
    ensures fits { CanUnrestateAll changes.new store.new }
    ensures back { all_unrestated changes.new store.new ≡ store.old }
    ensures pieces { HoldsLost (held_places changes.new store.new) store.old store.new }
{
    for change in changes.iter_mut() {
        restate(store, change);
    }
}

/// A process has the state of a change again, and the change the one that the process had.
fn unrestate(store: &mut ProcessStore, change: &mut StateChange)
    requires { CanUnrestate change.old.turns (living change.old.pid store.old) }
    ensures pid { change.new.pid ≡ change.old.pid }
    ensures unrestated { store.new ≡ changed (unrestate_living change.old.state change.old.turns) change.old.pid store.old }
{
    let state = mem::replace(&mut change.state, Term::Int(0));
    change.state = store.unrestate(change.pid, state, change.turns);
}

/// Each of these processes has the state of its change again, and the change the one that the process had.
pub(crate) fn unrestate_all(store: &mut ProcessStore, changes: &mut [StateChange])
    requires { CanUnrestateAll changes.old store.old }
    ensures { store.new ≡ all_unrestated changes.old store.old }
{
    for change in changes.iter_mut() {
        unrestate(store, change);
    }
}

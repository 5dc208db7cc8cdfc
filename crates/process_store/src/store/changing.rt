// Elementary changes of one process of the table, each with the one that takes it back.
ghost use Rattle.std.specs.Prelude.{◌≡◌, IfNone, IfOk, IfSome, IsSome, None, OnErr, OnOk, Some};
ghost use Rattle.process_store.specs.Changes.{CanReopen, CanRestate, CanTurnAt, CanUnrestate, HasTurned, IsNext, IsRunningAt, closed_in, is_suspended, owner_of, reopened, rest_living, restate_living, resume_living, suspend_living, suspended_as, unrest_living, unrestate_living, was_suspended};
ghost use Rattle.std.specs.Option.{option_copied};
ghost use Rattle.process_store.specs.Inverses.{WasCalled};
ghost use Rattle.process_store.specs.Living.{arrived, unarrived};
ghost use Rattle.process_store.specs.Table.{changed, living};

use super::ProcessStore;
use crate::marked::{
    arrive_at, close_at, reopen_at, rest_at, restate_at, resume_at, suspend_at, unarrive_at,
    unrest_at, unrestate_at,
};
use erl_semantics::{Instance, Place};
use erl_term::Term;
use process::{Activity, Ran};
use process_index::{Call, Owner};
use std::alloc::AllocError;

/// Whether a process that does this is suspended.
fn is_suspended(activity: &Activity) -> bool
    ensures { result ≡ is_suspended activity.now }
{
    match activity {
        Activity::Suspended => true,
        Activity::Idle | Activity::Runs(_) => false,
    }
}

impl ProcessStore {
    /// Whether a process is suspended.
    fn was_suspended(&self, pid: u64) -> bool
        ensures { result ≡ was_suspended (living pid self.now) }
    {
        match self.get(pid) {
            Some(living) => is_suspended(living.process.activity()),
            None => false,
        }
    }

    /// A process takes no message until it is resumed, where it rests; one that runs goes on. Whether it was suspended already is
    /// handed out. Takes no memory.
    pub fn suspend(&mut self, pid: u64) -> bool
        ensures suspended { self.new ≡ changed suspend_living pid self.old }
        ensures back { changed (suspended_as result) pid self.new ≡ self.old }
    {
        let was = self.was_suspended(pid);
        suspend_at(&mut self.slots, pid);
        was
    }

    /// A process takes messages again, where it was suspended, and this is handed out. Takes no memory.
    pub fn resume(&mut self, pid: u64) -> bool
        ensures resumed { self.new ≡ changed resume_living pid self.old }
        ensures back { changed (suspended_as result) pid self.new ≡ self.old }
    {
        let was = self.was_suspended(pid);
        resume_at(&mut self.slots, pid);
        was
    }

    /// A process is suspended again, or resumed, as it was. Takes no memory.
    pub fn set_suspended(&mut self, pid: u64, suspended: bool)
        ensures { self.new ≡ changed (suspended_as suspended) pid self.old }
    {
        if suspended {
            self.suspend(pid);
        } else {
            self.resume(pid);
        }
    }

    /// A message comes for the process of a pid, where it lives, and goes last in its mailbox.
    ///
    /// # Errors
    ///
    /// `AllocError` where memory is refused. The table is then as it was.
    pub fn deliver(&mut self, pid: u64, message: Term) -> Result<(), AllocError>
        ensures ok { OnOk result (self.new ≡ changed (arrived message None) pid self.old) }
        ensures fits { OnOk result (IsSome (living pid self.old) → WasCalled None (living pid self.new)) }
        ensures back { OnOk result (changed (unarrived None) pid self.new ≡ self.old) }
        ensures err { OnErr result (self.new ≡ self.old) }
    {
        arrive_at(&mut self.slots, pid, self.alloc, message, None)?;
        Ok(())
    }

    /// The last message of the process of a pid goes, where it lives and has one. Takes no memory.
    pub fn undeliver(&mut self, pid: u64)
        ensures { self.new ≡ changed (unarrived None) pid self.old }
    {
        unarrive_at(&mut self.slots, pid, None);
    }

    /// The position of the message that the process of a pid, which lives, takes next, if it comes to rest at a place.
    ///
    /// # Errors
    ///
    /// `AllocError` where memory is refused.
    pub fn next_at(
        &self,
        pid: u64,
        place: &Place,
        rests_in: Option<&Instance>,
    ) -> Result<Option<usize>, AllocError>
        requires { IsSome (living pid self.now) }
        ensures { IfOk result (λ it. IfSome (living pid self.now) (IsNext place.now (option_copied rests_in.entry) it)) }
    {
        match self.get(pid) {
            Some(living) => living.process.next_at(self.alloc, place, rests_in),
            None => unreachable!(),
        }
    }

    /// The process of a pid, which lives and runs, rests at a place, one turn on, and takes next the message that
    /// [`ProcessStore::next_at`] tells. What it ran is handed out, by which [`ProcessStore::unrest`] takes it back. Takes
    /// no memory.
    pub fn rest_next(
        &mut self,
        pid: u64,
        place: Place,
        rests_in: Option<Instance>,
        next: Option<usize>,
    ) -> Ran
        requires running { IsRunningAt pid self.old }
        requires turns { CanTurnAt pid self.old }
        requires next { IfSome (living pid self.old) (IsNext place rests_in next) }
        ensures rested { self.new ≡ changed (rest_living place rests_in) pid self.old }
        ensures back { changed (unrest_living result) pid self.new ≡ self.old }
        ensures fits { HasTurned pid self.new }
    {
        rest_at(&mut self.slots, pid, place, rests_in, next)
    }

    /// The process of a pid runs again what it ran before it rested, where it lives. Takes no memory.
    pub fn unrest(&mut self, pid: u64, ran: Ran)
        requires { HasTurned pid self.old }
        ensures { self.new ≡ changed (unrest_living ran) pid self.old }
    {
        unrest_at(&mut self.slots, pid, ran);
    }

    /// The gen_server process of a pid, which lives, gets another state, so many turns on. The one that it had is handed out, by
    /// which [`ProcessStore::unrestate`] takes it back. Takes no memory.
    pub fn restate(&mut self, pid: u64, state: Term, turns: u64) -> Term
        requires { CanRestate turns (living pid self.old) }
        ensures restated { self.new ≡ changed (restate_living state turns) pid self.old }
        ensures back { changed (unrestate_living result turns) pid self.new ≡ self.old }
        ensures fits { CanUnrestate turns (living pid self.new) }
    {
        restate_at(&mut self.slots, pid, state, turns)
    }

    /// The gen_server process of a pid has its former state again, and so many turns less. The one that it had is handed out, by
    /// which [`ProcessStore::restate`] takes it back. Takes no memory.
    pub fn unrestate(&mut self, pid: u64, state: Term, turns: u64) -> Term
        requires { CanUnrestate turns (living pid self.old) }
        ensures unrestated { self.new ≡ changed (unrestate_living state turns) pid self.old }
        ensures back { changed (restate_living result turns) pid self.new ≡ self.old }
    {
        unrestate_at(&mut self.slots, pid, state, turns)
    }

    /// Closes the open call of a number, whosever process it is open to, and hands out the pid and the call. Found by key;
    /// takes no memory.
    pub fn close(&mut self, number: u64) -> Option<(u64, Call)>
        ensures owner { result ≡ owner_of number self.old }
        ensures closed { IfSome result (λ it. self.new ≡ closed_in it.0 it.1 self.old) }
        ensures none { IfNone result (self.new ≡ self.old) }
        ensures returns { IfSome result (λ it. CanReopen it.0 it.1 self.new) }
        ensures back { IfSome result (λ it. reopened it.0 it.1 self.new ≡ self.old) }
    {
        let Some(owner) = self.open_calls.take(number) else {
            return None;
        };
        let call = Call {
            client: owner.client,
            number,
        };
        close_at(&mut self.slots, owner.pid, call);
        Some((owner.pid, call))
    }

    /// A call is open again to the process of a pid, which lives.
    ///
    /// # Errors
    ///
    /// `AllocError` where memory is refused. The table is then as it was.
    pub fn reopen(&mut self, pid: u64, call: Call) -> Result<(), AllocError>
        requires { CanReopen pid call self.old }
        ensures ok { OnOk result (self.new ≡ reopened pid call self.old) }
        ensures owner { OnOk result (owner_of call.number self.new ≡ Some (pid, call)) }
        ensures back { OnOk result (closed_in pid call self.new ≡ self.old) }
        ensures err { OnErr result (self.new ≡ self.old) }
    {
        reopen_at(&mut self.slots, pid, call)?;
        let owner = Owner {
            pid,
            client: call.client,
        };
        match self.open_calls.insert(call.number, owner) {
            Ok(()) => Ok(()),
            Err(refused) => {
                close_at(&mut self.slots, pid, call);
                Err(refused)
            }
        }
    }
}

// A job is committed.
ghost use Rattle.std.specs.Prelude.{◌≡◌, ◌↔◌, IfErr, IfOk, IsSome, IsTrue, MatchOption, OnErr, OnOk, replicate};
ghost use Rattle.values.specs.Failure.{Fails};
ghost use Rattle.process_effects.specs.Acts.{acts_told};
ghost use Rattle.process_effects.specs.Commits.{IsRunning, rested_after};
ghost use Rattle.process_store.specs.Changes.{CanTurnAt};
ghost use Rattle.process_store.specs.Table.{living};
ghost use Rattle.process_effects.specs.Exits.{exit_told, exited};
ghost use Rattle.process_table.specs.Commit.{CanCommit, RefusesCommit, commit_told, committed, normal};
ghost use Rattle.process_store.specs.Pieces.{HoldsLost};
ghost use Rattle.process_table.specs.Undo.{Fits, LosesNothing, TakesBackEnds, held, undone};

use super::Processes;
use crate::error::ProcError;
use crate::undo::ProcessesUndo;
use code_server::Modules;
use erl_ir::Module;
use erl_semantics::{Act, Done, End, Job, Place};
use erl_term::{Atom, Predefined, Term};
use process_effects::{
    Exited, Reply, Rested, Telling, commit_exit, commit_rest, revert_exit, revert_rest,
};
use std::alloc::AllocError;
use values::{Boxed, Failure, Reserved, Row};

/// The reason of a process that has given a value. Takes no memory.
fn normal() -> Term
    ensures { result ≡ normal }
{
    Term::Atom(Atom::predefined(Predefined::Normal))
}

impl Processes {
    /// Whether a process runs a job: equal by value, code included. Takes no memory.
    fn runs(&self, job: &Job) -> bool
        ensures { IsTrue result ↔ IsRunning job.now self.now }
    {
        match self.store.get(job.pid) {
            Some(living) => living.process.runs(job),
            None => false,
        }
    }

    /// Whether the process of a pid, where it lives, can be counted one turn on.
    fn can_turn(&self, pid: u64) -> bool
        ensures { IsTrue result ↔ CanTurnAt pid self.now }
    {
        match self.store.get(pid) {
            Some(living) => living.process.turn() < u64::MAX,
            None => true,
        }
    }

    /// The acts of a job are done that its process runs, and the process rests again at a place. What clients are told is
    /// handed out in `n` equal values.
    fn rest(
        &mut self,
        job: &Job,
        acts: &[Act],
        place: &Place,
        n: usize,
    ) -> Result<(Vec<Row<Reply>>, ProcessesUndo), AllocError>
        requires running { IsRunning job.now self.old }
        requires turns { CanTurnAt job.now.pid self.old }
        ensures rested { OnOk result (self.new ≡ rested_after job.now place.now acts.now self.old) }
        ensures told { IfOk result (λ it. it.0.items ≡ replicate n (acts_told acts.now self.old)) }
        ensures inverse { IfOk result (λ it. TakesBackEnds it.1 self.old self.new) }
        ensures pieces { IfOk result (λ it. HoldsLost (held it.1 self.new) self.old self.new) }
        ensures err { OnErr result (self.new ≡ self.old) }
    {
        let telling = Telling::of_rest(self.alloc, acts, n)?;
        let (replies, rested) = commit_rest(&mut self.store, self.alloc, job, acts, place)?;
        Ok((telling.tell(replies), ProcessesUndo::Rested(rested)))
    }

    /// The acts of a job are done, and its process, which lives, ends for a reason. What clients are told is handed out in `n`
    /// equal values.
    fn exit(
        &mut self,
        pid: u64,
        acts: &[Act],
        reason: &Term,
        n: usize,
    ) -> Result<(Vec<Row<Reply>>, ProcessesUndo), AllocError>
        requires { IsSome (living pid self.old) }
        ensures exited { OnOk result (self.new ≡ exited pid acts.now self.old) }
        ensures told { IfOk result (λ it. it.0.items ≡ replicate n (exit_told pid reason.now acts.now self.old)) }
        ensures inverse { IfOk result (λ it. TakesBackEnds it.1 self.old self.new) }
        ensures pieces { IfOk result (λ it. HoldsLost (held it.1 self.new) self.old self.new) }
        ensures err { OnErr result (self.new ≡ self.old) }
    {
        let telling = Telling::of_exit(self.alloc, &self.store, pid, reason, acts, n)?;
        let room = Reserved::new(self.alloc)?;
        let (replies, exited) = commit_exit(&mut self.store, self.alloc, pid, acts, reason)?;
        Ok((
            telling.tell(replies),
            ProcessesUndo::Exited(room.fill(exited)),
        ))
    }

    /// Why the commit of what a job gives would be refused, whatever that is, but for lack of memory. Takes no memory.
    pub fn commit_refusal(&self, job: &Job) -> Option<ProcError>
        ensures { MatchOption result (CanCommit job.now self.now) (λ why. RefusesCommit why job.now self.now) }
    {
        if !self.runs(job) {
            return Some(ProcError::Stale);
        }
        if !self.can_turn(job.pid) {
            return Some(ProcError::CounterEnd);
        }
        None
    }

    /// Commits what a job gave, if nothing refuses it: its acts are done, in order, and then its process rests, one turn on, or
    /// ends. Returns what clients are told, in `n` equal values: the replies, in order, and then, if the process ends, its open
    /// calls, in order of client and number. The job is not compared.
    ///
    /// # Errors
    ///
    /// `AllocError` if an allocation fails. The table is then unchanged.
    pub fn conclude(
        &mut self,
        done: &Done,
        n: usize,
    ) -> Result<(Vec<Row<Reply>>, ProcessesUndo), AllocError>
        requires { CanCommit done.now.job self.old }
        ensures committed { OnOk result (self.new ≡ committed done.now self.old) }
        ensures told { IfOk result (λ it. it.0.items ≡ replicate n (commit_told done.now self.old)) }
        ensures inverse { IfOk result (λ it. TakesBackEnds it.1 self.old self.new) }
        ensures pieces { IfOk result (λ it. HoldsLost (held it.1 self.new) self.old self.new) }
        ensures err { OnErr result (self.new ≡ self.old) }
    {
        let (job, outcome) = (done.job(), done.outcome());
        let acts = outcome.acts.as_slice();
        match &outcome.end {
            End::Rest(place) => self.rest(job, acts, place, n),
            End::Value(_) => self.exit(job.pid, acts, &normal(), n),
            End::Exit(reason) => self.exit(job.pid, acts, reason, n),
        }
    }

    /// Commits what a job gave, as [`Processes::conclude`] does, unless [`Processes::commit_refusal`] refuses it.
    ///
    /// # Errors
    ///
    /// In this order: `Stale` if the process of the job's pid doesn't run an equal job, code included; `CounterEnd` if its
    /// turn is the last; `Memory`. The table is then unchanged.
    pub fn commit(
        &mut self,
        done: &Done,
        n: usize,
    ) -> Result<(Vec<Row<Reply>>, ProcessesUndo), Failure<ProcError>>
        ensures committed { OnOk result (self.new ≡ committed done.now self.old) }
        ensures told { IfOk result (λ it. it.0.items ≡ replicate n (commit_told done.now self.old)) }
        ensures inverse { IfOk result (λ it. TakesBackEnds it.1 self.old self.new) }
        ensures pieces { IfOk result (λ it. HoldsLost (held it.1 self.new) self.old self.new) }
        ensures ok { OnOk result (CanCommit done.now.job self.old) }
        ensures refused { IfErr result (Fails (λ why. RefusesCommit why done.now.job self.old)
            (CanCommit done.now.job self.old)) }
        ensures err { OnErr result (self.new ≡ self.old) }
    {
        if let Some(refusal) = self.commit_refusal(done.job()) {
            return Err(Failure::Refused(refusal));
        }
        match self.conclude(done, n) {
            Ok(told) => Ok(told),
            Err(_) => Err(Failure::Memory),
        }
    }

    /// The commit of a job whose process rests again is taken back.
    pub(super) fn revert_rested(
        &mut self,
        modules: &Modules<Module>,
        rested: Boxed<Rested>,
    ) -> Result<(), ProcessesUndo>
        requires { Fits modules.now (ProcessesUndo.Rested rested) self.old }
        ensures ok { OnOk result (self.new ≡ undone modules.now (ProcessesUndo.Rested rested) self.old) }
        ensures kept { OnOk result (LosesNothing modules.now (ProcessesUndo.Rested rested)) }
        ensures back { IfErr result (λ it. it ≡ ProcessesUndo.Rested rested) }
        ensures err { OnErr result (self.new ≡ self.old) }
    {
        match revert_rest(&mut self.store, self.alloc, modules, rested) {
            Ok(()) => Ok(()),
            Err(rested) => Err(ProcessesUndo::Rested(rested)),
        }
    }

    /// The commit of a job whose process has ended is taken back.
    pub(super) fn revert_exited(
        &mut self,
        modules: &Modules<Module>,
        exited: Boxed<Exited>,
    ) -> Result<(), ProcessesUndo>
        requires { Fits modules.now (ProcessesUndo.Exited exited) self.old }
        ensures ok { OnOk result (self.new ≡ undone modules.now (ProcessesUndo.Exited exited) self.old) }
        ensures kept { OnOk result (LosesNothing modules.now (ProcessesUndo.Exited exited)) }
        ensures back { IfErr result (λ it. it ≡ ProcessesUndo.Exited exited) }
        ensures err { OnErr result (self.new ≡ self.old) }
    {
        let (exited, room) = exited.open();
        match revert_exit(&mut self.store, self.alloc, modules, exited) {
            Ok(()) => Ok(()),
            Err(exited) => Err(ProcessesUndo::Exited(room.fill(exited))),
        }
    }
}

// Several processes are suspended or resumed, get another state, or end.
ghost use Rattle.std.specs.Prelude.{◌≡◌, All, IfOk, OnErr, OnOk, map, replicate};
ghost use Rattle.process_effects.specs.Ends.{all_vacated};
ghost use Rattle.process_effects.specs.Kills.{downs_of_each};
ghost use Rattle.process_store.specs.Pieces.{HoldsLost};
ghost use Rattle.process_store.specs.Table.{living};
ghost use Rattle.process_table.specs.States.{CanRestateAll, CanUnrestateAll, IsIdle, all_restated, all_resumed, all_suspended};
ghost use Rattle.process_table.specs.States.{all_unrestated, all_unresumed, held_places};
ghost use Rattle.process_table.specs.Undo.{TakesBackEnds, held};

use super::Processes;
use crate::states::{
    Resumed, StateChange, restate_all, resume_all, resume_noting, suspend_all, unrestate_all,
    unresume,
};
use crate::taking::equal_values;
use crate::undo::ProcessesUndo;
use erl_term::Term;
use process_effects::{Reply, downs_of_each, end_all};
use std::alloc::AllocError;
use values::Row;

impl Processes {
    /// Each of these processes takes no message until it is resumed, where it lives and rests; one that runs goes on. Takes no
    /// memory.
    pub fn suspend_all(&mut self, pids: &[u64])
        ensures suspended { self.new ≡ all_suspended pids.now self.old }
        ensures back { All (λ pid. IsIdle (living pid self.old)) pids.now → all_resumed pids.now self.new ≡ self.old }
    {
        suspend_all(&mut self.store, pids);
    }

    /// Each of these processes takes messages again, where it lives and is suspended. Takes no memory.
    pub fn resume_all(&mut self, pids: &[u64])
        ensures { self.new ≡ all_resumed pids.now self.old }
    {
        resume_all(&mut self.store, pids);
    }

    /// Each of these processes takes messages again, where it lives and is suspended, and whether it was is noted, by which
    /// [`Processes::unresume`] takes it back. Takes no memory.
    pub fn resume_noting(&mut self, resumed: &mut [Resumed])
        ensures resumed { self.new ≡ all_resumed (map (λ r. r.pid) resumed.old) self.old }
        ensures same { map (λ r. r.pid) resumed.new ≡ map (λ r. r.pid) resumed.old }
        ensures back { all_unresumed resumed.new self.new ≡ self.old }
    {
        resume_noting(&mut self.store, resumed);
    }

    /// Each of these processes is suspended, or not, as it was noted when it was resumed. Takes no memory.
    pub fn unresume(&mut self, resumed: &[Resumed])
        ensures { self.new ≡ all_unresumed resumed.now self.old }
    {
        unresume(&mut self.store, resumed);
    }

    /// Each of these gen_server processes gets the state of its change, and is counted so many turns on. The change has the state
    /// then that the process had, by which [`Processes::unrestate_all`] takes it back. Takes no memory.
    pub fn restate_all(&mut self, changes: &mut [StateChange])
        requires { CanRestateAll changes.old self.old }
        ensures restated { self.new ≡ all_restated changes.old self.old }
        ensures pids { map (λ c. c.pid) changes.new ≡ map (λ c. c.pid) changes.old }
        ensures turns { map (λ c. c.turns) changes.new ≡ map (λ c. c.turns) changes.old }
        ensures fits { CanUnrestateAll changes.new self.new }
        ensures back { all_unrestated changes.new self.new ≡ self.old }
        ensures pieces { HoldsLost (held_places changes.new self.new) self.old self.new }
    {
        restate_all(&mut self.store, changes);
    }

    /// Each of these gen_server processes has its former state again, and so many turns less. The change has the state then that
    /// the process had. Takes no memory.
    pub fn unrestate_all(&mut self, changes: &mut [StateChange])
        requires { CanUnrestateAll changes.old self.old }
        ensures { self.new ≡ all_unrestated changes.old self.old }
    {
        unrestate_all(&mut self.store, changes);
    }

    /// Processes end together: each of them that lives leaves, with its name, its mailbox and its open calls. What their clients
    /// are told is asked of [`Processes::downs_of_each`] before.
    ///
    /// # Errors
    ///
    /// `AllocError` where memory is refused. The table is then as it was.
    pub fn end_all(&mut self, pids: &[u64]) -> Result<ProcessesUndo, AllocError>
        ensures ended { OnOk result (self.new ≡ all_vacated pids.now self.old) }
        ensures inverse { IfOk result (λ undo. TakesBackEnds undo self.old self.new) }
        ensures pieces { IfOk result (λ undo. HoldsLost (held undo self.new) self.old self.new) }
        ensures err { OnErr result (self.new ≡ self.old) }
    {
        let ended = end_all(&mut self.store, self.alloc, pids)?;
        Ok(ProcessesUndo::Killed(Row::new(ended)))
    }

    /// What clients would be told where these processes ended now, in `n` equal values: of each open call of the first that it is
    /// down, and for what reason, in order of client and number, then of the next, and so on. Nothing of a pid that no
    /// process has.
    ///
    /// # Errors
    ///
    /// `AllocError` where memory is refused.
    pub fn downs_of_each(
        &self,
        pids: &[u64],
        reason: &Term,
        n: usize,
    ) -> Result<Vec<Row<Reply>>, AllocError>
        ensures { IfOk result (λ it. it.items ≡ replicate n (downs_of_each reason.now pids.now self.now)) }
    {
        let replies = downs_of_each(&self.store, self.alloc, pids, reason)?;
        equal_values(self.alloc, Row::new(replies), n)
    }
}

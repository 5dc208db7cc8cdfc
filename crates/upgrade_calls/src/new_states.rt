// The states that processes are to get.
ghost use Rattle.std.specs.Prelude.{◌≡◌, ◌+◌, ◌^◌, ◌<◌, [], IfOk, OnErr, OnOk};
ghost use Rattle.std.specs.Option.{option_copied};
ghost use Rattle.upgrade_calls.specs.NewStates.{change_of, state_of, turns_of, with_new};

use erl_term::Term;
use process_table::StateChange;
use std::alloc::{AllocError, Global};
use std::collections::BTreeMap;
use std::marker::Model;

/// The states that processes are to get, of each process once, found by its pid.
#[derive(Drop)]
pub(crate) struct NewStates {
    by_pid: BTreeMap<u64, StateChange>,
}

impl Model for NewStates {
    ghost use Rattle.std.specs.Prelude.{List};
    ghost use Rattle.std.specs.BTreeMap.{values};
    ghost use Rattle.std.specs.Coded.{codes};
    ghost use Rattle.erl_term.specs.contracts.term.Terms as terms;
    ghost use Rattle.process_table.specs.declared.states.StateChange.{StateChange as OneChange};
    ghost use Rattle.upgrade_calls.specs.NewStates.{AreByPid, AreRising};

    ghost Value = { List OneChange };

    ghost coded = { Prim.hlevel (codes, terms.the_row.coded) };

    ghost view = { λ s. values s.by_pid };

    ghost invariant = { λ s. AreByPid s.by_pid.entries × AreRising (values s.by_pid) };
}

impl NewStates {
    /// No state. Takes no memory.
    pub(crate) fn new(alloc: Global) -> NewStates
        ensures { result ≡ [] }
    {
        NewStates {
            by_pid: BTreeMap::new(alloc),
        }
    }

    /// What the process of a pid is to get, if anything.
    fn change(&self, pid: u64) -> Option<&StateChange>
        ensures { option_copied result ≡ change_of pid self.now }
    {
        self.by_pid.get(&pid)
    }

    /// The state that the process of a pid is to get, if it is to get one.
    pub(crate) fn state(&self, pid: u64) -> Option<&Term>
        ensures { option_copied result ≡ state_of pid self.now }
    {
        match self.change(pid) {
            Some(change) => Some(&change.state),
            None => None,
        }
    }

    /// How often the process of a pid has changed.
    fn turns(&self, pid: u64) -> u64
        ensures { result ≡ turns_of pid self.now }
    {
        match self.change(pid) {
            Some(change) => change.turns,
            None => 0,
        }
    }

    /// The process of a pid is to get this state now, and has changed once more.
    ///
    /// # Errors
    ///
    /// `AllocError` where memory is refused. All is then as it was.
    pub(crate) fn put(&mut self, pid: u64, state: Term) -> Result<(), AllocError>
        requires { turns_of pid self.old + 1 < 2 ^ 64 }
        ensures ok { OnOk result (self.new ≡ with_new pid state self.old) }
        ensures err { OnErr result (self.new ≡ self.old) }
    {
        let turns = self.turns(pid) + 1;
        let change = StateChange { pid, state, turns };
        self.by_pid.insert(pid, change)?;
        Ok(())
    }

    /// The changes, each of a process of its own.
    ///
    /// # Errors
    ///
    /// `AllocError` where memory is refused.
    pub(crate) fn into_vec(self, alloc: Global) -> Result<Vec<StateChange>, AllocError>
        ensures { IfOk result (λ it. it.items ≡ self) }
    {
        let changes = self.by_pid.into_values().collect(alloc)?;
        Ok(changes)
    }
}

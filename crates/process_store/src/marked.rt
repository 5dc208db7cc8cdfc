// The slots of processes, with the set of those that could take a message now. A change of one process is that of its slot
// (`slot_changes`), and then its number in the set is marked by what the process is.
ghost use Rattle.std.specs.Prelude.{◌≡◌, ◌+◌, ◌-◌, ◌^◌, ◌<◌, ◌++◌, ◌∷◌, [], None, Some, length, map, take, IfErr, IsSome, OnOk, OnErr, ℕ};
ghost use Rattle.std.specs.Map.Iter.{ShowsInOrder, deref_pair};
ghost use Rattle.std.specs.Option.{option_copied};
ghost use Rattle.process_index.specs.Standing.{alive, put_at, taken_at, vacant};
ghost use Rattle.process_store.specs.Living.{is_runnable};
ghost use Rattle.process_store.specs.Ready.{IsReady, IsReadyBut};
ghost use Rattle.process_store.specs.Table.{living_at};

mod changing;

use crate::living::ProcessEntry;
use crate::ready::Ready;
pub(crate) use changing::{
    arrive_at, close_at, reopen_at, rest_at, restate_at, resume_at, run_at, suspend_at,
    unarrive_at, unrest_at, unrestate_at, untake_at,
};
use process_index::Slots;
use ready_set::ReadySet;
use std::alloc::{AllocError, Global};
use std::collections::btree_map::Iter;
use std::marker::Model;

/// The slots of processes, by pid, with the set of those that could take a message now.
///
/// Contracts see the slots alone.
#[derive(Drop)]
pub(crate) struct MarkedSlots {
    slots: Slots<ProcessEntry>,
    /// For each pid above `below`, in order, whether its process could take a message now.
    ready: ReadySet,
    /// Nobody lives under this pid or one below it.
    below: u64,
}

impl Model for MarkedSlots {
    ghost use Rattle.std.specs.Prelude.{List, Option};
    ghost use Rattle.std.specs.Coded.{codes};
    ghost use Rattle.erl_term.specs.contracts.term.Terms as terms;
    ghost use Rattle.erl_ir.specs.contracts.module.Module as modules;
    ghost use Rattle.process_store.specs.declared.living.ProcessEntry.{ProcessEntry};
    ghost use Rattle.process_store.specs.Ready.{IsReady};

    ghost Value = { List (Option ProcessEntry) };

    ghost coded = { Prim.hlevel (codes, terms.the_row.coded, modules.the_row.coded) };

    ghost view = { λ m. m.slots };

    ghost invariant = { λ m. IsReady m.ready m.below m.slots };
}

/// Whether a process could take a message now, where it lives.
fn is_runnable(living: Option<&ProcessEntry>) -> bool
    ensures { result ≡ is_runnable (option_copied living.entry) }
{
    match living {
        Some(living) => living.process.next_message().is_some(),
        None => false,
    }
}

/// Puts a pid into the set, or takes it out, by what its process is.
fn mark(ready: &mut ReadySet, below: u64, slots: &Slots<ProcessEntry>, pid: u64)
    requires { IsReadyBut pid ready.old below slots.now }
    ensures { IsReady ready.new below slots.now }
{
    if below < pid && pid <= slots.last() {
        ready.set((pid - below - 1) as usize, is_runnable(slots.get(pid)));
    }
}

/// The pids from one on have numbers in the set.
fn reach(
    ready: &mut ReadySet,
    below: &mut u64,
    slots: &Slots<ProcessEntry>,
    pid: u64,
) -> Result<(), AllocError>
    requires given { 0 < pid }
    requires ready { IsReady ready.old below.old slots.now }
    ensures ready { IsReady ready.new below.new slots.now }
    ensures reached { OnOk result (below.new < pid) }
{
    if pid <= *below {
        ready.prepend((*below - pid + 1) as usize)?;
        *below = pid - 1;
    }
    Ok(())
}

impl MarkedSlots {
    /// Nobody has pid 0. Takes no memory.
    pub(crate) fn new(alloc: Global) -> MarkedSlots
        ensures { result ≡ None ∷ [] }
    {
        MarkedSlots {
            slots: Slots::new(alloc),
            ready: ReadySet::new(alloc),
            below: 0,
        }
    }

    /// As many pids as were given here, and nobody lives. Takes no memory.
    pub(crate) fn vacant(&self, alloc: Global) -> MarkedSlots
        ensures { result ≡ vacant self.now }
    {
        MarkedSlots {
            slots: self.slots.vacant(alloc),
            ready: ReadySet::new(alloc),
            below: self.slots.last(),
        }
    }

    /// The pid that was given last. Takes no memory.
    pub(crate) fn last(&self) -> u64
        ensures { result + 1 ≡ length self.now }
    {
        self.slots.last()
    }

    /// The process of a pid, where it lives. Takes no memory.
    pub(crate) fn get(&self, pid: u64) -> Option<&ProcessEntry>
        ensures { option_copied result ≡ living_at self.now pid }
    {
        self.slots.get(pid)
    }

    /// The processes that live, with their pids, in order. Takes no memory.
    pub(crate) fn iter(&self) -> Iter<'_, u64, ProcessEntry>
        ensures rest { result ≡ alive self.now }
        ensures runs { ShowsInOrder (deref_pair {K = ℕ} {X = ProcessEntry}) }
    {
        self.slots.iter()
    }

    /// The set of those that could take a message now. Takes no memory.
    pub(crate) fn ready(&self) -> Ready<'_>
        ensures { result ≡ map is_runnable self.now }
    {
        // What bounds the pids.
        let _last = self.slots.last();
        Ready::new(&self.ready, self.below)
    }

    /// Gives the next pid, under which this process lives.
    ///
    /// # Errors
    ///
    /// The process, where memory is refused. All is then as it was.
    pub(crate) fn push(&mut self, living: ProcessEntry) -> Result<(), ProcessEntry>
        requires { length self.old < 2 ^ 64 }
        ensures ok { OnOk result (self.new ≡ self.old ++ Some living ∷ []) }
        ensures back { IfErr result (λ back. back ≡ living) }
        ensures err { OnErr result (self.new ≡ self.old) }
    {
        match self.ready.push(is_runnable(Some(&living))) {
            Ok(()) => {}
            Err(_) => return Err(living),
        }
        match self.slots.push(living) {
            Ok(()) => Ok(()),
            Err(living) => {
                self.ready.pop();
                Err(living)
            }
        }
    }

    /// The pid that was given last is given no more. Its process is handed out, where it lives. Takes no memory.
    pub(crate) fn pop(&mut self) -> Option<ProcessEntry>
        requires { IsSome (living_at self.old (length self.old - 1)) }
        ensures last { result ≡ living_at self.old (length self.old - 1) }
        ensures rest { self.new ≡ take (length self.old - 1) self.old }
    {
        self.ready.pop();
        self.slots.pop()
    }

    /// The process of a pid lives no more, and is handed out. Takes no memory.
    pub(crate) fn take(&mut self, pid: u64) -> Option<ProcessEntry>
        ensures taken { result ≡ living_at self.old pid }
        ensures rest { self.new ≡ taken_at pid self.old }
    {
        let living = self.slots.take(pid);
        mark(&mut self.ready, self.below, &self.slots, pid);
        living
    }

    /// This process lives under a pid that was given.
    ///
    /// # Errors
    ///
    /// The process, where memory is refused. All is then as it was.
    pub(crate) fn put(&mut self, pid: u64, living: ProcessEntry) -> Result<(), ProcessEntry>
        requires somebody { 0 < pid }
        requires given { pid < length self.old }
        ensures ok { OnOk result (self.new ≡ put_at pid living self.old) }
        ensures back { IfErr result (λ back. back ≡ living) }
        ensures err { OnErr result (self.new ≡ self.old) }
    {
        match reach(&mut self.ready, &mut self.below, &self.slots, pid) {
            Ok(()) => {}
            Err(_) => return Err(living),
        }
        match self.slots.put(pid, living) {
            Ok(()) => {
                mark(&mut self.ready, self.below, &self.slots, pid);
                Ok(())
            }
            Err(living) => Err(living),
        }
    }
}

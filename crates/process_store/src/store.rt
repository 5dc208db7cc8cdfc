// The processes of a node by pid, and where each is found.
ghost use Rattle.std.specs.Prelude.{◌≡◌, ◌+◌, ◌-◌, ◌^◌, ◌<◌, ℕ, None, Some, IfOk, IfSome, IsSome, OnOk, OnErr, false, option_map};
ghost use Rattle.std.specs.Map.Iter.{ShowsInOrder, deref_pair};
ghost use Rattle.std.specs.Option.{option_copied};
ghost use Rattle.std.specs.Str.{chars};
ghost use Rattle.process_index.specs.Standing.{alive};
ghost use Rattle.process_store.specs.Indexed.{registered, unregistered};

mod changing;
mod vacating;

use crate::living::ProcessEntry;
use crate::marked::{MarkedSlots, arrive_at, run_at, unarrive_at, untake_at};
use crate::ready::Ready;
use erl_semantics::{Instance, Place};
use erl_term::{Atom, Term};
use process::Process;
use process_index::{Call, CallIndex, Calls, NameIndex, Owner};
use std::alloc::{AllocError, Global};
use std::collections::btree_map::Iter;
use std::hash::RandomState;
use std::marker::Model;
use values::{Duplicate, Row};

/// The processes of a node, by pid.
pub struct ProcessStore {
    alloc: Global,
    slots: MarkedSlots,
    names: NameIndex,
    open_calls: CallIndex,
}

/// It is taken apart here, so that who drops one above has nothing to prove of its parts.
impl Drop for ProcessStore {
    fn drop(self) {
        let ProcessStore {
            alloc: _alloc,
            slots: _slots,
            names: _names,
            open_calls: _open_calls,
        } = self;
    }
}

impl Model for ProcessStore {
    ghost use Rattle.std.specs.Coded.{codes};
    ghost use Rattle.erl_term.specs.contracts.term.Terms as terms;
    ghost use Rattle.erl_ir.specs.contracts.module.Module as modules;
    ghost use Rattle.process_store.specs.Indexed.{IsIndexed};
    ghost use Rattle.process_store.specs.Table.{Table};

    ghost Value = { Table };

    ghost coded = { Prim.hlevel (codes, terms.the_row.coded, modules.the_row.coded) };

    ghost view = { λ p. record { slots = p.slots } };

    ghost invariant = { λ p. IsIndexed p.names p.open_calls p.slots };
}

/// Registers a name, if there is one, for the process of a pid.
#[tactic(auto, using(process_index::proofs::Index::names_laws))]
fn register(
    names: &mut NameIndex,
    alloc: Global,
    name: Option<&Atom>,
    pid: u64,
) -> Result<(), AllocError>
    ensures ok { OnOk result (names.new ≡ registered (option_copied name.entry) pid names.old) }
    ensures err { OnErr result (names.new ≡ names.old) }
{
    match name {
        Some(name) => names.insert(name.copy(alloc)?, pid),
        None => Ok(()),
    }
}

/// A name is registered no more, if there is one.
fn unregister(names: &mut NameIndex, name: Option<&Atom>)
    ensures { names.new ≡ unregistered (option_copied name.entry) names.old }
{
    if let Some(name) = name {
        names.remove(name);
    }
}

impl ProcessStore {
    ghost use Rattle.process_store.specs.Inverses.{WasCalled, WasStarted, WasTaken};
    ghost use Rattle.process_store.specs.Living.{arrived, run, takes_next, unarrived, untook};
    ghost use Rattle.process_store.specs.Ready.{ready};
    ghost use Rattle.process_store.specs.Sound.{IsProcessTable};
    ghost use Rattle.process_store.specs.Table.{added, changed, emptied, empty_table, is_open, is_taken, living, next_pid, pid_of, without_last};

    /// No process. Names and numbers are hashed by keys that nobody outside knows. Takes no memory.
    pub fn new(alloc: Global, names: RandomState, numbers: RandomState) -> ProcessStore
        ensures { result ≡ empty_table }
    {
        ProcessStore {
            alloc,
            slots: MarkedSlots::new(alloc),
            names: NameIndex::new(alloc, names),
            open_calls: CallIndex::new(alloc, numbers),
        }
    }

    /// Nobody, and the next process gets the pid that the next here would get. Takes no memory.
    pub fn emptied(&self) -> ProcessStore
        ensures { result ≡ emptied self.now }
    {
        ProcessStore {
            alloc: self.alloc,
            slots: self.slots.vacant(self.alloc),
            names: self.names.emptied(self.alloc),
            open_calls: self.open_calls.emptied(self.alloc),
        }
    }

    /// The pid that was given last, or 0. Takes no memory.
    pub fn last_pid(&self) -> u64
        ensures pid { result + 1 ≡ next_pid self.now }
        ensures sound { IsProcessTable self.now }
    {
        self.slots.last()
    }

    /// The process of a pid, where it lives, in logarithmic time. Takes no memory.
    pub fn get(&self, pid: u64) -> Option<&ProcessEntry>
        ensures { option_copied result ≡ living pid self.now }
    {
        self.slots.get(pid)
    }

    /// The processes that live, with their pids, in order of pid. Takes no memory.
    pub fn iter(&self) -> Iter<'_, u64, ProcessEntry>
        ensures rest { result ≡ alive self.now.slots }
        ensures runs { ShowsInOrder (deref_pair {K = ℕ} {X = ProcessEntry}) }
    {
        self.slots.iter()
    }

    /// The set of the pids of those that could take a message now. Takes no memory.
    pub fn ready(&self) -> Ready<'_>
        ensures { result ≡ ready self.now }
    {
        self.slots.ready()
    }

    /// The process that is registered under the name that a text is, found by key. Takes no memory.
    pub fn pid_of(&self, name: &str) -> Option<u64>
        ensures { result ≡ pid_of (chars name.now) self.now }
    {
        self.names.get(name)
    }

    /// Whether a call of a number is open, whoever asked whom. Found by key; takes no memory.
    pub fn is_open(&self, number: u64) -> bool
        ensures { result ≡ is_open number self.now }
    {
        self.open_calls.get(number).is_some()
    }

    /// One more process: it rests at a place, under the next pid and under a name that is free, if it is to have one. The pid is
    /// handed out.
    ///
    /// # Errors
    ///
    /// `AllocError` where memory is refused. The processes are then as they were; the name and the place are dropped.
    pub fn add(
        &mut self,
        name: Option<Atom>,
        place: Place,
        rests_in: Option<Instance>,
    ) -> Result<u64, AllocError>
        requires untaken { is_taken name self.old ≡ false }
        requires given { next_pid self.old < 2 ^ 64 }
        ensures pid { IfOk result (λ pid. pid ≡ next_pid self.old) }
        ensures ok { OnOk result (self.new ≡ added name place rests_in self.old) }
        ensures fits { OnOk result (WasStarted (living (next_pid self.new - 1) self.new)) }
        ensures back { OnOk result (without_last self.new ≡ self.old) }
        ensures err { OnErr result (self.new ≡ self.old) }
    {
        let pid = self.slots.last() + 1;
        register(&mut self.names, self.alloc, name.as_ref(), pid)?;
        let living = ProcessEntry {
            process: Process::new(self.alloc, pid, name, place, rests_in),
            calls: Calls::new(self.alloc),
        };
        match self.slots.push(living) {
            Ok(()) => Ok(pid),
            Err(living) => {
                unregister(&mut self.names, living.process.name());
                Err(AllocError)
            }
        }
    }

    /// The last process goes, and its name is free. Takes no memory.
    pub fn remove_last(&mut self)
        requires { WasStarted (living (next_pid self.old - 1) self.old) }
        ensures { self.new ≡ without_last self.old }
    {
        if let Some(living) = self.slots.pop() {
            unregister(&mut self.names, living.process.name());
        }
    }

    /// A call comes for a process that lives, and is open.
    fn ask(&mut self, pid: u64, message: Term, call: Call) -> Result<(), AllocError>
        requires lives { IsSome (living pid self.old) }
        requires unasked { is_open call.number self.old ≡ false }
        ensures ok { OnOk result (self.new ≡ changed (arrived message (Some call)) pid self.old) }
        ensures fits { OnOk result (WasCalled (Some call) (living pid self.new)) }
        ensures back { OnOk result (changed (unarrived (Some call)) pid self.new ≡ self.old) }
        ensures err { OnErr result (self.new ≡ self.old) }
    {
        arrive_at(&mut self.slots, pid, self.alloc, message, Some(call))?;
        let owner = Owner {
            pid,
            client: call.client,
        };
        match self.open_calls.insert(call.number, owner) {
            Ok(()) => Ok(()),
            Err(refused) => {
                unarrive_at(&mut self.slots, pid, Some(call));
                Err(refused)
            }
        }
    }

    /// A message comes for a process that lives, and goes last in its mailbox; the call that it is, if it is one, is open then.
    ///
    /// # Errors
    ///
    /// `AllocError` where memory is refused. The processes are then as they were.
    pub fn arrive(&mut self, pid: u64, message: Term, call: Option<Call>) -> Result<(), AllocError>
        requires lives { IsSome (living pid self.old) }
        requires unasked { IfSome call (λ c. is_open c.number self.old ≡ false) }
        ensures ok { OnOk result (self.new ≡ changed (arrived message call) pid self.old) }
        ensures fits { OnOk result (WasCalled call (living pid self.new)) }
        ensures back { OnOk result (changed (unarrived call) pid self.new ≡ self.old) }
        ensures err { OnErr result (self.new ≡ self.old) }
    {
        match call {
            Some(call) => self.ask(pid, message, call),
            None => self.deliver(pid, message),
        }
    }

    /// The last message of a process goes, and the call that it is, if it is one, was never made. Takes no memory.
    pub fn unarrive(&mut self, pid: u64, call: Option<Call>)
        requires { WasCalled call (living pid self.old) }
        ensures { self.new ≡ changed (unarrived call) pid self.old }
    {
        unarrive_at(&mut self.slots, pid, call);
        if let Some(call) = call {
            self.open_calls.remove(call.number);
        }
    }

    /// A process takes the message at the position of the next that it takes, and runs it, in this code. Takes no memory.
    pub fn run(&mut self, pid: u64, position: usize, entry_serial: u64, code: Row<Instance>)
        requires { takes_next (living pid self.old) ≡ Some position }
        ensures runs { self.new ≡ changed (run position entry_serial code) pid self.old }
        ensures process { living pid self.new ≡ option_map (run position entry_serial code) (living pid self.old) }
        ensures fits { WasTaken position (living pid self.new) }
        ensures back { changed (untook position) pid self.new ≡ self.old }
    {
        run_at(&mut self.slots, pid, position, entry_serial, code);
    }

    /// The message that a process runs is back at its position, and the process rests.
    ///
    /// # Errors
    ///
    /// `AllocError` where memory is refused. The processes are then as they were.
    pub fn untake(&mut self, pid: u64, position: usize) -> Result<(), AllocError>
        requires { WasTaken position (living pid self.old) }
        ensures ok { OnOk result (self.new ≡ changed (untook position) pid self.old) }
        ensures err { OnErr result (self.new ≡ self.old) }
    {
        untake_at(&mut self.slots, pid, position)?;
        Ok(())
    }
}

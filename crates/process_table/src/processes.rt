// The processes of a node.
ghost use Rattle.std.specs.Prelude.{◌≡◌, ◌+◌, ℕ, None, Some, IfOk, IfErr, OnOk, OnErr, map, replicate};
ghost use Rattle.std.specs.Map.Iter.{ShowsInOrder, deref_pair};
ghost use Rattle.std.specs.Option.{option_copied};
ghost use Rattle.std.specs.Str.{chars};
ghost use Rattle.process_index.specs.Standing.{alive};

mod batching;
mod committing;
mod states;

use crate::body::{ClientMessage, MessageKind};
use crate::error::ProcError;
use crate::taking::{equal_values, job_for, next_of};
use crate::undo::ProcessesUndo;
use code_server::Modules;
use erl_ir::Module;
use erl_semantics::{Instance, Job, Place};
use erl_term::{Atom, Term};
use process_effects::{
    EndedProcess, Reply, downs_of_users, kill_users, rests_in, return_all, users,
};
use process_store::{ProcessEntry, ProcessStore, Ready};
use std::alloc::{AllocError, Global};
use std::collections::btree_map::Iter;
use std::hash::RandomState;
use std::marker::Model;
use values::{Duplicate, Failure, Row};

/// The processes of a node.
pub struct Processes {
    alloc: Global,
    store: ProcessStore,
}

/// It is taken apart here, so that who drops one above has nothing to prove of its parts.
impl Drop for Processes {
    fn drop(self) {
        let Processes {
            alloc: _alloc,
            store: _store,
        } = self;
    }
}

impl Model for Processes {
    ghost use Rattle.std.specs.Coded.{codes};
    ghost use Rattle.erl_term.specs.contracts.term.Terms as terms;
    ghost use Rattle.erl_ir.specs.contracts.module.Module as modules;
    ghost use Rattle.process_store.specs.Table.{Table};

    ghost Value = { Table };

    ghost coded = { Prim.hlevel (codes, terms.the_row.coded, modules.the_row.coded) };

    ghost view = { λ p. p.store };
}

impl Processes {
    ghost use Rattle.values.specs.Failure.{TellsFailure};
    ghost use Rattle.process_table.specs.Messages.{arrival_of, message_of};
    ghost use Rattle.process_table.specs.declared.body.MessageKind.TheVariants as kinds;
    ghost use Rattle.process_table.specs.Steps.{IsNextRunnable, TakesMessage, after_arrival, arrive_refusal, kind_of, kind_refusal, retake_refusal, start_refusal, take_refusal, with_process};
    ghost use Rattle.process_store.specs.Table.{emptied, empty_table, is_open, is_taken, living, next_pid, pid_of};
    ghost use Rattle.process_effects.specs.Commits.{job_at};
    ghost use Rattle.process_effects.specs.Kills.{downs_of_users, without_users};
    ghost use Rattle.process_effects.specs.Uses.{users};
    ghost use Rattle.process_table.specs.Undo.{Fits, LosesNothing, TakesBack, TakesBackEnds, held, undone};
    ghost use Rattle.process_store.specs.Pieces.{HoldsLost};
    ghost use Rattle.process_store.specs.Ready.{ready};
    ghost use Rattle.process_store.specs.Sound.{IsProcessTable};

    /// No process. Names and numbers are hashed by keys that nobody outside knows. Takes no memory.
    pub fn new(alloc: Global, names: RandomState, numbers: RandomState) -> Processes
        ensures { result ≡ empty_table }
    {
        Processes {
            alloc,
            store: ProcessStore::new(alloc, names, numbers),
        }
    }

    /// Nobody, and the next process gets the pid that the next here would get. Takes no memory.
    pub fn emptied(&self) -> Processes
        ensures { result ≡ emptied self.now }
    {
        Processes {
            alloc: self.alloc,
            store: self.store.emptied(),
        }
    }

    /// The process of a pid, where it lives. Takes no memory.
    pub fn get(&self, pid: u64) -> Option<&ProcessEntry>
        ensures { option_copied result ≡ living pid self.now }
    {
        self.store.get(pid)
    }

    /// The pid that was given last, or 0. Takes no memory.
    pub fn last_pid(&self) -> u64
        ensures pid { result + 1 ≡ next_pid self.now }
        ensures sound { IsProcessTable self.now }
    {
        self.store.last_pid()
    }

    /// The processes that live, with their pids, in order of pid. Takes no memory.
    pub fn iter(&self) -> Iter<'_, u64, ProcessEntry>
        ensures rest { result ≡ alive self.now.slots }
        ensures runs { ShowsInOrder (deref_pair {K = ℕ} {X = ProcessEntry}) }
    {
        self.store.iter()
    }

    /// The process that is registered under the name that a text is, found by key. Takes no memory.
    pub fn pid_of(&self, name: &str) -> Option<u64>
        ensures { result ≡ pid_of (chars name.now) self.now }
    {
        self.store.pid_of(name)
    }

    /// Whether a call of a number is open, whoever asked whom. Found by key; takes no memory.
    pub fn is_open(&self, number: u64) -> bool
        ensures { result ≡ is_open number self.now }
    {
        self.store.is_open(number)
    }

    /// The process that is registered under a name.
    fn pid_named(&self, name: &Atom) -> Option<u64>
        ensures { result ≡ pid_of name.now self.now }
    {
        self.pid_of(name.as_str())
    }

    /// Whether a name, if it is one, is registered.
    fn is_taken(&self, name: Option<&Atom>) -> bool
        ensures { result ≡ is_taken (option_copied name.entry) self.now }
    {
        match name {
            Some(name) => self.pid_named(name).is_some(),
            None => false,
        }
    }

    /// Why a start under a name, or under none, would be refused, but for lack of memory. Takes no memory.
    pub fn start_refusal(&self, name: Option<&Atom>) -> Option<ProcError>
        ensures { result ≡ start_refusal (option_copied name.entry) self.now }
    {
        if self.is_taken(name) {
            return Some(ProcError::NameTaken);
        }
        if self.last_pid() == u64::MAX {
            return Some(ProcError::CounterEnd);
        }
        None
    }

    /// A process starts: it rests at a place, under the next pid and under a name, if it is to have one. A loop function's place
    /// is of an instance of this code. The pid is handed out.
    ///
    /// # Errors
    ///
    /// In this order: `NameTaken` where a process is registered under the name, `CounterEnd` where every pid was given, `Memory`.
    /// The table is then as it was; the name and the place are dropped.
    pub fn start(
        &mut self,
        name: Option<Atom>,
        place: Place,
        code: &[Instance],
    ) -> Result<(u64, ProcessesUndo), Failure<ProcError>>
        ensures ok { OnOk result (start_refusal name self.old ≡ None) }
        ensures pid { IfOk result (λ it. it.0 ≡ next_pid self.old) }
        ensures started { OnOk result (self.new ≡ with_process name place code.now self.old) }
        ensures inverse { IfOk result (λ it. TakesBack it.1 self.old self.new) }
        ensures pieces { IfOk result (λ it. HoldsLost (held it.1 self.new) self.old self.new) }
        ensures refused { IfErr result (λ failure. TellsFailure failure (start_refusal name self.old)) }
        ensures err { OnErr result (self.new ≡ self.old) }
    {
        if let Some(refusal) = self.start_refusal(name.as_ref()) {
            return Err(Failure::Refused(refusal));
        }
        let rests_in = rests_in(self.alloc, &place, code)?;
        // What bounds the next pid.
        let _last = self.store.last_pid();
        let pid = self.store.add(name, place, rests_in)?;
        Ok((pid, ProcessesUndo::Started))
    }

    /// Why what arrives for a process would be refused by its kind.
    fn kind_refusal(&self, kind: MessageKind) -> Option<ProcError>
        ensures { result ≡ kind_refusal kind self.now }
    {
        match kind {
            MessageKind::Call(number) => self.call_refusal(number),
            MessageKind::Cast | MessageKind::Info => None,
        }
    }

    /// Why a call of a number would be refused.
    fn call_refusal(&self, number: u64) -> Option<ProcError>
        ensures { result ≡ kind_refusal (kinds.Call number) self.now }
    {
        if self.is_open(number) {
            return Some(ProcError::DuplicateCall);
        }
        match i64::try_from(number) {
            Ok(_) => None,
            Err(_) => Some(ProcError::CounterEnd),
        }
    }

    /// Why the arrival of what is of this kind for the process of a name would be refused, but for lack of memory. Takes no
    /// memory.
    pub fn arrive_refusal(&self, name: &str, kind: MessageKind) -> Option<ProcError>
        ensures { result ≡ arrive_refusal (chars name.now) kind self.now }
    {
        match self.pid_of(name) {
            Some(_) => self.kind_refusal(kind),
            None => Some(ProcError::NoProc),
        }
    }

    /// Delivers a message of a client to the process that is registered under a name, if nothing refuses it: the message goes
    /// last in the mailbox. A call is open from then on, until it is answered or the process ends. Returns the name and the
    /// message in `n` equal values, which share what they are made of.
    ///
    /// # Errors
    ///
    /// `AllocError` if an allocation fails. The table is then unchanged.
    pub fn deliver(
        &mut self,
        client: u64,
        name: &Atom,
        body: &ClientMessage,
        n: usize,
    ) -> Result<(Vec<(Atom, Term)>, ProcessesUndo), AllocError>
        requires { arrive_refusal name.now (kind_of body.now) self.old ≡ None }
        ensures arrived { OnOk result (self.new ≡ after_arrival client name.now body.now self.old) }
        ensures told { IfOk result (λ it. map Some it.0.items ≡ replicate n (arrival_of name.now (message_of body.now))) }
        ensures inverse { IfOk result (λ it. TakesBack it.1 self.old self.new) }
        ensures pieces { IfOk result (λ it. HoldsLost (held it.1 self.new) self.old self.new) }
        ensures err { OnErr result (self.new ≡ self.old) }
    {
        let Some(pid) = self.pid_named(name) else {
            unreachable!()
        };
        let Some(message) = body.message(self.alloc)? else {
            unreachable!()
        };
        let arrival = (name.copy(self.alloc)?, message.copy(self.alloc)?);
        let arrivals = equal_values(self.alloc, arrival, n)?;
        let call = body.call(client);
        self.store.arrive(pid, message, call)?;
        Ok((arrivals, ProcessesUndo::Arrived { pid, call }))
    }

    /// Delivers a message of a client, as [`Processes::deliver`] does, unless [`Processes::arrive_refusal`] refuses it.
    ///
    /// # Errors
    ///
    /// In this order: `NoProc` if no process has the name, `DuplicateCall` if a call of this number is open, `CounterEnd` if
    /// the number is past `2^63 - 1`, `Memory`. The table is then unchanged.
    pub fn arrive(
        &mut self,
        client: u64,
        name: &Atom,
        body: &ClientMessage,
        n: usize,
    ) -> Result<(Vec<(Atom, Term)>, ProcessesUndo), Failure<ProcError>>
        ensures ok { OnOk result (arrive_refusal name.now (kind_of body.now) self.old ≡ None) }
        ensures arrived { OnOk result (self.new ≡ after_arrival client name.now body.now self.old) }
        ensures told { IfOk result (λ it. map Some it.0.items ≡ replicate n (arrival_of name.now (message_of body.now))) }
        ensures inverse { IfOk result (λ it. TakesBack it.1 self.old self.new) }
        ensures pieces { IfOk result (λ it. HoldsLost (held it.1 self.new) self.old self.new) }
        ensures refused { IfErr result (λ failure. TellsFailure failure (arrive_refusal name.now (kind_of body.now) self.old)) }
        ensures err { OnErr result (self.new ≡ self.old) }
    {
        if let Some(refusal) = self.arrive_refusal(name.as_str(), body.kind()) {
            return Err(Failure::Refused(refusal));
        }
        match self.deliver(client, name, body, n) {
            Ok(told) => Ok(told),
            Err(_) => Err(Failure::Memory),
        }
    }

    /// The set of the pids of the processes that could take a message now, in order: those that neither run nor are
    /// suspended, and for which a message waits that they take. Takes no memory.
    pub fn ready(&self) -> Ready<'_>
        ensures { result ≡ ready self.now }
    {
        self.store.ready()
    }

    /// The least pid above `after` of a process that could take a message now: it neither runs nor is suspended, and a message
    /// waits that it takes. It is looked up in logarithmic time. Evaluates nothing, and takes no memory.
    pub fn runnable(&self, after: u64) -> Option<u64>
        ensures { IsNextRunnable after result self.now }
    {
        self.ready().next(after)
    }

    /// Why a take by the process of a pid would be refused, but for lack of memory. Takes no memory.
    pub fn take_refusal(&self, pid: u64) -> Option<ProcError>
        ensures { result ≡ take_refusal pid self.now }
    {
        match self.get(pid) {
            Some(living) => match next_of(&living.process) {
                Ok(_) => None,
                Err(refusal) => Some(refusal),
            },
            None => Some(ProcError::NoProc),
        }
    }

    /// Has a process take up the first message that it takes at its place, if nothing refuses it: the process runs the job from
    /// then on. Returns the job in `n` equal values: the message, and the code, which is the instance that is entered and what
    /// it can reach.
    ///
    /// # Errors
    ///
    /// `AllocError` if an allocation fails. The table is then unchanged.
    pub fn take_up(
        &mut self,
        modules: &Modules<Module>,
        pid: u64,
        n: usize,
    ) -> Result<(Vec<Job>, ProcessesUndo), AllocError>
        requires { take_refusal pid self.old ≡ None }
        ensures taken { IfOk result (λ it. TakesMessage modules.now pid n it.0.items self.old self.new) }
        ensures inverse { IfOk result (λ it. TakesBack it.1 self.old self.new) }
        ensures pieces { IfOk result (λ it. HoldsLost (held it.1 self.new) self.old self.new) }
        ensures err { OnErr result (self.new ≡ self.old) }
    {
        let Some(living) = self.store.get(pid) else {
            unreachable!()
        };
        let Some(position) = living.process.next_message() else {
            unreachable!()
        };
        let Some((job, code)) = job_for(self.alloc, modules, living, position)? else {
            unreachable!()
        };
        let entry_serial = job.entry_serial;
        let jobs = equal_values(self.alloc, job, n)?;
        self.store.run(pid, position, entry_serial, code);
        Ok((jobs, ProcessesUndo::Taken { pid, position }))
    }

    /// Has a process take up a message, as [`Processes::take_up`] does, unless [`Processes::take_refusal`] refuses it.
    ///
    /// # Errors
    ///
    /// In this order: `NoProc` if no process has the pid, `Suspended`, `Running`, `Idle` if it takes no message, `Memory`. The
    /// table is then unchanged.
    pub fn take(
        &mut self,
        modules: &Modules<Module>,
        pid: u64,
        n: usize,
    ) -> Result<(Vec<Job>, ProcessesUndo), Failure<ProcError>>
        ensures ok { OnOk result (take_refusal pid self.old ≡ None) }
        ensures taken { IfOk result (λ it. TakesMessage modules.now pid n it.0.items self.old self.new) }
        ensures inverse { IfOk result (λ it. TakesBack it.1 self.old self.new) }
        ensures pieces { IfOk result (λ it. HoldsLost (held it.1 self.new) self.old self.new) }
        ensures refused { IfErr result (λ failure. TellsFailure failure (take_refusal pid self.old)) }
        ensures err { OnErr result (self.new ≡ self.old) }
    {
        if let Some(refusal) = self.take_refusal(pid) {
            return Err(Failure::Refused(refusal));
        }
        match self.take_up(modules, pid, n) {
            Ok(taken) => Ok(taken),
            Err(_) => Err(Failure::Memory),
        }
    }

    /// The job that a process runs.
    ///
    /// # Errors
    ///
    /// In this order: `NoProc` where no process has the pid, `NotRunning` where it runs nothing, `Memory`.
    pub fn retake(&self, pid: u64) -> Result<Job, Failure<ProcError>>
        ensures job { IfOk result (λ job. job_at (living pid self.now) ≡ Some job) }
        ensures refused { IfErr result (λ failure. TellsFailure failure (retake_refusal pid self.now)) }
    {
        let Some(living) = self.get(pid) else {
            return Err(Failure::Refused(ProcError::NoProc));
        };
        match living.process.job(self.alloc) {
            Ok(Some(job)) => Ok(job),
            Ok(None) => Err(Failure::Refused(ProcError::NotRunning)),
            Err(_) => Err(Failure::Memory),
        }
    }

    /// The pids of the processes that use the instance of a serial, in order: while a process runs it uses the code of its
    /// job, and while it rests the instance in which it rests, where this is a loop function.
    ///
    /// # Errors
    ///
    /// `AllocError` where memory is refused.
    pub fn users(&self, serial: u64) -> Result<Vec<u64>, AllocError>
        ensures { IfOk result (λ it. it.items ≡ users serial self.now) }
    {
        users(&self.store, self.alloc, serial)
    }

    /// What clients would be told by the kill of all users of the instance of a serial: that the processes of their calls
    /// were killed, process after process in order of pid.
    ///
    /// # Errors
    ///
    /// `AllocError` where memory is refused.
    pub fn downs_of_users(&self, serial: u64) -> Result<Vec<Reply>, AllocError>
        ensures { IfOk result (λ it. it.items ≡ downs_of_users serial self.now) }
    {
        downs_of_users(&self.store, self.alloc, serial)
    }

    /// Kills each process that uses the instance of a serial: it leaves, with its name, its mailbox and its open calls.
    /// What clients are told is handed out: that the processes of their calls were killed, process after process in order
    /// of pid.
    ///
    /// # Errors
    ///
    /// `AllocError` where memory is refused. The table is then as it was.
    pub fn kill_users(&mut self, serial: u64) -> Result<(Vec<Reply>, ProcessesUndo), AllocError>
        ensures killed { OnOk result (self.new ≡ without_users serial self.old) }
        ensures told { IfOk result (λ it. it.0.items ≡ downs_of_users serial self.old) }
        ensures inverse { IfOk result (λ it. TakesBackEnds it.1 self.old self.new) }
        ensures pieces { IfOk result (λ it. HoldsLost (held it.1 self.new) self.old self.new) }
        ensures err { OnErr result (self.new ≡ self.old) }
    {
        let (replies, killed) = kill_users(&mut self.store, self.alloc, serial)?;
        Ok((replies, ProcessesUndo::Killed(Row::new(killed))))
    }

    /// Processes that have ended live again.
    fn revert_kill(
        &mut self,
        modules: &Modules<Module>,
        killed: Row<EndedProcess>,
    ) -> Result<(), ProcessesUndo>
        requires { Fits modules.now (ProcessesUndo.Killed killed) self.old }
        ensures ok { OnOk result (self.new ≡ undone modules.now (ProcessesUndo.Killed killed) self.old) }
        ensures kept { OnOk result (LosesNothing modules.now (ProcessesUndo.Killed killed)) }
        ensures back { IfErr result (λ it. it ≡ ProcessesUndo.Killed killed) }
        ensures err { OnErr result (self.new ≡ self.old) }
    {
        match return_all(&mut self.store, self.alloc, modules, killed.into_vec()) {
            Ok(()) => Ok(()),
            Err(killed) => Err(ProcessesUndo::Killed(Row::new(killed))),
        }
    }

    /// Takes the newest step back. A process that has ended lives again, and one that has rested runs again, with the
    /// instances that it used, as they stand in the table of modules; of several that have ended together all live, or
    /// none.
    ///
    /// # Errors
    ///
    /// The undo, where memory is refused, and where an instance that a process used which is to live or to run again is not
    /// in the table of modules. The table is then as it was.
    pub fn revert(
        &mut self,
        modules: &Modules<Module>,
        undo: ProcessesUndo,
    ) -> Result<(), ProcessesUndo>
        requires { Fits modules.now undo self.old }
        ensures ok { OnOk result (self.new ≡ undone modules.now undo self.old) }
        ensures kept { OnOk result (LosesNothing modules.now undo) }
        ensures back { IfErr result (λ it. it ≡ undo) }
        ensures err { OnErr result (self.new ≡ self.old) }
    {
        match undo {
            ProcessesUndo::Started => {
                self.store.remove_last();
                Ok(())
            }
            ProcessesUndo::Arrived { pid, call } => {
                self.store.unarrive(pid, call);
                Ok(())
            }
            ProcessesUndo::Taken { pid, position } => match self.store.untake(pid, position) {
                Ok(()) => Ok(()),
                Err(_) => Err(ProcessesUndo::Taken { pid, position }),
            },
            ProcessesUndo::Rested(rested) => self.revert_rested(modules, rested),
            ProcessesUndo::Exited(exited) => self.revert_exited(modules, exited),
            ProcessesUndo::Batched(batched) => self.revert_batched(batched),
            ProcessesUndo::Killed(killed) => self.revert_kill(modules, killed),
        }
    }
}

// A process.
ghost use Rattle.std.specs.Prelude.{◌≡◌, ◌<◌, ◌≤◌, ◌+◌, ◌++◌, ◌^◌, ◌↔◌, IfOk, OnOk, OnErr, IsTrue, None, Some, length, slice_get};
ghost use Rattle.std.specs.Option.{option_copied};
ghost use Rattle.process.specs.Process.{awaited, IsRunning, next_message, delivered, first_taken, job_of, rested, resumed, run_at, started, suspended, takes_at, undelivered, unrested, untaken};

mod ending;
mod reading;
mod rerunning;
mod restating;

use crate::activity::{Activity, Running};
pub use ending::{CodeRefs, DeadProcess, Did, NamedRunning, ended_processes_live};
use erl_semantics::{Instance, Job, Place, matches};
use erl_term::{Atom, Term};
pub use rerunning::{NamedRan, Used, jobs_run_again};
use std::alloc::{AllocError, Global};
use std::collections::VecDeque;
use std::marker::Model;
use std::mem;
use values::{Duplicate, Row, Same};

/// A process.
pub struct Process {
    // What tells whether it uses an instance lies first, so that a look at every process reads little of each.
    rests_in: Option<Instance>,
    activity: Activity,
    pid: u64,
    name: Option<Atom>,
    place: Place,
    turn: u64,
    mailbox: VecDeque<Term>,
    /// The position of the message that it takes next.
    next: Option<usize>,
}

/// It is taken apart here, so that who drops one above has nothing to prove of its parts.
impl Drop for Process {
    fn drop(self) {
        let Process {
            rests_in: _rests_in,
            activity: _activity,
            pid: _pid,
            name: _name,
            place: _place,
            turn: _turn,
            mailbox: _mailbox,
            next: _next,
        } = self;
    }
}

impl Model for Process {
    ghost use Rattle.std.specs.Prelude.{◌≡◌};
    ghost use Rattle.std.specs.Coded.{codes};
    ghost use Rattle.erl_term.specs.contracts.term.Terms as terms;
    ghost use Rattle.erl_ir.specs.contracts.module.Module as modules;
    ghost use Rattle.process.specs.Process.{ProcessState, awaited};

    ghost Value = { ProcessState };

    ghost coded = { Prim.hlevel (codes, terms.the_row.coded, modules.the_row.coded) };

    ghost view = { λ p. record {
      pid = p.pid;
      name = p.name;
      place = p.place;
      rests_in = p.rests_in;
      activity = p.activity;
      turn = p.turn;
      mailbox = p.mailbox.items;
    } };

    ghost invariant = { λ p. p.next ≡ awaited (record {
      pid = p.pid;
      name = p.name;
      place = p.place;
      rests_in = p.rests_in;
      activity = p.activity;
      turn = p.turn;
      mailbox =
          p.mailbox.items;
    }) };
}

/// What a job leaves behind when its process rests again: where it rested before, and what it ran.
#[derive(Drop)]
pub struct Ran {
    /// The place where the process rested.
    pub place: Place,
    /// The instance of the place, where this is a loop function.
    pub rests_in: Option<Instance>,
    /// What it ran.
    pub running: Running,
}

/// The position of the first message that is taken at a place.
fn first_of(
    alloc: Global,
    pid: u64,
    place: &Place,
    rests_in: Option<&Instance>,
    mailbox: &VecDeque<Term>,
) -> Result<Option<usize>, AllocError>
    ensures { IfOk result (λ it. it ≡ first_taken pid place.now (option_copied rests_in.entry) mailbox.now.items) }
{
    for position in 0..mailbox.len() {
        let Some(message) = mailbox.get(position) else {
            unreachable!()
        };
        if takes(alloc, pid, place, rests_in, message)? {
            return Ok(Some(position));
        }
    }
    Ok(None)
}

/// Whether a message is taken at a place.
fn takes(
    alloc: Global,
    pid: u64,
    place: &Place,
    rests_in: Option<&Instance>,
    message: &Term,
) -> Result<bool, AllocError>
    ensures { IfOk result (λ it. it ≡ takes_at pid place.now (option_copied rests_in.entry) message.now) }
{
    match rests_in {
        Some(item) => matches(alloc, pid, place, std::slice::from_ref(item), message),
        None => matches(alloc, pid, place, &[], message),
    }
}

impl Process {
    /// A process that starts: idle, at turn 0, with nothing in its mailbox. Takes no memory.
    pub fn new(
        alloc: Global,
        pid: u64,
        name: Option<Atom>,
        place: Place,
        rests_in: Option<Instance>,
    ) -> Process
        ensures { result ≡ started pid name place rests_in }
    {
        Process {
            pid,
            name,
            place,
            rests_in,
            activity: Activity::Idle,
            turn: 0,
            mailbox: VecDeque::new(alloc),
            next: None,
        }
    }

    /// Its pid.
    pub fn pid(&self) -> u64
        ensures { result ≡ self.now.pid }
    {
        self.pid
    }

    /// Its name, if it is registered.
    pub fn name(&self) -> Option<&Atom>
        ensures { option_copied result ≡ self.now.name }
    {
        self.name.as_ref()
    }

    /// The place where it rests, or rested when it took the message that it runs.
    pub fn place(&self) -> &Place
        ensures { result.now ≡ self.now.place }
    {
        &self.place
    }

    /// The instance of the place, where this is a loop function.
    pub fn rests_in(&self) -> Option<&Instance>
        ensures { option_copied result ≡ self.now.rests_in }
    {
        self.rests_in.as_ref()
    }

    /// What it does.
    pub fn activity(&self) -> &Activity
        ensures { result.now ≡ self.now.activity }
    {
        &self.activity
    }

    /// How many jobs it has committed.
    pub fn turn(&self) -> u64
        ensures { result ≡ self.now.turn }
    {
        self.turn
    }

    /// How many messages wait in its mailbox.
    pub fn len(&self) -> usize
        ensures { result ≡ length self.now.mailbox }
    {
        self.mailbox.len()
    }

    /// The message at a position of its mailbox, counted from 0, first come first.
    pub fn message(&self, position: usize) -> Option<&Term>
        ensures { option_copied result ≡ slice_get self.now.mailbox position }
    {
        self.mailbox.get(position)
    }

    /// The messages of its mailbox, first come first: those of the first row, and behind them those of the second. Takes no
    /// memory.
    pub fn messages(&self) -> (&[Term], &[Term])
        ensures { result.0.now ++ result.1.now ≡ self.now.mailbox }
    {
        self.mailbox.as_slices()
    }

    /// The position of the message that it would take now: none while it runs, while it is suspended, and where it takes
    /// no message. Evaluates nothing, and takes no memory.
    pub fn next_message(&self) -> Option<usize>
        ensures { result ≡ next_message self.now }
    {
        match &self.activity {
            Activity::Idle => self.next,
            Activity::Suspended | Activity::Runs(_) => None,
        }
    }

    /// The position of the message that it takes next behind one that comes.
    fn next_behind(&self, alloc: Global, message: &Term) -> Result<Option<usize>, AllocError>
        ensures { IfOk result (λ it. it ≡ awaited (delivered message.now self.now)) }
    {
        if let Activity::Runs(_) = &self.activity {
            return Ok(None);
        }
        if let Some(position) = self.next {
            return Ok(Some(position));
        }
        if takes(
            alloc,
            self.pid,
            &self.place,
            self.rests_in.as_ref(),
            message,
        )? {
            return Ok(Some(self.mailbox.len()));
        }
        Ok(None)
    }

    /// A message comes, and goes last.
    ///
    /// # Errors
    ///
    /// `AllocError` where memory is refused. The process is then as it was.
    pub fn deliver(&mut self, alloc: Global, message: Term) -> Result<(), AllocError>
        ensures ok { OnOk result (self.new ≡ delivered message self.old) }
        ensures err { OnErr result (self.new ≡ self.old) }
    {
        let next = self.next_behind(alloc, &message)?;
        match self.mailbox.push_back(message) {
            Ok(()) => {
                self.next = next;
                Ok(())
            }
            Err(_) => Err(AllocError),
        }
    }

    /// The last message goes, if there is one. Takes no memory.
    pub fn undeliver(&mut self)
        ensures { self.new ≡ undelivered self.old }
    {
        let _ = self.mailbox.pop_back();
        if self.next == Some(self.mailbox.len()) {
            self.next = None;
        }
    }

    /// The message at a position is taken: the process runs it, in this code. Takes no memory.
    pub fn take(&mut self, position: usize, entry_serial: u64, code: Row<Instance>)
        ensures { self.new ≡ run_at position entry_serial code self.old }
    {
        if let Some(message) = self.mailbox.remove(position) {
            self.activity = Activity::Runs(Running {
                entry_serial,
                message,
                code,
            });
            self.next = None;
        }
    }

    /// The message that the process runs is back at its position, and the process rests where it rested.
    ///
    /// # Errors
    ///
    /// `AllocError` where memory is refused. The process is then as it was.
    pub fn untake(&mut self, position: usize) -> Result<(), AllocError>
        requires within { position ≤ length self.old.mailbox }
        requires first { awaited (untaken position self.old) ≡ Some position }
        ensures ok { OnOk result (self.new ≡ untaken position self.old) }
        ensures err { OnErr result (self.new ≡ self.old) }
    {
        self.mailbox.reserve(1)?;
        match mem::replace(&mut self.activity, Activity::Idle) {
            Activity::Runs(running) => {
                let Running { message, .. } = running;
                let _ = self.mailbox.insert(position, message);
                self.next = Some(position);
            }
            activity => self.activity = activity,
        }
        Ok(())
    }

    /// It takes no message until it is resumed, where it is idle. Takes no memory.
    pub fn suspend(&mut self)
        ensures { self.new ≡ suspended self.old }
    {
        if let Activity::Idle = &self.activity {
            self.activity = Activity::Suspended;
        }
    }

    /// It is idle again, where it is suspended. Takes no memory.
    pub fn resume(&mut self)
        ensures { self.new ≡ resumed self.old }
    {
        if let Activity::Suspended = &self.activity {
            self.activity = Activity::Idle;
        }
    }

    /// The job that it runs, if it runs.
    ///
    /// # Errors
    ///
    /// `AllocError` where memory is refused.
    pub fn job(&self, alloc: Global) -> Result<Option<Job>, AllocError>
        ensures job { IfOk result (λ it. it ≡ job_of self.now) }
        ensures memory { OnErr result (IsRunning self.now) }
    {
        let Activity::Runs(running) = &self.activity else {
            return Ok(None);
        };
        let place = self.place.copy(alloc)?;
        let message = running.message.copy(alloc)?;
        let code = running.code.copy(alloc)?;
        Ok(Some(Job {
            pid: self.pid,
            turn: self.turn,
            place,
            entry_serial: running.entry_serial,
            message,
            code,
        }))
    }

    /// Whether it runs this job: equal by value, code included. Takes no memory.
    pub fn runs(&self, job: &Job) -> bool
        ensures { IsTrue result ↔ (job_of self.now ≡ Some job.now) }
    {
        match &self.activity {
            Activity::Runs(running) => {
                self.pid == job.pid
                    && self.turn == job.turn
                    && running.entry_serial == job.entry_serial
                    && running.message.same(&job.message)
                    && self.place.same(&job.place)
                    && running.code.same(&job.code)
            }
            Activity::Idle | Activity::Suspended => false,
        }
    }

    /// The position of the message that it takes next, if it comes to rest at a place.
    ///
    /// # Errors
    ///
    /// `AllocError` where memory is refused.
    pub fn next_at(
        &self,
        alloc: Global,
        place: &Place,
        rests_in: Option<&Instance>,
    ) -> Result<Option<usize>, AllocError>
        ensures { IfOk result (λ it. it ≡ first_taken self.now.pid place.now (option_copied rests_in.entry) self.now.mailbox) }
    {
        first_of(alloc, self.pid, place, rests_in, &self.mailbox)
    }

    /// The process rests at a place, one turn on, and takes next the message that [`Process::next_at`] tells. What it ran
    /// is handed out. Takes no memory.
    pub fn rest_next(
        &mut self,
        place: Place,
        rests_in: Option<Instance>,
        next: Option<usize>,
    ) -> Ran
        requires running { IsRunning self.old }
        requires turns { self.old.turn + 1 < 2 ^ 64 }
        requires next { next ≡ first_taken self.old.pid place rests_in self.old.mailbox }
        ensures rested { self.new ≡ rested place rests_in self.old }
        ensures back { unrested result self.new ≡ self.old }
    {
        match mem::replace(&mut self.activity, Activity::Idle) {
            Activity::Runs(running) => {
                self.next = next;
                self.turn += 1;
                Ran {
                    place: mem::replace(&mut self.place, place),
                    rests_in: mem::replace(&mut self.rests_in, rests_in),
                    running,
                }
            }
            Activity::Idle | Activity::Suspended => unreachable!(),
        }
    }

    /// The process runs again what it ran before it rested. Takes no memory.
    pub fn unrest(&mut self, ran: Ran)
        requires { 0 < self.old.turn }
        ensures { self.new ≡ unrested ran self.old }
    {
        let Ran {
            place,
            rests_in,
            running,
        } = ran;
        self.place = place;
        self.rests_in = rests_in;
        self.activity = Activity::Runs(running);
        self.turn -= 1;
        self.next = None;
    }
}

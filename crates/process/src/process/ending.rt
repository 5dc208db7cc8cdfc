// A process that was taken out whole, and one that is made of it again.
ghost use Rattle.std.specs.Prelude.{◌≡◌, IfErr, IfOk, IfSome, Some, map};
ghost use Rattle.std.specs.Option.{option_copied, option_map};
ghost use Rattle.process.specs.Named.{all_found};
ghost use Rattle.process.specs.Process.{awaited};
ghost use Rattle.process.specs.Ended.{EndedProcessesLive, activity_by, code_found, code_named, did_by, ended, ended_with, held, lived, lives, named, rests_found};

use super::{Process, first_of};
use crate::activity::{Activity, Running};
use crate::{CodeRef, instance_of, instances_of, named_of};
use code_server::Modules;
use erl_ir::Module;
use erl_semantics::{Instance, Place};
use erl_term::{Atom, Term};
use std::alloc::{AllocError, Global};
use std::collections::VecDeque;
use std::marker::Model;
use values::{Duplicate, Row};

/// What a process did that was taken out.
#[derive(Drop)]
pub enum Did {
    /// It was idle.
    Idle,
    /// It was suspended.
    Suspended,
    /// It ran the message that it had taken.
    Ran(NamedRunning),
}

/// What a process ran, with its code told by names and serials.
#[derive(Drop)]
pub struct NamedRunning {
    /// The serial of the instance that the place is entered in, or 0 where its module had no current code.
    pub entry_serial: u64,
    /// The message.
    pub message: Term,
    /// What tells the instances of its code, in their order.
    pub code: Row<CodeRef>,
}

/// A process that was taken out whole, so that it can live again. It holds no code: the instances that it used are told by
/// names and serials.
pub struct DeadProcess {
    pid: u64,
    name: Option<Atom>,
    place: Place,
    rests_in: Option<CodeRef>,
    did: Did,
    turn: u64,
    mailbox: VecDeque<Term>,
}

/// It is taken apart here, so that who drops one above has nothing to prove of its parts.
impl Drop for DeadProcess {
    fn drop(self) {
        let DeadProcess {
            pid: _pid,
            name: _name,
            place: _place,
            rests_in: _rests_in,
            did: _did,
            turn: _turn,
            mailbox: _mailbox,
        } = self;
    }
}

impl Model for DeadProcess {
    ghost use Rattle.std.specs.Coded.{codes};
    ghost use Rattle.erl_term.specs.contracts.term.Terms as terms;
    ghost use Rattle.process.specs.Ended.{EndedState};

    ghost Value = { EndedState };

    ghost coded = { Prim.hlevel (codes, terms.the_row.coded) };

    ghost view = { λ e. record {
      pid = e.pid;
      name = e.name;
      place = e.place;
      rests_in = e.rests_in;
      did = e.did;
      turn =
          e.turn;
      mailbox = e.mailbox.items;
    } };
}

/// What tells the instances that a process uses: a name and a serial for each.
#[derive(Drop)]
pub struct CodeRefs {
    /// The instance of its place, where this is a loop function.
    pub rests_in: Option<CodeRef>,
    /// The code that it runs in, in order, where it runs.
    pub code: Row<CodeRef>,
}

/// The instances that an ended process used, and the position of the message that it takes next.
#[derive(Drop)]
struct Found {
    /// The instance of its place.
    rests_in: Option<Instance>,
    /// The code that it runs in.
    code: Row<Instance>,
    /// The position of the message that it takes next.
    next: Option<usize>,
}

/// What tells an instance.
fn name_of(alloc: Global, item: &Instance) -> Result<CodeRef, AllocError>
    ensures { IfOk result (λ it. it ≡ named item.now) }
{
    Ok(CodeRef {
        name: item.name.copy(alloc)?,
        serial: item.serial,
    })
}

/// What tells the instance of a place, where there is one.
fn place_told(alloc: Global, rests_in: Option<&Instance>) -> Result<Option<CodeRef>, AllocError>
    ensures { IfOk result (λ it. it ≡ option_map named (option_copied rests_in.entry)) }
{
    let Some(it) = rests_in else {
        return Ok(None);
    };
    Ok(Some(name_of(alloc, it)?))
}

/// What tells the code that a process runs in.
fn code_told(alloc: Global, activity: &Activity) -> Result<Row<CodeRef>, AllocError>
    ensures { IfOk result (λ it. it ≡ code_named activity.now) }
{
    match activity {
        Activity::Idle | Activity::Suspended => Ok(Row::new(Vec::new(alloc))),
        Activity::Runs(running) => Ok(Row::new(named_of(alloc, running.code.as_slice())?)),
    }
}

/// The instance of a place, where there is one, in the table; none where it is not there.
pub(super) fn place_found(
    alloc: Global,
    modules: &Modules<Module>,
    told: Option<&CodeRef>,
) -> Result<Option<Option<Instance>>, AllocError>
    ensures { IfOk result (λ it. it ≡ rests_found modules.now (option_copied told.entry)) }
{
    let Some(told) = told else {
        return Ok(Some(None));
    };
    match instance_of(alloc, modules, told)? {
        Some(it) => Ok(Some(Some(it))),
        None => Ok(None),
    }
}

/// The code of these names and serials, in the table; none where some of it is not there.
pub(super) fn code_in(
    alloc: Global,
    modules: &Modules<Module>,
    told: &[CodeRef],
) -> Result<Option<Row<Instance>>, AllocError>
    ensures { IfOk result (λ it. it ≡ option_map (map held) (all_found told.now modules.now)) }
{
    match instances_of(alloc, modules, told)? {
        Some(code) => Ok(Some(Row::new(code))),
        None => Ok(None),
    }
}

/// The code that a process runs in, in the table; none where some of it is not there.
fn run_found(
    alloc: Global,
    modules: &Modules<Module>,
    did: &Did,
) -> Result<Option<Row<Instance>>, AllocError>
    ensures { IfOk result (λ it. it ≡ code_found modules.now did.now) }
{
    match did {
        Did::Ran(ran) => code_in(alloc, modules, ran.code.as_slice()),
        Did::Idle | Did::Suspended => Ok(Some(Row::new(Vec::new(alloc)))),
    }
}

impl Process {
    /// What tells the instances that it uses.
    ///
    /// # Errors
    ///
    /// `AllocError` where memory is refused.
    pub fn told(&self, alloc: Global) -> Result<CodeRefs, AllocError>
        ensures { IfOk result (λ told. ended_with told.rests_in told.code self.now ≡ ended self.now) }
    {
        Ok(CodeRefs {
            rests_in: place_told(alloc, self.rests_in.as_ref())?,
            code: code_told(alloc, &self.activity)?,
        })
    }

    /// The process taken out whole, with its instances told so. Takes no memory.
    pub fn into_ended(self, told: CodeRefs) -> DeadProcess
        ensures { result ≡ ended_with told.rests_in told.code self }
    {
        let Process {
            rests_in: _rests_in,
            activity,
            pid,
            name,
            place,
            turn,
            mailbox,
            next: _next,
        } = self;
        let CodeRefs { rests_in, code } = told;
        let did = match activity {
            Activity::Idle => Did::Idle,
            Activity::Suspended => Did::Suspended,
            Activity::Runs(running) => {
                let Running {
                    entry_serial,
                    message,
                    ..
                } = running;
                Did::Ran(NamedRunning {
                    entry_serial,
                    message,
                    code,
                })
            }
        };
        DeadProcess {
            pid,
            name,
            place,
            rests_in,
            did,
            turn,
            mailbox,
        }
    }
}

impl Did {
    /// What the process does again, in this code, and what tells the code.
    fn into_activity(self, alloc: Global, code: Row<Instance>) -> (Activity, Row<CodeRef>)
        ensures activity { result.0 ≡ activity_by code self }
        ensures told { did_by result.1 result.0 ≡ self }
    {
        match self {
            Did::Idle => (Activity::Idle, Row::new(Vec::new(alloc))),
            Did::Suspended => (Activity::Suspended, Row::new(Vec::new(alloc))),
            Did::Ran(ran) => {
                let NamedRunning {
                    entry_serial,
                    message,
                    code: told,
                } = ran;
                let running = Running {
                    entry_serial,
                    message,
                    code,
                };
                (Activity::Runs(running), told)
            }
        }
    }
}

impl DeadProcess {
    /// The instances that it used, in the table, and the message that it takes next; none where one of them is not there.
    fn found(&self, alloc: Global, modules: &Modules<Module>) -> Result<Option<Found>, AllocError>
        ensures is { IfOk result (λ it. IfSome it (λ found. lives modules.now self.now ≡ Some
            (lived found.rests_in found.code self.now))) }
        ensures next { IfOk result (λ it. IfSome it (λ found. found.next ≡ awaited (lived found.rests_in found.code self.now))) }
    {
        let Some(rests_in) = place_found(alloc, modules, self.rests_in.as_ref())? else {
            return Ok(None);
        };
        let Some(code) = run_found(alloc, modules, &self.did)? else {
            return Ok(None);
        };
        let next = match &self.did {
            Did::Ran(_) => None,
            Did::Idle | Did::Suspended => {
                first_of(
                    alloc,
                    self.pid,
                    &self.place,
                    rests_in.as_ref(),
                    &self.mailbox,
                )?
            }
        };
        Ok(Some(Found {
            rests_in,
            code,
            next,
        }))
    }

    /// The process, with these instances, and what tells them.
    fn into_live(self, alloc: Global, found: Found) -> (Process, CodeRefs)
        requires { found.next ≡ awaited (lived found.rests_in found.code self) }
        ensures process { result.0 ≡ lived found.rests_in found.code self }
        ensures told { ended_with result.1.rests_in result.1.code result.0 ≡ self }
    {
        let DeadProcess {
            pid,
            name,
            place,
            rests_in,
            did,
            turn,
            mailbox,
        } = self;
        let (activity, code) = did.into_activity(alloc, found.code);
        let process = Process {
            pid,
            name,
            place,
            rests_in: found.rests_in,
            activity,
            turn,
            mailbox,
            next: found.next,
        };
        (process, CodeRefs { rests_in, code })
    }

    /// The process lives again, with the instances that it used, as they stand in the table. What tells them is handed out
    /// with it, so that [`Process::into_ended`] takes it out again without memory.
    ///
    /// # Errors
    ///
    /// The ended process, as it was, where memory is refused, and where one of the instances is not in the table.
    pub fn live(
        self,
        alloc: Global,
        modules: &Modules<Module>,
    ) -> Result<(Process, CodeRefs), DeadProcess>
        ensures ok { IfOk result (λ it. lives modules.now self ≡ Some it.0) }
        ensures told { IfOk result (λ it. ended_with it.1.rests_in it.1.code it.0 ≡ self) }
        ensures err { IfErr result (λ it. it ≡ self) }
    {
        match self.found(alloc, modules) {
            Ok(Some(found)) => Ok(self.into_live(alloc, found)),
            Ok(None) | Err(_) => Err(self),
        }
    }
}

/// A law: a process that was taken out lives again, whole, where the instances that it uses stand in the table.
pub fn ended_processes_live()
    ensures { EndedProcessesLive }
{}

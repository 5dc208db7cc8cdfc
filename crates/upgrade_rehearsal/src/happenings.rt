// What events cause, as clients and supervisors see it.
ghost use Rattle.std.specs.Prelude.{◌≡◌, [], IfOk, None, Some};
ghost use Rattle.upgrade_rehearsal.specs.Happenings.{exit_by, exit_of, module_at, receiver_of};
ghost use Rattle.erl_semantics.specs.declared.outcome.End.TheVariants as ends;

use erl_semantics::{Done, End, Job, Place};
use erl_term::{Atom, Term};
use node_types::{Event, Note};
use rehearsals::{Exit, Happening};
use std::alloc::{AllocError, Global};
use values::{Duplicate, Row};

/// What is kept of an event before it is performed: what it causes if the node accepts it, and if the node refuses it.
#[derive(Drop)]
pub(crate) struct Ahead {
    /// The exit of the process whose job it commits, if the process ends because of it.
    pub(crate) exit: Option<Exit>,
    /// The name that it sends a message to, if it sends one.
    pub(crate) receiver: Option<Atom>,
}

impl Ahead {
    /// Returns what is kept of an event.
    pub(crate) fn of(alloc: Global, event: &Event) -> Result<Ahead, AllocError>
        ensures exit { IfOk result (λ ahead. ahead.exit ≡ exit_of event.now) }
        ensures receiver { IfOk result (λ ahead. ahead.receiver ≡ receiver_of event.now) }
    {
        let exit = exit_of(alloc, event)?;
        let receiver = receiver_of(alloc, event)?;
        Ok(Ahead { exit, receiver })
    }
}

/// Returns the exit of the process whose job an event commits, if the process ends because of it.
fn exit_of(alloc: Global, event: &Event) -> Result<Option<Exit>, AllocError>
    ensures { IfOk result (λ exit. exit ≡ exit_of event.now) }
{
    match event {
        Event::Commit(done) => exit_by(alloc, done),
        _ => Ok(None),
    }
}

/// Returns the exit of the process of a job, if the process ends because of it.
fn exit_by(alloc: Global, done: &Done) -> Result<Option<Exit>, AllocError>
    ensures { IfOk result (λ exit. exit ≡ exit_by done.now.job done.now.outcome.end) }
{
    match &done.outcome().end {
        End::Exit(reason) => Ok(Some(exit_with(alloc, done.job(), reason)?)),
        _ => Ok(None),
    }
}

/// Returns the exit of the process of a job with this reason.
fn exit_with(alloc: Global, job: &Job, reason: &Term) -> Result<Exit, AllocError>
    ensures { IfOk result (λ exit. Some exit ≡ exit_by job.now (ends.Exit reason.now)) }
{
    let module = module_at(&job.place).copy(alloc)?;
    let message = job.message.copy(alloc)?;
    let reason = reason.copy(alloc)?;
    Ok(Exit {
        pid: job.pid,
        module,
        message,
        reason,
    })
}

/// Returns the module whose code a process enters at a place. Allocates nothing.
fn module_at(place: &Place) -> &Atom
    ensures { result.now ≡ module_at place.now }
{
    match place {
        Place::Server { module, .. } => module,
        Place::Loop { module, .. } => module,
    }
}

/// Returns the name that an event sends a message to, if it sends one.
fn receiver_of(alloc: Global, event: &Event) -> Result<Option<Atom>, AllocError>
    ensures { IfOk result (λ name. name ≡ receiver_of event.now) }
{
    match event {
        Event::Arrive { name, .. } => Ok(Some(name.copy(alloc)?)),
        _ => Ok(None),
    }
}

/// Returns what an accepted event causes: this exit, and the replies of its note. Allocates nothing.
pub(crate) fn accepted(alloc: Global, exit: Option<Exit>, note: Note) -> Happening
    ensures { result ≡ record { replies = note.replies; exit = exit; unheard = None } }
{
    Happening {
        replies: note.into_replies(alloc),
        exit,
        unheard: None,
    }
}

/// Returns what a refused event causes, which sent a message to `receiver`, if it sent one. Allocates nothing.
pub(crate) fn refused(alloc: Global, receiver: Option<Atom>) -> Happening
    ensures { result ≡ record { replies = []; exit = None; unheard = receiver } }
{
    Happening {
        replies: Row::new(Vec::new(alloc)),
        exit: None,
        unheard: receiver,
    }
}

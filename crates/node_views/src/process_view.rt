// What is seen of a process.
ghost use Rattle.std.specs.Prelude.{◌≡◌, ◌++◌, IfOk, OnOk, option_map};
ghost use Rattle.std.specs.Option.{option_copied};
ghost use Rattle.node_views.specs.Views.{doing_of, process_view};

use erl_semantics::Place;
use erl_term::{Atom, Term};
use process::{Activity, Process};
use std::alloc::{AllocError, Global};
use values::{Duplicate, Row, Same};

/// What a process does.
#[derive(Drop)]
pub enum Doing {
    /// It rests.
    Idle,
    /// It rests, and takes no message until it is resumed.
    Suspended,
    /// It runs this message.
    Running(Term),
}

/// What is seen of a process.
#[derive(Drop)]
pub struct ProcessView {
    /// Its pid.
    pub pid: u64,
    /// Its name, if it is registered.
    pub name: Option<Atom>,
    /// Where it rests, or rested when it took the message that it runs.
    pub place: Place,
    /// What it does.
    pub doing: Doing,
    /// How many jobs it has committed.
    pub turn: u64,
    /// The messages that wait for it, first come first.
    pub mailbox: Row<Term>,
}

impl Same for Doing {
    fn same(&self, other: &Doing) -> bool {
        match (self, other) {
            (Doing::Idle, Doing::Idle) => true,
            (Doing::Suspended, Doing::Suspended) => true,
            (Doing::Running(message), Doing::Running(with)) => message.same(with),
            (_, _) => false,
        }
    }
}

impl Same for ProcessView {
    fn same(&self, other: &ProcessView) -> bool {
        self.pid == other.pid
            && self.turn == other.turn
            && self.name.same(&other.name)
            && self.doing.same(&other.doing)
            && self.place.same(&other.place)
            && self.mailbox.same(&other.mailbox)
    }
}

/// What is seen of what a process does.
fn doing_of(alloc: Global, activity: &Activity) -> Result<Doing, AllocError>
    ensures { IfOk result (λ it. it ≡ doing_of activity.now) }
{
    match activity {
        Activity::Idle => Ok(Doing::Idle),
        Activity::Suspended => Ok(Doing::Suspended),
        Activity::Runs(running) => Ok(Doing::Running(running.message.copy(alloc)?)),
    }
}

/// Puts copies of terms behind others.
fn push_copies(alloc: Global, terms: &[Term], found: &mut Vec<Term>) -> Result<(), AllocError>
    ensures { OnOk result (found.new.items ≡ found.old.items ++ terms.now) }
{
    for term in terms {
        found.push(term.copy(alloc)?)?;
    }
    Ok(())
}

/// The messages that wait for a process.
fn mailbox_of(alloc: Global, process: &Process) -> Result<Row<Term>, AllocError>
    ensures { IfOk result (λ it. it ≡ process.now.mailbox) }
{
    let (front, back) = process.messages();
    let mut found = Vec::with_capacity(alloc, process.len())?;
    push_copies(alloc, front, &mut found)?;
    push_copies(alloc, back, &mut found)?;
    Ok(Row::new(found))
}

/// Its name, if it is registered.
fn name_of(alloc: Global, process: &Process) -> Result<Option<Atom>, AllocError>
    ensures { IfOk result (λ it. it ≡ process.now.name) }
{
    match process.name() {
        Some(name) => Ok(Some(name.copy(alloc)?)),
        None => Ok(None),
    }
}

impl ProcessView {
    /// What is seen of a process.
    ///
    /// # Errors
    ///
    /// `AllocError` where memory is refused.
    pub fn of(alloc: Global, process: &Process) -> Result<ProcessView, AllocError>
        ensures { IfOk result (λ it. it ≡ process_view process.now) }
    {
        Ok(ProcessView {
            pid: process.pid(),
            name: name_of(alloc, process)?,
            place: process.place().copy(alloc)?,
            doing: doing_of(alloc, process.activity())?,
            turn: process.turn(),
            mailbox: mailbox_of(alloc, process)?,
        })
    }
}

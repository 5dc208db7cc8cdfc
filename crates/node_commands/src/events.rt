// Events that commands perform.
ghost use Rattle.std.specs.Prelude.{◌≡◌, ℕ, IfOk, None, OnErr, Some};
ghost use Rattle.erl_semantics.specs.declared.jobs.Job.{Job};
ghost use Rattle.node_history.specs.History.{IsCalled, IsPerformed, IsTaken, IsNext, TakesAny, TakesOf};
ghost use Rattle.node_history.specs.declared.command.Said.TheVariants as said;
ghost use Rattle.node_commands.specs.Acting.{GivesBy, IsOne, IsTried};
ghost use Rattle.node_types.specs.declared.event.Answer.TheVariants as tells;
ghost use Rattle.node_types.specs.declared.event.Event.TheVariants as event;
ghost use Rattle.process_table.specs.declared.body.ClientMessage.TheVariants as body;

use crate::fault::fault_of;
use crate::given::{Given, Thrice, reserve_three, three_of, unstepped};
use erl_semantics::Job;
use erl_term::{Atom, Term};
use node_core::Node;
use node_history::{Fault, KeptAnswer, Said};
use node_types::{Answer, Event, Note};
use process_table::ClientMessage;
use std::alloc::{AllocError, Global};
use undo_journal::{Journal, Told};
use values::{Boxed, Duplicate, Reserved};

/// Performs an event, and tells of it in three values, or why it is refused.
///
/// # Errors
///
/// `AllocError` where memory is refused. The journal is then as it was.
fn try_event(
    alloc: Global,
    journal: &mut Journal<Node>,
    event: &Event,
) -> Result<Result<Thrice<Told<Answer, Note>>, Fault>, AllocError>
    ensures tried { IfOk result (λ r. IsTried journal.old event.now r journal.new) }
    ensures err { OnErr result (journal.new ≡ journal.old) }
{
    match journal.perform(event, 3) {
        Ok(told) => Ok(Ok(three_of(told))),
        Err(error) => Ok(Err(fault_of(alloc, error)?)),
    }
}

/// An event is performed.
///
/// # Errors
///
/// `AllocError` where memory is refused. The journal is then as it was.
pub(crate) fn perform(
    alloc: Global,
    journal: &mut Journal<Node>,
    event: &Event,
) -> Result<Given, AllocError>
    ensures given { IfOk result (λ g. GivesBy IsPerformed journal.old event.now g journal.new) }
    ensures err { OnErr result (journal.new ≡ journal.old) }
{
    let rooms = reserve_three(alloc)?;
    match try_event(alloc, journal, event)? {
        Ok(told) => Ok(performed(rooms, told)),
        Err(fault) => unstepped(alloc, Err(fault)),
    }
}

/// What is told of an event, as it is.
fn performed(rooms: Thrice<Reserved<Answer>>, told: Thrice<Told<Answer, Note>>) -> Given
    ensures entered { result.entered ≡ Ok (said.Performed told.first.answer) }
    ensures listed { result.listed ≡ Ok (said.Performed told.second.answer) }
    ensures told { result.told ≡ Ok (said.Performed told.third.answer) }
    ensures note { result.note ≡ Some told.first.note }
{
    let Thrice {
        first: room,
        second: other_room,
        third: last_room,
    } = rooms;
    let Thrice {
        first,
        second,
        third,
    } = told;
    let Told { answer, note } = first;
    Given {
        entered: Ok(performed_as(room, answer)),
        listed: Ok(performed_as(other_room, second.answer)),
        told: Ok(performed_as(last_room, third.answer)),
        note: Some(note),
    }
}

/// What is told of an event, kept.
fn performed_as(room: Reserved<Answer>, answer: Answer) -> Said
    ensures { result ≡ said.Performed answer }
{
    Said::Performed(KeptAnswer::new(room, answer))
}

/// The arrival of a call.
///
/// # Errors
///
/// `AllocError` where memory is refused.
fn arrival_of(
    alloc: Global,
    client: u64,
    number: u64,
    name: &Atom,
    term: &Term,
) -> Result<Event, AllocError>
    ensures { IfOk result (λ it. it ≡ event.Arrive client name.now (body.Call number term.now)) }
{
    let name = name.copy(alloc)?;
    let term = term.copy(alloc)?;
    Ok(Event::Arrive {
        client,
        name,
        body: ClientMessage::Call { number, term },
    })
}

/// A call of a client comes under a number for the process of a name.
///
/// # Errors
///
/// `AllocError` where memory is refused. The journal is then as it was.
pub(crate) fn call(
    alloc: Global,
    journal: &mut Journal<Node>,
    client: u64,
    number: u64,
    name: &Atom,
    term: &Term,
) -> Result<Given, AllocError>
    ensures given { IfOk result (λ g.
        GivesBy (IsCalled number) journal.old (event.Arrive client name.now (body.Call number term.now)) g journal.new) }
    ensures err { OnErr result (journal.new ≡ journal.old) }
{
    let arrival = arrival_of(alloc, client, number, name, term)?;
    call_by(alloc, journal, number, &arrival)
}

/// A call comes by its arrival.
///
/// # Errors
///
/// `AllocError` where memory is refused. The journal is then as it was.
fn call_by(
    alloc: Global,
    journal: &mut Journal<Node>,
    number: u64,
    arrival: &Event,
) -> Result<Given, AllocError>
    ensures given { IfOk result (λ g. GivesBy (IsCalled number) journal.old arrival.now g journal.new) }
    ensures err { OnErr result (journal.new ≡ journal.old) }
{
    match try_event(alloc, journal, arrival)? {
        Ok(told) => Ok(called(number, told.first.note)),
        Err(fault) => unstepped(alloc, Err(fault)),
    }
}

/// A call is told by its number.
fn called(number: u64, note: Note) -> Given
    ensures one { (result.entered ≡ Ok (said.Called number)) × IsOne result }
    ensures note { result.note ≡ Some note }
{
    Given {
        entered: Ok(Said::Called(number)),
        listed: Ok(Said::Called(number)),
        told: Ok(Said::Called(number)),
        note: Some(note),
    }
}

/// The process that is next: of those that could take a message that with the least pid above another, else that with
/// the least of all. Takes no memory.
fn next_of(node: &Node, above: u64) -> Option<u64>
    ensures { IsNext above result node.now.processes }
{
    match node.runnable(above) {
        None if above > 0 => node.runnable(0),
        next => next,
    }
}

/// A process takes its next message, and is told by its job.
///
/// # Errors
///
/// `AllocError` where memory is refused. The journal is then as it was.
fn take(alloc: Global, journal: &mut Journal<Node>, pid: u64) -> Result<Given, AllocError>
    ensures given { IfOk result (λ g. GivesBy IsTaken journal.old (event.Take pid) g journal.new) }
    ensures err { OnErr result (journal.new ≡ journal.old) }
{
    take_by(alloc, journal, &Event::Take(pid))
}

/// A message is taken by an event, and told by its job, where the event tells one.
///
/// # Errors
///
/// `AllocError` where memory is refused. The journal is then as it was.
fn take_by(alloc: Global, journal: &mut Journal<Node>, taking: &Event) -> Result<Given, AllocError>
    ensures given { (pid : ℕ) → taking.now ≡ event.Take pid →
        IfOk result (λ g. GivesBy IsTaken journal.old taking.now g journal.new) }
    ensures err { OnErr result (journal.new ≡ journal.old) }
{
    let rooms = reserve_three(alloc)?;
    match try_event(alloc, journal, taking)? {
        Ok(told) => Ok(taken(rooms, told)),
        Err(fault) => unstepped(alloc, Err(fault)),
    }
}

/// The job that an answer tells.
fn job_in(room: Reserved<Job>, answer: Answer) -> Option<Boxed<Job>>
    ensures { (job : Job) → answer ≡ tells.Job job → result ≡ Some job }
{
    match answer {
        Answer::Job(job) => Some(room.fill(job)),
        _ => None,
    }
}

/// What is told of a take.
fn taken(rooms: Thrice<Reserved<Job>>, told: Thrice<Told<Answer, Note>>) -> Given
    ensures entered { (job : Job) → told.first.answer ≡ tells.Job job → result.entered ≡ Ok (said.Taken (Some job)) }
    ensures listed { (job : Job) → told.second.answer ≡ tells.Job job → result.listed ≡ Ok (said.Taken (Some job)) }
    ensures told { (job : Job) → told.third.answer ≡ tells.Job job → result.told ≡ Ok (said.Taken (Some job)) }
    ensures note { result.note ≡ Some told.first.note }
{
    let Thrice {
        first: room,
        second: other_room,
        third: last_room,
    } = rooms;
    let Thrice {
        first,
        second,
        third,
    } = told;
    let Told { answer, note } = first;
    Given {
        entered: Ok(taken_as(room, answer)),
        listed: Ok(taken_as(other_room, second.answer)),
        told: Ok(taken_as(last_room, third.answer)),
        note: Some(note),
    }
}

/// The job that an answer tells, as a take's.
fn taken_as(room: Reserved<Job>, answer: Answer) -> Said
    ensures { (job : Job) → answer ≡ tells.Job job → result ≡ said.Taken (Some job) }
{
    Said::Taken(job_in(room, answer))
}

/// A process takes its next message, if there is one.
///
/// # Errors
///
/// `AllocError` where memory is refused. The journal is then as it was.
fn take_of(
    alloc: Global,
    journal: &mut Journal<Node>,
    who: Option<u64>,
) -> Result<Given, AllocError>
    ensures given { IfOk result (λ g. TakesOf who journal.old g.entered g.note journal.new × IsOne g) }
    ensures err { OnErr result (journal.new ≡ journal.old) }
{
    match who {
        None => unstepped(alloc, Ok(Said::Taken(None))),
        Some(pid) => take(alloc, journal, pid),
    }
}

/// The process that is next takes its next message, where one could take any.
///
/// # Errors
///
/// `AllocError` where memory is refused. The journal is then as it was.
pub(crate) fn take_any(
    alloc: Global,
    journal: &mut Journal<Node>,
    above: u64,
) -> Result<Given, AllocError>
    ensures given { IfOk result (λ g. TakesAny above journal.old g.entered g.note journal.new × IsOne g) }
    ensures err { OnErr result (journal.new ≡ journal.old) }
{
    let who = next_of(journal.state(), above);
    take_of(alloc, journal, who)
}

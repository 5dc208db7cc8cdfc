// Steps of the node.
ghost use Rattle.std.specs.Prelude.{◌≡◌, ◌<◌, ◌++◌, ◌∷◌, [], IfErr, IfOk, OnErr, OnOk, length, vec_capacity, vec_len};
ghost use Rattle.shell_steps.specs.Halts.{Halts, halt_by};
ghost use Rattle.shell_steps.specs.State.{ShellState, joined};
ghost use Rattle.shell_steps.specs.Stepping.{IsTold};

use node_core::Node;
use node_types::{Answer, Event, Note, Refusal};
use process_effects::Reply;
use std::alloc::Global;
use undo_journal::{Journal, JournalError, Reversible, Told};
use values::Row;

/// Why an event was not performed.
#[derive(Drop)]
pub enum Halt {
    /// No serial is left for a step.
    Full,
    /// The node's rule refuses it.
    Refused(Refusal),
    /// Memory was refused, and nothing stands against the event that is told without memory.
    Memory,
}

/// Performs an event, and hands out what is told of it. There is room for a row of its replies then.
///
/// # Errors
///
/// Why it was not performed. All is then as it was.
pub fn step(
    journal: &mut Journal<Node>,
    sent: &mut Vec<Row<Reply>>,
    event: &Event,
) -> Result<Told<Answer, Note>, Halt>
    ensures told { IfOk result (λ told. (s : ShellState) → s.timeline ≡ journal.old → IsTold told s event.now journal.new) }
    ensures halted { IfErr result (λ halt. (s : ShellState) → s.timeline ≡ journal.old → Halts halt s event.now) }
    ensures err { OnErr result (journal.new ≡ journal.old) }
    ensures sent { joined sent.new.items ≡ joined sent.old.items }
    ensures room { OnOk result (vec_len sent.new < vec_capacity sent.new) }
{
    if sent.reserve(1).is_err() {
        return Err(halt_of(journal, event));
    }
    match journal.perform(event, 1) {
        Ok(told) => Ok(only_told(told)),
        Err(error) => Err(halt_by(error)),
    }
}

/// The only value that tells of an event.
fn only_told(mut told: Vec<Told<Answer, Note>>) -> Told<Answer, Note>
    requires { length told.items ≡ 1 }
    ensures { told.items ≡ result ∷ [] }
{
    match told.pop() {
        Some(only) => only,
        None => unreachable!(),
    }
}

/// What stands against an event that is told without memory, or else want of it.
pub fn halt_of(journal: &Journal<Node>, event: &Event) -> Halt
    ensures { (s : ShellState) → s.timeline ≡ journal.now → Halts result s event.now }
{
    if journal.is_full() {
        return Halt::Full;
    }
    match journal.state().refusal(event) {
        Some(why) => Halt::Refused(why),
        None => Halt::Memory,
    }
}

/// Why an event was not performed, by the journal's error. No event has a dead mark.
fn halt_by(error: JournalError<Refusal, Note>) -> Halt
    ensures { result ≡ halt_by error }
{
    match error {
        JournalError::Step(why) => Halt::Refused(why),
        JournalError::SerialEnd => Halt::Full,
        JournalError::Memory { .. } | JournalError::Forgotten | JournalError::DeadMark => {
            Halt::Memory
        }
    }
}

/// Moves replies into the last row that was sent, if there is one, and memory for that. Amortized, it costs a move of each.
fn join_last(sent: &mut Vec<Row<Reply>>, replies: &mut Vec<Reply>)
    requires { vec_len sent.old < vec_capacity sent.old }
    ensures all { joined sent.new.items ++ replies.new.items ≡ joined sent.old.items ++ replies.old.items }
    ensures room { vec_len sent.new < vec_capacity sent.new }
{
    let Some(last) = sent.pop() else {
        return;
    };
    let mut last = last.into_vec();
    let _ = last.append(replies);
    sent.push_reserved(Row::new(last));
}

/// Sends replies, for whose row there is room: they join the last row, or are one where they can't. There is no row of none.
fn send(sent: &mut Vec<Row<Reply>>, replies: Row<Reply>)
    requires { vec_len sent.old < vec_capacity sent.old }
    ensures { joined sent.new.items ≡ joined sent.old.items ++ replies }
{
    let mut replies = replies.into_vec();
    join_last(sent, &mut replies);
    if !replies.as_slice().is_empty() {
        sent.push_reserved(Row::new(replies));
    }
}

/// Sends the replies of what tells of an event, for whose row there is room, and hands the answer out.
pub fn send_told(alloc: Global, sent: &mut Vec<Row<Reply>>, told: Told<Answer, Note>) -> Answer
    requires { vec_len sent.old < vec_capacity sent.old }
    ensures answer { result ≡ told.answer }
    ensures sent { joined sent.new.items ≡ joined sent.old.items ++ told.note.replies }
{
    let Told { answer, note } = told;
    send(sent, note.into_replies(alloc));
    answer
}

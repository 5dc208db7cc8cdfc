// Idle commands: a take of nothing, and a look at no replies.
ghost use Rattle.node_history.specs.History.{IsIdleCommand};
ghost use Rattle.std.specs.Prelude.{◌≡◌, ◌↔◌, [], IsTrue, None};

use crate::command::{Command, Fault, Said};
use crate::entry::{Entry, Line};
use entry_lists::{Repeats, Replying};
use process_effects::Reply;

/// Whether an answer says that nobody could take a message.
fn took_nothing(answer: &Result<Said, Fault>) -> bool
    ensures { IsTrue result ↔ (answer.now ≡ Ok (Said.Taken None)) }
{
    matches!(answer, Ok(Said::Taken(None)))
}

/// Whether an answer has no replies.
fn found_no_reply(answer: &Result<Said, Fault>) -> bool
    ensures { IsTrue result ↔ (answer.now ≡ Ok (Said.Replied [])) }
{
    match answer {
        Ok(Said::Replied(replies)) => replies.get().as_slice().is_empty(),
        _ => false,
    }
}

/// Whether a command and its answer are an idle command, a take of nothing or a look at no replies, and another command and its
/// answer are the same.
fn is_same_idle_command(
    command: &Command,
    answer: &Result<Said, Fault>,
    other: &Command,
    told: &Result<Said, Fault>,
) -> bool
    ensures { IsTrue result ↔ (command.now ≡ other.now) × (answer.now ≡ told.now) × IsIdleCommand command.now answer.now }
{
    match (command, other) {
        (Command::TakeAny(above), Command::TakeAny(after)) => {
            above == after && took_nothing(answer) && took_nothing(told)
        }
        (Command::Replies(from), Command::Replies(start)) => {
            from == start && found_no_reply(answer) && found_no_reply(told)
        }
        _ => false,
    }
}

/// An entry of an idle command says the same as another where both are of one seat, and without a note.
impl Repeats for Entry {
    ghost use Rattle.node_history.specs.History.{IsIdleEntry};

    ghost IsIdle = { IsIdleEntry };

    fn repeats(&self, other: &Entry) -> bool {
        self.seat == other.seat
            && self.note.is_none()
            && other.note.is_none()
            && is_same_idle_command(&self.command, &self.answer, &other.command, &other.answer)
    }
}

impl Replying for Entry {
    ghost use Rattle.std.proofs.Common.{ap};
    ghost use Rattle.node_history.specs.History.{replies_in};

    type Reply = Reply;

    ghost replies_of = { λ e. replies_in e.note };

    ghost client_of = { λ reply. reply.client };

    ghost idle_without_replies = { λ e idle. ap replies_in idle.1 };

    fn replies(&self) -> &[Reply] {
        match &self.note {
            None => &[],
            Some(note) => note.replies(),
        }
    }

    fn client(reply: &Reply) -> u64 {
        reply.client
    }
}

impl Repeats for Line {
    ghost use Rattle.node_history.specs.History.{IsIdleLine};

    ghost IsIdle = { IsIdleLine };

    fn repeats(&self, other: &Line) -> bool {
        is_same_idle_command(&self.command, &self.answer, &other.command, &other.answer)
    }
}

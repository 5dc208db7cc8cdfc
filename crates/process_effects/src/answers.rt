// The replies that a job has given, each to the client of its call.
ghost use Rattle.std.specs.Prelude.{◌≡◌, ◌+◌, ◌<◌, ◌≤◌, ◌++◌, [], IfOk, OnErr, OnOk, option_to_list, vec_capacity, vec_len};
ghost use Rattle.process_effects.specs.Acts.{answered, reply_of};
ghost use Rattle.process_effects.specs.Parted.{AllReopen, act_answers, all_answered, all_reclosed, all_reopened, answers_of, answers_told};
ghost use Rattle.process_store.specs.Changes.{owner_of};
ghost use Rattle.smallvec.specs.SmallVec.{HasRoomFor, small_vec_len};

use crate::told::{Reply, ReplyBody};
use erl_semantics::Act;
use erl_term::Term;
use process_index::Call;
use process_store::ProcessStore;
use smallvec::SmallVec;
use std::alloc::{AllocError, Global};
use values::Duplicate;

/// A reply, and the number of the call that it is for.
#[derive(Drop)]
pub struct Answer {
    /// The number.
    pub number: u64,
    /// The reply.
    pub reply: Term,
}

/// A call that was closed, and the process that it was open to.
#[derive(Drop)]
pub struct Closed {
    /// The process.
    pub pid: u64,
    /// The call.
    pub call: Call,
}

/// What stands in a list where it keeps no item.
impl Default for Closed {
    fn default() -> Closed {
        Closed {
            pid: 0,
            call: Call {
                client: 0,
                number: 0,
            },
        }
    }
}

/// The reply that an act gives, if it is one.
fn answer_of(alloc: Global, act: &Act) -> Result<Option<Answer>, AllocError>
    ensures { IfOk result (λ it. option_to_list it ≡ act_answers act.now) }
{
    let Act::Reply { number, term } = act else {
        return Ok(None);
    };
    Ok(Some(Answer {
        number: *number,
        reply: term.copy(alloc)?,
    }))
}

/// The replies among these acts, in order.
///
/// # Errors
///
/// `AllocError` where memory is refused.
pub fn answers_of(alloc: Global, acts: &[Act]) -> Result<Vec<Answer>, AllocError>
    ensures { IfOk result (λ it. it.items ≡ answers_of acts.now) }
{
    let mut answers = Vec::new(alloc);
    for act in acts {
        if let Some(answer) = answer_of(alloc, act)? {
            answers.push(answer)?;
        }
    }
    Ok(answers)
}

/// Closes the call that a reply is for, where it is open, and tells its client. There is room for what is told and noted.
fn answer_call(
    store: &mut ProcessStore,
    replies: &mut Vec<Reply>,
    closed: &mut SmallVec<Closed, 1>,
    answer: Answer,
)
    requires replies { vec_len replies.old < vec_capacity replies.old }
    requires closed { HasRoomFor closed.old 1 }
    ensures answered { store.new ≡ answered answer.number store.old }
    ensures told { replies.new.items ≡ replies.old.items ++ reply_of answer.reply (owner_of answer.number store.old) }
    ensures fits { AllReopen closed.old.items store.old → AllReopen closed.new.items store.new }
    ensures back { all_reopened closed.new.items store.new ≡ all_reopened closed.old.items store.old }
    ensures replies_room { (vec_len replies.new ≤ vec_len replies.old + 1) ×
        (vec_capacity replies.new ≡ vec_capacity replies.old) }
    ensures closed_room { (small_vec_len closed.new ≤ small_vec_len closed.old + 1) ×
        (closed.new.capacity ≡ closed.old.capacity) }
{
    let Answer { number, reply } = answer;
    if let Some((pid, call)) = store.close(number) {
        closed.push_reserved(Closed { pid, call });
        replies.push_reserved(Reply {
            client: call.client,
            number: call.number,
            body: ReplyBody::Reply(reply),
        });
    }
}

/// Closes the calls that replies are for, in order, and tells their clients. There is room for what is told and noted.
pub fn answer_all(
    store: &mut ProcessStore,
    replies: &mut Vec<Reply>,
    closed: &mut SmallVec<Closed, 1>,
    answers: Vec<Answer>,
)
    requires replies { vec_len replies.old + vec_len answers ≤ vec_capacity replies.old }
    requires closed { HasRoomFor closed.old (vec_len answers) }
    requires none { closed.old.items ≡ [] }
    ensures answered { store.new ≡ all_answered answers.items store.old }
    ensures told { replies.new.items ≡ replies.old.items ++ answers_told answers.items store.old }
    ensures fits { AllReopen closed.new.items store.new }
    ensures back { all_reopened closed.new.items store.new ≡ store.old }
    ensures room { (vec_len replies.new ≤ vec_len replies.old + vec_len answers) ×
        (vec_capacity replies.new ≡ vec_capacity replies.old) }
{
    for each in answers {
        answer_call(store, replies, closed, each);
    }
}

/// Closes these calls again, in order. Takes no memory.
fn close_again(store: &mut ProcessStore, closed: &[Closed])
    ensures { store.new ≡ all_reclosed closed.now store.old }
{
    for each in closed {
        store.close(each.call.number);
    }
}

/// Opens these calls again, the last of them first.
///
/// # Errors
///
/// `AllocError` where memory is refused. The processes are then as they were.
pub fn reopen_all(store: &mut ProcessStore, closed: &[Closed]) -> Result<(), AllocError>
    requires { AllReopen closed.now store.old }
    ensures ok { OnOk result (store.new ≡ all_reopened closed.now store.old) }
    ensures again { OnOk result (all_reclosed closed.now store.new ≡ store.old) }
    ensures err { OnErr result (store.new ≡ store.old) }
{
    for index in (0..closed.len()).rev() {
        let each = &closed[index];
        if let Err(refused) = store.reopen(each.pid, each.call) {
            close_again(store, &closed[index + 1..]);
            return Err(refused);
        }
    }
    Ok(())
}

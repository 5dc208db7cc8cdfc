// What a job has done is done to the processes.
ghost use Rattle.std.specs.Prelude.{◌≡◌, ◌+◌, ◌≤◌, IfOk, OnErr, OnOk, vec_capacity, vec_len};
ghost use Rattle.process_effects.specs.Parted.{AllReopen, acts_sent, all_answered, all_reopened, all_unsent, answers_of, answers_told};

use crate::answers::{Closed, answer_all, answers_of};
use crate::sends::send_all;
use crate::told::Reply;
use erl_semantics::Act;
use few_lists::Few;
use process_store::ProcessStore;
use smallvec::SmallVec;
use std::alloc::{AllocError, Global};

/// What the acts of a job have come to.
#[derive(Drop)]
pub(crate) struct Acted {
    /// What clients are told.
    pub(crate) replies: Vec<Reply>,
    /// Whom messages were sent to, in order.
    pub(crate) receivers: SmallVec<u64, 2>,
    /// The calls that were closed, in order.
    pub(crate) closed: Few<Closed, 1>,
}

/// Does acts, in order: first the messages, but for those to one process, if one is spared, and then the replies. There is
/// room for more replies then.
///
/// # Errors
///
/// `AllocError` where memory is refused. The processes are then as they were.
pub(crate) fn act_all(
    store: &mut ProcessStore,
    alloc: Global,
    spared: Option<u64>,
    acts: &[Act],
    more: usize,
) -> Result<Acted, AllocError>
    ensures table { OnOk result (store.new ≡ all_answered (answers_of acts.now) (acts_sent spared acts.now store.old)) }
    ensures told { IfOk result (λ it. it.replies.items ≡ answers_told (answers_of acts.now)
        (acts_sent spared acts.now store.old)) }
    ensures fits { IfOk result (λ it. AllReopen it.closed store.new) }
    ensures back { IfOk result (λ it. all_unsent it.receivers.items (all_reopened it.closed store.new) ≡ store.old) }
    ensures room { IfOk result (λ it. vec_len it.replies + more ≤ vec_capacity it.replies) }
    ensures err { OnErr result (store.new ≡ store.old) }
{
    let answers = answers_of(alloc, acts)?;
    let Some(room) = answers.len().checked_add(more) else {
        return Err(AllocError);
    };
    let mut replies = Vec::with_capacity(alloc, room)?;
    let mut closed = SmallVec::with_capacity(alloc, answers.len())?;
    let receivers = send_all(store, alloc, spared, acts)?;
    answer_all(store, &mut replies, &mut closed, answers);
    Ok(Acted {
        replies,
        receivers,
        closed: Few::new(closed),
    })
}

// Changes of the processes that stand together or are given up together.
ghost use Rattle.std.specs.Prelude.{◌≡◌, ◌≤◌, ◌++◌, [], IfErr, IfOk, List, OnErr, OnOk, false, vec_capacity};
ghost use Rattle.process_effects.specs.Parted.{all_answered, answers_told};
ghost use Rattle.process_effects.specs.declared.told.Reply.{Reply as ReplyValue};
ghost use Rattle.process_store.specs.Table.{Table, is_taken};
ghost use Rattle.process_effects.specs.Batches.{AllFit, CanUnbatch, FitsOne, all_undone, change_undone, unbatched};
ghost use Rattle.process_effects.specs.Begins.{CanGiveUp, IsUnderWay, acts_begun, begun_told};

use crate::answers::{Answer, Closed, answer_all, reopen_all};
use crate::change::Addition;
use crate::making::make_all;
use crate::told::Reply;
use erl_semantics::{Act, Instance};
use erl_term::Atom;
use few_lists::Few;
use process_store::ProcessStore;
use smallvec::SmallVec;
use std::alloc::{AllocError, Global};
use values::Row;

/// Changes of the processes that are under way: they stand together ([`finish`]) or are given up together ([`give_up`]).
#[derive(Drop)]
pub struct Batch {
    /// What was done, in order.
    pub changes: SmallVec<Addition, 2>,
    /// The replies that are left to give, in order.
    pub answers: Vec<Answer>,
}

/// What takes back changes that stand.
#[derive(Drop)]
pub struct Batched {
    /// What was done, in order.
    pub changes: Few<Addition, 2>,
    /// The calls that were closed by replies, in order.
    pub closed: Few<Closed, 1>,
}

impl Batch {
    /// No changes.
    pub fn new(alloc: Global) -> Batch
        ensures { (t : Table) → IsUnderWay result.changes.items result.answers.items t t t [] }
    {
        Batch {
            changes: SmallVec::new(alloc),
            answers: Vec::new(alloc),
        }
    }
}

/// Does what evaluating has done: its acts, in order, but for its replies, which clients are told when the batch is
/// finished. What it starts rests in an instance of this code, and has this name, which is free, if it is to have one.
///
/// # Errors
///
/// `AllocError` where memory is refused. The batch is then as far as it came, and can only be given up.
pub fn begin(
    store: &mut ProcessStore,
    alloc: Global,
    batch: &mut Batch,
    name: Option<Atom>,
    code: &[Instance],
    acts: Row<Act>,
) -> Result<(), AllocError>
    requires { is_taken name store.old ≡ false }
    ensures ok { OnOk result ((before after : Table) (told : List ReplyValue) →
        IsUnderWay batch.old.changes.items batch.old.answers.items before store.old after told →
        IsUnderWay batch.new.changes.items batch.new.answers.items before store.new (acts_begun name code.now acts after)
        (told ++ begun_told name code.now acts after)) }
    ensures err { (before : Table) → CanGiveUp batch.old.changes.items before store.old →
        CanGiveUp batch.new.changes.items before store.new }
{
    let acts = acts.into_vec();
    make_all(
        store,
        alloc,
        &mut batch.changes,
        &mut batch.answers,
        name,
        code,
        acts,
    )?;
    Ok(())
}

/// Takes one change back. Takes no memory.
fn take_back(store: &mut ProcessStore, change: &Addition)
    requires { FitsOne change.now store.old }
    ensures { store.new ≡ change_undone change.now store.old }
{
    match change {
        Addition::Sent(pid) => store.undeliver(*pid),
        Addition::Started => store.remove_last(),
    }
}

/// Takes changes back, the last of them first. Takes no memory.
fn take_all_back(store: &mut ProcessStore, changes: &[Addition])
    requires { AllFit changes.now store.old }
    ensures { store.new ≡ all_undone changes.now store.old }
{
    for index in (0..changes.len()).rev() {
        take_back(store, &changes[index]);
    }
}

/// Gives a batch up: the processes are as they were before it. Takes no memory.
pub fn give_up(store: &mut ProcessStore, batch: Batch)
    requires { AllFit batch.changes.items store.old }
    ensures { store.new ≡ all_undone batch.changes.items store.old }
{
    take_all_back(store, batch.changes.as_slice());
}

/// Room for so many replies and closed calls.
fn room(alloc: Global, count: usize) -> Result<(Vec<Reply>, SmallVec<Closed, 1>), AllocError>
    ensures none { IfOk result (λ it. (it.0.items ≡ []) × (it.1.items ≡ [])) }
    ensures room { IfOk result (λ it. (count ≤ vec_capacity it.0) × (count ≤ it.1.capacity)) }
{
    let replies = Vec::with_capacity(alloc, count)?;
    let closed = SmallVec::with_capacity(alloc, count)?;
    Ok((replies, closed))
}

/// Finishes a batch: its replies are given, in order, and all that it has done stands. What clients are told is handed out.
///
/// # Errors
///
/// `AllocError` where memory is refused. The batch is then given up.
pub fn finish(
    store: &mut ProcessStore,
    alloc: Global,
    batch: Batch,
) -> Result<(Vec<Reply>, Batched), AllocError>
    requires { AllFit batch.changes.items store.old }
    ensures ok { OnOk result (store.new ≡ all_answered batch.answers.items store.old) }
    ensures told { IfOk result (λ it. it.0.items ≡ answers_told batch.answers.items store.old) }
    ensures fits { IfOk result (λ it. CanUnbatch it.1 store.new) }
    ensures back { IfOk result (λ it. unbatched it.1 store.new ≡ all_undone batch.changes.items store.old) }
    ensures err { OnErr result (store.new ≡ all_undone batch.changes.items store.old) }
{
    let Batch { changes, answers } = batch;
    match room(alloc, answers.len()) {
        Ok((mut replies, mut closed)) => {
            answer_all(store, &mut replies, &mut closed, answers);
            let batched = Batched {
                changes: Few::new(changes),
                closed: Few::new(closed),
            };
            Ok((replies, batched))
        }
        Err(refused) => {
            take_all_back(store, changes.as_slice());
            Err(refused)
        }
    }
}

/// Takes changes back that stand: the calls are open again, the processes that were started are gone, and the messages.
///
/// # Errors
///
/// What takes them back, where memory is refused. The processes are then as they were.
pub fn revert_batch(store: &mut ProcessStore, batched: Batched) -> Result<(), Batched>
    requires { CanUnbatch batched store.old }
    ensures ok { OnOk result (store.new ≡ unbatched batched store.old) }
    ensures back { IfErr result (λ it. it ≡ batched) }
    ensures err { OnErr result (store.new ≡ store.old) }
{
    match reopen_all(store, batched.closed.as_slice()) {
        Ok(()) => {
            take_all_back(store, batched.changes.as_slice());
            Ok(())
        }
        Err(_) => Err(batched),
    }
}

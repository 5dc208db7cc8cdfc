// Acts are done, but for their replies.
ghost use Rattle.std.specs.Prelude.{◌≡◌, ◌++◌, ◌∷◌, [], IfOk, OnErr, OnOk, Some, false};
ghost use Rattle.process_effects.specs.Acts.{receiver_of, sent};
ghost use Rattle.process_effects.specs.Commits.{rests_in};
ghost use Rattle.process_effects.specs.Parted.{act_answers, answers_of};
ghost use Rattle.process_effects.specs.Batches.{AllFit, all_undone};
ghost use Rattle.process_effects.specs.Begins.{act_made, acts_made, name_left};
ghost use Rattle.process_store.specs.Table.{added, is_taken};

use crate::answers::Answer;
use crate::change::Addition;
use crate::resting::rests_in;
use crate::sends::receiver_of;
use erl_semantics::{Act, Instance, Place, Receiver};
use erl_term::{Atom, Term};
use process_store::ProcessStore;
use smallvec::SmallVec;
use std::alloc::{AllocError, Global};

/// Sends a message to the process of a pid, and notes it.
fn send_to(
    store: &mut ProcessStore,
    changes: &mut SmallVec<Addition, 2>,
    pid: u64,
    message: Term,
) -> Result<(), AllocError>
    ensures ok { OnOk result (store.new ≡ sent message (Some pid) store.old) }
    ensures back { all_undone changes.new.items store.new ≡ all_undone changes.old.items store.old }
    ensures fits { AllFit changes.old.items store.old → AllFit changes.new.items store.new }
    ensures err { OnErr result (store.new ≡ store.old) }
{
    changes.push(Addition::Sent(pid))?;
    match store.deliver(pid, message) {
        Ok(()) => Ok(()),
        Err(refused) => {
            changes.pop();
            Err(refused)
        }
    }
}

/// Sends a message, where it has a receiver, and notes it.
fn send(
    store: &mut ProcessStore,
    changes: &mut SmallVec<Addition, 2>,
    to: &Receiver,
    message: Term,
) -> Result<(), AllocError>
    ensures ok { OnOk result (store.new ≡ sent message (receiver_of to.now store.old) store.old) }
    ensures back { all_undone changes.new.items store.new ≡ all_undone changes.old.items store.old }
    ensures fits { AllFit changes.old.items store.old → AllFit changes.new.items store.new }
    ensures err { OnErr result (store.new ≡ store.old) }
{
    match receiver_of(store, to) {
        Some(pid) => {
            send_to(store, changes, pid, message)?;
            Ok(())
        }
        None => Ok(()),
    }
}

/// Starts a process at a place, under a name that is free, if it is to have one, and notes it. It fails where memory is
/// refused, and where every pid was given.
fn start(
    store: &mut ProcessStore,
    alloc: Global,
    changes: &mut SmallVec<Addition, 2>,
    name: Option<Atom>,
    place: Place,
    code: &[Instance],
) -> Result<(), AllocError>
    requires { is_taken name store.old ≡ false }
    ensures ok { OnOk result (store.new ≡ added name place (rests_in place code.now) store.old) }
    ensures back { all_undone changes.new.items store.new ≡ all_undone changes.old.items store.old }
    ensures fits { AllFit changes.old.items store.old → AllFit changes.new.items store.new }
    ensures err { OnErr result (store.new ≡ store.old) }
{
    if store.last_pid() == u64::MAX {
        return Err(AllocError);
    }
    let rests_in = rests_in(alloc, &place, code)?;
    changes.push(Addition::Started)?;
    match store.add(name, place, rests_in) {
        Ok(_) => Ok(()),
        Err(refused) => {
            changes.pop();
            Err(refused)
        }
    }
}

/// Does one act, but for a reply, which is noted. What name is left to give is handed out.
fn make_one(
    store: &mut ProcessStore,
    alloc: Global,
    changes: &mut SmallVec<Addition, 2>,
    answers: &mut Vec<Answer>,
    name: Option<Atom>,
    code: &[Instance],
    act: Act,
) -> Result<Option<Atom>, AllocError>
    requires { is_taken name store.old ≡ false }
    ensures ok { OnOk result (store.new ≡ act_made name code.now act store.old) }
    ensures name { IfOk result (λ left. left ≡ name_left name act) }
    ensures free { IfOk result (λ left. is_taken left store.new ≡ false) }
    ensures answers { OnOk result (answers.new.items ≡ answers.old.items ++ act_answers act) }
    ensures back { all_undone changes.new.items store.new ≡ all_undone changes.old.items store.old }
    ensures fits { AllFit changes.old.items store.old → AllFit changes.new.items store.new }
{
    match act {
        Act::Send { to, term } => {
            send(store, changes, &to, term)?;
            Ok(name)
        }
        Act::Reply { number, term } => {
            answers.push(Answer {
                number,
                reply: term,
            })?;
            Ok(name)
        }
        Act::Start { place } => {
            start(store, alloc, changes, name, place, code)?;
            Ok(None)
        }
        Act::Name { .. } => Ok(name),
    }
}

/// Does acts, in order, but for replies, which are noted. What they start has this name, which is free, if it is to have one.
///
/// # Errors
///
/// `AllocError` where memory is refused. What was done up to there is noted.
pub(crate) fn make_all(
    store: &mut ProcessStore,
    alloc: Global,
    changes: &mut SmallVec<Addition, 2>,
    answers: &mut Vec<Answer>,
    name: Option<Atom>,
    code: &[Instance],
    acts: Vec<Act>,
) -> Result<(), AllocError>
    requires { is_taken name store.old ≡ false }
    ensures ok { OnOk result (store.new ≡ acts_made name code.now acts.items store.old) }
    ensures answers { OnOk result (answers.new.items ≡ answers.old.items ++ answers_of acts.items) }
    ensures back { all_undone changes.new.items store.new ≡ all_undone changes.old.items store.old }
    ensures fits { AllFit changes.old.items store.old → AllFit changes.new.items store.new }
{
    let mut name = name;
    for act in acts {
        name = make_one(store, alloc, changes, answers, name, code, act)?;
    }
    Ok(())
}

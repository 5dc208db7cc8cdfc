// The messages that a job has sent, each to the process that it is for.
ghost use Rattle.std.specs.Prelude.{◌≡◌, ◌++◌, ◌∷◌, [], IfOk, OnErr, OnOk, None, Some};
ghost use Rattle.process_effects.specs.Acts.{receiver_of, sent};
ghost use Rattle.process_effects.specs.Parted.{act_sent, acts_sent, all_unsent, other_than};
ghost use Rattle.process_store.specs.Living.{unarrived};
ghost use Rattle.process_store.specs.Table.{changed};

use erl_semantics::{Act, Receiver};
use erl_term::Term;
use process_store::ProcessStore;
use smallvec::SmallVec;
use std::alloc::{AllocError, Global};
use values::Duplicate;

/// The pid of the process that a message is for; none where nobody has the name. Takes no memory.
pub fn receiver_of(store: &ProcessStore, to: &Receiver) -> Option<u64>
    ensures { result ≡ receiver_of to.now store.now }
{
    match to {
        Receiver::Named(name) => store.pid_of(name.as_str()),
        Receiver::Process(pid) => Some(*pid),
    }
}

/// The same, where it is not the one that is spared.
fn other_than(spared: Option<u64>, receiver: Option<u64>) -> Option<u64>
    ensures { result ≡ other_than spared receiver }
{
    let Some(spared) = spared else {
        return receiver;
    };
    let Some(pid) = receiver else {
        return None;
    };
    if pid == spared {
        return None;
    }
    Some(pid)
}

/// Sends a message to the process of a pid, and notes whom it was sent to.
fn send_to(
    store: &mut ProcessStore,
    alloc: Global,
    receivers: &mut SmallVec<u64, 2>,
    pid: u64,
    message: &Term,
) -> Result<(), AllocError>
    ensures ok { OnOk result (store.new ≡ sent message.now (Some pid) store.old) }
    ensures noted { OnOk result (receivers.new.items ≡ receivers.old.items ++ pid ∷ []) }
    ensures back { OnOk result (changed (unarrived None) pid store.new ≡ store.old) }
    ensures err { OnErr result (store.new ≡ store.old) }
    ensures unnoted { OnErr result (receivers.new.items ≡ receivers.old.items) }
{
    let message = message.copy(alloc)?;
    receivers.push(pid)?;
    match store.deliver(pid, message) {
        Ok(()) => Ok(()),
        Err(refused) => {
            receivers.pop();
            Err(refused)
        }
    }
}

/// Does an act, if it is a message, to a process that is not spared.
fn send(
    store: &mut ProcessStore,
    alloc: Global,
    spared: Option<u64>,
    receivers: &mut SmallVec<u64, 2>,
    act: &Act,
) -> Result<(), AllocError>
    ensures ok { OnOk result (store.new ≡ act_sent spared act.now store.old) }
    ensures back { OnOk result (all_unsent receivers.new.items store.new ≡ all_unsent receivers.old.items store.old) }
    ensures err { OnErr result (store.new ≡ store.old) }
    ensures unnoted { OnErr result (receivers.new.items ≡ receivers.old.items) }
{
    let Act::Send { to, term } = act else {
        return Ok(());
    };
    match other_than(spared, receiver_of(store, to)) {
        Some(pid) => {
            send_to(store, alloc, receivers, pid, term)?;
            Ok(())
        }
        None => Ok(()),
    }
}

/// The last messages of these processes go, the last of them first. Takes no memory.
pub(crate) fn unsend_all(store: &mut ProcessStore, receivers: &[u64])
    ensures { store.new ≡ all_unsent receivers.now store.old }
{
    for index in (0..receivers.len()).rev() {
        store.undeliver(receivers[index]);
    }
}

/// Sends the messages among these acts, in order, but for those to one process, if one is spared. Whom they went to is
/// handed out.
///
/// # Errors
///
/// `AllocError` where memory is refused. The processes are then as they were.
pub(crate) fn send_all(
    store: &mut ProcessStore,
    alloc: Global,
    spared: Option<u64>,
    acts: &[Act],
) -> Result<SmallVec<u64, 2>, AllocError>
    ensures ok { OnOk result (store.new ≡ acts_sent spared acts.now store.old) }
    ensures back { IfOk result (λ receivers. all_unsent receivers.items store.new ≡ store.old) }
    ensures err { OnErr result (store.new ≡ store.old) }
{
    let mut receivers = SmallVec::new(alloc);
    for act in acts {
        if let Err(refused) = send(store, alloc, spared, &mut receivers, act) {
            unsend_all(store, receivers.as_slice());
            return Err(refused);
        }
    }
    Ok(receivers)
}

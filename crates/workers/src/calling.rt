// A client: it calls, and waits for its reply.
ghost use Rattle.std.specs.Prelude.{◌≡◌, IfErr, IfOk};
ghost use Rattle.workers.specs.Calling.{Awaits, CallFails, Calls, LookFails, Looks, WaitFails, is_followed};

use crate::error::WorkError;
use crate::reading::{end_of_reads, reply_to};
use erl_term::{Atom, Term};
use node_lock::{Naming, Seat, SharedNode};
use process_effects::Reply;
use std::alloc::Global;
use std::sync::Wait;
use std::thread;
use std::time::{Clock, Duration};
use values::Duplicate;

/// So many waits pause but for a moment, and are followed by a read each.
const QUICK_WAITS: u64 = 32;

/// Behind those each wait whose number is a multiple of this one is followed by a read.
const WAITS_A_READ: u64 = 64;

/// How long each wait behind the quick ones pauses, in microseconds.
const PAUSE: u64 = 50;

/// The pause of a wait, counted from 1.
fn pause<R: Clock>(rt: &R, wait: u64) {
    if wait <= QUICK_WAITS {
        thread::yield_now();
    } else {
        thread::sleep(rt, Duration::from_micros(PAUSE));
    }
}

/// Whether a wait, counted from 1, is followed by a read.
fn reads(wait: u64) -> bool
    ensures { result ≡ is_followed wait }
{
    wait <= QUICK_WAITS || wait % WAITS_A_READ == 0
}

/// Reads the replies from an index on, and looks for the reply to the call of a number. Where it isn't there, the index
/// is then that where the read ended.
///
/// # Errors
///
/// `Memory`, also where replies can't be counted further.
#[tactic(auto, using(crate::proofs::Unanswered::look_fails))]
fn look<N: Naming, R: Wait>(
    rt: &R,
    alloc: Global,
    shared: &SharedNode<N>,
    seat: &mut Seat<N>,
    number: u64,
    from: &mut usize,
) -> Result<Option<Reply>, WorkError>
    ensures looked { IfOk result (λ found. Looks number from.old from.new found seat.old seat.new) }
    ensures fails { IfErr result (λ why. LookFails number from.old seat.old seat.new why) }
{
    let replies = shared.replies(rt, seat, *from)?;
    let replies = replies.get().as_slice();
    if let Some(reply) = reply_to(replies, number) {
        return Ok(Some(reply.copy(alloc)?));
    }
    *from = from.checked_add(replies.len()).ok_or(WorkError::Memory)?;
    Ok(None)
}

/// Waits for the reply to the call of a number, and reads from an index on.
///
/// # Errors
///
/// As [`call`].
#[tactic(auto, using(crate::proofs::MoreReads::reads_laws, crate::proofs::Unanswered::wait_fails))]
fn wait_for<N: Naming, R: Wait + Clock>(
    rt: &R,
    alloc: Global,
    shared: &SharedNode<N>,
    seat: &mut Seat<N>,
    number: u64,
    first: usize,
    waits: u64,
) -> Result<Reply, WorkError>
    ensures came { IfOk result (λ reply. Awaits number first seat.old seat.new reply) }
    ensures fails { IfErr result (λ why. WaitFails number first waits seat.old seat.new why) }
{
    let mut from = first;
    for wait in 0..waits {
        pause(rt, wait + 1);
        if !reads(wait + 1) {
            continue;
        }
        if let Some(reply) = look(rt, alloc, shared, seat, number, &mut from)? {
            return Ok(reply);
        }
    }
    Err(WorkError::NoReply)
}

/// Calls the process of a name, and waits for the reply, for so many waits.
///
/// A wait is a pause, of a moment at first, then of 50 microseconds. The replies are read after each of the first 32
/// waits, and then after every 64th, from where the seat's last read ended that brought some. No contract says that a
/// reply comes.
///
/// # Errors
///
/// `Lock` where the node refuses the call. `NoReply` where no reply has come in all waits, also where another seat has
/// undone the call's arrival. `Memory` where memory is refused, or replies can't be counted further; the call stands.
#[tactic(auto, using(crate::proofs::MoreReads::calls, crate::proofs::Unanswered::call_fails))]
pub fn call<N: Naming, R: Wait + Clock>(
    rt: &R,
    alloc: Global,
    shared: &SharedNode<N>,
    seat: &mut Seat<N>,
    name: Atom,
    term: Term,
    waits: u64,
) -> Result<Reply, WorkError>
    ensures called { IfOk result (λ reply. Calls name term seat.old seat.new reply) }
    ensures fails { IfErr result (λ why. CallFails name term waits seat.old seat.new why) }
{
    let from = end_of_reads(seat.lines());
    let number = shared.call(rt, alloc, seat, name, term)?;
    wait_for(rt, alloc, shared, seat, number, from, waits)
}

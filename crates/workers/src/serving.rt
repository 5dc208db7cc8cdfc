// Workers: they run the jobs of a node's processes.
ghost use Rattle.std.specs.Prelude.{◌≡◌, ◌-◌, ◌<◌, ◌^◌, ◌↔◌, IfOk, IsTrue};
ghost use Rattle.node_lock.specs.declared.error.LockError.TheVariants.{Journal};
ghost use Rattle.node_types.specs.declared.event.Refusal.TheVariants.{OfProcesses};
ghost use Rattle.process_table.specs.declared.error.ProcError.TheVariants.{Stale};
ghost use Rattle.undo_journal.specs.declared.error.JournalError.TheVariants.{Step};
ghost use Rattle.workers.specs.Serving.{Commits, IsRound, Serves, Works, above_round_end, counted, total};

use crate::error::WorkError;
use crate::gate::Gate;
use callback_lang::run;
use erl_semantics::{Done, Job};
use node_lock::{LockError, Naming, Seat, SharedNode};
use node_types::{Event, Refusal};
use process_table::ProcError;
use std::alloc::Global;
use std::sync::Wait;
use undo_journal::JournalError;

/// What rounds of a worker came to: how many of each kind there were.
#[derive(Clone, Copy, Debug, PartialEq, Eq)]
pub struct Served {
    /// A job was taken, and its result was committed.
    pub committed: u64,
    /// A job was taken, and its result came too late: the node didn't wait for it any more.
    pub stale: u64,
    /// Nobody could take a message.
    pub idle: u64,
}

/// What one round came to.
#[derive(Drop)]
enum RoundEnd {
    /// Nobody could take a message.
    Idle,
    /// The process of this pid took a message, and the result of its job was committed.
    Committed(u64),
    /// The process of this pid took a message, and the result of its job came too late.
    Late(u64),
}

impl RoundEnd {
    /// The pid above which the next round looks, after one that looked above `above`.
    fn next_above(&self, above: u64) -> u64
        ensures { result ≡ above_round_end above self.now }
    {
        match self {
            RoundEnd::Idle => above,
            RoundEnd::Committed(pid) | RoundEnd::Late(pid) => *pid,
        }
    }
}

impl Served {
    /// No rounds.
    fn nothing() -> Served
        ensures { result ≡ record { committed = 0; stale = 0; idle = 0 } }
    {
        Served {
            committed: 0,
            stale: 0,
            idle: 0,
        }
    }

    /// These rounds and one more.
    fn and(self, round_end: &RoundEnd) -> Served
        requires { total self < 2 ^ 64 - 1 }
        ensures { result ≡ counted round_end.now self }
    {
        let Served {
            committed,
            stale,
            idle,
        } = self;
        match round_end {
            RoundEnd::Idle => Served {
                committed,
                stale,
                idle: idle + 1,
            },
            RoundEnd::Committed(_) => Served {
                committed: committed + 1,
                stale,
                idle,
            },
            RoundEnd::Late(_) => Served {
                committed,
                stale: stale + 1,
                idle,
            },
        }
    }
}

/// Whether a commit is refused since no process runs its job any more.
fn is_stale(why: &Refusal) -> bool
    ensures { IsTrue result ↔ (why.now ≡ OfProcesses Stale) }
{
    matches!(why, Refusal::OfProcesses(ProcError::Stale))
}

/// Whether a commit came too late.
fn is_late(error: &LockError) -> bool
    ensures { IsTrue result ↔ (error.now ≡ Journal (Step (OfProcesses Stale))) }
{
    match error {
        LockError::Journal(JournalError::Step(why)) => is_stale(why.get()),
        _ => false,
    }
}

/// Commits what a job gave. Answers whether it was accepted, and not too late.
///
/// # Errors
///
/// `Lock` where the node refuses it otherwise; `Memory`.
fn commit<N: Naming, R: Wait>(
    rt: &R,
    alloc: Global,
    shared: &SharedNode<N>,
    seat: &mut Seat<N>,
    done: Done,
) -> Result<bool, WorkError>
    ensures { IfOk result (λ accepted. Commits done accepted seat.old seat.new) }
{
    match shared.perform(rt, alloc, seat, Event::Commit(done)) {
        Ok(answer) => {
            drop(answer);
            Ok(true)
        }
        Err(error) => {
            if is_late(&error) {
                return Ok(false);
            }
            Err(WorkError::from(error))
        }
    }
}

/// Runs a job that was got, without the lock, and commits its result.
///
/// # Errors
///
/// `GateClosed` where the gate doesn't let the job pass; `Lock` where the node refuses the commit otherwise than as too
/// late; `Memory`.
fn work<N: Naming, G: Gate, R: Wait>(
    rt: &R,
    alloc: Global,
    shared: &SharedNode<N>,
    seat: &mut Seat<N>,
    gate: &G,
    job: &Job,
) -> Result<RoundEnd, WorkError>
    ensures { IfOk result (λ round_end. Works job.now round_end seat.old seat.new) }
{
    if !gate.before_run(job) {
        return Err(WorkError::GateClosed);
    }
    let done = run(alloc, job)?;
    if !commit(rt, alloc, shared, seat, done)? {
        return Ok(RoundEnd::Late(job.pid));
    }
    gate.after_commit(job);
    Ok(RoundEnd::Committed(job.pid))
}

/// One round of a worker: the next process above a pid takes its next message, the job is run without the lock, and its
/// result is committed.
///
/// # Errors
///
/// `GateClosed` where the gate doesn't let the job pass; `Lock` where the node refuses the take or the commit; `Memory`.
#[tactic(auto, using(crate::proofs::MoreRounds::rounds_idle, crate::proofs::MoreRounds::rounds_worked))]
fn one_round<N: Naming, G: Gate, R: Wait>(
    rt: &R,
    alloc: Global,
    shared: &SharedNode<N>,
    seat: &mut Seat<N>,
    gate: &G,
    above: u64,
) -> Result<RoundEnd, WorkError>
    ensures { IfOk result (λ round_end. IsRound above round_end seat.old seat.new) }
{
    let Some(job) = shared.take_any(rt, seat, above)? else {
        return Ok(RoundEnd::Idle);
    };
    let round_end = work(rt, alloc, shared, seat, gate, job.get());
    drop(job);
    round_end
}

/// Has a seat serve a node for so many rounds.
///
/// In a round the process that is next takes its next message: of those that could take one that with the least pid above
/// the last that the worker got, else that with the least of all. Its job is run without the lock, and the result is
/// committed; it may come too late. A round in which nobody could take a message is idle.
///
/// # Errors
///
/// `GateClosed` where the gate doesn't let a job pass, `Lock` where the node refuses a take, or a commit otherwise than
/// as too late, and `Memory` where memory is refused. A job that was got then stays with its process, which runs it, for
/// a retake.
#[tactic(auto, using(crate::proofs::MoreRounds::serves_nothing, crate::proofs::MoreRounds::serves_more))]
pub fn serve<N: Naming, G: Gate, R: Wait>(
    rt: &R,
    alloc: Global,
    shared: &SharedNode<N>,
    seat: &mut Seat<N>,
    gate: &G,
    rounds: u64,
) -> Result<Served, WorkError>
    ensures { IfOk result (λ served. Serves rounds seat.old seat.new served) }
{
    let mut served = Served::nothing();
    let mut above = 0;
    for _ in 0..rounds {
        let round_end = one_round(rt, alloc, shared, seat, gate, above)?;
        served = served.and(&round_end);
        above = round_end.next_above(above);
    }
    Ok(served)
}

// A driver: it carries an install to its end.
ghost use Rattle.std.specs.Prelude.{◌≡◌, ◌↔◌, IfErr, IfOk, IsTrue, OnOk};
ghost use Rattle.workers.specs.Installing.{AdvanceFails, Advances, BeginFails, Begins, DriveFails, Drives, InstallFails};
ghost use Rattle.workers.specs.Installing.{IsBusy, MeetsEnd, advanced_by};

use crate::error::WorkError;
use erl_term::Term;
use node_lock::{LockError, Naming, Seat, SharedNode};
use node_types::{Answer, Event, Refusal};
use release_statuses::Vsn;
use release_words::Version;
use std::alloc::Global;
use std::sync::Wait;
use std::thread;
use std::time::{Clock, Duration};
use undo_journal::JournalError;

/// How long a driver waits for a process that runs, in milliseconds, before it advances the install again.
const BUSY_PAUSE: u64 = 5;

/// What an install has come to.
#[derive(Drop)]
pub enum InstallEnd {
    /// The script is finished, and the release is installed.
    Installed {
        /// The version that the script's entry in its relup names: that which was upgraded from, or downgraded to.
        vsn: Version,
        /// What describes the entry.
        description: Term,
    },
    /// An instruction has failed for this reason, before the point of no return, and the script is given up.
    Recovered(Term),
    /// An instruction has failed for this reason, behind the point of no return, and the node has restarted.
    Restarted(Term),
}

/// What one advance came to.
#[derive(Drop)]
enum Advanced {
    /// The install has ended.
    Ended(InstallEnd),
    /// Something was done.
    Went,
    /// A process runs that is to be suspended.
    Busy,
}

/// What the answer to an advance tells.
fn told(answer: Answer) -> Advanced
    ensures { result ≡ advanced_by answer }
{
    match answer {
        Answer::Finished { vsn, description } => Advanced::Ended(InstallEnd::Installed {
            vsn,
            description,
        }),
        Answer::Recovered(reason) => Advanced::Ended(InstallEnd::Recovered(reason)),
        Answer::Restarted(reason) => Advanced::Ended(InstallEnd::Restarted(reason)),
        _ => Advanced::Went,
    }
}

/// Whether an advance is refused since a process runs that is to be suspended.
fn is_busy(error: &LockError) -> bool
    ensures { IsTrue result ↔ IsBusy error.now }
{
    match error {
        LockError::Journal(JournalError::Step(why)) => matches!(why.get(), Refusal::Busy(_)),
        _ => false,
    }
}

/// Advances an install once; processes that run are waited for as long as an answer Busy is left to be met with patience.
///
/// # Errors
///
/// `Lock` where the node refuses it otherwise than as busy; `Memory`.
#[tactic(auto, using(crate::proofs::Halted::advance_fails))]
fn advance<N: Naming, R: Wait>(
    rt: &R,
    alloc: Global,
    shared: &SharedNode<N>,
    seat: &mut Seat<N>,
    left: u64,
) -> Result<Advanced, WorkError>
    ensures advanced { IfOk result (λ it. Advances left it seat.old seat.new) }
    ensures fails { IfErr result (λ why. AdvanceFails left seat.old seat.new why) }
{
    let event = Event::Advance { give_up: left == 0 };
    match shared.perform(rt, alloc, seat, event) {
        Ok(answer) => Ok(told(answer)),
        Err(error) => {
            if is_busy(&error) {
                return Ok(Advanced::Busy);
            }
            Err(WorkError::from(error))
        }
    }
}

/// Advances an install that has begun until it ends.
///
/// # Errors
///
/// As [`drive_install`].
#[tactic(auto, using(crate::proofs::MoreAdvances::advances_laws, crate::proofs::Halted::drive_fails))]
fn drive<N: Naming, R: Wait + Clock>(
    rt: &R,
    alloc: Global,
    shared: &SharedNode<N>,
    seat: &mut Seat<N>,
    patience: u64,
) -> Result<InstallEnd, WorkError>
    ensures met { IfOk result (λ end. MeetsEnd patience seat.old seat.new end) }
    ensures fails { IfErr result (λ why. DriveFails patience seat.old seat.new why) }
{
    let mut left = patience;
    for _ in rt.forever() {
        match advance(rt, alloc, shared, seat, left)? {
            Advanced::Ended(end) => return Ok(end),
            Advanced::Went => {}
            Advanced::Busy => {
                thread::sleep(rt, Duration::from_millis(BUSY_PAUSE));
                left = left.saturating_sub(1);
            }
        }
    }
    unreachable!()
}

/// Begins the install of the release of a version.
///
/// # Errors
///
/// `Lock` where the node refuses it; `Memory`.
#[tactic(auto, using(crate::proofs::Halted::begin_fails))]
fn begin<N: Naming, R: Wait>(
    rt: &R,
    alloc: Global,
    shared: &SharedNode<N>,
    seat: &mut Seat<N>,
    vsn: Vsn,
) -> Result<(), WorkError>
    ensures begun { OnOk result (Begins vsn seat.old seat.new) }
    ensures fails { IfErr result (λ why. BeginFails vsn seat.old seat.new why) }
{
    let answer = shared.perform(rt, alloc, seat, Event::Install(vsn))?;
    drop(answer);
    Ok(())
}

/// Installs the release of a version, and advances the install until it ends.
///
/// Where a process runs that is to be suspended, it waits five milliseconds before it advances again. After `patience`
/// such answers in all it waits for no process any more: those that run are passed over. No contract says that the
/// install ends. Another seat may undo it, and the next advance is then refused.
///
/// # Errors
///
/// `Lock` where the node refuses the install, or an advance otherwise than as busy, and `Memory` where memory is
/// refused. An install that has begun then stands where it is.
#[tactic(auto, using(crate::proofs::MoreAdvances::drives, crate::proofs::Halted::install_fails))]
pub fn drive_install<N: Naming, R: Wait + Clock>(
    rt: &R,
    alloc: Global,
    shared: &SharedNode<N>,
    seat: &mut Seat<N>,
    vsn: Vsn,
    patience: u64,
) -> Result<InstallEnd, WorkError>
    ensures driven { IfOk result (λ end. Drives vsn patience seat.old seat.new end) }
    ensures fails { IfErr result (λ why. InstallFails vsn patience seat.old seat.new why) }
{
    begin(rt, alloc, shared, seat, vsn)?;
    drive(rt, alloc, shared, seat, patience)
}

// The trial of instructions while jobs run.
ghost use Rattle.std.specs.Prelude.{◌≡◌, IfOk, OnOk};
ghost use Rattle.upgrade_rehearsal.specs.Going.{Extends};
ghost use Rattle.upgrade_rehearsal.specs.Players.{IsBackAt, IsBookmark, stage_of};
ghost use Rattle.upgrade_rehearsal.specs.Seen.{GoesWithJobs, IsTried};

use crate::advancing::{advance, waiting_for};
use crate::arrival::Arrival;
use crate::halting::Halt;
use crate::player::{Bookmark, Player};
use rehearsals::{JobsRun, Outcome};

/// Tries the next instruction while every process that has a message of the traffic to take runs a job, and goes back to where
/// it began. Returns `None` if no process has a message to take.
pub(crate) fn try_with_jobs(
    player: &mut Player,
    traffic: &[Arrival],
    bookmark: Bookmark,
) -> Result<Option<JobsRun>, Halt>
    requires { IsBookmark bookmark player.old }
    ensures tried { IfOk result (IsTried traffic.now (stage_of player.old)) }
    ensures back { OnOk result (IsBackAt player.old player.new) }
{
    let tried = go_on_laden(player, traffic)?;
    player.undo(bookmark)?;
    Ok(tried)
}

/// Sends all of the traffic, has every process take a message, and advances the script. Returns `None` if no process takes one.
fn go_on_laden(player: &mut Player, traffic: &[Arrival]) -> Result<Option<JobsRun>, Halt>
    ensures tried { IfOk result (IsTried traffic.now (stage_of player.old)) }
    ensures journal { OnOk result (Extends player.old.journal player.new.journal) }
{
    player.arrive_all(traffic)?;
    let jobs = player.take_all()?;
    if jobs == 0 {
        return Ok(None);
    }
    Ok(Some(go_on_with_jobs(player, jobs)?))
}

/// Advances the script while so many jobs run. If it waits for one of them, the script is advanced once more and waits for none.
fn go_on_with_jobs(player: &mut Player, jobs: u64) -> Result<JobsRun, Halt>
    ensures run { IfOk result (λ run. GoesWithJobs run.waits_for run.outcome (stage_of player.old)) }
    ensures jobs { IfOk result (λ run. run.jobs ≡ jobs) }
    ensures journal { OnOk result (Extends player.old.journal player.new.journal) }
{
    let first = advance(player, false)?;
    match waiting_for(&first) {
        Some(pid) => Ok(JobsRun {
            jobs,
            waits_for: Some(pid),
            outcome: advance(player, true)?,
        }),
        None => Ok(JobsRun {
            jobs,
            waits_for: None,
            outcome: first,
        }),
    }
}

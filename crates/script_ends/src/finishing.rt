// A script is finished.
ghost use Rattle.std.specs.Prelude.{◌≡◌, IfErr, IfOk, IsSome, OnErr, OnOk, map};
ghost use Rattle.process_table.specs.States.{all_unresumed};
ghost use Rattle.release_statuses.specs.Statuses.{index_of};
ghost use Rattle.release_statuses.specs.Undo.{Fits, IsRemoval, undone};
ghost use Rattle.script_ends.specs.Ends.{FinishBack, processes_finished, releases_finished};
ghost use Rattle.script_state.specs.Runner.{runner_of};

use crate::ending::Finish;
use process_table::{Processes, Resumed};
use release_statuses::Releases;
use script_state::Runner;
use std::alloc::{AllocError, Global};
use values::Row;

/// The processes that are to be resumed, in order.
fn to_resume(alloc: Global, suspended: &[u64]) -> Result<Vec<Resumed>, AllocError>
    ensures { IfOk result (λ it. map (λ r. r.pid) it.items ≡ suspended.now) }
{
    let mut resumed = Vec::with_capacity(alloc, suspended.len())?;
    for pid in suspended {
        resumed.push(Resumed {
            pid: *pid,
            was_suspended: false,
        })?;
    }
    Ok(resumed)
}

/// A script is finished: the processes that it has suspended and not resumed take messages again, where they live, and the
/// release is current, or stays permanent; what was current is old. The release is one that is known.
///
/// # Errors
///
/// The script, where memory is refused. The processes and the releases are then as they were.
pub fn finish(
    processes: &mut Processes,
    releases: &mut Releases,
    alloc: Global,
    runner: Runner,
) -> Result<Finish, Runner>
    requires { IsSome (index_of runner.target releases.old) }
    ensures processes { OnOk result (processes.new ≡ processes_finished (runner_of runner) processes.old) }
    ensures releases { OnOk result (releases.new ≡ releases_finished (runner_of runner) releases.old) }
    ensures back { IfOk result
        (λ undo. FinishBack undo (runner_of runner) processes.old processes.new releases.old releases.new) }
    ensures given_back { IfErr result (λ it. it ≡ runner) }
    ensures err { OnErr result ((processes.new ≡ processes.old) × (releases.new ≡ releases.old)) }
{
    let Ok(mut resumed) = to_resume(alloc, runner.progress.suspended.as_slice()) else {
        return Err(runner);
    };
    let Ok(statuses) = releases.installed(runner.target.as_str()) else {
        return Err(runner);
    };
    processes.resume_noting(resumed.as_mut_slice());
    Ok(Finish {
        runner,
        resumed: Row::new(resumed),
        statuses,
    })
}

/// Takes the end of a script back that was finished: the processes are suspended as they were, and the releases have their
/// former statuses. The script is handed out, at its end. Takes no memory.
pub fn unfinish(processes: &mut Processes, releases: &mut Releases, undo: Finish) -> Runner
    requires fits { Fits undo.statuses releases.old }
    requires kept { IsRemoval undo.statuses → ⊥ }
    ensures processes { processes.new ≡ all_unresumed undo.resumed processes.old }
    ensures releases { releases.new ≡ undone undo.statuses releases.old }
    ensures runner { runner_of result ≡ runner_of undo.runner }
{
    let Finish {
        runner,
        resumed,
        statuses,
    } = undo;
    match releases.revert(statuses) {
        Ok(()) => {}
        Err(_) => unreachable!(),
    }
    processes.unresume(resumed.as_slice());
    runner
}

// A script is given up before its point of no return.
ghost use Rattle.std.specs.Prelude.{◌≡◌, IfErr, IfOk, OnErr, OnOk};
ghost use Rattle.app_table.specs.Undo.{Fits, former_of, put_again};
ghost use Rattle.script_ends.specs.Ends.{RecoveryBack, abandoned_of, apps_recovered};
ghost use Rattle.script_state.specs.Runner.{runner_of};

use crate::ending::{Abandoned, Recovery};
use app_table::AppTable;
use script_state::Runner;

/// A script is given up before its point of no return: the applications have the specifications from before the install, and
/// those that were added leave. Statuses, processes and code stay as they are.
///
/// # Errors
///
/// The script, where memory is refused. The applications are then as they were.
pub fn recover(apps: &mut AppTable, runner: Runner) -> Result<Recovery, Runner>
    requires { Fits runner.former apps.old }
    ensures apps { OnOk result (apps.new ≡ apps_recovered (runner_of runner) apps.old) }
    ensures back { IfOk result (λ undo. RecoveryBack undo (runner_of runner) apps.old apps.new) }
    ensures given_back { IfErr result (λ it. it ≡ runner) }
    ensures err { OnErr result (apps.new ≡ apps.old) }
{
    let Runner {
        target,
        other,
        description,
        script,
        former,
        progress,
    } = runner;
    match apps.put_back(former) {
        Ok(specs) => Ok(Recovery {
            script: Abandoned {
                target,
                other,
                description,
                script,
                progress,
            },
            specs,
        }),
        Err(former) => Err(Runner {
            target,
            other,
            description,
            script,
            former,
            progress,
        }),
    }
}

/// Takes it back that a script was given up: the specifications of the release that was being installed are in place again, with
/// the applications that were added. The script is handed out, where it had come to.
///
/// # Errors
///
/// What was given, where memory is refused. The applications are then as they were.
pub fn unrecover(apps: &mut AppTable, undo: Recovery) -> Result<Runner, Recovery>
    ensures apps { OnOk result (apps.new ≡ put_again undo.specs apps.old) }
    ensures runner { IfOk result (λ it. runner_of it ≡ abandoned_of undo.script (former_of undo.specs apps.old)) }
    ensures given_back { IfErr result (λ it. it ≡ undo) }
    ensures err { OnErr result (apps.new ≡ apps.old) }
{
    let Recovery { script, specs } = undo;
    let Abandoned {
        target,
        other,
        description,
        script,
        progress,
    } = script;
    match apps.put_again(specs) {
        Ok(former) => Ok(Runner {
            target,
            other,
            description,
            script,
            former,
            progress,
        }),
        Err(specs) => Err(Recovery {
            script: Abandoned {
                target,
                other,
                description,
                script,
                progress,
            },
            specs,
        }),
    }
}

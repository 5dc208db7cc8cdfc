// What the processes of children do.
ghost use Rattle.std.specs.Prelude.{◌≡◌};
ghost use Rattle.suspensions.specs.Suspending.{is_alive, is_busy, is_idle, is_server};
ghost use Rattle.process_store.specs.Table.{living};

use erl_semantics::Place;
use process::Activity;
use process_table::Processes;

/// Whether a gen_server process of a pid lives.
pub(crate) fn is_server(processes: &Processes, pid: u64) -> bool
    ensures { result ≡ is_server (living pid processes.now) }
{
    match processes.get(pid) {
        Some(living) => match living.process.place() {
            Place::Server { .. } => true,
            Place::Loop { .. } => false,
        },
        None => false,
    }
}

/// Whether a process of a pid lives.
pub(crate) fn is_alive(processes: &Processes, pid: u64) -> bool
    ensures { result ≡ is_alive (living pid processes.now) }
{
    processes.get(pid).is_some()
}

/// Whether a gen_server process of a pid lives and runs.
pub(crate) fn is_busy(processes: &Processes, pid: u64) -> bool
    ensures { result ≡ is_busy (living pid processes.now) }
{
    let Some(living) = processes.get(pid) else {
        return false;
    };
    match living.process.place() {
        Place::Server { .. } => match living.process.activity() {
            Activity::Runs(_) => true,
            Activity::Idle | Activity::Suspended => false,
        },
        Place::Loop { .. } => false,
    }
}

/// Whether a gen_server process of a pid lives and rests, and isn't suspended.
pub(crate) fn is_idle(processes: &Processes, pid: u64) -> bool
    ensures { result ≡ is_idle (living pid processes.now) }
{
    let Some(living) = processes.get(pid) else {
        return false;
    };
    match living.process.place() {
        Place::Server { .. } => match living.process.activity() {
            Activity::Idle => true,
            Activity::Suspended | Activity::Runs(_) => false,
        },
        Place::Loop { .. } => false,
    }
}

// Why a node that threads serve comes to no good end.
ghost use Rattle.std.specs.Prelude.{◌≡◌};
ghost use Rattle.worker_shell.specs.Run.{not_opened};

use node_shell::StartFault;
use release_boot::BootError;
use std::fmt;
use thiserror::Error;
use workers::OpenError;

/// Why a node that threads serve has not started, or has come to no good end.
#[derive(Drop, Error)]
pub enum WorkersFault {
    /// No node has started.
    #[error("{0}")]
    NotStarted(StartFault),
    /// There are to be no workers, or more than 15.
    #[error("a node has 1 to 15 workers")]
    WorkerCount,
    /// What a seat keeps of what it asked is not what the node's history says.
    #[error("a seat's list isn't the node's")]
    Foreign,
    /// Memory was refused as the workers ended, and seats were lost: what they keep was not compared with the node's history.
    #[error("out of memory: seats were lost")]
    SeatsLost,
}

/// As it is displayed.
impl fmt::Debug for WorkersFault {
    fn fmt<W: fmt::Write>(&self, f: &mut fmt::Formatter<W>) -> fmt::Result {
        write!(f, "{self}")
    }
}

/// Why no node is opened, as why no run starts.
pub(crate) fn not_opened(error: OpenError) -> WorkersFault
    ensures { result ≡ not_opened error }
{
    match error {
        OpenError::SeatCount => WorkersFault::WorkerCount,
        OpenError::Boot { app, reason } => {
            WorkersFault::NotStarted(StartFault::OfBoot(BootError::NotStarted { app, reason }))
        }
        OpenError::Memory => WorkersFault::NotStarted(StartFault::NoMemory),
    }
}

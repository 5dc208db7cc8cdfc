// How the program ends.
ghost use Rattle.std.specs.Prelude.{◌≡◌};
ghost use Rattle.std.specs.Process.{exit_status};
ghost use Rattle.std.specs.IoError.{error_kind};
ghost use Rattle.rehearse.specs.Ending.{status_of, status_of_fault, status_of_making, status_of_rehearsing, status_of_traffic};
ghost use Rattle.rehearse.specs.Ending.{status_of_tree, status_of_unread, worse};

use client_traffic::{TrafficError, TrafficFault};
use file_tree::TreeError;
use rehearse_options::WordsError;
use release_boot::BootError;
use relup_make::MakeError;
use std::alloc::AllocError;
use std::process::ExitCode;
use std::{fmt, io};
use thiserror::Error;
use upgrade_files::{Unread, UnreadFaults};
use upgrade_rehearsal::{Fault as RehearsalFault, Halt};

/// How a rehearsal ends.
#[derive(Clone, Copy, Debug, PartialEq, Eq)]
pub enum End {
    /// It would go up and down, and nothing was found that isn't allowed; or nothing was to be rehearsed.
    Goes,
    /// It would go up and down, and something was found that isn't allowed.
    HasFindings,
    /// It would not go up, or not down, or not without the traffic.
    Fails,
}

/// Why there is no rehearsal.
#[derive(Drop, Error)]
pub enum Fault {
    /// The command line is bad.
    #[error(transparent)]
    CommandLine(#[from] WordsError),
    /// FROM and TO are the same version.
    #[error("FROM and TO are one version")]
    SameVersion,
    /// A relup, a page or JSON is asked for, and FROM names several releases.
    #[error("--relup, --html and --json take one FROM")]
    SeveralVersions,
    /// This word is no kind of findings.
    #[error("{0} is no kind of findings")]
    UnknownKind(String),
    /// The system gives no random bytes.
    #[error("cannot get random bytes: {0}")]
    NoRandomBytes(io::Error),
    /// The files cannot be read.
    #[error(transparent)]
    Files(#[from] TreeError),
    /// The file of the traffic cannot be read.
    #[error("cannot read the traffic: {0}")]
    TrafficUnread(io::Error),
    /// A line of the traffic sends nothing.
    #[error("the traffic: {0}")]
    Traffic(#[from] TrafficFault),
    /// The files are no releases.
    #[error("the files are no releases")]
    Releases(UnreadFaults),
    /// No relup can be made, for this reason; and a note on it.
    #[error("no relup can be made: {0}{1}")]
    NoRelup(MakeError, String),
    /// The rehearsal did not reach its end.
    #[error("{0}")]
    Rehearsal(#[from] RehearsalFault),
    /// The report cannot be written.
    #[error("cannot write the output: {0}")]
    Output(#[from] io::Error),
    /// The page or the JSON cannot be written into this file.
    #[error("cannot write {0}: {1}")]
    File(String, io::Error),
    /// An allocation failed.
    #[error("out of memory")]
    Memory(#[from(alloc)] AllocError),
}

impl From<Unread> for Fault {
    fn from(unread: Unread) -> Fault {
        match unread {
            Unread::Faults(it) => Fault::Releases(it),
            Unread::Memory => Fault::Memory(AllocError),
        }
    }
}

/// Displays it as `Display` does.
impl fmt::Debug for Fault {
    fn fmt<W: fmt::Write>(&self, f: &mut fmt::Formatter<W>) -> fmt::Result {
        write!(f, "{self}")
    }
}

/// Returns the worse of two ends: one that fails, else one with findings, else one that goes.
pub fn worse(one: End, other: End) -> End
    ensures { result ≡ worse one other }
{
    match (one, other) {
        (End::Fails, _) | (_, End::Fails) => End::Fails,
        (End::HasFindings, _) | (_, End::HasFindings) => End::HasFindings,
        (End::Goes, End::Goes) => End::Goes,
    }
}

/// Returns the exit code of the program.
pub fn exit_code(end: &Result<End, Fault>) -> ExitCode
    ensures { exit_status result ≡ status_of end.now }
{
    ExitCode::from(status(end))
}

/// Returns the status of the program: 0 if the upgrade goes up and down and nothing is found that isn't allowed, 4 if something
/// is, and 1 if it fails; after a fault the status of the fault.
fn status(end: &Result<End, Fault>) -> u8
    ensures { result ≡ status_of end.now }
{
    match end {
        Ok(End::Goes) => 0,
        Ok(End::HasFindings) => 4,
        Ok(End::Fails) => 1,
        Err(fault) => fault_status(fault),
    }
}

/// Returns the status after a fault: 2 after a bad command line, 3 if the files are at fault, and 1 if the system is, or if an
/// allocation fails.
fn fault_status(fault: &Fault) -> u8
    ensures { result ≡ status_of_fault fault.now }
{
    match fault {
        Fault::CommandLine(words) => words.status(),
        Fault::SameVersion | Fault::SeveralVersions | Fault::UnknownKind(_) => 2,
        Fault::Files(error) => tree_status(error),
        Fault::TrafficUnread(error) => unread_status(error),
        Fault::Traffic(fault) => traffic_status(fault.error),
        Fault::Releases(_) => 3,
        Fault::NoRelup(error, _) => making_status(error),
        Fault::Rehearsal(fault) => rehearsing_status(fault),
        Fault::NoRandomBytes(_) | Fault::Output(_) | Fault::File(_, _) | Fault::Memory(_) => 1,
    }
}

/// Returns the status if files can't be read.
fn tree_status(error: &TreeError) -> u8
    ensures { result ≡ status_of_tree error.now }
{
    match error {
        TreeError::Folder(_, error) | TreeError::File(_, error) => unread_status(error),
        TreeError::Name(_) | TreeError::TooMany(_) => 3,
        TreeError::Memory(_) => 1,
    }
}

/// Returns the status if the system doesn't give a file.
fn unread_status(error: &io::Error) -> u8
    ensures { result ≡ status_of_unread (error_kind error.now) }
{
    match error.kind() {
        io::ErrorKind::OutOfMemory => 1,
        _ => 3,
    }
}

/// Returns the status if a line is no traffic.
fn traffic_status(error: TrafficError) -> u8
    ensures { result ≡ status_of_traffic error }
{
    match error {
        TrafficError::NoArrival | TrafficError::NotOneTerm | TrafficError::Term(_) => 3,
        TrafficError::Memory => 1,
    }
}

/// Returns the status if no relup is made.
fn making_status(error: &MakeError) -> u8
    ensures { result ≡ status_of_making error.now }
{
    match error {
        MakeError::Memory => 1,
        MakeError::ErtsChanged
        | MakeError::BaseChanged(_)
        | MakeError::NoAppup(_)
        | MakeError::NoEntry(_, _)
        | MakeError::UnknownModule(_) => 3,
    }
}

/// Returns the status if a rehearsal didn't reach its end.
fn rehearsing_status(fault: &RehearsalFault) -> u8
    ensures { result ≡ status_of_rehearsing fault.now }
{
    match fault {
        RehearsalFault::Boot(BootError::NotStarted { .. }) => 3,
        RehearsalFault::Boot(BootError::Memory) => 1,
        RehearsalFault::Halted(Halt::Full | Halt::Memory(_)) => 1,
    }
}

// How the program ends.
ghost use Rattle.std.specs.Prelude.{◌≡◌};
ghost use Rattle.std.specs.Process.{exit_status};
ghost use Rattle.relnode.specs.Ending.{EndsConsole, EndsServing, EndsSo, end_by, end_without, status_of};

use file_tree::TreeError;
use node_console::run_console;
use node_shell::{Files, StartFault, run};
use relnode_options::WordsError;
use std::alloc::Global;
use std::hash::RandomState;
use std::io;
use std::io::{Read, Write};
use std::process::ExitCode;
use std::sync::Wait;
use std::thread::Threads;
use std::time::Clock;
use thiserror::Error;
use worker_shell::{WorkersFault, run_workers};

/// Why the program ends with a status other than 0.
#[derive(Debug, Drop, Error)]
pub enum Fault {
    /// The command line is bad.
    #[error(transparent)]
    CommandLine(#[from] WordsError),
    /// The system gives no random bytes.
    #[error("cannot get random bytes: {0}")]
    NoRandomBytes(io::Error),
    /// The files cannot be read.
    #[error(transparent)]
    Files(#[from] TreeError),
    /// No node has started.
    #[error("{0}")]
    Start(StartFault),
    /// The commands could not all be read, or their answers not all be written.
    #[error(transparent)]
    Commands(#[from] line_server::Fault),
    /// The node that workers serve has come to no good end.
    #[error("{0}")]
    Workers(WorkersFault),
    /// The text of `--help` or `--version` cannot be written.
    #[error("cannot write the output: {0}")]
    Output(#[from] io::Error),
}

/// Runs the commands of a reader over a release of files, and ends as the run ended.
///
/// # Errors
///
/// `Start` with why no node has started; `Commands` with the fault of the run, where it had one.
pub fn run_to_end<R: Read, W: Write>(
    alloc: Global,
    hashing: RandomState,
    files: Files,
    vsn: &str,
    reader: &mut R,
    writer: &mut W,
) -> Result<(), Fault>
    ensures { EndsSo files vsn.now (R.remaining reader.old) (R.remaining reader.new)
        (W.contents writer.old) (W.contents writer.new) result }
{
    match run(alloc, hashing, files, vsn, reader, writer) {
        Ok(ended) => end_by(ended.fault),
        Err(fault) => Err(Fault::Start(fault)),
    }
}

/// Runs the lines of a reader at a console over a release of files, and ends as the run ended.
///
/// # Errors
///
/// As [`run_to_end`].
pub fn console_to_end<R: Read, W: Write>(
    alloc: Global,
    hashing: RandomState,
    files: Files,
    vsn: &str,
    reader: &mut R,
    writer: &mut W,
) -> Result<(), Fault>
    ensures { EndsConsole files vsn.now (R.remaining reader.old) (R.remaining reader.new)
        (W.contents writer.old) (W.contents writer.new) result }
{
    match run_console(alloc, hashing, files, vsn, reader, writer) {
        Ok(ended) => end_by(ended.fault),
        Err(fault) => Err(Fault::Start(fault)),
    }
}

/// Runs the commands of a reader over a release of files, which so many workers serve meanwhile, and ends as the run ended.
///
/// # Errors
///
/// As [`run_to_end`]; `Workers` where there can't be so many workers, or the node is not closed with all of its seats.
pub fn serve_to_end<C: Threads + Wait + Clock + Sync, R: Read, W: Write>(
    rt: &C,
    alloc: Global,
    hashing: RandomState,
    files: Files,
    vsn: &str,
    workers: u64,
    reader: &mut R,
    writer: &mut W,
) -> Result<(), Fault>
    ensures { EndsServing files vsn.now workers (R.remaining reader.old) (R.remaining reader.new)
        (W.contents writer.old) (W.contents writer.new) result }
{
    match run_workers(rt, alloc, hashing, files, vsn, workers, reader, writer) {
        Ok(ended) => end_by(ended.fault),
        Err(fault) => end_without(fault),
    }
}

/// The end of the program where there is no run with workers.
fn end_without(fault: WorkersFault) -> Result<(), Fault>
    ensures { result ≡ end_without fault }
{
    match fault {
        WorkersFault::NotStarted(fault) => Err(Fault::Start(fault)),
        fault => Err(Fault::Workers(fault)),
    }
}

/// The end of the program that a fault of its run makes, if there is one.
fn end_by(fault: Option<line_server::Fault>) -> Result<(), Fault>
    ensures { result ≡ end_by fault }
{
    match fault {
        None => Ok(()),
        Some(fault) => Err(Fault::Commands(fault)),
    }
}

/// The exit code of the program: 0 at the end of the input, 2 after a bad command line, and else 1.
pub fn exit_code(end: &Result<(), Fault>) -> ExitCode
    ensures { exit_status result ≡ status_of end.now }
{
    ExitCode::from(status(end))
}

/// The status that the program ends with.
fn status(end: &Result<(), Fault>) -> u8
    ensures { result ≡ status_of end.now }
{
    match end {
        Ok(()) => 0,
        Err(Fault::CommandLine(fault)) => fault.status(),
        Err(
            Fault::NoRandomBytes(_)
            | Fault::Files(_)
            | Fault::Start(_)
            | Fault::Commands(_)
            | Fault::Workers(_)
            | Fault::Output(_),
        ) => 1,
    }
}

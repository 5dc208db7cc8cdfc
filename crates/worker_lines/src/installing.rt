// Installs that go on to their end.
ghost use Rattle.std.specs.Prelude.{◌≡◌, ◌++◌, IfOk, None, OnOk, true};
ghost use Rattle.std.specs.Str.{chars};
ghost use Rattle.workers.specs.Core.{SeatState};
ghost use Rattle.shell_answers.specs.Answers.{line_of};
ghost use Rattle.worker_lines.specs.Asking.{IsAnswered};
ghost use Rattle.worker_lines.specs.Execution.{Installs, end_told, patience, wants_releases};
ghost use Rattle.workers.specs.Installing.{InstallFails};

use crate::asking::listed_from_first;
use crate::known::subject_in;
use crate::office::Office;
use crate::telling::{tell_error_of, tell_unworked};
use install_checks::InstallError;
use node_types::Refusal;
use release_statuses::Vsn;
use shell_answers::{Subject, write_finished, write_recovered, write_restarted};
use shell_exec::{Said, refuse};
use std::alloc::AllocError;
use std::sync::Wait;
use std::time::Clock;
use undo_journal::JournalError;
use workers::{InstallEnd, LockError, Naming, Seat, WorkError, drive_install};

/// How often a process that runs is waited for before the processes that run are passed over.
const PATIENCE: u64 = 1_000;

/// Installs the release of a version, and tells what its script has come to.
pub(crate) fn install<N: Naming, R: Wait + Clock>(
    office: &Office<'_, '_, '_, N, R>,
    seat: &mut Seat<N>,
    vsn: &str,
    version: Vsn,
    out: &mut Vec<u8>,
) -> Said
    ensures { IfOk result (λ fate. version ≡ chars vsn.now → IsAnswered (Installs seat.old (chars vsn.now) fate)
        seat.old seat.new out.old.items out.new.items) }
{
    match drive_install(
        office.rt,
        office.alloc,
        office.shared,
        seat,
        version,
        PATIENCE,
    ) {
        Ok(end) => say_end(&end, out),
        Err(error) => tell_uninstalled(office, seat, vsn, error, out),
    }
}

/// Tells what an install has come to.
fn say_end(end: &InstallEnd, out: &mut Vec<u8>) -> Said
    ensures { IfOk result (λ fate. (fate ≡ None) × (out.new.items ≡ out.old.items ++ line_of (end_told end.now))) }
{
    write_end(end, out)?;
    Ok(None)
}

/// Appends what an install has come to.
fn write_end(end: &InstallEnd, out: &mut Vec<u8>) -> Result<(), AllocError>
    ensures { OnOk result (out.new.items ≡ out.old.items ++ line_of (end_told end.now)) }
{
    match end {
        InstallEnd::Installed { vsn, description } => write_finished(
            vsn.as_str(),
            description,
            out,
        ),
        InstallEnd::Recovered(reason) => write_recovered(reason, out),
        InstallEnd::Restarted(reason) => write_restarted(reason, out),
    }
}

/// Tells why an install has not come to its end. Where that is told by more than the version, the seat asks for the releases.
fn tell_uninstalled<N: Naming, R: Wait>(
    office: &Office<'_, '_, '_, N, R>,
    seat: &mut Seat<N>,
    vsn: &str,
    error: WorkError,
    out: &mut Vec<u8>,
) -> Said
    ensures { IfOk result (λ fate. (start : SeatState) → InstallFails (chars vsn.now) patience start seat.old error
        → IsAnswered (Installs start (chars vsn.now) fate) start seat.new out.old.items out.new.items) }
{
    if wants_releases(&error) {
        return tell_by_releases(office, seat, vsn, error, out);
    }
    let about = Subject::naming(vsn);
    tell_unworked(office.alloc, &about, error, out)
}

/// Whether it is told by the release that runs, or by the script that leads from it, why an install is refused.
fn wants_releases(error: &WorkError) -> bool
    ensures { result ≡ wants_releases error.now }
{
    match error {
        WorkError::Lock(LockError::Journal(JournalError::Step(why))) => matches!(
            why.get(),
            Refusal::OfInstall(InstallError::NoMatchingRelup | InstallError::OldProcesses(_))
        ),
        _ => false,
    }
}

/// Tells why an install is refused, by the releases that the node knows.
fn tell_by_releases<N: Naming, R: Wait>(
    office: &Office<'_, '_, '_, N, R>,
    seat: &mut Seat<N>,
    vsn: &str,
    error: WorkError,
    out: &mut Vec<u8>,
) -> Said
    ensures { IfOk result (λ fate. (start : SeatState) → wants_releases error ≡ true
        → InstallFails (chars vsn.now) patience start seat.old error
        → IsAnswered (Installs start (chars vsn.now) fate) start seat.new out.old.items out.new.items) }
{
    let releases = match office.shared.which(office.rt, seat) {
        Ok(releases) => releases,
        Err(unread) => {
            let about = Subject::naming(vsn);
            return tell_error_of(office.alloc, &about, unread, out);
        }
    };
    let Ok(releases) = listed_from_first(office.alloc, releases.get().as_slice()) else {
        return refuse(out);
    };
    let about = subject_in(releases.as_slice(), vsn);
    tell_unworked(office.alloc, &about, error, out)
}

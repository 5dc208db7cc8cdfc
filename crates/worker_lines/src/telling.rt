// What stands against a command of the seat.
ghost use Rattle.std.specs.Prelude.{◌≡◌, ◌++◌, IfOk, None};
ghost use Rattle.shell_answers.specs.Answers.{line_of};
ghost use Rattle.shell_answers.specs.Refusals.{naming_nothing, refusal_of, subject_of};
ghost use Rattle.worker_lines.specs.Telling.{error_fate, error_told, journal_fate, journal_told, work_fate, work_told};

use node_types::{Note, Refusal};
use shell_answers::{Fixed, Subject, write_refusal};
use shell_exec::{Said, refuse, say, tell_stopped};
use std::alloc::Global;
use undo_journal::JournalError;
use values::Shared;
use workers::{LockError, WorkError};

/// Tells why a command was not carried out that names no version.
pub(crate) fn tell_error(alloc: Global, error: LockError, out: &mut Vec<u8>) -> Said
    ensures { IfOk result (λ fate. (fate ≡ error_fate error)
        × (out.new.items ≡ out.old.items ++ line_of (error_told naming_nothing error))) }
{
    let about = Subject::naming("");
    tell_error_of(alloc, &about, error, out)
}

/// Tells why a command was not carried out, told of this.
pub(crate) fn tell_error_of(
    alloc: Global,
    about: &Subject<'_>,
    error: LockError,
    out: &mut Vec<u8>,
) -> Said
    ensures { IfOk result (λ fate. (fate ≡ error_fate error)
        × (out.new.items ≡ out.old.items ++ line_of (error_told (subject_of about.now) error))) }
{
    match error {
        LockError::Journal(error) => tell_journal(alloc, about, &error, out),
        LockError::Memory => refuse(out),
    }
}

/// Tells why the journal did not do what it was asked, told of this.
fn tell_journal(
    alloc: Global,
    about: &Subject<'_>,
    error: &JournalError<Shared<Refusal>, Note>,
    out: &mut Vec<u8>,
) -> Said
    ensures { IfOk result (λ fate. (fate ≡ journal_fate error.now)
        × (out.new.items ≡ out.old.items ++ line_of (journal_told (subject_of about.now) error.now))) }
{
    match error {
        JournalError::Step(why) => say_refusal(about, why.get(), out),
        JournalError::Forgotten => say(Fixed::Forgotten, out),
        JournalError::DeadMark => say(Fixed::DeadMark, out),
        JournalError::SerialEnd => say(Fixed::SerialEnd, out),
        JournalError::Memory { mark, reports } => {
            let mark = *mark;
            tell_stopped(alloc, mark, reports.as_slice(), out)
        }
    }
}

/// Tells why the node refuses an event, told of this.
fn say_refusal(about: &Subject<'_>, why: &Refusal, out: &mut Vec<u8>) -> Said
    ensures { IfOk result (λ fate. (fate ≡ None)
        × (out.new.items ≡ out.old.items ++ line_of (refusal_of (subject_of about.now) why.now))) }
{
    write_refusal(about, why, out)?;
    Ok(None)
}

/// Tells why work of the seat has not come to its end, told of this.
pub(crate) fn tell_unworked(
    alloc: Global,
    about: &Subject<'_>,
    error: WorkError,
    out: &mut Vec<u8>,
) -> Said
    ensures { IfOk result (λ fate. (fate ≡ work_fate error)
        × (out.new.items ≡ out.old.items ++ line_of (work_told (subject_of about.now) error))) }
{
    match error {
        WorkError::Lock(error) => tell_error_of(alloc, about, error, out),
        WorkError::NoReply => say(Fixed::NoReply, out),
        WorkError::GateClosed | WorkError::Memory => refuse(out),
    }
}

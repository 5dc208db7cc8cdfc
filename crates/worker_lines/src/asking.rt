// What is asked without changing anything.
ghost use Rattle.std.specs.Prelude.{◌≡◌, ◌++◌, IfOk, None, reverse};
ghost use Rattle.erl_term.specs.Tree.{list};
ghost use Rattle.shell_answers.specs.Answers.{line_of, mark_at, replies_in};
ghost use Rattle.shell_requests.specs.declared.request.Question.TheVariants as questions;
ghost use Rattle.worker_lines.specs.Asking.{IsAnswered, IsWritten};
ghost use Rattle.worker_lines.specs.Execution.{Asks};

use crate::office::Office;
use crate::telling::tell_error;
use process_effects::Reply;
use release_statuses::Listed;
use shell_answers::{Fixed, names_in_releases, write_mark, write_releases, write_replies};
use shell_exec::{Said, refuse, say};
use shell_requests::Question;
use std::alloc::{AllocError, Global};
use std::slice;
use std::sync::Wait;
use values::{Row, copied_slice};
use workers::{Naming, Seat};

/// Tells what is asked; of what only the stepped mode tells, that.
pub(crate) fn tell<N: Naming, R: Wait>(
    office: &Office<'_, '_, '_, N, R>,
    seat: &mut Seat<N>,
    question: Question,
    out: &mut Vec<u8>,
) -> Said
    ensures { IfOk result (λ fate. IsAnswered (Asks question fate) seat.old seat.new out.old.items out.new.items) }
{
    match question {
        Question::Modules => say(Fixed::SteppedOnly, out),
        Question::Apps => say(Fixed::SteppedOnly, out),
        Question::Mark => tell_mark(office, seat, out),
        Question::Replies => tell_replies(office, seat, out),
        Question::Which => tell_releases(office, seat, out),
    }
}

/// Tells the mark of where the node stands.
fn tell_mark<N: Naming, R: Wait>(
    office: &Office<'_, '_, '_, N, R>,
    seat: &mut Seat<N>,
    out: &mut Vec<u8>,
) -> Said
    ensures { IfOk result (λ fate. IsAnswered (Asks questions.Mark fate) seat.old seat.new out.old.items out.new.items) }
{
    match office.shared.mark(office.rt, seat) {
        Ok(mark) => say_mark(mark, out),
        Err(error) => tell_error(office.alloc, error, out),
    }
}

/// Appends a mark.
fn say_mark(mark: u64, out: &mut Vec<u8>) -> Said
    ensures { IfOk result (λ fate. (fate ≡ None) × (out.new.items ≡ out.old.items ++ line_of (mark_at mark))) }
{
    write_mark(mark, out)?;
    Ok(None)
}

/// Tells all replies that were ever sent to the seat.
fn tell_replies<N: Naming, R: Wait>(
    office: &Office<'_, '_, '_, N, R>,
    seat: &mut Seat<N>,
    out: &mut Vec<u8>,
) -> Said
    ensures { IfOk result (λ fate. IsAnswered (Asks questions.Replies fate) seat.old seat.new out.old.items out.new.items) }
{
    match office.shared.replies(office.rt, seat, 0) {
        Ok(replies) => say_replies(replies.get(), out),
        Err(error) => tell_error(office.alloc, error, out),
    }
}

/// Appends replies.
fn say_replies(replies: &Row<Reply>, out: &mut Vec<u8>) -> Said
    ensures { IfOk result (λ fate. (fate ≡ None) × (out.new.items ≡ out.old.items ++ line_of (list (replies_in replies.now)))) }
{
    write_replies(slice::from_ref(replies), out)?;
    Ok(None)
}

/// Tells the releases that the node knows.
fn tell_releases<N: Naming, R: Wait>(
    office: &Office<'_, '_, '_, N, R>,
    seat: &mut Seat<N>,
    out: &mut Vec<u8>,
) -> Said
    ensures { IfOk result (λ fate. IsAnswered (Asks questions.Which fate) seat.old seat.new out.old.items out.new.items) }
{
    match office.shared.which(office.rt, seat) {
        Ok(releases) => say_releases(office.alloc, releases.get().as_slice(), out),
        Err(error) => tell_error(office.alloc, error, out),
    }
}

/// Appends releases, of which the latest that was set unpacked is given first. What is written is made before, so that it is
/// told where there is no memory for it.
fn say_releases(alloc: Global, releases: &[Listed], out: &mut Vec<u8>) -> Said
    ensures { IfOk result (λ fate. IsWritten releases.now fate out.old.items out.new.items) }
{
    let Ok(releases) = listed_from_first(alloc, releases) else {
        return refuse(out);
    };
    let Ok(names) = names_in_releases(alloc, releases.as_slice()) else {
        return refuse(out);
    };
    write_releases(releases.as_slice(), names.as_slice(), out)?;
    Ok(None)
}

/// Copies of releases, the last first.
pub(crate) fn listed_from_first(
    alloc: Global,
    releases: &[Listed],
) -> Result<Vec<Listed>, AllocError>
    ensures { IfOk result (λ listed. listed.items ≡ reverse releases.now) }
{
    let mut listed = copied_slice(alloc, releases)?;
    listed.reverse();
    Ok(listed)
}

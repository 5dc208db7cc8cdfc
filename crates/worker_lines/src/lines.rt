// Lines, and what is asked of them.
ghost use Rattle.std.specs.Prelude.{◌≡◌, IfOk};
ghost use Rattle.std.specs.Option.{option_copied};
ghost use Rattle.shell_requests.specs.Reading.{meant};
ghost use Rattle.shell_requests.specs.Request.{spoken};
ghost use Rattle.worker_lines.specs.Asking.{IsAnswered};
ghost use Rattle.worker_lines.specs.Execution.{Executes, ExecutesLine};

use crate::arriving::arrive;
use crate::asking::tell;
use crate::changing::{change, load, revive, sweep};
use crate::office::Office;
use crate::releasing::{alter, unpack};
use crate::undoing::{forget, undo};
use shell_answers::Fixed;
use shell_exec::{Said, say, tell_relup_in};
use shell_requests::{Line, Request, read_line};
use std::sync::Wait;
use std::time::Clock;
use workers::{Naming, Seat};

/// Does what a line says, and appends its answer. `None` is a line of too many bytes. What became of it for lack of memory is
/// handed out.
///
/// # Errors
///
/// `AllocError` where there is no memory to write the answer. The line may have been executed then, and a front of the answer
/// be there.
pub fn execute<N: Naming, R: Wait + Clock>(
    office: &Office<'_, '_, '_, N, R>,
    seat: &mut Seat<N>,
    line: Option<&[u8]>,
    out: &mut Vec<u8>,
) -> Said
    ensures { IfOk result (λ fate. IsAnswered (ExecutesLine office.now.files.now seat.old (spoken (option_copied line.entry))
        fate)
        seat.old seat.new out.old.items out.new.items) }
{
    let Some(line) = line else {
        return say(Fixed::LineTooLong, out);
    };
    match read_line(line) {
        Line::Silent => Ok(None),
        Line::Unknown => say(Fixed::BadCommand, out),
        Line::Asks(request) => execute_request(office, seat, request, out),
    }
}

/// Does what a request asks for.
fn execute_request<N: Naming, R: Wait + Clock>(
    office: &Office<'_, '_, '_, N, R>,
    seat: &mut Seat<N>,
    request: Request<'_>,
    out: &mut Vec<u8>,
) -> Said
    ensures { IfOk result (λ fate. IsAnswered (Executes office.now.files.now seat.old (meant request.entry) fate)
        seat.old seat.new out.old.items out.new.items) }
{
    match request {
        Request::Ask(question) => tell(office, seat, question, out),
        Request::Alter(kind, name) => change(office, seat, kind, name, out),
        Request::Load(name, path) => load(office, seat, name, path, out),
        Request::Undo(mark) => undo(office, seat, mark, out),
        Request::Forget(mark) => forget(office, seat, mark, out),
        Request::Arrive(kind, name, text) => arrive(office, seat, kind, name, text, out),
        Request::Revive(app, id) => revive(office, seat, app, id, out),
        Request::Unpack(vsn) => unpack(office, seat, vsn, out),
        Request::Release(kind, vsn) => alter(office, seat, kind, vsn, out),
        Request::Relup(from, to) => tell_relup_in(office.alloc, office.files, from, to, out),
        Request::Sweep => sweep(office, seat, out),
        Request::Commit(_) => say(Fixed::SteppedOnly, out),
        Request::Serve(..) => say(Fixed::SteppedOnly, out),
        Request::Advance { .. } => say(Fixed::SteppedOnly, out),
    }
}

/// Whether a line that begins with these bytes may wait for others, or run code. No answer hangs on it.
pub fn may_wait(start: &[u8]) -> bool {
    let words = start.trim_ascii_start();
    words.starts_with(b"call ")
        || words.starts_with(b"install ")
        || words.starts_with(b"revive ")
        || words.starts_with(b"reboot ")
}

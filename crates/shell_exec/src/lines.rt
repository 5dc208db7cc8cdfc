// Lines, and what is done of them.
ghost use Rattle.std.specs.Prelude.{◌≡◌, IfOk};
ghost use Rattle.std.specs.Option.{option_copied};
ghost use Rattle.shell_exec.specs.Execution.{ExecutesLine, Executes, pid_meant};
ghost use Rattle.shell_upgrades.specs.Serving.{ServesAs};
ghost use Rattle.shell_upgrades.specs.Done.{IsDone};
ghost use Rattle.shell_upgrades.specs.State.{node_of};
ghost use Rattle.shell_requests.specs.Reading.{meant, who_is};
ghost use Rattle.shell_requests.specs.Request.{spoken};

use crate::arriving::arrive;
use crate::changing::change;
use crate::loading::load;
use crate::naming::pid_meant;
use crate::reviving::revive;
use shell_answers::Fixed;
use shell_relups::tell_relup;
use shell_requests::{Line, Proc, Request, Service, read_line};
use shell_upgrades::{Fate, Said, Shell, advance, alter_releases, say, sweep, unpack};
use std::alloc::AllocError;

/// Does what a line says, and appends its answer. `None` is a line of too many bytes. What became of it for lack of memory
/// is handed out.
///
/// # Errors
///
/// `AllocError` where there is no memory to write the answer. The line may have been executed then, and a front of the
/// answer be there.
pub fn execute(
    held: &mut Shell,
    line: Option<&[u8]>,
    out: &mut Vec<u8>,
) -> Result<Option<Fate>, AllocError>
    ensures { IfOk result (λ fate. IsDone (ExecutesLine fate held.old (spoken (option_copied line.entry))) held.new
        out.old.items out.new.items) }
{
    let Some(line) = line else {
        return say(Fixed::LineTooLong, out);
    };
    match read_line(line) {
        Line::Silent => Ok(None),
        Line::Unknown => say(Fixed::BadCommand, out),
        Line::Asks(request) => execute_request(held, request, out),
    }
}

/// Does what a request asks for.
fn execute_request(held: &mut Shell, request: Request<'_>, out: &mut Vec<u8>) -> Said
    ensures { IfOk result (λ fate. IsDone (Executes fate held.old (meant request.entry)) held.new out.old.items out.new.items) }
{
    match request {
        Request::Ask(question) => held.tell(question, out),
        Request::Alter(kind, name) => change(held, kind, name, out),
        Request::Load(name, path) => load(held, name, path, out),
        Request::Undo(mark) => held.undo(mark, out),
        Request::Forget(mark) => held.forget(mark, out),
        Request::Commit(job) => held.commit(job, out),
        Request::Arrive(kind, name, text) => arrive(held, kind, name, text, out),
        Request::Serve(service, process) => serve(held, service, process, out),
        Request::Revive(app, id) => revive(held, app, id, out),
        Request::Unpack(vsn) => unpack(held, vsn, out),
        Request::Release(kind, vsn) => alter_releases(held, kind, vsn, out),
        Request::Relup(from, to) => tell_relup(held, from, to, out),
        Request::Advance { give_up } => advance(held, give_up, out),
        Request::Sweep => sweep(held, out),
    }
}

/// Does what a process is asked for.
fn serve(held: &mut Shell, service: Service, process: Proc<'_>, out: &mut Vec<u8>) -> Said
    ensures { IfOk result (λ fate. IsDone (ServesAs held.old service (pid_meant (who_is process.entry) (node_of held.old))
        fate) held.new out.old.items out.new.items) }
{
    let Some(pid) = pid_meant(held, process) else {
        return say(Fixed::NoProc, out);
    };
    match service {
        Service::Take => held.take(pid, out),
        Service::Retake => held.retake(pid, out),
        Service::Show => held.show(pid, out),
    }
}

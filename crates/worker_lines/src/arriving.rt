// What arrives for processes.
ghost use Rattle.std.specs.Prelude.{◌≡◌, ◌++◌, IfOk, None};
ghost use Rattle.std.specs.Str.{chars};
ghost use Rattle.node_types.specs.declared.event.Event.TheVariants.{Arrive};
ghost use Rattle.shell_answers.specs.Answers.{line_of, replied};
ghost use Rattle.shell_answers.specs.Refusals.{naming_nothing};
ghost use Rattle.worker_lines.specs.Asking.{IsAnswered, done};
ghost use Rattle.worker_lines.specs.Execution.{Arrives, Performs, Sends, Waits};

use crate::office::Office;
use crate::telling::{tell_error, tell_unworked};
use erl_term::{Atom, Term};
use node_types::Event;
use process_effects::Reply;
use process_table::ClientMessage;
use shell_answers::{Fixed, Subject, write_reply};
use shell_exec::{Said, refuse, say, say_term_fault};
use shell_requests::{ArrivalKind, Misread, Name, term_of};
use std::sync::Wait;
use std::time::Clock;
use workers::{Naming, Seat, call};

/// How many waits a call waits for its reply.
const TURNS: u64 = 1_000_000;

/// Has the term of a text arrive for the process of a name; of a call the reply is waited for, and told.
pub(crate) fn arrive<N: Naming, R: Wait + Clock>(
    office: &Office<'_, '_, '_, N, R>,
    seat: &mut Seat<N>,
    kind: ArrivalKind,
    name: Name<'_>,
    text: &str,
    out: &mut Vec<u8>,
) -> Said
    ensures { IfOk result (λ fate. IsAnswered (Arrives seat.old kind (chars name.entry.text.now) text.now fate)
        seat.old seat.new out.old.items out.new.items) }
{
    match term_of(office.alloc, text) {
        Ok(term) => arrive_term(office, seat, kind, name, term, out),
        Err(Misread::NotOne) => say(Fixed::BadCommand, out),
        Err(Misread::Faulty(error)) => say_term_fault(error, out),
        Err(Misread::NoMemory) => refuse(out),
    }
}

/// Has a term arrive.
fn arrive_term<N: Naming, R: Wait + Clock>(
    office: &Office<'_, '_, '_, N, R>,
    seat: &mut Seat<N>,
    kind: ArrivalKind,
    name: Name<'_>,
    term: Term,
    out: &mut Vec<u8>,
) -> Said
    ensures { IfOk result (λ fate. IsAnswered (Sends seat.old kind (chars name.entry.text.now) term fate)
        seat.old seat.new out.old.items out.new.items) }
{
    let Ok(name) = name.atom(office.alloc) else {
        return refuse(out);
    };
    match kind {
        ArrivalKind::Call => tell_call(office, seat, name, term, out),
        ArrivalKind::Cast => send(office, seat, name, ClientMessage::Cast(term), out),
        ArrivalKind::Info => send(office, seat, name, ClientMessage::Info(term), out),
    }
}

/// Calls a process, and tells its reply.
fn tell_call<N: Naming, R: Wait + Clock>(
    office: &Office<'_, '_, '_, N, R>,
    seat: &mut Seat<N>,
    name: Atom,
    term: Term,
    out: &mut Vec<u8>,
) -> Said
    ensures { IfOk result (λ fate. IsAnswered (Waits seat.old name term fate) seat.old seat.new out.old.items out.new.items) }
{
    match call(
        office.rt,
        office.alloc,
        office.shared,
        seat,
        name,
        term,
        TURNS,
    ) {
        Ok(reply) => say_reply(&reply, out),
        Err(error) => {
            let about = Subject::naming("");
            tell_unworked(office.alloc, &about, error, out)
        }
    }
}

/// Appends a reply.
fn say_reply(reply: &Reply, out: &mut Vec<u8>) -> Said
    ensures { IfOk result (λ fate. (fate ≡ None) × (out.new.items ≡ out.old.items ++ line_of (replied reply.now))) }
{
    write_reply(reply, out)?;
    Ok(None)
}

/// Sends a process what is no call. It comes from the client that the seat is.
fn send<N: Naming, R: Wait>(
    office: &Office<'_, '_, '_, N, R>,
    seat: &mut Seat<N>,
    name: Atom,
    body: ClientMessage,
    out: &mut Vec<u8>,
) -> Said
    ensures { IfOk result (λ fate. IsAnswered (Performs (Arrive seat.old.number name body) naming_nothing done fate)
        seat.old seat.new out.old.items out.new.items) }
{
    let event = Event::Arrive {
        client: seat.number(),
        name,
        body,
    };
    match office.shared.perform(office.rt, office.alloc, seat, event) {
        Ok(_) => say(Fixed::Done, out),
        Err(error) => tell_error(office.alloc, error, out),
    }
}

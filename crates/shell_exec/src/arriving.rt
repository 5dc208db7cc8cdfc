// What arrives for processes.
ghost use Rattle.std.specs.Prelude.{◌≡◌, ◌++◌, ℕ, List, IfOk, None};
ghost use Rattle.std.specs.Str.{chars};
ghost use Rattle.erl_term.specs.Term.{tree};
ghost use Rattle.shell_answers.specs.Answers.{line_of};
ghost use Rattle.shell_answers.specs.Refusals.{naming_nothing};
ghost use Rattle.shell_exec.specs.Execution.{Arrives, arrival_answer, event_of_arrival, tried};
ghost use Rattle.shell_upgrades.specs.Performing.{Performs, done_by};
ghost use Rattle.shell_upgrades.specs.Done.{IsDone};
ghost use Rattle.shell_exec.specs.Done.{after_missed};
ghost use Rattle.shell_upgrades.specs.Halts.{halt_answer, halt_fate};
ghost use Rattle.shell_upgrades.specs.State.{next_number};
ghost use Rattle.shell_requests.specs.Terms.{IsRead, one};

use erl_term::{Atom, Term};
use node_types::Event;
use process_table::ClientMessage;
use shell_answers::{Fixed, write_called};
use shell_requests::{ArrivalKind, Misread, Name, term_of};
use shell_upgrades::{Halt, Said, Shell, refuse, say, say_term_fault, tell_halt};

/// Has the term of a text arrive for the process of a name.
pub(crate) fn arrive(
    held: &mut Shell,
    kind: ArrivalKind,
    name: Name<'_>,
    text: &str,
    out: &mut Vec<u8>,
) -> Said
    ensures { IfOk result (λ fate. IsDone (Arrives held.old kind (chars name.entry.text.now) text.now fate) held.new
        out.old.items out.new.items) }
{
    match term_of(held.alloc(), text) {
        Ok(term) => arrive_term(held, kind, name, term, out),
        Err(Misread::NotOne) => say(Fixed::BadCommand, out),
        Err(Misread::Faulty(error)) => say_term_fault(error, out),
        Err(Misread::NoMemory) => refuse(out),
    }
}

/// Has a term arrive.
fn arrive_term(
    held: &mut Shell,
    kind: ArrivalKind,
    name: Name<'_>,
    term: Term,
    out: &mut Vec<u8>,
) -> Said
    ensures { IfOk result (λ fate. (text : List ℕ) → IsRead text (one (tree term))
        → IsDone (Arrives held.old kind (chars name.entry.text.now) text fate) held.new out.old.items out.new.items) }
{
    let Ok(atom) = name.atom(held.alloc()) else {
        return refuse(out);
    };
    arrive_named(held, kind, atom, term, out)
}

/// Has a term arrive for a name.
fn arrive_named(
    held: &mut Shell,
    kind: ArrivalKind,
    name: Atom,
    term: Term,
    out: &mut Vec<u8>,
) -> Said
    ensures { IfOk result (λ fate. IsDone (Performs held.old (tried kind held.old)
        (event_of_arrival kind (next_number held.old) name term) naming_nothing
        (done_by (tried kind held.old) (event_of_arrival kind (next_number held.old) name term)) fate) held.new out.old.items
        out.new.items) }
{
    let number = held.next_number();
    match held.perform(arrival_event(kind, number, name, term)) {
        Ok(_) => tell_arrived(held, kind, number, out),
        Err(halt) => tell_kept_out(held, halt, kind, out),
    }
}

/// One call more was tried, if it is a call.
fn count(held: &mut Shell, kind: ArrivalKind)
    ensures { held.new ≡ tried kind held.old }
{
    match kind {
        ArrivalKind::Call => held.count_call(),
        ArrivalKind::Cast | ArrivalKind::Info => (),
    }
}

/// Tells that it has arrived, and counts it.
fn tell_arrived(held: &mut Shell, kind: ArrivalKind, number: u64, out: &mut Vec<u8>) -> Said
    ensures { IfOk result (λ fate. (fate ≡ None) × (held.new ≡ tried kind held.old) ×
        (out.new.items ≡ out.old.items ++ line_of (arrival_answer kind number))) }
{
    count(held, kind);
    match kind {
        ArrivalKind::Call => {
            write_called(number, out)?;
            Ok(None)
        }
        ArrivalKind::Cast | ArrivalKind::Info => say(Fixed::Done, out),
    }
}

/// Tells why it has not arrived. A call is counted, unless memory was refused.
fn tell_kept_out(held: &mut Shell, halt: Halt, kind: ArrivalKind, out: &mut Vec<u8>) -> Said
    ensures { IfOk result (λ fate. (fate ≡ halt_fate halt) × (held.new ≡ after_missed halt kind held.old) ×
        (out.new.items ≡ out.old.items ++ line_of (halt_answer naming_nothing halt))) }
{
    count_unless_refused(held, &halt, kind);
    tell_halt(halt, out)
}

/// One call more was tried, if it is a call, unless memory was refused.
fn count_unless_refused(held: &mut Shell, halt: &Halt, kind: ArrivalKind)
    ensures { held.new ≡ after_missed halt.now kind held.old }
{
    match halt {
        Halt::Full | Halt::Refused(_) => count(held, kind),
        Halt::Memory => (),
    }
}

/// The event of an arrival. The client is 0.
fn arrival_event(kind: ArrivalKind, number: u64, name: Atom, term: Term) -> Event
    ensures { result ≡ event_of_arrival kind number name term }
{
    let body = match kind {
        ArrivalKind::Call => ClientMessage::Call { number, term },
        ArrivalKind::Cast => ClientMessage::Cast(term),
        ArrivalKind::Info => ClientMessage::Info(term),
    };
    Event::Arrive {
        client: 0,
        name,
        body,
    }
}

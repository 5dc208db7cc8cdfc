// What a start function has given.
ghost use Rattle.std.specs.Prelude.{◌≡◌, IfOk, IsTrue, option_map};
ghost use Rattle.erl_term.specs.Ascii.{is_ascii_text};
ghost use Rattle.erl_term.specs.Term.{tree, term_of};
ghost use Rattle.sys_protocol.specs.StartResults.{already_started, end_fault, is_ok, is_pid, is_start, is_word, name_fault, name_in, reason_of, start_fault, starts, taken_by};

use erl_semantics::{Act, End, Outcome};
use erl_term::{Atom, Term, Terms, three, two};
use process_table::Processes;
use std::alloc::{AllocError, Global};
use values::Duplicate;

/// Whether an act starts a process.
fn is_start(act: &Act) -> bool
    ensures { result ≡ is_start act.now }
{
    match act {
        Act::Start { .. } => true,
        Act::Send { .. } | Act::Reply { .. } | Act::Name { .. } => false,
    }
}

/// Whether one of these acts starts a process.
fn starts(acts: &[Act]) -> bool
    ensures { result ≡ starts acts.now }
{
    for act in acts {
        if is_start(act) {
            return true;
        }
    }
    false
}

/// The name that acts ask for, and whether by `register/2`.
pub(crate) fn name_in(acts: &[Act]) -> Option<(&Atom, bool)>
    ensures { option_map (λ asked. (asked.0.now, asked.1)) result ≡ name_in acts.now }
{
    for act in acts {
        if let Act::Name { name, by_register } = act {
            return Some((name, *by_register));
        }
    }
    None
}

/// Whether a term is this atom.
fn is_word(term: &Term, word: &str) -> bool
    requires { IsTrue (is_ascii_text word.now) }
    ensures { result ≡ is_word word.now (tree term.now) }
{
    match term.as_atom() {
        Some(atom) => atom.is(word),
        None => false,
    }
}

/// Whether a term is this process identifier.
fn is_pid(term: &Term, pid: u64) -> bool
    ensures { result ≡ is_pid pid (tree term.now) }
{
    match term.as_pid() {
        Some(given) => given == pid,
        None => false,
    }
}

/// Whether a term is `{ok,Pid}` or `{ok,Pid,Info}` of the process of a pid.
fn is_ok(pid: u64, term: &Term) -> bool
    ensures { result ≡ is_ok pid (tree term.now) }
{
    let Some(row) = term.as_tuple() else {
        return false;
    };
    if let Some((word, given)) = two(row.as_slice()) {
        return is_word(word, "ok") && is_pid(given, pid);
    }
    match three(row.as_slice()) {
        Some((word, given, _)) => is_word(word, "ok") && is_pid(given, pid),
        None => false,
    }
}

/// The reason that a value fails with: R of `{error,R}`, and else the value.
fn reason_of(alloc: Global, value: &Term) -> Result<Term, AllocError>
    ensures { IfOk result (λ it. tree it ≡ reason_of (tree value.now)) }
{
    let Some(row) = value.as_tuple() else {
        return value.copy(alloc);
    };
    let Some((word, reason)) = two(row.as_slice()) else {
        return value.copy(alloc);
    };
    if is_word(word, "error") {
        return reason.copy(alloc);
    }
    value.copy(alloc)
}

/// Why evaluating has failed, if it has.
fn end_fault(alloc: Global, pid: u64, started: bool, end: &End) -> Result<Option<Term>, AllocError>
    ensures { IfOk result (λ it. it ≡ end_fault pid started end.now) }
{
    match end {
        End::Rest(_) => Ok(Some(Term::Atom(Atom::word(alloc, "not_in_profile")?))),
        End::Value(value) => {
            if started && is_ok(pid, value) {
                return Ok(None);
            }
            Ok(Some(reason_of(alloc, value)?))
        }
        End::Exit(reason) => Ok(Some(reason.copy(alloc)?)),
    }
}

/// `{already_started,Pid}`
fn already_started(alloc: Global, holder: u64) -> Result<Term, AllocError>
    ensures { IfOk result (λ it. it ≡ already_started holder) }
{
    let mut parts = Vec::with_capacity(alloc, 2)?;
    parts.push(Term::Atom(Atom::word(alloc, "already_started")?))?;
    parts.push(Term::Pid(holder))?;
    Ok(Term::Tuple(Terms::new(alloc, parts)?))
}

/// Why a name can't be given that a process holds, if one does.
fn taken_by(
    alloc: Global,
    by_register: bool,
    holder: Option<u64>,
) -> Result<Option<Term>, AllocError>
    ensures { IfOk result (λ it. it ≡ taken_by by_register holder) }
{
    let Some(holder) = holder else {
        return Ok(None);
    };
    if by_register {
        return Ok(Some(Term::Atom(Atom::word(alloc, "badarg")?)));
    }
    Ok(Some(already_started(alloc, holder)?))
}

/// Why the name that is asked for can't be given, if it can't.
fn name_fault(
    alloc: Global,
    processes: &Processes,
    asked: Option<(&Atom, bool)>,
) -> Result<Option<Term>, AllocError>
    ensures { IfOk result (λ it. it ≡ name_fault (option_map (λ it. (it.0.now, it.1)) asked.entry) processes.now) }
{
    match asked {
        Some((name, by_register)) => taken_by(alloc, by_register, processes.pid_of(name.as_str())),
        None => Ok(None),
    }
}

/// Why a start has failed that has come to this for the process of a pid, if it has: a taken name is looked for last.
pub(crate) fn start_fault(
    alloc: Global,
    processes: &Processes,
    pid: u64,
    outcome: &Outcome,
) -> Result<Option<Term>, AllocError>
    ensures { IfOk result (λ it. it ≡ start_fault pid outcome.now processes.now) }
{
    let acts = outcome.acts.as_slice();
    let fault = end_fault(alloc, pid, starts(acts), &outcome.end)?;
    if fault.is_some() {
        return Ok(fault);
    }
    name_fault(alloc, processes, name_in(acts))
}

// Small terms of which rows are made.
ghost use Rattle.std.specs.Prelude.{◌≡◌, ◌+◌, IfOk};
ghost use Rattle.std.specs.Str.{chars};
ghost use Rattle.console_answers.specs.Rows.{activity_term, code_term, name_term, number, pid_term, restart_term, state_term, string};
ghost use Rattle.std.specs.Option.{option_copied};

use app_table::ChildState;
use child_specs::Restart;
use erl_semantics::Place;
use erl_term::{Atom, Term, Terms, ToTerm};
use process::Activity;
use std::alloc::{AllocError, Global};
use values::Duplicate;

/// Returns a number as a term; the greatest integer for any above it.
pub(crate) fn number(n: u64) -> Term
    ensures { result ≡ number n }
{
    if n < 1 << 63 {
        return Term::Int(n as i64);
    }
    Term::Int(i64::MAX)
}

/// Returns the number after a number; the greatest integer for any above it.
pub(crate) fn following(n: u64) -> Term
    ensures { result ≡ number (n + 1) }
{
    if n < 1 << 63 {
        return number(n + 1);
    }
    Term::Int(i64::MAX)
}

/// Returns a text as a string.
pub(crate) fn string(alloc: Global, text: &str) -> Result<Term, AllocError>
    ensures { IfOk result (λ it. it ≡ string (chars text.now)) }
{
    let term = text.to_term(alloc)?;
    Ok(term)
}

/// Returns a registered name, or `undefined`.
pub(crate) fn name_term(alloc: Global, name: Option<&Atom>) -> Result<Term, AllocError>
    ensures { IfOk result (λ it. it ≡ name_term (option_copied name.entry)) }
{
    match name {
        Some(name) => Ok(Term::Atom(name.copy(alloc)?)),
        None => Ok(Term::Atom(Atom::word(alloc, "undefined")?)),
    }
}

/// Returns `{server,Mod}` or `{loop,Mod,Function}`.
pub(crate) fn code_term(alloc: Global, place: &Place) -> Result<Term, AllocError>
    ensures { IfOk result (λ it. it ≡ code_term place.now) }
{
    let mut parts = Vec::with_capacity(alloc, 3)?;
    match place {
        Place::Server { module, state: _ } => {
            parts.push(Term::Atom(Atom::word(alloc, "server")?))?;
            parts.push(Term::Atom(module.copy(alloc)?))?;
        }
        Place::Loop {
            module,
            function,
            ..
        } => {
            parts.push(Term::Atom(Atom::word(alloc, "loop")?))?;
            parts.push(Term::Atom(module.copy(alloc)?))?;
            parts.push(Term::Atom(function.copy(alloc)?))?;
        }
    }
    Ok(Term::Tuple(Terms::new(alloc, parts)?))
}

/// Returns the word of what a process does.
pub(crate) fn activity_term(alloc: Global, activity: &Activity) -> Result<Term, AllocError>
    ensures { IfOk result (λ it. it ≡ activity_term activity.now) }
{
    let word = match activity {
        Activity::Idle => Atom::word(alloc, "idle")?,
        Activity::Suspended => Atom::word(alloc, "suspended")?,
        Activity::Runs(_) => Atom::word(alloc, "running")?,
    };
    Ok(Term::Atom(word))
}

/// Returns the pid of a child that runs, or `none`.
pub(crate) fn pid_term(alloc: Global, state: ChildState) -> Result<Term, AllocError>
    ensures { IfOk result (λ it. it ≡ pid_term state) }
{
    match state {
        ChildState::Running(pid) => Ok(Term::Pid(pid)),
        ChildState::Due | ChildState::Stopped => Ok(Term::Atom(Atom::word(alloc, "none")?)),
    }
}

/// Returns the word of a child's state.
pub(crate) fn state_term(alloc: Global, state: ChildState) -> Result<Term, AllocError>
    ensures { IfOk result (λ it. it ≡ state_term state) }
{
    let word = match state {
        ChildState::Running(_) => Atom::word(alloc, "running")?,
        ChildState::Due => Atom::word(alloc, "due")?,
        ChildState::Stopped => Atom::word(alloc, "stopped")?,
    };
    Ok(Term::Atom(word))
}

/// Returns the word of a child's restart type.
pub(crate) fn restart_term(alloc: Global, restart: Restart) -> Result<Term, AllocError>
    ensures { IfOk result (λ it. it ≡ restart_term restart) }
{
    let word = match restart {
        Restart::Permanent => Atom::word(alloc, "permanent")?,
        Restart::Transient => Atom::word(alloc, "transient")?,
        Restart::Temporary => Atom::word(alloc, "temporary")?,
    };
    Ok(Term::Atom(word))
}

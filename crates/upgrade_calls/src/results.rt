// What the calls of an upgrade have returned.
ghost use Rattle.std.specs.Prelude.{◌≡◌, IfErr, IfOk, codes, option_map};
ghost use Rattle.values.specs.Failure.{Fails};
ghost use Rattle.callback_lang.specs.Returns.{apply_return, apply_value, change_return, change_value, new_state, unchanged};
ghost use Rattle.erl_semantics.specs.State.{pair};
ghost use Rattle.erl_semantics.specs.Views.{end_of};
ghost use Rattle.erl_term.specs.Term.{tree};
ghost use Rattle.erl_term.specs.Tree.{atom};
ghost use Rattle.upgrade_calls.specs.Tagged.{tagged};

use erl_semantics::End;
use erl_term::{Atom, Term, Terms, two};
use std::alloc::{AllocError, Global};
use values::{Duplicate, Failure};

/// The word and the term of `{Word,Term}`.
fn tagged(value: &Term) -> Option<(&Atom, &Term)>
    ensures { option_map (λ it. (it.0.now, tree it.1.now)) result ≡ tagged (tree value.now) }
{
    let (word, term) = two(value.as_tuple()?.as_slice())?;
    Some((word.as_atom()?, term))
}

/// `{Word,Term}`
fn pair(alloc: Global, word: Atom, term: Term) -> Result<Term, AllocError>
    ensures { IfOk result (λ it. tree it ≡ pair (atom word) (tree term)) }
{
    let mut parts = Vec::with_capacity(alloc, 2)?;
    parts.push(Term::Atom(word))?;
    parts.push(term)?;
    Ok(Term::Tuple(Terms::new(alloc, parts)?))
}

/// That a call rests, which is no part of the profile.
fn not_in_profile(alloc: Global) -> Result<Term, AllocError>
    ensures { IfOk result (λ it. tree it ≡ atom (codes "not_in_profile")) }
{
    Ok(Term::Atom(Atom::word(alloc, "not_in_profile")?))
}

/// The state that the value of `code_change/3` gives, or why it gives none.
fn state_in(alloc: Global, value: &Term) -> Result<Term, Failure<Term>>
    ensures state { IfOk result (λ it. change_value (tree value.now) ≡ new_state (tree it)) }
    ensures reason { IfErr result (Fails (λ it. change_value (tree value.now) ≡ unchanged (tree it)) (Unit {0})) }
{
    if let Some((word, term)) = tagged(value) {
        if word.is("ok") {
            return Ok(term.copy(alloc)?);
        }
        if word.is("error") {
            return Err(Failure::Refused(term.copy(alloc)?));
        }
    }
    let word = Atom::word(alloc, "bad_return_value")?;
    let reason = pair(alloc, word, value.copy(alloc)?)?;
    Err(Failure::Refused(reason))
}

/// The state that `code_change/3` has given.
///
/// # Errors
///
/// Why it has given none, and `Memory`.
pub(crate) fn new_state(alloc: Global, end: &End) -> Result<Term, Failure<Term>>
    ensures state { IfOk result (λ it. change_return (end_of end.now) ≡ new_state (tree it)) }
    ensures reason { IfErr result (Fails (λ it. change_return (end_of end.now) ≡ unchanged (tree it)) (Unit {0})) }
{
    match end {
        End::Rest(_) => Err(Failure::Refused(not_in_profile(alloc)?)),
        End::Value(value) => state_in(alloc, value),
        End::Exit(reason) => Err(Failure::Refused(reason.copy(alloc)?)),
    }
}

/// Why the value of a function that is applied means that it has failed, if it does.
fn fault_in(alloc: Global, value: &Term) -> Result<Option<Term>, AllocError>
    ensures { IfOk result (λ it. option_map tree it ≡ apply_value (tree value.now)) }
{
    let Some((word, reason)) = tagged(value) else {
        return Ok(None);
    };
    if !word.is("error") {
        return Ok(None);
    }
    Ok(Some(reason.copy(alloc)?))
}

/// `{'EXIT',Reason}`
fn exit_value(alloc: Global, reason: Term) -> Result<Term, AllocError>
    ensures { IfOk result (λ it. tree it ≡ pair (atom (codes "EXIT")) (tree reason)) }
{
    pair(alloc, Atom::word(alloc, "EXIT")?, reason)
}

/// Why the application of a function has failed, if it has.
pub(crate) fn apply_fault(alloc: Global, end: &End) -> Result<Option<Term>, AllocError>
    ensures { IfOk result (λ it. option_map tree it ≡ apply_return (end_of end.now)) }
{
    match end {
        End::Rest(_) => {
            let reason = not_in_profile(alloc)?;
            Ok(Some(exit_value(alloc, reason)?))
        }
        End::Value(value) => fault_in(alloc, value),
        End::Exit(reason) => Ok(Some(exit_value(alloc, reason.copy(alloc)?)?)),
    }
}

// What is given at once: a value, or an exit with a reason.
ghost use Rattle.std.specs.Prelude.{◌≡◌, ◌≤◌, Bool, IsTrue, IfOk, length, codes};
ghost use Rattle.erl_term.specs.Ascii.{is_ascii_text};
ghost use Rattle.erl_term.specs.Term.{tree};
ghost use Rattle.erl_semantics.specs.Given.{result_of};
ghost use Rattle.erl_semantics.specs.Operators.{truth};
ghost use Rattle.erl_semantics.specs.State.{exit_by, exit_by_pair, made};

use erl_term::{Atom, Predefined, Term, Terms};
use std::alloc::{AllocError, Global};

/// How deep a term may be that an expression makes.
const DEEPEST: u32 = 256;

/// How large a term may be that an expression makes.
const LARGEST: u32 = 65_536;

/// What is given at once.
#[derive(Drop)]
pub enum Given {
    /// A value.
    Value(Term),
    /// An exit, with its reason.
    Exit(Term),
}

/// An exit by a reason that is an atom.
///
/// # Errors
///
/// `AllocError` where memory is refused.
pub fn exit_by(alloc: Global, reason: &str) -> Result<Given, AllocError>
    requires ascii { IsTrue (is_ascii_text reason.now) }
    requires short { length reason.now ≤ 255 }
    ensures { IfOk result (λ it. result_of it ≡ exit_by reason.now) }
{
    let reason = Atom::word(alloc, reason)?;
    Ok(Given::Exit(Term::Atom(reason)))
}

/// An exit by a reason `{Word,Term}`.
///
/// # Errors
///
/// `AllocError` where memory is refused.
pub fn exit_by_pair(alloc: Global, word: &str, term: Term) -> Result<Given, AllocError>
    requires ascii { IsTrue (is_ascii_text word.now) }
    requires short { length word.now ≤ 255 }
    ensures { IfOk result (λ it. result_of it ≡ exit_by_pair word.now (tree term)) }
{
    let mut pair = Vec::with_capacity(alloc, 2)?;
    pair.push(Term::Atom(Atom::word(alloc, word)?))?;
    pair.push(term)?;
    Ok(Given::Exit(Term::Tuple(Terms::new(alloc, pair)?)))
}

/// A term that an expression makes, where it is within the limits: else a breach of them.
///
/// # Errors
///
/// `AllocError` where memory is refused.
pub fn made(alloc: Global, term: Term) -> Result<Given, AllocError>
    ensures { IfOk result (λ it. result_of it ≡ made (tree term)) }
{
    if term.is_within(DEEPEST, LARGEST) {
        Ok(Given::Value(term))
    } else {
        exit_by(alloc, "system_limit")
    }
}

/// The atom of a truth value. Takes no memory.
pub fn truth_term(holds: bool) -> Term
    ensures { tree result ≡ truth holds }
{
    let atom = if holds {
        Predefined::True
    } else {
        Predefined::False
    };
    Term::Atom(Atom::predefined(atom))
}

// The terms that stand behind an instruction's name.
ghost use Rattle.std.specs.Prelude.{◌≡◌, Some, None, MatchOption, IfOk};
ghost use Rattle.erl_term.specs.Term.{trees};
ghost use Rattle.release_words.specs.Reading.{alone_of, leading_of};

use erl_term::{FromTerm, Term, first, one};
use std::alloc::{AllocError, Global};

/// The value that the one term of a row is, if there is just one, and it is such a value.
///
/// # Errors
///
/// `AllocError` where memory is refused.
pub fn alone<T: FromTerm>(alloc: Global, row: &[Term]) -> Result<Option<T>, AllocError>
    ensures { IfOk result (λ found. found ≡ alone_of T.reading (trees row.now)) }
{
    match one(row) {
        Some(term) => T::from_term(alloc, term),
        None => Ok(None),
    }
}

/// The value that the first term of a row is, if it is one, and the terms behind it.
///
/// # Errors
///
/// `AllocError` where memory is refused.
pub fn leading<T: FromTerm>(alloc: Global, row: &[Term]) -> Result<Option<(T, &[Term])>, AllocError>
    ensures { IfOk result (λ found. MatchOption found (leading_of T.reading (trees row.now) ≡ None)
        (λ r. leading_of T.reading (trees row.now) ≡ Some (r.0, trees r.1.now))) }
{
    let Some((term, rest)) = first(row) else {
        return Ok(None);
    };
    match T::from_term(alloc, term)? {
        Some(value) => Ok(Some((value, rest))),
        None => Ok(None),
    }
}

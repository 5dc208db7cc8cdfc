// Terms, read from lines.
ghost use Rattle.std.specs.Prelude.{◌≡◌, IfOk, MatchOption, MatchResult};
ghost use Rattle.erl_term.specs.Term.{tree, trees};
ghost use Rattle.erl_term.specs.Tree.{more, none};
ghost use Rattle.shell_requests.specs.Terms.{IsNotOne, IsRead, Misreads, ended, one};

use erl_consult::read_terms;
use erl_scan::{Fault, ReadError};
use erl_term::Term;
use std::alloc::{AllocError, Global};
use thiserror::Error;

/// Why no term was read.
#[derive(Clone, Copy, Debug, Error)]
pub enum Misread {
    /// There is none, or there are several.
    #[error("the text is not one term")]
    NotOne,
    /// The text is faulty.
    #[error("{0}")]
    Faulty(ReadError),
    /// An allocation failed while it was read.
    #[error("out of memory")]
    NoMemory,
}

/// Returns the term that a text is, which has no dot.
///
/// # Errors
///
/// `NotOne` if the text has none or several, `Faulty` with the first fault of the text, and `NoMemory` if an allocation fails.
pub fn term_of(alloc: Global, text: &str) -> Result<Term, Misread>
    ensures { MatchResult result (λ t. IsRead text.now (one (tree t))) (Misreads text.now) }
{
    let Ok(ended) = with_dot(alloc, text) else {
        return Err(Misread::NoMemory);
    };
    match read_terms(alloc, ended.as_slice()) {
        Ok(terms) => match only(terms) {
            Some(term) => Ok(term),
            None => Err(Misread::NotOne),
        },
        Err(
            ReadError {
                kind: Fault::Memory,
                ..
            },
        ) => Err(Misread::NoMemory),
        Err(error) => Err(Misread::Faulty(error)),
    }
}

/// Returns a text with a dot and a newline after it.
fn with_dot(alloc: Global, text: &str) -> Result<Vec<u8>, AllocError>
    ensures { IfOk result (λ it. it.items ≡ ended text.now) }
{
    let mut ended = Vec::with_capacity(alloc, text.len().saturating_add(2))?;
    ended.extend_from_slice(text.as_bytes())?;
    ended.extend_from_slice(b".\n")?;
    Ok(ended)
}

/// Returns the only one of terms.
fn only(mut terms: Vec<Term>) -> Option<Term>
    ensures { MatchOption result (IsNotOne (trees terms.items)) (λ t. trees terms.items ≡ more (tree t) none) }
{
    if terms.as_slice().len() == 1 {
        terms.pop()
    } else {
        None
    }
}

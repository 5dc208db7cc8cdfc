// Files that hold one term.
ghost use Rattle.std.specs.Prelude.{◌≡◌, ◌⊎◌, MatchResult, Ok, Err};
ghost use Rattle.erl_scan.specs.declared.error.Fault.TheVariants.{Memory as no_memory};
ghost use Rattle.erl_consult.specs.Faults.{IsTextOf};
ghost use Rattle.erl_term.specs.Term.{tree};
ghost use Rattle.erl_term.specs.Tree.{none, more};
ghost use Rattle.otp_files.specs.Texts.{IsTextError};
ghost use Rattle.otp_files.specs.declared.error.FileError.TheVariants.{Memory as refused};

use crate::error::FileError;
use erl_consult::{Fault, ReadError, read_terms};
use erl_term::Term;
use std::alloc::{AllocError, Global};

/// The one term of a text.
///
/// # Errors
///
/// `Text` with the text's first fault, `NoTerm` or `ManyTerms` where it has not one term, `Memory` where memory is
/// refused.
pub(crate) fn read_one(alloc: Global, text: &[u8]) -> Result<Term, FileError>
    ensures { MatchResult result (λ term. IsTextOf text.now (more (tree term) none)) (λ e. (e ≡ refused) ⊎
        IsTextError text.now e) }
{
    let mut terms = match read_terms(alloc, text) {
        Ok(terms) => terms,
        Err(error) => return Err(text_error(error)),
    };
    if terms.len() > 1 {
        return Err(FileError::ManyTerms);
    }
    terms.pop().ok_or(FileError::NoTerm)
}

/// What is wrong with a text; memory that was refused is told as such.
fn text_error(error: ReadError) -> FileError
    ensures { ((error.kind ≡ no_memory) × (result ≡ refused)) ⊎ ((error.kind ≡ no_memory → ⊥) × (result ≡ FileError.Text error)) }
{
    match error.kind {
        Fault::Memory => FileError::Memory,
        _ => FileError::Text(error),
    }
}

/// What was read of a term; memory that was refused is one more fault.
pub(crate) fn with_memory<T: Drop>(
    read: Result<Result<T, FileError>, AllocError>,
) -> Result<T, FileError>
    ensures { MatchResult result (λ file. read ≡ Ok (Ok file)) (λ e. (e ≡ refused) ⊎ (read ≡ Ok (Err e))) }
{
    match read {
        Ok(file) => file,
        Err(AllocError) => Err(FileError::Memory),
    }
}

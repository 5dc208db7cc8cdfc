// Why a function of applications fails, as a term.
ghost use Rattle.std.specs.Prelude.{◌≡◌, IfOk, List};
ghost use Rattle.erl_semantics.specs.declared.instance.Instance.{Instance};
ghost use Rattle.erl_term.specs.Term.{tree};
ghost use Rattle.erl_term.specs.Tree.{atom};
ghost use Rattle.script_children.specs.Applying.{Refuses};
ghost use Rattle.script_children.specs.Calls.{pair, reason_of, start_failed};
ghost use Rattle.script_children.specs.Children.{Supervised};
ghost use Rattle.std.specs.Prelude.{None};

use crate::calls::AppCall;
use erl_term::{Atom, Term, Terms};
use std::alloc::{AllocError, Global};
use sys_protocol::AppError;
use values::Duplicate;

/// `{Word,Term}`
fn pair(alloc: Global, word: Atom, term: &Term) -> Result<Term, AllocError>
    ensures { IfOk result (λ it. it ≡ pair (atom word) (tree term.now)) }
{
    let mut parts = Vec::with_capacity(alloc, 2)?;
    parts.push(Term::Atom(word))?;
    parts.push(term.copy(alloc)?)?;
    Ok(Term::Tuple(Terms::new(alloc, parts)?))
}

/// `{start_failed,Id,Reason}`: a child has failed to start.
///
/// # Errors
///
/// `AllocError` where memory is refused.
pub fn start_failed(alloc: Global, child: Term, reason: Term) -> Result<Term, AllocError>
    ensures { IfOk result (λ it. it ≡ start_failed child reason) }
{
    let mut parts = Vec::with_capacity(alloc, 3)?;
    parts.push(Term::Atom(Atom::word(alloc, "start_failed")?))?;
    parts.push(child)?;
    parts.push(reason)?;
    Ok(Term::Tuple(Terms::new(alloc, parts)?))
}

/// Why the application that this term names doesn't start, stop or go.
pub(crate) fn reason_of(alloc: Global, app: &Term, error: AppError) -> Result<Term, AllocError>
    ensures { IfOk result (λ it. it ≡ reason_of (tree app.now) error) }
{
    match error {
        AppError::NotLoaded => pair(alloc, Atom::word(alloc, "not_loaded")?, app),
        AppError::AlreadyStarted => pair(alloc, Atom::word(alloc, "already_started")?, app),
        AppError::BadInit(reason) => Ok(reason),
        AppError::StartFailed(failed) => start_failed(alloc, failed.child, failed.reason),
        AppError::NotStarted => pair(alloc, Atom::word(alloc, "not_started")?, app),
        AppError::Running => pair(alloc, Atom::word(alloc, "running")?, app),
    }
}

/// Why a call fails whose argument names no application.
pub(crate) fn unnamed(call: AppCall) -> AppError
    ensures { (code : List Instance) (s : Supervised) → Refuses result code call None s }
{
    match call {
        AppCall::Start | AppCall::Unload => AppError::NotLoaded,
        AppCall::Stop => AppError::NotStarted,
    }
}

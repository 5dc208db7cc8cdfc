// How many arguments a call has.
ghost use Rattle.std.specs.Prelude.{◌≡◌, IfOk};
ghost use Rattle.erl_term.specs.Term.{trees};
ghost use Rattle.erl_term.specs.Tree.{count};

use erl_term::Term;
use std::alloc::AllocError;

/// How many arguments there are. No memory holds so many that there is no number.
#[tactic(auto, using(crate::proofs::Rows::count_trees))]
pub fn arity_of(arguments: &[Term]) -> Result<u32, AllocError>
    ensures { IfOk result (λ it. it ≡ count (trees arguments.now)) }
{
    match u32::try_from(arguments.len()) {
        Ok(n) => Ok(n),
        Err(_) => Err(AllocError),
    }
}

// Tuples by their first element.
ghost use Rattle.std.specs.Prelude.{◌≡◌, MatchOption, None, Some};
ghost use Rattle.erl_term.specs.Term.{tree, trees};
ghost use Rattle.erl_steps.specs.Tags.{tag_of};

use erl_term::{Atom, Term, first};

/// The first element of a tuple, where it is an atom, and the others.
pub fn tag(term: &Term) -> Option<(&Atom, &[Term])>
    ensures { MatchOption result (tag_of (tree term.now) ≡ None) (λ r. tag_of (tree term.now) ≡ Some (r.0.now, trees r.1.now)) }
{
    let (tag, rest) = first(term.as_tuple()?.as_slice())?;
    Some((tag.as_atom()?, rest))
}

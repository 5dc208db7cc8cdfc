// The outer shape of states.
ghost use Rattle.std.specs.Prelude.{◌≡◌, ◌==◌, ◌&&◌, length};
ghost use Rattle.std.specs.Option.{option_copied};
ghost use Rattle.erl_term.specs.Term.{tree, trees};
ghost use Rattle.node_questions.specs.Shapes.{is_alike, is_same_shape, is_same_tag, tag_of};

use erl_semantics::Place;
use erl_term::{Atom, Term};

/// Returns the tag of a tuple of these elements, if it has one: the first element, if that is an atom. Allocates nothing.
pub fn tag_of(elements: &[Term]) -> Option<&Atom>
    ensures { option_copied result ≡ tag_of (trees elements.now) }
{
    elements.first()?.as_atom()
}

/// Returns whether two tags are the same, or both are missing.
fn is_same_tag(one: Option<&Atom>, other: Option<&Atom>) -> bool
    ensures { result ≡ is_same_tag (option_copied one.entry) (option_copied other.entry) }
{
    match (one, other) {
        (None, None) => true,
        (Some(one), Some(other)) => *one == *other,
        (_, _) => false,
    }
}

/// Returns whether two terms have the same outer shape: they are of one kind, and tuples have as many elements and the same tag.
fn is_same_shape(one: &Term, other: &Term) -> bool
    ensures { result ≡ is_same_shape (tree one.now) (tree other.now) }
{
    match (one, other) {
        (Term::Int(_), Term::Int(_)) => true,
        (Term::Atom(_), Term::Atom(_)) => true,
        (Term::Pid(_), Term::Pid(_)) => true,
        (Term::List(_), Term::List(_)) => true,
        (Term::Tuple(one), Term::Tuple(other)) => is_same_tuple(one.as_slice(), other.as_slice()),
        (_, _) => false,
    }
}

/// Returns whether two tuples have as many elements and the same tag.
fn is_same_tuple(one: &[Term], other: &[Term]) -> bool
    ensures { result ≡ ((length one.now == length other.now) && is_same_tag (tag_of (trees one.now)) (tag_of (trees other.now))) }
{
    one.len() == other.len() && is_same_tag(tag_of(one), tag_of(other))
}

/// Returns whether two processes rest alike: in one callback module with states of the same shape, or in one function with as
/// many arguments.
pub(crate) fn is_alike(one: &Place, other: &Place) -> bool
    ensures { result ≡ is_alike one.now other.now }
{
    match (one, other) {
        (
            Place::Server { module, state },
            Place::Server {
                module: m,
                state: s,
            },
        ) => *module == *m && is_same_shape(state, s),
        (
            Place::Loop {
                module,
                function,
                args,
                ..
            },
            Place::Loop {
                module: m,
                function: f,
                args: a,
                ..
            },
        ) => *module == *m && *function == *f && args.as_slice().len() == a.as_slice().len(),
        (_, _) => false,
    }
}

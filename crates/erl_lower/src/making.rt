// What a shape makes of its parts.
ghost use Rattle.std.specs.Prelude.{◌≡◌};
ghost use Rattle.erl_lower.specs.Expressions.{making_of as making_in};

use erl_ast::{Infix, Shape};
use erl_ir::Connective;

/// What a shape makes of its parts.
#[derive(Clone, Copy, Debug, PartialEq, Eq)]
pub(crate) enum Making {
    /// A match of a pattern, the first part, with the other.
    Matching,
    /// A left side and a right side, which is evaluated only where it is needed.
    Connecting(Connective),
    /// One expression of all.
    Together,
}

/// What a shape makes of its parts, in an expression.
pub(crate) fn making_of(shape: &Shape) -> Making
    ensures { result ≡ making_in shape.now }
{
    match shape {
        Shape::Infix(Infix::Match) => Making::Matching,
        Shape::Infix(Infix::AndAlso) => Making::Connecting(Connective::AndAlso),
        Shape::Infix(Infix::OrElse) => Making::Connecting(Connective::OrElse),
        _ => Making::Together,
    }
}

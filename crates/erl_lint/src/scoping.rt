// What the parts of an expression see of one another.
ghost use Rattle.std.specs.Prelude.{◌≡◌};
ghost use Rattle.erl_lint.specs.Scopes.{scoping_of as scoping_in};

use erl_ast::{Infix, Shape};

/// What the parts of an expression see of what the others bind.
#[derive(Clone, Copy, Debug, PartialEq, Eq)]
pub(crate) enum Scoping {
    /// Nothing: operands. All that they bind is bound behind the whole.
    Apart,
    /// Each sees what those before it bind: the expressions of a block. All that they bind is bound behind the whole.
    InTurn,
    /// A pattern, and then an expression, which sees nothing of it: a match. Both are bound behind the whole.
    Matching,
    /// Each sees what those before it bind, and behind the whole is bound what the first binds: `andalso` and `orelse`.
    FirstOnly,
}

/// What the parts of a shape see of one another.
pub(crate) fn scoping_of(shape: &Shape) -> Scoping
    ensures { result ≡ scoping_in shape.now }
{
    match shape {
        Shape::Block => Scoping::InTurn,
        Shape::Infix(Infix::Match) => Scoping::Matching,
        Shape::Infix(Infix::AndAlso | Infix::OrElse) => Scoping::FirstOnly,
        _ => Scoping::Apart,
    }
}

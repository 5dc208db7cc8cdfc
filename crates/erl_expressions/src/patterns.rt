// What may stand left of `=`, and behind an operator.
ghost use Rattle.std.specs.Prelude.{◌≡◌, ◌&&◌};
ghost use Rattle.erl_ast.specs.Grammar.{begins as begins_in, is_unsigned as unsigned_in};
ghost use Rattle.erl_ast.specs.TreeForms.{tree as tree_of, trees as trees_of};
ghost use Rattle.erl_expressions.specs.Reading.{fits as left_in, fits_pattern as fits_in, fit_pattern as fit_in};
ghost use Rattle.erl_expressions.specs.Reading.{makes_pattern as makes_in};

use erl_ast::{Infix, Leaf, Prefix, Role, Shape, Sign, SyntaxTree};

/// Whether what was read in a role may stand left of an operator, its level aside: left of `=` what is a pattern.
pub(crate) fn may_be_left_of(was: Role, op: Infix, left: &SyntaxTree) -> bool
    ensures { result ≡ left_in was op (tree_of left.now) }
{
    match (was, op) {
        (Role::Expression, Infix::Match) => fits_pattern(left),
        (_, _) => true,
    }
}

/// Whether a node may begin with a part, the part's level aside: `-` before digits is the sign of an integer.
pub(crate) fn may_begin(shape: &Shape, parts: &[SyntaxTree]) -> bool
    ensures { result ≡ begins_in shape.now (trees_of parts.now) }
{
    let Some(first) = parts.first() else {
        return true;
    };
    match shape {
        Shape::Prefix(Prefix::Negate) => !is_unsigned(first),
        _ => true,
    }
}

/// Whether a tree is an integer without a sign.
fn is_unsigned(tree: &SyntaxTree) -> bool
    ensures { result ≡ unsigned_in (tree_of tree.now) }
{
    matches!(tree, SyntaxTree::Leaf(Leaf::Integer(Sign::Unsigned, _)))
}

/// Whether an expression is a pattern.
#[cycle(fits)]
fn fits_pattern(tree: &SyntaxTree) -> bool
    ensures { result ≡ fits_in (tree_of tree.now) }
{
    match tree {
        SyntaxTree::Leaf(_) => true,
        SyntaxTree::Node(shape, parts) => makes_pattern(shape) && fit_pattern(parts.as_slice()),
        SyntaxTree::Case(_, _) => false,
    }
}

/// Whether expressions are patterns.
#[cycle(fits)]
fn fit_pattern(parts: &[SyntaxTree]) -> bool
    ensures { result ≡ fit_in (trees_of parts.now) }
{
    for part in parts {
        if !fits_pattern(part) {
            return false;
        }
    }
    true
}

/// Whether patterns are put together so.
fn makes_pattern(shape: &Shape) -> bool
    ensures { result ≡ makes_in shape.now }
{
    matches!(
        shape,
        Shape::Tuple | Shape::List | Shape::Cons | Shape::Parenthesized
    )
}

// Patterns.
ghost use Rattle.std.specs.Prelude.{◌≡◌, IfOk, OnOk};
ghost use Rattle.erl_ast.specs.TreeForms.{tree as tree_of, trees};
ghost use Rattle.erl_lint.specs.Scopes.{leaf_names, pattern_names, pattern_names_in, variable_names, with_names};
ghost use Rattle.erl_ir.specs.PatternForms.{pat, pats};
ghost use Rattle.erl_lower.specs.Patterns.{leaf_pattern, made_pattern as pattern_made, alone as pattern_alone, pattern_of, pattern_variable, patterns_of};

use crate::literals::literal;
use crate::numbers::number_of;
use erl_ast::{Leaf, Shape, SyntaxTree};
use erl_chars::SharedText;
use erl_ir::{Pattern, Patterns};
use erl_lint::{Scope, is_anonymous};
use erl_term::Atom;
use std::alloc::{AllocError, Global};

/// The pattern of a variable, which it binds where it isn't bound.
fn lower_variable<'a>(name: &'a SharedText, scope: &mut Scope<'a>) -> Result<Pattern, AllocError>
    ensures found { IfOk result (λ p. pat p ≡ pattern_variable scope.old name.now) }
    ensures bound { OnOk result (scope.new ≡ with_names scope.old (variable_names name.now)) }
{
    if is_anonymous(name) {
        return Ok(Pattern::Anything);
    }
    let index = scope.bind(name)?;
    Ok(Pattern::Variable(number_of(index)?))
}

/// The pattern of a leaf.
fn lower_leaf<'a>(
    alloc: Global,
    own: &Atom,
    leaf: &'a Leaf,
    scope: &mut Scope<'a>,
) -> Result<Pattern, AllocError>
    ensures found { IfOk result (λ p. pat p ≡ leaf_pattern own.now scope.old leaf.now) }
    ensures bound { OnOk result (scope.new ≡ with_names scope.old (leaf_names leaf.now)) }
{
    match leaf {
        Leaf::Variable(name, _) => lower_variable(name, scope),
        _ => Ok(Pattern::Literal(literal(alloc, own, leaf)?)),
    }
}

/// The pattern between parentheses.
#[tactic(auto, using(crate::proofs::Rows::alone_pattern, crate::proofs::Rows::several_patterns))]
fn alone(row: Vec<Pattern>) -> Pattern
    ensures { pat result ≡ pattern_alone (pats row.items) }
{
    let mut parts = row;
    if parts.len() != 1 {
        return Pattern::Alias(Patterns::new(parts));
    }
    match parts.pop() {
        Some(pattern) => pattern,
        None => Pattern::Alias(Patterns::new(parts)),
    }
}

/// What is made of the patterns of a shape's parts.
fn made_pattern(shape: &Shape, row: Vec<Pattern>) -> Pattern
    ensures { pat result ≡ pattern_made shape.now (pats row.items) }
{
    match shape {
        Shape::Tuple => Pattern::Tuple(Patterns::new(row)),
        Shape::List => Pattern::List(Patterns::new(row)),
        Shape::Cons => Pattern::Cons(Patterns::new(row)),
        Shape::Parenthesized => alone(row),
        _ => Pattern::Alias(Patterns::new(row)),
    }
}

/// A pattern, whose variables it binds.
#[cycle(patterns)]
pub(crate) fn lower_pattern<'a>(
    alloc: Global,
    own: &Atom,
    tree: &'a SyntaxTree,
    scope: &mut Scope<'a>,
) -> Result<Pattern, AllocError>
    ensures found { IfOk result (λ p. pat p ≡ pattern_of own.now scope.old (tree_of tree.now)) }
    ensures bound { OnOk result (scope.new ≡ with_names scope.old (pattern_names (tree_of tree.now))) }
{
    match tree {
        SyntaxTree::Leaf(leaf) => lower_leaf(alloc, own, leaf, scope),
        SyntaxTree::Node(shape, parts) => {
            let row = lower_patterns(alloc, own, parts.as_slice(), scope)?;
            Ok(made_pattern(shape, row))
        }
        SyntaxTree::Case(_, _) => Ok(Pattern::Anything),
    }
}

/// Patterns in a row.
#[cycle(patterns)]
pub(crate) fn lower_patterns<'a>(
    alloc: Global,
    own: &Atom,
    row: &'a [SyntaxTree],
    scope: &mut Scope<'a>,
) -> Result<Vec<Pattern>, AllocError>
    ensures found { IfOk result (λ ps. pats ps.items ≡ patterns_of own.now scope.old (trees row.now)) }
    ensures bound { OnOk result (scope.new ≡ with_names scope.old (pattern_names_in (trees row.now))) }
{
    let mut items = Vec::with_capacity(alloc, row.len())?;
    for tree in row {
        items.push(lower_pattern(alloc, own, tree, scope)?)?;
    }
    Ok(items)
}

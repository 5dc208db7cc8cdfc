// Expressions, guards and clauses.
ghost use Rattle.std.specs.Prelude.{◌≡◌, ◌∷◌, [], IfOk, OnOk};
ghost use Rattle.erl_ast.specs.Tree.{tree_count};
ghost use Rattle.erl_ast.specs.TreeForms.{tree as tree_of, trees, guards as guards_in, clauses as clauses_in};
ghost use Rattle.erl_lint.specs.Scopes.{binds, binds_in, binds_in_first, binds_in_match, with_names};
ghost use Rattle.erl_ir.specs.ExpressionForms.{expr, exprs, guards, clauses};
ghost use Rattle.erl_lower.specs.Expressions.{by_making, clauses_of, connected_of, expression_of, guards_of, leaf_expression, made as made_of, match_of, row_of};

use crate::literals::literal;
use crate::making::{Making, making_of};
use crate::numbers::number_of;
use crate::parts::made;
use crate::patterns::{lower_pattern, lower_patterns};
use erl_ast::{ClauseTree, Leaf, Shape, SyntaxTree, SyntaxTrees};
use erl_ir::{Clause, Clauses, Connective, Expression, Expressions, Guard, Patterns};
use erl_lint::{Scope, count};
use erl_term::Atom;
use std::alloc::{AllocError, Global};

/// The expression of a leaf.
fn lower_leaf<'a>(
    alloc: Global,
    own: &Atom,
    leaf: &'a Leaf,
    scope: &Scope<'a>,
) -> Result<Expression, AllocError>
    ensures { IfOk result (λ e. expr e ≡ leaf_expression own.now scope.now leaf.now) }
{
    match leaf {
        Leaf::Variable(name, _) => Ok(Expression::Variable(number_of(scope.index_of(name))?)),
        _ => Ok(Expression::Literal(literal(alloc, own, leaf)?)),
    }
}

/// An expression.
#[cycle(expressions)]
#[tactic(auto, using(crate::proofs::Rows::bound_by))]
fn lower_expression<'a>(
    alloc: Global,
    own: &Atom,
    tree: &'a SyntaxTree,
    scope: &mut Scope<'a>,
) -> Result<Expression, AllocError>
    ensures found { IfOk result (λ e. expr e ≡ expression_of own.now scope.old (tree_of tree.now)) }
    ensures bound { OnOk result (scope.new ≡ with_names scope.old (binds (tree_of tree.now))) }
{
    match tree {
        SyntaxTree::Leaf(leaf) => lower_leaf(alloc, own, leaf, scope),
        SyntaxTree::Node(shape, parts) => {
            lower_node(alloc, own, shape, making_of(shape), parts, scope)
        }
        SyntaxTree::Case(subject, clauses) => {
            let body = lower_row(alloc, own, subject.as_slice(), scope)?;
            let cases = lower_clauses(alloc, own, clauses.as_slice(), scope)?;
            Ok(Expression::Case(Expressions::new(body), Clauses::new(cases)))
        }
    }
}

/// What a shape makes of its parts.
#[cycle(expressions)]
fn lower_node<'a>(
    alloc: Global,
    own: &Atom,
    shape: &Shape,
    making: Making,
    parts: &'a SyntaxTrees,
    scope: &mut Scope<'a>,
) -> Result<Expression, AllocError>
    ensures found { IfOk result (λ e. expr e ≡ by_making making (match_of own.now scope.old parts.now)
        (λ c. connected_of own.now scope.old c parts.now)
        (made_of own.now shape.now (tree_count parts.now) (row_of own.now scope.old parts.now))) }
    ensures bound { OnOk result (scope.new ≡ with_names scope.old
        (by_making making (binds_in_match parts.now) (λ c. binds_in_first parts.now) (binds_in parts.now))) }
{
    match making {
        Making::Matching => lower_match(alloc, own, parts.as_slice(), scope),
        Making::Connecting(connective) => {
            lower_connected(alloc, own, connective, parts.as_slice(), scope)
        }
        Making::Together => {
            let row = lower_row(alloc, own, parts.as_slice(), scope)?;
            made(alloc, own, shape, count(parts), row)
        }
    }
}

/// A match: its right side is evaluated first.
#[cycle(expressions)]
#[tactic(auto, using(crate::proofs::Rows::names_append))]
fn lower_match<'a>(
    alloc: Global,
    own: &Atom,
    parts: &'a [SyntaxTree],
    scope: &mut Scope<'a>,
) -> Result<Expression, AllocError>
    ensures found { IfOk result (λ e. expr e ≡ match_of own.now scope.old (trees parts.now)) }
    ensures bound { OnOk result (scope.new ≡ with_names scope.old (binds_in_match (trees parts.now))) }
{
    match parts {
        [] => Ok(Expression::Block(Expressions::new(Vec::new(alloc)))),
        [pattern, rest @ ..] => {
            let body = lower_row(alloc, own, rest, scope)?;
            let pattern = lower_pattern(alloc, own, pattern, scope)?;
            Ok(Expression::Match(pattern, Expressions::new(body)))
        }
    }
}

/// A connective: what its right side binds stays there.
#[cycle(expressions)]
fn lower_connected<'a>(
    alloc: Global,
    own: &Atom,
    connective: Connective,
    parts: &'a [SyntaxTree],
    scope: &mut Scope<'a>,
) -> Result<Expression, AllocError>
    ensures found { IfOk result (λ e. expr e ≡ connected_of own.now scope.old connective (trees parts.now)) }
    ensures bound { OnOk result (scope.new ≡ with_names scope.old (binds_in_first (trees parts.now))) }
{
    match parts {
        [] => Ok(Expression::Block(Expressions::new(Vec::new(alloc)))),
        [first, rest @ ..] => {
            let mut left = Vec::with_capacity(alloc, 1)?;
            left.push(lower_expression(alloc, own, first, scope)?)?;
            let right = lower_inside(alloc, own, rest, scope)?;
            let left = Expressions::new(left);
            Ok(Expression::ShortCircuit(connective, left, right))
        }
    }
}

/// Expressions in a row.
#[cycle(expressions)]
pub(crate) fn lower_row<'a>(
    alloc: Global,
    own: &Atom,
    row: &'a [SyntaxTree],
    scope: &mut Scope<'a>,
) -> Result<Vec<Expression>, AllocError>
    ensures found { IfOk result (λ es. exprs es.items ≡ row_of own.now scope.old (trees row.now)) }
    ensures bound { OnOk result (scope.new ≡ with_names scope.old (binds_in (trees row.now))) }
{
    let mut items = Vec::with_capacity(alloc, row.len())?;
    for tree in row {
        items.push(lower_expression(alloc, own, tree, scope)?)?;
    }
    Ok(items)
}

/// Expressions in a row: what they bind stays in them.
#[cycle(expressions)]
fn lower_inside<'a>(
    alloc: Global,
    own: &Atom,
    row: &'a [SyntaxTree],
    scope: &mut Scope<'a>,
) -> Result<Expressions, AllocError>
    ensures found { IfOk result (λ es. es ≡ row_of own.now scope.old (trees row.now)) }
    ensures kept { OnOk result (scope.new ≡ scope.old) }
{
    let outer = scope.len();
    let items = lower_row(alloc, own, row, scope)?;
    scope.keep_first(outer);
    Ok(Expressions::new(items))
}

/// The guards of a guard sequence.
#[cycle(expressions)]
pub(crate) fn lower_guards<'a>(
    alloc: Global,
    own: &Atom,
    alternatives: &'a [SyntaxTrees],
    scope: &mut Scope<'a>,
) -> Result<Vec<Expressions>, AllocError>
    ensures found { IfOk result (λ gs. guards gs.items ≡ guards_of own.now scope.old (guards_in alternatives.now)) }
    ensures kept { OnOk result (scope.new ≡ scope.old) }
{
    let mut items = Vec::with_capacity(alloc, alternatives.len())?;
    for tests in alternatives {
        items.push(lower_inside(alloc, own, tests.as_slice(), scope)?)?;
    }
    Ok(items)
}

/// A clause.
#[cycle(expressions)]
pub(crate) fn lower_clause<'a>(
    alloc: Global,
    own: &Atom,
    tree: &'a ClauseTree,
    scope: &mut Scope<'a>,
) -> Result<Clause, AllocError>
    ensures found { IfOk result (λ c. clauses (c ∷ []) ≡ clauses_of own.now scope.old (clauses_in («tree».now ∷ []))) }
    ensures kept { OnOk result (scope.new ≡ scope.old) }
{
    let outer = scope.len();
    let patterns = lower_patterns(alloc, own, tree.patterns.as_slice(), scope)?;
    let guards = lower_guards(alloc, own, tree.guard.as_slice(), scope)?;
    let body = lower_row(alloc, own, tree.body.as_slice(), scope)?;
    scope.keep_first(outer);
    Ok(Clause {
        patterns: Patterns::new(patterns),
        guard: Guard::new(guards),
        body: Expressions::new(body),
    })
}

/// Clauses in a row.
#[cycle(expressions)]
pub(crate) fn lower_clauses<'a>(
    alloc: Global,
    own: &Atom,
    row: &'a [ClauseTree],
    scope: &mut Scope<'a>,
) -> Result<Vec<Clause>, AllocError>
    ensures found { IfOk result (λ cs. clauses cs.items ≡ clauses_of own.now scope.old (clauses_in row.now)) }
    ensures kept { OnOk result (scope.new ≡ scope.old) }
{
    let mut items = Vec::with_capacity(alloc, row.len())?;
    for clause in row {
        items.push(lower_clause(alloc, own, clause, scope)?)?;
    }
    Ok(items)
}

// How deep patterns, expressions and definitions are nested, up to 2^64 - 1.
ghost use Rattle.std.specs.Prelude.{◌≡◌, ◌-◌, ◌^◌, min};
ghost use Rattle.erl_ir.specs.Pattern.{pat_depth, pats_depth};
ghost use Rattle.erl_ir.specs.PatternForms.{pat, pats};
ghost use Rattle.erl_ir.specs.Expression.{expr_depth, exprs_depth, guards_depth, clauses_depth};
ghost use Rattle.erl_ir.specs.ExpressionForms.{expr, exprs, guards, clauses};
ghost use Rattle.erl_ir.specs.Module.{definition_depth};

use crate::expression::{Clause, Expression, Expressions};
use crate::function::Definition;
use crate::pattern::Pattern;

/// How deep a definition is nested.
pub(crate) fn depth_of(definition: &Definition) -> u64
    ensures { result ≡ min (definition_depth definition.now) (2 ^ 64 - 1) }
{
    match definition {
        Definition::Clauses(clauses) => depth_of_clauses(clauses.as_slice()),
        Definition::Loop {
            patterns,
            guard,
            receive,
        } => depth_of_patterns(patterns.as_slice())
            .max(depth_of_guards(guard.as_slice()))
            .max(depth_of_clauses(receive.as_slice()).saturating_add(1)),
    }
}

/// How deep a pattern is nested.
#[cycle(patterns)]
fn depth_of_pattern(pattern: &Pattern) -> u64
    ensures { result ≡ min (pat_depth (pat pattern.now)) (2 ^ 64 - 1) }
{
    match pattern {
        Pattern::Literal(_) | Pattern::Variable(_) | Pattern::Anything => 0,
        Pattern::Tuple(row) | Pattern::List(row) | Pattern::Cons(row) | Pattern::Alias(row) => {
            depth_of_patterns(row.as_slice()).saturating_add(1)
        }
    }
}

/// The greatest depth of patterns.
#[cycle(patterns)]
fn depth_of_patterns(patterns: &[Pattern]) -> u64
    ensures { result ≡ min (pats_depth (pats patterns.now)) (2 ^ 64 - 1) }
{
    let mut depth = 0;
    for pattern in patterns {
        depth = depth_of_pattern(pattern).max(depth);
    }
    depth
}

/// How deep an expression is nested.
#[cycle(expressions)]
fn depth_of_expression(expression: &Expression) -> u64
    ensures { result ≡ min (expr_depth (expr expression.now)) (2 ^ 64 - 1) }
{
    match expression {
        Expression::Literal(_) | Expression::Variable(_) => 0,
        Expression::Apply(_, row) | Expression::Block(row) => {
            depth_of_row(row.as_slice()).saturating_add(1)
        }
        Expression::Match(pattern, body) => depth_of_pattern(pattern)
            .max(depth_of_row(body.as_slice()))
            .saturating_add(1),
        Expression::Case(subject, clauses) => depth_of_row(subject.as_slice())
            .max(depth_of_clauses(clauses.as_slice()))
            .saturating_add(1),
        Expression::ShortCircuit(_, left, right) => depth_of_row(left.as_slice())
            .max(depth_of_row(right.as_slice()))
            .saturating_add(1),
    }
}

/// The greatest depth of expressions.
#[cycle(expressions)]
fn depth_of_row(row: &[Expression]) -> u64
    ensures { result ≡ min (exprs_depth (exprs row.now)) (2 ^ 64 - 1) }
{
    let mut depth = 0;
    for expression in row {
        depth = depth_of_expression(expression).max(depth);
    }
    depth
}

/// The greatest depth of the tests of guards.
#[cycle(expressions)]
fn depth_of_guards(alternatives: &[Expressions]) -> u64
    ensures { result ≡ min (guards_depth (guards alternatives.now)) (2 ^ 64 - 1) }
{
    let mut depth = 0;
    for tests in alternatives {
        depth = depth_of_row(tests.as_slice()).max(depth);
    }
    depth
}

/// The greatest depth of clauses.
#[cycle(expressions)]
fn depth_of_clauses(items: &[Clause]) -> u64
    ensures { result ≡ min (clauses_depth (clauses items.now)) (2 ^ 64 - 1) }
{
    let mut depth = 0;
    for clause in items {
        let patterns = depth_of_patterns(clause.patterns.as_slice());
        let guards = depth_of_guards(clause.guard.as_slice());
        let body = depth_of_row(clause.body.as_slice());
        depth = patterns.max(guards).max(body).max(depth);
    }
    depth
}

// What the forms of a module are made of: patterns in a row, guard sequences, bodies, clauses.
ghost use Rattle.std.specs.Prelude.{◌≡◌, IfOk, MatchResult, Some, None};
ghost use Rattle.erl_ast.specs.Grammar.{matches as matches_in};
ghost use Rattle.erl_ast.specs.Terminal.{terminals};
ghost use Rattle.erl_ast.specs.TreeForms.{tree as tree_of};
ghost use Rattle.erl_ast.specs.declared.role.Role.TheVariants.{Expression as an_expression, Pattern as a_pattern};
ghost use Rattle.erl_expressions.specs.Reading.{read as read_in, parts as parts_in, guarded as guarded_in, row as row_in};
ghost use Rattle.erl_expressions.specs.Reading.{clauses_to_end as clauses_in};
ghost use Rattle.erl_expressions.specs.Refusing.{Leaves, IsToldOf};
ghost use Rattle.erl_expressions.specs.declared.delimiter.Delimiter.TheVariants.{CloseParen as close_paren};

use crate::delimiter::Delimiter;
use crate::operators::MATCHES;
use crate::reader::brackets::{parts, row};
use crate::reader::clauses::{clauses_to_end, guarded};
use crate::reader::{Reading, read};
use crate::refusal::Choice;
use erl_ast::{ClauseTrees, GuardTrees, Role, SyntaxTree, SyntaxTrees};
use erl_scan::Spot;
use std::alloc::Global;

/// Reads patterns in a row, which may be none, up to a closing parenthesis.
///
/// # Errors
///
/// As [`read_tree`](crate::read_tree).
pub fn read_patterns<'a>(alloc: Global, levels: u32, tokens: &'a [Spot]) -> Reading<'a, SyntaxTrees>
    ensures read { IfOk result (λ answer. MatchResult answer
        (λ f. parts_in (read_in levels a_pattern matches_in) close_paren (terminals tokens.now) ≡ Some (f.0, terminals f.1.now))
        (λ _. parts_in (read_in levels a_pattern matches_in) close_paren (terminals tokens.now) ≡ None)) }
    ensures told { IfOk result (λ answer. MatchResult answer (λ f. Leaves tokens.now f.1.now) (λ r. IsToldOf tokens.now r)) }
{
    match parts(
        alloc,
        levels,
        Role::Pattern,
        MATCHES,
        Delimiter::CloseParen,
        tokens,
    )? {
        Ok((items, rest)) => Ok(Ok((items.into_trees(), rest))),
        Err(refusal) => Ok(Err(refusal)),
    }
}

/// Reads a pattern.
///
/// # Errors
///
/// As [`read_tree`](crate::read_tree).
pub fn read_pattern<'a>(alloc: Global, levels: u32, tokens: &'a [Spot]) -> Reading<'a, SyntaxTree>
    ensures read { IfOk result (λ answer. MatchResult answer
        (λ f. read_in levels a_pattern matches_in (terminals tokens.now) ≡ Some (tree_of f.0, terminals f.1.now))
        (λ _. read_in levels a_pattern matches_in (terminals tokens.now) ≡ None)) }
    ensures told { IfOk result (λ answer. MatchResult answer (λ f. Leaves tokens.now f.1.now) (λ r. IsToldOf tokens.now r)) }
{
    match read(alloc, levels, Role::Pattern, MATCHES, tokens)? {
        Ok((tree, rest)) => Ok(Ok((tree.into_tree(), rest))),
        Err(refusal) => Ok(Err(refusal)),
    }
}

/// Reads a guard sequence, which may be none.
///
/// # Errors
///
/// As [`read_tree`](crate::read_tree).
pub fn read_guard<'a>(alloc: Global, levels: u32, tokens: &'a [Spot]) -> Reading<'a, GuardTrees>
    ensures read { IfOk result (λ answer. MatchResult answer
        (λ f. guarded_in (read_in levels) (terminals tokens.now) ≡ Some (f.0, terminals f.1.now))
        (λ _. guarded_in (read_in levels) (terminals tokens.now) ≡ None)) }
    ensures told { IfOk result (λ answer. MatchResult answer (λ f. Leaves tokens.now f.1.now) (λ r. IsToldOf tokens.now r)) }
{
    match guarded(alloc, levels, tokens)? {
        Ok((guards, rest)) => Ok(Ok((guards.into_trees(), rest))),
        Err(refusal) => Ok(Err(refusal)),
    }
}

/// Reads a body.
///
/// # Errors
///
/// As [`read_tree`](crate::read_tree).
pub fn read_body<'a>(alloc: Global, levels: u32, tokens: &'a [Spot]) -> Reading<'a, SyntaxTrees>
    ensures read { IfOk result (λ answer. MatchResult answer
        (λ f. row_in (read_in levels an_expression matches_in) (terminals tokens.now) ≡ Some (f.0, terminals f.1.now))
        (λ _. row_in (read_in levels an_expression matches_in) (terminals tokens.now) ≡ None)) }
    ensures told { IfOk result (λ answer. MatchResult answer (λ f. Leaves tokens.now f.1.now) (λ r. IsToldOf tokens.now r)) }
{
    match row(alloc, levels, Role::Expression, MATCHES, tokens)? {
        Ok((items, rest)) => Ok(Ok((items.into_trees(), rest))),
        Err(refusal) => Ok(Err(refusal)),
    }
}

/// Reads the clauses of a `receive`, and the word `end` behind them.
///
/// # Errors
///
/// As [`read_tree`](crate::read_tree).
pub fn read_clauses<'a>(alloc: Global, levels: u32, tokens: &'a [Spot]) -> Reading<'a, ClauseTrees>
    ensures read { IfOk result (λ answer. MatchResult answer
        (λ f. clauses_in (read_in levels) (terminals tokens.now) ≡ Some (f.0, terminals f.1.now))
        (λ _. clauses_in (read_in levels) (terminals tokens.now) ≡ None)) }
    ensures told { IfOk result (λ answer. MatchResult answer (λ f. Leaves tokens.now f.1.now) (λ r. IsToldOf tokens.now r)) }
{
    match clauses_to_end(alloc, levels, Choice::Receive, tokens)? {
        Ok((clauses, rest)) => Ok(Ok((clauses.into_trees(), rest))),
        Err(refusal) => Ok(Err(refusal.of_receive(tokens))),
    }
}

// Clauses: guard sequences and bodies.
ghost use Rattle.std.specs.Prelude.{◌≡◌, IfOk, MatchResult, Some, None};
ghost use Rattle.erl_ast.specs.Terminal.{terminals};
ghost use Rattle.erl_expressions.specs.Reading.{read as read_in, guarded as guarded_in, alternatives as alternatives_in, arm as arm_in, one_clause as clause_in};
ghost use Rattle.erl_expressions.specs.Reading.{clauses_to_end as clauses_in, cased as cased_in, closed as closed_in};
ghost use Rattle.erl_expressions.specs.Refusing.{Leaves, IsToldOf};

use super::brackets::row;
use super::{Reading, read};
use crate::deep::{Deep, DeepArm, DeepClause, DeepClauses, DeepGuards};
use crate::delimiter::{Delimiter, after};
use crate::operators::{MATCHES, OPERATIONS};
use crate::refusal::{Choice, Reason, Refusal};
use erl_ast::Role;
use erl_scan::Spot;
use std::alloc::Global;

/// A guard sequence, if there is one.
#[cycle(reading)]
#[tactic(auto, unfolding(crate::specs::Reading::guarded))]
pub(crate) fn guarded<'a>(alloc: Global, levels: u32, tokens: &'a [Spot]) -> Reading<'a, DeepGuards>
    ensures read { IfOk result (λ answer. MatchResult answer
        (λ f. guarded_in (read_in levels) (terminals tokens.now) ≡ Some (f.0, terminals f.1.now))
        (λ _. guarded_in (read_in levels) (terminals tokens.now) ≡ None)) }
    ensures told { IfOk result (λ answer. MatchResult answer (λ f. Leaves tokens.now f.1.now) (λ r. IsToldOf tokens.now r)) }
{
    match after(Delimiter::When, tokens) {
        Some(behind) => alternatives(alloc, levels, behind),
        None => Ok(Ok((DeepGuards::new(alloc), tokens))),
    }
}

/// Guards with semicolons between them.
#[cycle(reading)]
#[tactic(auto, using(crate::proofs::Things::guards_begin, crate::proofs::Things::guards_more, crate::proofs::Things::guards_last, crate::proofs::Things::guards_not, crate::proofs::Things::guards_out))]
fn alternatives<'a>(alloc: Global, levels: u32, tokens: &'a [Spot]) -> Reading<'a, DeepGuards>
    ensures read { IfOk result (λ answer. MatchResult answer
        (λ f. alternatives_in (read_in levels) (terminals tokens.now) ≡ Some (f.0, terminals f.1.now))
        (λ _. alternatives_in (read_in levels) (terminals tokens.now) ≡ None)) }
    ensures told { IfOk result (λ answer. MatchResult answer (λ f. Leaves tokens.now f.1.now) (λ r. IsToldOf tokens.now r)) }
{
    let mut guards = DeepGuards::new(alloc);
    let mut left = tokens;
    for _turn in 0..tokens.len() {
        let rest = match row(alloc, levels, Role::Test, OPERATIONS, left)? {
            Ok((tests, rest)) => {
                guards.push(tests)?;
                rest
            }
            Err(refusal) => return Ok(Err(refusal)),
        };
        match after(Delimiter::Semicolon, rest) {
            Some(behind) => left = behind,
            None => return Ok(Ok((guards.fitted(alloc)?, rest))),
        }
    }
    Ok(Err(Refusal::at(Reason::Syntax, left)))
}

/// A guard sequence, if there is one, and a body.
#[cycle(reading)]
#[tactic(auto, unfolding(crate::specs::Reading::arm))]
pub(super) fn arm<'a>(alloc: Global, levels: u32, tokens: &'a [Spot]) -> Reading<'a, DeepArm>
    ensures read { IfOk result (λ answer. MatchResult answer
        (λ f. arm_in (read_in levels) (terminals tokens.now) ≡ Some ((f.0.guards, f.0.body), terminals f.1.now))
        (λ _. arm_in (read_in levels) (terminals tokens.now) ≡ None)) }
    ensures told { IfOk result (λ answer. MatchResult answer (λ f. Leaves tokens.now f.1.now) (λ r. IsToldOf tokens.now r)) }
{
    let (guards, rest) = match guarded(alloc, levels, tokens)? {
        Ok(found) => found,
        Err(refusal) => return Ok(Err(refusal)),
    };
    let Some(behind) = after(Delimiter::Arrow, rest) else {
        return Ok(Err(Refusal::behind(rest)));
    };
    match row(alloc, levels, Role::Expression, MATCHES, behind)? {
        Ok((body, rest)) => Ok(Ok((DeepArm { guards, body }, rest))),
        Err(refusal) => Ok(Err(refusal)),
    }
}

/// A clause of one pattern.
#[cycle(reading)]
#[tactic(auto, unfolding(crate::specs::Reading::one_clause))]
fn one_clause<'a>(alloc: Global, levels: u32, tokens: &'a [Spot]) -> Reading<'a, DeepClause>
    ensures read { IfOk result (λ answer. MatchResult answer
        (λ f. clause_in (read_in levels) (terminals tokens.now) ≡ Some
        ((f.0.pattern, (f.0.arm.guards, f.0.arm.body)), terminals f.1.now))
        (λ _. clause_in (read_in levels) (terminals tokens.now) ≡ None)) }
    ensures told { IfOk result (λ answer. MatchResult answer (λ f. Leaves tokens.now f.1.now) (λ r. IsToldOf tokens.now r)) }
{
    let (pattern, rest) = match read(alloc, levels, Role::Pattern, MATCHES, tokens)? {
        Ok(found) => found,
        Err(refusal) => return Ok(Err(refusal)),
    };
    match arm(alloc, levels, rest)? {
        Ok((arm, rest)) => Ok(Ok((DeepClause { pattern, arm }, rest))),
        Err(refusal) => Ok(Err(refusal)),
    }
}

/// Clauses of a `case` or of a `receive`, up to the word behind them.
#[cycle(reading)]
#[tactic(auto, using(crate::proofs::Things::clauses_begin, crate::proofs::Things::clauses_more, crate::proofs::Things::clauses_last, crate::proofs::Things::clauses_not, crate::proofs::Things::clauses_out))]
pub(crate) fn clauses_to_end<'a>(
    alloc: Global,
    levels: u32,
    choice: Choice,
    tokens: &'a [Spot],
) -> Reading<'a, DeepClauses>
    ensures read { IfOk result (λ answer. MatchResult answer
        (λ f. clauses_in (read_in levels) (terminals tokens.now) ≡ Some (f.0, terminals f.1.now))
        (λ _. clauses_in (read_in levels) (terminals tokens.now) ≡ None)) }
    ensures told { IfOk result (λ answer. MatchResult answer (λ f. Leaves tokens.now f.1.now) (λ r. IsToldOf tokens.now r)) }
{
    let mut clauses = DeepClauses::new(alloc);
    let mut left = tokens;
    for _turn in 0..tokens.len() {
        let rest = match one_clause(alloc, levels, left)? {
            Ok((clause, rest)) => {
                clauses.push(alloc, clause)?;
                rest
            }
            Err(refusal) => return Ok(Err(refusal)),
        };
        match after(Delimiter::Semicolon, rest) {
            Some(behind) => left = behind,
            None => return Ok(closed(clauses.fitted(alloc)?, choice, rest)),
        }
    }
    Ok(Err(Refusal::at(Reason::Syntax, left)))
}

/// Clauses, where the word stands behind them that ends them.
fn closed<'a>(
    clauses: DeepClauses,
    choice: Choice,
    tokens: &'a [Spot],
) -> Result<(DeepClauses, &'a [Spot]), Refusal>
    ensures read { MatchResult result
        (λ f. closed_in clauses (terminals tokens.now) ≡ Some (f.0, terminals f.1.now))
        (λ _. closed_in clauses (terminals tokens.now) ≡ None) }
    ensures told { MatchResult result (λ f. Leaves tokens.now f.1.now) (λ r. IsToldOf tokens.now r) }
{
    match after(Delimiter::End, tokens) {
        Some(rest) => Ok((clauses, rest)),
        None => Err(Refusal::behind_clauses(choice, tokens)),
    }
}

/// `case E of Cs end`, behind the first word, which is the first of all.
#[cycle(reading)]
#[tactic(auto, unfolding(crate::specs::Reading::cased))]
pub(super) fn cased<'a>(
    alloc: Global,
    levels: u32,
    role: Role,
    told: &[Spot],
    tokens: &'a [Spot],
) -> Reading<'a, Deep>
    requires { Leaves told.now tokens.now }
    ensures read { IfOk result (λ answer. MatchResult answer
        (λ f. cased_in (read_in levels) role (terminals tokens.now) ≡ Some (f.0, terminals f.1.now))
        (λ _. cased_in (read_in levels) role (terminals tokens.now) ≡ None)) }
    ensures told { IfOk result (λ answer. MatchResult answer (λ f. Leaves tokens.now f.1.now) (λ r. IsToldOf told.now r)) }
{
    if !matches!(role, Role::Expression) {
        return Ok(Err(Refusal::at(Reason::Syntax, told)));
    }
    let (subject, rest) = match read(alloc, levels, Role::Expression, MATCHES, tokens)? {
        Ok(found) => found,
        Err(refusal) => return Ok(Err(refusal)),
    };
    let Some(behind) = after(Delimiter::Of, rest) else {
        return Ok(Err(Refusal::behind(rest)));
    };
    match clauses_to_end(alloc, levels, Choice::Case, behind)? {
        Ok((clauses, rest)) => Ok(Ok((Deep::case(alloc, subject, clauses)?, rest))),
        Err(refusal) => Ok(Err(refusal)),
    }
}

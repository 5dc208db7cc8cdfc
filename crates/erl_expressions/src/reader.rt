// Expressions, patterns and tests of guards, read from tokens.
ghost use Rattle.std.specs.Prelude.{◌≡◌, IfOk, MatchResult, Some, None};
ghost use Rattle.erl_ast.specs.Terminal.{terminals};
ghost use Rattle.erl_expressions.specs.Reading.{read as read_in};
ghost use Rattle.erl_expressions.specs.Refusing.{Leaves, IsToldOf};

pub(crate) mod brackets;
pub(crate) mod clauses;
mod operands;

use crate::deep::Deep;
use crate::refusal::Refusal;
use erl_ast::Role;
use erl_scan::Spot;
use std::alloc::{AllocError, Global};

/// What was read and the tokens behind it, or why the tokens begin with no such thing; or memory was refused.
pub type Reading<'a, T> = Result<Result<(T, &'a [Spot]), Refusal>, AllocError>;

/// Reads the tree of a role, of at most a level and nested at most so many levels, that tokens begin with.
#[cycle(reading)]
#[tactic(auto, using(crate::proofs::ByLevels::read_alone, crate::proofs::ByLevels::read_on, crate::proofs::ByLevels::read_not))]
pub(crate) fn read<'a>(
    alloc: Global,
    levels: u32,
    role: Role,
    most: u32,
    tokens: &'a [Spot],
) -> Reading<'a, Deep>
    ensures read { IfOk result (λ answer. MatchResult answer
        (λ f. read_in levels role most (terminals tokens.now) ≡ Some (f.0, terminals f.1.now))
        (λ _. read_in levels role most (terminals tokens.now) ≡ None)) }
    ensures told { IfOk result (λ answer. MatchResult answer (λ f. Leaves tokens.now f.1.now) (λ r. IsToldOf tokens.now r)) }
{
    if levels == 0 {
        return operands::leaf_alone(alloc, role, most, tokens);
    }
    match operands::begun(alloc, levels - 1, role, tokens)? {
        Ok((left, rest)) => operands::climbed(alloc, levels, role, most, left, rest),
        Err(refusal) => operands::matched(alloc, levels, role, most, tokens, refusal),
    }
}

// What operators stand between, and operators.
ghost use Rattle.std.specs.Prelude.{◌≡◌, ◌≤◌, ◌-◌, IfOk, MatchResult, Some, None, false};
ghost use Rattle.erl_ast.specs.Grammar.{level as level_in, is_leaf as is_leaf_in};
ghost use Rattle.erl_ast.specs.Terminal.{terminal, terminals};
ghost use Rattle.erl_ast.specs.TreeForms.{tree as tree_of};
ghost use Rattle.erl_expressions.specs.Reading.{read as read_in, begun as begun_in, construct as construct_in, leaf_read as leaf_in};
ghost use Rattle.erl_expressions.specs.Reading.{begun_by_mark as by_mark, begun_by_word as by_word, called as called_in};
ghost use Rattle.erl_expressions.specs.Reading.{own_called as own_in, remote as remote_in, prefixed as prefixed_in};
ghost use Rattle.erl_expressions.specs.Reading.{climbed as climbed_in, joined as joined_in, only_leaf};
ghost use Rattle.erl_expressions.specs.Reading.{behind_first as behind_first_in, matched as matched_in};
ghost use Rattle.erl_expressions.specs.Leaves.{leaf_ahead as leaf_ahead_in};
ghost use Rattle.erl_expressions.specs.Refusing.{Leaves, IsToldOf, begins_with_dot};

use super::brackets::{bracketed, listed, made, parenthesized};
use super::clauses::cased;
use super::{Reading, read};
use crate::deep::{Deep, DeepRow};
use crate::leaves::{colon_ahead, is_module, leaf_ahead, named, paren_ahead};
use crate::operators::{MATCHES, level_of, match_ahead, operator_ahead, right_level};
use crate::patterns::may_be_left_of;
use crate::refusal::{Reason, Refusal};
use erl_ast::{Infix, Leaf, Named, Prefix, Qualifier, Role, Shape, Sign, SyntaxTree};
use erl_scan::{Mark, Spot, Token, Word};
use std::alloc::{AllocError, Global};
use values::Shared;

/// The tree of a leaf alone, where tokens begin with one and no operator goes on with it.
#[inline(never)]
pub(super) fn leaf_alone<'a>(
    alloc: Global,
    role: Role,
    most: u32,
    tokens: &'a [Spot],
) -> Reading<'a, Deep>
    ensures read { IfOk result (λ answer. MatchResult answer
        (λ f. only_leaf (leaf_ahead_in (terminals tokens.now)) role most ≡ Some (f.0, terminals f.1.now))
        (λ _. only_leaf (leaf_ahead_in (terminals tokens.now)) role most ≡ None)) }
    ensures told { IfOk result (λ answer. MatchResult answer (λ f. Leaves tokens.now f.1.now) (λ r. IsToldOf tokens.now r)) }
{
    let Some((leaf, rest)) = leaf_ahead(alloc, tokens)? else {
        return Ok(Err(Refusal::too_deep(tokens)));
    };
    if operator_ahead(role, most, 0, rest).is_some() {
        return Ok(Err(Refusal::at(Reason::TooDeep, rest)));
    }
    Ok(leaf_read(leaf, tokens, rest))
}

/// The tree of a leaf, which tokens begin with, and the tokens behind it.
#[inline(always)]
fn leaf_read<'a>(
    leaf: Leaf,
    tokens: &'a [Spot],
    rest: &'a [Spot],
) -> Result<(Deep, &'a [Spot]), Refusal>
    ensures read { MatchResult result
        (λ f. leaf_in (leaf, terminals rest.now) ≡ Some (f.0, terminals f.1.now))
        (λ _. leaf_in (leaf, terminals rest.now) ≡ None) }
    ensures told { MatchResult result (λ f. f.1.now ≡ rest.now) (λ r. IsToldOf tokens.now r) }
{
    if is_leaf(&leaf) {
        Ok((Deep::leaf(leaf), rest))
    } else {
        Err(Refusal::at(Reason::IntegerRange, tokens))
    }
}

/// Whether an integer is in range.
fn is_leaf(leaf: &Leaf) -> bool
    ensures { result ≡ is_leaf_in leaf.now }
{
    match leaf {
        Leaf::Integer(Sign::Minus, n) => *n <= 9223372036854775808,
        Leaf::Integer(Sign::Plus | Sign::Unsigned, n) => *n <= 9223372036854775807,
        Leaf::Strings(strings) => !strings.as_slice().is_empty(),
        Leaf::Atom(_) | Leaf::Variable(_, _) | Leaf::ModuleName(_) => true,
    }
}

/// An expression up to the first operator between parts.
#[cycle(reading)]
#[tactic(auto, unfolding(crate::specs::Reading::begun))]
pub(super) fn begun<'a>(
    alloc: Global,
    levels: u32,
    role: Role,
    tokens: &'a [Spot],
) -> Reading<'a, Deep>
    ensures read { IfOk result (λ answer. MatchResult answer
        (λ f. begun_in (read_in levels) role (terminals tokens.now) ≡ Some (f.0, terminals f.1.now))
        (λ _. begun_in (read_in levels) role (terminals tokens.now) ≡ None)) }
    ensures told { IfOk result (λ answer. MatchResult answer (λ f. Leaves tokens.now f.1.now) (λ r. IsToldOf tokens.now r)) }
{
    match leaf_ahead(alloc, tokens)? {
        Some((leaf, rest)) => Ok(leaf_read(leaf, tokens, rest)),
        None => construct(alloc, levels, role, tokens),
    }
}

/// What is no leaf and begins with no part.
#[cycle(reading)]
#[tactic(auto, unfolding(crate::specs::Reading::construct))]
fn construct<'a>(alloc: Global, levels: u32, role: Role, tokens: &'a [Spot]) -> Reading<'a, Deep>
    ensures read { IfOk result (λ answer. MatchResult answer
        (λ f. construct_in (read_in levels) role (terminals tokens.now) ≡ Some (f.0, terminals f.1.now))
        (λ _. construct_in (read_in levels) role (terminals tokens.now) ≡ None)) }
    ensures told { IfOk result (λ answer. MatchResult answer (λ f. Leaves tokens.now f.1.now) (λ r. IsToldOf tokens.now r)) }
{
    let Some((first, rest)) = tokens.split_first() else {
        return Ok(Err(Refusal::at(Reason::Syntax, tokens)));
    };
    match &first.what {
        Token::Atom(name) => {
            let name = named(name, first.at)?;
            called(alloc, levels, role, name, tokens, rest)
        }
        Token::Mark(mark) => begun_by_mark(alloc, levels, role, *mark, tokens, rest),
        Token::Word(word) => begun_by_word(alloc, levels, role, *word, tokens, rest),
        _ => Ok(Err(Refusal::at_start(tokens))),
    }
}

/// What begins with a sign, which is the first token.
#[cycle(reading)]
fn begun_by_mark<'a>(
    alloc: Global,
    levels: u32,
    role: Role,
    mark: Mark,
    tokens: &'a [Spot],
    rest: &'a [Spot],
) -> Reading<'a, Deep>
    requires { Leaves tokens.now rest.now }
    ensures read { IfOk result (λ answer. MatchResult answer
        (λ f. by_mark (read_in levels) role mark (terminals rest.now) ≡ Some (f.0, terminals f.1.now))
        (λ _. by_mark (read_in levels) role mark (terminals rest.now) ≡ None)) }
    ensures told { IfOk result (λ answer. MatchResult answer (λ f. Leaves tokens.now f.1.now) (λ r. IsToldOf tokens.now r)) }
{
    match mark {
        Mark::OpenBrace => bracketed(alloc, levels, role, Shape::Tuple, tokens, rest),
        Mark::OpenBracket => listed(alloc, levels, role, rest),
        Mark::OpenParen => parenthesized(alloc, levels, role, rest),
        Mark::Minus => prefixed(alloc, levels, role, Prefix::Negate, tokens, rest),
        Mark::Question => own_called(alloc, levels, role, tokens, rest),
        _ => Ok(Err(Refusal::at_sign(tokens, rest))),
    }
}

/// What begins with a reserved word, which is the first token.
#[cycle(reading)]
fn begun_by_word<'a>(
    alloc: Global,
    levels: u32,
    role: Role,
    word: Word,
    tokens: &'a [Spot],
    rest: &'a [Spot],
) -> Reading<'a, Deep>
    requires { Leaves tokens.now rest.now }
    ensures read { IfOk result (λ answer. MatchResult answer
        (λ f. by_word (read_in levels) role word (terminals rest.now) ≡ Some (f.0, terminals f.1.now))
        (λ _. by_word (read_in levels) role word (terminals rest.now) ≡ None)) }
    ensures told { IfOk result (λ answer. MatchResult answer (λ f. Leaves tokens.now f.1.now) (λ r. IsToldOf tokens.now r)) }
{
    match word {
        Word::Not => prefixed(alloc, levels, role, Prefix::Not, tokens, rest),
        Word::Begin => bracketed(alloc, levels, role, Shape::Block, tokens, rest),
        Word::Case => cased(alloc, levels, role, tokens, rest),
        _ => Ok(Err(Refusal::at_start(tokens))),
    }
}

/// A call, behind the name that it begins with, which is the first of all.
#[cycle(reading)]
#[tactic(auto, unfolding(crate::specs::Reading::called))]
fn called<'a>(
    alloc: Global,
    levels: u32,
    role: Role,
    name: Named,
    call: &'a [Spot],
    tokens: &'a [Spot],
) -> Reading<'a, Deep>
    requires { Leaves call.now tokens.now }
    ensures read { IfOk result (λ answer. MatchResult answer
        (λ f. called_in (read_in levels) role name (terminals tokens.now) ≡ Some (f.0, terminals f.1.now))
        (λ _. called_in (read_in levels) role name (terminals tokens.now) ≡ None)) }
    ensures told { IfOk result (λ answer. MatchResult answer (λ f. Leaves tokens.now f.1.now) (λ r. IsToldOf call.now r)) }
{
    let Some((first, rest)) = tokens.split_first() else {
        return Ok(Err(Refusal::at(Reason::Syntax, tokens)));
    };
    match &first.what {
        Token::Mark(Mark::OpenParen) => {
            let told = call_told_at(role, call, tokens);
            bracketed(alloc, levels, role, Shape::Local(name), told, rest)
        }
        Token::Mark(Mark::Colon) => {
            remote(alloc, levels, role, Qualifier::Module(name), tokens, rest)
        }
        _ => Ok(Err(Refusal::at(Reason::Syntax, tokens))),
    }
}

/// Where a call is told that a role hasn't: in a guard at its function's name, in a pattern behind it.
fn call_told_at<'a>(role: Role, name: &'a [Spot], behind: &'a [Spot]) -> &'a [Spot]
    requires { Leaves name.now behind.now }
    ensures of_name { Leaves name.now result.now }
    ensures of_behind { Leaves result.now behind.now }
{
    match role {
        Role::Pattern => behind,
        Role::Expression | Role::Test => name,
    }
}

/// `?MODULE:f(..)`, behind the first sign, which is the first of all.
#[cycle(reading)]
#[tactic(auto, unfolding(crate::specs::Reading::own_called))]
fn own_called<'a>(
    alloc: Global,
    levels: u32,
    role: Role,
    call: &'a [Spot],
    tokens: &'a [Spot],
) -> Reading<'a, Deep>
    requires { Leaves call.now tokens.now }
    ensures read { IfOk result (λ answer. MatchResult answer
        (λ f. own_in (read_in levels) role (terminals tokens.now) ≡ Some (f.0, terminals f.1.now))
        (λ _. own_in (read_in levels) role (terminals tokens.now) ≡ None)) }
    ensures told { IfOk result (λ answer. MatchResult answer (λ f. Leaves tokens.now f.1.now) (λ r. IsToldOf call.now r)) }
{
    let Some((word, rest)) = tokens.split_first() else {
        return Ok(Err(Refusal::at(Reason::Syntax, tokens)));
    };
    match &word.what {
        Token::Variable(name) if is_module(name) && colon_ahead(rest) => {
            let owner = Qualifier::ModuleName(word.at);
            remote(alloc, levels, role, owner, rest, behind_first(rest))
        }
        _ => Ok(Err(Refusal::at_start(call))),
    }
}

/// A call of a function of a module, behind the colon, which is the first of all. A pattern is told to have none at the colon.
#[cycle(reading)]
#[tactic(auto, unfolding(crate::specs::Reading::remote))]
fn remote<'a>(
    alloc: Global,
    levels: u32,
    role: Role,
    owner: Qualifier,
    sign: &'a [Spot],
    tokens: &'a [Spot],
) -> Reading<'a, Deep>
    requires { Leaves sign.now tokens.now }
    ensures read { IfOk result (λ answer. MatchResult answer
        (λ f. remote_in (read_in levels) role owner (terminals tokens.now) ≡ Some (f.0, terminals f.1.now))
        (λ _. remote_in (read_in levels) role owner (terminals tokens.now) ≡ None)) }
    ensures told { IfOk result (λ answer. MatchResult answer (λ f. Leaves tokens.now f.1.now) (λ r. IsToldOf sign.now r)) }
{
    let Some((name, rest)) = tokens.split_first() else {
        return Ok(Err(Refusal::at(Reason::Syntax, tokens).of_call(role, sign)));
    };
    match &name.what {
        Token::Atom(function) if paren_ahead(rest) => {
            let function = named(function, name.at)?;
            let shape = Shape::Remote(Shared::new(alloc, owner)?, Shared::new(alloc, function)?);
            match bracketed(alloc, levels, role, shape, tokens, behind_first(rest))? {
                Ok(found) => Ok(Ok(found)),
                Err(refusal) => Ok(Err(refusal.of_call(role, sign))),
            }
        }
        Token::Atom(_) => Ok(Err(Refusal::behind(rest).of_call(role, sign))),
        _ => Ok(Err(Refusal::no_remote(tokens).of_call(role, sign))),
    }
}

/// An operator before its operand, behind the operator, which is the first of all.
#[cycle(reading)]
#[tactic(auto, unfolding(crate::specs::Reading::prefixed))]
fn prefixed<'a>(
    alloc: Global,
    levels: u32,
    role: Role,
    op: Prefix,
    sign: &[Spot],
    tokens: &'a [Spot],
) -> Reading<'a, Deep>
    requires { Leaves sign.now tokens.now }
    ensures read { IfOk result (λ answer. MatchResult answer
        (λ f. prefixed_in (read_in levels) role op (terminals tokens.now) ≡ Some (f.0, terminals f.1.now))
        (λ _. prefixed_in (read_in levels) role op (terminals tokens.now) ≡ None)) }
    ensures told { IfOk result (λ answer. MatchResult answer (λ f. Leaves tokens.now f.1.now) (λ r. IsToldOf sign.now r)) }
{
    if matches!(role, Role::Pattern) {
        return Ok(Err(Refusal::before_pattern(op, sign, tokens)));
    }
    match read(alloc, levels, role, 1, tokens)? {
        Ok((operand, rest)) => {
            let parts = DeepRow::of(alloc, operand)?;
            Ok(made(role, Shape::Prefix(op), parts, sign, rest))
        }
        Err(refusal) => Ok(Err(refusal)),
    }
}

/// As many operators as go on with a tree, each with its right operand.
#[cycle(reading)]
#[tactic(auto, using(crate::proofs::ByLevels::climbed_all, crate::proofs::ByLevels::climbed_more))]
pub(super) fn climbed<'a>(
    alloc: Global,
    levels: u32,
    role: Role,
    most: u32,
    first: Deep,
    tokens: &'a [Spot],
) -> Reading<'a, Deep>
    requires { 1 ≤ levels }
    ensures read { IfOk result (λ answer. MatchResult answer
        (λ f. climbed_in levels (read_in (levels - 1)) role most levels first (terminals tokens.now) ≡ Some
        (f.0, terminals f.1.now))
        (λ _. climbed_in levels (read_in (levels - 1)) role most levels first (terminals tokens.now) ≡ None)) }
    ensures told { IfOk result (λ answer. MatchResult answer (λ f. Leaves tokens.now f.1.now) (λ r. IsToldOf tokens.now r)) }
{
    let mut left = first;
    let mut rest = tokens;
    for _turn in 0..levels {
        let Some(op) = operator_ahead(role, most, level(&left.tree), rest) else {
            return Ok(Ok((left, rest)));
        };
        match joined(alloc, levels, role, role, left, op, rest)? {
            Ok((tree, behind)) => {
                left = tree;
                rest = behind;
            }
            Err(refusal) => return Ok(Err(refusal)),
        }
    }
    match operator_ahead(role, most, level(&left.tree), rest) {
        None => Ok(Ok((left, rest))),
        Some(_) => Ok(Err(Refusal::at(Reason::TooDeep, rest))),
    }
}

/// A match whose pattern is no expression, as another match stands in it. Else the expression's refusal is told.
#[cycle(reading)]
#[inline(never)]
pub(super) fn matched<'a>(
    alloc: Global,
    levels: u32,
    role: Role,
    most: u32,
    tokens: &'a [Spot],
    refusal: Refusal,
) -> Reading<'a, Deep>
    requires levels { 1 ≤ levels }
    requires told { IsToldOf tokens.now refusal }
    ensures read { IfOk result (λ answer. MatchResult answer
        (λ f. matched_in (read_in (levels - 1)) role most levels (terminals tokens.now) ≡ Some (f.0, terminals f.1.now))
        (λ _. matched_in (read_in (levels - 1)) role most levels (terminals tokens.now) ≡ None)) }
    ensures told { IfOk result (λ answer. MatchResult answer (λ f. Leaves tokens.now f.1.now) (λ r. IsToldOf tokens.now r)) }
{
    if !matches!(role, Role::Expression) || most < MATCHES {
        return Ok(Err(refusal));
    }
    match begun(alloc, levels - 1, Role::Pattern, tokens)? {
        Ok((pattern, rest)) if match_ahead(rest) => {
            joined(
                alloc,
                levels,
                Role::Pattern,
                role,
                pattern,
                Infix::Match,
                rest,
            )
        }
        Ok(_) | Err(_) => Ok(Err(refusal)),
    }
}

/// An operator between what stands left of it, which was read in a role of its own, and what is read on its right, if there is
/// room for it.
#[cycle(reading)]
fn joined<'a>(
    alloc: Global,
    levels: u32,
    was: Role,
    role: Role,
    left: Deep,
    op: Infix,
    tokens: &'a [Spot],
) -> Reading<'a, Deep>
    requires levels { 1 ≤ levels }
    requires no_dot { begins_with_dot tokens.now ≡ false }
    ensures read { IfOk result (λ answer. MatchResult answer
        (λ f. joined_in (read_in (levels - 1)) was role levels left op (terminals tokens.now) ≡ Some (f.0, terminals f.1.now))
        (λ _. joined_in (read_in (levels - 1)) was role levels left op (terminals tokens.now) ≡ None)) }
    ensures told { IfOk result (λ answer. MatchResult answer (λ f. Leaves tokens.now f.1.now) (λ r. IsToldOf tokens.now r)) }
{
    if !left.is_below(levels) {
        return Ok(Err(Refusal::at(Reason::TooDeep, tokens)));
    }
    if !may_be_left_of(was, op, &left.tree) {
        return Ok(Err(Refusal::no_pattern(&left.tree, tokens)));
    }
    match read(
        alloc,
        levels - 1,
        role,
        right_level(op),
        behind_first(tokens),
    )? {
        Ok((right, behind)) => {
            let parts = DeepRow::pair(alloc, left, right)?;
            Ok(Ok((Deep::node(Shape::Infix(op), parts), behind)))
        }
        Err(refusal) => Ok(Err(refusal)),
    }
}

/// The tokens behind the first.
fn behind_first(tokens: &[Spot]) -> &[Spot]
    ensures is { terminals result.now ≡ behind_first_in (terminals tokens.now) }
    ensures leaves { begins_with_dot tokens.now ≡ false → Leaves tokens.now result.now }
{
    match tokens.split_first() {
        Some((_, rest)) => rest,
        None => tokens,
    }
}

/// The level of a tree.
fn level(tree: &SyntaxTree) -> u32
    ensures { result ≡ level_in (tree_of tree.now) }
{
    match tree {
        SyntaxTree::Node(Shape::Prefix(_), _) => 1,
        SyntaxTree::Node(Shape::Infix(op), _) => level_of(*op),
        _ => 0,
    }
}

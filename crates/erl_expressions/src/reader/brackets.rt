// Brackets, and rows of trees in them.
ghost use Rattle.std.specs.Prelude.{◌≡◌, IfOk, MatchResult, Some, None};
ghost use Rattle.erl_ast.specs.Grammar.{in_brackets as brackets_in, first_level as first_in, has as has_in};
ghost use Rattle.erl_ast.specs.Grammar.{is_erlang as erlang_in, calls as calls_in, calls_remote as remote_in};
ghost use Rattle.erl_ast.specs.Terminal.{terminals};
ghost use Rattle.erl_expressions.specs.Delimiters.{after as after_in};
ghost use Rattle.erl_expressions.specs.Reading.{read as read_in, row as row_in, parts as parts_in, bracketed as bracketed_in};
ghost use Rattle.erl_expressions.specs.Reading.{made as made_in, opens as opens_in, closing as closing_in};
ghost use Rattle.erl_expressions.specs.Reading.{parenthesized as parenthesized_in, listed as listed_in, tailed as tailed_in};
ghost use Rattle.erl_expressions.specs.Reading.{rest_of_trees, with_last};
ghost use Rattle.erl_ast.specs.Tree.{none};
ghost use Rattle.erl_expressions.specs.Refusing.{Leaves, IsToldOf};

use super::{Reading, read};
use crate::deep::{Deep, DeepRow};
use crate::delimiter::{Delimiter, after};
use crate::operators::{MATCHES, OPERATIONS, has_operator, left_level};
use crate::refusal::{Reason, Refusal};
use erl_ast::{Qualifier, Role, Shape, guard_arity, is_guard_function};
use erl_scan::Spot;
use std::alloc::Global;

/// How many trees a row of more than two has room for while it is read, at first.
const ROOM: usize = 3;

/// Trees with commas between them. Most rows are of one tree or of two, which take no more room than they need.
#[cycle(reading)]
#[tactic(auto, using(crate::proofs::Things::row_empty, crate::proofs::Things::row_first_not, crate::proofs::Things::row_of_one, crate::proofs::Things::row_first))]
pub(crate) fn row<'a>(
    alloc: Global,
    levels: u32,
    role: Role,
    most: u32,
    tokens: &'a [Spot],
) -> Reading<'a, DeepRow>
    ensures read { IfOk result (λ answer. MatchResult answer
        (λ f. row_in (read_in levels role most) (terminals tokens.now) ≡ Some (f.0, terminals f.1.now))
        (λ _. row_in (read_in levels role most) (terminals tokens.now) ≡ None)) }
    ensures told { IfOk result (λ answer. MatchResult answer (λ f. Leaves tokens.now f.1.now) (λ r. IsToldOf tokens.now r)) }
{
    if tokens.is_empty() {
        return Ok(Err(Refusal::at(Reason::Syntax, tokens)));
    }
    match read(alloc, levels, role, most, tokens)? {
        Ok((first, rest)) => match after(Delimiter::Comma, rest) {
            Some(left) => row_of_more(alloc, levels, role, most, tokens.len() - 1, first, left),
            None => Ok(Ok((DeepRow::of(alloc, first)?, rest))),
        },
        Err(refusal) => Ok(Err(refusal)),
    }
}

/// A tree and at most so many others, behind the first comma.
#[cycle(reading)]
#[inline(never)]
#[tactic(auto, using(crate::proofs::Things::rest_none, crate::proofs::Things::rest_not, crate::proofs::Things::rest_last, crate::proofs::Things::rest_more))]
fn row_of_more<'a>(
    alloc: Global,
    levels: u32,
    role: Role,
    most: u32,
    others: usize,
    first: Deep,
    tokens: &'a [Spot],
) -> Reading<'a, DeepRow>
    ensures read { IfOk result (λ answer. MatchResult answer
        (λ f. rest_of_trees others (read_in levels role most) (with_last none first) (terminals tokens.now) ≡ Some
        (f.0, terminals f.1.now))
        (λ _. rest_of_trees others (read_in levels role most) (with_last none first) (terminals tokens.now) ≡ None)) }
    ensures told { IfOk result (λ answer. MatchResult answer (λ f. Leaves tokens.now f.1.now) (λ r. IsToldOf tokens.now r)) }
{
    if others == 0 {
        return Ok(Err(Refusal::at(Reason::Syntax, tokens)));
    }
    match read(alloc, levels, role, most, tokens)? {
        Ok((second, rest)) => match after(Delimiter::Comma, rest) {
            Some(left) => {
                let mut items = DeepRow::with_room(alloc, ROOM)?;
                items.push(first)?;
                items.push(second)?;
                row_of_many(alloc, levels, role, most, others - 1, items, left)
            }
            None => Ok(Ok((DeepRow::pair(alloc, first, second)?, rest))),
        },
        Err(refusal) => Ok(Err(refusal)),
    }
}

/// Trees, and at most so many others, behind a comma.
#[cycle(reading)]
#[inline(never)]
#[tactic(auto, using(crate::proofs::Things::rest_begins, crate::proofs::Things::row_more, crate::proofs::Things::row_last, crate::proofs::Things::row_not, crate::proofs::Things::row_out))]
fn row_of_many<'a>(
    alloc: Global,
    levels: u32,
    role: Role,
    most: u32,
    others: usize,
    before: DeepRow,
    tokens: &'a [Spot],
) -> Reading<'a, DeepRow>
    ensures read { IfOk result (λ answer. MatchResult answer
        (λ f. rest_of_trees others (read_in levels role most) before (terminals tokens.now) ≡ Some (f.0, terminals f.1.now))
        (λ _. rest_of_trees others (read_in levels role most) before (terminals tokens.now) ≡ None)) }
    ensures told { IfOk result (λ answer. MatchResult answer (λ f. Leaves tokens.now f.1.now) (λ r. IsToldOf tokens.now r)) }
{
    let mut items = before;
    let mut left = tokens;
    for _turn in 0..others {
        let rest = match read(alloc, levels, role, most, left)? {
            Ok((tree, rest)) => {
                items.push(tree)?;
                rest
            }
            Err(refusal) => return Ok(Err(refusal)),
        };
        match after(Delimiter::Comma, rest) {
            Some(behind) => left = behind,
            None => return Ok(Ok((items.fitted(alloc)?, rest))),
        }
    }
    Ok(Err(Refusal::at(Reason::Syntax, left)))
}

/// Parts up to a closing bracket, which may be none.
#[cycle(reading)]
#[inline(always)]
#[tactic(auto, unfolding(crate::specs::Reading::parts))]
pub(crate) fn parts<'a>(
    alloc: Global,
    levels: u32,
    role: Role,
    most: u32,
    close: Delimiter,
    tokens: &'a [Spot],
) -> Reading<'a, DeepRow>
    ensures read { IfOk result (λ answer. MatchResult answer
        (λ f. parts_in (read_in levels role most) close (terminals tokens.now) ≡ Some (f.0, terminals f.1.now))
        (λ _. parts_in (read_in levels role most) close (terminals tokens.now) ≡ None)) }
    ensures told { IfOk result (λ answer. MatchResult answer (λ f. Leaves tokens.now f.1.now) (λ r. IsToldOf tokens.now r)) }
{
    if let Some(rest) = after(close, tokens) {
        return Ok(Ok((DeepRow::new(alloc), rest)));
    }
    match row(alloc, levels, role, most, tokens)? {
        Ok((items, rest)) => match after(close, rest) {
            Some(behind) => Ok(Ok((items, behind))),
            None => Ok(Err(Refusal::behind(rest))),
        },
        Err(refusal) => Ok(Err(refusal)),
    }
}

/// A node, behind its opening bracket. Where a role hasn't it, that is told at a token before.
#[cycle(reading)]
#[tactic(auto, unfolding(crate::specs::Reading::bracketed))]
pub(super) fn bracketed<'a>(
    alloc: Global,
    levels: u32,
    role: Role,
    shape: Shape,
    told: &[Spot],
    tokens: &'a [Spot],
) -> Reading<'a, Deep>
    requires { Leaves told.now tokens.now }
    ensures read { IfOk result (λ answer. MatchResult answer
        (λ f. bracketed_in (read_in levels) role shape (terminals tokens.now) ≡ Some (f.0, terminals f.1.now))
        (λ _. bracketed_in (read_in levels) role shape (terminals tokens.now) ≡ None)) }
    ensures told { IfOk result (λ answer. MatchResult answer (λ f. Leaves tokens.now f.1.now) (λ r. IsToldOf told.now r)) }
{
    if !opens(role, &shape) {
        return Ok(Err(Refusal::at(Reason::Syntax, told)));
    }
    let told_at = node_told_at(&shape, told, tokens);
    match parts(
        alloc,
        levels,
        role,
        first_level(role, &shape),
        closing(&shape),
        tokens,
    )? {
        Ok((items, rest)) => Ok(made(role, shape, items, told_at, rest)),
        Err(refusal) => Ok(Err(refusal)),
    }
}

/// `(E)`, behind the opening bracket.
#[cycle(reading)]
#[tactic(auto, unfolding(crate::specs::Reading::parenthesized))]
pub(super) fn parenthesized<'a>(
    alloc: Global,
    levels: u32,
    role: Role,
    tokens: &'a [Spot],
) -> Reading<'a, Deep>
    ensures read { IfOk result (λ answer. MatchResult answer
        (λ f. parenthesized_in (read_in levels) role (terminals tokens.now) ≡ Some (f.0, terminals f.1.now))
        (λ _. parenthesized_in (read_in levels) role (terminals tokens.now) ≡ None)) }
    ensures told { IfOk result (λ answer. MatchResult answer (λ f. Leaves tokens.now f.1.now) (λ r. IsToldOf tokens.now r)) }
{
    match read(alloc, levels, role, in_brackets(role), tokens)? {
        Ok((tree, rest)) => match after(Delimiter::CloseParen, rest) {
            Some(behind) => {
                let parts = DeepRow::of(alloc, tree)?;
                Ok(Ok((Deep::node(Shape::Parenthesized, parts), behind)))
            }
            None => Ok(Err(Refusal::behind(rest))),
        },
        Err(refusal) => Ok(Err(refusal)),
    }
}

/// A list, behind its opening bracket.
#[cycle(reading)]
#[tactic(auto, unfolding(crate::specs::Reading::listed))]
pub(super) fn listed<'a>(
    alloc: Global,
    levels: u32,
    role: Role,
    tokens: &'a [Spot],
) -> Reading<'a, Deep>
    ensures read { IfOk result (λ answer. MatchResult answer
        (λ f. listed_in (read_in levels) role (terminals tokens.now) ≡ Some (f.0, terminals f.1.now))
        (λ _. listed_in (read_in levels) role (terminals tokens.now) ≡ None)) }
    ensures told { IfOk result (λ answer. MatchResult answer (λ f. Leaves tokens.now f.1.now) (λ r. IsToldOf tokens.now r)) }
{
    if let Some(rest) = after(Delimiter::CloseBracket, tokens) {
        return Ok(made(role, Shape::List, DeepRow::new(alloc), tokens, rest));
    }
    let (items, rest) = match row(alloc, levels, role, in_brackets(role), tokens)? {
        Ok(found) => found,
        Err(refusal) => return Ok(Err(refusal)),
    };
    if let Some(behind) = after(Delimiter::CloseBracket, rest) {
        return Ok(made(role, Shape::List, items, tokens, behind));
    }
    match after(Delimiter::Bar, rest) {
        Some(behind) => tailed(alloc, levels, role, items, behind),
        None => Ok(Err(Refusal::behind(rest))),
    }
}

/// A list with a tail, behind the bar.
#[cycle(reading)]
fn tailed<'a>(
    alloc: Global,
    levels: u32,
    role: Role,
    items: DeepRow,
    tokens: &'a [Spot],
) -> Reading<'a, Deep>
    ensures read { IfOk result (λ answer. MatchResult answer
        (λ f. tailed_in (read_in levels) role items (terminals tokens.now) ≡ Some (f.0, terminals f.1.now))
        (λ _. tailed_in (read_in levels) role items (terminals tokens.now) ≡ None)) }
    ensures told { IfOk result (λ answer. MatchResult answer (λ f. Leaves tokens.now f.1.now) (λ r. IsToldOf tokens.now r)) }
{
    match read(alloc, levels, role, in_brackets(role), tokens)? {
        Ok((tail, rest)) => match after(Delimiter::CloseBracket, rest) {
            Some(behind) => {
                let mut parts = items;
                parts.push_tail(tail)?;
                Ok(made(role, Shape::Cons, parts, tokens, behind))
            }
            None => Ok(Err(Refusal::behind(rest))),
        },
        Err(refusal) => Ok(Err(refusal)),
    }
}

/// A node of these parts, where there is such a node, with the tokens behind it; it is told where there is none.
#[inline(always)]
pub(super) fn made<'a>(
    role: Role,
    shape: Shape,
    parts: DeepRow,
    told: &[Spot],
    rest: &'a [Spot],
) -> Result<(Deep, &'a [Spot]), Refusal>
    ensures read { MatchResult result
        (λ f. made_in role shape parts (terminals rest.now) ≡ Some (f.0, terminals f.1.now))
        (λ _. made_in role shape parts (terminals rest.now) ≡ None) }
    ensures told { MatchResult result (λ f. f.1.now ≡ rest.now) (λ r. IsToldOf told.now r) }
{
    if has(role, &shape, parts.len()) && parts.may_begin(&shape) {
        Ok((Deep::node(shape, parts), rest))
    } else {
        Err(Refusal::at(Reason::Syntax, told))
    }
}

/// Where a node is told that has not such parts: a block of none at its end.
fn node_told_at<'a>(shape: &Shape, told: &'a [Spot], tokens: &'a [Spot]) -> &'a [Spot]
    requires { Leaves told.now tokens.now }
    ensures { Leaves told.now result.now }
{
    match shape {
        Shape::Block => tokens,
        _ => told,
    }
}

/// Whether a role has such a node with some number of parts.
fn opens(role: Role, shape: &Shape) -> bool
    ensures { result ≡ opens_in role shape.now }
{
    match (role, shape) {
        (_, Shape::Block) => matches!(role, Role::Expression),
        (Role::Pattern, Shape::Local(_) | Shape::Remote(_, _) | Shape::Prefix(_)) => false,
        (Role::Test, Shape::Local(function)) => guard_arity(&function.name).is_some(),
        (Role::Test, Shape::Remote(module, function)) => {
            is_erlang(module.get()) && guard_arity(&function.get().name).is_some()
        }
        (_, _) => true,
    }
}

/// Whether a role has such a node with so many parts.
fn has(role: Role, shape: &Shape, parts: usize) -> bool
    ensures { result ≡ has_in role shape.now parts }
{
    match shape {
        Shape::Tuple | Shape::List => true,
        Shape::Cons => 2 <= parts,
        Shape::Parenthesized => parts == 1,
        Shape::Block => matches!(role, Role::Expression) && 1 <= parts,
        Shape::Local(function) => match role {
            Role::Expression => true,
            Role::Pattern => false,
            Role::Test => is_guard_function(&function.name, parts),
        },
        Shape::Remote(module, function) => match role {
            Role::Expression => true,
            Role::Pattern => false,
            Role::Test => {
                is_erlang(module.get()) && is_guard_function(&function.get().name, parts)
            },
        },
        Shape::Prefix(_) => !matches!(role, Role::Pattern) && parts == 1,
        Shape::Infix(op) => has_operator(role, *op) && parts == 2,
    }
}

/// Whether the module of a remote call is `erlang`, by its name.
fn is_erlang(module: &Qualifier) -> bool
    ensures { result ≡ erlang_in module.now }
{
    match module {
        Qualifier::Module(module) => module.name.is("erlang"),
        Qualifier::ModuleName(_) => false,
    }
}

/// What closes a node.
fn closing(shape: &Shape) -> Delimiter
    ensures { result ≡ closing_in shape.now }
{
    match shape {
        Shape::Tuple => Delimiter::CloseBrace,
        Shape::List | Shape::Cons => Delimiter::CloseBracket,
        Shape::Block => Delimiter::End,
        _ => Delimiter::CloseParen,
    }
}

/// The greatest level of what stands in brackets.
fn in_brackets(role: Role) -> u32
    ensures { result ≡ brackets_in role }
{
    match role {
        Role::Pattern => MATCHES,
        Role::Expression | Role::Test => OPERATIONS,
    }
}

/// The greatest level of the first part of a node in brackets.
fn first_level(role: Role, shape: &Shape) -> u32
    ensures { result ≡ first_in role shape.now }
{
    match shape {
        Shape::Block => MATCHES,
        Shape::Prefix(_) => 1,
        Shape::Infix(op) => left_level(*op),
        _ => in_brackets(role),
    }
}

// Functions of a module.
ghost use Rattle.std.specs.Prelude.{◌≡◌, ◌≤◌, length, IfOk, MatchResult, Some, None};
ghost use Rattle.erl_ast.specs.Terminal.{terminals};
ghost use Rattle.module_forms.specs.FormReading.{head as head_in, front as front_in, one_clause as one_clause_in};
ghost use Rattle.module_forms.specs.FormReading.{clause_like as like_in, function_from as from_in, looped as looped_in};
ghost use Rattle.module_forms.specs.FormReading.{function as function_in, ended as ended_in, clause_of as clause_in};
ghost use Rattle.erl_ast.specs.Tree.{tree_count};
ghost use Rattle.erl_expressions.specs.Refusing.{Leaves, IsToldOf};

use crate::opening::{Opening, behind};
use crate::tokens::{expected, named_ahead};
use erl_ast::{
    ClauseTree, FormTree, FunctionClause, FunctionTree, GuardTrees, LoopTree, Named, SyntaxTrees,
};
use erl_expressions::{
    Delimiter, Reading, Reason, Refusal, after, read_body, read_clauses, read_guard, read_patterns,
};
use erl_scan::{Mark, Spot, Token, Word};
use erl_term::Atom;
use std::alloc::Global;
use values::Row;

/// What stands before the body of a clause, its name aside: patterns, and a guard sequence.
#[derive(Drop)]
struct ClauseFront {
    patterns: SyntaxTrees,
    guard: GuardTrees,
}

/// The patterns of a clause, behind its name.
fn head<'a>(alloc: Global, tokens: &'a [Spot]) -> Reading<'a, SyntaxTrees>
    ensures read { IfOk result (λ answer. MatchResult answer
        (λ f. head_in (terminals tokens.now) ≡ Some (f.0, terminals f.1.now))
        (λ _. head_in (terminals tokens.now) ≡ None)) }
    ensures told { IfOk result (λ answer. MatchResult answer (λ f. Leaves tokens.now f.1.now) (λ r. IsToldOf tokens.now r)) }
{
    match expected(Opening::OpenParen, tokens) {
        Ok(rest) => match read_patterns(alloc, 256, rest)? {
            Ok(found) => Ok(Ok(found)),
            Err(refusal) => Ok(Err(refusal)),
        },
        Err(refusal) => Ok(Err(refusal)),
    }
}

/// The patterns of a clause, its guard sequence and the arrow, behind its name.
#[tactic(auto, unfolding(crate::specs::FormReading::front))]
fn front<'a>(alloc: Global, tokens: &'a [Spot]) -> Reading<'a, ClauseFront>
    ensures read { IfOk result (λ answer. MatchResult answer
        (λ f. front_in (terminals tokens.now) ≡ Some ((f.0.patterns, f.0.guard), terminals f.1.now))
        (λ _. front_in (terminals tokens.now) ≡ None)) }
    ensures told { IfOk result (λ answer. MatchResult answer (λ f. Leaves tokens.now f.1.now) (λ r. IsToldOf tokens.now r)) }
{
    let (patterns, rest) = match head(alloc, tokens)? {
        Ok(found) => found,
        Err(refusal) => return Ok(Err(refusal)),
    };
    let (guard, rest) = match read_guard(alloc, 256, rest)? {
        Ok(found) => found,
        Err(refusal) => return Ok(Err(refusal)),
    };
    match after(Delimiter::Arrow, rest) {
        Some(behind) => Ok(Ok((ClauseFront { patterns, guard }, behind))),
        None => Ok(Err(no_arrow(&guard, rest))),
    }
}

/// The refusal of tokens where an arrow should stand: behind a guard Erlang may have them.
fn no_arrow(guard: &GuardTrees, tokens: &[Spot]) -> Refusal
    ensures { IsToldOf tokens.now result }
{
    if guard.as_slice().is_empty() {
        Refusal::misplaced(tokens)
    } else {
        Refusal::behind(tokens)
    }
}

/// A clause, behind its name, which stands at a byte.
#[tactic(auto, unfolding(crate::specs::FormReading::one_clause))]
fn one_clause<'a>(alloc: Global, at: usize, tokens: &'a [Spot]) -> Reading<'a, FunctionClause>
    ensures read { IfOk result (λ answer. MatchResult answer
        (λ f. one_clause_in at (terminals tokens.now) ≡ Some (f.0, terminals f.1.now))
        (λ _. one_clause_in at (terminals tokens.now) ≡ None)) }
    ensures told { IfOk result (λ answer. MatchResult answer (λ f. Leaves tokens.now f.1.now) (λ r. IsToldOf tokens.now r)) }
{
    let (front, rest) = match front(alloc, tokens)? {
        Ok(found) => found,
        Err(refusal) => return Ok(Err(refusal)),
    };
    match read_body(alloc, 256, rest)? {
        Ok((body, behind)) => Ok(Ok((clause_of(at, front, body), behind))),
        Err(refusal) => Ok(Err(refusal)),
    }
}

/// A clause of these parts.
fn clause_of(at: usize, front: ClauseFront, body: SyntaxTrees) -> FunctionClause
    ensures { result ≡ clause_in at front.patterns front.guard body }
{
    let ClauseFront { patterns, guard } = front;
    FunctionClause {
        at,
        clause: ClauseTree {
            patterns,
            guard,
            body,
        },
    }
}

/// A clause of a function of this name and so many arguments.
#[tactic(auto, unfolding(crate::specs::FormReading::clause_like))]
fn clause_like<'a>(
    alloc: Global,
    name: &Atom,
    arity: usize,
    tokens: &'a [Spot],
) -> Reading<'a, FunctionClause>
    ensures read { IfOk result (λ answer. MatchResult answer
        (λ f. like_in name.now arity (terminals tokens.now) ≡ Some (f.0, terminals f.1.now))
        (λ _. like_in name.now arity (terminals tokens.now) ≡ None)) }
    ensures told { IfOk result (λ answer. MatchResult answer (λ f. Leaves tokens.now f.1.now) (λ r. IsToldOf tokens.now r)) }
{
    let (named, rest) = match named_ahead(tokens)? {
        Ok(found) => found,
        Err(refusal) => return Ok(Err(refusal)),
    };
    if named.name != *name {
        return Ok(Err(Refusal::at(Reason::Syntax, tokens)));
    }
    match one_clause(alloc, named.at, rest)? {
        Ok((clause, behind)) => {
            if count(&clause.clause.patterns) == arity {
                Ok(Ok((clause, behind)))
            } else {
                Ok(Err(Refusal::at(Reason::Syntax, tokens)))
            }
        }
        Err(refusal) => Ok(Err(refusal)),
    }
}

/// How many trees a row has.
#[tactic(auto, using(crate::proofs::Rows::count_of))]
fn count(row: &SyntaxTrees) -> usize
    ensures { result ≡ tree_count row.now }
{
    row.as_slice().len()
}

/// A function, behind its first clause.
#[tactic(auto, using(crate::proofs::Rows::clauses_begin, crate::proofs::Rows::clauses_more, crate::proofs::Rows::clauses_last, crate::proofs::Rows::clauses_not, crate::proofs::Rows::clauses_out))]
fn function_from<'a>(
    alloc: Global,
    name: Named,
    first: FunctionClause,
    tokens: &'a [Spot],
) -> Reading<'a, FormTree>
    ensures read { IfOk result (λ answer. MatchResult answer
        (λ f. from_in name first (terminals tokens.now) ≡ Some (f.0, terminals f.1.now))
        (λ _. from_in name first (terminals tokens.now) ≡ None)) }
    ensures told { IfOk result (λ answer. MatchResult answer
        (λ f. length f.1.now ≤ length tokens.now)
        (λ r. IsToldOf tokens.now r)) }
{
    let Named { name, at: _ } = name;
    let arity = count(&first.clause.patterns);
    let mut clauses = Vec::with_capacity(alloc, 1)?;
    clauses.push(first)?;
    let mut left = tokens;
    for _turn in 0..=tokens.len() {
        let Some(behind) = after(Delimiter::Semicolon, left) else {
            return Ok(ended(name, clauses, left));
        };
        match clause_like(alloc, &name, arity, behind)? {
            Ok((clause, rest)) => {
                clauses.push(clause)?;
                left = rest;
            }
            Err(refusal) => return Ok(Err(refusal)),
        }
    }
    Ok(Err(Refusal::at(Reason::Syntax, left)))
}

/// A function of these clauses, where a dot stands behind them.
fn ended<'a>(
    name: Atom,
    clauses: Vec<FunctionClause>,
    tokens: &'a [Spot],
) -> Result<(FormTree, &'a [Spot]), Refusal>
    ensures read { MatchResult result
        (λ f. ended_in name clauses.items (terminals tokens.now) ≡ Some (f.0, terminals f.1.now))
        (λ _. ended_in name clauses.items (terminals tokens.now) ≡ None) }
    ensures told { MatchResult result (λ f. length f.1.now ≤ length tokens.now) (λ r. IsToldOf tokens.now r) }
{
    match behind(Opening::Dot, tokens) {
        Some(rest) => {
            let clauses = Row::new(clauses);
            Ok((FormTree::Function(FunctionTree { name, clauses }), rest))
        }
        None => Err(Refusal::behind(tokens)),
    }
}

/// A loop function, behind its `receive`, which is the first of all.
#[tactic(auto, unfolding(crate::specs::FormReading::looped))]
fn looped<'a>(
    alloc: Global,
    name: Named,
    front: ClauseFront,
    word: &'a [Spot],
    tokens: &'a [Spot],
) -> Reading<'a, FormTree>
    requires { Leaves word.now tokens.now }
    ensures read { IfOk result (λ answer. MatchResult answer
        (λ f. looped_in name front.patterns front.guard (terminals tokens.now) ≡ Some (f.0, terminals f.1.now))
        (λ _. looped_in name front.patterns front.guard (terminals tokens.now) ≡ None)) }
    ensures told { IfOk result (λ answer. MatchResult answer
        (λ f. length f.1.now ≤ length tokens.now)
        (λ r. IsToldOf word.now r)) }
{
    let (receive, rest) = match read_clauses(alloc, 255, tokens)? {
        Ok(found) => found,
        Err(refusal) => return Ok(Err(refusal)),
    };
    let ClauseFront { patterns, guard } = front;
    match behind(Opening::Dot, rest) {
        Some(behind) => Ok(Ok((
            FormTree::Loop(LoopTree {
                name,
                patterns,
                guard,
                receive,
            }),
            behind,
        ))),
        None => Ok(Err(behind_receive(word, rest))),
    }
}

/// The refusal of tokens behind a `receive`, whose word some begin with: what goes on with it, or with its function, is told at
/// the word.
fn behind_receive(word: &[Spot], tokens: &[Spot]) -> Refusal
    requires { Leaves word.now tokens.now }
    ensures { IsToldOf word.now result }
{
    match tokens.first() {
        Some(first) if goes_on(&first.what) => Refusal::at(Reason::Unsupported, word),
        _ => Refusal::behind(tokens),
    }
}

/// Whether Erlang goes on so behind an expression of a body.
fn goes_on(token: &Token) -> bool {
    matches!(
        token,
        Token::Mark(
            Mark::Comma
                | Mark::Semicolon
                | Mark::Times
                | Mark::Divide
                | Mark::Plus
                | Mark::Minus
                | Mark::Append
                | Mark::Subtract
                | Mark::Equal
                | Mark::Unequal
                | Mark::ExactlyEqual
                | Mark::ExactlyUnequal
                | Mark::Less
                | Mark::Greater
                | Mark::LessOrEqual
                | Mark::GreaterOrEqual
                | Mark::Send
                | Mark::Match
                | Mark::Colon
                | Mark::Hash
                | Mark::OpenParen
        ) | Token::Word(
            Word::Div
                | Word::Rem
                | Word::And
                | Word::Or
                | Word::AndAlso
                | Word::OrElse
                | Word::BitAnd
                | Word::BitOr
                | Word::BitXor
                | Word::ShiftLeft
                | Word::ShiftRight
                | Word::Xor
        )
    )
}

/// A function, behind the name of its first clause.
#[tactic(auto, unfolding(crate::specs::FormReading::function))]
pub(crate) fn function<'a>(alloc: Global, name: Named, tokens: &'a [Spot]) -> Reading<'a, FormTree>
    ensures read { IfOk result (λ answer. MatchResult answer
        (λ f. function_in name (terminals tokens.now) ≡ Some (f.0, terminals f.1.now))
        (λ _. function_in name (terminals tokens.now) ≡ None)) }
    ensures told { IfOk result (λ answer. MatchResult answer
        (λ f. length f.1.now ≤ length tokens.now)
        (λ r. IsToldOf tokens.now r)) }
{
    let (front, rest) = match front(alloc, tokens)? {
        Ok(found) => found,
        Err(refusal) => return Ok(Err(refusal)),
    };
    if let Some(behind) = behind(Opening::Receive, rest) {
        return looped(alloc, name, front, rest, behind);
    }
    match read_body(alloc, 256, rest)? {
        Ok((body, behind)) => {
            let first = clause_of(name.at, front, body);
            function_from(alloc, name, first, behind)
        }
        Err(refusal) => Ok(Err(refusal)),
    }
}

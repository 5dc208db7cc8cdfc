// The operator that tokens begin with.
ghost use Rattle.std.specs.Prelude.{◌≡◌, true, false, OnSome};
ghost use Rattle.erl_ast.specs.Terminal.{terminals};
ghost use Rattle.erl_ast.specs.Grammar.{level_of as level_in, left_level as left_in, right_level as right_in};
ghost use Rattle.erl_ast.specs.Grammar.{has_operator as has_in};
ghost use Rattle.erl_expressions.specs.Leaves.{infix_mark as mark_in, infix_word as word_in, infix_ahead as ahead_in};
ghost use Rattle.erl_expressions.specs.Leaves.{operator_ahead as operator_in};
ghost use Rattle.erl_expressions.specs.Reading.{match_ahead as match_in};
ghost use Rattle.erl_expressions.specs.Refusing.{begins_with_dot};

use erl_ast::{Infix, Role};
use erl_scan::{Mark, Spot, Token, Word};

/// The greatest level of what has no match in it but in brackets.
pub(crate) const OPERATIONS: u32 = 8;

/// The greatest level of all.
pub(crate) const MATCHES: u32 = 9;

/// The operator that goes on with a tree of a level, where the whole has at most another.
pub(crate) fn operator_ahead(role: Role, most: u32, left: u32, tokens: &[Spot]) -> Option<Infix>
    ensures is { result ≡ operator_in role most left (terminals tokens.now) }
    ensures no_dot { OnSome result (begins_with_dot tokens.now ≡ false) }
{
    let op = infix_ahead(tokens)?;
    if has_operator(role, op) && level_of(op) <= most && left <= left_level(op) {
        Some(op)
    } else {
        None
    }
}

/// Whether tokens begin with `=`.
pub(crate) fn match_ahead(tokens: &[Spot]) -> bool
    ensures is { result ≡ match_in (terminals tokens.now) }
    ensures no_dot { result ≡ true → begins_with_dot tokens.now ≡ false }
{
    match tokens.first() {
        Some(first) => matches!(first.what, Token::Mark(Mark::Match)),
        None => false,
    }
}

/// The operator that tokens begin with.
fn infix_ahead(tokens: &[Spot]) -> Option<Infix>
    ensures is { result ≡ ahead_in (terminals tokens.now) }
    ensures no_dot { OnSome result (begins_with_dot tokens.now ≡ false) }
{
    match &tokens.first()?.what {
        Token::Mark(mark) => infix_mark(*mark),
        Token::Word(word) => infix_word(*word),
        _ => None,
    }
}

/// The operator that a sign is.
fn infix_mark(mark: Mark) -> Option<Infix>
    ensures { result ≡ mark_in mark }
{
    match mark {
        Mark::Times => Some(Infix::Multiply),
        Mark::Plus => Some(Infix::Add),
        Mark::Minus => Some(Infix::Subtract),
        Mark::Append => Some(Infix::Append),
        Mark::Equal => Some(Infix::Equal),
        Mark::Unequal => Some(Infix::NotEqual),
        Mark::ExactlyEqual => Some(Infix::ExactlyEqual),
        Mark::ExactlyUnequal => Some(Infix::ExactlyNotEqual),
        Mark::Less => Some(Infix::Less),
        Mark::Greater => Some(Infix::Greater),
        Mark::LessOrEqual => Some(Infix::AtMost),
        Mark::GreaterOrEqual => Some(Infix::AtLeast),
        Mark::Send => Some(Infix::Send),
        Mark::Match => Some(Infix::Match),
        _ => None,
    }
}

/// The operator that a word is.
fn infix_word(word: Word) -> Option<Infix>
    ensures { result ≡ word_in word }
{
    match word {
        Word::Div => Some(Infix::Divide),
        Word::Rem => Some(Infix::Remainder),
        Word::And => Some(Infix::And),
        Word::Or => Some(Infix::Or),
        Word::AndAlso => Some(Infix::AndAlso),
        Word::OrElse => Some(Infix::OrElse),
        _ => None,
    }
}

/// The level of an operator: a lower one binds tighter.
pub(crate) fn level_of(op: Infix) -> u32
    ensures { result ≡ level_in op }
{
    match op {
        Infix::Multiply | Infix::Divide | Infix::Remainder | Infix::And => 2,
        Infix::Add | Infix::Subtract | Infix::Or => 3,
        Infix::Append => 4,
        Infix::Equal
        | Infix::NotEqual
        | Infix::ExactlyEqual
        | Infix::ExactlyNotEqual
        | Infix::Less
        | Infix::Greater
        | Infix::AtMost
        | Infix::AtLeast => 5,
        Infix::AndAlso => 6,
        Infix::OrElse => 7,
        Infix::Send => 8,
        Infix::Match => 9,
    }
}

/// The greatest level of what may stand left of an operator.
pub(crate) fn left_level(op: Infix) -> u32
    ensures { result ≡ left_in op }
{
    match op {
        Infix::Multiply
        | Infix::Divide
        | Infix::Remainder
        | Infix::And
        | Infix::Add
        | Infix::Subtract
        | Infix::Or
        | Infix::AndAlso
        | Infix::OrElse => level_of(op),
        _ => level_of(op) - 1,
    }
}

/// The greatest level of what may stand right of an operator.
pub(crate) fn right_level(op: Infix) -> u32
    ensures { result ≡ right_in op }
{
    match op {
        Infix::Append | Infix::Send | Infix::Match => level_of(op),
        _ => level_of(op) - 1,
    }
}

/// Whether an operator may stand in what is read so.
pub(crate) fn has_operator(role: Role, op: Infix) -> bool
    ensures { result ≡ has_in role op }
{
    match role {
        Role::Expression => true,
        Role::Pattern => matches!(op, Infix::Match),
        Role::Test => !matches!(op, Infix::Append | Infix::Send | Infix::Match),
    }
}

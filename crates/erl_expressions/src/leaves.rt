// The leaf that tokens begin with.
ghost use Rattle.std.specs.Prelude.{◌≡◌, IfOk, IfSome, MatchOption, Some, None, false, codes};
ghost use Rattle.std.specs.Bool.{OnTrue};
ghost use Rattle.std.specs.Str.{bytes_eq};
ghost use Rattle.erl_ast.specs.Terminal.{terminals};
ghost use Rattle.erl_expressions.specs.Leaves.{leaf_ahead as leaf_in, leaf_behind as leaf_behind_in, number_ahead as number_in};
ghost use Rattle.erl_expressions.specs.Leaves.{module_ahead as module_in, call_ahead as call_in, colon_ahead as colon_in, paren_ahead as paren_in, atom_ahead as atom_in};
ghost use Rattle.erl_expressions.specs.Leaves.{joined_strings as joined_in, string_ahead as string_in};
ghost use Rattle.erl_expressions.specs.Refusing.{Leaves, begins_with_dot};

use erl_ast::{Leaf, Named, Sign};
use erl_scan::{Mark, Name, SharedText, Spot, Text, Token};
use erl_term::Atom;
use std::alloc::{AllocError, Global};
use values::Row;

/// A leaf, and the tokens behind it.
pub(crate) type LeafAhead<'a> = Option<(Leaf, &'a [Spot])>;

/// The leaf that tokens begin with, where they begin with no call.
#[inline(always)]
#[tactic(auto, unfolding(crate::specs::Leaves::leaf_ahead))]
pub(crate) fn leaf_ahead<'a>(alloc: Global, tokens: &'a [Spot]) -> Result<LeafAhead<'a>, AllocError>
    ensures is { IfOk result (λ found. MatchOption found (leaf_in (terminals tokens.now) ≡ None)
        (λ f. leaf_in (terminals tokens.now) ≡ Some (f.0, terminals f.1.now))) }
    ensures leaves { IfOk result (λ found. IfSome found (λ f. Leaves tokens.now f.1.now)) }
{
    let Some((first, rest)) = tokens.split_first() else {
        return Ok(None);
    };
    match &first.what {
        Token::Integer(n) => Ok(Some((Leaf::Integer(Sign::Unsigned, *n), rest))),
        Token::Atom(name) => atom_ahead(name, first.at, rest),
        Token::Variable(name) => Ok(Some((Leaf::Variable(name.share()?, first.at), rest))),
        Token::String(text) => strings_ahead(alloc, text, rest),
        Token::Mark(mark) => leaf_behind(alloc, *mark, rest),
        Token::Float | Token::Word(_) | Token::Dot => Ok(None),
    }
}

/// An atom, where it is no name in a call, with the tokens behind it.
fn atom_ahead<'a>(name: &Name, at: usize, rest: &'a [Spot]) -> Result<LeafAhead<'a>, AllocError>
    ensures is { IfOk result (λ found. MatchOption found (atom_in name.now at (terminals rest.now) ≡ None)
        (λ f. atom_in name.now at (terminals rest.now) ≡ Some (f.0, terminals f.1.now))) }
    ensures leaves { IfOk result (λ found. IfSome found (λ f. Leaves rest.now f.1.now)) }
{
    if call_ahead(rest) {
        return Ok(None);
    }
    Ok(Some((Leaf::Atom(named(name, at)?), rest)))
}

/// Strings that stand behind one another, the first of them given.
#[inline(never)]
#[tactic(auto, using(crate::proofs::Strings::strings_kept, crate::proofs::Strings::string_shorter, crate::proofs::Strings::more_strings, crate::proofs::Strings::no_string))]
fn strings_ahead<'a>(
    alloc: Global,
    first: &Text,
    tokens: &'a [Spot],
) -> Result<LeafAhead<'a>, AllocError>
    ensures is { IfOk result (λ found. MatchOption found (joined_in first.now (terminals tokens.now) ≡ None)
        (λ f. joined_in first.now (terminals tokens.now) ≡ Some (f.0, terminals f.1.now))) }
    ensures leaves { IfOk result (λ found. IfSome found (λ f. Leaves tokens.now f.1.now)) }
{
    let mut strings = Vec::new(alloc);
    strings.push(copied(alloc, first)?)?;
    let mut rest = tokens;
    while let Some((text, behind)) = string_ahead(rest) {
        strings.push(copied(alloc, text)?)?;
        rest = behind;
    }
    Ok(Some((Leaf::Strings(Row::new(strings)), rest)))
}

/// The string that tokens begin with, and the tokens behind it.
fn string_ahead<'a>(tokens: &'a [Spot]) -> Option<(&'a Text, &'a [Spot])>
    ensures is { MatchOption result (string_in (terminals tokens.now) ≡ None)
        (λ f. string_in (terminals tokens.now) ≡ Some (f.0.now, terminals f.1.now)) }
    ensures leaves { IfSome result (λ f. Leaves tokens.now f.1.now) }
{
    let (first, rest) = tokens.split_first()?;
    match &first.what {
        Token::String(text) => Some((text, rest)),
        _ => None,
    }
}

/// The leaf that stands behind a sign.
#[inline(never)]
fn leaf_behind<'a>(
    alloc: Global,
    mark: Mark,
    tokens: &'a [Spot],
) -> Result<LeafAhead<'a>, AllocError>
    ensures is { IfOk result (λ found. MatchOption found (leaf_behind_in mark (terminals tokens.now) ≡ None)
        (λ f. leaf_behind_in mark (terminals tokens.now) ≡ Some (f.0, terminals f.1.now))) }
    ensures leaves { IfOk result (λ found. IfSome found (λ f. Leaves tokens.now f.1.now)) }
{
    match mark {
        Mark::Plus => Ok(number_ahead(Sign::Plus, tokens)),
        Mark::Minus => Ok(number_ahead(Sign::Minus, tokens)),
        Mark::Question => Ok(module_ahead(tokens)),
        _ => Ok(None),
    }
}

/// The integer that tokens begin with, behind a sign.
fn number_ahead<'a>(sign: Sign, tokens: &'a [Spot]) -> LeafAhead<'a>
    ensures is { MatchOption result (number_in sign (terminals tokens.now) ≡ None)
        (λ f. number_in sign (terminals tokens.now) ≡ Some (f.0, terminals f.1.now)) }
    ensures leaves { IfSome result (λ f. Leaves tokens.now f.1.now) }
{
    let (first, rest) = tokens.split_first()?;
    match &first.what {
        Token::Integer(n) => Some((Leaf::Integer(sign, *n), rest)),
        _ => None,
    }
}

/// The word of `?MODULE`, where no call of a function of the module follows.
fn module_ahead<'a>(tokens: &'a [Spot]) -> LeafAhead<'a>
    ensures is { MatchOption result (module_in (terminals tokens.now) ≡ None)
        (λ f. module_in (terminals tokens.now) ≡ Some (f.0, terminals f.1.now)) }
    ensures leaves { IfSome result (λ f. Leaves tokens.now f.1.now) }
{
    let (first, rest) = tokens.split_first()?;
    match &first.what {
        Token::Variable(name) if is_module(name) && !colon_ahead(rest) => {
            Some((Leaf::ModuleName(first.at), rest))
        }
        _ => None,
    }
}

/// Whether a word is that of `?MODULE`.
pub(crate) fn is_module(word: &SharedText) -> bool
    ensures { result ≡ bytes_eq word.now (codes "MODULE") }
{
    word.as_str() == "MODULE"
}

/// Whether tokens begin with what stands in a call behind a name.
fn call_ahead(tokens: &[Spot]) -> bool
    ensures { result ≡ call_in (terminals tokens.now) }
{
    match tokens.first() {
        Some(first) => matches!(first.what, Token::Mark(Mark::OpenParen | Mark::Colon)),
        None => false,
    }
}

/// Whether tokens begin with an opening parenthesis.
pub(crate) fn paren_ahead(tokens: &[Spot]) -> bool
    ensures is { result ≡ paren_in (terminals tokens.now) }
    ensures no_dot { OnTrue result (begins_with_dot tokens.now ≡ false) }
{
    match tokens.first() {
        Some(first) => matches!(first.what, Token::Mark(Mark::OpenParen)),
        None => false,
    }
}

/// Whether tokens begin with a colon.
pub(crate) fn colon_ahead(tokens: &[Spot]) -> bool
    ensures is { result ≡ colon_in (terminals tokens.now) }
    ensures no_dot { OnTrue result (begins_with_dot tokens.now ≡ false) }
{
    match tokens.first() {
        Some(first) => matches!(first.what, Token::Mark(Mark::Colon)),
        None => false,
    }
}

/// An atom where it stands.
pub(crate) fn named(name: &Name, at: usize) -> Result<Named, AllocError>
    ensures { IfOk result (λ it. it ≡ record { name = name.now; at = at }) }
{
    let name = Atom::from_shared(name.share()?.into_shared());
    Ok(Named { name, at })
}

/// A text's characters.
fn copied(alloc: Global, text: &Text) -> Result<Text, AllocError>
    ensures { IfOk result (λ it. it ≡ text.now) }
{
    Text::from_string(alloc, String::from_str(alloc, text.as_str())?)
}

// Steps over tokens.
ghost use Rattle.std.specs.Prelude.{◌≡◌, ◌≤◌, length, IfOk, MatchOption, MatchResult, Some, None};
ghost use Rattle.erl_ast.specs.Terminal.{terminals};
ghost use Rattle.module_forms.specs.FormReading.{named_ahead as named_in, closed_form as closed_in};
ghost use Rattle.module_forms.specs.Openings.{behind as behind_in, Passes};
ghost use Rattle.erl_expressions.specs.Refusing.{Leaves, IsToldOf};

use crate::opening::{Opening, behind};
use erl_ast::Named;
use erl_expressions::{Delimiter, Reading, Reason, Refusal, after};
use erl_scan::{Spot, Token};
use erl_term::Atom;

/// The atom that tokens begin with, whose characters are shared with its token.
pub(crate) fn named_ahead<'a>(tokens: &'a [Spot]) -> Reading<'a, Named>
    ensures read { IfOk result (λ answer. MatchResult answer
        (λ f. named_in (terminals tokens.now) ≡ Some (f.0, terminals f.1.now))
        (λ _. named_in (terminals tokens.now) ≡ None)) }
    ensures told { IfOk result (λ answer. MatchResult answer (λ f. Leaves tokens.now f.1.now) (λ r. IsToldOf tokens.now r)) }
{
    let Some((first, rest)) = tokens.split_first() else {
        return Ok(Err(Refusal::at(Reason::Syntax, tokens)));
    };
    match &first.what {
        Token::Atom(name) => {
            let name = Atom::from_shared(name.share()?.into_shared());
            Ok(Ok((Named { name, at: first.at }, rest)))
        }
        _ => Ok(Err(Refusal::misplaced(tokens))),
    }
}

/// The tokens behind one that has to come first.
pub(crate) fn expected<'a>(opening: Opening, tokens: &'a [Spot]) -> Result<&'a [Spot], Refusal>
    ensures read { MatchResult result
        (λ rest. behind_in opening (terminals tokens.now) ≡ Some (terminals rest.now))
        (λ _. behind_in opening (terminals tokens.now) ≡ None) }
    ensures told { MatchResult result (λ rest. Passes opening tokens.now rest.now) (λ r. IsToldOf tokens.now r) }
{
    match behind(opening, tokens) {
        Some(rest) => Ok(rest),
        None => Err(Refusal::misplaced(tokens)),
    }
}

/// The tokens behind the end of an attribute.
pub(crate) fn closed_form<'a>(tokens: &'a [Spot]) -> Result<&'a [Spot], Refusal>
    ensures read { MatchResult result
        (λ rest. closed_in (terminals tokens.now) ≡ Some (terminals rest.now))
        (λ _. closed_in (terminals tokens.now) ≡ None) }
    ensures told { MatchResult result (λ rest. length rest.now ≤ length tokens.now) (λ r. IsToldOf tokens.now r) }
{
    match after(Delimiter::CloseParen, tokens) {
        Some(rest) => expected(Opening::Dot, rest),
        None => Err(Refusal::misplaced(tokens)),
    }
}

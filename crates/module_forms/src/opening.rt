// Tokens that open something in a form, or end it.
ghost use Rattle.std.specs.Prelude.{◌≡◌, ℕ, IfSome};
ghost use Rattle.std.specs.Bool.{OnTrue};
ghost use Rattle.std.specs.Option.{option_map};
ghost use Rattle.erl_ast.specs.Terminal.{terminal_at, terminals};
ghost use Rattle.erl_expressions.specs.Refusing.{ends_form};
ghost use Rattle.module_forms.specs.Openings.{is_opening as is_opening_in, behind as behind_in, is_last, Passes};

use erl_scan::{Mark, Spot, Token, Word};

/// A token that opens something in a form, or ends it.
#[derive(Clone, Copy, Debug, PartialEq, Eq)]
pub(crate) enum Opening {
    /// `-`
    Minus,
    /// `(`
    OpenParen,
    /// `[`
    OpenBracket,
    /// `/`
    Slash,
    /// `receive`
    Receive,
    /// The dot that ends a form.
    Dot,
}

/// The tokens behind such a token; none where they don't begin with it.
pub(crate) fn behind<'a>(opening: Opening, tokens: &'a [Spot]) -> Option<&'a [Spot]>
    ensures is { option_map (λ rest. terminals rest.now) result ≡ behind_in opening (terminals tokens.now) }
    ensures passes { IfSome result (λ rest. Passes opening tokens.now rest.now) }
{
    let (first, rest) = tokens.split_first()?;
    if is_opening(opening, &first.what) {
        Some(rest)
    } else {
        None
    }
}

/// Whether a token is this one.
fn is_opening(opening: Opening, token: &Token) -> bool
    ensures is { (at : ℕ) → result ≡ is_opening_in opening (terminal_at token.now at) }
    ensures dot { OnTrue result (ends_form token.now ≡ is_last opening) }
{
    match opening {
        Opening::Minus => matches!(token, Token::Mark(Mark::Minus)),
        Opening::OpenParen => matches!(token, Token::Mark(Mark::OpenParen)),
        Opening::OpenBracket => matches!(token, Token::Mark(Mark::OpenBracket)),
        Opening::Slash => matches!(token, Token::Mark(Mark::Divide)),
        Opening::Receive => matches!(token, Token::Word(Word::Receive)),
        Opening::Dot => matches!(token, Token::Dot),
    }
}

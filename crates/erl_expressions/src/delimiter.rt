// What stands between and behind the parts of an expression.
ghost use Rattle.std.specs.Prelude.{◌≡◌, ℕ, false, IfSome};
ghost use Rattle.std.specs.Bool.{OnTrue};
ghost use Rattle.std.specs.Option.{option_map};
ghost use Rattle.erl_ast.specs.Terminal.{terminal_at, terminals};
ghost use Rattle.erl_expressions.specs.Refusing.{Leaves, ends_form};
ghost use Rattle.erl_expressions.specs.Delimiters.{is_delimiter as is_delimiter_in, after as after_in};

use erl_scan::{Mark, Spot, Token, Word};

/// A token that separates the parts of something, or ends it.
#[derive(Clone, Copy, Debug, PartialEq, Eq)]
pub enum Delimiter {
    /// `,`
    Comma,
    /// `;`
    Semicolon,
    /// `|`
    Bar,
    /// `->`
    Arrow,
    /// `)`
    CloseParen,
    /// `}`
    CloseBrace,
    /// `]`
    CloseBracket,
    /// `when`
    When,
    /// `of`
    Of,
    /// `end`
    End,
}

/// The tokens behind a delimiter; none where they don't begin with it. Takes no memory.
pub fn after<'a>(delimiter: Delimiter, tokens: &'a [Spot]) -> Option<&'a [Spot]>
    ensures is { option_map (λ rest. terminals rest.now) result ≡ after_in delimiter (terminals tokens.now) }
    ensures leaves { IfSome result (λ rest. Leaves tokens.now rest.now) }
{
    let (first, rest) = tokens.split_first()?;
    if is_delimiter(delimiter, &first.what) {
        Some(rest)
    } else {
        None
    }
}

/// Whether a token is this delimiter.
fn is_delimiter(delimiter: Delimiter, token: &Token) -> bool
    ensures is { (at : ℕ) → result ≡ is_delimiter_in delimiter (terminal_at token.now at) }
    ensures no_dot { OnTrue result (ends_form token.now ≡ false) }
{
    match delimiter {
        Delimiter::Comma => matches!(token, Token::Mark(Mark::Comma)),
        Delimiter::Semicolon => matches!(token, Token::Mark(Mark::Semicolon)),
        Delimiter::Bar => matches!(token, Token::Mark(Mark::Bar)),
        Delimiter::Arrow => matches!(token, Token::Mark(Mark::Arrow)),
        Delimiter::CloseParen => matches!(token, Token::Mark(Mark::CloseParen)),
        Delimiter::CloseBrace => matches!(token, Token::Mark(Mark::CloseBrace)),
        Delimiter::CloseBracket => matches!(token, Token::Mark(Mark::CloseBracket)),
        Delimiter::When => matches!(token, Token::Word(Word::When)),
        Delimiter::Of => matches!(token, Token::Word(Word::Of)),
        Delimiter::End => matches!(token, Token::Word(Word::End)),
    }
}

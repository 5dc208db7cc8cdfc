// The brackets that are open where tokens end.
ghost use Rattle.std.specs.Prelude.{◌≡◌, ◌+◌, ◌<◌, ◌≤◌, ◌^◌, ◌-◌};
ghost use Rattle.module_forms.specs.Brackets.{opened_at as opened_in, one_closed as closed_in, dotted as dotted_in, behind_mark as mark_in};
ghost use Rattle.module_forms.specs.Brackets.{behind_token as token_in, innermost as innermost_in, offset_of as offset_in, closing_count};

use erl_scan::{Mark, Spot, Token};

/// What the brackets of tokens come to where they end.
#[derive(Clone, Copy, Debug, PartialEq, Eq)]
pub(crate) enum Brackets {
    /// The innermost of those that stay open stands at this byte.
    Open(usize),
    /// None stays open, and so many are closed that are opened before the tokens.
    Closing(usize),
    /// None stays open, and a dot stands before.
    Ended,
}

/// Where the innermost bracket stands that is open at the end of tokens, in the form that they end in. Takes no memory.
pub fn open_bracket(tokens: &[Spot]) -> Option<usize>
    ensures { result ≡ innermost_in tokens.now }
{
    let mut found = Brackets::Closing(0);
    let mut left = tokens.len();
    while left > 0 {
        let token = &tokens[left - 1];
        found = behind_token(&token.what, token.at, found);
        left -= 1;
    }
    offset_of(found)
}

/// What a token, which stands at a byte, and those behind it come to.
fn behind_token(token: &Token, at: usize, behind: Brackets) -> Brackets
    requires { closing_count behind < 2 ^ 64 - 1 }
    ensures is { result ≡ token_in token.now at behind }
    ensures one_more { closing_count result ≤ closing_count behind + 1 }
{
    match token {
        Token::Mark(mark) => behind_mark(*mark, at, behind),
        Token::Dot => dotted(behind),
        _ => behind,
    }
}

/// The same of a sign.
fn behind_mark(mark: Mark, at: usize, behind: Brackets) -> Brackets
    requires { closing_count behind < 2 ^ 64 - 1 }
    ensures is { result ≡ mark_in mark at behind }
    ensures one_more { closing_count result ≤ closing_count behind + 1 }
{
    match mark {
        Mark::OpenParen | Mark::OpenBracket | Mark::OpenBrace => opened_at(at, behind),
        Mark::CloseParen | Mark::CloseBracket | Mark::CloseBrace => one_closed(behind),
        _ => behind,
    }
}

/// An opening bracket at a byte.
fn opened_at(at: usize, behind: Brackets) -> Brackets
    ensures is { result ≡ opened_in at behind }
    ensures one_more { closing_count result ≤ closing_count behind + 1 }
{
    match behind {
        Brackets::Closing(0) => Brackets::Open(at),
        Brackets::Closing(n) => Brackets::Closing(n - 1),
        other => other,
    }
}

/// A closing bracket.
fn one_closed(behind: Brackets) -> Brackets
    requires { closing_count behind < 2 ^ 64 - 1 }
    ensures is { result ≡ closed_in behind }
    ensures one_more { closing_count result ≤ closing_count behind + 1 }
{
    match behind {
        Brackets::Closing(n) => Brackets::Closing(n + 1),
        other => other,
    }
}

/// A dot that ends a form.
fn dotted(behind: Brackets) -> Brackets
    ensures is { result ≡ dotted_in behind }
    ensures none_more { closing_count result ≤ closing_count behind }
{
    match behind {
        Brackets::Closing(_) => Brackets::Ended,
        other => other,
    }
}

/// Where the innermost open bracket stands.
fn offset_of(brackets: Brackets) -> Option<usize>
    ensures { result ≡ offset_in brackets }
{
    match brackets {
        Brackets::Open(at) => Some(at),
        _ => None,
    }
}

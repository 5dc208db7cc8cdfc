// Reserved words.
ghost use Rattle.std.specs.Prelude.{◌≡◌, ◌≢◌, MatchOption, Some};
ghost use Rattle.std.specs.Str.{chars};
ghost use Rattle.erl_chars.specs.Cursor.{first_of};
ghost use Rattle.erl_scan.specs.Words.{word_of};

use erl_chars::Cursor;

/// A reserved word (Erlang Reference Manual, Reserved Words, of OTP 25).
#[derive(Clone, Copy, Debug, PartialEq, Eq)]
pub enum Word {
    /// `after`
    After,
    /// `and`
    And,
    /// `andalso`
    AndAlso,
    /// `band`
    BitAnd,
    /// `begin`
    Begin,
    /// `bnot`
    BitNot,
    /// `bor`
    BitOr,
    /// `bsl`
    ShiftLeft,
    /// `bsr`
    ShiftRight,
    /// `bxor`
    BitXor,
    /// `case`
    Case,
    /// `catch`
    Catch,
    /// `cond`
    Cond,
    /// `div`
    Div,
    /// `end`
    End,
    /// `fun`
    Fun,
    /// `if`
    If,
    /// `let`
    Let,
    /// `not`
    Not,
    /// `of`
    Of,
    /// `or`
    Or,
    /// `orelse`
    OrElse,
    /// `receive`
    Receive,
    /// `rem`
    Rem,
    /// `try`
    Try,
    /// `when`
    When,
    /// `xor`
    Xor,
}

impl Word {
    /// The reserved word that is written so. The first character tells which it can be.
    pub(crate) fn reserved(text: &str) -> Option<Word>
        ensures { result ≡ word_of (chars text.now) }
    {
        let first = Cursor::new(text).peek()?;
        match first {
            'a' => with_a(text),
            'b' => with_b(text),
            'c' => with_c(text),
            'd' => only(Word::Div, "div", text),
            'e' => only(Word::End, "end", text),
            'f' => only(Word::Fun, "fun", text),
            'i' => only(Word::If, "if", text),
            'l' => only(Word::Let, "let", text),
            'n' => only(Word::Not, "not", text),
            'o' => with_o(text),
            'r' => with_r(text),
            't' => only(Word::Try, "try", text),
            'w' => only(Word::When, "when", text),
            'x' => only(Word::Xor, "xor", text),
            _ => None,
        }
    }
}

/// The word, where the text is what is written for it.
fn only(word: Word, written: &str, text: &str) -> Option<Word>
    ensures { MatchOption result (text.now ≢ written.now) (λ it. (it ≡ word) × (text.now ≡ written.now)) }
{
    if text == written { Some(word) } else { None }
}

/// The reserved word that is written so, with this first letter.
fn with_a(text: &str) -> Option<Word>
    requires { first_of (chars text.now) ≡ Some 97 }
    ensures { result ≡ word_of (chars text.now) }
{
    match text {
        "after" => Some(Word::After),
        "and" => Some(Word::And),
        "andalso" => Some(Word::AndAlso),
        _ => None,
    }
}

/// The reserved word that is written so, with this first letter.
fn with_b(text: &str) -> Option<Word>
    requires { first_of (chars text.now) ≡ Some 98 }
    ensures { result ≡ word_of (chars text.now) }
{
    match text {
        "band" => Some(Word::BitAnd),
        "begin" => Some(Word::Begin),
        "bnot" => Some(Word::BitNot),
        "bor" => Some(Word::BitOr),
        "bsl" => Some(Word::ShiftLeft),
        "bsr" => Some(Word::ShiftRight),
        "bxor" => Some(Word::BitXor),
        _ => None,
    }
}

/// The reserved word that is written so, with this first letter.
fn with_c(text: &str) -> Option<Word>
    requires { first_of (chars text.now) ≡ Some 99 }
    ensures { result ≡ word_of (chars text.now) }
{
    match text {
        "case" => Some(Word::Case),
        "catch" => Some(Word::Catch),
        "cond" => Some(Word::Cond),
        _ => None,
    }
}

/// The reserved word that is written so, with this first letter.
fn with_o(text: &str) -> Option<Word>
    requires { first_of (chars text.now) ≡ Some 111 }
    ensures { result ≡ word_of (chars text.now) }
{
    match text {
        "of" => Some(Word::Of),
        "or" => Some(Word::Or),
        "orelse" => Some(Word::OrElse),
        _ => None,
    }
}

/// The reserved word that is written so, with this first letter.
fn with_r(text: &str) -> Option<Word>
    requires { first_of (chars text.now) ≡ Some 114 }
    ensures { result ≡ word_of (chars text.now) }
{
    match text {
        "receive" => Some(Word::Receive),
        "rem" => Some(Word::Rem),
        _ => None,
    }
}

// Reading punctuation.
ghost use Rattle.std.specs.Prelude.{◌≡◌, ◌∷◌, Some, length, drop, get_or};
ghost use Rattle.erl_chars.specs.Cursor.{first_of, after_first};
ghost use Rattle.erl_scan.specs.Scanner.{left, total};
ghost use Rattle.erl_scan.specs.Answers.{Answers};
ghost use Rattle.erl_scan.specs.Lookahead as tests;
ghost use Rattle.erl_scan.specs.Lookahead.{mark_by};
ghost use Rattle.erl_scan.specs.Marks.{mark_in, mark_text};
ghost use Rattle.erl_scan.specs.Tokens.{mark_next};

use crate::error::{Fault, ReadError};
use crate::mark::Mark;
use crate::scanner::Scanner;
use crate::token::Token;

impl<'a> Scanner<'a> {
    /// Reads the longest mark. Most have one character.
    #[inline(always)]
    pub(crate) fn mark_token(&mut self, first: char) -> Result<Token, ReadError>
        requires first { first_of (left self.old) ≡ Some first }
        ensures answers { Answers (total self.old) (mark_next (left self.old) (mark_in (left self.old))) result (left self.new) }
        ensures total { total self.new ≡ total self.old }
    {
        match alone(first) {
            Some(mark) => {
                self.cursor.advance();
                Ok(Token::Mark(mark))
            }
            None => self.longest_mark_token(first),
        }
    }

    /// Reads the longest mark, by up to three characters.
    fn longest_mark_token(&mut self, first: char) -> Result<Token, ReadError>
        requires first { first_of (left self.old) ≡ Some first }
        ensures answers { Answers (total self.old) (mark_next (left self.old) (mark_in (left self.old))) result (left self.new) }
        ensures total { total self.new ≡ total self.old }
    {
        match mark_of(first, self.second(), self.third()) {
            Some(mark) => {
                self.skip(width(mark));
                Ok(Token::Mark(mark))
            }
            None => Err(ReadError {
                kind: Fault::BadChar,
                at: self.cursor.offset(),
            }),
        }
    }

    /// The character behind the next one, or `\0` at the end.
    pub(crate) fn second(&self) -> char
        ensures { result ≡ get_or (left self.now) 1 0 }
    {
        match self.behind().peek() {
            Some(c) => c,
            None => '\0',
        }
    }

    /// The character behind that, or `\0` at the end.
    pub(crate) fn third(&self) -> char
        ensures { result ≡ get_or (left self.now) 2 0 }
    {
        let mut cursor = self.behind();
        cursor.advance();
        match cursor.peek() {
            Some(c) => c,
            None => '\0',
        }
    }

    /// Steps over so many characters.
    fn skip(&mut self, count: usize)
        ensures left { left self.new ≡ drop count (left self.old) }
        ensures total { total self.new ≡ total self.old }
    {
        for _ in 0..count {
            self.cursor.advance();
        }
    }
}

/// How many characters a mark is written with.
fn width(mark: Mark) -> usize
    ensures { result ≡ length (mark_text mark) }
{
    match mark {
        Mark::ExactlyEqual | Mark::ExactlyUnequal | Mark::Ellipsis => 3,
        Mark::OpenBinary
        | Mark::LeftArrow
        | Mark::BinaryArrow
        | Mark::CloseBinary
        | Mark::GreaterOrEqual
        | Mark::Arrow
        | Mark::Subtract
        | Mark::Append
        | Mark::LessOrEqual
        | Mark::MapArrow
        | Mark::Equal
        | Mark::Unequal
        | Mark::BarBar
        | Mark::MapMatch
        | Mark::ColonColon
        | Mark::DotDot
        | Mark::MaybeMatch => 2,
        _ => 1,
    }
}

/// The longest mark that three characters begin with.
fn mark_of(first: char, second: char, third: char) -> Option<Mark>
    ensures { result ≡ mark_by first second third }
{
    let mark = match first {
        '=' => behind_equals(second, third),
        '<' => behind_less(second),
        '>' => behind_greater(second),
        '-' => behind_minus(second),
        ':' => behind_colon(second),
        '.' => behind_dot(second, third),
        '+' => longer_if('+', second, Mark::Append, Mark::Plus),
        '/' => longer_if('=', second, Mark::Unequal, Mark::Divide),
        '|' => longer_if('|', second, Mark::BarBar, Mark::Bar),
        '?' => longer_if('=', second, Mark::MaybeMatch, Mark::Question),
        _ => return alone(first),
    };
    Some(mark)
}

/// The mark that `=` begins.
fn behind_equals(second: char, third: char) -> Mark
    ensures { result ≡ tests.behind_equals second third }
{
    match second {
        ':' if third == '=' => Mark::ExactlyEqual,
        '/' if third == '=' => Mark::ExactlyUnequal,
        '<' => Mark::LessOrEqual,
        '>' => Mark::MapArrow,
        '=' => Mark::Equal,
        _ => Mark::Match,
    }
}

/// The mark that `<` begins.
fn behind_less(second: char) -> Mark
    ensures { result ≡ tests.behind_less second }
{
    match second {
        '<' => Mark::OpenBinary,
        '-' => Mark::LeftArrow,
        '=' => Mark::BinaryArrow,
        _ => Mark::Less,
    }
}

/// The mark that `>` begins.
fn behind_greater(second: char) -> Mark
    ensures { result ≡ tests.behind_greater second }
{
    match second {
        '>' => Mark::CloseBinary,
        '=' => Mark::GreaterOrEqual,
        _ => Mark::Greater,
    }
}

/// The mark that `-` begins.
fn behind_minus(second: char) -> Mark
    ensures { result ≡ tests.behind_minus second }
{
    match second {
        '>' => Mark::Arrow,
        '-' => Mark::Subtract,
        _ => Mark::Minus,
    }
}

/// The mark that `:` begins.
fn behind_colon(second: char) -> Mark
    ensures { result ≡ tests.behind_colon second }
{
    match second {
        '=' => Mark::MapMatch,
        ':' => Mark::ColonColon,
        _ => Mark::Colon,
    }
}

/// The mark that a dot begins.
fn behind_dot(second: char, third: char) -> Mark
    ensures { result ≡ tests.behind_dot second third }
{
    match second {
        '.' if third == '.' => Mark::Ellipsis,
        '.' => Mark::DotDot,
        _ => Mark::Period,
    }
}

/// The longer of two marks, where the character that makes it so follows.
fn longer_if(wanted: char, second: char, longer: Mark, shorter: Mark) -> Mark
    ensures { result ≡ tests.longer_if wanted second longer shorter }
{
    if second == wanted { longer } else { shorter }
}

/// The mark of a character that begins no longer one.
#[inline(always)]
fn alone(first: char) -> Option<Mark>
    ensures { result ≡ tests.alone first }
{
    match first {
        '(' => Some(Mark::OpenParen),
        ')' => Some(Mark::CloseParen),
        '{' => Some(Mark::OpenBrace),
        '}' => Some(Mark::CloseBrace),
        '[' => Some(Mark::OpenBracket),
        ']' => Some(Mark::CloseBracket),
        ',' => Some(Mark::Comma),
        ';' => Some(Mark::Semicolon),
        '!' => Some(Mark::Send),
        '#' => Some(Mark::Hash),
        '*' => Some(Mark::Times),
        _ => None,
    }
}

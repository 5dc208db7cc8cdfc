// Quoted atoms, strings, and characters behind `$`.
ghost use Rattle.std.specs.Prelude.{◌≡◌, Some};
ghost use Rattle.erl_chars.specs.Cursor.{first_of, after_first};
ghost use Rattle.erl_scan.specs.Scanner.{left, total};
ghost use Rattle.erl_scan.specs.Answers.{Answers, AnswersFirst, IsBetween, character_in};
ghost use Rattle.erl_scan.specs.Tokens.{begins_two_quotes};

use crate::error::{Fault, ReadError};
use crate::names::atom;
use crate::scanner::{OUT_OF_MEMORY, Scanner};
use crate::token::Token;
use erl_chars::{QuoteError, Text};
use std::alloc::AllocError;

impl<'a> Scanner<'a> {
    /// Reads an atom between single quotes.
    pub(crate) fn quoted_atom_token(&mut self) -> Result<Token, ReadError>
        requires first { first_of (left self.old) ≡ Some 39 }
        ensures takes { AnswersFirst (total self.old) (left self.old) result (left self.new) }
        ensures total { total self.new ≡ total self.old }
    {
        let at = self.cursor.offset();
        let text = match self.between('\'') {
            Ok(text) => text,
            Err(error) => return Err(error),
        };
        match self.recent.text(self.alloc, text.as_str()) {
            Ok(text) => atom(text, at),
            Err(AllocError) => Err(OUT_OF_MEMORY),
        }
    }

    /// Reads a string.
    pub(crate) fn string_token(&mut self) -> Result<Token, ReadError>
        requires first { first_of (left self.old) ≡ Some 34 }
        ensures takes { AnswersFirst (total self.old) (left self.old) result (left self.new) }
        ensures total { total self.new ≡ total self.old }
    {
        if self.begins_three_quotes() {
            return Err(ReadError {
                kind: Fault::Unsupported,
                at: self.cursor.offset(),
            });
        }
        match self.between('"') {
            Ok(text) => Ok(Token::String(text)),
            Err(error) => Err(error),
        }
    }

    /// Whether two more double quotes follow the first.
    fn begins_three_quotes(&self) -> bool
        ensures { result ≡ begins_two_quotes (after_first (left self.now)) }
    {
        self.second() == '"' && self.third() == '"'
    }

    /// What stands between quotes, from the opening one on.
    fn between(&mut self, quote: char) -> Result<Text, ReadError>
        ensures between { IsBetween (total self.old) quote (left self.old) result (left self.new) }
        ensures total { total self.new ≡ total self.old }
    {
        let at = self.cursor.offset();
        self.cursor.advance();
        match self.cursor.quoted(self.alloc, quote) {
            Ok(text) => Ok(text),
            Err(QuoteError::Unclosed) => Err(ReadError {
                kind: Fault::Unclosed,
                at,
            }),
            Err(QuoteError::BadEscape(at)) => Err(ReadError {
                kind: Fault::BadEscape,
                at,
            }),
            Err(QuoteError::Memory) => Err(OUT_OF_MEMORY),
        }
    }

    /// Reads a character behind `$`.
    pub(crate) fn character_token(&mut self) -> Result<Token, ReadError>
        ensures answers { Answers (total self.old) (character_in (left self.old)) result (left self.new) }
        ensures total { total self.new ≡ total self.old }
    {
        let dollar = self.cursor.offset();
        self.cursor.advance();
        let at = self.cursor.offset();
        let Some(c) = self.cursor.peek() else {
            return Err(ReadError {
                kind: Fault::BadChar,
                at: dollar,
            });
        };
        self.cursor.advance();
        if c != '\\' {
            return Ok(integer(c));
        }
        match self.cursor.escape() {
            Ok(c) => Ok(integer(c)),
            Err(_) => Err(ReadError {
                kind: Fault::BadEscape,
                at,
            }),
        }
    }
}

/// A character as an integer.
fn integer(c: char) -> Token
    ensures { result ≡ Token.Integer c }
{
    Token::Integer(u64::from(u32::from(c)))
}

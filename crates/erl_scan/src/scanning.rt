// Tokens, one after the other.
ghost use Rattle.std.specs.Prelude.{◌≡◌, ◌∷◌, length, Some};
ghost use Rattle.std.specs.Str.{chars};
ghost use Rattle.erl_chars.specs.Chars as kinds;
ghost use Rattle.erl_chars.specs.Cursor.{left as left_of, total as total_of, first_of, after_first};
ghost use Rattle.erl_chars.specs.Gaps.{after_gap};
ghost use Rattle.erl_scan.specs.Scanner.{left, total, Scans};
ghost use Rattle.erl_scan.specs.Answers.{Answers, AnswersFirst, plain_in};
ghost use Rattle.erl_scan.specs.Tokens.{ends_form};

use crate::error::ReadError;
use crate::names::{begins_variable, is_small};
use crate::numbers::is_decimal;
use crate::recent::RecentTexts;
use crate::scanner::Scanner;
use crate::token::{Spot, Token};
use erl_chars::Cursor;
use std::alloc::Global;

impl<'a> Scanner<'a> {
    /// The start of a text. The tokens, and the names that are kept to be shared, take memory from `alloc`.
    pub fn new(alloc: Global, text: &'a str) -> Scanner<'a>
        ensures left { left result ≡ chars text.now }
        ensures total { total result ≡ length text.now }
    {
        Scanner {
            alloc,
            cursor: Cursor::new(text),
            recent: RecentTexts::new(alloc, text.len()),
        }
    }

    /// The next token, behind blanks and comments, or none at the end of the text, where the scanner then stands. After
    /// an error it stands somewhere behind the token before.
    ///
    /// # Errors
    ///
    /// The token's own fault, and `Memory` where memory is refused.
    pub fn next_token(&mut self) -> Result<Option<Spot>, ReadError>
        ensures scans { Scans (total self.old) (after_gap (left self.old)) (left self.new) result }
        ensures total { total self.new ≡ total self.old }
    {
        self.cursor.skip_gap();
        let at = self.cursor.offset();
        match self.cursor.peek() {
            None => Ok(None),
            Some(first) => match self.token(first) {
                Ok(what) => Ok(Some(Spot { what, at })),
                Err(error) => Err(error),
            },
        }
    }

    /// Reads a token, by its first character.
    fn token(&mut self, first: char) -> Result<Token, ReadError>
        requires first { first_of (left self.old) ≡ Some first }
        ensures takes { AnswersFirst (total self.old) (left self.old) result (left self.new) }
        ensures total { total self.new ≡ total self.old }
    {
        if first == '\'' {
            self.quoted_atom_token()
        } else if first == '"' {
            self.string_token()
        } else {
            self.plain_token(first)
        }
    }

    /// Reads a token that begins with no quote.
    fn plain_token(&mut self, first: char) -> Result<Token, ReadError>
        requires first { first_of (left self.old) ≡ Some first }
        ensures answers { Answers (total self.old) (plain_in (left self.old)) result (left self.new) }
        ensures total { total self.new ≡ total self.old }
    {
        if is_decimal(first) {
            self.number_token()
        } else if first == '$' {
            self.character_token()
        } else if is_small(first) {
            self.name_token()
        } else if begins_variable(first) {
            self.variable_token()
        } else if first == '.' {
            self.dot_token()
        } else {
            self.mark_token(first)
        }
    }

    /// Reads the dot that ends a form, or a mark that begins with a dot.
    fn dot_token(&mut self) -> Result<Token, ReadError>
        requires first { first_of (left self.old) ≡ Some 46 }
        ensures answers { Answers (total self.old) (plain_in (left self.old)) result (left self.new) }
        ensures total { total self.new ≡ total self.old }
    {
        if self.ends_form() {
            self.cursor.advance();
            Ok(Token::Dot)
        } else {
            self.mark_token('.')
        }
    }

    /// Whether a dot that is next ends a form.
    fn ends_form(&self) -> bool
        ensures { result ≡ ends_form (after_first (left self.now)) }
    {
        match self.behind().peek() {
            Some(c) => matches!(c, '\0'..=' ' | '\u{80}'..='\u{a0}' | '%'),
            None => true,
        }
    }

    /// The text behind the next character.
    pub(crate) fn behind(&self) -> Cursor<'a>
        ensures left { left_of result ≡ after_first (left self.now) }
        ensures total { total_of result ≡ total self.now }
    {
        let mut cursor = self.cursor;
        cursor.advance();
        cursor
    }
}

// Names: atoms without quotes, reserved words and variables.
ghost use Rattle.std.specs.Prelude.{◌≡◌};
ghost use Rattle.std.specs.Str.{chars};
ghost use Rattle.erl_chars.specs.Chars as kinds;
ghost use Rattle.erl_chars.specs.Chars.{front, after_front};
ghost use Rattle.erl_chars.specs.Cursor.{left as left_of, total as total_of};
ghost use Rattle.erl_scan.specs.Scanner.{left, total};
ghost use Rattle.erl_scan.specs.Answers.{Answers, NameGoesOn, name_in, variable_in, atom_at};

use crate::error::{Fault, ReadError};
use crate::scanner::{OUT_OF_MEMORY, Scanner};
use crate::token::Token;
use crate::word::Word;
use erl_chars::{Cursor, Name, SharedText};
use std::alloc::AllocError;

impl<'a> Scanner<'a> {
    /// Reads a reserved word, or an atom without quotes.
    pub(crate) fn name_token(&mut self) -> Result<Token, ReadError>
        ensures answers { Answers (total self.old) (name_in (left self.old)) result (left self.new) }
        ensures total { total self.new ≡ total self.old }
    {
        let at = self.cursor.offset();
        let name = self.name();
        match Word::reserved(name) {
            Some(word) => Ok(Token::Word(word)),
            None => match self.recent.text(self.alloc, name) {
                Ok(text) => atom(text, at),
                Err(AllocError) => Err(OUT_OF_MEMORY),
            },
        }
    }

    /// Reads a variable.
    pub(crate) fn variable_token(&mut self) -> Result<Token, ReadError>
        ensures answers { Answers (total self.old) (variable_in (left self.old)) result (left self.new) }
        ensures total { total self.new ≡ total self.old }
    {
        let name = self.name();
        match self.recent.text(self.alloc, name) {
            Ok(text) => Ok(Token::Variable(text)),
            Err(AllocError) => Err(OUT_OF_MEMORY),
        }
    }

    /// The characters in front that a name may have, stepped over.
    fn name(&mut self) -> &'a str
        ensures name { chars result.now ≡ front kinds.is_name_char (left self.old) }
        ensures left { left self.new ≡ after_front kinds.is_name_char (left self.old) }
        ensures total { total self.new ≡ total self.old }
    {
        let start = self.cursor;
        self.skip_name();
        start.up_to(&self.cursor)
    }

    /// Steps over the characters in front that a name may have.
    fn skip_name(&mut self)
        ensures left { left self.new ≡ after_front kinds.is_name_char (left self.old) }
        ensures total { total self.new ≡ total self.old }
    {
        let mut cursor = self.cursor;
        while next_name_char(&mut cursor).is_some() {}
        self.cursor = cursor;
    }
}

/// The next character, stepped over, where a name may have it.
#[inline]
fn next_name_char(cursor: &mut Cursor) -> Option<char>
    ensures char { NameGoesOn (left_of cursor.old) result (left_of cursor.new) }
    ensures total { total_of cursor.new ≡ total_of cursor.old }
{
    let mut ahead = *cursor;
    let c = ahead.take()?;
    if !is_name_char(c) {
        return None;
    }
    *cursor = ahead;
    Some(c)
}

/// The atom of a text that stands at an offset.
pub(crate) fn atom(text: SharedText, at: usize) -> Result<Token, ReadError>
    ensures { result ≡ atom_at text at }
{
    match Name::from_text(text) {
        Ok(name) => Ok(Token::Atom(name)),
        Err(_) => Err(ReadError {
            kind: Fault::AtomTooLong,
            at,
        }),
    }
}

/// Whether a name may begin with the character and be no variable.
pub(crate) fn is_small(c: char) -> bool
    ensures { result ≡ kinds.is_small c }
{
    matches!(c, 'a'..='z' | '\u{df}'..='\u{f6}' | '\u{f8}'..='\u{ff}')
}

/// Whether a variable may begin with the character.
pub(crate) fn begins_variable(c: char) -> bool
    ensures { result ≡ kinds.begins_variable c }
{
    is_capital(c) || c == '_'
}

/// Whether the character is a capital letter.
fn is_capital(c: char) -> bool
    ensures { result ≡ kinds.is_capital c }
{
    matches!(c, 'A'..='Z' | '\u{c0}'..='\u{d6}' | '\u{d8}'..='\u{de}')
}

/// Whether a name may have the character.
fn is_name_char(c: char) -> bool
    ensures { result ≡ kinds.is_name_char c }
{
    if matches!(c, 'a'..='z') {
        return true;
    }
    matches!(c, 'A'..='Z' | '0'..='9' | '_' | '@') || is_small(c) || is_capital(c)
}

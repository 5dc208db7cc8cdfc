// What stands between quotes.
ghost use Rattle.std.specs.Prelude.{◌≡◌, ◌∷◌, ◌++◌, ℕ, List, [], MatchResult, string_bytes};
ghost use Rattle.std.specs.Str.{chars};
ghost use Rattle.erl_chars.specs.Cursor.{left, total};
ghost use Rattle.erl_chars.specs.Quotes.{Quoted, IsQuoted, closed};
ghost use Rattle.erl_chars.specs.QuoteErrors.{IsNotQuoted};
ghost use Rattle.erl_chars.specs.QuoteSteps.{ReadsCharacter};

use crate::cursor::Cursor;
use crate::escapes::EscapeError;
use crate::text::Text;
use std::alloc::{AllocError, Global};
use thiserror::Error;

/// Why there is nothing between quotes.
#[derive(Clone, Copy, Debug, PartialEq, Eq, Error)]
pub enum QuoteError {
    /// The text ended before the closing quote.
    #[error("the quotes are not closed")]
    Unclosed,
    /// At this byte stands a backslash with no escape behind it.
    #[error("no escape at byte {0}")]
    BadEscape(usize),
    /// Memory was refused.
    #[error("out of memory")]
    Memory,
}

impl<'a> Cursor<'a> {
    /// Reads what stands between quotes, behind the opening one, and the closing one. After an error the cursor stands
    /// somewhere behind the opening quote.
    ///
    /// # Errors
    ///
    /// `Unclosed` and `BadEscape` as the text says, and `Memory` where memory is refused.
    pub fn quoted(&mut self, alloc: Global, quote: char) -> Result<Text, QuoteError>
        ensures read { MatchResult result (λ text. IsQuoted quote (left self.old) (closed text (left self.new)))
            (λ e. IsNotQuoted (total self.old) quote (left self.old) e) }
        ensures total { total self.new ≡ total self.old }
    {
        let mut text = String::new(alloc);
        while let Some(c) = self.quoted_char(quote)? {
            append(&mut text, c)?;
        }
        kept(alloc, text)
    }

    /// Reads a character between quotes, or none at the closing quote.
    fn quoted_char(&mut self, quote: char) -> Result<Option<char>, QuoteError>
        ensures read { ReadsCharacter (total self.old) quote (left self.old) result (left self.new) }
        ensures total { total self.new ≡ total self.old }
    {
        let start = *self;
        match self.take() {
            None => Err(QuoteError::Unclosed),
            Some(c) if c == quote => Ok(None),
            Some('\\') => match self.escape() {
                Ok(c) => Ok(Some(c)),
                Err(EscapeError::Cut) => Err(QuoteError::Unclosed),
                Err(EscapeError::Wrong) => Err(QuoteError::BadEscape(start.offset())),
            },
            Some(c) => Ok(Some(c)),
        }
    }
}

/// Appends a character to a text.
fn append(text: &mut String, c: char) -> Result<(), QuoteError>
    ensures { MatchResult result (λ _. chars (string_bytes text.new) ≡ chars (string_bytes text.old) ++ c ∷
        []) (λ e. e ≡ QuoteError.Memory) }
{
    match text.push(c) {
        Ok(()) => Ok(()),
        Err(AllocError) => Err(QuoteError::Memory),
    }
}

/// A string as a text.
fn kept(alloc: Global, text: String) -> Result<Text, QuoteError>
    ensures { MatchResult result (λ it. it ≡ chars (string_bytes text)) (λ e. e ≡ QuoteError.Memory) }
{
    match Text::from_string(alloc, text) {
        Ok(text) => Ok(text),
        Err(AllocError) => Err(QuoteError::Memory),
    }
}

/// A law: what stands between quotes is read in one way only.
pub fn quotes_read_one_way()
    ensures { (quote : ℕ) (cs : List ℕ) (one other : Quoted) → IsQuoted quote cs one → IsQuoted quote cs other → one ≡ other }
{}

// Steps over characters, blanks and comments.
ghost use Rattle.std.specs.Prelude.{◌≡◌, ℕ, List, length, MatchOption, [], ◌∷◌, ◌++◌};
ghost use Rattle.std.specs.Str.{chars};
ghost use Rattle.erl_chars.specs.Chars as kinds;
ghost use Rattle.erl_chars.specs.Cursor.{left, total, offset, first_of, after_first};
ghost use Rattle.erl_chars.specs.Gaps.{after_gap};

use crate::bytes::{byte_len, in_front, past_first, split_first};
use crate::cursor::Cursor;

impl<'a> Cursor<'a> {
    /// The start of a text.
    pub fn new(text: &'a str) -> Cursor<'a>
        ensures left { left result ≡ chars text.now }
        ensures total { total result ≡ length text.now }
    {
        Cursor {
            total: text.len(),
            rest: text,
        }
    }

    /// The byte at which the cursor stands, from 0.
    pub fn offset(&self) -> usize
        ensures { result ≡ offset (total self.now) (left self.now) }
    {
        self.total - byte_len(self.rest)
    }

    /// The next character, or none at the end.
    pub fn peek(&self) -> Option<char>
        ensures { result ≡ first_of (left self.now) }
    {
        self.rest.chars().next()
    }

    /// Steps over the next character, if there is one.
    pub fn advance(&mut self)
        ensures left { left self.new ≡ after_first (left self.old) }
        ensures total { total self.new ≡ total self.old }
    {
        self.rest = past_first(self.rest);
    }

    /// The characters between this cursor and one that stands further on in the same text.
    pub fn up_to(&self, later: &Cursor<'a>) -> &'a str
        requires ahead { (front : List ℕ) × (left self.now ≡ front ++ left later.now) }
        ensures between { left self.now ≡ chars result.now ++ left later.now }
    {
        in_front(self.rest, later.rest)
    }

    /// Steps over the blanks and comments in front.
    pub fn skip_gap(&mut self)
        ensures left { left self.new ≡ after_gap (left self.old) }
        ensures total { total self.new ≡ total self.old }
    {
        let mut is_comment = false;
        let mut ahead = *self;
        while let Some(c) = ahead.take() {
            if is_comment {
                is_comment = c != '\n';
            } else if c == '%' {
                is_comment = true;
            } else if !is_blank(c) {
                break;
            }
            *self = ahead;
        }
    }

    /// The next character, stepped over, or none at the end.
    pub fn take(&mut self) -> Option<char>
        ensures left { MatchOption result (left self.old ≡ []) (λ c. left self.old ≡ c ∷ left self.new) }
        ensures total { total self.new ≡ total self.old }
    {
        let (c, rest) = split_first(self.rest)?;
        self.rest = rest;
        Some(c)
    }
}

/// Whether a character is a blank.
fn is_blank(c: char) -> bool
    ensures { result ≡ kinds.is_blank c }
{
    matches!(c, '\0'..=' ' | '\u{80}'..='\u{a0}')
}

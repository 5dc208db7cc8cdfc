// Where the values of a text of terms stand.
use crate::finding::Sought;
use erl_scan::{Mark, Scanner, Spot, Token};
use std::alloc::{AllocError, Global};

/// Where a value stands in a text, in bytes.
#[derive(Clone, Copy, Debug)]
pub(crate) struct Span {
    /// Its first byte.
    pub(crate) start: usize,
    /// The first byte of the token behind it.
    pub(crate) end: usize,
}

/// A walk over the tokens of a text of terms.
#[derive(Drop)]
struct Walk<'a> {
    scanner: Scanner<'a>,
    /// The number of the element, from 1, in each bracket that is open.
    numbers: Vec<usize>,
    /// How many terms have ended.
    terms: usize,
    /// Whether a value begins with the next token.
    is_between: bool,
}

/// Where the value that is sought stands, if it does.
///
/// # Errors
///
/// `AllocError` where memory is refused.
pub(crate) fn find(
    alloc: Global,
    text: &str,
    mut sought: Sought,
) -> Result<Option<Span>, AllocError> {
    let mut walk = Walk::new(alloc, text);
    for _ in 0..text.len() {
        let Some(spot) = walk.next_spot()? else {
            break;
        };
        if walk.is_between && sought.is_met(walk.numbers.as_slice(), walk.terms, &spot.what) {
            let end = walk.end_of(&spot, text.len())?;
            return Ok(Some(Span {
                start: spot.at,
                end,
            }));
        }
        walk.pass(&spot.what)?;
    }
    Ok(None)
}

impl<'a> Walk<'a> {
    /// A walk at the start of a text.
    fn new(alloc: Global, text: &'a str) -> Walk<'a> {
        Walk {
            scanner: Scanner::new(alloc, text),
            numbers: Vec::new(alloc),
            terms: 0,
            is_between: true,
        }
    }

    /// The next token; none at the end, and none where one is faulty.
    fn next_spot(&mut self) -> Result<Option<Spot>, AllocError> {
        match self.scanner.next_token() {
            Ok(spot) => Ok(spot),
            Err(error) => match error.kind {
                erl_scan::Fault::Memory => Err(AllocError),
                _ => Ok(None),
            },
        }
    }

    /// Goes past a token.
    fn pass(&mut self, token: &Token) -> Result<(), AllocError> {
        self.is_between = false;
        match token {
            Token::Mark(Mark::OpenBrace | Mark::OpenBracket) => {
                self.numbers.push(1)?;
                self.is_between = true;
            }
            Token::Mark(Mark::CloseBrace | Mark::CloseBracket) => {
                self.numbers.pop();
            }
            Token::Mark(Mark::Comma | Mark::Bar) => self.count_element(),
            Token::Dot => {
                self.terms = self.terms.saturating_add(1);
                self.is_between = true;
            }
            _ => {}
        }
        Ok(())
    }

    /// One more element of the innermost open bracket.
    fn count_element(&mut self) {
        if let Some(number) = self.numbers.last_mut() {
            *number = number.saturating_add(1);
        }
        self.is_between = true;
    }

    /// The first byte of the token behind the value that begins with this token; the text's length, where there is none.
    fn end_of(&mut self, first: &Spot, length: usize) -> Result<usize, AllocError> {
        let depth = self.numbers.len();
        self.pass(&first.what)?;
        for _ in 0..length {
            let Some(spot) = self.next_spot()? else {
                break;
            };
            if self.numbers.len() <= depth && ends_value(&spot.what) {
                return Ok(spot.at);
            }
            self.pass(&spot.what)?;
        }
        Ok(length)
    }
}

/// Whether no value goes on with a token that stands in its bracket.
fn ends_value(token: &Token) -> bool {
    matches!(
        token,
        Token::Dot | Token::Mark(Mark::Comma | Mark::Bar | Mark::CloseBrace | Mark::CloseBracket)
    )
}

// Numbers.
ghost use Rattle.std.specs.Prelude.{◌≡◌, ◌*◌, ◌+◌, ◌≤◌, Some};
ghost use Rattle.erl_chars.specs.Chars as kinds;
ghost use Rattle.erl_chars.specs.Cursor.{left as left_of, first_of};
ghost use Rattle.erl_scan.specs.Scanner.{left, total};
ghost use Rattle.erl_scan.specs.Answers.{Answers};
ghost use Rattle.erl_scan.specs.Numbers.{begins_with_digit, value_in, after_digits, after_exponent, number_in, number_by, saturated};
ghost use Rattle.erl_scan.specs.Saturated.{saturated_number, number_of, GoesOn};
ghost use Rattle.erl_scan.specs.Tokens.{number_next};

use crate::error::{Fault, ReadError};
use crate::scanner::Scanner;
use crate::token::Token;
use erl_chars::Cursor;

/// A number without a sign.
#[derive(Clone, Copy)]
pub(crate) enum Number {
    /// An integer, or `u64::MAX` for all that are greater.
    Integer(u64),
    /// A float.
    Float,
    /// Digits behind a base that is not 2 to 36.
    NoBase,
}

impl<'a> Scanner<'a> {
    /// Reads a number.
    pub(crate) fn number_token(&mut self) -> Result<Token, ReadError>
        ensures answers { Answers (total self.old) (number_next (left self.old) (number_in (left self.old))) result
            (left self.new) }
        ensures total { total self.new ≡ total self.old }
    {
        let at = self.cursor.offset();
        match self.number() {
            Number::Integer(value) => Ok(Token::Integer(value)),
            Number::Float => Ok(Token::Float),
            Number::NoBase => Err(ReadError {
                kind: Fault::Syntax,
                at,
            }),
        }
    }

    /// Reads a number that begins with decimal digits.
    fn number(&mut self) -> Number
        ensures number { number_of result (left self.new) ≡ saturated_number (number_in (left self.old)) }
        ensures total { total self.new ≡ total self.old }
    {
        let value = self.digits(10);
        match self.cursor.peek() {
            Some('.') if begins_with_digit(self.behind(), 10) => {
                self.cursor.advance();
                self.fraction();
                Number::Float
            }
            Some('#') => self.based(value),
            _ => Number::Integer(value),
        }
    }

    /// Reads on at `#`, behind the digits of a base.
    fn based(&mut self, base: u64) -> Number
        requires hash { first_of (left self.old) ≡ Some 35 }
        ensures number { number_of result (left self.new) ≡ saturated_number (number_by base (left self.old)) }
        ensures total { total self.new ≡ total self.old }
    {
        if !matches!(base, 2..=36) {
            return Number::NoBase;
        }
        let radix = base as u32;
        if !begins_with_digit(self.behind(), radix) {
            return Number::Integer(base);
        }
        self.cursor.advance();
        Number::Integer(self.digits(radix))
    }

    /// Steps over a float's digits behind the dot, and its exponent.
    fn fraction(&mut self)
        ensures left { left self.new ≡ after_exponent (after_digits 10 (left self.old)) }
        ensures total { total self.new ≡ total self.old }
    {
        let _value = self.digits(10);
        self.exponent();
    }

    /// Steps over an exponent, if there is one.
    fn exponent(&mut self)
        ensures left { left self.new ≡ after_exponent (left self.old) }
        ensures total { total self.new ≡ total self.old }
    {
        let before = self.cursor;
        if !matches!(before.peek(), Some('e' | 'E')) {
            return;
        }
        self.cursor.advance();
        if matches!(self.cursor.peek(), Some('+' | '-')) {
            self.cursor.advance();
        }
        if !begins_with_digit(self.cursor, 10) {
            self.cursor = before;
            return;
        }
        let _value = self.digits(10);
    }

    /// Reads digits of a base, with single `_` between them: their value, or `u64::MAX` for all that are greater.
    fn digits(&mut self, base: u32) -> u64
        requires least { 2 ≤ base }
        requires greatest { base ≤ 36 }
        ensures value { result ≡ saturated (value_in base (left self.old)) }
        ensures left { left self.new ≡ after_digits base (left self.old) }
        ensures total { total self.new ≡ total self.old }
    {
        let mut value = 0;
        while let Some(digit) = self.next_digit(base) {
            value = with_digit(value, base, digit);
        }
        value
    }

    /// The next digit of a base, with a `_` before it or none, stepped over.
    fn next_digit(&mut self, base: u32) -> Option<u32>
        requires least { 2 ≤ base }
        requires greatest { base ≤ 36 }
        ensures digit { GoesOn base (left self.old) result (left self.new) }
        ensures total { total self.new ≡ total self.old }
    {
        if self.cursor.peek() == Some('_') && begins_with_digit(self.behind(), base) {
            self.cursor.advance();
        }
        let mut ahead = self.cursor;
        let digit = ahead.take()?.to_digit(base)?;
        self.cursor = ahead;
        Some(digit)
    }
}

/// Whether the character is a decimal digit.
#[inline]
pub(crate) fn is_decimal(c: char) -> bool
    ensures { result ≡ kinds.is_digit 10 c }
{
    c.is_ascii_digit()
}

/// Whether a digit of the base is next.
pub(crate) fn begins_with_digit(cursor: Cursor, base: u32) -> bool
    requires least { 2 ≤ base }
    requires greatest { base ≤ 36 }
    ensures { result ≡ begins_with_digit base (left_of cursor.entry) }
{
    match cursor.peek() {
        Some(c) => c.is_digit(base),
        None => false,
    }
}

/// The value of digits with one more behind them, or `u64::MAX` for all that are greater.
fn with_digit(value: u64, base: u32, digit: u32) -> u64
    ensures { result ≡ saturated (value * base + digit) }
{
    value
        .saturating_mul(u64::from(base))
        .saturating_add(u64::from(digit))
}

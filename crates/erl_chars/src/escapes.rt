// Escapes.
ghost use Rattle.std.specs.Prelude.{◌≡◌, ◌<◌, ◌≤◌, ◌∷◌, ℕ, true, false, MatchOption, MatchResult};
ghost use Rattle.std.specs.Char.{digit_value};
ghost use Rattle.erl_chars.specs.Chars.{is_digit, front, after_front};
ghost use Rattle.erl_chars.specs.Cursor.{left, total};
ghost use Rattle.erl_chars.specs.Digits.{TakesDigit, saturated};
ghost use Rattle.erl_chars.specs.Quotes as steps;
ghost use Rattle.erl_chars.specs.Quotes.{Step, stands, escape, escape_step};

use crate::cursor::Cursor;
use thiserror::Error;

/// Why there is no character behind a backslash.
#[derive(Clone, Copy, Debug, PartialEq, Eq, Error)]
pub enum EscapeError {
    /// The text ended before the escape was whole.
    #[error("the text ends inside an escape")]
    Cut,
    /// No escape is written so, or it stands for no Unicode scalar value.
    #[error("no escape")]
    Wrong,
}

impl<'a> Cursor<'a> {
    /// Reads an escape, behind its backslash, and gives the character that it stands for. After an error the cursor
    /// stands somewhere behind the backslash.
    ///
    /// # Errors
    ///
    /// `Cut` or `Wrong`.
    pub fn escape(&mut self) -> Result<char, EscapeError>
        ensures step { escape (left self.old) ≡ escape_step result (left self.new) }
        ensures total { total self.new ≡ total self.old }
    {
        let first = self.take().ok_or(EscapeError::Cut)?;
        if let Some(digit) = first.to_digit(8) {
            return Ok(self.octal(digit));
        }
        match first {
            'x' => self.hexadecimal(),
            '^' => self.control(),
            _ => Ok(named(first)),
        }
    }

    /// Reads up to two octal digits, behind one of this value.
    fn octal(&mut self, first: u32) -> char
        requires { first < 8 }
        ensures step { (c : ℕ) → digit_value c ≡ first → steps.octal c (left self.old) ≡ stands result (left self.new) }
        ensures total { total self.new ≡ total self.old }
    {
        let Some(second) = self.take_digit(8) else {
            return small_char(first);
        };
        let code = first * 8 + second;
        match self.take_digit(8) {
            Some(third) => small_char(code * 8 + third),
            None => small_char(code),
        }
    }

    /// Reads two hexadecimal digits, or any number of them between braces.
    fn hexadecimal(&mut self) -> Result<char, EscapeError>
        ensures step { steps.hexadecimal (left self.old) ≡ escape_step result (left self.new) }
        ensures total { total self.new ≡ total self.old }
    {
        let first = self.take().ok_or(EscapeError::Cut)?;
        if first == '{' {
            return self.braced();
        }
        let high = hexadecimal_digit(first)?;
        let second = self.take().ok_or(EscapeError::Cut)?;
        let low = hexadecimal_digit(second)?;
        Ok(small_char(high * 16 + low))
    }

    /// Reads hexadecimal digits and the closing brace, behind the opening one.
    fn braced(&mut self) -> Result<char, EscapeError>
        ensures step { steps.hexadecimal (123 ∷ left self.old) ≡ escape_step result (left self.new) }
        ensures total { total self.new ≡ total self.old }
    {
        let first = self.take().ok_or(EscapeError::Cut)?;
        let code = self.number(hexadecimal_digit(first)?);
        if self.take().ok_or(EscapeError::Cut)? != '}' {
            return Err(EscapeError::Wrong);
        }
        char::from_u32(code).ok_or(EscapeError::Wrong)
    }

    /// Reads all the hexadecimal digits in front, behind one of this value, and gives their number, or `u32::MAX`
    /// where it is larger.
    fn number(&mut self, first: u32) -> u32
        ensures number { result ≡ saturated first (front (is_digit 16) (left self.old)) }
        ensures left { left self.new ≡ after_front (is_digit 16) (left self.old) }
        ensures total { total self.new ≡ total self.old }
    {
        let mut number = first;
        while let Some(digit) = self.take_digit(16) {
            number = number.saturating_mul(16).saturating_add(digit);
        }
        number
    }

    /// Reads the control character of a character.
    fn control(&mut self) -> Result<char, EscapeError>
        ensures step { steps.control (left self.old) ≡ escape_step result (left self.new) }
        ensures total { total self.new ≡ total self.old }
    {
        let c = self.take().ok_or(EscapeError::Cut)?;
        if c == '?' {
            return Ok('\u{7f}');
        }
        Ok(small_char(u32::from(c) % 32))
    }

    /// The value of the digit in front, stepped over, or none where none stands there.
    fn take_digit(&mut self, base: u32) -> Option<u32>
        requires least { 2 ≤ base }
        requires most { base ≤ 36 }
        ensures digit { TakesDigit base (left self.old) result (left self.new) }
        ensures total { total self.new ≡ total self.old }
    {
        let mut ahead = *self;
        let digit = ahead.take()?.to_digit(base)?;
        *self = ahead;
        Some(digit)
    }
}

/// The value of a hexadecimal digit.
fn hexadecimal_digit(c: char) -> Result<u32, EscapeError>
    ensures { MatchResult result (λ digit. (is_digit 16 c ≡ true) × (digit ≡ digit_value c)) (λ e. (is_digit 16 c ≡ false) ×
        (e ≡ EscapeError.Wrong)) }
{
    c.to_digit(16).ok_or(EscapeError::Wrong)
}

/// The character that a letter stands for.
fn named(c: char) -> char
    ensures { result ≡ steps.named c }
{
    match c {
        'b' => '\u{8}',
        'd' => '\u{7f}',
        'e' => '\u{1b}',
        'f' => '\u{c}',
        'n' => '\n',
        'r' => '\r',
        's' => ' ',
        't' => '\t',
        'v' => '\u{b}',
        _ => c,
    }
}

/// The character of a code below the surrogates.
fn small_char(code: u32) -> char
    requires { code < 0xD800 }
    ensures { result ≡ code }
{
    char::from_u32(code).unwrap()
}

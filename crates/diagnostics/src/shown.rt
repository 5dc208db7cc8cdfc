// Texts in one line.
ghost use Rattle.std.specs.Prelude.{◌≡◌, ◌++◌, ◌∷◌, [], OnOk, false, string_bytes};
ghost use Rattle.std.specs.Str.{chars};
ghost use Rattle.diagnostics.specs.Shown.{is_hidden, IsOneLine};

use std::alloc::AllocError;

/// Whether a character is shown as an escape: a control character, a separator of lines, or one that sets the direction of
/// a text.
pub fn is_hidden(c: char) -> bool
    ensures { result ≡ is_hidden c }
{
    matches!(
        c,
        '\0'..='\u{1f}'
            | '\u{7f}'..='\u{9f}'
            | '\u{61c}'
            | '\u{200e}'..='\u{200f}'
            | '\u{2028}'..='\u{202e}'
            | '\u{2066}'..='\u{2069}'
    )
}

/// Appends a text, each hidden character as Erlang's escape `\x{H}`.
///
/// # Errors
///
/// `AllocError` where memory is refused; a front of the text may have been appended then.
pub fn push_shown(text: &str, out: &mut String) -> Result<(), AllocError>
    ensures one_line { IsOneLine (chars (string_bytes out.old)) → IsOneLine (chars (string_bytes out.new)) }
    ensures plain { OnOk result (IsOneLine (chars text.now) →
        chars (string_bytes out.new) ≡ chars (string_bytes out.old) ++ chars text.now) }
{
    for c in text.chars() {
        if is_hidden(c) {
            push_escape(c, out)?;
        } else {
            push_plain(c, out)?;
        }
    }
    Ok(())
}

/// Appends a character that is not hidden.
fn push_plain(c: char, out: &mut String) -> Result<(), AllocError>
    requires { is_hidden c ≡ false }
    ensures one_line { IsOneLine (chars (string_bytes out.old)) → IsOneLine (chars (string_bytes out.new)) }
    ensures more { OnOk result (chars (string_bytes out.new) ≡ chars (string_bytes out.old) ++ c ∷ []) }
{
    out.push(c)
}

/// Appends `\x{H}`, the code point in hexadecimal.
fn push_escape(c: char, out: &mut String) -> Result<(), AllocError>
    ensures { IsOneLine (chars (string_bytes out.old)) → IsOneLine (chars (string_bytes out.new)) }
{
    push_plain('\\', out)?;
    push_plain('x', out)?;
    push_plain('{', out)?;
    push_hexadecimal(u32::from(c), out)?;
    push_plain('}', out)
}

/// Appends a number of 24 bits in hexadecimal.
fn push_hexadecimal(number: u32, out: &mut String) -> Result<(), AllocError>
    ensures { IsOneLine (chars (string_bytes out.old)) → IsOneLine (chars (string_bytes out.new)) }
{
    for index in 0u32..6 {
        let left = number >> (20 - 4 * index);
        if left != 0 || index == 5 {
            push_plain(digit(left & 15), out)?;
        }
    }
    Ok(())
}

/// A digit in hexadecimal.
fn digit(value: u32) -> char
    ensures { is_hidden result ≡ false }
{
    match value {
        0 => '0',
        1 => '1',
        2 => '2',
        3 => '3',
        4 => '4',
        5 => '5',
        6 => '6',
        7 => '7',
        8 => '8',
        9 => '9',
        10 => 'a',
        11 => 'b',
        12 => 'c',
        13 => 'd',
        14 => 'e',
        _ => 'f',
    }
}

// The text of strings: lists of characters, from a text that stands elsewhere.
ghost use Rattle.std.specs.Prelude.{◌≡◌, ◌++◌, Bool};
ghost use Rattle.std.specs.Str.{chars};
ghost use Rattle.std.specs.Fmt.{decimal};
ghost use Rattle.std.specs.List.{flat_map, list_all};
ghost use Rattle.erl_term.specs.Appending.{Appends};
ghost use Rattle.erl_term.specs.Rows.{integers};
ghost use Rattle.erl_term.specs.Strings.{comma, is_printable, prints_as_string};
ghost use Rattle.erl_term.specs.Text.{elements_text, string_char, text, utf8};
ghost use Rattle.erl_term.specs.Tree.{list};

use crate::printing::{append_integer, put, put_char};
use std::alloc::AllocError;

/// Appends the list of a text's characters.
pub(crate) fn append_string(characters: &str, out: &mut Vec<u8>) -> Result<(), AllocError>
    ensures { Appends result (utf8 (text (list (integers (chars characters.now))))) out.old.items out.new.items }
{
    if prints_as_string(characters) {
        put(b"\"", out)?;
        append_string_chars(characters, out)?;
        put(b"\"", out)
    } else {
        put(b"[", out)?;
        append_code_points(characters, out)?;
        put(b"]", out)
    }
}

/// Whether there are characters, and each is printable.
fn prints_as_string(characters: &str) -> bool
    ensures { result ≡ prints_as_string (chars characters.now) }
{
    match characters.chars().next() {
        Some(_) => has_printable_alone(characters),
        None => false,
    }
}

/// Whether all characters are printable.
fn has_printable_alone(characters: &str) -> bool
    ensures { result ≡ list_all is_printable (chars characters.now) }
{
    characters.chars().all(|c| is_printable(c))
}

/// Whether a character is from 32 to 126.
fn is_printable(c: char) -> bool
    ensures { result ≡ is_printable c }
{
    ' ' <= c && c <= '~'
}

/// Appends characters as they stand between double quotes.
fn append_string_chars(characters: &str, out: &mut Vec<u8>) -> Result<(), AllocError>
    ensures { Appends result (utf8 (flat_map string_char (chars characters.now))) out.old.items out.new.items }
{
    for c in characters.chars() {
        append_string_char(c, out)?;
    }
    Ok(())
}

/// Appends a character as it stands between double quotes.
pub(crate) fn append_string_char(c: char, out: &mut Vec<u8>) -> Result<(), AllocError>
    ensures { Appends result (utf8 (string_char c)) out.old.items out.new.items }
{
    if c == '"' || c == '\\' {
        put(&[b'\\', c as u8], out)
    } else {
        put_char(c, out)
    }
}

/// Appends the code points of characters, with commas between them.
fn append_code_points(characters: &str, out: &mut Vec<u8>) -> Result<(), AllocError>
    ensures { Appends result (utf8 (elements_text (integers (chars characters.now)))) out.old.items out.new.items }
{
    let mut is_first = true;
    for c in characters.chars() {
        append_code_point(is_first, c, out)?;
        is_first = false;
    }
    Ok(())
}

/// Appends the code point of a character, behind a comma unless it is the first.
fn append_code_point(is_first: bool, c: char, out: &mut Vec<u8>) -> Result<(), AllocError>
    ensures { Appends result (utf8 (comma is_first ++ decimal c)) out.old.items out.new.items }
{
    if !is_first {
        put(b",", out)?;
    }
    append_integer(i64::from(u32::from(c)), out)
}

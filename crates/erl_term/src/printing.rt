// The text of terms.
ghost use Rattle.std.specs.Prelude.{◌≡◌, ◌<◌, ◌++◌, ◌∷◌, [], codes, take, IsOk, IsErr, OnOk, OnErr};
ghost use Rattle.std.specs.Str.{chars};
ghost use Rattle.std.specs.Fmt.{decimal, signed_decimal};
ghost use Rattle.std.specs.List.{flat_map, list_all};
ghost use Rattle.erl_term.specs.Rows.{integers};
ghost use Rattle.erl_term.specs.Term.{tree, trees};
ghost use Rattle.erl_term.specs.Tree.{list};
ghost use Rattle.erl_term.specs.Appending.{Appends};
ghost use Rattle.erl_term.specs.Text.{utf8, text, atom_text, begins_lower, hex, hex_digit, is_lower, is_name_char, is_plain, is_quoted_word, quoted_char};
ghost use Rattle.erl_term.specs.Strings.{is_like_word};

use crate::atom::Atom;
use crate::strings::append_string;
use crate::term::{Term, append_list};
use itoa::Buffer;
use std::alloc::AllocError;

/// The words that no atom is printed as without quotes: those that are reserved, and `else` and `maybe`,
/// which newer releases reserve.
const QUOTED_WORDS: [&str; 29] = [
    "after", "and", "andalso", "band", "begin", "bnot", "bor", "bsl", "bsr", "bxor", "case",
    "catch", "cond", "div", "else", "end", "fun", "if", "let", "maybe", "not", "of", "or",
    "orelse", "receive", "rem", "try", "when", "xor",
];

/// Appends the term's text, in UTF-8, by Erlang's syntax (Erlang Reference Manual, Data Types): integers in
/// decimal, atoms in quotes where they need them, process identifiers as `<0.N.0>`, lists of printable
/// characters as strings, and no blanks. Takes no memory but the output's.
///
/// # Errors
///
/// `AllocError` where memory is refused; the output is then as it was.
pub fn print(term: &Term, out: &mut Vec<u8>) -> Result<(), AllocError>
    ensures printed { OnOk result (out.new.items ≡ out.old.items ++ utf8 (text (tree term.now))) }
    ensures err { OnErr result (out.new.items ≡ out.old.items) }
{
    let start = out.as_slice().len();
    let appended = term.append_text(out);
    settled(appended, start, out)
}

/// Appends the text of the list of two rows' terms, one row behind the other, as [`print`] appends that of a list. So a queue is
/// printed from where it stands: takes no memory but the output's.
///
/// # Errors
///
/// `AllocError` where memory is refused; the output is then as it was.
pub fn print_list(front: &[Term], back: &[Term], out: &mut Vec<u8>) -> Result<(), AllocError>
    ensures printed { OnOk result (out.new.items ≡ out.old.items ++ utf8 (text (list (trees (front.now ++ back.now))))) }
    ensures err { OnErr result (out.new.items ≡ out.old.items) }
{
    let start = out.as_slice().len();
    let appended = append_list(front, back, out);
    settled(appended, start, out)
}

/// Appends the text of the list of a text's characters, as [`print`] appends that of a list: between double quotes where all are
/// printable. Takes no memory but the output's.
///
/// # Errors
///
/// `AllocError` where memory is refused; the output is then as it was.
pub fn print_string(characters: &str, out: &mut Vec<u8>) -> Result<(), AllocError>
    ensures printed { OnOk result (out.new.items ≡ out.old.items ++ utf8 (text (list (integers (chars characters.now))))) }
    ensures err { OnErr result (out.new.items ≡ out.old.items) }
{
    let start = out.as_slice().len();
    let appended = append_string(characters, out);
    settled(appended, start, out)
}

/// Appends the text of an atom, as [`print`] does.
///
/// # Errors
///
/// `AllocError` where memory is refused; the output is then as it was.
pub fn print_atom(name: &Atom, out: &mut Vec<u8>) -> Result<(), AllocError>
    ensures printed { OnOk result (out.new.items ≡ out.old.items ++ utf8 (atom_text name.now)) }
    ensures err { OnErr result (out.new.items ≡ out.old.items) }
{
    let start = out.as_slice().len();
    let appended = append_atom(name.as_str(), out);
    settled(appended, start, out)
}

/// What was appended to an output that had `start` bytes: where memory was refused, it is cut off again.
fn settled(
    appended: Result<(), AllocError>,
    start: usize,
    out: &mut Vec<u8>,
) -> Result<(), AllocError>
    ensures ok { OnOk result (IsOk appended × (out.new.items ≡ out.old.items)) }
    ensures err { OnErr result (IsErr appended × (out.new.items ≡ take start out.old.items)) }
{
    if appended.is_err() {
        out.truncate(start);
    }
    appended
}

/// Appends bytes.
pub(crate) fn put(bytes: &[u8], out: &mut Vec<u8>) -> Result<(), AllocError>
    ensures { Appends result bytes.now out.old.items out.new.items }
{
    out.extend_from_slice(bytes)
}

/// Appends a character.
pub(crate) fn put_char(c: char, out: &mut Vec<u8>) -> Result<(), AllocError>
    ensures { Appends result (utf8 (c ∷ [])) out.old.items out.new.items }
{
    let mut bytes = [0; 4];
    put(c.encode_utf8(&mut bytes).as_bytes(), out)
}

/// Appends a number in decimal.
pub(crate) fn append_integer(n: i64, out: &mut Vec<u8>) -> Result<(), AllocError>
    ensures { Appends result (utf8 (signed_decimal n)) out.old.items out.new.items }
{
    let mut digits = Buffer::new();
    put(digits.format(n).as_bytes(), out)
}

/// Appends a process identifier.
pub(crate) fn append_pid(n: u64, out: &mut Vec<u8>) -> Result<(), AllocError>
    ensures { Appends result (utf8 (codes "<0." ++ (decimal n ++ codes ".0>"))) out.old.items out.new.items }
{
    let mut digits = Buffer::new();
    put(b"<0.", out)?;
    put(digits.format(n).as_bytes(), out)?;
    put(b".0>", out)
}

/// Appends the atom of these characters.
pub(crate) fn append_atom(name: &str, out: &mut Vec<u8>) -> Result<(), AllocError>
    ensures { Appends result (utf8 (atom_text (chars name.now))) out.old.items out.new.items }
{
    if is_plain(name) {
        put(name.as_bytes(), out)
    } else {
        put(b"'", out)?;
        append_quoted(name, out)?;
        put(b"'", out)
    }
}

/// Appends characters as they stand between single quotes.
fn append_quoted(name: &str, out: &mut Vec<u8>) -> Result<(), AllocError>
    ensures { Appends result (utf8 (flat_map quoted_char (chars name.now))) out.old.items out.new.items }
{
    for c in name.chars() {
        append_quoted_char(c, out)?;
    }
    Ok(())
}

/// Appends a character as it stands between single quotes.
fn append_quoted_char(c: char, out: &mut Vec<u8>) -> Result<(), AllocError>
    ensures { Appends result (utf8 (quoted_char c)) out.old.items out.new.items }
{
    if c == '\'' || c == '\\' {
        put(&[b'\\', c as u8], out)
    } else if c < ' ' || c == '\u{7f}' {
        append_control(c as u8, out)
    } else {
        put_char(c, out)
    }
}

/// Appends a control character in hexadecimal.
fn append_control(c: u8, out: &mut Vec<u8>) -> Result<(), AllocError>
    requires { c < 128 }
    ensures { Appends result (codes "\\x{" ++ (hex c ++ 125 ∷ [])) out.old.items out.new.items }
{
    let last = hex_digit(c % 16);
    if c < 16 {
        return put(&[b'\\', b'x', b'{', last, b'}'], out);
    }
    put(&[b'\\', b'x', b'{', hex_digit(c / 16), last, b'}'], out)
}

/// One hexadecimal digit, in lower case.
fn hex_digit(n: u8) -> u8
    requires { n < 16 }
    ensures { result ≡ hex_digit n }
{
    if n <= 9 { b'0' + n } else { b'a' + (n - 10) }
}

/// Whether the atom of these characters stands without quotes.
fn is_plain(name: &str) -> bool
    ensures { result ≡ is_plain (chars name.now) }
{
    begins_lower(name) && has_name_chars(name) && !is_quoted_word(name)
}

/// Whether the first character is a lower-case letter.
fn begins_lower(name: &str) -> bool
    ensures { result ≡ begins_lower (chars name.now) }
{
    match name.chars().next() {
        Some(c) => c.is_ascii_lowercase(),
        None => false,
    }
}

/// Whether all characters may stand in an atom without quotes.
fn has_name_chars(name: &str) -> bool
    ensures { result ≡ list_all is_name_char (chars name.now) }
{
    name.chars().all(|c| is_name_char(c))
}

/// Whether the character may stand in an atom without quotes.
fn is_name_char(c: char) -> bool
    ensures { result ≡ is_name_char c }
{
    matches!(c, 'a'..='z' | 'A'..='Z' | '0'..='9' | '_' | '@')
}

/// Whether the text is one of the words that get quotes.
fn is_quoted_word(name: &str) -> bool
    ensures { result ≡ is_quoted_word name.now }
{
    is_like_word(name) && QUOTED_WORDS.iter().any(|word| *word == name)
}

/// Whether the text is as short as those words, and of lower-case letters alone, as they are.
fn is_like_word(name: &str) -> bool
    ensures { result ≡ is_like_word name.now }
{
    name.len() <= 7 && has_lower_alone(name.as_bytes())
}

/// Whether all bytes are lower-case letters.
fn has_lower_alone(bytes: &[u8]) -> bool
    ensures { result ≡ list_all is_lower bytes.now }
{
    bytes.iter().all(|byte| byte.is_ascii_lowercase())
}

// The pieces of a page; nothing else is written into it.
ghost use Rattle.std.specs.Fmt.{decimal};
ghost use Rattle.std.specs.Prelude.{◌≡◌, ◌++◌, OnOk};
ghost use Rattle.rehearsal_page.specs.Escaping.{brackets, escaped, escaped_byte};
ghost use Rattle.rehearsal_page.specs.Page.{StandsBefore};
ghost use Rattle.rehearsal_page.specs.Parts.{Adds, AreWritten, IsTextWritten, IsWritten, markup_in, markup_of};

use diagnostics::push_shown;
use std::alloc::{AllocError, Global};
use std::str;

/// A piece of a page. Only bytes of the program itself live for `'static`, so no text that comes
/// from elsewhere can be markup.
#[derive(Clone, Copy)]
pub(crate) enum Part<'a> {
    /// Markup, or a word of the program, which is written unchanged.
    Markup(&'static [u8]),
    /// A text, which is shown as it is between tags and in a value between quotes, whatever it has.
    Text(&'a [u8]),
    /// A number, in decimal.
    Number(u64),
}

/// Appends pieces of a page, one after the other. Outside of this module only this function appends to a page.
///
/// # Errors
///
/// `AllocError` if an allocation fails; the first bytes of the pieces may have been appended then.
pub(crate) fn put_parts(
    parts: &[Part<'_>],
    alloc: Global,
    out: &mut Vec<u8>,
) -> Result<(), AllocError>
    ensures written { OnOk result (Adds (AreWritten parts.now) out.old.items out.new.items) }
    ensures stands { OnOk result (StandsBefore out.old.items out.new.items) }

    // No text and no number has brackets.
    ensures brackets { OnOk result
        (brackets out.new.items ≡ brackets out.old.items ++ brackets (markup_of parts.now)) }
{
    for part in parts {
        put_part(*part, alloc, out)?;
    }
    Ok(())
}

/// Appends a piece of the page.
fn put_part(part: Part<'_>, alloc: Global, out: &mut Vec<u8>) -> Result<(), AllocError>
    ensures written { OnOk result (Adds (IsWritten part.entry) out.old.items out.new.items) }
    ensures brackets { OnOk result
        (brackets out.new.items ≡ brackets out.old.items ++ brackets (markup_in part.entry)) }
{
    match part {
        Part::Markup(bytes) => out.extend_from_slice(bytes),
        Part::Text(text) => put_text(text, alloc, out),
        Part::Number(number) => put_number(number, alloc, out),
    }
}

/// Appends a number, which has nothing to escape.
fn put_number(number: u64, alloc: Global, out: &mut Vec<u8>) -> Result<(), AllocError>
    ensures written { OnOk result (out.new.items ≡ out.old.items ++ decimal number) }
    ensures brackets { OnOk result (brackets out.new.items ≡ brackets out.old.items) }
{
    let text = format!(in alloc; "{number}")?;
    out.extend_from_slice(text.as_bytes())
}

/// Appends a text: hidden characters as Erlang's escapes, and those of markup as references.
fn put_text(text: &[u8], alloc: Global, out: &mut Vec<u8>) -> Result<(), AllocError>
    ensures written { OnOk result (Adds (IsTextWritten text.now) out.old.items out.new.items) }
    ensures brackets { OnOk result (brackets out.new.items ≡ brackets out.old.items) }
{
    let mut shown = String::new(alloc);
    push_shown(str::from_utf8(text).unwrap_or(""), &mut shown)?;
    put_escaped(shown.as_bytes(), out)
}

/// Appends a text so that it is shown as it is between tags and in a value between quotes.
///
/// # Errors
///
/// `AllocError` if an allocation fails; the first bytes of the text may have been appended then.
pub fn put_escaped(text: &[u8], out: &mut Vec<u8>) -> Result<(), AllocError>
    ensures { OnOk result (out.new.items ≡ out.old.items ++ escaped text.now) }
{
    for byte in text {
        put_byte(*byte, out)?;
    }
    Ok(())
}

/// Appends a byte of a text; a byte of markup as a reference.
fn put_byte(byte: u8, out: &mut Vec<u8>) -> Result<(), AllocError>
    ensures { OnOk result (out.new.items ≡ out.old.items ++ escaped_byte byte) }
{
    if byte == b'&' {
        out.extend_from_slice(b"&amp;")
    } else if byte == b'<' {
        out.extend_from_slice(b"&lt;")
    } else if byte == b'>' {
        out.extend_from_slice(b"&gt;")
    } else if byte == b'"' {
        out.extend_from_slice(b"&quot;")
    } else if byte == b'\'' {
        out.extend_from_slice(b"&#39;")
    } else {
        out.extend_from_slice(&[byte])
    }
}

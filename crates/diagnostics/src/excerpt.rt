// The line of a text in which something stands.
use crate::shown::push_shown;
use std::alloc::{AllocError, Global};
use std::{fmt, str};

/// How many bytes of a line are shown on each side of an offset.
const MOST_BESIDE: usize = 72;

/// A line of a text, or what stands there around an offset, and the offset.
#[derive(Debug, Drop)]
pub struct Excerpt {
    /// What stands before the offset.
    before: String,
    /// What stands from the offset on.
    from: String,
}

impl Excerpt {
    /// The line of a text in which a byte stands.
    ///
    /// # Errors
    ///
    /// `AllocError` where memory is refused.
    pub(crate) fn around(alloc: Global, text: &[u8], at: usize) -> Result<Excerpt, AllocError> {
        let (front, back) = text.split_at(at.min(text.len()));
        let mut before = String::new(alloc);
        push_plain(line_end(front), &mut before)?;
        let mut from = String::new(alloc);
        push_plain(line_start(back), &mut from)?;
        Ok(Excerpt { before, from })
    }
}

/// What stands behind the last newline, or the last bytes of it.
fn line_end(text: &[u8]) -> &[u8] {
    let from = text.len().saturating_sub(MOST_BESIDE);
    let near = &text[from..];
    match near.iter().rposition(|byte| *byte == b'\n') {
        Some(newline) => &near[newline + 1..],
        None => from_character(near),
    }
}

/// What stands from the first byte on that begins a character.
fn from_character(text: &[u8]) -> &[u8] {
    match text.iter().position(|byte| !(128..192).contains(byte)) {
        Some(first) => &text[first..],
        None => text,
    }
}

/// What stands before the first newline, or the first bytes of it.
fn line_start(text: &[u8]) -> &[u8] {
    let near = &text[..MOST_BESIDE.min(text.len())];
    match near.iter().position(|byte| *byte == b'\n') {
        Some(newline) => &near[..newline],
        None => near,
    }
}

/// Appends the characters that bytes begin with, in one line.
fn push_plain(bytes: &[u8], out: &mut String) -> Result<(), AllocError> {
    match str::from_utf8(bytes) {
        Ok(text) => push_shown(text, out),
        Err(error) => match str::from_utf8(&bytes[..error.valid_up_to().min(bytes.len())]) {
            Ok(text) => push_shown(text, out),
            Err(_) => Ok(()),
        },
    }
}

impl fmt::Display for Excerpt {
    fn fmt<W: fmt::Write>(&self, f: &mut fmt::Formatter<W>) -> fmt::Result {
        let column = self.before.as_str().chars().count();
        writeln!(f, "  {}{}", self.before, self.from)?;
        write!(f, "  {:column$}^", "")
    }
}

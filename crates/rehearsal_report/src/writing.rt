// Functions that write texts.
use diagnostics::push_shown;
use erl_term::{Atom, Term, print, print_atom};
use node_views::NodeView;
use std::alloc::{AllocError, Global};
use std::str;

/// How much of a term is shown.
#[derive(Clone, Copy, Debug, PartialEq, Eq)]
pub enum Extent {
    /// Its first characters.
    Short,
    /// All of it.
    Whole,
}

/// The number of characters that are shown of a long term.
const MOST_SHOWN: usize = 60;

/// The indentation of a line about an instruction.
pub(crate) const INDENT: &[u8] = b"        ";

/// The largest number of characters in a line about an instruction, unless it can't be split.
const MOST_COLUMNS: usize = 92;

/// Appends a line about an instruction; a long one is split before the new state.
pub(crate) fn put_parted(line: &[u8], out: &mut Vec<u8>) -> Result<(), AllocError> {
    let text = str::from_utf8(line).unwrap_or("");
    put(INDENT, out)?;
    match text.split_once(" -> ") {
        Some((before, after)) if text.chars().count() > MOST_COLUMNS => {
            put(before.as_bytes(), out)?;
            put(b"\n", out)?;
            put(INDENT, out)?;
            put(b"  -> ", out)?;
            put(after.as_bytes(), out)?;
        }
        _ => put(line, out)?,
    }
    put(b"\n", out)
}

/// Appends bytes.
pub(crate) fn put(bytes: &[u8], out: &mut Vec<u8>) -> Result<(), AllocError> {
    out.extend_from_slice(bytes)
}

/// Appends a number.
pub(crate) fn put_number(number: u64, alloc: Global, out: &mut Vec<u8>) -> Result<(), AllocError> {
    let text = format!(in alloc; "{number}")?;
    put(text.as_bytes(), out)
}

/// Appends a number, padded with blanks to three places, and two blanks after it.
pub(crate) fn put_item_number(
    number: usize,
    alloc: Global,
    out: &mut Vec<u8>,
) -> Result<(), AllocError> {
    let text = format!(in alloc; "{number:>4}  ")?;
    put(text.as_bytes(), out)
}

/// Appends a text that comes from files; characters that are hidden on a terminal are escaped.
pub(crate) fn put_whole(text: &str, alloc: Global, out: &mut Vec<u8>) -> Result<(), AllocError> {
    let mut shown = String::new(alloc);
    push_shown(text, &mut shown)?;
    put(shown.as_bytes(), out)
}

/// Appends an atom.
pub(crate) fn put_atom(atom: &Atom, alloc: Global, out: &mut Vec<u8>) -> Result<(), AllocError> {
    let mut text = Vec::new(alloc);
    print_atom(atom, &mut text)?;
    put_whole(str::from_utf8(text.as_slice()).unwrap_or(""), alloc, out)
}

/// Appends a term.
pub(crate) fn put_term(term: &Term, alloc: Global, out: &mut Vec<u8>) -> Result<(), AllocError> {
    let mut text = Vec::new(alloc);
    print(term, &mut text)?;
    put_whole(str::from_utf8(text.as_slice()).unwrap_or(""), alloc, out)
}

/// Appends a term in the extent that is to be shown.
pub(crate) fn put_shown(
    term: &Term,
    extent: Extent,
    alloc: Global,
    out: &mut Vec<u8>,
) -> Result<(), AllocError> {
    match extent {
        Extent::Short => put_short(term, alloc, out),
        Extent::Whole => put_term(term, alloc, out),
    }
}

/// Appends a term; of a long one only its first characters.
fn put_short(term: &Term, alloc: Global, out: &mut Vec<u8>) -> Result<(), AllocError> {
    let mut whole = Vec::new(alloc);
    print(term, &mut whole)?;
    put_cut(str::from_utf8(whole.as_slice()).unwrap_or(""), alloc, out)
}

/// Appends a text; of a long one only its first characters.
pub(crate) fn put_cut(text: &str, alloc: Global, out: &mut Vec<u8>) -> Result<(), AllocError> {
    match text.char_indices().nth(MOST_SHOWN) {
        Some((end, _)) => {
            put_whole(text.get(..end).unwrap_or(""), alloc, out)?;
            put("…".as_bytes(), out)
        }
        None => put_whole(text, alloc, out),
    }
}

/// Appends a pid.
pub(crate) fn put_pid(pid: u64, alloc: Global, out: &mut Vec<u8>) -> Result<(), AllocError> {
    let text = format!(in alloc; "<0.{pid}.0>")?;
    put(text.as_bytes(), out)
}

/// Appends a process: its name, if it has one, and its pid.
///
/// # Errors
///
/// `AllocError` if an allocation fails.
pub fn put_process(
    pid: u64,
    view: &NodeView,
    alloc: Global,
    out: &mut Vec<u8>,
) -> Result<(), AllocError> {
    if let Some(process) = view.process(pid) {
        if let Some(name) = &process.name {
            put_atom(name, alloc, out)?;
            put(b" ", out)?;
        }
    }
    put_pid(pid, alloc, out)
}

// The text of terms with elements.
ghost use Rattle.std.specs.Prelude.{◌≡◌, ◌∷◌, ◌++◌, is_some};
ghost use Rattle.std.specs.List.{flat_map};
ghost use Rattle.erl_term.specs.Term.{tree, trees};
ghost use Rattle.erl_term.specs.Tree.{int, tuple, list};
ghost use Rattle.erl_term.specs.Appending.{Appends};
ghost use Rattle.erl_term.specs.Text.{utf8, text, elements_text, others_text, printable_char, printable, string_char};
ghost use Rattle.erl_term.specs.Strings.{printable_chars, has_chars};

use super::{Term, Terms};
use crate::printing::{append_atom, append_integer, append_pid, put};
use crate::strings::append_string_char;
use std::alloc::AllocError;

impl Term {
    /// Appends the term's text.
    #[cycle(print)]
    pub(crate) fn append_text(&self, out: &mut Vec<u8>) -> Result<(), AllocError>
        ensures { Appends result (utf8 (text (tree self.now))) out.old.items out.new.items }
    {
        match self {
            Term::Int(n) => append_integer(*n, out),
            Term::Atom(atom) => append_atom(atom.as_str(), out),
            Term::Pid(n) => append_pid(*n, out),
            Term::Tuple(row) => row.append_as_tuple(out),
            Term::List(row) => row.append_as_list(out),
        }
    }

    /// The character that the term is, where it is an integer from 32 to 126.
    fn printable_char(&self) -> Option<u8>
        ensures { result ≡ printable_char (tree self.now) }
    {
        match self {
            Term::Int(n) => printable_integer(*n),
            Term::Atom(_) | Term::Pid(_) | Term::Tuple(_) | Term::List(_) => None,
        }
    }
}

/// The character that the integer is, where it is one from 32 to 126.
fn printable_integer(n: i64) -> Option<u8>
    ensures { result ≡ printable_char (int n) }
{
    if 32 <= n && n <= 126 {
        Some(n as u8)
    } else {
        None
    }
}

impl Terms {
    /// Appends the tuple of the terms.
    #[cycle(print)]
    fn append_as_tuple(&self, out: &mut Vec<u8>) -> Result<(), AllocError>
        ensures { Appends result (utf8 (text (tuple self.now))) out.old.items out.new.items }
    {
        put(b"{", out)?;
        append_elements(self.as_slice(), out)?;
        put(b"}", out)
    }

    /// Appends the list of the terms.
    #[cycle(print)]
    fn append_as_list(&self, out: &mut Vec<u8>) -> Result<(), AllocError>
        ensures { Appends result (utf8 (text (list self.now))) out.old.items out.new.items }
    {
        append_list(self.as_slice(), &[], out)
    }
}

/// Appends the list of two rows' terms, one row behind the other.
#[cycle(print)]
pub(crate) fn append_list(
    front: &[Term],
    back: &[Term],
    out: &mut Vec<u8>,
) -> Result<(), AllocError>
    ensures { Appends result (utf8 (text (list (trees (front.now ++ back.now))))) out.old.items out.new.items }
{
    if prints_as_string(front, back) {
        put(b"\"", out)?;
        append_chars(front, out)?;
        append_chars(back, out)?;
        put(b"\"", out)
    } else {
        put(b"[", out)?;
        append_both(front, back, out)?;
        put(b"]", out)
    }
}

/// Appends the texts of two rows' terms, with commas between them.
#[cycle(print)]
fn append_both(front: &[Term], back: &[Term], out: &mut Vec<u8>) -> Result<(), AllocError>
    ensures { Appends result (utf8 (elements_text (trees (front.now ++ back.now)))) out.old.items out.new.items }
{
    if front.is_empty() {
        return append_elements(back, out);
    }
    append_elements(front, out)?;
    append_others(back, out)
}

/// Appends the terms' texts, with commas between them.
#[cycle(print)]
fn append_elements(terms: &[Term], out: &mut Vec<u8>) -> Result<(), AllocError>
    ensures { Appends result (utf8 (elements_text (trees terms.now))) out.old.items out.new.items }
{
    let Some((first, others)) = terms.split_first() else {
        return Ok(());
    };
    first.append_text(out)?;
    append_others(others, out)
}

/// Appends the terms' texts, each behind a comma.
#[cycle(print)]
fn append_others(terms: &[Term], out: &mut Vec<u8>) -> Result<(), AllocError>
    ensures { Appends result (utf8 (others_text (trees terms.now))) out.old.items out.new.items }
{
    for term in terms {
        append_other(term, out)?;
    }
    Ok(())
}

/// Appends a term's text behind a comma.
#[cycle(print)]
fn append_other(term: &Term, out: &mut Vec<u8>) -> Result<(), AllocError>
    ensures { Appends result (utf8 (44 ∷ text (tree term.now))) out.old.items out.new.items }
{
    put(b",", out)?;
    term.append_text(out)
}

/// Whether there are terms in two rows, and each is an integer from 32 to 126.
fn prints_as_string(front: &[Term], back: &[Term]) -> bool
    ensures { result ≡ has_chars (printable (trees (front.now ++ back.now))) }
{
    if front.is_empty() {
        return !back.is_empty() && is_printable(back);
    }
    is_printable(front) && is_printable(back)
}

/// Whether each term is an integer from 32 to 126.
fn is_printable(terms: &[Term]) -> bool
    ensures { result ≡ is_some (printable (trees terms.now)) }
{
    for term in terms {
        if term.printable_char().is_none() {
            return false;
        }
    }
    true
}

/// Appends the characters of those terms that are integers from 32 to 126, as they stand between double quotes.
fn append_chars(terms: &[Term], out: &mut Vec<u8>) -> Result<(), AllocError>
    ensures { Appends result (utf8 (flat_map string_char (printable_chars (trees terms.now)))) out.old.items out.new.items }
{
    for term in terms {
        if let Some(c) = term.printable_char() {
            append_string_char(char::from(c), out)?;
        }
    }
    Ok(())
}

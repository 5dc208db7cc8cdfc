// Rows of terms, as they grow while a text is read.
ghost use Rattle.std.specs.Prelude.{◌≡◌, ◌<◌, ◌++◌, OnOk, IfOk, IfErr, IfSome, option_map, reverse, string_bytes};
ghost use Rattle.std.specs.Str.{chars, IsCharBoundary};
ghost use Rattle.erl_scan.specs.declared.error.Fault.TheVariants.{Memory as refused};
ghost use Rattle.erl_term.specs.Rows.{append_trees, integers};
ghost use Rattle.erl_term.specs.Term.{tree, trees};
ghost use Rattle.erl_consult.specs.Parser.{last_seen, Finds};
ghost use Rattle.erl_consult.specs.Steps.{with_element, elements_at, tail_elements, term_of_last};

use super::{Last, Rows};
use erl_scan::{Fault, ReadError};
use erl_term::Term;
use std::alloc::{AllocError, Global};

impl Last {
    /// The term, before a token that ends one.
    ///
    /// # Errors
    ///
    /// `Syntax` at the token where none was read whole, and `Memory` where memory is refused.
    pub(super) fn into_term(self, rows: &mut Rows, at: usize) -> Result<Term, ReadError>
        ensures { Finds (term_of_last (last_seen self)) (λ t. tree t) at result }
    {
        match self {
            Last::Nothing | Last::Sign { .. } => Err(ReadError {
                kind: Fault::Syntax,
                at,
            }),
            Last::Term(term) => Ok(term),
            Last::List(items) | Last::Text(items) => Ok(Term::List(rows.row(items, at)?)),
            Last::Backwards(items) => Ok(Term::List(rows.row(turned(items), at)?)),
        }
    }

    /// The elements of the list, the last one first, before a bracket that closes.
    ///
    /// # Errors
    ///
    /// `Syntax` at the bracket where no list was read, and `Memory` where memory is refused.
    fn into_backwards(self, alloc: Global, at: usize) -> Result<Vec<Term>, ReadError>
        ensures { Finds (tail_elements (term_of_last (last_seen self))) (λ row. trees (reverse row.items)) at result }
    {
        match self {
            Last::Backwards(items) => Ok(items),
            Last::List(items) | Last::Text(items) => Ok(turned(items)),
            // A list that was read is kept as its elements, so that none comes here.
            Last::Term(Term::List(row)) => match row.into_vec(alloc) {
                Ok(items) => Ok(turned(items)),
                Err(AllocError) => Err(ReadError {
                    kind: Fault::Memory,
                    at,
                }),
            },
            Last::Nothing | Last::Sign { .. } | Last::Term(_) => Err(ReadError {
                kind: Fault::Syntax,
                at,
            }),
        }
    }
}

/// The same terms, the last one first. They are moved in their place.
fn turned(mut items: Vec<Term>) -> Vec<Term>
    ensures { result.items ≡ reverse items.items }
{
    items.reverse();
    items
}

/// Puts a term behind others.
///
/// # Errors
///
/// `Memory` where memory is refused.
pub(super) fn push(items: &mut Vec<Term>, term: Term, at: usize) -> Result<(), ReadError>
    ensures ok { OnOk result (trees items.new.items ≡ with_element (trees items.old.items) (tree term)) }
    ensures err { IfErr result (λ e. e.kind ≡ refused) }
{
    match items.push(term) {
        Ok(()) => Ok(()),
        Err(_) => Err(ReadError {
            kind: Fault::Memory,
            at,
        }),
    }
}

/// The elements at a closing bracket: these, and what was read last.
///
/// # Errors
///
/// `Syntax` at the bracket where no element may end, and `Memory` where memory is refused.
pub(super) fn elements(
    mut items: Vec<Term>,
    last: Last,
    rows: &mut Rows,
    at: usize,
) -> Result<Vec<Term>, ReadError>
    ensures { Finds (elements_at (trees items.items) (last_seen last)) (λ row. trees row.items) at result }
{
    if let Last::Nothing = last {
        if items.is_empty() {
            return Ok(items);
        }
        return Err(ReadError {
            kind: Fault::Syntax,
            at,
        });
    }
    let term = last.into_term(rows, at)?;
    push(&mut items, term, at)?;
    Ok(items)
}

/// These elements, and behind them those of the tail that was read last: all of them with the last one first.
///
/// # Errors
///
/// `Syntax` at the bracket where no list was read, and `Memory` where memory is refused.
pub(super) fn with_tail(
    items: Vec<Term>,
    last: Last,
    alloc: Global,
    at: usize,
) -> Result<Vec<Term>, ReadError>
    ensures { Finds (option_map (append_trees (trees items.items)) (tail_elements (term_of_last (last_seen last))))
        (λ row. trees (reverse row.items)) at result }
{
    let backwards = last.into_backwards(alloc, at)?;
    match joined(backwards, turned(items)) {
        Ok(all) => Ok(all),
        Err(AllocError) => Err(ReadError {
            kind: Fault::Memory,
            at,
        }),
    }
}

/// The terms of both, the first ones before the second. The fewer are moved to the more, so that no third row is made. It
/// takes time for the second ones alone: where the first ones are no fewer, they stay where they are.
///
/// # Errors
///
/// `AllocError` where memory is refused.
fn joined(mut first: Vec<Term>, mut second: Vec<Term>) -> Result<Vec<Term>, AllocError>
    ensures { IfOk result (λ all. all.items ≡ first.items ++ second.items) }
{
    if first.len() >= second.len() {
        first.append(&mut second)?;
        return Ok(first);
    }
    let count = first.len();
    second.append(&mut first)?;
    second.rotate_right(count);
    Ok(second)
}

/// Makes room for the characters of a text: for a string's own no more than it needs, and for those of a string behind
/// another more, so that many of them are no slower.
///
/// # Errors
///
/// `Memory` where memory is refused.
fn make_room(items: &mut Vec<Term>, text: &str, at: usize) -> Result<(), ReadError>
    ensures items { items.new.items ≡ items.old.items }
    ensures err { IfErr result (λ e. e.kind ≡ refused) }
{
    let count = text.chars().count();
    let made = if items.is_empty() {
        items.reserve_exact(count)
    } else {
        items.reserve(count)
    };
    match made {
        Ok(()) => Ok(()),
        Err(AllocError) => Err(ReadError {
            kind: Fault::Memory,
            at,
        }),
    }
}

/// How many bytes of a text may stay beside all of its integers.
const KEPT: usize = 4096;

/// Where a text of more than `KEPT` bytes is cut: at its middle, or up to three bytes behind it, where a character
/// begins. A shorter one is not cut.
fn offset_to_cut(text: &str) -> Option<usize>
    ensures { IfSome result (λ at. (0 < at) × IsCharBoundary text.now at) }
{
    if text.len() <= KEPT {
        return None;
    }
    let half = text.len() / 2;
    for at in half..half + 4 {
        if text.is_char_boundary(at) {
            return Some(at);
        }
    }
    None
}

/// Puts the characters of a piece of a text, as integers, behind others.
///
/// # Errors
///
/// `Memory` where memory is refused.
fn push_piece(items: &mut Vec<Term>, piece: &str, at: usize) -> Result<(), ReadError>
    ensures ok { OnOk result (trees items.new.items ≡ append_trees (trees items.old.items) (integers (chars piece.now))) }
    ensures err { IfErr result (λ e. e.kind ≡ refused) }
{
    for c in piece.chars() {
        push(items, Term::Int(i64::from(u32::from(c))), at)?;
    }
    Ok(())
}

/// Puts the characters of a text, as integers, behind others. The text is let go half by half while the integers come,
/// so that at the end no more of it than `KEPT` bytes stand beside them. Each cut copies the back half, so that all cuts
/// copy no more than the whole text.
///
/// # Errors
///
/// `Memory` where memory is refused.
pub(super) fn push_characters(
    items: &mut Vec<Term>,
    mut text: String,
    at: usize,
) -> Result<(), ReadError>
    ensures ok { OnOk result (trees items.new.items ≡ append_trees (trees items.old.items)
        (integers (chars (string_bytes text)))) }
    ensures err { IfErr result (λ e. e.kind ≡ refused) }
{
    make_room(items, text.as_str(), at)?;
    while let Some(middle) = offset_to_cut(text.as_str()) {
        let Ok(back) = text.split_off(middle) else {
            return Err(ReadError {
                kind: Fault::Memory,
                at,
            });
        };
        push_piece(items, text.as_str(), at)?;
        text = back;
    }
    push_piece(items, text.as_str(), at)
}

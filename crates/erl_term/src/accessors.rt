// Terms as values of one kind, and rows as so many terms: accessors for the crates above.
ghost use Rattle.std.specs.Prelude.{◌≡◌, Some, None, MatchOption, IfOk, string_bytes};
ghost use Rattle.std.specs.Str.{chars};
ghost use Rattle.erl_term.specs.Accessors.{atom_of, char_of, first_of, four_of, int_of, list_of, one_of, pid_of, string_of, three_of, tuple_of, two_of};
ghost use Rattle.erl_term.specs.Term.{tree, trees};

use crate::atom::Atom;
use crate::term::{Term, Terms};
use std::alloc::{AllocError, Global};

impl Term {
    /// The integer, if the term is one. Takes no memory.
    pub fn as_int(&self) -> Option<i64>
        ensures { result ≡ int_of (tree self.now) }
    {
        match self {
            Term::Int(n) => Some(*n),
            Term::Atom(_) | Term::Pid(_) | Term::Tuple(_) | Term::List(_) => None,
        }
    }

    /// The atom, if the term is one. Takes no memory.
    pub fn as_atom(&self) -> Option<&Atom>
        ensures { MatchOption result (atom_of (tree self.now) ≡ None)
            (λ a. atom_of (tree self.now) ≡ Some a.now) }
    {
        match self {
            Term::Atom(atom) => Some(atom),
            Term::Int(_) | Term::Pid(_) | Term::Tuple(_) | Term::List(_) => None,
        }
    }

    /// The process identifier's number, if the term is one. Takes no memory.
    pub fn as_pid(&self) -> Option<u64>
        ensures { result ≡ pid_of (tree self.now) }
    {
        match self {
            Term::Pid(n) => Some(*n),
            Term::Int(_) | Term::Atom(_) | Term::Tuple(_) | Term::List(_) => None,
        }
    }

    /// The elements, if the term is a tuple. Takes no memory.
    pub fn as_tuple(&self) -> Option<&Terms>
        ensures { MatchOption result (tuple_of (tree self.now) ≡ None)
            (λ row. tuple_of (tree self.now) ≡ Some row.now) }
    {
        match self {
            Term::Tuple(row) => Some(row),
            Term::Int(_) | Term::Atom(_) | Term::Pid(_) | Term::List(_) => None,
        }
    }

    /// The elements, if the term is a list. Takes no memory.
    pub fn as_list(&self) -> Option<&Terms>
        ensures { MatchOption result (list_of (tree self.now) ≡ None)
            (λ row. list_of (tree self.now) ≡ Some row.now) }
    {
        match self {
            Term::List(row) => Some(row),
            Term::Int(_) | Term::Atom(_) | Term::Pid(_) | Term::Tuple(_) => None,
        }
    }
}

/// The first term of a row, and the others, if there is a first. Takes no memory.
pub fn first(row: &[Term]) -> Option<(&Term, &[Term])>
    ensures { MatchOption result (first_of (trees row.now) ≡ None)
        (λ r. first_of (trees row.now) ≡ Some (tree r.0.now, trees r.1.now)) }
{
    row.split_first()
}

/// The one term of a row of one. Takes no memory.
pub fn one(row: &[Term]) -> Option<&Term>
    ensures { MatchOption result (one_of (trees row.now) ≡ None)
        (λ r. one_of (trees row.now) ≡ Some (tree r.now)) }
{
    let (a, rest) = first(row)?;
    if rest.is_empty() { Some(a) } else { None }
}

/// The terms of a row of two. Takes no memory.
pub fn two(row: &[Term]) -> Option<(&Term, &Term)>
    ensures { MatchOption result (two_of (trees row.now) ≡ None)
        (λ r. two_of (trees row.now) ≡ Some (tree r.0.now, tree r.1.now)) }
{
    let (a, rest) = first(row)?;
    let b = one(rest)?;
    Some((a, b))
}

/// The terms of a row of three. Takes no memory.
pub fn three(row: &[Term]) -> Option<(&Term, &Term, &Term)>
    ensures { MatchOption result (three_of (trees row.now) ≡ None)
        (λ r. three_of (trees row.now) ≡ Some (tree r.0.now, tree r.1.now, tree r.2.now)) }
{
    let (a, rest) = first(row)?;
    let (b, c) = two(rest)?;
    Some((a, b, c))
}

/// The terms of a row of four. Takes no memory.
pub fn four(row: &[Term]) -> Option<(&Term, &Term, &Term, &Term)>
    ensures { MatchOption result (four_of (trees row.now) ≡ None)
        (λ r. four_of (trees row.now) ≡ Some (tree r.0.now, tree r.1.now, tree r.2.now, tree r.3.now)) }
{
    let (a, rest) = first(row)?;
    let (b, c, d) = three(rest)?;
    Some((a, b, c, d))
}

/// The characters of a string, if the term is one: a list of integers that are Unicode scalar values.
///
/// # Errors
///
/// `AllocError` where memory is refused.
pub fn string(alloc: Global, term: &Term) -> Result<Option<String>, AllocError>
    ensures { IfOk result (λ found. MatchOption found (string_of (tree term.now) ≡ None)
        (λ s. string_of (tree term.now) ≡ Some (chars (string_bytes s)))) }
{
    let Some(row) = term.as_list() else {
        return Ok(None);
    };
    let mut text = String::new(alloc);
    for term in row.as_slice() {
        let Some(c) = character(term) else {
            return Ok(None);
        };
        text.push(c)?;
    }
    Ok(Some(text))
}

/// The character, if the term is an integer that is a Unicode scalar value. Takes no memory.
pub fn character(term: &Term) -> Option<char>
    ensures { result ≡ char_of (tree term.now) }
{
    let n = term.as_int()?;
    char::from_u32(u32::try_from(n).ok()?)
}

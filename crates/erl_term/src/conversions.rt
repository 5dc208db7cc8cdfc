// Values as terms: read from them, and written as them.
ghost use Rattle.std.specs.Prelude.{◌≡◌, ◌∷◌, [], pos, Option, Some, IfOk, ⊤};
ghost use Rattle.std.specs.List.{All};
ghost use Rattle.std.specs.Str.{chars};
ghost use Rattle.erl_term.specs.Conversions.{pair_of, row, rows, rows_of, triple_of};
ghost use Rattle.erl_term.specs.Accessors.{atom_of, list_of};
ghost use Rattle.erl_term.specs.Rows.{integers};
ghost use Rattle.erl_term.specs.Term.{term_of, tree};
ghost use Rattle.erl_term.specs.Tree.{Tree, atom, int, list, tuple};

use crate::accessors::{three, two};
use crate::atom::Atom;
use crate::term::{Term, Terms};
use std::alloc::{AllocError, Global};
use values::{Duplicate, Row};

/// A value that a term may be.
pub trait FromTerm: Drop {
    /// What a term is read as: none, if it is no such value.
    ghost reading: { Tree → Option Self };

    /// The value that a term is, if it is one.
    ///
    /// # Errors
    ///
    /// `AllocError` where memory is refused.
    fn from_term(alloc: Global, term: &Term) -> Result<Option<Self>, AllocError>
        ensures { IfOk result (λ found. found ≡ reading (tree term.now)) };
}

/// A value that is written as a term.
pub trait ToTerm {
    /// The term that is written.
    ghost writing: { Self → Tree };

    /// What holds of each such value, beyond what contracts see of it.
    ghost holds: { Self → Type 0 };

    /// The value as a term.
    ///
    /// # Errors
    ///
    /// `AllocError` where memory is refused.
    fn to_term(&self, alloc: Global) -> Result<Term, AllocError>
        ensures written { IfOk result (λ t. tree t ≡ writing self.now) }
        ensures kept { IfOk result (λ t. holds self.now) };
}

/// An atom, as itself.
impl FromTerm for Atom {
    ghost reading = { atom_of };

    fn from_term(alloc: Global, term: &Term) -> Result<Option<Atom>, AllocError> {
        match term.as_atom() {
            Some(atom) => Ok(Some(atom.copy(alloc)?)),
            None => Ok(None),
        }
    }
}

/// Any term, as itself.
impl FromTerm for Term {
    ghost reading = { λ t. Some (term_of t) };

    fn from_term(alloc: Global, term: &Term) -> Result<Option<Term>, AllocError> {
        Ok(Some(term.copy(alloc)?))
    }
}

/// The elements of a list.
impl FromTerm for Terms {
    ghost reading = { list_of };

    fn from_term(alloc: Global, term: &Term) -> Result<Option<Terms>, AllocError> {
        match term.as_list() {
            Some(row) => Ok(Some(row.copy(alloc)?)),
            None => Ok(None),
        }
    }
}

/// A tuple of two.
impl<A: FromTerm, B: FromTerm> FromTerm for (A, B) {
    ghost reading = { pair_of A.reading B.reading };

    fn from_term(alloc: Global, term: &Term) -> Result<Option<(A, B)>, AllocError> {
        let Some(row) = term.as_tuple() else {
            return Ok(None);
        };
        let Some((first, second)) = two(row.as_slice()) else {
            return Ok(None);
        };
        let Some(first) = A::from_term(alloc, first)? else {
            return Ok(None);
        };
        let Some(second) = B::from_term(alloc, second)? else {
            return Ok(None);
        };
        Ok(Some((first, second)))
    }
}

/// A tuple of three.
impl<A: FromTerm, B: FromTerm, C: FromTerm> FromTerm for (A, B, C) {
    ghost reading = { triple_of A.reading B.reading C.reading };

    fn from_term(alloc: Global, term: &Term) -> Result<Option<(A, B, C)>, AllocError> {
        let Some(row) = term.as_tuple() else {
            return Ok(None);
        };
        let Some((first, second, third)) = three(row.as_slice()) else {
            return Ok(None);
        };
        let Some(first) = A::from_term(alloc, first)? else {
            return Ok(None);
        };
        let Some(second) = B::from_term(alloc, second)? else {
            return Ok(None);
        };
        let Some(third) = C::from_term(alloc, third)? else {
            return Ok(None);
        };
        Ok(Some((first, second, third)))
    }
}

/// A row of values, from the list of their terms.
impl<T: FromTerm> FromTerm for Row<T> {
    ghost reading = { rows_of T.reading };

    fn from_term(alloc: Global, term: &Term) -> Result<Option<Row<T>>, AllocError> {
        let Some(row) = term.as_list() else {
            return Ok(None);
        };
        let row = row.as_slice();
        let mut items = Vec::with_capacity(alloc, row.len())?;
        for term in row {
            let Some(item) = T::from_term(alloc, term)? else {
                return Ok(None);
            };
            items.push(item)?;
        }
        Ok(Some(Row::new(items)))
    }
}

/// An atom, as itself.
impl ToTerm for Atom {
    ghost writing = { atom };

    ghost holds = { λ a. ⊤ };

    fn to_term(&self, alloc: Global) -> Result<Term, AllocError> {
        Ok(Term::Atom(self.copy(alloc)?))
    }
}

/// A term, as itself.
impl ToTerm for Term {
    ghost writing = { tree };

    ghost holds = { λ t. ⊤ };

    fn to_term(&self, alloc: Global) -> Result<Term, AllocError> {
        self.copy(alloc)
    }
}

/// Terms, as a list.
impl ToTerm for Terms {
    ghost writing = { list };

    ghost holds = { λ ts. ⊤ };

    fn to_term(&self, alloc: Global) -> Result<Term, AllocError> {
        Ok(Term::List(self.copy(alloc)?))
    }
}

/// A tuple of two.
impl<A: ToTerm, B: ToTerm> ToTerm for (&A, &B) {
    ghost writing = { λ p. tuple (row (A.writing p.0.now ∷ B.writing p.1.now ∷ [])) };

    ghost holds = { λ p. A.holds p.0.now × B.holds p.1.now };

    fn to_term(&self, alloc: Global) -> Result<Term, AllocError> {
        let mut terms = Vec::with_capacity(alloc, 2)?;
        terms.push(self.0.to_term(alloc)?)?;
        terms.push(self.1.to_term(alloc)?)?;
        Ok(Term::Tuple(Terms::new(alloc, terms)?))
    }
}

/// A tuple of three.
impl<A: ToTerm, B: ToTerm, C: ToTerm> ToTerm for (&A, &B, &C) {
    ghost writing = { λ p. tuple (row (A.writing p.0.now ∷ B.writing p.1.now ∷ C.writing p.2.now ∷ [])) };

    ghost holds = { λ p. A.holds p.0.now × B.holds p.1.now × C.holds p.2.now };

    fn to_term(&self, alloc: Global) -> Result<Term, AllocError> {
        let mut terms = Vec::with_capacity(alloc, 3)?;
        terms.push(self.0.to_term(alloc)?)?;
        terms.push(self.1.to_term(alloc)?)?;
        terms.push(self.2.to_term(alloc)?)?;
        Ok(Term::Tuple(Terms::new(alloc, terms)?))
    }
}

/// A row of values, as the list of their terms.
impl<T: ToTerm> ToTerm for Row<T> {
    ghost writing = { λ xs. list (rows T.writing xs) };

    ghost holds = { λ xs. All T.holds xs };

    fn to_term(&self, alloc: Global) -> Result<Term, AllocError> {
        let items = self.as_slice();
        let mut terms = Vec::with_capacity(alloc, items.len())?;
        for item in items {
            terms.push(item.to_term(alloc)?)?;
        }
        Ok(Term::List(Terms::new(alloc, terms)?))
    }
}

/// A text, as a string: the list of its characters.
impl<'a> ToTerm for &'a str {
    ghost writing = { λ text. list (integers (chars text.now)) };

    ghost holds = { λ text. ⊤ };

    fn to_term(&self, alloc: Global) -> Result<Term, AllocError> {
        let mut terms = Vec::new(alloc);
        for c in self.chars() {
            terms.push(character_term(c))?;
        }
        let characters = Terms::new(alloc, terms)?;
        Ok(Term::List(characters))
    }
}

/// A character as a term: its code point.
fn character_term(c: char) -> Term
    ensures { tree result ≡ int (pos c) }
{
    Term::Int(i64::from(u32::from(c)))
}

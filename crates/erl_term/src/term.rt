// Terms.
ghost use Rattle.std.specs.Prelude.{◌≡◌, ◌-◌, ◌^◌, ◌≤◌, ◌↔◌, min, IsTrue, IfOk};
ghost use Rattle.erl_term.specs.Term.{tree, trees};
ghost use Rattle.erl_term.specs.Tree.{depth, size};

mod order;
mod printing;
mod round_trip;
mod rows;
mod storage;
mod told;

use crate::atom::Atom;
pub(crate) use printing::append_list;
use std::alloc::{AllocError, Global};
use std::marker::Model;
use std::sync::Arc;
use values::{Duplicate, Same};

/// An Erlang term.
#[cycle(term)]
#[derive(Drop)]
pub enum Term {
    /// An integer.
    Int(i64),
    /// An atom.
    Atom(Atom),
    /// A process identifier, by its number.
    Pid(u64),
    /// A tuple.
    Tuple(Terms),
    /// A proper list.
    List(Terms),
}

// What a row of many terms takes.
const _: () = prove!(size_of::<Term>() == 24);

/// Terms in a row: the elements of a tuple or a list.
///
/// A row has any number of owners, each of which sees it from an index in it on. So a copy, and the row behind the
/// first term, take no more time and memory than a count, however many terms there are.
#[cycle(term)]
#[derive(Drop)]
pub struct Terms {
    row: Arc<Row>,
    /// The index of the first term that is seen.
    from: u32,
    /// The sum of the sizes of the terms before it.
    hidden: u32,
}

/// What the owners of a row share: its terms, and what is told of them without a look at each.
#[cycle(term)]
#[derive(Drop)]
struct Row {
    items: Stored,
    /// The sum of the terms' sizes, at most 2^64 - 1.
    size: u64,
    /// The greatest depth of the terms.
    depth: u32,
    /// The index of the last term that has that depth, or one before it.
    last: u32,
}

/// Where the terms of a row stand. Most tuples have two terms or three: these stand in the row itself, which is one
/// block of memory then.
#[cycle(term)]
#[derive(Drop)]
enum Stored {
    /// Two terms.
    Two([Term; 2]),
    /// Three terms.
    Three([Term; 3]),
    /// As many terms as there are.
    Many(Vec<Term>),
}

impl Model for Terms {
    ghost use Rattle.erl_term.specs.Tree.{Trees, greatest_depth};
    ghost use Rattle.erl_term.specs.TreeCode.{trees_coded};

    ghost Value = { Trees };

    ghost coded = { trees_coded };

    ghost use Rattle.std.specs.Prelude.{drop};
    ghost use Rattle.erl_term.specs.Stored.{listed};
    ghost use Rattle.erl_term.specs.Term.{trees};
    ghost use Rattle.erl_term.specs.Parts.{IsPart, hidden_depth};

    ghost view = { λ a. trees (drop a.from (listed a.row.value.items)) };

    ghost invariant = { λ a. IsPart (listed a.row.value.items) a.row.value.depth a.row.value.last a.row.value.size a.from
        a.hidden };

    ghost size = { greatest_depth };

    ghost use Rattle.std.proofs.Common.{arith};
    ghost use Rattle.erl_term.specs.TermFalls.{deep_le-greatest_depth};

    ghost size_decreases = { λ a h. omega (arith, deep_le-greatest_depth a.row.value.items, hidden_depth _ _ _ _ _ _ h) };
}

impl Term {
    /// How deep the term is: 0 for an integer, an atom or a process identifier, else 1 and the greatest
    /// depth of the elements (0 where there are none). Past `2^64 - 1` it is `2^64 - 1`. Takes no memory, and the same
    /// time whatever the term.
    pub fn depth(&self) -> u64
        ensures { result ≡ min (depth (tree self.now)) (2 ^ 64 - 1) }
    {
        match self {
            Term::Int(_) | Term::Atom(_) | Term::Pid(_) => 0,
            Term::Tuple(row) | Term::List(row) => row.greatest_depth().saturating_add(1),
        }
    }

    /// How large the term is: 1 and the sizes of the elements. Past `2^64 - 1` it is `2^64 - 1`. Takes no memory, and
    /// the same time whatever the term.
    pub fn size(&self) -> u64
        ensures { result ≡ min (size (tree self.now)) (2 ^ 64 - 1) }
    {
        match self {
            Term::Int(_) | Term::Atom(_) | Term::Pid(_) => 1,
            Term::Tuple(row) | Term::List(row) => row.total_size().saturating_add(1),
        }
    }

    /// Whether the term is at most so deep and at most so large. Takes no memory, and the same time whatever the term.
    ///
    /// Terms share what they are made of, so a term can be far larger than the memory that it takes: a tuple of one
    /// term twice is twice as large. Whoever makes terms of terms asks this of each.
    pub fn is_within(&self, deepest: u32, largest: u32) -> bool
        ensures { IsTrue result ↔ ((depth (tree self.now) ≤ deepest) × (size (tree self.now) ≤ largest)) }
    {
        self.depth() <= u64::from(deepest) && self.size() <= u64::from(largest)
    }
}

impl Duplicate for Term {
    fn copy(&self, alloc: Global) -> Result<Term, AllocError>
        ensures { IfOk result (λ it. it ≡ self.now) }
    {
        match self {
            Term::Int(n) => Ok(Term::Int(*n)),
            Term::Atom(atom) => Ok(Term::Atom(atom.copy(alloc)?)),
            Term::Pid(n) => Ok(Term::Pid(*n)),
            Term::Tuple(row) => Ok(Term::Tuple(row.copy(alloc)?)),
            Term::List(row) => Ok(Term::List(row.copy(alloc)?)),
        }
    }
}

impl Same for Term {
    #[cycle(same)]
    #[inline(always)]
    fn same(&self, other: &Term) -> bool
        ensures { IsTrue result ↔ (self.now ≡ other.now) }
    {
        match (self, other) {
            (Term::Int(m), Term::Int(n)) => *m == *n,
            (Term::Atom(a), Term::Atom(b)) => a.same(b),
            (Term::Pid(m), Term::Pid(n)) => *m == *n,
            (Term::Tuple(a), Term::Tuple(b)) => a.same(b),
            (Term::List(a), Term::List(b)) => a.same(b),
            (_, _) => false,
        }
    }
}

impl Same for Terms {
    #[cycle(same)]
    #[inline(always)]
    fn same(&self, other: &Terms) -> bool
        ensures { IsTrue result ↔ (self.now ≡ other.now) }
    {
        same_rows(self.as_slice(), other.as_slice())
    }
}

/// Whether two rows have equal terms, as many of them and in one order.
#[cycle(same)]
#[inline(never)]
fn same_rows(ts: &[Term], us: &[Term]) -> bool
    ensures { IsTrue result ↔ (ts.now ≡ us.now) }
{
    if ts.len() != us.len() {
        return false;
    }
    for i in 0..ts.len() {
        if !ts[i].same(&us[i]) {
            return false;
        }
    }
    true
}

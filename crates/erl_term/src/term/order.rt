// The order of terms.
ghost use Rattle.std.specs.Prelude.{◌≡◌, refl};
ghost use Rattle.erl_term.specs.Tree.{tuple};
ghost use Rattle.std.specs.Ordering.{on, as_partial_cmp, eq_by_cmp, nat_cmp};
ghost use Rattle.std.specs.Cmp.Lexicographic.{slice_cmp};
ghost use Rattle.erl_term.specs.Term.{tree, trees};
ghost use Rattle.erl_term.specs.Order.{kind, tree_cmp, trees_cmp};
ghost use Rattle.erl_term.specs.TermOrder.{term_cmp-total, term_eq-partial, term_eq-equivalence, term_cmp-partial};

use super::{Term, Terms};
use crate::atom::Atom;
use std::cmp::Ordering;
use values::Same;

impl Atom {
    /// By the characters' code points.
    fn compare(&self, other: &Atom) -> Ordering
        ensures { result ≡ slice_cmp nat_cmp self.now other.now }
    {
        self.as_str().chars().cmp(other.as_str().chars())
    }
}

impl Term {
    /// The rank of the term's kind in the order.
    fn kind(&self) -> u8
        ensures { result ≡ kind (tree self.now) }
    {
        match self {
            Term::Int(_) => 0,
            Term::Atom(_) => 1,
            Term::Pid(_) => 2,
            Term::Tuple(_) => 3,
            Term::List(_) => 4,
        }
    }
}

impl PartialEq for Term {
    ghost eq = { eq_by_cmp (on tree tree_cmp) };

    ghost laws = { term_eq-partial };

    fn eq(&self, other: &Term) -> bool {
        self.same(other)
    }
}

impl Eq for Term {
    ghost laws = { term_eq-equivalence };
}

impl PartialOrd for Term {
    ghost partial_cmp = { as_partial_cmp (on tree tree_cmp) };

    ghost laws = { term_cmp-partial };

    fn partial_cmp(&self, other: &Term) -> Option<Ordering> {
        Some(self.cmp(other))
    }
}

impl Ord for Term {
    ghost cmp = { on tree tree_cmp };

    ghost total = { term_cmp-total };

    ghost matches_partial_cmp = { λ x y. refl };

    ghost matches_eq = { λ x y. refl };

    #[cycle(order)]
    fn cmp(&self, other: &Term) -> Ordering {
        match (self, other) {
            (Term::Int(m), Term::Int(n)) => m.cmp(n),
            (Term::Atom(a), Term::Atom(b)) => a.compare(b),
            (Term::Pid(m), Term::Pid(n)) => m.cmp(n),
            (Term::Tuple(a), Term::Tuple(b)) => a.compare_sized(b),
            (Term::List(a), Term::List(b)) => a.compare(b),
            (_, _) => self.kind().cmp(&other.kind()),
        }
    }
}

impl Terms {
    /// Element by element, a proper prefix first.
    #[cycle(order)]
    fn compare(&self, other: &Terms) -> Ordering
        ensures { result ≡ trees_cmp self.now other.now }
    {
        compare_rows(self.as_slice(), other.as_slice())
    }

    /// By the numbers of elements first, and then element by element.
    #[cycle(order)]
    fn compare_sized(&self, other: &Terms) -> Ordering
        ensures { result ≡ tree_cmp (tuple self.now) (tuple other.now) }
    {
        match self.len().cmp(&other.len()) {
            Ordering::Equal => compare_rows(self.as_slice(), other.as_slice()),
            unequal => unequal,
        }
    }
}

/// Element by element, a proper prefix first.
#[cycle(order)]
fn compare_rows(ts: &[Term], us: &[Term]) -> Ordering
    ensures { result ≡ trees_cmp (trees ts.now) (trees us.now) }
{
    let shared = if ts.len() < us.len() {
        ts.len()
    } else {
        us.len()
    };
    for i in 0..shared {
        let order = ts[i].cmp(&us[i]);
        if order != Ordering::Equal {
            return order;
        }
    }
    ts.len().cmp(&us.len())
}

// Terms whose text can be read back.
ghost use Rattle.std.specs.Prelude.{◌≡◌, true};
ghost use Rattle.erl_term.specs.RoundTrip.{are_bounded, has_pids, have_pids, is_bounded, is_readable};
ghost use Rattle.erl_term.specs.Term.{tree, trees};
ghost use Rattle.erl_term.specs.Tree.{int};

use super::Term;

/// The greatest number of brackets that may be open at once in a text.
const DEEPEST: u64 = 256;

impl Term {
    /// Whether the term's text can be read back: no process identifier stands in it, and it is nested at most 256
    /// deep. Takes no memory.
    pub fn is_readable(&self) -> bool
        ensures readable { result ≡ is_readable (tree self.now) }
        ensures bounded { is_bounded (tree self.now) ≡ true }
    {
        !self.has_pids() && self.depth() <= DEEPEST
    }

    /// Whether a process identifier stands in the term. Takes no memory.
    #[cycle(pids)]
    pub fn has_pids(&self) -> bool
        ensures pids { result ≡ has_pids (tree self.now) }
        ensures bounded { is_bounded (tree self.now) ≡ true }
    {
        match self {
            Term::Int(n) => integer_has_pids(*n),
            Term::Atom(atom) => {
                let _name = atom.as_str();
                false
            }
            Term::Pid(_) => true,
            Term::Tuple(row) | Term::List(row) => have_pids(row.as_slice()),
        }
    }
}

/// No process identifier stands in an integer.
fn integer_has_pids(n: i64) -> bool
    ensures pids { result ≡ has_pids (int n) }
    ensures bounded { is_bounded (int n) ≡ true }
{
    false
}

/// Whether a process identifier stands in one of the terms.
#[cycle(pids)]
fn have_pids(terms: &[Term]) -> bool
    ensures pids { result ≡ have_pids (trees terms.now) }
    ensures bounded { are_bounded (trees terms.now) ≡ true }
{
    let mut have = false;
    for term in terms {
        have |= term.has_pids();
    }
    have
}

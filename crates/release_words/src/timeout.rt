// Timeouts.
ghost use Rattle.std.specs.Prelude.{◌≡◌, ◌<◌, int_le, pos, MatchOption, true};
ghost use Rattle.release_words.specs.Reading.{timeout_of};
ghost use Rattle.release_words.specs.Words.{is_timeout, timeout_tree};

use crate::named_value;
use erl_term::{Atom, FromTerm, Term, ToTerm};
use std::alloc::{AllocError, Global};
use std::marker::Model;
use values::{Duplicate, Same};

/// A number of milliseconds, 1 or more and at most `2^63 - 1`.
#[derive(Drop)]
pub struct Milliseconds {
    count: u64,
}

impl Model for Milliseconds {
    ghost use Rattle.std.specs.Prelude.{ℕ, ◌<◌, ◌^◌};

    ghost Value = { ℕ };

    ghost view = { λ m. m.count };

    ghost invariant = { λ m. (0 < m.count) × (m.count < 2 ^ 63) };
}

impl Milliseconds {
    /// This many milliseconds, where it is 1 or more. Takes no memory.
    pub fn new(count: i64) -> Option<Milliseconds>
        ensures { MatchOption result (int_le count (pos 0) ≡ true) (λ m. count ≡ pos m) }
    {
        if count <= 0 {
            return None;
        }
        Some(Milliseconds {
            count: count as u64,
        })
    }

    /// How many milliseconds. Takes no memory.
    pub fn get(&self) -> i64
        ensures count { result ≡ pos self.now }
        ensures positive { 0 < self.now }
    {
        self.count as i64
    }
}

/// How long a process may take to be suspended (appup(4), Timeout).
#[derive(Drop)]
pub enum Timeout {
    /// `default`: as long as the release handler waits.
    Default,
    /// `infinity`
    Infinity,
    /// So many milliseconds.
    Finite(Milliseconds),
}

impl FromTerm for Timeout {
    ghost reading = { timeout_of };

    #[tactic(auto, unfolding(crate::specs::Reading::timeout_of))]
    fn from_term(_alloc: Global, term: &Term) -> Result<Option<Timeout>, AllocError> {
        match term {
            Term::Atom(name) => Ok(
                named_value!(name, "default" => Timeout::Default, "infinity" => Timeout::Infinity),
            ),
            Term::Int(count) => Ok(Milliseconds::new(*count).map(|count| Timeout::Finite(count))),
            Term::Pid(_) | Term::Tuple(_) | Term::List(_) => Ok(None),
        }
    }
}

impl ToTerm for Timeout {
    ghost writing = { timeout_tree };

    ghost holds = { λ timeout. is_timeout timeout ≡ true };

    fn to_term(&self, alloc: Global) -> Result<Term, AllocError> {
        match self {
            Timeout::Default => Ok(Term::Atom(Atom::word(alloc, "default")?)),
            Timeout::Infinity => Ok(Term::Atom(Atom::word(alloc, "infinity")?)),
            Timeout::Finite(count) => Ok(Term::Int(count.get())),
        }
    }
}

impl Same for Milliseconds {
    fn same(&self, other: &Milliseconds) -> bool {
        self.count == other.count
    }
}

impl Duplicate for Milliseconds {
    fn copy(&self, _alloc: Global) -> Result<Milliseconds, AllocError> {
        Ok(Milliseconds { count: self.count })
    }
}

impl Same for Timeout {
    fn same(&self, other: &Timeout) -> bool {
        match (self, other) {
            (Timeout::Default, Timeout::Default) | (Timeout::Infinity, Timeout::Infinity) => true,
            (Timeout::Finite(m), Timeout::Finite(n)) => m.same(n),
            (_, _) => false,
        }
    }
}

impl Duplicate for Timeout {
    fn copy(&self, alloc: Global) -> Result<Timeout, AllocError> {
        match self {
            Timeout::Default => Ok(Timeout::Default),
            Timeout::Infinity => Ok(Timeout::Infinity),
            Timeout::Finite(count) => Ok(Timeout::Finite(count.copy(alloc)?)),
        }
    }
}

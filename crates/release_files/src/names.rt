// The names of modules that were read.
ghost use Rattle.std.specs.Prelude.{◌≡◌, [], ◌∷◌, ◌++◌, Contains, IfOk, MatchBool};

use erl_term::Atom;
use indexmap::IndexSet;
use std::alloc::{AllocError, Global};
use std::hash::RandomState;
use std::marker::Model;
use values::Duplicate;

/// Names, in the order in which they were added, none of them twice.
#[derive(Drop)]
pub(crate) struct Names {
    set: IndexSet<Atom, RandomState>,
}

impl Model for Names {
    ghost use Rattle.std.specs.Prelude.{ℕ, List};

    ghost Value = { List (List ℕ) };

    ghost view = { λ names. names.set.keys };
}

impl Names {
    /// No names.
    pub(crate) fn new(alloc: Global, hashing: RandomState) -> Names
        ensures { result ≡ [] }
    {
        Names {
            set: IndexSet::with_hasher(alloc, hashing),
        }
    }

    /// Adds a name, and tells whether it is new. Found by key.
    ///
    /// # Errors
    ///
    /// `AllocError` where memory is refused.
    pub(crate) fn add(&mut self, alloc: Global, name: &Atom) -> Result<bool, AllocError>
        ensures { IfOk result (λ is_new. MatchBool is_new
            ((Contains self.old name.now → ⊥) × (self.new ≡ self.old ++ name.now ∷ []))
            (Contains self.old name.now × (self.new ≡ self.old))) }
    {
        let name = name.copy(alloc)?;
        let is_new = self.set.insert(name)?;
        Ok(is_new)
    }
}

// Kinds of purge.
ghost use Rattle.std.specs.Prelude.{⊤};
ghost use Rattle.release_words.specs.Reading.{purge_of};
ghost use Rattle.release_words.specs.Words.{purge_tree};

use crate::{named_value, same_variants};
use erl_term::{Atom, FromTerm, Term, ToTerm};
use std::alloc::{AllocError, Global};
use values::{Duplicate, Same};

/// How old code is purged before a module is loaded or removed, and after (appup(4), PrePurge and PostPurge).
#[derive(Clone, Copy, Debug, PartialEq, Eq, Drop)]
pub enum Purge {
    /// `soft_purge`: not where a process uses it.
    Soft,
    /// `brutal_purge`: and the processes that use it are killed.
    Brutal,
}

impl FromTerm for Purge {
    ghost reading = { purge_of };

    #[tactic(auto, unfolding(crate::specs::Reading::purge_of))]
    fn from_term(_alloc: Global, term: &Term) -> Result<Option<Purge>, AllocError> {
        let Some(name) = term.as_atom() else {
            return Ok(None);
        };
        Ok(named_value!(name, "soft_purge" => Purge::Soft, "brutal_purge" => Purge::Brutal))
    }
}

impl ToTerm for Purge {
    ghost writing = { purge_tree };

    ghost holds = { λ purge. ⊤ };

    fn to_term(&self, alloc: Global) -> Result<Term, AllocError> {
        let name = match self {
            Purge::Soft => "soft_purge",
            Purge::Brutal => "brutal_purge",
        };
        Ok(Term::Atom(Atom::word(alloc, name)?))
    }
}

impl Same for Purge {
    fn same(&self, other: &Purge) -> bool {
        same_variants!(self, other, Purge, Soft {} Brutal {})
    }
}

impl Duplicate for Purge {
    fn copy(&self, _alloc: Global) -> Result<Purge, AllocError> {
        Ok(*self)
    }
}

// How applications are started.
ghost use Rattle.std.specs.Prelude.{⊤};
ghost use Rattle.release_words.specs.Reading.{start_type_of};
ghost use Rattle.release_words.specs.Words.{start_type_tree};

use crate::{named_value, same_variants};
use erl_term::{Atom, FromTerm, Term, ToTerm};
use std::alloc::{AllocError, Global};
use values::{Duplicate, Same};

/// How an application is started (rel(4), Type).
#[derive(Clone, Copy, Debug, PartialEq, Eq, Drop)]
pub enum StartType {
    /// `permanent`
    Permanent,
    /// `transient`
    Transient,
    /// `temporary`
    Temporary,
    /// `load`: loaded, and not started.
    Load,
    /// `none`: neither loaded nor started.
    None,
}

impl FromTerm for StartType {
    ghost reading = { start_type_of };

    #[tactic(auto, unfolding(crate::specs::Reading::start_type_of))]
    fn from_term(_alloc: Global, term: &Term) -> Result<Option<StartType>, AllocError> {
        let Some(name) = term.as_atom() else {
            return Ok(None);
        };
        Ok(named_value!(
            name,
            "permanent" => StartType::Permanent,
            "transient" => StartType::Transient,
            "temporary" => StartType::Temporary,
            "load" => StartType::Load,
            "none" => StartType::None,
        ))
    }
}

impl ToTerm for StartType {
    ghost writing = { start_type_tree };

    ghost holds = { λ start_type. ⊤ };

    fn to_term(&self, alloc: Global) -> Result<Term, AllocError> {
        let name = match self {
            StartType::Permanent => "permanent",
            StartType::Transient => "transient",
            StartType::Temporary => "temporary",
            StartType::Load => "load",
            StartType::None => "none",
        };
        Ok(Term::Atom(Atom::word(alloc, name)?))
    }
}

impl Same for StartType {
    fn same(&self, other: &StartType) -> bool {
        same_variants!(self, other, StartType, Permanent {} Transient {} Temporary {} Load {} None {})
    }
}

impl Duplicate for StartType {
    fn copy(&self, _alloc: Global) -> Result<StartType, AllocError> {
        Ok(*self)
    }
}

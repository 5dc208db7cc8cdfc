// The words of high-level instructions.
ghost use Rattle.high_instructions.specs.Reading.{change_of, module_type_of};

use erl_term::{Atom, FromTerm, Term};
use release_words::{named_value, same_variants};
use std::alloc::{AllocError, Global};
use values::{Duplicate, Same};

/// Whether a module's processes switch to new code by themselves (appup(4), ModType).
#[derive(Clone, Copy, Debug, PartialEq, Eq, Drop)]
pub enum ModuleType {
    /// `static`: they do not. New code is loaded before they change their state, up and down.
    Static,
    /// `dynamic`: they do, as those of a callback module. New code is loaded before they change their state on the way
    /// up, and after it on the way down.
    Dynamic,
}

/// How the state of a module's processes changes (appup(4), Change).
#[derive(Drop)]
pub enum Change {
    /// `soft`: not at all.
    Soft,
    /// `{advanced,Extra}`: by `code_change`, which is given this.
    Advanced(Term),
}

impl FromTerm for ModuleType {
    ghost reading = { module_type_of };

    #[tactic(auto, unfolding(crate::specs::Reading::module_type_of))]
    fn from_term(_alloc: Global, term: &Term) -> Result<Option<ModuleType>, AllocError> {
        let Some(name) = term.as_atom() else {
            return Ok(None);
        };
        Ok(named_value!(name, "static" => ModuleType::Static, "dynamic" => ModuleType::Dynamic))
    }
}

impl FromTerm for Change {
    ghost reading = { change_of };

    #[tactic(auto, unfolding(crate::specs::Reading::change_of))]
    fn from_term(alloc: Global, term: &Term) -> Result<Option<Change>, AllocError> {
        if let Term::Atom(name) = term {
            return Ok(named_value!(name, "soft" => Change::Soft));
        }
        let Some((name, extra)) = <(Atom, Term)>::from_term(alloc, term)? else {
            return Ok(None);
        };
        Ok(if name.is("advanced") {
            Some(Change::Advanced(extra))
        } else {
            None
        })
    }
}

impl Same for ModuleType {
    fn same(&self, other: &ModuleType) -> bool {
        same_variants!(self, other, ModuleType, Static {} Dynamic {})
    }
}

impl Duplicate for ModuleType {
    fn copy(&self, _alloc: Global) -> Result<ModuleType, AllocError> {
        Ok(*self)
    }
}

impl Same for Change {
    fn same(&self, other: &Change) -> bool {
        match (self, other) {
            (Change::Soft, Change::Soft) => true,
            (Change::Advanced(extra), Change::Advanced(others)) => extra.same(others),
            (_, _) => false,
        }
    }
}

impl Duplicate for Change {
    fn copy(&self, alloc: Global) -> Result<Change, AllocError> {
        match self {
            Change::Soft => Ok(Change::Soft),
            Change::Advanced(extra) => Ok(Change::Advanced(extra.copy(alloc)?)),
        }
    }
}

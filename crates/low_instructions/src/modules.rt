// Which way code is changed, and modules with something of their own.
ghost use Rattle.std.specs.Prelude.{◌≡◌, true, ⊤};
ghost use Rattle.low_instructions.specs.Forms.{change_tree, direction_tree, suspension_tree};
ghost use Rattle.low_instructions.specs.Laws.{is_suspension};
ghost use Rattle.low_instructions.specs.Reading.{change_of, direction_of, suspension_of};

use erl_term::{Atom, FromTerm, Term, ToTerm};
use release_words::{Timeout, named_value, same_variants};
use std::alloc::{AllocError, Global};
use values::{Duplicate, Same};

/// Which way code is changed.
#[derive(Clone, Copy, Debug, PartialEq, Eq, Drop)]
pub enum Direction {
    /// `up`: to a newer version.
    Up,
    /// `down`: to an older one.
    Down,
}

/// A module whose processes are suspended.
#[derive(Drop)]
pub struct Suspension {
    /// The module.
    pub name: Atom,
    /// How long its processes may take.
    pub timeout: Timeout,
}

/// A module whose processes change their state.
#[derive(Drop)]
pub struct ModuleChange {
    /// The module.
    pub name: Atom,
    /// What `code_change` is given.
    pub extra: Term,
}

impl FromTerm for Direction {
    ghost reading = { direction_of };

    #[tactic(auto, unfolding(crate::specs::Reading::direction_of))]
    fn from_term(_alloc: Global, term: &Term) -> Result<Option<Direction>, AllocError> {
        let Some(name) = term.as_atom() else {
            return Ok(None);
        };
        Ok(named_value!(name, "up" => Direction::Up, "down" => Direction::Down))
    }
}

impl ToTerm for Direction {
    ghost writing = { direction_tree };

    ghost holds = { λ direction. ⊤ };

    fn to_term(&self, alloc: Global) -> Result<Term, AllocError> {
        let name = match self {
            Direction::Up => "up",
            Direction::Down => "down",
        };
        Ok(Term::Atom(Atom::word(alloc, name)?))
    }
}

impl Same for Direction {
    fn same(&self, other: &Direction) -> bool {
        same_variants!(self, other, Direction, Up {} Down {})
    }
}

impl Duplicate for Direction {
    fn copy(&self, _alloc: Global) -> Result<Direction, AllocError> {
        Ok(*self)
    }
}

/// `Mod` or `{Mod,Timeout}`
impl FromTerm for Suspension {
    ghost reading = { suspension_of };

    #[tactic(auto, unfolding(crate::specs::Reading::suspension_of))]
    fn from_term(alloc: Global, term: &Term) -> Result<Option<Suspension>, AllocError> {
        if let Some(name) = Atom::from_term(alloc, term)? {
            let timeout = Timeout::Default;
            return Ok(Some(Suspension { name, timeout }));
        }
        let found = <(Atom, Timeout)>::from_term(alloc, term)?;
        Ok(found.map(|(name, timeout)| Suspension { name, timeout }))
    }
}

/// `Mod` where the timeout is the default, else `{Mod,Timeout}`
impl ToTerm for Suspension {
    ghost writing = { suspension_tree };

    ghost holds = { λ suspension. is_suspension suspension ≡ true };

    fn to_term(&self, alloc: Global) -> Result<Term, AllocError> {
        match &self.timeout {
            Timeout::Default => self.name.to_term(alloc),
            timeout => (&self.name, timeout).to_term(alloc),
        }
    }
}

/// `{Mod,Extra}`
impl FromTerm for ModuleChange {
    ghost reading = { change_of };

    #[tactic(auto, unfolding(crate::specs::Reading::change_of))]
    fn from_term(alloc: Global, term: &Term) -> Result<Option<ModuleChange>, AllocError> {
        let found = <(Atom, Term)>::from_term(alloc, term)?;
        Ok(found.map(|(name, extra)| ModuleChange { name, extra }))
    }
}

/// `{Mod,Extra}`
impl ToTerm for ModuleChange {
    ghost writing = { change_tree };

    ghost holds = { λ change. ⊤ };

    fn to_term(&self, alloc: Global) -> Result<Term, AllocError> {
        (&self.name, &self.extra).to_term(alloc)
    }
}

impl Same for Suspension {
    fn same(&self, other: &Suspension) -> bool {
        self.name.same(&other.name) && self.timeout.same(&other.timeout)
    }
}

impl Duplicate for Suspension {
    fn copy(&self, alloc: Global) -> Result<Suspension, AllocError> {
        let name = self.name.copy(alloc)?;
        Ok(Suspension {
            name,
            timeout: self.timeout.copy(alloc)?,
        })
    }
}

impl Same for ModuleChange {
    fn same(&self, other: &ModuleChange) -> bool {
        self.name.same(&other.name) && self.extra.same(&other.extra)
    }
}

impl Duplicate for ModuleChange {
    fn copy(&self, alloc: Global) -> Result<ModuleChange, AllocError> {
        let name = self.name.copy(alloc)?;
        Ok(ModuleChange {
            name,
            extra: self.extra.copy(alloc)?,
        })
    }
}

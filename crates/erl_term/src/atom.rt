// Atoms.
ghost use Rattle.std.specs.Prelude.{◌≡◌, ◌<◌, ◌≤◌, ◌↔◌, ℕ, List, length, IfOk, IsTrue, Err, string_bytes};
ghost use Rattle.std.specs.Arc.{arc_str_bytes};
ghost use Rattle.std.specs.Str.{bytes_eq, chars};
ghost use Rattle.std.specs.Hash as fed;
ghost use Rattle.std.specs.Cmp.{partial_equiv_from_equiv};
ghost use Rattle.std.specs.Cmp.Lexicographic.{nat_list_eq_equiv};
ghost use Rattle.std.specs.Cmp.Rules.{hashing};
ghost use Rattle.std.proofs.Common.{rules};
ghost use Rattle.erl_term.specs.Ascii.{is_ascii_text};
ghost use Rattle.erl_term.specs.Names.{spelled};
ghost use Rattle.erl_term.specs.Text.{utf8};

use crate::predefined::{Name, Predefined};
use std::alloc::{AllocError, Global};
use std::hash::{Hash, Hasher};
use std::marker::Model;
use std::sync::ArcStr;
use thiserror::Error;
use values::{Duplicate, Same};

/// An atom: a name of at most 255 characters, seen by contracts as its code points. Its copies share the name.
pub struct Atom {
    name: Name,
}

impl Model for Atom {
    ghost use Rattle.std.specs.Prelude.{◌≤◌, ℕ, List, length};
    ghost use Rattle.erl_term.specs.Names.{name_chars};

    ghost Value = { List ℕ };

    ghost view = { λ a. name_chars a.name };

    ghost invariant = { λ a. length (name_chars a.name) ≤ 255 };
}

/// By a function of its own, so that how an atom is kept is nothing to whoever lets it go.
impl Drop for Atom {
    fn drop(self) {
        let Atom { name } = self;
        drop(name);
    }
}

/// Why there is no atom of a text.
#[derive(Clone, Copy, Debug, PartialEq, Eq, Error)]
pub enum AtomError {
    /// The text has more than 255 characters.
    #[error("an atom has at most 255 characters")]
    AtomTooLong,
    /// Memory was refused.
    #[error("out of memory")]
    Memory,
}

impl Atom {
    /// The atom of a text's characters.
    ///
    /// # Errors
    ///
    /// `AtomTooLong` over 255 characters, and else `Memory` where memory is refused.
    pub fn new(alloc: Global, text: &str) -> Result<Atom, AtomError>
        ensures ok { IfOk result (λ atom. atom ≡ chars text.now) }
        ensures too_long { (result ≡ Err AtomError.AtomTooLong) ↔ (255 < length (chars text.now)) }
    {
        if count(text) > 255 {
            return Err(AtomError::AtomTooLong);
        }
        match ArcStr::from_str(alloc, text) {
            Ok(text) => Ok(Atom::from_shared(text)),
            Err(AllocError) => Err(AtomError::Memory),
        }
    }

    /// The atom of an ASCII word of the program's own.
    ///
    /// # Errors
    ///
    /// `AllocError` where memory is refused.
    pub fn word(alloc: Global, word: &str) -> Result<Atom, AllocError>
        requires ascii { IsTrue (is_ascii_text word.now) }
        requires short { length word.now ≤ 255 }
        ensures { IfOk result (λ atom. atom ≡ word.now) }
    {
        let text = ArcStr::from_str(alloc, word)?;
        Ok(Atom::from_shared(text))
    }

    /// The atom of a text's characters, of which there are at most 255. The text is moved, not copied.
    ///
    /// # Errors
    ///
    /// `AllocError` where memory is refused.
    pub fn from_string(text: String) -> Result<Atom, AllocError>
        requires short { length (chars (string_bytes text)) ≤ 255 }
        ensures { IfOk result (λ atom. atom ≡ chars (string_bytes text)) }
    {
        let text = ArcStr::from_string(text)?;
        Ok(Atom::from_shared(text))
    }

    /// The atom of a text's characters, of which there are at most 255. It shares them. Takes no memory.
    pub fn from_shared(text: ArcStr) -> Atom
        requires short { length (chars (arc_str_bytes text)) ≤ 255 }
        ensures { result ≡ chars (arc_str_bytes text) }
    {
        Atom {
            name: Name::Shared(text),
        }
    }

    /// A predefined atom. Takes no memory.
    pub fn predefined(it: Predefined) -> Atom
        ensures { result ≡ spelled it }
    {
        Atom {
            name: Name::Known(it),
        }
    }

    /// Whether the atom is this ASCII word. Takes no memory.
    pub fn is(&self, word: &str) -> bool
        requires { IsTrue (is_ascii_text word.now) }
        ensures { result ≡ bytes_eq self.now word.now }
    {
        self.as_str() == word
    }

    /// The atom's characters. Takes no memory.
    pub fn as_str(&self) -> &str
        ensures chars { chars result.now ≡ self.now }
        ensures kept { length self.now ≤ 255 }
    {
        match &self.name {
            Name::Known(it) => it.as_str(),
            Name::Shared(text) => ArcStr::as_str(text),
        }
    }
}

impl Duplicate for Atom {
    fn copy(&self, alloc: Global) -> Result<Atom, AllocError> {
        match &self.name {
            Name::Known(it) => Ok(Atom::predefined(*it)),
            Name::Shared(text) => Ok(Atom::from_shared(text.clone()?)),
        }
    }
}

impl Same for Atom {
    fn same(&self, other: &Atom) -> bool {
        match (&self.name, &other.name) {
            (Name::Known(one), Name::Known(another)) => *one == *another,
            (_, _) => self.as_str() == other.as_str(),
        }
    }
}

impl PartialEq for Atom {
    ghost eq = { bytes_eq };

    ghost laws = { partial_equiv_from_equiv nat_list_eq_equiv };

    fn eq(&self, other: &Atom) -> bool {
        self.same(other)
    }
}

impl Eq for Atom {
    ghost laws = { nat_list_eq_equiv };
}

impl Hash for Atom {
    ghost hash_input = { λ a. fed.str (utf8 a) };

    ghost respects_eq = { Prim.search (hashing, rules) };

    fn hash<H: Hasher>(&self, state: &mut H) {
        self.as_str().hash(state);
    }
}

/// How many characters a text has.
fn count(text: &str) -> usize
    ensures { result ≡ length (chars text.now) }
{
    text.chars().count()
}

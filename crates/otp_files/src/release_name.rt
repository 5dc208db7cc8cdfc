// Names of releases.
ghost use Rattle.std.specs.Prelude.{◌≡◌, IfOk};
ghost use Rattle.std.specs.Str.{chars};
ghost use Rattle.erl_term.specs.Accessors.{string_of};

use erl_term::{FromTerm, Term, string};
use std::alloc::{AllocError, Global};
use std::marker::Model;
use values::{Duplicate, Same};

/// The name of a release: any text. Contracts see it as its characters' code points.
#[derive(Drop)]
pub struct ReleaseName {
    text: String,
}

impl Model for ReleaseName {
    ghost use Rattle.std.specs.Prelude.{ℕ, List, string_bytes};
    ghost use Rattle.std.specs.Str.{chars};

    ghost Value = { List ℕ };

    ghost view = { λ a. chars (string_bytes a.text) };
}

impl ReleaseName {
    /// The name of these characters.
    ///
    /// # Errors
    ///
    /// `AllocError` where memory is refused.
    pub fn new(alloc: Global, text: &str) -> Result<ReleaseName, AllocError>
        ensures { IfOk result (λ name. name ≡ chars text.now) }
    {
        let text = String::from_str(alloc, text)?;
        Ok(ReleaseName { text })
    }

    /// The name's characters. Takes no memory.
    pub fn as_str(&self) -> &str
        ensures { chars result.now ≡ self.now }
    {
        String::as_str(&self.text)
    }
}

impl FromTerm for ReleaseName {
    ghost reading = { string_of };

    fn from_term(alloc: Global, term: &Term) -> Result<Option<ReleaseName>, AllocError> {
        match string(alloc, term)? {
            Some(text) => Ok(Some(ReleaseName { text })),
            None => Ok(None),
        }
    }
}

impl Duplicate for ReleaseName {
    fn copy(&self, alloc: Global) -> Result<ReleaseName, AllocError> {
        let text = String::from_str(alloc, self.text.as_str())?;
        Ok(ReleaseName { text })
    }
}

impl Same for ReleaseName {
    fn same(&self, other: &ReleaseName) -> bool {
        self.text.as_str() == other.text.as_str()
    }
}

// Versions as they are asked for.
ghost use Rattle.std.specs.Prelude.{◌≡◌, IfOk};
ghost use Rattle.std.specs.Str.{chars};

use std::alloc::{AllocError, Global};
use std::marker::Model;
use values::{Duplicate, Same};

/// A version as it is asked for, which may be any text. Contracts see its characters.
#[derive(Drop)]
pub struct Vsn {
    text: String,
}

impl Model for Vsn {
    ghost use Rattle.std.specs.Prelude.{ℕ, List, string_bytes};
    ghost use Rattle.std.specs.Str.{chars};

    ghost Value = { List ℕ };

    ghost view = { λ v. chars (string_bytes v.text) };
}

impl Vsn {
    /// The version of a text's characters.
    ///
    /// # Errors
    ///
    /// `AllocError` where memory is refused.
    pub fn new(alloc: Global, text: &str) -> Result<Vsn, AllocError>
        ensures { IfOk result (λ vsn. vsn ≡ chars text.now) }
    {
        let text = String::from_str(alloc, text)?;
        Ok(Vsn { text })
    }

    /// The version's characters. Takes no memory.
    pub fn as_str(&self) -> &str
        ensures { chars result.now ≡ self.now }
    {
        String::as_str(&self.text)
    }
}

impl Duplicate for Vsn {
    fn copy(&self, alloc: Global) -> Result<Vsn, AllocError> {
        Vsn::new(alloc, self.as_str())
    }
}

impl Same for Vsn {
    fn same(&self, other: &Vsn) -> bool {
        self.as_str() == other.as_str()
    }
}

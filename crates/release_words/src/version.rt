// Versions.
ghost use Rattle.std.specs.Prelude.{◌≡◌, ◌↔◌, Err, IfOk, true, false};
ghost use Rattle.std.specs.List.{list_all};
ghost use Rattle.std.specs.Str.{chars};
ghost use Rattle.release_words.specs.Reading.{version_of};
ghost use Rattle.release_words.specs.Words.{is_version, is_version_char, string_tree};

use erl_term::{FromTerm, Term, ToTerm, string};
use std::alloc::{AllocError, Global};
use std::marker::Model;
use thiserror::Error;
use values::{Duplicate, Same};

/// A version of a release, an application or the runtime system: one character or more, each from 33 to 126 and no
/// `/`, so that it can stand in the name of a folder. Contracts see it as its characters' code points.
#[derive(Drop)]
pub struct Version {
    text: String,
}

impl Model for Version {
    ghost use Rattle.std.specs.Prelude.{◌≡◌, ℕ, List, true, string_bytes};
    ghost use Rattle.std.specs.Str.{chars};
    ghost use Rattle.release_words.specs.Words.{is_version};

    ghost Value = { List ℕ };

    ghost view = { λ a. chars (string_bytes a.text) };

    ghost invariant = { λ a. is_version (chars (string_bytes a.text)) ≡ true };
}

/// Why there is no version of a text.
#[derive(Clone, Copy, Debug, PartialEq, Eq, Error)]
pub enum VersionError {
    /// The text is empty, or has a character that no version has.
    #[error("a version has characters from ! to ~ and no slash")]
    BadVersion,
    /// Memory was refused.
    #[error("out of memory")]
    Memory,
}

impl Version {
    /// The version of a text's characters.
    ///
    /// # Errors
    ///
    /// `BadVersion` where the text is empty or has a character that no version has, and else `Memory` where memory is
    /// refused.
    pub fn new(alloc: Global, text: &str) -> Result<Version, VersionError>
        ensures ok { IfOk result (λ version. version ≡ chars text.now) }
        ensures bad { (result ≡ Err VersionError.BadVersion) ↔ (is_version (chars text.now) ≡ false) }
    {
        if !is_version(text) {
            return Err(VersionError::BadVersion);
        }
        match String::from_str(alloc, text) {
            Ok(text) => Ok(Version { text }),
            Err(AllocError) => Err(VersionError::Memory),
        }
    }

    /// The version's characters. Takes no memory.
    pub fn as_str(&self) -> &str
        ensures chars { chars result.now ≡ self.now }
        ensures kept { is_version self.now ≡ true }
    {
        String::as_str(&self.text)
    }
}

impl FromTerm for Version {
    ghost reading = { version_of };

    #[tactic(auto, unfolding(crate::specs::Reading::version_of))]
    fn from_term(alloc: Global, term: &Term) -> Result<Option<Version>, AllocError> {
        let Some(text) = string(alloc, term)? else {
            return Ok(None);
        };
        if is_version(text.as_str()) {
            Ok(Some(Version { text }))
        } else {
            Ok(None)
        }
    }
}

impl ToTerm for Version {
    ghost writing = { string_tree };

    ghost holds = { λ version. is_version version ≡ true };

    fn to_term(&self, alloc: Global) -> Result<Term, AllocError> {
        self.as_str().to_term(alloc)
    }
}

/// Whether a text is a version's: not empty, and of its characters alone.
fn is_version(text: &str) -> bool
    ensures { result ≡ is_version (chars text.now) }
{
    match text.chars().next() {
        Some(_) => has_version_characters(text),
        None => false,
    }
}

/// Whether all characters are a version's.
fn has_version_characters(text: &str) -> bool
    ensures { result ≡ list_all is_version_char (chars text.now) }
{
    text.chars().all(|c| is_version_character(c))
}

/// Whether a version may have this character.
fn is_version_character(c: char) -> bool
    ensures { result ≡ is_version_char c }
{
    '!' <= c && c <= '~' && c != '/'
}

impl Duplicate for Version {
    fn copy(&self, alloc: Global) -> Result<Version, AllocError> {
        let text = String::from_str(alloc, self.text.as_str())?;
        Ok(Version { text })
    }
}

impl Same for Version {
    fn same(&self, other: &Version) -> bool {
        self.text.as_str() == other.text.as_str()
    }
}

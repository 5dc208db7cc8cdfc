// Words that are names.
ghost use Rattle.std.specs.Prelude.{◌≡◌, ◌≤◌, length, IfOk};
ghost use Rattle.std.specs.Option.{option_map};
ghost use Rattle.std.specs.Str.{chars};
ghost use Rattle.shell_requests.specs.Request.{name_of};

use erl_term::{Atom, AtomError};
use std::alloc::{AllocError, Global};

/// The greatest number of characters of a name.
const LONGEST_NAME: usize = 255;

/// A word that is a name: it has at most 255 characters.
#[derive(Clone, Copy)]
pub struct Name<'a> {
    pub(crate) text: &'a str,
    ghost short: { length (chars text.now) ≤ 255 },
}

impl<'a> Name<'a> {
    /// The name that a word is, if it has at most 255 characters.
    pub fn new(word: &'a str) -> Option<Name<'a>>
        ensures { option_map (λ name. chars name.text.now) result ≡ name_of word.now }
    {
        if count(word) > LONGEST_NAME {
            return None;
        }
        Some(Name { text: word })
    }

    /// The word.
    pub fn as_str(self) -> &'a str
        ensures { result.now ≡ self.entry.text.now }
    {
        self.text
    }

    /// The atom of the name.
    ///
    /// # Errors
    ///
    /// `AllocError` where memory is refused.
    pub fn atom(self, alloc: Global) -> Result<Atom, AllocError>
        ensures { IfOk result (λ atom. atom ≡ chars self.entry.text.now) }
    {
        match Atom::new(alloc, self.text) {
            Ok(atom) => Ok(atom),
            Err(AtomError::Memory) => Err(AllocError),
            Err(AtomError::AtomTooLong) => unreachable!(),
        }
    }
}

/// How many characters a text has.
fn count(text: &str) -> usize
    ensures { result ≡ length (chars text.now) }
{
    text.chars().count()
}

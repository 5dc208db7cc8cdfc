// Texts, and names.
ghost use Rattle.std.specs.Prelude.{◌≡◌, ◌<◌, ◌≤◌, ◌↔◌, ℕ, List, length, IfOk, IsErr, IsTrue, string_bytes};
ghost use Rattle.std.specs.Arc.{arc_str_bytes};
ghost use Rattle.std.specs.Str.{chars};

use std::alloc::{AllocError, Global};
use std::marker::Model;
use std::sync::ArcStr;
use thiserror::Error;

/// A text, seen by contracts as its code points. It takes a pointer's room where it is held.
#[derive(Drop)]
pub struct Text {
    text: Box<String>,
}

const _: () = prove!(size_of::<Text>() == 8);

impl Model for Text {
    ghost Value = { List ℕ };

    ghost view = { λ a. chars (string_bytes a.text.value) };
}

/// A text whose copies share the characters, seen by contracts as its code points.
#[derive(Drop)]
pub struct SharedText {
    text: ArcStr,
}

impl Model for SharedText {
    ghost Value = { List ℕ };

    ghost view = { λ a. chars (arc_str_bytes a.text) };
}

/// A text of at most 255 characters, as a name has, seen by contracts as its code points. Its copies share the characters.
#[derive(Drop)]
pub struct Name {
    text: ArcStr,
}

impl Model for Name {
    ghost Value = { List ℕ };

    ghost view = { λ a. chars (arc_str_bytes a.text) };

    ghost invariant = { λ a. length (chars (arc_str_bytes a.text)) ≤ 255 };
}

/// Why a text is no name.
#[derive(Clone, Copy, Debug, PartialEq, Eq, Error)]
#[error("a name has at most 255 characters")]
pub struct NameError;

impl Text {
    /// The text of a string's characters. It takes a few bytes of memory from `alloc`, whatever the length.
    ///
    /// # Errors
    ///
    /// `AllocError` where memory is refused.
    pub fn from_string(alloc: Global, text: String) -> Result<Text, AllocError>
        ensures { IfOk result (λ it. it ≡ chars (string_bytes text)) }
    {
        let text = Box::new(alloc, text)?;
        Ok(Text { text })
    }

    /// The characters. Takes no memory.
    pub fn as_str(&self) -> &str
        ensures { chars result.now ≡ self.now }
    {
        self.text.as_str()
    }

    /// The characters, to keep. Takes no memory.
    pub fn into_string(self) -> String
        ensures { chars (string_bytes result) ≡ self }
    {
        let Text { text } = self;
        Box::into_inner(text)
    }
}

impl SharedText {
    /// The text of characters.
    ///
    /// # Errors
    ///
    /// `AllocError` where memory is refused.
    pub fn new(alloc: Global, characters: &str) -> Result<SharedText, AllocError>
        ensures { IfOk result (λ text. text ≡ chars characters.now) }
    {
        let text = ArcStr::from_str(alloc, characters)?;
        Ok(SharedText { text })
    }

    /// The characters. Takes no memory.
    pub fn as_str(&self) -> &str
        ensures { chars result.now ≡ self.now }
    {
        ArcStr::as_str(&self.text)
    }

    /// A copy, which shares the characters. Takes no memory.
    ///
    /// # Errors
    ///
    /// `AllocError` where there are more copies than can be counted.
    pub fn share(&self) -> Result<SharedText, AllocError>
        ensures { IfOk result (λ it. it ≡ self.now) }
    {
        let text = self.text.clone()?;
        Ok(SharedText { text })
    }
}

impl Name {
    /// The name that a text is. Takes no memory. Only a text of over 255 bytes is counted.
    ///
    /// # Errors
    ///
    /// `NameError` where the text has over 255 characters.
    pub fn from_text(text: SharedText) -> Result<Name, NameError>
        ensures ok { IfOk result (λ name. name ≡ text) }
        ensures too_long { IsErr result ↔ (255 < length text) }
    {
        if is_too_long(text.as_str()) {
            return Err(NameError);
        }
        let SharedText { text } = text;
        Ok(Name { text })
    }

    /// The characters. Takes no memory.
    pub fn as_str(&self) -> &str
        ensures chars { chars result.now ≡ self.now }
        ensures short { length self.now ≤ 255 }
    {
        let Name { text } = self;
        ArcStr::as_str(text)
    }

    /// A copy, which shares the characters. Takes no memory.
    ///
    /// # Errors
    ///
    /// `AllocError` where there are more copies than can be counted.
    pub fn share(&self) -> Result<Name, AllocError>
        ensures { IfOk result (λ it. it ≡ self.now) }
    {
        let text = self.text.clone()?;
        Ok(Name { text })
    }

    /// The characters, to keep. Takes no memory.
    pub fn into_shared(self) -> ArcStr
        ensures chars { chars (arc_str_bytes result) ≡ self }
        ensures short { length self ≤ 255 }
    {
        let Name { text } = self;
        text
    }
}

/// Whether a text has over 255 characters, as no name has.
fn is_too_long(text: &str) -> bool
    ensures { IsTrue result ↔ (255 < length (chars text.now)) }
{
    // A character has a byte or more.
    text.len() > 255 && count(text) > 255
}

/// How many characters a text has.
fn count(text: &str) -> usize
    ensures { result ≡ length (chars text.now) }
{
    text.chars().count()
}

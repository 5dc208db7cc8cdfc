// Texts that were read not long ago.
ghost use Rattle.std.specs.Prelude.{◌≡◌, ⊤, IfOk, MatchOption};
ghost use Rattle.std.specs.Str.{chars};

use erl_chars::SharedText;
use std::alloc::{AllocError, Global};

/// How many texts are kept at once of a text that is not long. A power of two.
const FEW_PLACES: usize = 64;

/// How many texts are kept at once of a long text. A power of two.
const MANY_PLACES: usize = 512;

/// From so many bytes on, a text's names are kept. Those of fewer bytes are sooner made than kept.
const SHORT: usize = 64;

/// From so many bytes on, a text is long.
const LONG: usize = 4096;

/// Texts that were read. Each is kept at the slot of its characters until another comes there. So a text that is read
/// often is made once, and all its copies share the characters.
#[derive(Drop)]
pub(crate) struct RecentTexts {
    /// How many slots there are: none, or a power of two.
    slots: usize,
    /// None, or one for each slot.
    kept: Vec<Option<SharedText>>,
}

impl RecentTexts {
    /// No texts, with slots for those in a text of so many bytes. They take memory from `alloc`.
    pub(crate) fn new(alloc: Global, bytes: usize) -> RecentTexts {
        RecentTexts {
            slots: slots_for(bytes),
            kept: Vec::new(alloc),
        }
    }

    /// The text of characters: a copy of the one that is kept, where it has these, and else a new one.
    ///
    /// # Errors
    ///
    /// `AllocError` where memory is refused.
    pub(crate) fn text(&mut self, alloc: Global, characters: &str) -> Result<SharedText, AllocError>
        ensures { IfOk result (λ it. it ≡ chars characters.now) }
    {
        let Some(last) = self.slots.checked_sub(1) else {
            return SharedText::new(alloc, characters);
        };
        let slot = sum_of(characters) & last;
        match self.copy_at(slot, characters)? {
            Some(text) => Ok(text),
            None => self.made(alloc, slot, characters),
        }
    }

    /// A new text of characters, which is kept at a slot. Few texts are made in a long text, so this stands by itself.
    ///
    /// # Errors
    ///
    /// `AllocError` where memory is refused.
    #[inline(never)]
    fn made(
        &mut self,
        alloc: Global,
        slot: usize,
        characters: &str,
    ) -> Result<SharedText, AllocError>
        ensures { IfOk result (λ it. it ≡ chars characters.now) }
    {
        let text = SharedText::new(alloc, characters)?;
        self.keep(slot, text.share()?)?;
        Ok(text)
    }

    /// A copy of the text at a slot, where it has these characters.
    fn copy_at(&self, slot: usize, characters: &str) -> Result<Option<SharedText>, AllocError>
        ensures { IfOk result (λ found. MatchOption found ⊤ (λ it. it ≡ chars characters.now)) }
    {
        if let Some(Some(text)) = self.kept.get(slot) {
            // Another text may have the same slot.
            if text.as_str() == characters {
                return Ok(Some(text.share()?));
            }
        }
        Ok(None)
    }

    /// Keeps a text at a slot.
    fn keep(&mut self, slot: usize, text: SharedText) -> Result<(), AllocError> {
        for _ in self.kept.len()..self.slots {
            self.kept.push(None)?;
        }
        if let Some(kept) = self.kept.get_mut(slot) {
            *kept = Some(text);
        }
        Ok(())
    }
}

/// How many slots there are for the names in a text of so many bytes.
fn slots_for(bytes: usize) -> usize {
    match bytes {
        0..SHORT => 0,
        SHORT..LONG => FEW_PLACES,
        _ => MANY_PLACES,
    }
}

/// A number that characters choose. Its last bits name their slot. Names of four bytes and more are told by how many they have,
/// the first of them and the last three, as most names in a text differ in one of these.
#[inline(always)]
fn sum_of(characters: &str) -> usize {
    let bytes = characters.as_bytes();
    match bytes {
        [first, .., third, second, last] => {
            sum_of_bytes(&[*first, *third, *second, *last]).wrapping_add(bytes.len())
        }
        _ => sum_of_bytes(bytes),
    }
}

/// A number that bytes choose.
#[inline(always)]
fn sum_of_bytes(bytes: &[u8]) -> usize {
    let mut sum: usize = 0;
    for byte in bytes {
        sum = sum.wrapping_mul(59).wrapping_add(usize::from(*byte));
    }
    sum
}

// What appups and relups have in common: entries by versions, up and down.
ghost use Rattle.std.specs.Prelude.{◌≡◌};
ghost use Rattle.std.specs.Option.{option_copied};
ghost use Rattle.otp_files.specs.Entries.{entry_for};

mod drafts;
mod reading;

pub(crate) use reading::upgrades_from_term;
use release_words::Version;
use std::alloc::{AllocError, Global};
use values::{Duplicate, Row, Same};

/// An entry of an appup or of a relup.
#[derive(Drop)]
pub struct Entry<D, I> {
    /// The version that is upgraded from, or downgraded to.
    pub vsn: Version,
    /// What describes the entry: nothing in an appup; in a relup a term, which means nothing to a node.
    pub description: D,
    /// What is done, in order.
    pub instructions: Row<I>,
}

/// An appup or a relup. Where two entries of one direction have one version, the first counts.
#[derive(Drop)]
pub struct Upgrades<D, I> {
    /// The version of the application, or of the release, that the file belongs to.
    pub vsn: Version,
    /// How it is upgraded, by the version that it is upgraded from.
    pub up: Row<Entry<D, I>>,
    /// How it is downgraded, by the version that it is downgraded to.
    pub down: Row<Entry<D, I>>,
}

impl<D, I> Upgrades<D, I> {
    /// How to upgrade from a version, if it can be done: the first entry of that version. Takes no memory.
    pub fn up_from(&self, vsn: &Version) -> Option<&Entry<D, I>>
        ensures { option_copied result ≡ entry_for vsn.now self.now.up }
    {
        entry_for(self.up.as_slice(), vsn)
    }

    /// How to downgrade to a version, if it can be done: the first entry of that version. Takes no memory.
    pub fn down_to(&self, vsn: &Version) -> Option<&Entry<D, I>>
        ensures { option_copied result ≡ entry_for vsn.now self.now.down }
    {
        entry_for(self.down.as_slice(), vsn)
    }
}

/// The first entry of a version.
fn entry_for<'a, D, I>(entries: &'a [Entry<D, I>], vsn: &Version) -> Option<&'a Entry<D, I>>
    ensures { option_copied result ≡ entry_for vsn.now entries.now }
{
    for entry in entries {
        if entry.vsn.same(vsn) {
            return Some(entry);
        }
    }
    None
}

impl<D: Same, I: Same> Same for Entry<D, I> {
    fn same(&self, other: &Entry<D, I>) -> bool {
        self.vsn.same(&other.vsn)
            && self.description.same(&other.description)
            && self.instructions.same(&other.instructions)
    }
}

impl<D: Duplicate, I: Duplicate> Duplicate for Entry<D, I> {
    fn copy(&self, alloc: Global) -> Result<Entry<D, I>, AllocError> {
        Ok(Entry {
            vsn: self.vsn.copy(alloc)?,
            description: self.description.copy(alloc)?,
            instructions: self.instructions.copy(alloc)?,
        })
    }
}

impl<D: Same, I: Same> Same for Upgrades<D, I> {
    fn same(&self, other: &Upgrades<D, I>) -> bool {
        self.vsn.same(&other.vsn) && self.up.same(&other.up) && self.down.same(&other.down)
    }
}

impl<D: Duplicate, I: Duplicate> Duplicate for Upgrades<D, I> {
    fn copy(&self, alloc: Global) -> Result<Upgrades<D, I>, AllocError> {
        Ok(Upgrades {
            vsn: self.vsn.copy(alloc)?,
            up: self.up.copy(alloc)?,
            down: self.down.copy(alloc)?,
        })
    }
}

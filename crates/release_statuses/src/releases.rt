// The releases of a node, and why a change of them is refused.
mod changes;

ghost use Rattle.std.specs.Prelude.{◌≡◌, IfOk, Some};
ghost use Rattle.std.specs.Iterator.Adapters.{rev_steps};
ghost use Rattle.std.specs.Iterator.Runs.{EachRunFrom, ItemsMapTo};
ghost use Rattle.std.specs.Option.{option_copied};
ghost use Rattle.std.specs.Slice.Iter.{iter_steps_back};
ghost use Rattle.std.specs.Str.{chars};

use crate::by_version::ByVersion;
use crate::error::RelError;
use crate::indices::{index_with, is_of, listed, status_of};
use crate::listed::Listed;
use crate::status::Status;
use release_table::Release;
use std::alloc::{AllocError, Global};
use std::hash::RandomState;
use std::iter::Rev;
use std::marker::Model;
use std::slice::Iter;

/// The releases of a node, in the order in which they were set unpacked, each with its status. One of them is permanent.
///
/// A release is found by its version, by key, in a time that doesn't grow with the table. A version is named by its text.
pub struct Releases {
    alloc: Global,
    table: ByVersion,
}

/// It is taken apart here, so that who drops one above has nothing to prove of its parts.
impl Drop for Releases {
    fn drop(self) {
        let Releases {
            alloc: _alloc,
            table: _table,
        } = self;
    }
}

impl Model for Releases {
    ghost use Rattle.std.specs.Prelude.{List};
    ghost use Rattle.std.specs.Coded.{coded_list};
    ghost use Rattle.release_statuses.specs.declared.listed.Listed.{Listed as OneListed};
    ghost use Rattle.release_statuses.specs.contracts.listed.Listed as one_listed;
    ghost use Rattle.release_statuses.specs.Statuses.{HasPermanent};

    ghost Value = { List OneListed };

    ghost coded = { coded_list one_listed.the_row.coded };

    ghost view = { λ a. a.table };

    ghost invariant = { λ a. HasPermanent a.table };
}

impl Releases {
    ghost use Rattle.release_statuses.specs.Statuses.{HasPermanent, booted, first_with, install_refusal, listed, permanent_refusal};
    ghost use Rattle.release_statuses.specs.declared.status.Status.TheVariants as status;
    ghost use Rattle.release_statuses.specs.Statuses.{reboot_refusal, remove_refusal, running, status_of, unpack_refusal};
    ghost use Rattle.release_statuses.specs.Statuses.{which_releases};

    /// Makes the table of a node that has booted a release, which is the only one, and permanent. Versions are hashed by
    /// `hashing`.
    ///
    /// # Errors
    ///
    /// `AllocError` if an allocation fails. The release is then dropped.
    pub fn booted(
        alloc: Global,
        hashing: RandomState,
        release: Release,
    ) -> Result<Releases, AllocError>
        ensures { IfOk result (λ it. it ≡ booted release) }
    {
        let mut table = ByVersion::new(alloc, hashing);
        let it = Listed {
            release,
            status: Status::Permanent,
        };
        table.push(alloc, it)?;
        Ok(Releases { alloc, table })
    }

    /// The releases, in the order in which they were set unpacked; the one that booted stands first. Takes no memory.
    pub fn as_slice(&self) -> &[Listed]
        ensures items { result.now ≡ self.now }
        ensures kept { HasPermanent self.now }
    {
        self.table.as_slice()
    }

    /// Lends the releases with their statuses as `which_releases` prints them: the latest that was set unpacked first, and the
    /// one that booted last. Takes no memory.
    pub fn which_releases(&self) -> Rev<Iter<'_, Listed>>
        ensures { EachRunFrom (rev_steps iter_steps_back) result
            (λ run. ItemsMapTo run (λ it. it.now) (which_releases self.now)) }
    {
        self.as_slice().iter().rev()
    }

    /// The release of a version, if it is there. Takes no memory.
    pub fn get(&self, vsn: &str) -> Option<&Listed>
        ensures { option_copied result ≡ listed (chars vsn.now) self.now }
    {
        listed(&self.table, vsn)
    }

    /// The status of the release of a version.
    fn status(&self, vsn: &str) -> Option<Status>
        ensures { result ≡ status_of (chars vsn.now) self.now }
    {
        status_of(&self.table, vsn)
    }

    /// The release that runs: the current one, or else the permanent one. Takes no memory.
    pub fn running(&self) -> &Listed
        ensures { running self.now ≡ Some result.now }
    {
        let list = self.table.as_slice();
        match index_with(list, Status::Current) {
            Some(index) => &list[index],
            None => self.permanent(),
        }
    }

    /// The release that a node boots: the first that is permanent. Takes no memory.
    pub fn permanent(&self) -> &Listed
        ensures { first_with status.Permanent self.now ≡ Some result.now }
    {
        let list = self.table.as_slice();
        match index_with(list, Status::Permanent) {
            Some(index) => &list[index],
            None => unreachable!(),
        }
    }

    /// Why a release of the version would not be set unpacked, but for lack of memory: `Exists` where one is there. Takes no
    /// memory.
    pub fn unpack_refusal(&self, vsn: &str) -> Option<RelError>
        ensures { result ≡ unpack_refusal (chars vsn.now) self.now }
    {
        match self.table.index_of(vsn) {
            Some(_) => Some(RelError::Exists),
            None => None,
        }
    }

    /// Why the release of the version would not be removed: `NoSuchRelease` where there is none, and `Permanent` where it is
    /// permanent. Takes no memory.
    pub fn remove_refusal(&self, vsn: &str) -> Option<RelError>
        ensures { result ≡ remove_refusal (chars vsn.now) self.now }
    {
        match self.status(vsn) {
            None => Some(RelError::NoSuchRelease),
            Some(Status::Permanent) => Some(RelError::Permanent),
            Some(Status::Unpacked | Status::Current | Status::Old) => None,
        }
    }

    /// Why an install of the release of the version would be refused: `NoSuchRelease` where there is none, and
    /// `AlreadyInstalled` where it runs. Takes no memory.
    pub fn install_refusal(&self, vsn: &str) -> Option<RelError>
        ensures { result ≡ install_refusal (chars vsn.now) self.now }
    {
        if self.table.index_of(vsn).is_none() {
            return Some(RelError::NoSuchRelease);
        }
        if is_of(self.running(), vsn) {
            return Some(RelError::AlreadyInstalled);
        }
        None
    }

    /// Why the release of the version would not be made permanent, but for lack of memory: `NoSuchRelease` where there is none,
    /// and `BadStatus` where it is neither current nor permanent. Takes no memory.
    pub fn permanent_refusal(&self, vsn: &str) -> Option<RelError>
        ensures { result ≡ permanent_refusal (chars vsn.now) self.now }
    {
        match self.status(vsn) {
            None => Some(RelError::NoSuchRelease),
            Some(Status::Unpacked) => Some(RelError::BadStatus(Status::Unpacked)),
            Some(Status::Old) => Some(RelError::BadStatus(Status::Old)),
            Some(Status::Current | Status::Permanent) => None,
        }
    }

    /// Why the node would not be restarted with the release of the version, but for lack of memory: `NoSuchRelease` where there
    /// is none, and `BadStatus` where it isn't old. Takes no memory.
    pub fn reboot_refusal(&self, vsn: &str) -> Option<RelError>
        ensures { result ≡ reboot_refusal (chars vsn.now) self.now }
    {
        match self.status(vsn) {
            None => Some(RelError::NoSuchRelease),
            Some(Status::Unpacked) => Some(RelError::BadStatus(Status::Unpacked)),
            Some(Status::Current) => Some(RelError::BadStatus(Status::Current)),
            Some(Status::Permanent) => Some(RelError::BadStatus(Status::Permanent)),
            Some(Status::Old) => None,
        }
    }
}

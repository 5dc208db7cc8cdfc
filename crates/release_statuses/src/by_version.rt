// The table of releases.
ghost use Rattle.std.specs.Prelude.{◌≡◌, ◌-◌, ◌<◌, ◌≤◌, ◌++◌, [], ◌∷◌, None, Some, IfErr, IfSome, OnErr, OnOk, length};
ghost use Rattle.std.specs.Prelude.{insert, remove, slice_get, take};
ghost use Rattle.std.specs.Str.{chars};
ghost use Rattle.values.specs.Edits.{changed_at};
ghost use Rattle.release_statuses.specs.Statuses.{index_of, vsn_of, with_status};

use crate::listed::Listed;
use crate::status::Status;
use indexmap::IndexMap;
use std::alloc::{AllocError, Global};
use std::hash::RandomState;
use std::marker::Model;

/// Releases in their order, each under the text of its version, and no two of one version.
///
/// Contracts see it as the list of the releases. Texts are hashed by keys that nobody outside knows: so nobody can pick versions
/// that collide.
#[derive(Drop)]
pub(crate) struct ByVersion {
    table: IndexMap<String, Listed, RandomState>,
}

impl Model for ByVersion {
    ghost use Rattle.std.specs.Prelude.{List};
    ghost use Rattle.std.specs.Coded.{coded_list};
    ghost use Rattle.std.specs.Map.{values_of};
    ghost use Rattle.release_statuses.specs.declared.listed.Listed.{Listed as OneListed};
    ghost use Rattle.release_statuses.specs.contracts.listed.Listed as one_listed;
    ghost use Rattle.release_statuses.specs.Spelling.{AreSpelled};

    ghost Value = { List OneListed };

    ghost coded = { coded_list one_listed.the_row.coded };

    ghost view = { λ by. values_of by.table.entries };

    ghost invariant = { λ by. AreSpelled by.table.entries };
}

/// A release that was taken out of the list. It keeps the text under which it stood, so that it comes back without a copy.
///
/// Contracts see it as the release.
#[derive(Drop)]
pub struct TakenOut {
    vsn: String,
    it: Listed,
}

impl Model for TakenOut {
    ghost use Rattle.release_statuses.specs.declared.listed.Listed.{Listed as OneListed};
    ghost use Rattle.release_statuses.specs.contracts.listed.Listed as one_listed;
    ghost use Rattle.release_statuses.specs.Spelling.{Spells};

    ghost Value = { OneListed };

    ghost coded = { one_listed.the_row.coded };

    ghost view = { λ taken. taken.it };

    ghost invariant = { λ taken. Spells taken.vsn taken.it };
}

impl ByVersion {
    /// Makes a table without releases. Versions are hashed by `hashing`. Takes no memory.
    pub(crate) fn new(alloc: Global, hashing: RandomState) -> ByVersion
        ensures { result ≡ [] }
    {
        ByVersion {
            table: IndexMap::with_hasher(alloc, hashing),
        }
    }

    /// Returns the releases, in order. Takes no memory.
    pub(crate) fn as_slice(&self) -> &[Listed]
        ensures { result.now ≡ self.now }
    {
        self.table.values().as_slice()
    }

    /// Returns where the release of a version stands, found by key. Takes no memory.
    pub(crate) fn index_of(&self, vsn: &str) -> Option<usize>
        ensures index { result ≡ index_of (chars vsn.now) self.now }
        ensures within { IfSome result (λ index. index < length self.now) }
    {
        self.table.get_index_of(vsn)
    }

    /// Puts a release last, under a copy of its version's text. No other may have its version.
    ///
    /// # Errors
    ///
    /// `AllocError` if an allocation fails. The releases are then unchanged; the one that was to come is dropped.
    pub(crate) fn push(&mut self, alloc: Global, it: Listed) -> Result<(), AllocError>
        requires { index_of (vsn_of it) self.old ≡ None }
        ensures pushed { OnOk result (self.new ≡ self.old ++ it ∷ []) }
        ensures err { OnErr result (self.new ≡ self.old) }
    {
        let vsn = String::from_str(alloc, it.release.rel.vsn.as_str())?;
        self.table.insert(vsn, it)?;
        Ok(())
    }

    /// Drops the last release. Takes no memory.
    pub(crate) fn pop(&mut self)
        ensures { self.new ≡ take (length self.old - 1) self.old }
    {
        self.table.pop();
    }

    /// Takes the release at an index out; the others keep their order. Takes no memory.
    pub(crate) fn take_out(&mut self, index: usize) -> TakenOut
        requires { index < length self.old }
        ensures taken { slice_get self.old index ≡ Some result }
        ensures rest { self.new ≡ remove self.old index }
        ensures absent { index_of (vsn_of result) self.new ≡ None }
    {
        match self.table.shift_remove_index(index) {
            Some((vsn, it)) => TakenOut { vsn, it },
            None => unreachable!(),
        }
    }

    /// Puts a release that was taken out back at an index. No other may have its version.
    ///
    /// # Errors
    ///
    /// The release, if an allocation fails. The others are then unchanged.
    pub(crate) fn put_back(&mut self, index: usize, taken: TakenOut) -> Result<(), TakenOut>
        requires within { index ≤ length self.old }
        requires absent { index_of (vsn_of taken) self.old ≡ None }
        ensures put { OnOk result (self.new ≡ insert self.old index taken) }
        ensures back { IfErr result (λ back. back ≡ taken) }
        ensures err { OnErr result (self.new ≡ self.old) }
    {
        let TakenOut { vsn, it } = taken;
        match self.table.shift_insert(index, vsn, it) {
            Ok(_) => Ok(()),
            Err(failed) => {
                let (vsn, it) = failed.value;
                Err(TakenOut { vsn, it })
            }
        }
    }

    /// Sets the status of the release at an index. Takes no memory.
    pub(crate) fn set_status(&mut self, index: usize, status: Status)
        requires { index < length self.old }
        ensures { self.new ≡ changed_at (with_status status) self.old index }
    {
        self.table[index].status = status;
    }
}

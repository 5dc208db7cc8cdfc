// Changes of the releases, and what takes them back.
ghost use Rattle.std.specs.Prelude.{◌≡◌, ◌≢◌, IfErr, IfOk, IsSome, None, OnErr, OnOk};
ghost use Rattle.std.specs.Str.{chars};

use crate::error::RelError;
use crate::indices::statuses;
use crate::listed::Listed;
use crate::releases::Releases;
use crate::status::Status;
use crate::status_changes::{change_status, install, make_permanent, reboot, restore};
use crate::undo::ReleasesUndo;
use release_table::Release;
use std::alloc::AllocError;
use values::{Failure, Row};

impl Releases {
    ghost use Rattle.values.specs.Failure.{TellsFailure};
    ghost use Rattle.values.specs.declared.failure.Failure.TheVariants.{Memory};
    ghost use Rattle.release_statuses.specs.Statuses.{installed, made_permanent, permanent_refusal, index_of, reboot_refusal};
    ghost use Rattle.release_statuses.specs.Statuses.{rebooted, remove_refusal, removed, restarted, unpack_refusal, unpacked};
    ghost use Rattle.release_statuses.specs.Undo.{Fits, IsRemoval, TakesBack, undone};

    /// Sets a release unpacked: it goes last.
    ///
    /// # Errors
    ///
    /// What [`Releases::unpack_refusal`] says, and else `Memory`. The releases are then as they were; the release is dropped.
    pub fn set_unpacked(&mut self, release: Release) -> Result<ReleasesUndo, Failure<RelError>>
        ensures ok { OnOk result (self.new ≡ unpacked release self.old) }
        ensures unrefused { OnOk result (unpack_refusal release.rel.vsn self.old ≡ None) }
        ensures takes_back { IfOk result (λ undo. TakesBack undo self.old self.new) }
        ensures refused { IfErr result (λ e. TellsFailure e (unpack_refusal release.rel.vsn self.old)) }
        ensures err { OnErr result (self.new ≡ self.old) }
    {
        if let Some(refusal) = self.unpack_refusal(release.rel.vsn.as_str()) {
            return Err(Failure::Refused(refusal));
        }
        let it = Listed {
            release,
            status: Status::Unpacked,
        };
        self.table.push(self.alloc, it)?;
        Ok(ReleasesUndo::Added)
    }

    /// Removes the release of a version, which is not permanent. Takes no memory.
    ///
    /// # Errors
    ///
    /// What [`Releases::remove_refusal`] says. The releases are then as they were.
    pub fn remove(&mut self, vsn: &str) -> Result<ReleasesUndo, Failure<RelError>>
        ensures ok { OnOk result (self.new ≡ removed (chars vsn.now) self.old) }
        ensures unrefused { OnOk result (remove_refusal (chars vsn.now) self.old ≡ None) }
        ensures takes_back { IfOk result (λ undo. TakesBack undo self.old self.new) }
        ensures refused { IfErr result (λ e. TellsFailure e (remove_refusal (chars vsn.now) self.old)) }
        ensures memory { IfErr result (λ e. e ≢ Memory) }
        ensures err { OnErr result (self.new ≡ self.old) }
    {
        if let Some(refusal) = self.remove_refusal(vsn) {
            return Err(Failure::Refused(refusal));
        }
        match self.table.index_of(vsn) {
            Some(index) => Ok(ReleasesUndo::Removed(index, self.table.take_out(index))),
            None => Err(Failure::Refused(RelError::NoSuchRelease)),
        }
    }

    /// An install of the release of a version is finished: what was current is old, and the release is current, or stays
    /// permanent.
    ///
    /// # Errors
    ///
    /// `AllocError` where memory is refused. The releases are then as they were.
    pub fn installed(&mut self, vsn: &str) -> Result<ReleasesUndo, AllocError>
        requires { IsSome (index_of (chars vsn.now) self.old) }
        ensures ok { OnOk result (self.new ≡ installed (chars vsn.now) self.old) }
        ensures takes_back { IfOk result (λ undo. TakesBack undo self.old self.new) }
        ensures statuses { IfOk result (λ undo. IsRemoval undo → ⊥) }
        ensures err { OnErr result (self.new ≡ self.old) }
    {
        let former = statuses(self.alloc, self.table.as_slice())?;
        install(&mut self.table, vsn);
        Ok(ReleasesUndo::Statuses(Row::new(former)))
    }

    /// Makes the release of a version permanent, which is current: what was permanent is old. Of a permanent one nothing
    /// changes.
    ///
    /// # Errors
    ///
    /// What [`Releases::permanent_refusal`] says, and else `Memory`. The releases are then as they were.
    pub fn make_permanent(&mut self, vsn: &str) -> Result<ReleasesUndo, Failure<RelError>>
        ensures ok { OnOk result (self.new ≡ made_permanent (chars vsn.now) self.old) }
        ensures unrefused { OnOk result (permanent_refusal (chars vsn.now) self.old ≡ None) }
        ensures takes_back { IfOk result (λ undo. TakesBack undo self.old self.new) }
        ensures statuses { IfOk result (λ undo. IsRemoval undo → ⊥) }
        ensures refused { IfErr result (λ e. TellsFailure e (permanent_refusal (chars vsn.now) self.old)) }
        ensures err { OnErr result (self.new ≡ self.old) }
    {
        if let Some(refusal) = self.permanent_refusal(vsn) {
            return Err(Failure::Refused(refusal));
        }
        let former = statuses(self.alloc, self.table.as_slice())?;
        make_permanent(&mut self.table, vsn);
        Ok(ReleasesUndo::Statuses(Row::new(former)))
    }

    /// The node restarts with the release of a version, which is old: it is permanent, and what was permanent or current is
    /// old.
    ///
    /// # Errors
    ///
    /// What [`Releases::reboot_refusal`] says, and else `Memory`. The releases are then as they were.
    pub fn reboot_old(&mut self, vsn: &str) -> Result<ReleasesUndo, Failure<RelError>>
        ensures ok { OnOk result (self.new ≡ rebooted (chars vsn.now) self.old) }
        ensures unrefused { OnOk result (reboot_refusal (chars vsn.now) self.old ≡ None) }
        ensures takes_back { IfOk result (λ undo. TakesBack undo self.old self.new) }
        ensures statuses { IfOk result (λ undo. IsRemoval undo → ⊥) }
        ensures refused { IfErr result (λ e. TellsFailure e (reboot_refusal (chars vsn.now) self.old)) }
        ensures err { OnErr result (self.new ≡ self.old) }
    {
        if let Some(refusal) = self.reboot_refusal(vsn) {
            return Err(Failure::Refused(refusal));
        }
        let former = statuses(self.alloc, self.table.as_slice())?;
        reboot(&mut self.table, vsn);
        Ok(ReleasesUndo::Statuses(Row::new(former)))
    }

    /// The node restarts with the permanent release: what was current is old.
    ///
    /// # Errors
    ///
    /// `AllocError` where memory is refused. The releases are then as they were.
    pub fn restarted(&mut self) -> Result<ReleasesUndo, AllocError>
        ensures ok { OnOk result (self.new ≡ restarted self.old) }
        ensures takes_back { IfOk result (λ undo. TakesBack undo self.old self.new) }
        ensures statuses { IfOk result (λ undo. IsRemoval undo → ⊥) }
        ensures err { OnErr result (self.new ≡ self.old) }
    {
        let former = statuses(self.alloc, self.table.as_slice())?;
        change_status(&mut self.table, Status::Current, Status::Old);
        Ok(ReleasesUndo::Statuses(Row::new(former)))
    }

    /// Takes the newest change back. Memory is asked for only where a release comes back to the list.
    ///
    /// # Errors
    ///
    /// The undo, where memory is refused. The releases are then as they were.
    pub fn revert(&mut self, undo: ReleasesUndo) -> Result<(), ReleasesUndo>
        requires { Fits undo self.old }
        ensures ok { OnOk result (self.new ≡ undone undo self.old) }
        ensures back { IfErr result (λ it. it ≡ undo) }
        ensures removal { OnErr result (IsRemoval undo) }
        ensures err { OnErr result (self.new ≡ self.old) }
    {
        match undo {
            ReleasesUndo::Added => {
                self.table.pop();
                Ok(())
            }
            ReleasesUndo::Removed(index, taken) => match self.table.put_back(index, taken) {
                Ok(()) => Ok(()),
                Err(taken) => Err(ReleasesUndo::Removed(index, taken)),
            },
            ReleasesUndo::Statuses(former) => {
                restore(&mut self.table, former.as_slice());
                Ok(())
            }
        }
    }
}

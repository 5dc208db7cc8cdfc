// One direction between two releases.
ghost use Rattle.std.specs.Prelude.{◌≡◌, MatchOption, false, true, option_and_then, slice_get};
ghost use Rattle.std.specs.Option.{option_copied};
ghost use Rattle.relup_make.specs.Releases.{has_app};
ghost use Rattle.relup_make.specs.Ways.{IsChangedFrom, way_of};
ghost use Rattle.relup_make.specs.Work.{appup_of, entry_of, is_changed, source, target};

use crate::release::Release;
use erl_term::Atom;
use otp_files::{Appup, AppupEntry, Direction, Version};
use values::Same;

/// One direction between an old release and a new one: up goes from the old to the new, down back.
#[derive(Drop)]
pub(crate) struct Way<'a> {
    /// Which way.
    pub(crate) direction: Direction,
    /// The old release.
    pub(crate) old: &'a Release<'a>,
    /// The new release.
    pub(crate) new: &'a Release<'a>,
    /// The appups of the new release's applications, in their order.
    pub(crate) appups: &'a [Option<Appup>],
}

impl<'a> Way<'a> {
    /// One direction between these releases. Takes no memory.
    pub(crate) fn new(
        direction: Direction,
        old: &'a Release<'a>,
        new: &'a Release<'a>,
        appups: &'a [Option<Appup>],
    ) -> Way<'a>
        ensures { way_of result ≡ record {
          direction = direction;
          old = old.now.whole.now;
          new = new.now.whole.now;
          appups =
              appups.now;
        } }
    {
        Way {
            direction,
            old,
            new,
            appups,
        }
    }

    /// Where it begins. Takes no memory.
    pub(crate) fn source(&self) -> &'a Release<'a>
        ensures { result.now.whole.now ≡ source (way_of self.now) }
    {
        match self.direction {
            Direction::Up => self.old,
            Direction::Down => self.new,
        }
    }

    /// Where it leads. Takes no memory.
    pub(crate) fn target(&self) -> &'a Release<'a>
        ensures { result.now.whole.now ≡ target (way_of self.now) }
    {
        match self.direction {
            Direction::Up => self.new,
            Direction::Down => self.old,
        }
    }

    /// The old version and the new one of an application that is in both releases with different versions. Takes no
    /// memory.
    pub(crate) fn versions(&self, name: &Atom) -> Option<(&'a Version, &'a Version)>
        ensures { MatchOption result (is_changed (way_of self.now) name.now ≡ false)
            (λ v. IsChangedFrom (way_of self.now) name.now v.0.now v.1.now) }
    {
        match (self.old.spec(name), self.new.spec(name)) {
            (Some(old), Some(new)) if !old.vsn.same(&new.vsn) => Some((&old.vsn, &new.vsn)),
            (_, _) => None,
        }
    }

    /// The appup of an application of the new release, if it has one. Takes no memory.
    pub(crate) fn appup(&self, name: &Atom) -> Option<&'a Appup>
        ensures { option_copied result ≡ appup_of (way_of self.now) name.now }
    {
        match self.new.index_of(name) {
            Some(index) => self.appup_at(index),
            None => None,
        }
    }

    /// The appup at an index, if there is one. Takes no memory.
    fn appup_at(&self, index: usize) -> Option<&'a Appup>
        ensures { option_copied result ≡ option_and_then (λ appup. appup) (slice_get self.now.appups.now index) }
    {
        match self.appups.get(index) {
            Some(appup) => appup.as_ref(),
            None => None,
        }
    }

    /// The entry for an application of the old release, if it has one. Takes no memory.
    pub(crate) fn entry(&self, name: &Atom) -> Option<&'a AppupEntry>
        requires { has_app name.now self.now.old.now.whole.now ≡ true }
        ensures { option_copied result ≡ entry_of (way_of self.now) name.now }
    {
        let old = self.old.spec(name)?;
        let appup = self.appup(name)?;
        match self.direction {
            Direction::Up => appup.up_from(&old.vsn),
            Direction::Down => appup.down_to(&old.vsn),
        }
    }
}

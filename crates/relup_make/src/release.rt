// A release whose applications are found by name.
ghost use Rattle.std.specs.Prelude.{◌≡◌, IfOk};
ghost use Rattle.std.specs.Option.{option_copied};
ghost use Rattle.relup_make.specs.Indexes.{index_of};
ghost use Rattle.relup_make.specs.Releases.{has_app, modules_in, spec_named, start_type_in};
ghost use Rattle.relup_make.specs.Work.{names_of};

use crate::names::Names;
use crate::rel_apps::RelApps;
use erl_term::Atom;
use otp_files::{AppSpec, StartType};
use std::alloc::{AllocError, Global};
use values::{Duplicate, Row};

/// A release whose applications are found by name.
#[derive(Drop)]
pub(crate) struct Release<'a> {
    /// The release.
    pub(crate) whole: &'a RelApps,
    names: Names,
    ghost named: { names ≡ names_of whole.now.apps },
}

impl<'a> Release<'a> {
    /// This release.
    ///
    /// # Errors
    ///
    /// `AllocError` where memory is refused.
    pub(crate) fn new(alloc: Global, whole: &'a RelApps) -> Result<Release<'a>, AllocError>
        ensures { IfOk result (λ release. release.whole.now ≡ whole.now) }
    {
        let names = Names::new(alloc, names_of(alloc, whole.apps.as_slice())?)?;
        Ok(Release { whole, names })
    }

    /// The index of an application, if it is there. Takes no memory.
    pub(crate) fn index_of(&self, name: &Atom) -> Option<usize>
        ensures { result ≡ index_of 0 name.now (names_of self.now.whole.now.apps) }
    {
        self.names.index_of(name)
    }

    /// An application, if it is there. Takes no memory.
    pub(crate) fn spec(&self, name: &Atom) -> Option<&'a AppSpec>
        ensures { option_copied result ≡ spec_named name.now self.now.whole.now.apps }
    {
        match self.index_of(name) {
            Some(index) => self.whole.apps.as_slice().get(index),
            None => None,
        }
    }

    /// Whether an application is there. Takes no memory.
    pub(crate) fn has(&self, name: &Atom) -> bool
        ensures { result ≡ has_app name.now self.now.whole.now }
    {
        self.spec(name).is_some()
    }

    /// An application's modules; none, where it is not there. Takes no memory.
    pub(crate) fn modules(&self, name: &Atom) -> &'a [Atom]
        ensures { result.now ≡ modules_in name.now self.now.whole.now }
    {
        match self.spec(name) {
            Some(spec) => spec.modules.as_slice(),
            None => &[],
        }
    }

    /// How the release starts an application. Takes no memory.
    pub(crate) fn start_type(&self, name: &Atom) -> StartType
        ensures { result ≡ start_type_in name.now self.now.whole.now }
    {
        match self.whole.rel.apps.get(name) {
            Some(app) => app.start_type,
            None => StartType::Permanent,
        }
    }
}

/// The names of applications.
fn names_of(alloc: Global, apps: &[AppSpec]) -> Result<Row<Atom>, AllocError>
    ensures { IfOk result (λ names. names ≡ names_of apps.now) }
{
    let mut names = Vec::with_capacity(alloc, apps.len())?;
    for app in apps {
        names.push(app.name.copy(alloc)?)?;
    }
    Ok(Row::new(names))
}

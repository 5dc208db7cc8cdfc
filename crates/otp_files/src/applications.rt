// The applications of a release.
ghost use Rattle.std.specs.Prelude.{◌≡◌, true, false, IfOk, MatchOption};
ghost use Rattle.std.specs.Option.{option_copied};
ghost use Rattle.otp_files.specs.Distinct.{are_distinct, app_names, app_named, FindsFrom};

use erl_term::Atom;
use release_words::{StartType, Version};
use std::alloc::{AllocError, Global};
use std::collections::BTreeMap;
use std::marker::Model;
use values::{Duplicate, Row, Same};

/// An application of a release.
#[derive(Drop)]
pub struct RelApp {
    /// The application's name.
    pub name: Atom,
    /// Its version.
    pub vsn: Version,
    /// How it is started; by default `permanent`.
    pub start_type: StartType,
    /// The applications that it includes, where the release says so.
    pub included: Option<Row<Atom>>,
}

/// The applications of a release, in order: none of them twice.
#[derive(Drop)]
pub struct Applications {
    items: Row<RelApp>,
    indices: BTreeMap<String, usize>,
}

impl Model for Applications {
    ghost use Rattle.std.specs.Prelude.{◌≡◌, List, true};
    ghost use Rattle.otp_files.specs.declared.applications.RelApp.{RelApp};
    ghost use Rattle.otp_files.specs.Distinct.{are_distinct, app_names, FindsFrom};

    ghost Value = { List RelApp };

    ghost view = { λ a. a.items };

    ghost invariant = { λ a. (are_distinct (app_names a.items) ≡ true) × FindsFrom 0 a.indices a.items };
}

impl Applications {
    /// These applications, where none has the name of another.
    ///
    /// # Errors
    ///
    /// `AllocError` where memory is refused.
    pub fn new(alloc: Global, items: Vec<RelApp>) -> Result<Option<Applications>, AllocError>
        ensures { IfOk result (λ found. MatchOption found (are_distinct (app_names items.items) ≡ false)
            (λ apps. (apps ≡ items.items) × (are_distinct (app_names items.items) ≡ true))) }
    {
        let (indices, is_each_once) = index(alloc, items.as_slice())?;
        if !is_each_once {
            return Ok(None);
        }
        let items = Row::new(items);
        Ok(Some(Applications { items, indices }))
    }

    /// The applications, in order. Takes no memory.
    pub fn as_slice(&self) -> &[RelApp]
        ensures items { result.now ≡ self.now }
        ensures distinct { are_distinct (app_names self.now) ≡ true }
    {
        self.items.as_slice()
    }

    /// The application of a name, if it is there, found by key. Takes no memory.
    pub fn get(&self, name: &Atom) -> Option<&RelApp>
        ensures { option_copied result ≡ app_named name.now self.now }
    {
        match self.indices.get(name.as_str()) {
            Some(index) => self.as_slice().get(*index),
            None => None,
        }
    }
}

/// The index of the first application of each name, and whether no name stands twice. Names are told apart by their order:
/// whoever picks them can make them collide under a hasher that everybody knows.
fn index(alloc: Global, items: &[RelApp]) -> Result<(BTreeMap<String, usize>, bool), AllocError>
    ensures indices { IfOk result (λ found. FindsFrom 0 found.0 items.now) }
    ensures is_each_once { IfOk result (λ found. found.1 ≡ are_distinct (app_names items.now)) }
{
    let mut indices = BTreeMap::new(alloc);
    let mut is_each_once = true;
    for index in (0..items.len()).rev() {
        let name = String::from_str(alloc, items[index].name.as_str())?;
        if indices.insert(name, index)?.is_some() {
            is_each_once = false;
        }
    }
    Ok((indices, is_each_once))
}

impl Same for RelApp {
    fn same(&self, other: &RelApp) -> bool {
        self.name.same(&other.name)
            && self.vsn.same(&other.vsn)
            && self.start_type.same(&other.start_type)
            && self.included.same(&other.included)
    }
}

impl Duplicate for RelApp {
    fn copy(&self, alloc: Global) -> Result<RelApp, AllocError> {
        Ok(RelApp {
            name: self.name.copy(alloc)?,
            vsn: self.vsn.copy(alloc)?,
            start_type: self.start_type.copy(alloc)?,
            included: self.included.copy(alloc)?,
        })
    }
}

impl Same for Applications {
    fn same(&self, other: &Applications) -> bool {
        self.items.same(&other.items)
    }
}

impl Duplicate for Applications {
    fn copy(&self, alloc: Global) -> Result<Applications, AllocError> {
        let items = self.items.copy(alloc)?;
        let (indices, _) = index(alloc, items.as_slice())?;
        Ok(Applications { items, indices })
    }
}

// Names and where they stand.
ghost use Rattle.std.specs.Prelude.{◌≡◌, ◌↔◌, Some, IfOk, IsTrue};
ghost use Rattle.std.specs.List.{list_any};
ghost use Rattle.std.specs.Str.{bytes_eq};
ghost use Rattle.relup_make.specs.Indexes.{FindsFrom, index_of};
ghost use Rattle.relup_make.specs.Scripts.{each_once};

use erl_term::Atom;
use std::alloc::{AllocError, Global};
use std::collections::BTreeMap;
use std::marker::Model;
use values::{Duplicate, Row};

/// A list of names whose indices are found by key.
#[derive(Drop)]
pub(crate) struct Names {
    items: Row<Atom>,
    indices: BTreeMap<String, usize>,
}

impl Model for Names {
    ghost use Rattle.std.specs.Prelude.{ℕ, List};
    ghost use Rattle.relup_make.specs.Indexes.{FindsFrom};

    ghost Value = { List (List ℕ) };

    ghost view = { λ a. a.items };

    ghost invariant = { λ a. FindsFrom 0 a.indices a.items };
}

impl Names {
    /// These names.
    ///
    /// # Errors
    ///
    /// `AllocError` where memory is refused.
    pub(crate) fn new(alloc: Global, items: Row<Atom>) -> Result<Names, AllocError>
        ensures { IfOk result (λ names. names ≡ items) }
    {
        let indices = index(alloc, items.as_slice())?;
        Ok(Names { items, indices })
    }

    /// The names, in order. Takes no memory.
    pub(crate) fn as_slice(&self) -> &[Atom]
        ensures { result.now ≡ self.now }
    {
        self.items.as_slice()
    }

    /// The first index of a name. Takes no memory.
    pub(crate) fn index_of(&self, name: &Atom) -> Option<usize>
        ensures { result ≡ index_of 0 name.now self.now }
    {
        self.indices.get(name.as_str()).copied()
    }

    /// Whether a name stands first at an index. Takes no memory.
    pub(crate) fn is_first_at(&self, name: &Atom, index: usize) -> bool
        ensures { IsTrue result ↔ (index_of 0 name.now self.now ≡ Some index) }
    {
        match self.index_of(name) {
            Some(first) => first == index,
            None => false,
        }
    }

    /// Whether a name is one of these. Takes no memory.
    pub(crate) fn has(&self, name: &Atom) -> bool
        ensures { result ≡ list_any (λ other. bytes_eq other name.now) self.now }
    {
        self.index_of(name).is_some()
    }
}

/// The first index of each name. Names are told apart by their order: whoever picks them can make them collide under a
/// hasher that everybody knows.
fn index(alloc: Global, items: &[Atom]) -> Result<BTreeMap<String, usize>, AllocError>
    ensures { IfOk result (λ indices. FindsFrom 0 indices items.now) }
{
    let mut indices = BTreeMap::new(alloc);
    for index in (0..items.len()).rev() {
        let name = String::from_str(alloc, items[index].as_str())?;
        indices.insert(name, index)?;
    }
    Ok(indices)
}

/// Each name once, where it stands first.
///
/// # Errors
///
/// `AllocError` where memory is refused.
pub(crate) fn each_once(alloc: Global, items: Row<Atom>) -> Result<Row<Atom>, AllocError>
    ensures { IfOk result (λ names. names ≡ each_once items) }
{
    let names = Names::new(alloc, items)?;
    let items = names.as_slice();
    let mut firsts = Vec::new(alloc);
    for i in 0..items.len() {
        let name = &items[i];
        if names.is_first_at(name, i) {
            firsts.push(name.copy(alloc)?)?;
        }
    }
    Ok(Row::new(firsts))
}

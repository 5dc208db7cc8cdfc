// What takes a change back, and what makes it again.
use crate::modules::{Instance, Slots};
use erl_term::Atom;
use release_words::Purge;

/// What takes one change of the table back: what the change took away, and where. Indices are counted
/// from 0, in the table's order. With purged old code is how it was to be purged later, if a script had left it.
#[derive(Drop)]
pub enum ModulesUndo<C> {
    /// Nothing was changed.
    Nothing,
    /// A load put a new module last.
    Added,
    /// A load of the module at this index made its current code old.
    Stacked(usize),
    /// A load of the module at this index made its current code old, and purged this old code.
    Replaced(usize, Instance<C>, Option<Purge>),
    /// A load of the module that stood at this index with this old code alone purged that, and put the
    /// module last.
    Moved(usize, Instance<C>, Option<Purge>),
    /// A delete of the module at this index made its current code old.
    Retired(usize),
    /// A removal of the module at this index made its current code old, and purged this old code.
    Demoted(usize, Instance<C>, Option<Purge>),
    /// The module at this index lost this old code.
    Purged(usize, Instance<C>, Option<Purge>),
    /// The module with this name stood at this index, and left the table with this old code, its last.
    Removed(usize, Atom, Instance<C>, Option<Purge>),
}

/// What makes a change of the table that has purged old code again, once it was taken back: what the take-back took away,
/// and where. Indices are counted from 0, in the table's order. [`Modules::unpurge`](crate::Modules::unpurge) alone makes it.
#[derive(Drop)]
pub enum Redo<C> {
    /// A load makes the current code of the module at this index old, and purges its old code. The instance is the load's,
    /// which is current again; the code that it makes old is purged later so.
    Replace(usize, Option<Instance<C>>, Option<Purge>),
    /// A removal makes the current code of the module at this index old, and purges its old code. The instance is what the
    /// removal left for current code: none; the code that it makes old is purged later so.
    Demote(usize, Option<Instance<C>>, Option<Purge>),
    /// A load of the module at this index, which has old code alone, purges that, and puts the module last. The instances
    /// are those that the load left it with.
    Move(usize, Slots<C>),
    /// The module at this index loses its old code. What the purge left for old code is with it: none, which is not purged
    /// later.
    Purge(usize, Option<Instance<C>>, Option<Purge>),
    /// The module at this index leaves the table with its old code, its last.
    Remove(usize),
}

//! The code server: which code of each module is current, and which is old.
//!
//! As in Erlang/OTP, a module may have two instances of its code: a load makes the new one current and
//! the former current one old; a third load asks that old code be purged first (Erlang Reference Manual,
//! Compilation and Code Loading). Each load has a serial, from 1 on. Old code has a note of how it is purged later, if a script
//! has left it (appup(4), PostPurge).
//!
//! [`Modules`] is the table, first loaded first. Each change hands out a [`ModulesUndo`], by which
//! [`Modules::revert`] takes the newest change back, whole: instances, how old code is purged later, the module's index in the
//! table, the serial of the next load. One that has purged old code can be taken back so that it can be made again without
//! memory: [`Modules::unpurge`] hands out a [`Redo`] for [`Modules::redo`].
//!
//! Contracts see a `Modules<C>` as a `Table C`: the entries (name, instances) in order, and the next
//! serial.
//!
//! # What a look-up costs
//!
//! A module is found by key, in a time that does not grow with the table; names are hashed by keys that nobody outside knows.
//! [`Modules::find`] does so by the text of the name, and no atom is made for that.
//!
//! # What is proved
//!
//! - Each change makes of the table what its definition says, is refused in the order that it says, and leaves the table
//!   as it was where it is refused. `purge`, `purge_and_load` and `remove` of a module with old code hand out the undo of a
//!   purge.
//! - A load or a removal says how the code that it makes old is purged later; a purge takes that away with the code, and its
//!   undo brings both back. Nothing is purged later of a module that has no old code (`NotesOldCode`).
//! - An undo holds the old code that its change has purged, and no other instance (`held`).
//! - [`Modules::revert`] and [`Modules::unpurge`] give the table before the change, or, where a module comes back to the
//!   table and memory is refused, their undo, with the table as it was.
//! - [`Modules::emptied`] has no module, and gives the serials that follow.
//! - [`Modules::redo`] gives exactly the table that the change led to, and the undo that takes it back; it cannot fail.
#![tactic(auto)]

mod error;
mod indices;
mod modules;
mod undo;

pub use error::CodeError;
pub use modules::{Instance, Modules, Slots};
pub use undo::{ModulesUndo, Redo};

//! Entries in order, as a history keeps them, and what is found in them.
//!
//! [`Entries`] are a list that grows at its end. Idle entries that say the same, one after another, are kept as one [`Run`]: one
//! worker alone that finds nothing to do fills no memory, however long it looks.
//!
//! A [`History`] is such a list whose entries bring replies to clients ([`Replying`]). It tells a client its replies from any
//! index on ([`History::replies`]), at the cost of what came since it was last asked and of what it hands out, never of the
//! whole history.
//!
//! # What is proved
//!
//! - Contracts see both as the list of all entries, each repeat written out: an entry is put behind the others, and
//!   none is lost.
//! - A run counts its entry once or more, and more than once only where it is idle.
//! - The replies that a client is told are those to it in all entries, in order, from the index on. Where memory is refused, the
//!   history is as it was.
//!
//! What a call costs, no contract says, nor that the next call goes on where one was refused memory.
#![tactic(auto)]

mod entries;
mod found;
mod history;
mod replying;
mod written_out;

pub use entries::{Entries, Repeats, Run};
pub use history::History;
pub use replying::Replying;
pub use written_out::WrittenOut;

//! Lists that are mostly short, in what takes a step back: the journal keeps such a record for each step.
//!
//! A [`Few`] keeps up to `N` items in itself, and more in memory of their own. So a record whose lists are short takes no
//! memory beside its own. It is filled as a `SmallVec`, from the first item on, and closed by [`Few::new`]: one that is made
//! from a `Vec` has had its memory already. `N` items count in the size of each record, used or not, so they are few and
//! small; how many there are in each list is chosen by counting.
//!
//! # What is proved
//!
//! A contract sees the items alone, in order, as it does of a `Row` of the crate `values`. They are those that the list was
//! made from.
//!
//! # What no contract says
//!
//! Whether the items lie in the list or in memory of their own, and that neither function asks for memory.
#![tactic(auto)]

mod few;

pub use few::Few;

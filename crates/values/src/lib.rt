//! What every crate above compares, copies, fails by, and keeps memory for.
//!
//! A contract says that two values are equal by `≡`, which looks at the whole value. A bare `Vec` or
//! `Arc` is more than its items there: it has a capacity, an address and an allocator. [`Row`] and
//! [`Shared`] are seen by contracts as the items and the value alone, so they can be compared and
//! copied by value; [`Same`] and [`Duplicate`] are those two operations. The integers of up to 64 bits,
//! `bool` and `()` have both, and so have `Option`, pairs, [`Row`] and [`Shared`] over such types.
//!
//! A step that can't be given up half-way asks for all its memory before its first change: [`Reserved::new`] asks for the
//! memory of one value, and [`Reserved::fill`] puts the value there without asking for more. [`Boxed::open`] takes it out,
//! and keeps the memory for it or for the next one. What holds a large value but seldom, such as a variant of an enum,
//! holds so one word in its place. Contracts see a [`Boxed`] as its value alone; that a value is moved once, into its
//! memory or out of it, none says.
//!
//! A call that needs memory fails by a [`Failure`]: with the refusal of a rule, or for lack of memory, which is no refusal.
//!
//! Some bodies have no wrong neighbour: [`same_slices`] may compare the two slices in either order, for
//! equality is symmetric; a copy of `()` can only be `()`; and of a shared value or a pair of which
//! nothing but its type is known, a body has nothing else to give than what it was given.
#![tactic(auto)]

mod duplicate;
mod failure;
mod plain;
mod reserved;
mod row;
mod same;
mod shared;

pub use duplicate::{Duplicate, copied_slice};
pub use failure::Failure;
pub use reserved::{Boxed, Reserved};
pub use row::Row;
pub use same::{Same, same_slices};
pub use shared::Shared;

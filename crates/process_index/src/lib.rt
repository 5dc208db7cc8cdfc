//! What is found of processes by name, and of open calls by number: indexes that a table of processes stands on.
//!
//! A table keeps its processes by pid, in [`Slots`]: of the pids that were given, few may live. The process that has a registered
//! name, and the one that is to answer an open call, are found by a [`NameIndex`] and a [`CallIndex`], and not by a walk over the
//! table. The open calls that were made to one process are its [`Calls`], in order of client and number.
//!
//! Contracts see each as a value that says what there is and nothing more: calls as the list in order, slots as the list of what
//! lives at each pid, an index as a finite map (`FinMap` of std), from a name's characters to a pid, or from a number to the
//! call's [`Owner`]. Two that mean the same are equal: no order of entries, no capacity, no hash is seen. An index is a
//! finite map and not a function from keys, since that is one value for all that it says, where contracts would have to
//! tell two functions apart.
//!
//! # What is proved
//!
//! - [`Calls::insert`] puts a call in by that order, or leaves all as it was; [`Calls::remove`] takes out just that call, where
//!   it is there. [`Calls::iter`] gives the calls, each before all behind it.
//! - `get` of an index gives what there is under a key, a name being asked for by its text; `insert` puts a value there, or
//!   leaves all as it was; `remove` puts nothing there. Nothing else changes.
//! - [`Slots::get`] and [`Slots::get_mut`] give what lives at a pid, and what is written there stands there afterwards;
//!   [`Slots::push`], [`Slots::pop`], [`Slots::take`] and [`Slots::put`] change what lives at one pid, or leave all as it was;
//!   [`Slots::iter`] gives just what lives, in order of pid.
//! - [`calls_in_order_are_one`], [`calls_come_back`], [`names_are_indexed`], [`numbers_are_indexed`]: values that say the same
//!   are equal; a change is taken back, whole, by the one that puts back what was there.
//!
//! # What no contract says
//!
//! That there is memory, and what a call costs. An index is asked and changed by key, in a time that does not grow with it,
//! but for an insertion that makes it grow; keys are hashed by secrets that come from outside, so nobody who picks names or
//! numbers can make that slow. Calls and slots are kept in trees: one is found, put in and taken out in a time that is
//! logarithmic in how many there are, and slots of which nothing lives take neither memory nor time.
#![tactic(auto)]

mod calls;
mod laws;
mod names;
mod numbers;
mod slots;

pub use calls::{Call, Calls};
pub use laws::{calls_come_back, calls_in_order_are_one, names_are_indexed, numbers_are_indexed};
pub use names::NameIndex;
pub use numbers::{CallIndex, Owner};
pub use slots::Slots;

//! A set of numbers, in order: which of the numbers from 0 on, that are given one after another, are in it.
//!
//! What waits for its turn is found by it: of all that stand in a row, and may be many, those that can go on are few, and the
//! next of them is asked for at each step. It is looked up, and not searched for.
//!
//! # What is proved
//!
//! - [`ReadySet::next`] gives the least number of the set from a given one on, or none where there is none, and
//!   [`ReadySet::contains`] tells of a number whether it is in the set.
//! - [`ReadySet::set`] changes the flag of one number and no other; [`ReadySet::push`] puts a number behind the others, and
//!   [`ReadySet::prepend`] numbers before them, or they leave all as it was; [`ReadySet::pop`] takes the last one away.
//!
//! # How
//!
//! The numbers are the leaves of a binary tree that stands in one list (`tree`): the root at 1, below node k the nodes 2k and
//! 2k + 1. A node is marked where one of the two below it is, and so where a number below it is in the set. A change mends the
//! nodes above its leaf. The next number is found by a way up from a leaf, and to the right, to the first marked node, and down
//! from there to the first marked leaf below it. Where all leaves are given, one more number doubles the tree.
//!
//! # What no contract says
//!
//! That there is memory, and what a call costs. It goes up and down the levels of the tree: `next`, `set` and `pop` take a time
//! that is logarithmic in how many numbers there are. So does `push`, but where it doubles the tree, in a time that is linear in it.
//! That, and `prepend`, which makes the tree anew, take memory, before anything is changed: about four bytes for a number at
//! most. Numbers that are popped give none back, and take none when they are pushed again. On the machine where it was written,
//! `next` took 0.09 µs in a set of 100,000 numbers of which the last one alone was in it, and 0.01 µs in one of ten; `set` took
//! 0.02 µs.
#![tactic(auto)]

mod set;
mod tree;

pub use set::ReadySet;

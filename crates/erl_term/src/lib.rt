//! Erlang terms, their order and their text.
//!
//! A [`Term`] is an integer, an atom, a process identifier, a tuple or a proper list. Contracts see it as
//! a `Tree`: `tree` is the tree of a term, and `trees` the row of trees of terms in a row. A tuple's or a
//! list's elements are [`Terms`], which contracts see as such a row already. Rows and atoms have any number of owners, who
//! share them.
//!
//! # What is proved
//!
//! - [`Atom::new`] gives the atom of exactly the text's characters, or `AtomTooLong` exactly where there
//!   are over 255; [`Atom::predefined`] gives one that the program names itself.
//!   A text stands for the atom that it spells where atoms are keys (`indexmap::Equivalent`).
//! - [`Term::depth`] and [`Term::size`] are those of the tree, up to `2^64 - 1`, and [`Term::is_within`] says of any bounds
//!   below `2^32` whether they hold.
//! - [`Terms::rest`] is the row behind the first term, [`Terms::joined`] is terms and a row behind them, and
//!   [`Terms::into_vec`] gives just the terms that are seen, whoever else owns the row.
//! - `Ord` is the order of the Erlang Reference Manual (Term Comparisons), total, and equal exactly for
//!   equal terms. `Same` decides equality, and `Duplicate` gives an equal term.
//! - [`print`] appends exactly the bytes of the term's text, and leaves the output as it was where memory
//!   is refused; [`print_atom`] does so of an atom, [`print_list`] of the list of terms that stand in two rows, and
//!   [`print_string`] of the list of a text's characters.
//! - [`Term::has_pids`] tells whether a process identifier stands in the term, and [`Term::is_readable`] whether none
//!   does and the term is nested at most 256 deep: the crate `erl_consult` proves that its text is then read back.
//! - The accessors ([`Term::as_int`] and its neighbours, [`first`], [`one`] to [`four`], [`string`],
//!   [`character`]) answer exactly where the term is what they read, and with exactly that.
//! - A list is read as a row of values exactly where each element is one, a tuple of two or three as values likewise;
//!   a row is written as the list of what is written of each, and so are two or three values as a tuple ([`FromTerm`] and
//!   [`ToTerm`], which crates above give their values too).
//!
//! # What no contract says
//!
//! That there is memory, and what a call costs. A copy of a term, a row or an atom, [`Terms::rest`], and what is asked of
//! depth and size take the same time and no memory but a count, whatever the term; but for a `rest` that goes past the
//! last of a row's deepest terms, or past more than can be counted ([`Terms::rest`]), which copies what is left, each
//! term by sharing. A row is made in the time of its own terms: [`Terms::joined`] asks those in front for depth and size, and
//! shares those behind them one by one. A predefined atom takes neither time nor memory. Comparing, ordering and printing
//! are linear in the terms; printing takes no memory but the output's, and none where that has room. So a
//! `rest` that never shares and a row that keeps room that it does not need would be proved too; `bench/terms/measure` sees
//! them.
//!
//! Comparing, ordering, printing and dropping recurse as deep as the term and no deeper: a caller that takes terms from
//! outside bounds their depth first. On a stack of 8 MB the tests copy, compare, order, measure, print and drop a term of
//! depth 1,024.
#![tactic(auto)]

mod accessors;
mod atom;
mod conversions;
mod predefined;
mod printing;
mod spelling;
mod strings;
mod term;

pub use accessors::{character, first, four, one, string, three, two};
pub use atom::{Atom, AtomError};
pub use conversions::{FromTerm, ToTerm};
pub use predefined::Predefined;
pub use printing::{print, print_atom, print_list, print_string};
pub use term::{Term, Terms};

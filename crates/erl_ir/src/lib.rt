//! A module of Erlang as a value, as its source says.
//!
//! A [`Module`] has a name, the term of its attribute `-vsn`, where it has one, and functions in the order of the source. A
//! [`Function`] is found by its name and its number of arguments, is exported or not, and is defined by clauses, or by one
//! clause whose body is one `receive` ([`Definition`]). What clauses are made of are [`Pattern`]s and [`Expression`]s: rows
//! of them are [`Patterns`], [`Expressions`], [`Guard`] and [`Clauses`], and a body is a row too. Blanks, comments and offsets
//! of the source are no part of a module.
//!
//! Contracts see a row as a `Pats`, `Exprs`, `Guards` or `Clauses` of `specs/`, and a module as its `Forms`. Copies of a
//! module share it.
//!
//! # What is proved
//!
//! - [`Module::new`], and [`ModuleBuilder::build`] of the functions that a builder was given one after the other, gives none
//!   exactly where two functions have one name and one number of arguments, and else the module of just these functions, in
//!   their order.
//! - [`Module::function`] finds the function of a name and a number of arguments, [`Module::exported`] finds it where it is
//!   exported, and [`Module::exports`] tells whether it is.
//! - [`Module::remote_modules`] are the modules that are named in remote calls, each once: none is left out, and none is made
//!   up. A call of a function that is built in counts where it is written with its module. A guard counts as a body does.
//! - [`Module::depth`] is how deep patterns, guards and bodies are nested, up to `2^64 - 1`.
//! - `Same` decides equality, and `Duplicate` gives an equal value, of modules and of all that they are made of.
//!
//! # What no contract says
//!
//! That there is memory, and what a call costs. [`Module::new`] takes time and memory for each function and for each remote
//! call in it, and one look at each part besides, which it writes down: a module keeps the bytes that tell all that it is, one
//! for each ASCII character of a name, one for a small number, nine for a number over 124, and one to three for each other
//! part, in no more room than they take. What is asked of a module takes no memory, and time that does not grow with the
//! module: functions are looked up by hashes with keys that nobody outside knows. A copy of a module costs a count, and a copy
//! of anything else its size. Two modules are compared by their bytes, many at a time, also where a module is compared with
//! its own copy; comparing anything else is linear.
//!
//! [`Module::new`], comparing or copying what a module is made of, and dropping recurse as deep as the patterns and
//! expressions are nested, which [`Module::depth`] tells, and then as deep as a literal's term, which it does not count. Who
//! makes modules of texts from outside bounds both. The tests make, copy, compare and drop modules of depth 256.
//!
//! In which order the modules of remote calls are told is not said either: it is that in which they are noted. Of the 45
//! wrong bodies that `rt plant` could judge before modules kept their bytes none was let through. Two that it doesn't try are
//! right: rows and modules may be compared in either order, for equality is symmetric, and what is `Copy` may be copied by
//! `copy` or as it stands.
#![tactic(auto)]

mod bytes;
mod calls;
mod depths;
mod expression;
mod function;
mod module;
mod name_and_arity;
mod operation;
mod pattern;

pub use expression::{Clause, Clauses, Expression, Expressions, Guard};
pub use function::{Definition, Function};
pub use module::{Module, ModuleBuilder};
pub use operation::{BuiltIn, Connective, Operation, Operator};
pub use pattern::{Pattern, Patterns};

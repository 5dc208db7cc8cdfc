//! The static faults of a module of Erlang that is read as a syntax tree.
//!
//! [`note_functions`] tells the first fault of the heads of a module's functions, and [`first_in_form`] then, form after
//! form, the first that stands in the source, or none. There are three kinds of them ([`StaticFault`]), by the rules of the
//! Erlang Reference Manual (Functions, Modules, Expressions):
//!
//! - A function may not have the name and the number of arguments of an earlier function of the module, nor of a function
//!   that is built in and called plainly. The fault stands at the name of its first clause.
//! - A local call calls a function of the module by its name and number of arguments, or one that is built in; and an entry
//!   of `-export` names a function of the module that is not built in. The fault stands at the name. Calls with a module are
//!   not looked at.
//! - A variable that an expression or a test of a guard uses has to be bound there. `_` never is. The fault stands at the
//!   variable. In a pattern no variable is unbound: one that is bound is compared.
//!
//! What binds a variable, and where it is bound then:
//!
//! | What | Binds | For |
//! |---|---|---|
//! | the patterns of a clause | their variables | its guard and its body; in a loop function, the clauses of the `receive` |
//! | `P = E` | what `E` binds, and then the variables of `P` | what comes behind it; `E` sees nothing of `P` |
//! | an expression of a body or of `begin .. end` | what it binds | those behind it; a block's also what comes behind the block |
//! | the subject of a `case` | what it binds | the clauses, and what comes behind the `case`; what a clause binds stays in it |
//! | `A andalso B`, `A orelse B` | what `A` binds | `B`, and what comes behind; what `B` binds stays in it |
//! | a tuple, a list, a call, any other operator | what its parts bind | what comes behind it; the parts see nothing of one another |
//!
//! A [`Scope`] is what is bound at a point, in the order in which a module that runs binds it: so it tells also the index that
//! a variable has in the bindings ([`Scope::index_of`]).
//!
//! # What is proved
//!
//! Form after form, the fault so far is the first of those of the forms so far, by the definitions of `specs/` (`soonest`): none
//! exactly where they have no fault, and else one of theirs, where no fault stands at a lesser offset.
//!
//! # What no contract says
//!
//! That there is memory, and what a call costs. Variables and functions are looked up by hashes with keys that nobody outside
//! knows. Each part of a module is looked at once; what an expression binds is looked for once more in each body, block,
//! subject of a `case` and side of `andalso` or `orelse` that it stands in, so at most as often as it is nested. Recursion goes
//! as deep as the trees are nested: who reads a module from outside bounds that.
//!
//! Which of two faults at one offset is told is not said either: in a tree that was read from a source there are none.
#![tactic(auto)]

mod binding;
mod fault;
mod functions;
mod module;
mod scope;
mod scoping;
mod walk;

pub use binding::is_anonymous;
pub use fault::StaticFault;
pub use functions::{Functions, count, note_functions};
pub use module::first_in_form;
pub use scope::Scope;

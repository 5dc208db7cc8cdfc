//! Modules of Erlang that are written as syntax trees, as the modules that they mean.
//!
//! [`lowered`] makes of a [`erl_ast::ModuleTree`] the [`erl_ir::Module`] that it means, or tells its first static fault
//! (Erlang Reference Manual, Modules, Functions and Expressions):
//!
//! - A variable becomes its index among those that are bound, in the order of evaluation: the first that a clause binds is 0.
//!   Of a tuple, a list, a call or an operator the parts are evaluated from left to right, of `P = E` first E and then P. `_`
//!   binds nothing.
//! - A call becomes one of a function that is built in, where there is one of its name and number of arguments, and of its module
//!   where that is written; else a call of the same module or a remote one. `?MODULE` is the module's name.
//! - An integer is the value of its digits with its sign; strings that stand side by side are one. Parentheses mean nothing.
//! - A function is exported that stands in any `-export`. Of several `-vsn` the first counts.
//!
//! # What is proved
//!
//! [`lowered`] tells the first static fault of a tree exactly where `erl_lint`'s definitions say that it has one. Of a tree
//! without one it gives the module that the definitions of `specs/` say: `meaning` of the tree, and none exactly where two
//! functions have one name and number of arguments. The definitions are total functions of trees. So they say something also of
//! trees that no source is read as: there a variable that nothing binds has the index behind all that are bound, and an integer
//! that no term has is the nearest one.
//!
//! A module without a static fault is well scoped ([`modules_are_well_scoped`]): the definitions of `specs/WellScoped.antt` say
//! of a module, with no names and no faults, where how many variables are bound, and that each is read where it is bound. In a
//! module that comes of a source each clause has as many patterns as its function has arguments. That an operand reads nothing
//! that another operand of the same expression binds is `erl_lint`'s alone.
//!
//! # What no contract says
//!
//! That there is memory, and what a call costs. Variables are looked up as [`Scope`](erl_lint::Scope) does it, and functions by
//! hashes with keys that nobody outside knows. Each form is searched for faults, lowered and let go before the next one, so that
//! its parts are at hand and their memory is soon used again. Recursion goes as deep as the trees are
//! nested: who reads a module from outside bounds that.
#![tactic(auto)]

mod built_ins;
mod expressions;
mod literals;
mod making;
mod module;
mod numbers;
mod parts;
mod patterns;
mod program;

ghost use Rattle.erl_lower.specs.Laws.{MeaningsAreWellScoped, MeaningsHaveArities};

pub use module::{Lowering, lowered};

/// A module without a static fault reads no variable that is not bound. In one that comes of a source each clause of a function
/// has as many patterns as the function has arguments.
pub fn modules_are_well_scoped()
    ensures scopes { MeaningsAreWellScoped }
    ensures arities { MeaningsHaveArities }
{}

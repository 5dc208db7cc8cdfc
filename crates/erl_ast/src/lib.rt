//! Sources of Erlang modules as syntax trees, as they are written (Erlang Reference Manual; after `erl_parse` of OTP 25).
//!
//! A [`SyntaxTree`] is an expression, a pattern or a test of a guard, by its [`Role`]: a [`Leaf`]; a [`Shape`] with its
//! parts, such as a tuple, a call or an operator between two parts; or a `case` with its clauses. Parentheses are a shape of
//! their own, a sign before digits belongs to its integer, and adjacent strings stay apart, so that a tree says each token
//! that it is written with. Names keep the byte of the source at which they begin. [`FormTree`] and [`ModuleTree`] are the
//! forms of a module. Rows are [`SyntaxTrees`], [`GuardTrees`] and [`ClauseTrees`].
//!
//! Contracts see them as the `Tree`, `Trees`, `Guards` and `Clauses` of `specs/Tree.antt`. `specs/Grammar.antt` says which
//! trees are expressions, patterns and tests (`IsWell`): operators group by their levels, and each part of an expression has
//! a greatest level. `specs/Written.antt` says with which tokens a tree is written (`written`). Both are over whole trees
//! and know nothing of reading.
//!
//! # What is proved
//!
//! - [`is_guard_function`] and [`guard_arity`] tell the functions that are built in and may be called in guards, as
//!   `guard_functions` lists them.
//! - [`SyntaxTrees`], [`GuardTrees`] and [`ClauseTrees`] are the rows of what they are made of, in order, and are seen as
//!   them.
//!
//! # What no contract says
//!
//! That a tree is one of the grammar: trees of any form can be made. No call takes memory, and each takes time for the name
//! that it looks at, or none. Dropping a tree recurses as deep as it is nested, which `tree_depth` defines: who makes trees
//! of texts from outside bounds it.
#![tactic(auto)]

mod form;
mod functions;
mod leaf;
mod role;
mod shape;
mod tree;

pub use form::{Exported, FormTree, FunctionClause, FunctionTree, LoopTree, ModuleTree};
pub use functions::{guard_arity, is_guard_function};
pub use leaf::{Leaf, Named, Sign};
pub use role::Role;
pub use shape::{Infix, Prefix, Qualifier, Shape};
pub use tree::{ClauseTree, ClauseTrees, GuardTrees, SyntaxTree, SyntaxTrees};

//! Expressions, patterns and tests of guards, read from tokens as syntax trees (Erlang Reference Manual, Expressions; after
//! `erl_parse` of OTP 25).
//!
//! [`read_tree`] reads the tree that tokens begin with, and gives it with the tokens behind it; or it tells a [`Refusal`]. It
//! reads as long a tree as the tokens allow: an operator, a bracket of arguments or another string that goes on with a tree
//! belongs to it. What stands behind is for the caller: [`after`] steps over the [`Delimiter`] that it wants there, and
//! [`Refusal::behind`] is the refusal of what should not be there.
//!
//! # What is proved
//!
//! - [`read_tree`], `found`: the tree and the tokens behind it are, in this order, the tokens that were given (`written`);
//!   the tree is one of its role (`IsWell`), and it is nested at most so many levels (`BeginsWith`).
//! - [`read_tree`], `refused`: where a refusal is told, the tokens begin with no such tree that what follows it doesn't go on
//!   with (`Stops`). So no text of the grammar is refused.
//! - [`read_tree`], `told`: a refusal is told of one of the tokens, up to the first dot, or of their end, where there is none
//!   (`IsToldOf`). What
//!   is read has no dot either (`Leaves`).
//! - [`trees_read_one_way`]: tokens begin in one way with such a tree (`OneTree`). So the grammar is unambiguous: operators
//!   group in one way alone.
//! - [`after`] gives the tokens behind a delimiter exactly where they begin with it.
//!
//! Grammar and writing are those of [`erl_ast`], which know no reading. `specs/Reading.antt` is the reader as a function of
//! tokens, by which the proof goes; no contract outside of this crate is about it.
//!
//! # What no contract says
//!
//! That the tree which is found is the longest: `found` says of the tokens behind it only that they follow it. Where they don't
//! go on with it (`Stops`), as a delimiter doesn't, [`trees_read_one_way`] says that there is no other such tree.
//!
//! Which reason a [`Refusal`] has, and at which token it is told: `refusal` and the reader choose them, and the tests of
//! `expressions_tests` see them. The token at which a text can't go on is told, from left to right; what Erlang has but this
//! profile hasn't is `Unsupported` at the token that shows it, an operator at itself.
//!
//! That there is memory, and what a call costs. Reading takes time and memory for each token that it steps over. What begins an
//! expression of a body, the subject of a `case` or the right side of `=` is read as an expression, and what is read left of `=`
//! is looked at once more: it has to be a pattern. Only if these tokens begin with no expression, they are read once more, as a
//! pattern. What is read stands in no more room than it takes. Reading recurses as deep as trees may be nested, which the caller
//! bounds with `levels`, and a row of any length takes no recursion.
#![tactic(auto)]

mod deep;
mod delimiter;
mod fitted;
mod leaves;
mod operators;
mod parts;
mod patterns;
mod reader;
mod refusal;
mod whole;

pub use delimiter::{Delimiter, after};
pub use parts::{read_body, read_clauses, read_guard, read_pattern, read_patterns};
pub use reader::Reading;
pub use refusal::{Reason, Refusal};
pub use whole::{read_tree, trees_read_one_way};

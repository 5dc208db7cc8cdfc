//! The forms of a module, read from tokens as syntax trees (Erlang Reference Manual, Modules).
//!
//! [`read_forms`] reads the tokens of a whole source: `-module` first, then exports, the term of `-vsn`, attributes that say
//! nothing here and are skipped up to their dot, functions and loop functions. How a module is written is in
//! `specs/Forms.antt` of `erl_ast`.
//!
//! # What is proved
//!
//! - [`read_forms`]: what is read is a module that the tokens are written as (`IsModule`), and where they are refused, lack of
//!   memory aside, they are written as none.
//! - [`read_forms`], `told`: a refusal is told of a token of the first form that is none, up to its dot, or of the end, where no
//!   dot ends that form. What stands before it is `-module` and whole forms, if anything (`IsToldFirst`).
//! - [`open_bracket`] finds the innermost bracket that is open where tokens end (`innermost`).
//! - [`modules_read_one_way`]: tokens are written as at most one module.
//!
//! # What no contract says
//!
//! That there is memory, and what a call costs: it is linear in the tokens. For which reason a
//! [`Refusal`](erl_expressions::Refusal) is told, and at which token of the form, is chosen for whoever reads it.
//!
//! How it is proved: `specs/FormReading.antt` is the reader as a function of tokens, and each function of the code is
//! proved equal to its own; `Sound` says that what is read is written so, `ReadBack` that what is written is read,
//! `Modules` joins the forms.
#![tactic(auto)]

mod attributes;
mod brackets;
mod functions;
mod module;
mod opening;
mod tokens;
mod told;

pub use brackets::open_bracket;
pub use module::{modules_read_one_way, read_forms};
pub use told::told_token;

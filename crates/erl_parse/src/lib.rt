//! Sources of Erlang modules, read from bytes as the modules that they are (Erlang Reference Manual, Modules).
//!
//! [`read_module`] reads the bytes of a source as a [`Module`], or refuses them by a [`LangError`]: the first thing that stands
//! against them, and its byte. Lack of memory is no refusal. It joins the layers below: the tokens of the text (`erl_scan`),
//! the forms that they are (`module_forms`), their static faults (`erl_lint`), and what forms without such a fault mean
//! (`erl_lower`).
//!
//! # What is proved
//!
//! - [`read_module`], `found`: the module that is given is what the bytes mean: they are UTF-8, their tokens up to the end are
//!   written as a module in the grammar of `erl_ast`, which has no static fault, and that is its meaning (`IsSource`).
//! - [`read_module`], `refused`: what each error says of the bytes (`Says`). A static fault is told of bytes that are written as
//!   a module: it is one of its faults, and none stands at a lesser offset. `NotUtf8` is told at the first byte that is none. All
//!   others say that the tokens up to the end, or to a faulty one, are written as no module:
//!   - A token that is told stands in the first form that is none, up to its dot: before that form stand `-module` and whole
//!     forms, if anything (`IsMisplaced`).
//!   - `Unclosed` and `MissingDot` say that the text ends in that form, and no dot ends it: `Unclosed` stands at the innermost
//!     bracket that is open there, and `MissingDot` says that there is none (`EndsInForm`, `innermost`).
//!   - The fault that a token has by itself is told at its offset, where all forms before the one that it is in are whole
//!     (`StopsAt`).
//! - [`read_module`], `meaningless`: bytes of which an error is told are no source of a module (`IsNoSource`).
//! - [`sources_mean_one_module`]: bytes mean at most one module, and they mean one where they are written as a module without
//!   static fault. So no such source is refused, but for lack of memory.
//!
//! # What no contract says
//!
//! That there is memory, and that `Memory` is told only where it was refused. At which token of the first faulty form that is
//! told, and whether as `Syntax`, as `Unsupported` or as a fault of the text: it is the first with which no module goes on, or
//! where the construct begins that is not read, and tests see it.
//!
//! What a call costs: each layer goes over the source once, as their crates say. The tokens are let go once their tree is
//! read, so they don't stand in memory beside the module. Reading recurses as deep as the source is nested, at most 256
//! levels.
//!
//! How it is proved: `Meanings` joins the laws of the layers, and `Apart` says that no two functions have one name and one number
//! of arguments where `erl_lint` finds no fault.
#![tactic(auto)]

mod error;
mod source;
mod telling;

pub use error::LangError;
pub use source::{read_module, sources_mean_one_module};

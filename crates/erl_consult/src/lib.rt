//! The reading of texts of Erlang terms, each ended by a dot, as `file:consult/1` reads them.
//!
//! [`read_terms`] gives the terms of a text, as values of the crate `erl_term`, or the text's first [`Fault`] and its byte.
//! Contracts see the terms as their trees.
//!
//! # What is proved
//!
//! - [`read_terms`] gives the terms exactly of the texts of terms, and of every other bytes the first fault, at its
//!   offset, lack of memory aside. The grammar is one of whole token lists (`IsText`), and the first fault is that of
//!   the first token that is faulty by itself or that no text has behind the tokens before it, or the end
//!   (`IsRefused`). [`texts_read_one_way`]: all bytes are a text of one list of terms, or refused for one reason at one
//!   byte, and never both. [`first_fault_is_first`]: no text within the limits has a faulty token behind the tokens
//!   before it, and these are those of some text, as far as they go, but in one case: where the last is a bar, and as
//!   many brackets are open as may be, no text goes on from them.
//! - [`printed_terms_are_read`]: what [`print`](erl_term::print) writes of a term, with a dot and a newline behind it, is
//!   the text of that term alone, where no process identifier stands in it and it is nested at most 256 deep
//!   ([`Term::is_readable`](erl_term::Term::is_readable)).
//!
//! # What no contract says
//!
//! That there is memory, and what a call costs: `read_terms` is linear in the bytes that it is given, and needs no stack
//! for nesting.
#![tactic(auto)]

mod parsing;

pub use erl_scan::{Fault, ReadError};
pub use parsing::{first_fault_is_first, printed_terms_are_read, read_terms, texts_read_one_way};

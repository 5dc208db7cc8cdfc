//! Tokens of Erlang texts (Erlang Reference Manual; after `erl_scan` of OTP 25).
//!
//! A [`Scanner`] stands in a text and gives its tokens one after the other, each as a [`Spot`]: the [`Token`], and the
//! byte at which it begins. [`scan`] gives those of a whole text as one list, up to the first token that is faulty by
//! itself. Contracts see what is left of the text as a list of code points, `left`. An integer has no sign, and
//! `2^64 - 1` stands for all from there on: which integers there are is for the reader of tokens to judge. A float has
//! no value. What Erlang has and this scanner does not read, such as a string between three double quotes, is told as
//! `Unsupported`. `erl_scan` differs in little: it has tokens for ``& @ \ ^ ` ~`` and 127, which here begin none, and
//! it does not take U+FFFE and U+FFFF.
//!
//! # What is proved
//!
//! - [`Scanner::new`] stands at the start of the text.
//! - [`Scanner::next_token`] gives the token that comes next behind blanks and comments, with its offset, and stands
//!   right behind it; it gives none exactly at the end, and stands there. An error other than `Memory` is the fault
//!   that comes next, at its offset: a token's own fault at the token's first character, but a bad escape at its
//!   backslash.
//! - [`scan`] gives the tokens that the text has from its start on, each with its offset, up to the end, and no fault;
//!   or up to the first that is faulty by itself, and its fault as `next_token` tells it, other than `Memory`.
//! - [`texts_scan_one_way`]: a text has one such list and one such fault or end, so that what `scan` answers is fixed
//!   by the text, lack of memory aside.
//! - [`tokens_read_one_way`]: one thing comes next in a text, so that what `next_token` answers is fixed by the text,
//!   lack of memory aside, and as many tokens of a text are read in one way.
//! - [`marks_are_longest`]: of the marks that a text begins with, the longest is read.
//!
//! # What no contract says
//!
//! That there is memory, which the atoms, variables and strings ask for, and the list of [`scan`]; that `Memory` and
//! `AllocError` are told only where it was refused; and what a call costs: it is linear in what it steps over, and `scan`
//! in the text, with one list, which has room for a token in three bytes from the start. A scanner keeps at most 512 names
//! that it read, at most 64 in a text of under 4096 bytes and none in one of under 64: an atom or a variable that has one
//! of these shares its characters.
#![tactic(auto)]

mod error;
mod laws;
mod mark;
mod marks;
mod names;
mod numbers;
mod quoted;
mod recent;
mod scanner;
mod scanning;
mod token;
mod whole;
mod word;

pub use erl_chars::{Name, SharedText, Text};
pub use error::{Fault, ReadError};
pub use laws::{marks_are_longest, tokens_read_one_way};
pub use mark::Mark;
pub use scanner::Scanner;
pub use token::{Spot, Token};
pub use whole::{Scanned, scan, texts_scan_one_way};
pub use word::Word;

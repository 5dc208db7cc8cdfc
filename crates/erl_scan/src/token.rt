// Tokens.
use crate::mark::Mark;
use crate::word::Word;
use erl_chars::{Name, SharedText, Text};

/// A token of an Erlang text (Erlang Reference Manual; after `erl_scan`).
#[derive(Drop)]
pub enum Token {
    /// An integer without a sign, in decimal or in another base, or a character behind `$`. `u64::MAX` stands for all
    /// that are greater.
    Integer(u64),
    /// A float. Its value is not read.
    Float,
    /// An atom: a name that is no reserved word, or what stands between single quotes.
    Atom(Name),
    /// A reserved word.
    Word(Word),
    /// A variable.
    Variable(SharedText),
    /// What stands between double quotes.
    String(Text),
    /// Punctuation.
    Mark(Mark),
    /// The dot that ends a form: blanks, a comment or the end of the text follow.
    Dot,
}

const _: () = prove!(size_of::<Token>() == 16);

/// A token where it stands.
#[derive(Drop)]
pub struct Spot {
    /// The token.
    pub what: Token,
    /// Its first byte in the text, from 0.
    pub at: usize,
}

const _: () = prove!(size_of::<Spot>() == 24);

// Why a text is refused, and where.
use thiserror::Error;

/// Why a text is refused.
#[derive(Clone, Copy, Debug, PartialEq, Eq, Error)]
pub enum Fault {
    /// The bytes are not UTF-8.
    #[error("not UTF-8")]
    NotUtf8,
    /// The character begins no token.
    #[error("a character that begins no token")]
    BadChar,
    /// The text ends inside a bracket or inside quotes.
    #[error("not closed")]
    Unclosed,
    /// No escape is written so, or the text ends inside one behind `$`.
    #[error("no escape")]
    BadEscape,
    /// The integer is below -2^63 or above 2^63 - 1.
    #[error("an integer out of range")]
    IntegerRange,
    /// Erlang has this, but it is not read here.
    #[error("not supported")]
    Unsupported,
    /// The text ends behind a whole term without a dot.
    #[error("no dot at the end")]
    MissingDot,
    /// The bracket or string would be the 257th open.
    #[error("nested too deep")]
    TooDeep,
    /// The atom has more than 255 characters.
    #[error("an atom of more than 255 characters")]
    AtomTooLong,
    /// No text goes on so.
    #[error("wrong syntax")]
    Syntax,
    /// Memory was refused.
    #[error("out of memory")]
    Memory,
}

/// Why a text is refused, and the byte at which, from 0.
#[derive(Clone, Copy, Debug, PartialEq, Eq, Error)]
#[error("{kind} at byte {at}")]
pub struct ReadError {
    /// Why.
    pub kind: Fault,
    /// The offset, in bytes from the start. Of `Memory` it says nothing.
    pub at: usize,
}

// The smallest expressions, and names where they stand.
use erl_chars::{SharedText, Text};
use erl_term::Atom;
use values::Row;

/// An atom where it stands.
#[derive(Drop)]
pub struct Named {
    /// The atom.
    pub name: Atom,
    /// Its first byte in the source, from 0.
    pub at: usize,
}

/// The sign that stands before an integer.
#[derive(Clone, Copy, Debug, PartialEq, Eq)]
pub enum Sign {
    /// None.
    Unsigned,
    /// `+`
    Plus,
    /// `-`
    Minus,
}

/// A literal that no brackets make, or a variable.
#[derive(Drop)]
pub enum Leaf {
    /// An integer: its sign, and the value of its digits.
    Integer(Sign, u64),
    /// An atom.
    Atom(Named),
    /// Strings, which adjacent ones join.
    Strings(Row<Text>),
    /// A variable, `_` too, and its first byte in the source, from 0.
    Variable(SharedText, usize),
    /// `?MODULE`, and the first byte of its word in the source, from 0.
    ModuleName(usize),
}

// What a tree is read as.

/// What a syntax tree is read as, which says what may stand in it.
#[derive(Clone, Copy, Debug, PartialEq, Eq)]
pub enum Role {
    /// An expression.
    Expression,
    /// A pattern.
    Pattern,
    /// A test of a guard.
    Test,
}

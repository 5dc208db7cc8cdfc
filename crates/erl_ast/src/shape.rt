// How an expression is put together from others.
use crate::leaf::Named;
use values::Shared;

/// An operator before its operand (Erlang Reference Manual, Expressions, Operator Precedence).
#[derive(Clone, Copy, Debug, PartialEq, Eq)]
pub enum Prefix {
    /// `-`
    Negate,
    /// `not`
    Not,
}

/// An operator between its operands (Erlang Reference Manual, Expressions, Operator Precedence).
#[derive(Clone, Copy, Debug, PartialEq, Eq)]
pub enum Infix {
    /// `*`
    Multiply,
    /// `div`
    Divide,
    /// `rem`
    Remainder,
    /// `and`
    And,
    /// `+`
    Add,
    /// `-`
    Subtract,
    /// `or`
    Or,
    /// `++`
    Append,
    /// `==`
    Equal,
    /// `/=`
    NotEqual,
    /// `=:=`
    ExactlyEqual,
    /// `=/=`
    ExactlyNotEqual,
    /// `<`
    Less,
    /// `>`
    Greater,
    /// `=<`
    AtMost,
    /// `>=`
    AtLeast,
    /// `andalso`
    AndAlso,
    /// `orelse`
    OrElse,
    /// `!`
    Send,
    /// `=`
    Match,
}

/// The module of a remote call.
#[derive(Drop)]
pub enum Qualifier {
    /// An atom.
    Module(Named),
    /// `?MODULE`, and the first byte of its word in the source, from 0.
    ModuleName(usize),
}

/// How an expression is put together from others, its parts.
#[derive(Drop)]
pub enum Shape {
    /// `{E1,..,En}`
    Tuple,
    /// `[E1,..,En]`
    List,
    /// `[E1,..,En|E]`: the last part is the tail.
    Cons,
    /// `(E)`
    Parenthesized,
    /// `begin E1,..,En end`
    Block,
    /// `f(E1,..,En)`
    Local(Named),
    /// `m:f(E1,..,En)`. Its names stand in memory of their own: few trees have any, and each tree would be half as large again.
    Remote(Shared<Qualifier>, Shared<Named>),
    /// An operator before one part.
    Prefix(Prefix),
    /// An operator between two parts.
    Infix(Infix),
}

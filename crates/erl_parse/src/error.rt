// Why bytes are no source of a module, and where.
use erl_scan::ReadError;
use thiserror::Error;

/// Why bytes are no source of a module, each with its first byte in the source, from 0.
#[derive(Clone, Copy, Debug, PartialEq, Eq, Error)]
pub enum LangError {
    /// The text is faulty: it is not UTF-8, a token is faulty by itself or nested too deep, or the text ends too soon.
    #[error("{0}")]
    Text(ReadError),
    /// The form that this token stands in is none, and this token is wrong there.
    #[error("wrong syntax at byte {0}")]
    Syntax(usize),
    /// Erlang has this, but it is not read here.
    #[error("not supported at byte {0}")]
    Unsupported(usize),
    /// An earlier function has this name and as many arguments, or a function that is built in and called plainly has.
    #[error("at byte {0}: a function of this name and number of arguments is there already")]
    DuplicateFunction(usize),
    /// The variable is used and not bound.
    #[error("at byte {0}: the variable is not bound")]
    UnboundVariable(usize),
    /// The module has no function of this name and so many arguments.
    #[error("at byte {0}: there is no function of this name and number of arguments")]
    UndefinedLocal(usize),
}

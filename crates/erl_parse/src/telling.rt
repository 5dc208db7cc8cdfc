// Errors, of what the layers below tell.
ghost use Rattle.std.specs.Prelude.{◌≡◌, ◌≤◌, length};
ghost use Rattle.erl_parse.specs.Telling.{error_of_static, error_of_token, error_at as error_at_in, cut_off as cut_off_in, text_error as text_error_of, TellsEnd, TellsRefusal};

use crate::error::LangError;
use erl_expressions::{Reason, Refusal};
use erl_lint::StaticFault;
use erl_scan::{Fault, ReadError, Spot};
use module_forms::{open_bracket, told_token};

/// The error of a token that is faulty by itself.
pub(crate) fn of_token(fault: ReadError) -> LangError
    ensures { result ≡ error_of_token fault }
{
    match fault.kind {
        Fault::Syntax => LangError::Syntax(fault.at),
        Fault::Unsupported => LangError::Unsupported(fault.at),
        _ => LangError::Text(fault),
    }
}

/// The error of a static fault.
pub(crate) fn of_static(fault: StaticFault) -> LangError
    ensures { result ≡ error_of_static fault }
{
    match fault {
        StaticFault::DuplicateFunction(at) => LangError::DuplicateFunction(at),
        StaticFault::UnboundVariable(at) => LangError::UnboundVariable(at),
        StaticFault::UndefinedLocal(at) => LangError::UndefinedLocal(at),
    }
}

/// The error of tokens that are no module, in a text of so many bytes. Where they end too soon, it is the fault of the token
/// that stops them, if there is one.
pub(crate) fn of_refusal(
    refusal: Refusal,
    tokens: &[Spot],
    stop: Option<ReadError>,
    total: usize,
) -> LangError
    requires { refusal.left ≤ length tokens.now }
    ensures { TellsRefusal tokens.now refusal stop total result }
{
    match told_token(refusal, tokens) {
        Some(told) => at_token(refusal.reason, told.at),
        None => at_end(tokens, stop, total),
    }
}

/// The error of a token that stands at a byte, by the reason.
fn at_token(reason: Reason, at: usize) -> LangError
    ensures { result ≡ error_at_in reason at }
{
    match reason {
        Reason::Syntax => LangError::Syntax(at),
        Reason::Unsupported => LangError::Unsupported(at),
        Reason::IntegerRange => text_error(Fault::IntegerRange, at),
        Reason::TooDeep => text_error(Fault::TooDeep, at),
    }
}

/// The error of tokens that end too soon.
fn at_end(tokens: &[Spot], stop: Option<ReadError>, total: usize) -> LangError
    ensures { TellsEnd tokens.now stop total result }
{
    match stop {
        Some(fault) => of_token(fault),
        None => cut_off(open_bracket(tokens), total),
    }
}

/// The error of a text that ends in a form, by the offset of the innermost bracket that is open there.
fn cut_off(bracket: Option<usize>, total: usize) -> LangError
    ensures { result ≡ cut_off_in bracket total }
{
    match bracket {
        Some(at) => text_error(Fault::Unclosed, at),
        None => text_error(Fault::MissingDot, total),
    }
}

/// A fault of the text.
fn text_error(kind: Fault, at: usize) -> LangError
    ensures { result ≡ text_error_of kind at }
{
    LangError::Text(ReadError { kind, at })
}

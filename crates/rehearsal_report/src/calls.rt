// Calls that nobody answers, in words.
use crate::observations::way_word;
use crate::writing::{put, put_atom, put_number};
use erl_term::Atom;
use low_instructions::Direction;
use std::alloc::{AllocError, Global};
use upgrade_review::{Call, Finding};

/// Appends a finding about a call.
pub(crate) fn put_of_call(
    finding: &Finding,
    alloc: Global,
    out: &mut Vec<u8>,
) -> Result<(), AllocError> {
    match finding {
        Finding::Unanswered {
            way,
            from,
            to,
            caller,
            call,
        } => {
            put_point(*way, *from, alloc, out)?;
            put_calls(caller, call, alloc, out)?;
            put(b", which nobody answers", out)?;
            put_end(*way, *to, alloc, out)
        }
        Finding::AppliesNobody { way, index, call } => {
            put_point(*way, index.saturating_add(1), alloc, out)?;
            put_call(call, alloc, out)?;
            put(b" is applied, which nobody answers", out)
        }
        Finding::CallsOutside { caller, call } => {
            put_calls(caller, call, alloc, out)?;
            put(b", and neither release has the module ", out)?;
            put_atom(&call.module, alloc, out)
        }
        Finding::CallsInCallback { callback } => {
            put_call(callback, alloc, out)?;
            put(b" calls gen_server:call; here its process ends then", out)
        }
        _ => Ok(()),
    }
}

/// Appends the point after so many instructions, if it isn't the beginning.
fn put_point(
    way: Direction,
    count: usize,
    alloc: Global,
    out: &mut Vec<u8>,
) -> Result<(), AllocError> {
    put(way_word(way), out)?;
    if count > 0 {
        put(b" ", out)?;
        put_number(count as u64, alloc, out)?;
    }
    put(b": ", out)
}

/// Appends the instruction before which a window ends, or that it lasts from then on.
fn put_end(
    way: Direction,
    to: Option<usize>,
    alloc: Global,
    out: &mut Vec<u8>,
) -> Result<(), AllocError> {
    match to {
        Some(count) => {
            put(b" before ", out)?;
            put(way_word(way), out)?;
            put(b" ", out)?;
            put_number(count as u64, alloc, out)
        }
        None => put(b" from then on", out),
    }
}

/// Appends a call and the module that makes it.
fn put_calls(
    caller: &Atom,
    call: &Call,
    alloc: Global,
    out: &mut Vec<u8>,
) -> Result<(), AllocError> {
    put_atom(caller, alloc, out)?;
    put(b" calls ", out)?;
    put_call(call, alloc, out)
}

/// Appends a function, `Module:Function/Arity`.
fn put_call(call: &Call, alloc: Global, out: &mut Vec<u8>) -> Result<(), AllocError> {
    put_atom(&call.module, alloc, out)?;
    put(b":", out)?;
    put_atom(&call.function, alloc, out)?;
    put(b"/", out)?;
    put_number(call.arity as u64, alloc, out)
}

/// Returns the advice on a window in which nobody answers a call, which depends on its end.
pub(crate) fn unanswered_advice(to: Option<usize>) -> &'static [u8] {
    match to {
        Some(_) => b"load what answers before what calls, and remove it after",
        None => b"load code that exports the function, or code that doesn't call it",
    }
}

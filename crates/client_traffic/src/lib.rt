//! Reads the traffic of a rehearsal from lines as the shell reads them: `call NAME TERM`, `cast NAME TERM`, `send NAME TERM`. A
//! line may end with a carriage return, as editors on Windows write them; it is no part of the line.
//!
//! # What is proved
//!
//! [`read_traffic`] returns what each line sends, in order (`AllSend`). Or it returns the first line that sends nothing and is
//! neither blank nor a comment, with the reason (`IsFirstAmiss`).
#![tactic(auto)]

ghost use Rattle.std.specs.Prelude.{◌≡◌, ◌⊎◌, ◌∷◌, [], MatchResult};
ghost use Rattle.std.specs.Str.{chars};
ghost use Rattle.client_traffic.specs.Traffic.{Adds, AllSend, IsAmissBy, IsAmissIn, IsFirstAmiss, SentBy, lines_of, bare};
ghost use Rattle.shell_requests.specs.Request.{arrive};

use erl_scan::ReadError;
use shell_requests::{ArrivalKind, Line, Misread, Name, Request, read_line, term_of};
use std::alloc::Global;
use thiserror::Error;
use upgrade_rehearsal::Arrival;

/// Why a line is no traffic.
#[derive(Clone, Copy, Debug, PartialEq, Eq, Error)]
pub enum TrafficError {
    /// It is none of the lines that send something.
    #[error("a line is `call NAME TERM`, `cast NAME TERM` or `send NAME TERM`")]
    NoArrival,
    /// There is no term, or there are several.
    #[error("one term is sent")]
    NotOneTerm,
    /// The term is faulty, so many bytes after its beginning.
    #[error("the term is faulty: {0}")]
    Term(ReadError),
    /// An allocation failed.
    #[error("out of memory")]
    Memory,
}

/// The first line that is no traffic, and the reason.
#[derive(Clone, Copy, Debug, PartialEq, Eq, Error)]
#[error("line {line}: {error}")]
pub struct TrafficFault {
    /// The line, counted from 1.
    pub line: usize,
    /// The reason why it is no traffic.
    pub error: TrafficError,
}

/// Reads what clients send, a line each, in order. Blank lines and comments send nothing.
///
/// # Errors
///
/// The first line that is no traffic, and the reason; or the line that was read when an allocation failed. Nothing of the lines
/// before it is kept.
pub fn read_traffic(alloc: Global, text: &str) -> Result<Vec<Arrival>, TrafficFault>
    ensures { MatchResult result (λ found. AllSend (lines_of text.now) found.items) (IsFirstAmiss (lines_of text.now)) }
{
    let mut found = Vec::new(alloc);
    let mut number = 0;
    for line in text.split('\n') {
        number += 1;
        match push_line(alloc, line, &mut found) {
            Ok(()) => (),
            Err(error) => {
                return Err(TrafficFault {
                    line: number,
                    error,
                });
            }
        }
    }
    Ok(found)
}

/// Appends what a line sends, if it sends something.
fn push_line(alloc: Global, line: &str, found: &mut Vec<Arrival>) -> Result<(), TrafficError>
    ensures { MatchResult result (λ _. Adds line.now found.old.items found.new.items) (IsAmissIn line.now) }
{
    match read_line(bare(line.as_bytes())) {
        Line::Silent => Ok(()),
        Line::Asks(Request::Arrive(kind, name, text)) => {
            let arrival = arrival_of(alloc, kind, name, text)?;
            match found.push(arrival) {
                Ok(()) => Ok(()),
                Err(_) => Err(TrafficError::Memory),
            }
        }
        Line::Unknown | Line::Asks(_) => Err(TrafficError::NoArrival),
    }
}

/// Returns a line without the carriage return that it ends with, if it ends with one.
fn bare(line: &[u8]) -> &[u8]
    ensures { result.now ≡ bare line.now }
{
    match line {
        [text @ .., b'\r'] => text,
        _ => line,
    }
}

/// Returns what a client sends.
fn arrival_of(
    alloc: Global,
    kind: ArrivalKind,
    name: Name<'_>,
    text: &str,
) -> Result<Arrival, TrafficError>
    ensures { MatchResult result
        (λ arrival. SentBy (arrive kind (chars name.entry.text.now) text.now) (arrival ∷ []))
        (λ e. (e ≡ TrafficError.Memory) ⊎ IsAmissBy (arrive kind (chars name.entry.text.now) text.now) e) }
{
    let term = match term_of(alloc, text) {
        Ok(term) => term,
        Err(Misread::NotOne) => return Err(TrafficError::NotOneTerm),
        Err(Misread::Faulty(error)) => return Err(TrafficError::Term(error)),
        Err(Misread::NoMemory) => return Err(TrafficError::Memory),
    };
    match name.atom(alloc) {
        Ok(name) => Ok(Arrival { kind, name, term }),
        Err(_) => Err(TrafficError::Memory),
    }
}

// The steps that lines of the console made, as rows, and the names of marks.
ghost use Rattle.std.specs.Prelude.{◌≡◌, ◌<◌, IfOk, OnErr, OnOk, nat_le, nat_lt, vec_capacity, vec_len};
ghost use Rattle.std.specs.List.{filter};
ghost use Rattle.std.specs.Str.{bytes_eq, chars};
ghost use Rattle.console_answers.specs.Journal.{line_term, mark_named, named_mark, names_at, step_row, step_rows, steps_after};

use crate::words::{number, string};
use erl_term::{Atom, Term, Terms};
use std::alloc::{AllocError, Global};
use std::str;
use undo_journal::Mark;
use values::{Duplicate, Row};

/// A step that a line of the console made.
#[derive(Drop)]
pub struct LoggedStep {
    /// Its mark: where the node is after it.
    pub serial: Mark,
    /// The bytes of the line.
    pub line: Row<u8>,
}

/// A mark that has a name.
#[derive(Drop)]
pub struct NamedMark {
    /// The mark.
    pub mark: Mark,
    /// Its name.
    pub name: Atom,
}

/// Returns the names of a mark.
fn names_at(alloc: Global, mark: Mark, marks: &[NamedMark]) -> Result<Vec<Term>, AllocError>
    ensures { IfOk result (λ it. it.items ≡ names_at mark marks.now) }
{
    let mut names = Vec::new(alloc);
    for named in marks {
        if named.mark == mark {
            names.push(Term::Atom(named.name.copy(alloc)?))?;
        }
    }
    Ok(names)
}

/// Returns the characters of a line.
fn line_term(alloc: Global, line: &[u8]) -> Result<Term, AllocError>
    ensures { IfOk result (λ it. it ≡ line_term line.now) }
{
    match str::from_utf8(line) {
        Ok(text) => {
            let term = string(alloc, text)?;
            Ok(term)
        }
        Err(_) => {
            let term = string(alloc, "")?;
            Ok(term)
        }
    }
}

/// Returns `{K,"Line",Names}`.
fn step_row(alloc: Global, marks: &[NamedMark], step: &LoggedStep) -> Result<Term, AllocError>
    ensures { IfOk result (λ it. it ≡ step_row marks.now step.now) }
{
    let names = names_at(alloc, step.serial, marks)?;
    let mut parts = Vec::with_capacity(alloc, 3)?;
    parts.push(number(step.serial))?;
    parts.push(line_term(alloc, step.line.as_slice())?)?;
    parts.push(Term::List(Terms::new(alloc, names)?))?;
    Ok(Term::Tuple(Terms::new(alloc, parts)?))
}

/// Returns a row for each step after a mark, in order.
///
/// # Errors
///
/// `AllocError` if an allocation fails.
pub fn step_rows(
    alloc: Global,
    after: Mark,
    marks: &[NamedMark],
    steps: &[LoggedStep],
) -> Result<Vec<Term>, AllocError>
    ensures { IfOk result (λ it. it.items ≡ step_rows after marks.now steps.now) }
{
    let mut rows = Vec::new(alloc);
    for step in steps {
        if after < step.serial {
            rows.push(step_row(alloc, marks, step)?)?;
        }
    }
    Ok(rows)
}

/// Where a journal is: its mark, and its floor.
#[derive(Clone, Copy)]
pub struct Position {
    /// The mark of the node.
    pub mark: Mark,
    /// The mark of the first station.
    pub floor: Mark,
}

/// Keeps the steps up to a mark.
fn keep_up_to(steps: &mut Vec<LoggedStep>, mark: Mark)
    ensures { steps.new.items ≡ filter (λ s. nat_le s.serial mark) steps.old.items }
{
    steps.retain(|step| step.serial <= mark);
}

/// Keeps the steps after a mark.
fn keep_after(steps: &mut Vec<LoggedStep>, floor: Mark)
    ensures { steps.new.items ≡ filter (λ s. nat_lt floor s.serial) steps.old.items }
{
    steps.retain(|step| floor < step.serial);
}

/// Notes what a line did to the journal, which came from one position to another. There is room for a step.
pub fn note_line(steps: &mut Vec<LoggedStep>, line: Row<u8>, before: Position, after: Position)
    requires { vec_len steps.old < vec_capacity steps.old }
    ensures { steps.new.items ≡ steps_after line before.mark before.floor after.mark after.floor steps.old.items }
{
    let Position { mark, floor } = after;
    if before.mark < mark {
        steps.push_reserved(LoggedStep { serial: mark, line });
    } else if mark < before.mark {
        keep_up_to(steps, mark);
    } else if before.floor < floor {
        keep_after(steps, floor);
    }
}

/// Whether a mark has this name.
fn is_named(named: &NamedMark, name: &str) -> bool
    ensures { result ≡ bytes_eq named.now.name (chars name.now) }
{
    named.name.as_str() == name
}

/// Returns the mark of a name. Takes no memory.
pub fn mark_named(name: &str, marks: &[NamedMark]) -> Option<Mark>
    ensures { result ≡ mark_named (chars name.now) marks.now }
{
    match marks.iter().find(|named| is_named(named, name)) {
        Some(named) => Some(named.mark),
        None => None,
    }
}

/// Gives a mark a name, which no other mark has any more.
///
/// # Errors
///
/// `AllocError` if an allocation fails. The names are then unchanged.
pub fn name_mark(marks: &mut Vec<NamedMark>, name: Atom, mark: Mark) -> Result<(), AllocError>
    ensures named { OnOk result (marks.new.items ≡ named_mark name mark marks.old.items) }
    ensures err { OnErr result (marks.new.items ≡ marks.old.items) }
{
    marks.reserve(1)?;
    marks.retain(|named| !is_named(named, name.as_str()));
    marks.push_reserved(NamedMark { mark, name });
    Ok(())
}

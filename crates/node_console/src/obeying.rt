// What the shell is to do.
ghost use Rattle.std.specs.Prelude.{◌≡◌, ◌<◌, IfOk, vec_capacity, vec_len};
ghost use Rattle.line_server.specs.Session.{IsExchange};
ghost use Rattle.node_console.specs.Console.{NamesHere, Obeys, ObeysNamed, said_of};
ghost use Rattle.node_console.specs.Held.{console_of, order_said};
ghost use Rattle.console_answers.specs.Journal.{mark_named};
ghost use Rattle.shell_exec.specs.Execution.{ExecutesLine};
ghost use Rattle.shell_exec.specs.HoldingsDone.{IsDone};
ghost use Rattle.std.specs.Str.{chars};
ghost use Rattle.undo_journal.specs.Timeline.{here};

use crate::books::Books;
use console_answers::{Position, mark_named, name_mark, note_line};
use erl_term::Atom;
use shell_answers::{Fixed, write_mark};
use shell_exec::{Said, Shell, execute, refuse, say};
use shell_requests::{MarkUse, Name};
use std::alloc::{AllocError, Global};
use undo_journal::Mark;
use values::Row;

/// What the shell is to do.
#[derive(Clone, Copy)]
pub enum Order<'a> {
    /// What a line says.
    Line(&'a [u8]),
    /// Nothing: the line has too many bytes.
    TooLong,
    /// To undo every step after a mark.
    Undo(Mark),
    /// To forget every station before a mark's.
    Forget(Mark),
}

/// Returns a copy of the bytes of a line.
fn bytes_of(alloc: Global, line: &[u8]) -> Result<Row<u8>, AllocError>
    ensures { IfOk result (λ it. it ≡ line.now) }
{
    let mut bytes = Vec::with_capacity(alloc, line.len())?;
    bytes.extend_from_slice(line)?;
    Ok(Row::new(bytes))
}

/// Returns the mark and the floor of the journal.
fn position(held: &Shell) -> Position
    ensures mark { result.mark ≡ (here held.now.timeline).serial }
    ensures floor { result.floor ≡ held.now.timeline.first.serial }
{
    Position {
        mark: held.journal().mark(),
        floor: held.journal().floor(),
    }
}

/// Has the shell carry out an order.
fn carry_out(held: &mut Shell, order: Order<'_>, out: &mut Vec<u8>) -> Said
    ensures { IfOk result (λ fate. IsDone (ExecutesLine fate held.old (order_said order.entry)) held.new
        out.old.items out.new.items) }
{
    match order {
        Order::Line(line) => execute(held, Some(line), out),
        Order::TooLong => execute(held, None, out),
        Order::Undo(mark) => held.undo(mark, out),
        Order::Forget(mark) => held.forget(mark, out),
    }
}

/// Has the shell carry out an order, and notes the step that it made or took back. There is room for the note.
fn carry_noted(
    held: &mut Shell,
    books: &mut Books,
    line: Row<u8>,
    order: Order<'_>,
    out: &mut Vec<u8>,
) -> Said
    requires { vec_len books.old.steps < vec_capacity books.old.steps }
    ensures { IfOk result (λ fate. IsExchange (Obeys (console_of held.old books.old) line (order_said order.entry) fate)
        (console_of held.new books.new) out.old.items out.new.items) }
{
    let before = position(held);
    let fate = carry_out(held, order, out)?;
    let after = position(held);
    note_line(&mut books.steps, line, before, after);
    Ok(fate)
}

/// Has the shell carry out an order, if there is room for a note of the step.
fn obey_noted(
    held: &mut Shell,
    books: &mut Books,
    line: Row<u8>,
    order: Order<'_>,
    out: &mut Vec<u8>,
) -> Said
    ensures { IfOk result (λ fate. IsExchange (Obeys (console_of held.old books.old) line (order_said order.entry) fate)
        (console_of held.new books.new) out.old.items out.new.items) }
{
    match books.steps.reserve(1) {
        Ok(()) => carry_noted(held, books, line, order, out),
        Err(_) => refuse(out),
    }
}

/// Has the shell carry out the order of a line, and notes the step that it made or took back.
pub(crate) fn obey(
    held: &mut Shell,
    books: &mut Books,
    line: &[u8],
    order: Order<'_>,
    out: &mut Vec<u8>,
) -> Said
    ensures { IfOk result (λ fate. IsExchange (Obeys (console_of held.old books.old) line.now (order_said order.entry) fate)
        (console_of held.new books.new) out.old.items out.new.items) }
{
    match bytes_of(held.alloc(), line) {
        Ok(noted) => obey_noted(held, books, noted, order, out),
        Err(_) => refuse(out),
    }
}

/// Names the present mark by a word.
pub(crate) fn name_here(held: &Shell, books: &mut Books, name: Name<'_>, out: &mut Vec<u8>) -> Said
    ensures { IfOk result (λ fate. IsExchange (NamesHere (console_of held.now books.old) (chars name.entry.text.now) fate)
        (console_of held.now books.new) out.old.items out.new.items) }
{
    match name.atom(held.alloc()) {
        Ok(atom) => give_name(held, books, atom, out),
        Err(_) => refuse(out),
    }
}

/// Names the present mark so.
fn give_name(held: &Shell, books: &mut Books, name: Atom, out: &mut Vec<u8>) -> Said
    ensures { IfOk result (λ fate. IsExchange (NamesHere (console_of held.now books.old) name fate)
        (console_of held.now books.new) out.old.items out.new.items) }
{
    let mark = held.journal().mark();
    match name_mark(&mut books.marks, name, mark) {
        Ok(()) => {
            write_mark(mark, out)?;
            Ok(None)
        }
        Err(_) => refuse(out),
    }
}

/// Undoes or forgets to a mark.
fn obey_mark(
    held: &mut Shell,
    books: &mut Books,
    line: &[u8],
    kind: MarkUse,
    mark: Mark,
    out: &mut Vec<u8>,
) -> Said
    ensures { IfOk result (λ fate. IsExchange (Obeys (console_of held.old books.old) line.now (said_of kind mark) fate)
        (console_of held.new books.new) out.old.items out.new.items) }
{
    match kind {
        MarkUse::Undo => obey(held, books, line, Order::Undo(mark), out),
        MarkUse::Forget => obey(held, books, line, Order::Forget(mark), out),
    }
}

/// Undoes or forgets to the mark of a name.
pub(crate) fn obey_named(
    held: &mut Shell,
    books: &mut Books,
    line: &[u8],
    kind: MarkUse,
    name: Name<'_>,
    out: &mut Vec<u8>,
) -> Said
    ensures { IfOk result (λ fate. IsExchange (ObeysNamed (console_of held.old books.old) line.now kind
        (mark_named (chars name.entry.text.now) books.old.marks.items) fate) (console_of held.new books.new)
        out.old.items out.new.items) }
{
    match mark_named(name.as_str(), books.marks.as_slice()) {
        Some(mark) => obey_mark(held, books, line, kind, mark, out),
        None => say(Fixed::DeadMark, out),
    }
}

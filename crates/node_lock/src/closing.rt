// A node is closed, and each seat's list is compared with the history.
ghost use Rattle.std.specs.Prelude.{◌≡◌, ◌+◌, ◌≤◌, ◌<◌, ◌∷◌, ◌++◌, ◌↔◌, List, [], All, IsTrue, IfErr, IfOk, MatchResult, length};
ghost use Rattle.std.specs.Bool.{OnFalse, OnTrue};
ghost use Rattle.entry_lists.specs.Entries.{written_out};
ghost use Rattle.node_history.specs.Lists.{lines_of};
ghost use Rattle.node_history.specs.declared.entry.Line.{Line as Lined};
ghost use Rattle.node_lock.specs.Closing.{AreAll, AreDistinct, HasForeign, IsClosed, IsListOf, IsNumber, has_number, lines_in};
ghost use Rattle.node_lock.specs.Unclosed.{FailsToClose, HandsBack, HandsOut, IsForeign};

use crate::locked::Core;
use crate::naming::Naming;
use crate::seat::Seat;
use crate::shared::SharedNode;
use entry_lists::{History, Run, WrittenOut};
use node_commands::Node;
use node_history::{Entry, Line};
use std::fmt;
use std::sync::ledger::Share;
use thiserror::Error;
use undo_journal::Journal;

/// A node that is closed.
#[derive(Drop)]
pub struct Closed {
    /// All that seats asked, and what they were answered, in the order in which it was done.
    pub history: History<Entry>,
    /// The journal, at its last node.
    pub journal: Journal<Node>,
}

/// Why a node isn't closed, or not with its seats. What was handed in is handed back.
#[derive(Drop, Error)]
pub enum CloseError<N: Naming> {
    /// The seats handed in are not all of the node's, each once.
    #[error("the seats are not all of the node's, each once")]
    SeatCount {
        /// The node, as it was.
        node: SharedNode<N>,
        /// The seats, as they were.
        seats: Vec<Seat<N>>,
    },
    /// A seat's list isn't the history's.
    #[error("the list of a seat is not the history's")]
    Foreign {
        /// The node, closed.
        closed: Closed,
        /// The seats, as they were.
        seats: Vec<Seat<N>>,
    },
}

/// As it is displayed.
impl<N: Naming> fmt::Debug for CloseError<N> {
    fn fmt<W: fmt::Write>(&self, f: &mut fmt::Formatter<W>) -> fmt::Result {
        write!(f, "{self}")
    }
}

/// Whether the lines that are left go on with that of an entry, where it's of the seat with this number. That line
/// has then gone by.
fn goes_by(left: &mut WrittenOut<'_, Line>, number: u64, entry: &Entry) -> bool
    ensures yes { OnTrue result (left.old ≡ lines_of number (entry.now ∷ []) ++ left.new) }
    ensures no { OnFalse result ((rest : List Lined) → left.old ≡ lines_of number (entry.now ∷ []) ++ rest → ⊥) }
{
    if entry.seat != number {
        return true;
    }
    match left.next() {
        None => false,
        Some(line) => line.is_of(entry),
    }
}

/// Whether no line is left.
fn is_at_end(left: &mut WrittenOut<'_, Line>) -> bool
    ensures { IsTrue result ↔ (left.old ≡ []) }
{
    left.next().is_none()
}

/// Whether lines are those of a seat's entries in a history, in order.
fn is_list_of(number: u64, history: &[Run<Entry>], lines: &[Run<Line>]) -> bool
    requires { All (λ run. 0 < run.count) history.now × All (λ run. 0 < run.count) lines.now }
    ensures { IsTrue result ↔ (written_out lines.now ≡ lines_of number (written_out history.now)) }
{
    let mut left = WrittenOut::of(lines);
    let mut entries = WrittenOut::of(history);
    while let Some(entry) = entries.next() {
        if !goes_by(&mut left, number, entry) {
            return false;
        }
    }
    is_at_end(&mut left)
}

/// Whether some seat has another list than the history says.
fn has_foreign<N: Naming>(history: &[Run<Entry>], seats: &[Seat<N>]) -> bool
    requires { All (λ run. 0 < run.count) history.now }
    ensures yes { OnTrue result (HasForeign (written_out history.now) seats.now) }
    ensures no { OnFalse result (All (IsListOf (written_out history.now)) seats.now) }
{
    for i in 0..seats.len() {
        let seat = &seats[i];
        if !is_list_of(seat.number, history, seat.lines()) {
            return true;
        }
    }
    false
}

/// Whether one of the seats has a number.
fn has_number<N: Naming>(number: u64, seats: &[Seat<N>]) -> bool
    ensures { result ≡ has_number number seats.now }
{
    seats.iter().any(|seat| seat.number == number)
}

/// Whether no two seats have one number.
fn are_distinct<N: Naming>(seats: &[Seat<N>]) -> bool
    ensures { IsTrue result ↔ AreDistinct seats.now }
{
    let mut left = seats;
    while let Some((first, rest)) = left.split_first() {
        if has_number(first.number, rest) {
            return false;
        }
        left = rest;
    }
    true
}

/// Whether the numbers of seats are between 1 and a greatest.
fn are_within<N: Naming>(most: u64, seats: &[Seat<N>]) -> bool
    ensures { IsTrue result ↔ All (λ s. IsNumber most s.number) seats.now }
{
    seats
        .iter()
        .all(|seat| 0 < seat.number && seat.number <= most)
}

/// Whether these are so many seats, numbered from 1 to just that, each once.
fn are_all<N: Naming>(count: u64, seats: &[Seat<N>]) -> bool
    ensures { IsTrue result ↔ AreAll count seats.now }
{
    seats.len() as u64 == count && are_within(count, seats) && are_distinct(seats)
}

/// The parts of the ledger that a node and its seats have.
fn gathered<N: Naming>(mut rest: Share<N>, mut seats: Vec<Seat<N>>) -> Share<N>
    ensures parts { result.parts ≡ rest.parts + length seats.items }
    ensures amount { result.amount ≡ rest.amount + lines_in seats.items }
    ensures few { result.parts ≤ N.parts }
{
    while let Some(seat) = seats.pop() {
        let Seat {
            number: _,
            lines: _,
            share,
        } = seat;
        rest.merge(share);
    }
    let none = rest.empty();
    rest.merge(none);
    rest
}

/// Closes a node whose seats have what they keep of its history. The shares are put together, so that it's known that
/// nobody else has an entry.
fn settle<N: Naming>(core: Core<N>, seats: Vec<Seat<N>>) -> Closed
    requires each { AreAll N.seats seats.items }
    requires lists { All (IsListOf core.history) seats.items }
    ensures closed { IsClosed N.opened N.seats seats.items result.history.items result.journal }
    ensures kept { HandsOut core result }
{
    let _ = &core.few;
    let Core {
        alloc: _,
        booted: _,
        journal,
        history,
        mut book,
        rest,
        few: _,
    } = core;
    let mut all = gathered(rest, seats);
    book.audit(&mut all);
    Closed { history, journal }
}

/// A node, closed, whatever its seats have.
fn let_go<N: Naming>(core: Core<N>) -> Closed
    ensures { HandsOut core result }
{
    let Core {
        alloc: _,
        booted: _,
        journal,
        history,
        book: _,
        rest: _,
        few: _,
    } = core;
    Closed { history, journal }
}

/// Closes a node with all of its seats.
fn close_core<N: Naming>(core: Core<N>, seats: Vec<Seat<N>>) -> Result<Closed, CloseError<N>>
    requires { AreAll N.seats seats.items }
    ensures ok { IfOk result (λ closed. IsClosed N.opened N.seats seats.items closed.history.items closed.journal) }
    ensures err { IfErr result (IsForeign N.opened seats.items) }
    ensures kept { MatchResult result (HandsOut core) (HandsBack core) }
{
    if has_foreign(core.history.runs(), seats.as_slice()) {
        let closed = let_go(core);
        return Err(CloseError::Foreign { closed, seats });
    }
    Ok(settle(core, seats))
}

impl<N: Naming> SharedNode<N> {
    ghost use Rattle.std.specs.Prelude.{IfErr, IfOk};
    ghost use Rattle.node_lock.specs.Closing.{IsClosed};
    ghost use Rattle.node_lock.specs.Unclosed.{FailsToClose};

    /// Closes the node, once all its seats are back. Its history is then all that they have asked, and nothing that
    /// anybody else has. Takes no memory.
    ///
    /// # Errors
    ///
    /// `SeatCount` where the seats are not all of the node's, each once; then `Foreign` where a seat's list isn't the
    /// history's, which can't be but where a call has not been entered as it was listed.
    pub fn close(self, seats: Vec<Seat<N>>) -> Result<Closed, CloseError<N>>
        ensures ok { IfOk result (λ closed. IsClosed N.opened N.seats seats.items closed.history.items closed.journal) }
        ensures err { IfErr result (FailsToClose self N.opened N.seats seats.items) }
    {
        if !are_all(self.seats, seats.as_slice()) {
            return Err(CloseError::SeatCount { node: self, seats });
        }
        close_core(self.core.into_inner(), seats)
    }
}

// Seats.
ghost use Rattle.std.specs.Prelude.{◌≡◌, []};

use crate::naming::Naming;
use entry_lists::{Entries, Run};
use node_history::Line;
use std::alloc::{AllocError, Global};
use std::marker::Model;
use std::sync::ledger::Share;

/// Who asks: a client of the node, with its number, and what it was answered. Contracts see the number and the lines, in order.
///
/// It has a part of the ledger that counts what seats ask, and in that part as many as it has lines.
#[derive(Drop)]
pub struct Seat<N: Naming> {
    pub(crate) number: u64,
    pub(crate) lines: Entries<Line>,
    pub(crate) share: Share<N>,
}

impl<N: Naming> Model for Seat<N> {
    ghost use Rattle.std.specs.Coded.{codes};
    ghost use Rattle.std.specs.Prelude.{◌≡◌, length};
    ghost use Rattle.erl_term.specs.contracts.term.Terms as terms;
    ghost use Rattle.erl_ir.specs.contracts.module.Module as forms;
    ghost use Rattle.node_lock.specs.Core.{SeatState};

    ghost Value = { SeatState };

    ghost coded = { Prim.hlevel (codes, terms.the_row.coded, forms.the_row.coded) };

    ghost view = { λ s. record { number = s.number; lines = s.lines.items } };

    ghost invariant = { λ s. (s.share.parts ≡ 1) × (s.share.amount ≡ length s.lines.items) };
}

impl<N: Naming> Seat<N> {
    ghost use Rattle.node_lock.specs.Core.{SeatState};
    ghost use Rattle.std.specs.Prelude.{◌≡◌, [], All};
    ghost use Rattle.entry_lists.specs.Entries.{IsRun, written_out};
    ghost use Rattle.node_history.specs.History.{IsIdleLine};

    /// A seat that has asked nothing yet. Takes no memory.
    pub(crate) fn new(alloc: Global, number: u64, share: Share<N>) -> Seat<N>
        requires { (share.parts ≡ 1) × (share.amount ≡ 0) }
        ensures { (result.number ≡ number) × (result.lines ≡ []) }
    {
        Seat {
            number,
            lines: Entries::new(alloc),
            share,
        }
    }

    /// Makes room for one more line, if there is none.
    pub(crate) fn make_room(&mut self) -> Result<(), AllocError>
        ensures { self.new ≡ self.old }
    {
        self.lines.make_room()
    }

    /// Its number: the client that its calls come from. Takes no memory.
    pub fn number(&self) -> u64
        ensures { result ≡ self.now.number }
    {
        self.number
    }

    /// What it has asked and was answered, in order: each line as often as its run counts it, which is once but for
    /// idle commands. Takes no memory.
    pub fn lines(&self) -> &[Run<Line>]
        ensures lines { written_out result.now ≡ self.now.lines }
        ensures counts { All (IsRun IsIdleLine) result.now }
    {
        self.lines.runs()
    }
}

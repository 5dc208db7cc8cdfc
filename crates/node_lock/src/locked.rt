// The node that seats share, as it lies under the lock.
ghost use Rattle.std.specs.Prelude.{◌≡◌, ◌+◌, [], IfErr, IfOk};
ghost use Rattle.release_boot.specs.Boot.{BootFails};

use crate::entering::put;
use crate::error::LockError;
use crate::naming::{Few, Naming};
use crate::seat::Seat;
use entry_lists::History;
use node_commands::{Node, act};
use node_history::{Command, Entry, Said};
use release_boot::BootError;
use release_table::Release;
use std::alloc::Global;
use std::hash::RandomState;
use std::marker::Model;
use std::snapshot::Snapshot;
use std::sync::ledger::{Book, Share};
use undo_journal::Journal;
use values::Duplicate;

/// A node that several seats share, and the history of what they asked: the value that one holding of the lock changes.
///
/// Contracts see the node that it booted, the history, and the journal's timeline; the history has led from the one
/// to the other. The ledger's book counts the entries; the parts of the ledger that no seat has lie here.
#[derive(Drop)]
pub struct Core<N: Naming> {
    pub(crate) alloc: Global,
    pub(crate) booted: Snapshot<Node>,
    pub(crate) journal: Journal<Node>,
    pub(crate) history: History<Entry>,
    pub(crate) book: Book<N>,
    pub(crate) rest: Share<N>,
    pub(crate) few: Few<N>,
}

impl<N: Naming> Model for Core<N> {
    ghost use Rattle.std.specs.Coded.{codes};
    ghost use Rattle.std.specs.Prelude.{◌≡◌, ◌+◌, length};
    ghost use Rattle.erl_term.specs.contracts.term.Terms as terms;
    ghost use Rattle.erl_ir.specs.contracts.module.Module as forms;
    ghost use Rattle.node_lock.specs.Core.{CoreState, HasLegalHistory};

    ghost Value = { CoreState };

    ghost coded = { Prim.hlevel (codes, terms.the_row.coded, forms.the_row.coded) };

    ghost view = { λ c. record { booted = c.booted.value; history = c.history.items; timeline = c.journal } };

    ghost invariant = { λ c.
        HasLegalHistory N.opened (record { booted = c.booted.value; history = c.history.items; timeline = c.journal })
        × (c.book.total ≡ length c.history.items) × (c.rest.parts + N.seats ≡ 17) × (c.rest.amount ≡ 0) };
}

impl<N: Naming> Core<N> {
    ghost use Rattle.std.specs.Prelude.{◌≡◌, ◌+◌, [], IfErr, IfOk};
    ghost use Rattle.node_lock.specs.Core.{Enters};
    ghost use Rattle.node_lock.specs.Seats.{Lists};
    ghost use Rattle.release_boot.specs.Boot.{BootFails};

    /// The node that the name's release boots, of which nothing was asked yet. Names are hashed by `hashing`.
    ///
    /// # Errors
    ///
    /// `NotStarted` of the first application that doesn't start, and `Memory`.
    pub(crate) fn open(
        alloc: Global,
        hashing: RandomState,
        release: &Release,
        book: Book<N>,
        rest: Share<N>,
        few: Few<N>,
    ) -> Result<Core<N>, BootError>
        requires release { release.now ≡ N.opened }
        requires book { book.total ≡ 0 }
        requires rest { (rest.parts + N.seats ≡ 17) × (rest.amount ≡ 0) }
        ensures opened { IfOk result (λ c. c.history ≡ []) }
        ensures failed { IfErr result (λ e. BootFails e N.opened) }
    {
        let node = Node::boot(alloc, hashing, release)?;
        let booted = Snapshot::of(&node);
        let history = History::new(alloc);
        let journal = Journal::new(alloc, node)?;
        Ok(Core {
            alloc,
            booted,
            journal,
            history,
            book,
            rest,
            few,
        })
    }

    /// Does what a seat asks, and enters it in the history and in the seat's list, with what it is answered.
    ///
    /// Room for the entry is made before anything else, so that want of it comes before each refusal. It costs what
    /// the command changes or copies.
    ///
    /// # Errors
    ///
    /// What the node or its journal refuses is entered as a fault. `Memory` where memory is refused, and then all is
    /// as it was. But an undo that has cut stations before is entered as the undo to the mark where it stands, and
    /// told with the journal's error.
    pub fn enter(&mut self, seat: &mut Seat<N>, command: Command) -> Result<Said, LockError>
        ensures entered { Enters command result self.old seat.old self.new seat.new }
        ensures listed { Lists command result seat.old seat.new }
    {
        self.history.make_room()?;
        seat.lines.make_room()?;
        let listed = command.copy(self.alloc)?;
        let number = seat.number;
        let acted = act(
            self.alloc,
            &mut self.journal,
            &mut self.history,
            number,
            &command,
        )?;
        self.book.add(&mut seat.share, 1);
        put(
            &mut self.history,
            &mut seat.lines,
            number,
            command,
            listed,
            acted,
        )
    }
}

// What an undo of an event reports.
ghost use Rattle.std.specs.Prelude.{◌≡◌, [], None, Some};
ghost use Rattle.std.specs.Option.{option_copied};

use erl_term::{Atom, Term};
use process_effects::Reply;
use std::alloc::{AllocError, Global};
use std::marker::Model;
use values::{Duplicate, Row, Same};

/// How a note is kept: an arrival sends no replies, so one place serves for both.
#[derive(Drop)]
enum Reported {
    /// The replies that were sent, in order.
    Replies(Row<Reply>),
    /// The name and the message of an arrival.
    Arrival((Atom, Term)),
}

/// What an undo of an event reports: the replies that were sent, in order, or the name and the message of an arrival.
pub struct Note {
    reported: Reported,
}

/// It is taken apart here, so that who drops one above has nothing to prove of its parts.
impl Drop for Note {
    fn drop(self) {
        let Note {
            reported: _reported,
        } = self;
    }
}

impl Model for Note {
    ghost use Rattle.std.specs.Coded.{codes};
    ghost use Rattle.erl_term.specs.contracts.term.Terms as terms;
    ghost use Rattle.node_types.specs.Note as notes;
    ghost use Rattle.node_types.specs.Reported.{note_of};

    ghost Value = { notes.Note };

    ghost coded = { Prim.hlevel (codes, terms.the_row.coded) };

    ghost view = { λ n. note_of n.reported };
}

impl Note {
    /// That these replies were sent, and nothing came.
    pub fn of_replies(replies: Row<Reply>) -> Note
        ensures { result ≡ record { replies = replies; arrival = None } }
    {
        Note {
            reported: Reported::Replies(replies),
        }
    }

    /// That this message came for the process of a name.
    pub fn of_arrival(name: Atom, message: Term) -> Note
        ensures { result ≡ record { replies = []; arrival = Some (name, message) } }
    {
        Note {
            reported: Reported::Arrival((name, message)),
        }
    }

    /// The replies that were sent, in order. Takes no memory.
    pub fn replies(&self) -> &[Reply]
        ensures { result.now ≡ self.now.replies }
    {
        match &self.reported {
            Reported::Replies(replies) => replies.as_slice(),
            Reported::Arrival(_) => &[],
        }
    }

    /// The name and the message of an arrival. Takes no memory.
    pub fn arrival(&self) -> Option<&(Atom, Term)>
        ensures { option_copied result ≡ self.now.arrival }
    {
        match &self.reported {
            Reported::Replies(_) => None,
            Reported::Arrival(arrival) => Some(arrival),
        }
    }

    /// The replies that were sent, in order, for who keeps them. Takes no memory.
    pub fn into_replies(self, alloc: Global) -> Row<Reply>
        ensures { result ≡ self.replies }
    {
        let Note { reported } = self;
        match reported {
            Reported::Replies(replies) => replies,
            Reported::Arrival(_) => Row::new(Vec::new(alloc)),
        }
    }
}

impl Duplicate for Note {
    fn copy(&self, alloc: Global) -> Result<Note, AllocError> {
        let reported = match &self.reported {
            Reported::Replies(replies) => Reported::Replies(replies.copy(alloc)?),
            Reported::Arrival(arrival) => Reported::Arrival(arrival.copy(alloc)?),
        };
        Ok(Note { reported })
    }
}

impl Same for Note {
    fn same(&self, other: &Note) -> bool {
        match (&self.reported, &other.reported) {
            (Reported::Replies(replies), Reported::Replies(with)) => replies.same(with),
            (Reported::Arrival(arrival), Reported::Arrival(with)) => arrival.same(with),
            (_, _) => false,
        }
    }
}

// A history whose replies are found by client.
ghost use Rattle.std.specs.Prelude.{◌≡◌, ◌++◌, ◌∷◌, [], All, IfOk, IsOk, IsTrue, OnErr, OnOk, drop, length};
ghost use Rattle.entry_lists.specs.Entries.{GrowsAtEnd, IsRun, RepeatsLast, entries_of, written_out};
ghost use Rattle.entry_lists.specs.Replies.{replies_to};

use crate::entries::{Entries, Run};
use crate::found::{Found, find_all};
use crate::replying::Replying;
use std::alloc::{AllocError, Global};
use std::marker::Model;
use values::{Row, copied_slice};

/// Entries in order, with the replies that were found in them so far, by client. Contracts see it as its entries, and
/// their runs.
#[derive(Drop)]
pub struct History<E: Replying> {
    entries: Entries<E>,
    found: Found<E::Reply>,
}

impl<E: Replying> Model for History<E> {
    ghost use Rattle.entry_lists.specs.Entries.{EntryList};
    ghost use Rattle.entry_lists.specs.Found.{HasLooked};
    ghost use Rattle.entry_lists.specs.Replies.{replies_by_run};

    ghost Value = { EntryList E };

    ghost view = { λ h. h.entries };

    ghost invariant = { λ h. HasLooked E.client_of (replies_by_run E.replies_of h.entries.runs) h.found };
}

impl<E: Replying> History<E> {
    /// No entries. Takes no memory.
    pub fn new(alloc: Global) -> History<E>
        ensures items { result.items ≡ [] }
        ensures runs { result.runs ≡ [] }
    {
        History {
            entries: Entries::new(alloc),
            found: Found::new(alloc),
        }
    }

    /// How many entries there are, each repeat counted. In constant time.
    pub fn len(&self) -> u64
        ensures { result ≡ length self.now.items }
    {
        self.entries.len()
    }

    /// The entries as runs, in order: each entry as often as its run counts it, once or more, and more than once only where it
    /// is idle. Takes no memory.
    pub fn runs(&self) -> &[Run<E>]
        ensures items { written_out result.now ≡ self.now.items }
        ensures runs { result.now ≡ self.now.runs }
        ensures counts { All (IsRun E.IsIdle) result.now }
    {
        self.entries.runs()
    }

    /// Makes room for one more entry, if there is none.
    ///
    /// # Errors
    ///
    /// `AllocError` where memory is refused, and where there are 2^64 - 1 entries, since no `u64` says how many there would be
    /// with one more. All is then as it was.
    pub fn make_room(&mut self) -> Result<(), AllocError>
        ensures items { self.new.items ≡ self.old.items }
        ensures runs { self.new.runs ≡ self.old.runs }
        ensures ok { OnOk result (IsTrue self.new.room) }
        ensures succeeds { IsTrue self.old.room → IsOk result }
        ensures err { OnErr result (self.new ≡ self.old) }
    {
        self.entries.make_room()
    }

    /// The replies to a client in all entries, in order, from an index on, counted from 0. It finds those to any client that came
    /// since the last call, and copies those that it hands out.
    ///
    /// # Errors
    ///
    /// `AllocError` where memory is refused. The history is as it was, and what was found by then isn't looked for again.
    pub fn replies(
        &mut self,
        alloc: Global,
        client: u64,
        from: usize,
    ) -> Result<Row<E::Reply>, AllocError>
        ensures kept { self.new ≡ self.old }
        ensures found { IfOk result (λ row.
            row ≡ drop from (replies_to E.replies_of E.client_of client self.old.items)) }
    {
        find_all(&mut self.found, alloc, self.entries.runs())?;
        let replies = self.found.list(client);
        let start = from.min(replies.len());
        Ok(Row::new(copied_slice(alloc, &replies[start..])?))
    }
}

impl<E: Replying + Drop> History<E> {
    /// Puts an entry behind the others, where there is room. Takes no memory. An idle entry that says the same as the last entry
    /// is counted with that, and leaves the memory for another.
    pub fn push(&mut self, entry: E)
        requires { IsTrue self.old.room }
        ensures items { self.new.items ≡ self.old.items ++ entry ∷ [] }
        ensures runs { GrowsAtEnd (entries_of self.old.runs) (entries_of self.new.runs) }
        ensures counted { RepeatsLast E.IsIdle self.old.runs entry → entries_of self.new.runs ≡ entries_of self.old.runs }
    {
        self.entries.push(entry);
    }
}

// Entries in order, of which repeats take no room.
ghost use Rattle.std.specs.Prelude.{◌≡◌, ◌↔◌, ◌^◌, ◌-◌, ◌<◌, ◌++◌, ◌∷◌, [], All, IsOk, IsTrue, OnErr, OnOk, length};
ghost use Rattle.std.specs.Bool.{OnFalse, OnTrue};
ghost use Rattle.entry_lists.specs.Entries.{GrowsAtEnd, IsRun, RepeatsLast, entries_of, written_out};

use std::alloc::{AllocError, Global};
use std::marker::Model;

/// A type of entries, some of which stand often in a row and say the same.
pub trait Repeats {
    /// Whether an entry is idle: what was asked found nothing to do.
    ghost IsIdle: { Self → Type 0 };

    /// Whether it is idle that says the same as another: then they are equal. Takes no memory.
    fn repeats(&self, other: &Self) -> bool
        ensures { IsTrue result ↔ (self.now ≡ other.now) × IsIdle self.now };
}

/// An entry, and how often it stands in a row.
#[derive(Drop)]
pub struct Run<E> {
    /// The entry.
    pub entry: E,
    /// How often it stands there.
    pub count: u64,
}

/// Entries in order. Contracts see them as the list of all, each repeat written out, as the runs that they are kept in, and
/// whether there is room for one more.
///
/// Idle entries in a row that say the same are kept as one, with their number: one worker alone that finds nothing to do fills no
/// memory, however long it looks.
#[derive(Drop)]
pub struct Entries<E: Repeats> {
    runs: Vec<Run<E>>,
    /// How many entries there are.
    len: u64,
}

impl<E: Repeats> Model for Entries<E> {
    ghost use Rattle.std.specs.Prelude.{◌≡◌, ◌^◌, ◌-◌, ◌&&◌, All, length, nat_lt, vec_capacity, vec_len};
    ghost use Rattle.entry_lists.specs.Entries.{EntryList, IsRun, written_out};

    ghost Value = { EntryList E };

    ghost view = { λ e. record {
      runs = e.runs.items;
      items = written_out e.runs.items;
      room = nat_lt (vec_len e.runs) (vec_capacity e.runs) && nat_lt e.len (2 ^ 64 - 1);
    } };

    ghost invariant = { λ e. (e.len ≡ length (written_out e.runs.items)) × All (IsRun E.IsIdle) e.runs.items };
}

impl<E: Repeats> Entries<E> {
    /// No entries. Takes no memory.
    pub fn new(alloc: Global) -> Entries<E>
        ensures items { result.items ≡ [] }
        ensures runs { result.runs ≡ [] }
    {
        Entries {
            runs: Vec::new(alloc),
            len: 0,
        }
    }

    /// How many entries there are, each repeat counted. In constant time.
    pub fn len(&self) -> u64
        ensures { result ≡ length self.now.items }
    {
        self.len
    }

    /// The entries as runs, in order: each entry as often as its run counts it, once or more, and more than once only where it
    /// is idle. Takes no memory.
    pub fn runs(&self) -> &[Run<E>]
        ensures items { written_out result.now ≡ self.now.items }
        ensures runs { result.now ≡ self.now.runs }
        ensures counts { All (IsRun E.IsIdle) result.now }
    {
        self.runs.as_slice()
    }

    /// Makes room for one more entry, if there is none.
    ///
    /// # Errors
    ///
    /// `AllocError` where memory is refused, and where there are 2^64 - 1 entries, since no `u64` says how many there would be
    /// with one more. All is then as it was.
    pub fn make_room(&mut self) -> Result<(), AllocError>
        ensures items { self.new.items ≡ self.old.items }
        ensures runs { self.new.runs ≡ self.old.runs }
        ensures ok { OnOk result (IsTrue self.new.room) }
        ensures succeeds { IsTrue self.old.room → IsOk result }
        ensures err { OnErr result (self.new ≡ self.old) }
    {
        if self.len == u64::MAX {
            return Err(AllocError);
        }
        self.runs.reserve(1)
    }
}

impl<E: Repeats + Drop> Entries<E> {
    /// Puts an entry behind the others, where there is room. Takes no memory. An idle entry that says the same as the last entry
    /// is counted with that, and leaves the memory for another.
    pub fn push(&mut self, entry: E)
        requires { IsTrue self.old.room }
        ensures items { self.new.items ≡ self.old.items ++ entry ∷ [] }
        ensures runs { GrowsAtEnd (entries_of self.old.runs) (entries_of self.new.runs) }
        ensures counted { RepeatsLast E.IsIdle self.old.runs entry → entries_of self.new.runs ≡ entries_of self.old.runs }
    {
        let counted = count_repeat(&mut self.runs, &entry);
        self.len += 1;
        if !counted {
            self.runs.push_reserved(Run { entry, count: 1 });
        }
    }
}

/// Counts an entry with the last run, where it repeats that run's entry, and answers whether it did. Else the runs are as they
/// were.
///
/// A run counts no more than all entries, so that its count doesn't overflow.
fn count_repeat<E: Repeats>(runs: &mut [Run<E>], entry: &E) -> bool
    requires counts { All (IsRun E.IsIdle) runs.old }
    requires few { length (written_out runs.old) < 2 ^ 64 - 1 }
    ensures counted { OnTrue result (written_out runs.new ≡ written_out runs.old ++ entry.now ∷ []) }
    ensures unchanged { OnFalse result (runs.new ≡ runs.old) }
    ensures other { OnFalse result (RepeatsLast E.IsIdle runs.old entry.now → ⊥) }
    ensures entries { entries_of runs.new ≡ entries_of runs.old }
    ensures counts { All (IsRun E.IsIdle) runs.new }
{
    let Some(last) = runs.last_mut() else {
        return false;
    };
    if !last.entry.repeats(entry) {
        return false;
    }
    last.count += 1;
    true
}

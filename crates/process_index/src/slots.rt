// What is kept by number.
ghost use Rattle.std.specs.Prelude.{◌≡◌, ◌+◌, ◌-◌, ◌^◌, ◌<◌, ◌++◌, ◌∷◌, [], ℕ, None, Some, IfErr, OnErr, OnOk, drop, length, take};
ghost use Rattle.std.specs.Borrow.{sem};
ghost use Rattle.std.specs.Map.Iter.{ShowsInOrder, deref_pair};
ghost use Rattle.std.specs.Option.{option_copied, option_copied_mut};
ghost use Rattle.process_index.specs.Standing.{alive, alive_from, put_at, stands_at, taken_at, vacant};

use std::alloc::Global;
use std::collections::BTreeMap;
use std::collections::btree_map::{Iter, Range};
use std::marker::Model;

/// What is kept by pid, of which few may live: pids are given one after another, and one is not given again.
///
/// Contracts see it as a list: at each pid, from 0 on, what lives there, or nothing. Memory and time hang on what lives
/// alone, and not on how many pids were given.
#[derive(Drop)]
pub struct Slots<T> {
    /// What lives, by its pid.
    living: BTreeMap<u64, T>,
    /// The pid that was given last.
    last: u64,
}

impl<T> Model for Slots<T> {
    ghost use Rattle.std.specs.Prelude.{◌≡◌, ◌<◌, ℕ, suc, List, Option, None};
    ghost use Rattle.std.specs.BTreeMap.{get};
    ghost use Rattle.std.specs.Ordering.{nat_cmp};
    ghost use Rattle.process_index.specs.Standing.{standing};

    ghost Value = { List (Option T) };

    ghost view = { λ s. standing (get nat_cmp s.living) 0 (suc s.last) };

    ghost invariant = { λ s. (q : ℕ) → s.last < q → get nat_cmp s.living q ≡ None };
}

impl<T: Drop> Slots<T> {
    ghost use Rattle.process_index.specs.Slots.{lends_living};

    /// One pid was given, 0, and nothing lives there. Takes no memory.
    pub fn new(alloc: Global) -> Slots<T>
        ensures { result ≡ None ∷ [] }
    {
        Slots {
            living: BTreeMap::new(alloc),
            last: 0,
        }
    }

    /// As many pids as were given here, and nothing lives at any. Takes no memory.
    pub fn vacant(&self, alloc: Global) -> Slots<T>
        ensures { result ≡ vacant self.now }
    {
        Slots {
            living: BTreeMap::new(alloc),
            last: self.last,
        }
    }

    /// The pid that was given last. Takes no memory.
    pub fn last(&self) -> u64
        ensures { result + 1 ≡ length self.now }
    {
        self.last
    }

    /// What lives at a pid, in logarithmic time. Takes no memory.
    pub fn get(&self, pid: u64) -> Option<&T>
        ensures { option_copied result ≡ stands_at self.now pid }
    {
        self.living.get(&pid)
    }

    /// What lives at a pid, to be changed, in logarithmic time. Takes no memory.
    pub fn get_mut(&mut self, pid: u64) -> Option<&mut T>
        ensures* writes_back { sem 𝓛 (lends_living T.row self.entry pid result) }
        ensures value { option_copied_mut result ≡ stands_at self.old pid }
    {
        self.living.get_mut(&pid)
    }

    /// Gives the next pid, and this lives there.
    ///
    /// # Errors
    ///
    /// What was to live there, where memory is refused. All is then as it was.
    pub fn push(&mut self, it: T) -> Result<(), T>
        requires { length self.old < 2 ^ 64 }
        ensures ok { OnOk result (self.new ≡ self.old ++ Some it ∷ []) }
        ensures back { IfErr result (λ back. back ≡ it) }
        ensures err { OnErr result (self.new ≡ self.old) }
    {
        let pid = self.last + 1;
        match self.living.insert(pid, it) {
            Ok(_) => {
                self.last = pid;
                Ok(())
            }
            Err(failed) => Err(failed.value.1),
        }
    }

    /// The pid that was given last is given no more. What lived there is handed out. Takes no memory.
    pub fn pop(&mut self) -> Option<T>
        requires { 1 < length self.old }
        ensures last { result ≡ stands_at self.old (length self.old - 1) }
        ensures rest { self.new ≡ take (length self.old - 1) self.old }
    {
        let last = self.living.remove(&self.last);
        self.last -= 1;
        last
    }

    /// What lives at a pid lives there no more, and is handed out. Takes no memory.
    pub fn take(&mut self, pid: u64) -> Option<T>
        ensures taken { result ≡ stands_at self.old pid }
        ensures rest { self.new ≡ taken_at pid self.old }
    {
        self.living.remove(&pid)
    }

    /// This lives at a pid that was given. What lived there before is dropped.
    ///
    /// # Errors
    ///
    /// What was to live there, where memory is refused. All is then as it was.
    pub fn put(&mut self, pid: u64, it: T) -> Result<(), T>
        requires { pid < length self.old }
        ensures ok { OnOk result (self.new ≡ put_at pid it self.old) }
        ensures back { IfErr result (λ back. back ≡ it) }
        ensures err { OnErr result (self.new ≡ self.old) }
    {
        match self.living.insert(pid, it) {
            Ok(_) => Ok(()),
            Err(failed) => Err(failed.value.1),
        }
    }

    /// What lives, with its pid, in order. Takes no memory.
    pub fn iter(&self) -> Iter<'_, u64, T>
        ensures rest { result ≡ alive self.now }
        ensures runs { ShowsInOrder (deref_pair {K = ℕ} {X = T}) }
    {
        self.living.iter()
    }

    /// What lives at a pid or behind it, with its pid, in order; the first is found in logarithmic time. Takes no memory.
    pub fn iter_from(&self, pid: u64) -> Range<'_, u64, T>
        ensures rest { result ≡ alive_from pid (drop pid self.now) }
        ensures runs { ShowsInOrder (deref_pair {K = ℕ} {X = T}) }
    {
        self.living.range(pid..)
    }
}

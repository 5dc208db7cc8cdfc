// The pids of the processes that could take a message now.
ghost use Rattle.std.specs.Prelude.{◌≡◌, ◌+◌};
ghost use Rattle.ready_set.specs.Flags.{IsNext, is_in};

use ready_set::ReadySet;
use std::marker::Model;

/// The pids of the processes that could take a message now, in order, lent by the table.
///
/// Contracts see it as a set of numbers: for each pid that was given, whether it is in the set.
#[derive(Drop)]
pub struct Ready<'a> {
    // The numbers of the pids above one, the first that of the next pid.
    numbers: &'a ReadySet,
    below: u64,
}

impl<'a> Model for Ready<'a> {
    ghost use Rattle.std.specs.Prelude.{List, Bool, ◌+◌, ◌^◌, ◌≤◌, length};
    ghost use Rattle.process_store.specs.Ready.{set_above};

    ghost Value = { List Bool };

    ghost view = { λ r. set_above r.below r.numbers.now };

    ghost invariant = { λ r. r.below + 1 + length r.numbers.now ≤ 2 ^ 64 };
}

impl<'a> Ready<'a> {
    ghost use Rattle.std.specs.Prelude.{◌^◌, ◌≤◌, length};
    ghost use Rattle.process_store.specs.Ready.{set_above};

    /// The numbers of a set, as those of the pids above one.
    pub(crate) fn new(numbers: &'a ReadySet, below: u64) -> Ready<'a>
        requires { below + 1 + length numbers.now ≤ 2 ^ 64 }
        ensures { result ≡ set_above below numbers.now }
    {
        Ready { numbers, below }
    }

    /// Whether a pid is among them. Takes no memory.
    pub fn contains(&self, pid: u64) -> bool
        ensures { result ≡ is_in self.now pid }
    {
        self.below < pid && self.numbers.contains((pid - self.below - 1) as usize)
    }

    /// The least of them above a pid, in logarithmic time. Takes no memory.
    pub fn next(&self, after: u64) -> Option<u64>
        ensures { IsNext (after + 1) self.now result }
    {
        match self.numbers.next(after.saturating_sub(self.below) as usize) {
            Some(number) => Some(self.below + 1 + number as u64),
            None => None,
        }
    }
}

// Entries, gone through one by one.
ghost use Rattle.std.specs.Prelude.{◌≡◌, ◌∷◌, [], All, IfSome, MatchOption, drop};
ghost use Rattle.entry_lists.specs.Entries.{IsRun, written_out};

use crate::entries::Run;
use std::marker::Model;

/// Entries that are gone through in order, each as often as its run counts it. Contracts see those that are left.
#[derive(Drop)]
pub struct WrittenOut<'a, E> {
    runs: &'a [Run<E>],
    /// How often the first run's entry was given.
    given: u64,
}

impl<'a, E> Model for WrittenOut<'a, E> {
    ghost use Rattle.std.specs.Prelude.{List, drop};
    ghost use Rattle.entry_lists.specs.Entries.{HasLeft, written_out};

    ghost Value = { List E };

    ghost view = { λ w. drop w.given (written_out w.runs.now) };

    ghost invariant = { λ w. HasLeft w.given w.runs.now };
}

impl<'a, E> WrittenOut<'a, E> {
    ghost use Rattle.std.specs.Prelude.{◌≡◌, ◌∷◌, [], ◌<◌, All};
    ghost use Rattle.entry_lists.specs.Entries.{written_out};

    /// All entries of runs.
    pub fn of(runs: &'a [Run<E>]) -> WrittenOut<'a, E>
        requires { All (λ run. 0 < run.count) runs.now }
        ensures { result ≡ written_out runs.entry.now }
    {
        WrittenOut { runs, given: 0 }
    }

    /// The next entry, if one is left. In constant time.
    pub fn next(&mut self) -> Option<&'a E>
        ensures { MatchOption result (self.old ≡ []) (λ entry. self.old ≡ entry.now ∷ self.new) }
    {
        let (first, rest) = self.runs.split_first()?;
        let count = first.count;
        self.given += 1;
        if self.given == count {
            self.runs = rest;
            self.given = 0;
        }
        Some(&first.entry)
    }
}

// What is told of a row of terms without a look at each.
ghost use Rattle.std.specs.Prelude.{◌≡◌, ◌+◌, ◌^◌, ◌<◌, ◌++◌, List, length};
ghost use Rattle.erl_term.specs.Parts.{HasExtent};

use super::Term;

/// The greatest depth of terms, the last index that has it, and the sum of their sizes.
#[derive(Clone, Copy)]
pub(super) struct Extent {
    pub(super) depth: u64,
    pub(super) last: usize,
    pub(super) size: u64,
}

impl Extent {
    /// What is told of so many terms and of others behind them, of which this is told.
    pub(super) fn then(self, len: usize, behind: Extent) -> Extent
        requires { len + behind.last < 2 ^ 64 }
        ensures { (xs ys : List Term) → length xs ≡ len → HasExtent xs self.depth self.last self.size →
            HasExtent ys behind.depth behind.last behind.size
            → HasExtent (xs ++ ys) result.depth result.last result.size }
    {
        let size = self.size.saturating_add(behind.size);
        if behind.depth < self.depth {
            return Extent {
                depth: self.depth,
                last: self.last,
                size,
            };
        }
        Extent {
            depth: behind.depth,
            last: len + behind.last,
            size,
        }
    }
}

/// What is told of these terms. It looks at each, and no further down.
pub(super) fn told_of(items: &[Term]) -> Extent
    ensures { HasExtent items.now result.depth result.last result.size }
{
    let mut told = Extent {
        depth: 0,
        last: 0,
        size: 0,
    };
    for (i, term) in items.iter().enumerate() {
        let depth = term.depth();
        if told.depth <= depth {
            told.depth = depth;
            told.last = i;
        }
        told.size = told.size.saturating_add(term.size());
    }
    told
}

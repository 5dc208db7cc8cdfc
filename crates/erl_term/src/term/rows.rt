// Rows of terms.
ghost use Rattle.std.specs.Prelude.{◌≡◌, ◌∷◌, [], ◌+◌, ◌++◌, ◌-◌, ◌^◌, ◌<◌, ◌≤◌, ◌↔◌, min, IsTrue, IfOk, IfSome, length, drop};
ghost use Rattle.erl_term.specs.Stored.{listed};
ghost use Rattle.erl_term.specs.Parts.{behind, HasExtent};
ghost use Rattle.erl_term.specs.Rows.{append_trees};
ghost use Rattle.erl_term.specs.Term.{trees};
ghost use Rattle.erl_term.specs.Tree.{none, count, greatest_depth, total_size};

use super::told::{Extent, told_of};
use super::{Row, Stored, Term, Terms};
use std::alloc::{AllocError, Global};
use std::sync::Arc;
use values::{Duplicate, copied_slice};

impl Terms {
    /// The row of these terms, in no more room than they take.
    ///
    /// # Errors
    ///
    /// `AllocError` where memory is refused.
    pub fn new(alloc: Global, items: Vec<Term>) -> Result<Terms, AllocError>
        ensures { IfOk result (λ it. it ≡ trees items.items) }
    {
        let items = Stored::of(alloc, items)?;
        let told = told_of(items.as_slice());
        row_of(alloc, items, told)
    }

    /// The row of two terms.
    ///
    /// # Errors
    ///
    /// `AllocError` where memory is refused.
    pub fn of_two(alloc: Global, first: Term, second: Term) -> Result<Terms, AllocError>
        ensures { IfOk result (λ it. it ≡ trees (first ∷ second ∷ [])) }
    {
        let items = Stored::Two([first, second]);
        let told = told_of(items.as_slice());
        row_of(alloc, items, told)
    }

    /// The row of three terms.
    ///
    /// # Errors
    ///
    /// `AllocError` where memory is refused.
    pub fn of_three(
        alloc: Global,
        first: Term,
        second: Term,
        third: Term,
    ) -> Result<Terms, AllocError>
        ensures { IfOk result (λ it. it ≡ trees (first ∷ second ∷ third ∷ [])) }
    {
        let items = Stored::Three([first, second, third]);
        let told = told_of(items.as_slice());
        row_of(alloc, items, told)
    }

    /// The row of these terms and, behind them, those of another row. Each of them is shared; what the other row tells of its
    /// own is not looked for again.
    ///
    /// # Errors
    ///
    /// `AllocError` where memory is refused.
    pub fn joined(alloc: Global, front: &[Term], back: &Terms) -> Result<Terms, AllocError>
        ensures { IfOk result (λ it. it ≡ append_trees (trees front.now) back.now) }
    {
        let row: &Row = &back.row;
        let from = back.from as usize;
        let back_terms = seen(row.items.as_slice(), from);
        let told = Extent {
            depth: u64::from(row.depth),
            last: row.last as usize - from,
            size: row.size - u64::from(back.hidden),
        };
        let told = told_of(front).then(front.len(), told);
        row_of(alloc, Stored::Many(copies(alloc, front, back_terms)?), told)
    }

    /// The terms, in order: moved out where the row has this one owner, and copied where it has more.
    ///
    /// # Errors
    ///
    /// `AllocError` where memory is refused.
    pub fn into_vec(self, alloc: Global) -> Result<Vec<Term>, AllocError>
        ensures { IfOk result (λ items. trees items.items ≡ self) }
    {
        let Terms { row, from, .. } = self;
        match Arc::try_unwrap(row) {
            Ok(row) => Ok(from_index(row.items.into_vec(alloc)?, from as usize)),
            Err(row) => copied_slice(alloc, seen(row.items.as_slice(), from as usize)),
        }
    }

    /// How many terms. Takes no memory.
    pub fn len(&self) -> usize
        ensures { result ≡ count self.now }
    {
        self.as_slice().len()
    }

    /// Whether there are none. Takes no memory.
    pub fn is_empty(&self) -> bool
        ensures { IsTrue result ↔ (self.now ≡ none) }
    {
        self.as_slice().is_empty()
    }

    /// The terms, in order. Takes no memory.
    pub fn as_slice(&self) -> &[Term]
        ensures { trees result.now ≡ self.now }
    {
        seen(self.row.items.as_slice(), self.from as usize)
    }

    /// The row behind the first term, as the BIF `tl/1` gives it of a list; of an empty row an empty row. It shares what
    /// it holds with this one, and takes no memory, but where the first term is the last that is as deep as it, or the
    /// terms passed so far are `2^32` or more or have that size together, or the size of all is `2^64 - 1`: the terms
    /// behind are then copied into a row of their own, each by sharing.
    ///
    /// # Errors
    ///
    /// `AllocError` where memory is refused.
    pub fn rest(&self, alloc: Global) -> Result<Terms, AllocError>
        ensures { IfOk result (λ it. it ≡ behind self.now) }
    {
        let terms = seen(self.row.items.as_slice(), self.from as usize);
        let Some((first, others)) = terms.split_first() else {
            return self.copy(alloc);
        };
        let next = next_index(self.from, self.hidden, self.row.last as usize, first.size());
        match next {
            Some((from, hidden)) if self.total_size() < u64::MAX => {
                let row = Arc::try_clone(&self.row)?;
                Ok(Terms { row, from, hidden })
            }
            _ => Terms::new(alloc, copied_slice(alloc, others)?),
        }
    }

    /// The greatest depth of the terms, 0 where there are none.
    pub(super) fn greatest_depth(&self) -> u64
        ensures { result ≡ min (greatest_depth self.now) (2 ^ 64 - 1) }
    {
        u64::from(self.row.depth)
    }

    /// The sum of the terms' sizes.
    pub(super) fn total_size(&self) -> u64
        ensures { result ≡ min (total_size self.now) (2 ^ 64 - 1) }
    {
        self.row.size - u64::from(self.hidden)
    }
}

impl Duplicate for Terms {
    fn copy(&self, alloc: Global) -> Result<Terms, AllocError>
        ensures { IfOk result (λ it. it ≡ self.now) }
    {
        let row = Arc::try_clone(&self.row)?;
        Ok(Terms {
            row,
            from: self.from,
            hidden: self.hidden,
        })
    }
}

/// The index, or the last that can be kept, if that is before it.
#[inline(always)]
fn index_before(index: usize) -> u32
    ensures { result ≤ index }
{
    if index < u32::MAX as usize {
        index as u32
    } else {
        u32::MAX
    }
}

/// The row of these terms, of which this is told. No memory holds terms that are nested too deep for a row to tell it.
fn row_of(alloc: Global, items: Stored, told: Extent) -> Result<Terms, AllocError>
    requires { HasExtent (listed items) told.depth told.last told.size }
    ensures { IfOk result (λ it. it ≡ trees (listed items)) }
{
    let Extent { depth, last, size } = told;
    if depth > u64::from(u32::MAX) {
        return Err(AllocError);
    }
    let row = Arc::new(
        alloc,
        Row {
            items,
            size,
            depth: depth as u32,
            last: index_before(last),
        },
    )?;
    Ok(Terms {
        row,
        from: 0,
        hidden: 0,
    })
}

/// Copies of terms, and behind them copies of others, in no more room than they take.
fn copies(alloc: Global, front: &[Term], back: &[Term]) -> Result<Vec<Term>, AllocError>
    ensures { IfOk result (λ it. it.items ≡ front.now ++ back.now) }
{
    let mut items = Vec::with_capacity(alloc, front.len() + back.len())?;
    push_copies(alloc, &mut items, front)?;
    push_copies(alloc, &mut items, back)?;
    Ok(items)
}

/// Puts copies of terms behind others.
fn push_copies(alloc: Global, items: &mut Vec<Term>, terms: &[Term]) -> Result<(), AllocError>
    ensures { IfOk result (λ _. items.new.items ≡ items.old.items ++ terms.now) }
{
    for term in terms {
        items.push(term.copy(alloc)?)?;
    }
    Ok(())
}

/// The terms from an index on.
fn seen(items: &[Term], from: usize) -> &[Term]
    requires { from ≤ length items.now }
    ensures { result.now ≡ drop from items.now }
{
    &items[from..]
}

/// The index behind this one, and what is hidden then, where a term of this size stands here: if it is no later than
/// the last index that a row may be seen from, and both have room.
fn next_index(from: u32, hidden: u32, last: usize, size: u64) -> Option<(u32, u32)>
    ensures { IfSome result (λ p. (p.0 ≡ from + 1) × (p.1 ≡ hidden + size) × (from < last)) }
{
    if (from as usize) < last {
        let hidden = u64::from(hidden).checked_add(size)?;
        Some((from.checked_add(1)?, u32::try_from(hidden).ok()?))
    } else {
        None
    }
}

/// The terms from an index on, moved to the front.
fn from_index(mut items: Vec<Term>, from: usize) -> Vec<Term>
    requires { from ≤ length items.items }
    ensures { result.items ≡ drop from items.items }
{
    if from > 0 {
        let left = items.len() - from;
        items.rotate_left(from);
        items.truncate(left);
    }
    items
}

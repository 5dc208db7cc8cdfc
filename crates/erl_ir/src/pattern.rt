// Patterns.
ghost use Rattle.std.specs.Prelude.{◌≡◌, ◌↔◌, IsTrue, IfOk};

use erl_term::Term;
use std::alloc::{AllocError, Global};
use std::marker::Model;
use values::{Duplicate, Same};

/// A pattern (Erlang Reference Manual, Expressions, Pattern Matching).
#[cycle(pattern)]
#[derive(Drop)]
pub enum Pattern {
    /// A literal, which an equal term matches.
    Literal(Term),
    /// A variable, by its index in the bindings. One that is unbound is bound by the match; a bound one matches what it is
    /// bound to.
    Variable(u32),
    /// The anonymous variable `_`.
    Anything,
    /// `{P1,..,Pn}`
    Tuple(Patterns),
    /// `[P1,..,Pn]`
    List(Patterns),
    /// `[P1,..,Pn|P]`: the last of the patterns is the tail's.
    Cons(Patterns),
    /// `P1 = .. = Pn`, which a term matches that matches each.
    Alias(Patterns),
}

/// Patterns in a row.
#[cycle(pattern)]
#[derive(Drop)]
pub struct Patterns {
    items: Vec<Pattern>,
}

impl Model for Patterns {
    ghost use Rattle.erl_ir.specs.Pattern.{Pats, pats_depth};
    ghost use Rattle.erl_ir.specs.PatternCode.{pats_coded};

    ghost Value = { Pats };

    ghost coded = { pats_coded };

    ghost use Rattle.erl_ir.specs.PatternForms.{pats};

    ghost view = { λ a. pats a.items.items };

    ghost size = { pats_depth };

    ghost use Rattle.std.proofs.Common.{arith};
    ghost use Rattle.erl_ir.specs.PatternFalls.{most_le-pats_depth};

    ghost size_decreases = { λ a h. omega (arith, most_le-pats_depth a.items.items) };
}

impl Patterns {
    ghost use Rattle.erl_ir.specs.PatternForms.{pats};

    /// The row of these patterns. Takes no memory.
    pub fn new(items: Vec<Pattern>) -> Patterns
        ensures { result ≡ pats items.items }
    {
        Patterns { items }
    }

    /// The patterns, in order. Takes no memory.
    pub fn as_slice(&self) -> &[Pattern]
        ensures { pats result.now ≡ self.now }
    {
        self.items.as_slice()
    }
}

impl Same for Pattern {
    #[cycle(same)]
    #[inline(always)]
    fn same(&self, other: &Pattern) -> bool
        ensures { IsTrue result ↔ (self.now ≡ other.now) }
    {
        match (self, other) {
            (Pattern::Literal(t), Pattern::Literal(u)) => t.same(u),
            (Pattern::Variable(m), Pattern::Variable(n)) => *m == *n,
            (Pattern::Anything, Pattern::Anything) => true,
            (Pattern::Tuple(a), Pattern::Tuple(b)) => a.same(b),
            (Pattern::List(a), Pattern::List(b)) => a.same(b),
            (Pattern::Cons(a), Pattern::Cons(b)) => a.same(b),
            (Pattern::Alias(a), Pattern::Alias(b)) => a.same(b),
            (_, _) => false,
        }
    }
}

impl Same for Patterns {
    #[cycle(same)]
    #[inline(always)]
    fn same(&self, other: &Patterns) -> bool
        ensures { IsTrue result ↔ (self.now ≡ other.now) }
    {
        same_rows(self.as_slice(), other.as_slice())
    }
}

/// Whether two rows have equal patterns, as many of them and in one order.
#[cycle(same)]
#[inline(never)]
fn same_rows(ps: &[Pattern], qs: &[Pattern]) -> bool
    ensures { IsTrue result ↔ (ps.now ≡ qs.now) }
{
    if ps.len() != qs.len() {
        return false;
    }
    for i in 0..ps.len() {
        if !ps[i].same(&qs[i]) {
            return false;
        }
    }
    true
}

impl Duplicate for Pattern {
    #[cycle(copy)]
    fn copy(&self, alloc: Global) -> Result<Pattern, AllocError>
        ensures { IfOk result (λ it. it ≡ self.now) }
    {
        match self {
            Pattern::Literal(term) => Ok(Pattern::Literal(term.copy(alloc)?)),
            Pattern::Variable(index) => Ok(Pattern::Variable(*index)),
            Pattern::Anything => Ok(Pattern::Anything),
            Pattern::Tuple(row) => Ok(Pattern::Tuple(row.copy(alloc)?)),
            Pattern::List(row) => Ok(Pattern::List(row.copy(alloc)?)),
            Pattern::Cons(row) => Ok(Pattern::Cons(row.copy(alloc)?)),
            Pattern::Alias(row) => Ok(Pattern::Alias(row.copy(alloc)?)),
        }
    }
}

impl Duplicate for Patterns {
    #[cycle(copy)]
    fn copy(&self, alloc: Global) -> Result<Patterns, AllocError>
        ensures { IfOk result (λ it. it ≡ self.now) }
    {
        Ok(Patterns::new(copied_row(alloc, self.as_slice())?))
    }
}

/// Equal patterns, in the order of the slice.
#[cycle(copy)]
fn copied_row(alloc: Global, items: &[Pattern]) -> Result<Vec<Pattern>, AllocError>
    ensures { IfOk result (λ copied. copied.items ≡ items.now) }
{
    let mut copied = Vec::with_capacity(alloc, items.len())?;
    for item in items {
        copied.push(item.copy(alloc)?)?;
    }
    Ok(copied)
}

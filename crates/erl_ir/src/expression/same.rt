// Expressions and clauses, compared.
ghost use Rattle.std.specs.Prelude.{◌≡◌, ◌↔◌, IsTrue};

use super::{Clause, Clauses, Expression, Expressions, Guard};
use values::Same;

impl Same for Expression {
    #[cycle(same)]
    #[inline(always)]
    fn same(&self, other: &Expression) -> bool
        ensures { IsTrue result ↔ (self.now ≡ other.now) }
    {
        match (self, other) {
            (Expression::Literal(t), Expression::Literal(u)) => t.same(u),
            (Expression::Variable(m), Expression::Variable(n)) => *m == *n,
            (Expression::Apply(o, a), Expression::Apply(p, b)) => o.same(p) && a.same(b),
            (Expression::Match(p, a), Expression::Match(q, b)) => p.same(q) && a.same(b),
            (Expression::Block(a), Expression::Block(b)) => a.same(b),
            (Expression::Case(a, cs), Expression::Case(b, ds)) => a.same(b) && cs.same(ds),
            (Expression::ShortCircuit(c, a, b), Expression::ShortCircuit(d, e, f)) => {
                c.same(d) && a.same(e) && b.same(f)
            }
            (_, _) => false,
        }
    }
}

impl Same for Expressions {
    #[cycle(same)]
    #[inline(always)]
    fn same(&self, other: &Expressions) -> bool
        ensures { IsTrue result ↔ (self.now ≡ other.now) }
    {
        same_expressions(self.as_slice(), other.as_slice())
    }
}

impl Same for Guard {
    #[cycle(same)]
    #[inline(always)]
    fn same(&self, other: &Guard) -> bool
        ensures { IsTrue result ↔ (self.now ≡ other.now) }
    {
        same_guards(self.as_slice(), other.as_slice())
    }
}

impl Same for Clause {
    #[cycle(same)]
    #[inline(always)]
    fn same(&self, other: &Clause) -> bool
        ensures { IsTrue result ↔ (self.now ≡ other.now) }
    {
        self.patterns.same(&other.patterns)
            && self.guard.same(&other.guard)
            && self.body.same(&other.body)
    }
}

impl Same for Clauses {
    #[cycle(same)]
    #[inline(always)]
    fn same(&self, other: &Clauses) -> bool
        ensures { IsTrue result ↔ (self.now ≡ other.now) }
    {
        same_clauses(self.as_slice(), other.as_slice())
    }
}

/// Whether two rows have equal expressions, as many of them and in one order.
#[cycle(same)]
#[inline(never)]
fn same_expressions(es: &[Expression], fs: &[Expression]) -> bool
    ensures { IsTrue result ↔ (es.now ≡ fs.now) }
{
    if es.len() != fs.len() {
        return false;
    }
    for i in 0..es.len() {
        if !es[i].same(&fs[i]) {
            return false;
        }
    }
    true
}

/// Whether two guard sequences have equal guards, as many of them and in one order.
#[cycle(same)]
#[inline]
fn same_guards(gs: &[Expressions], hs: &[Expressions]) -> bool
    ensures { IsTrue result ↔ (gs.now ≡ hs.now) }
{
    if gs.len() != hs.len() {
        return false;
    }
    for i in 0..gs.len() {
        if !gs[i].same(&hs[i]) {
            return false;
        }
    }
    true
}

/// Whether two rows have equal clauses, as many of them and in one order.
#[cycle(same)]
#[inline(never)]
fn same_clauses(cs: &[Clause], ds: &[Clause]) -> bool
    ensures { IsTrue result ↔ (cs.now ≡ ds.now) }
{
    if cs.len() != ds.len() {
        return false;
    }
    for i in 0..cs.len() {
        if !cs[i].same(&ds[i]) {
            return false;
        }
    }
    true
}

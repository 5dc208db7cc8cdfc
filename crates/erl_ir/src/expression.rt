// Expressions, clauses and guards.
ghost use Rattle.std.specs.Prelude.{◌≡◌};

mod copies;
mod same;

use crate::operation::{Connective, Operation};
use crate::pattern::{Pattern, Patterns};
use erl_term::Term;
use std::marker::Model;

/// An expression (Erlang Reference Manual, Expressions).
#[cycle(expression)]
#[derive(Drop)]
pub enum Expression {
    /// A literal.
    Literal(Term),
    /// A variable, by its index in the bindings.
    Variable(u32),
    /// What is made of the values of all operands: a tuple, a list, an operator, a call.
    Apply(Operation, Expressions),
    /// `P = E`: the body is `E`.
    Match(Pattern, Expressions),
    /// `begin B end`
    Block(Expressions),
    /// `case B of Cs end`
    Case(Expressions, Clauses),
    /// `B1 andalso B2`, `B1 orelse B2`
    ShortCircuit(Connective, Expressions, Expressions),
}

/// Expressions in a row: the operands of an operation, the tests of a guard, or a body.
///
/// A body is evaluated from left to right, and its value is that of its last expression; an expression alone is a body of
/// one.
#[cycle(expression)]
#[derive(Drop)]
pub struct Expressions {
    items: Vec<Expression>,
}

/// A guard sequence `G1; ..; Gn`: each guard is a row of tests. A clause without `when` has none.
#[cycle(expression)]
#[derive(Drop)]
pub struct Guard {
    alternatives: Vec<Expressions>,
}

/// A clause of a function, of a `case` or of a `receive`.
#[cycle(expression)]
#[derive(Drop)]
pub struct Clause {
    /// One pattern for each argument of a function; one in a `case` or a `receive`.
    pub patterns: Patterns,
    /// The guard sequence.
    pub guard: Guard,
    /// The body.
    pub body: Expressions,
}

/// Clauses in a row, which are tried in order.
#[cycle(expression)]
#[derive(Drop)]
pub struct Clauses {
    items: Vec<Clause>,
}

impl Model for Expressions {
    ghost use Rattle.std.specs.Coded.{codes};
    ghost use Rattle.erl_ir.specs.Expression.{Exprs};
    ghost use Rattle.erl_ir.specs.ExpressionCode.{exprs_coded};
    ghost use Rattle.erl_ir.specs.Heights.{exprs_height};

    ghost Value = { Exprs };

    ghost coded = { exprs_coded (Prim.hlevel codes) };

    ghost use Rattle.erl_ir.specs.ExpressionForms.{exprs};

    ghost view = { λ a. exprs a.items.items };

    ghost size = { exprs_height };

    ghost use Rattle.std.proofs.Common.{arith};
    ghost use Rattle.erl_ir.specs.ExpressionFalls.{most_le-exprs_height};

    ghost size_decreases = { λ a h. omega (arith, most_le-exprs_height a.items.items) };
}

impl Model for Guard {
    ghost use Rattle.std.specs.Coded.{codes};
    ghost use Rattle.erl_ir.specs.Expression.{Guards};
    ghost use Rattle.erl_ir.specs.ExpressionCode.{guards_coded};
    ghost use Rattle.erl_ir.specs.Heights.{guards_height};

    ghost Value = { Guards };

    ghost coded = { guards_coded (Prim.hlevel codes) };

    ghost use Rattle.erl_ir.specs.ExpressionForms.{guards};

    ghost view = { λ a. guards a.alternatives.items };

    ghost size = { guards_height };

    ghost use Rattle.std.proofs.Common.{arith};
    ghost use Rattle.erl_ir.specs.ExpressionFalls.{most_le-guards_height};

    ghost size_decreases = { λ a h. omega (arith, most_le-guards_height a.alternatives.items) };
}

impl Model for Clauses {
    ghost use Rattle.std.specs.Coded.{codes};
    ghost use Rattle.erl_ir.specs.Expression.{Clauses};
    ghost use Rattle.erl_ir.specs.ExpressionCode.{clauses_coded};
    ghost use Rattle.erl_ir.specs.Heights.{clauses_height};

    ghost Value = { Clauses };

    ghost coded = { clauses_coded (Prim.hlevel codes) };

    ghost use Rattle.erl_ir.specs.ExpressionForms.{clauses};

    ghost view = { λ a. clauses a.items.items };

    ghost size = { clauses_height };

    ghost use Rattle.std.proofs.Common.{arith};
    ghost use Rattle.erl_ir.specs.ExpressionFalls.{most_le-clauses_height};

    ghost size_decreases = { λ a h. omega (arith, most_le-clauses_height a.items.items) };
}

impl Expressions {
    ghost use Rattle.erl_ir.specs.ExpressionForms.{exprs};

    /// The row of these expressions. Takes no memory.
    pub fn new(items: Vec<Expression>) -> Expressions
        ensures { result ≡ exprs items.items }
    {
        Expressions { items }
    }

    /// The expressions, in order. Takes no memory.
    pub fn as_slice(&self) -> &[Expression]
        ensures { exprs result.now ≡ self.now }
    {
        self.items.as_slice()
    }
}

impl Guard {
    ghost use Rattle.erl_ir.specs.ExpressionForms.{guards};

    /// The row of these guards. Takes no memory.
    pub fn new(alternatives: Vec<Expressions>) -> Guard
        ensures { result ≡ guards alternatives.items }
    {
        Guard { alternatives }
    }

    /// The guards, in order. Takes no memory.
    pub fn as_slice(&self) -> &[Expressions]
        ensures { guards result.now ≡ self.now }
    {
        self.alternatives.as_slice()
    }
}

impl Clauses {
    ghost use Rattle.erl_ir.specs.ExpressionForms.{clauses};

    /// The row of these clauses. Takes no memory.
    pub fn new(items: Vec<Clause>) -> Clauses
        ensures { result ≡ clauses items.items }
    {
        Clauses { items }
    }

    /// The clauses, in order. Takes no memory.
    pub fn as_slice(&self) -> &[Clause]
        ensures { clauses result.now ≡ self.now }
    {
        self.items.as_slice()
    }
}

// Syntax trees of expressions.
ghost use Rattle.std.specs.Prelude.{◌≡◌};

use crate::leaf::Leaf;
use crate::shape::Shape;
use std::marker::Model;

/// An expression, a pattern or a test of a guard, as it is written.
#[cycle(tree)]
#[derive(Drop)]
pub enum SyntaxTree {
    /// A literal that no brackets make, or a variable.
    Leaf(Leaf),
    /// What is put together from parts.
    Node(Shape, SyntaxTrees),
    /// `case E of Cs end`: the row is `E` alone.
    Case(SyntaxTrees, ClauseTrees),
}

/// Syntax trees in a row: the parts of a node, patterns, the tests of a guard, or a body.
#[cycle(tree)]
#[derive(Drop)]
pub struct SyntaxTrees {
    items: Vec<SyntaxTree>,
}

/// A guard sequence `when G1; ..; Gn`: each guard is a row of tests. A clause without `when` has none.
#[cycle(tree)]
#[derive(Drop)]
pub struct GuardTrees {
    alternatives: Vec<SyntaxTrees>,
}

/// A clause of a function, of a `case` or of a `receive`.
#[cycle(tree)]
#[derive(Drop)]
pub struct ClauseTree {
    /// One pattern for each argument of a function; one in a `case` or a `receive`.
    pub patterns: SyntaxTrees,
    /// The guard sequence.
    pub guard: GuardTrees,
    /// The body.
    pub body: SyntaxTrees,
}

/// Clauses in a row.
#[cycle(tree)]
#[derive(Drop)]
pub struct ClauseTrees {
    items: Vec<ClauseTree>,
}

impl Model for SyntaxTrees {
    ghost use Rattle.std.specs.Coded.{codes};
    ghost use Rattle.erl_ast.specs.Tree.{Trees};
    ghost use Rattle.erl_ast.specs.TreeCode.{trees_coded};
    ghost use Rattle.erl_ast.specs.Heights.{trees_height};

    ghost Value = { Trees };

    ghost coded = { trees_coded (Prim.hlevel codes) (Prim.hlevel codes) };

    ghost use Rattle.erl_ast.specs.TreeForms.{trees};

    ghost view = { λ a. trees a.items.items };

    ghost size = { trees_height };

    ghost use Rattle.std.proofs.Common.{arith};
    ghost use Rattle.erl_ast.specs.TreeFalls.{most_le-trees_height};

    ghost size_decreases = { λ a h. omega (arith, most_le-trees_height a.items.items) };
}

impl Model for GuardTrees {
    ghost use Rattle.std.specs.Coded.{codes};
    ghost use Rattle.erl_ast.specs.Tree.{Guards};
    ghost use Rattle.erl_ast.specs.TreeCode.{guards_coded};
    ghost use Rattle.erl_ast.specs.Heights.{guards_height};

    ghost Value = { Guards };

    ghost coded = { guards_coded (Prim.hlevel codes) (Prim.hlevel codes) };

    ghost use Rattle.erl_ast.specs.TreeForms.{guards};

    ghost view = { λ a. guards a.alternatives.items };

    ghost size = { guards_height };

    ghost use Rattle.std.proofs.Common.{arith};
    ghost use Rattle.erl_ast.specs.TreeFalls.{most_le-guards_height};

    ghost size_decreases = { λ a h. omega (arith, most_le-guards_height a.alternatives.items) };
}

impl Model for ClauseTrees {
    ghost use Rattle.std.specs.Coded.{codes};
    ghost use Rattle.erl_ast.specs.Tree.{Clauses};
    ghost use Rattle.erl_ast.specs.TreeCode.{clauses_coded};
    ghost use Rattle.erl_ast.specs.Heights.{clauses_height};

    ghost Value = { Clauses };

    ghost coded = { clauses_coded (Prim.hlevel codes) (Prim.hlevel codes) };

    ghost use Rattle.erl_ast.specs.TreeForms.{clauses};

    ghost view = { λ a. clauses a.items.items };

    ghost size = { clauses_height };

    ghost use Rattle.std.proofs.Common.{arith};
    ghost use Rattle.erl_ast.specs.TreeFalls.{most_le-clauses_height};

    ghost size_decreases = { λ a h. omega (arith, most_le-clauses_height a.items.items) };
}

impl SyntaxTrees {
    ghost use Rattle.erl_ast.specs.TreeForms.{trees};

    /// The row of these trees. Takes no memory.
    pub fn new(items: Vec<SyntaxTree>) -> SyntaxTrees
        ensures { result ≡ trees items.items }
    {
        SyntaxTrees { items }
    }

    /// The trees, in order. Takes no memory.
    pub fn as_slice(&self) -> &[SyntaxTree]
        ensures { trees result.now ≡ self.now }
    {
        self.items.as_slice()
    }
}

impl GuardTrees {
    ghost use Rattle.erl_ast.specs.TreeForms.{guards};

    /// The row of these guards. Takes no memory.
    pub fn new(alternatives: Vec<SyntaxTrees>) -> GuardTrees
        ensures { result ≡ guards alternatives.items }
    {
        GuardTrees { alternatives }
    }

    /// The guards, in order. Takes no memory.
    pub fn as_slice(&self) -> &[SyntaxTrees]
        ensures { guards result.now ≡ self.now }
    {
        self.alternatives.as_slice()
    }
}

impl ClauseTrees {
    ghost use Rattle.erl_ast.specs.TreeForms.{clauses};

    /// The row of these clauses. Takes no memory.
    pub fn new(items: Vec<ClauseTree>) -> ClauseTrees
        ensures { result ≡ clauses items.items }
    {
        ClauseTrees { items }
    }

    /// The clauses, in order. Takes no memory.
    pub fn as_slice(&self) -> &[ClauseTree]
        ensures { clauses result.now ≡ self.now }
    {
        self.items.as_slice()
    }
}

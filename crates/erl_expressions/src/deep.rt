// Trees that know how deep they are nested.
ghost use Rattle.std.specs.Prelude.{◌≡◌, nat_lt, IfOk};
ghost use Rattle.erl_ast.specs.Tree.{leaf, node, case, none, more, tree_count, tree_depth, no_guards, no_clauses};
ghost use Rattle.erl_ast.specs.TreeForms.{tree as tree_of};
ghost use Rattle.erl_expressions.specs.Reading.{with_last, with_last_guard, with_last_clause};
ghost use Rattle.erl_ast.specs.Grammar.{begins as begins_in};

use crate::fitted::fitted;
use crate::patterns::may_begin;
use erl_ast::{ClauseTree, ClauseTrees, GuardTrees, Leaf, Shape, SyntaxTree, SyntaxTrees};
use std::alloc::{AllocError, Global};
use std::marker::Model;

/// A tree that knows how deep it is nested.
#[derive(Drop)]
pub(crate) struct Deep {
    pub(crate) tree: SyntaxTree,
    /// How deep the tree is nested, at most 2^64 - 1.
    depth: u64,
}

impl Model for Deep {
    ghost use Rattle.std.specs.Prelude.{◌≡◌, ◌-◌, ◌^◌, min};
    ghost use Rattle.std.specs.Coded.{codes};
    ghost use Rattle.erl_ast.specs.Tree.{Tree, tree_depth};
    ghost use Rattle.erl_ast.specs.TreeCode.{tree_coded};

    ghost Value = { Tree };

    ghost coded = { tree_coded (Prim.hlevel codes) (Prim.hlevel codes) };

    ghost use Rattle.erl_ast.specs.TreeForms.{tree as tree_of};

    ghost view = { λ a. tree_of a.tree };

    ghost invariant = { λ a. a.depth ≡ min (tree_depth (tree_of a.tree)) (2 ^ 64 - 1) };
}

/// Trees in a row that know how deep they are nested.
#[derive(Drop)]
pub(crate) struct DeepRow {
    items: Vec<SyntaxTree>,
    /// The greatest depth of the trees, at most 2^64 - 1.
    depth: u64,
}

impl Model for DeepRow {
    ghost use Rattle.std.specs.Prelude.{◌≡◌, ◌-◌, ◌^◌, min};
    ghost use Rattle.std.specs.Coded.{codes};
    ghost use Rattle.erl_ast.specs.Tree.{Trees, trees_depth};
    ghost use Rattle.erl_ast.specs.TreeCode.{trees_coded};

    ghost Value = { Trees };

    ghost coded = { trees_coded (Prim.hlevel codes) (Prim.hlevel codes) };

    ghost use Rattle.erl_ast.specs.TreeForms.{trees};

    ghost view = { λ a. trees a.items.items };

    ghost invariant = { λ a. a.depth ≡ min (trees_depth (trees a.items.items)) (2 ^ 64 - 1) };
}

/// A guard sequence that knows how deep it is nested.
#[derive(Drop)]
pub(crate) struct DeepGuards {
    alternatives: Vec<SyntaxTrees>,
    /// The greatest depth of the tests, at most 2^64 - 1.
    depth: u64,
}

impl Model for DeepGuards {
    ghost use Rattle.std.specs.Prelude.{◌≡◌, ◌-◌, ◌^◌, min};
    ghost use Rattle.std.specs.Coded.{codes};
    ghost use Rattle.erl_ast.specs.Tree.{Guards, guards_depth};
    ghost use Rattle.erl_ast.specs.TreeCode.{guards_coded};

    ghost Value = { Guards };

    ghost coded = { guards_coded (Prim.hlevel codes) (Prim.hlevel codes) };

    ghost use Rattle.erl_ast.specs.TreeForms.{guards};

    ghost view = { λ a. guards a.alternatives.items };

    ghost invariant = { λ a. a.depth ≡ min (guards_depth (guards a.alternatives.items)) (2 ^ 64 - 1) };
}

/// A guard sequence and a body.
#[derive(Drop)]
pub(crate) struct DeepArm {
    pub(crate) guards: DeepGuards,
    pub(crate) body: DeepRow,
}

/// A clause of one pattern.
#[derive(Drop)]
pub(crate) struct DeepClause {
    pub(crate) pattern: Deep,
    pub(crate) arm: DeepArm,
}

/// Clauses that know how deep they are nested.
#[derive(Drop)]
pub(crate) struct DeepClauses {
    clauses: Vec<ClauseTree>,
    /// The greatest depth of the clauses, at most 2^64 - 1.
    depth: u64,
}

impl Model for DeepClauses {
    ghost use Rattle.std.specs.Prelude.{◌≡◌, ◌-◌, ◌^◌, min};
    ghost use Rattle.std.specs.Coded.{codes};
    ghost use Rattle.erl_ast.specs.Tree.{Clauses, clauses_depth};
    ghost use Rattle.erl_ast.specs.TreeCode.{clauses_coded};

    ghost Value = { Clauses };

    ghost coded = { clauses_coded (Prim.hlevel codes) (Prim.hlevel codes) };

    ghost use Rattle.erl_ast.specs.TreeForms.{clauses as clauses_of};

    ghost view = { λ a. clauses_of a.clauses.items };

    ghost invariant = { λ a. a.depth ≡ min (clauses_depth (clauses_of a.clauses.items)) (2 ^ 64 - 1) };
}

impl Deep {
    /// A leaf.
    pub(crate) fn leaf(it: Leaf) -> Deep
        ensures { result ≡ leaf it }
    {
        Deep {
            tree: SyntaxTree::Leaf(it),
            depth: 0,
        }
    }

    /// A node of these parts.
    pub(crate) fn node(shape: Shape, parts: DeepRow) -> Deep
        ensures { result ≡ node shape parts }
    {
        let DeepRow { items, depth } = parts;
        Deep {
            tree: SyntaxTree::Node(shape, SyntaxTrees::new(items)),
            depth: depth.saturating_add(1),
        }
    }

    /// `case E of Cs end`
    pub(crate) fn case(
        alloc: Global,
        subject: Deep,
        clauses: DeepClauses,
    ) -> Result<Deep, AllocError>
        ensures { IfOk result (λ it. it ≡ case (more subject none) clauses) }
    {
        let subject = DeepRow::of(alloc, subject)?;
        let DeepRow { items, depth } = subject;
        let DeepClauses {
            clauses,
            depth: deepest,
        } = clauses;
        Ok(Deep {
            tree: SyntaxTree::Case(SyntaxTrees::new(items), ClauseTrees::new(clauses)),
            depth: depth.max(deepest).saturating_add(1),
        })
    }

    /// The tree.
    pub(crate) fn into_tree(self) -> SyntaxTree
        ensures { tree_of result ≡ self }
    {
        let Deep { tree, depth: _ } = self;
        tree
    }

    /// Whether the tree is nested less deep than so many levels.
    pub(crate) fn is_below(&self, levels: u32) -> bool
        ensures { result ≡ nat_lt (tree_depth self.now) levels }
    {
        self.depth < u64::from(levels)
    }
}

impl DeepRow {
    /// A row of no trees.
    pub(crate) fn new(alloc: Global) -> DeepRow
        ensures { result ≡ none }
    {
        DeepRow {
            items: Vec::new(alloc),
            depth: 0,
        }
    }

    /// A row of no trees, with room for so many.
    pub(crate) fn with_room(alloc: Global, room: usize) -> Result<DeepRow, AllocError>
        ensures { IfOk result (λ row. row ≡ none) }
    {
        Ok(DeepRow {
            items: Vec::with_capacity(alloc, room)?,
            depth: 0,
        })
    }

    /// A row of one tree.
    #[inline(always)]
    pub(crate) fn of(alloc: Global, only: Deep) -> Result<DeepRow, AllocError>
        ensures { IfOk result (λ row. row ≡ more only none) }
    {
        let Deep { tree, depth } = only;
        let mut items = Vec::with_capacity(alloc, 1)?;
        items.push(tree)?;
        Ok(DeepRow { items, depth })
    }

    /// A row of two trees. Its frame is its own: its caller's stays while trees in trees are read.
    #[inline(never)]
    pub(crate) fn pair(alloc: Global, first: Deep, second: Deep) -> Result<DeepRow, AllocError>
        ensures { IfOk result (λ row. row ≡ more first (more second none)) }
    {
        let Deep { tree: left, depth } = first;
        let Deep {
            tree: right,
            depth: other,
        } = second;
        let mut items = Vec::with_capacity(alloc, 2)?;
        items.push(left)?;
        items.push(right)?;
        let depth = depth.max(other);
        Ok(DeepRow { items, depth })
    }

    /// The same row, in no more room than it takes.
    pub(crate) fn fitted(self, alloc: Global) -> Result<DeepRow, AllocError>
        ensures { IfOk result (λ row. row ≡ self) }
    {
        let DeepRow { items, depth } = self;
        let items = fitted(alloc, items)?;
        Ok(DeepRow { items, depth })
    }

    /// Puts a tree behind the row. Its frame is its own, as that of `pair`.
    #[inline(never)]
    #[tactic(auto, using(crate::proofs::Rows::trees_push, crate::proofs::Rows::depth_push))]
    pub(crate) fn push(&mut self, last: Deep) -> Result<(), AllocError>
        ensures { IfOk result (λ _. self.new ≡ with_last self.old last) }
    {
        let Deep { tree, depth } = last;
        self.items.push(tree)?;
        self.depth = self.depth.max(depth);
        Ok(())
    }

    /// Puts a tree behind the row, and makes room for no more than that.
    pub(crate) fn push_tail(&mut self, tail: Deep) -> Result<(), AllocError>
        ensures { IfOk result (λ _. self.new ≡ with_last self.old tail) }
    {
        self.items.reserve_exact(1)?;
        self.push(tail)
    }

    /// The trees.
    pub(crate) fn into_trees(self) -> SyntaxTrees
        ensures { result ≡ self }
    {
        let DeepRow { items, depth: _ } = self;
        SyntaxTrees::new(items)
    }

    /// Whether a node may begin with the row's first tree, the tree's level aside.
    pub(crate) fn may_begin(&self, shape: &Shape) -> bool
        ensures { result ≡ begins_in shape.now self.now }
    {
        may_begin(shape, self.items.as_slice())
    }

    /// How many trees the row has.
    #[tactic(auto, using(crate::proofs::Rows::trees_count))]
    pub(crate) fn len(&self) -> usize
        ensures { result ≡ tree_count self.now }
    {
        self.items.len()
    }
}

impl DeepGuards {
    /// No guards.
    pub(crate) fn new(alloc: Global) -> DeepGuards
        ensures { result ≡ no_guards }
    {
        DeepGuards {
            alternatives: Vec::new(alloc),
            depth: 0,
        }
    }

    /// The same guards, in no more room than they take.
    pub(crate) fn fitted(self, alloc: Global) -> Result<DeepGuards, AllocError>
        ensures { IfOk result (λ guards. guards ≡ self) }
    {
        let DeepGuards {
            alternatives,
            depth,
        } = self;
        let alternatives = fitted(alloc, alternatives)?;
        Ok(DeepGuards {
            alternatives,
            depth,
        })
    }

    /// The guards.
    pub(crate) fn into_trees(self) -> GuardTrees
        ensures { result ≡ self }
    {
        let DeepGuards {
            alternatives,
            depth: _,
        } = self;
        GuardTrees::new(alternatives)
    }

    /// Puts a guard behind the others.
    #[tactic(auto, using(crate::proofs::Rows::guards_push, crate::proofs::Rows::guards_depth_push))]
    pub(crate) fn push(&mut self, tests: DeepRow) -> Result<(), AllocError>
        ensures { IfOk result (λ _. self.new ≡ with_last_guard self.old tests) }
    {
        let DeepRow { items, depth } = tests;
        self.alternatives.push(SyntaxTrees::new(items))?;
        self.depth = self.depth.max(depth);
        Ok(())
    }
}

impl DeepClauses {
    /// No clauses.
    pub(crate) fn new(alloc: Global) -> DeepClauses
        ensures { result ≡ no_clauses }
    {
        DeepClauses {
            clauses: Vec::new(alloc),
            depth: 0,
        }
    }

    /// The same clauses, in no more room than they take.
    pub(crate) fn fitted(self, alloc: Global) -> Result<DeepClauses, AllocError>
        ensures { IfOk result (λ clauses. clauses ≡ self) }
    {
        let DeepClauses { clauses, depth } = self;
        let clauses = fitted(alloc, clauses)?;
        Ok(DeepClauses { clauses, depth })
    }

    /// The clauses.
    pub(crate) fn into_trees(self) -> ClauseTrees
        ensures { result ≡ self }
    {
        let DeepClauses { clauses, depth: _ } = self;
        ClauseTrees::new(clauses)
    }

    /// Puts a clause behind the others.
    #[tactic(auto, using(crate::proofs::Rows::clauses_push, crate::proofs::Rows::clauses_depth_push))]
    pub(crate) fn push(&mut self, alloc: Global, last: DeepClause) -> Result<(), AllocError>
        ensures { IfOk result (λ _. self.new ≡ with_last_clause self.old (last.pattern, (last.arm.guards, last.arm.body))) }
    {
        let DeepClause { pattern, arm } = last;
        let DeepArm { guards, body } = arm;
        let patterns = DeepRow::of(alloc, pattern)?;
        let depth = patterns.depth.max(guards.depth).max(body.depth);
        self.clauses.push(ClauseTree {
            patterns: SyntaxTrees::new(patterns.items),
            guard: GuardTrees::new(guards.alternatives),
            body: SyntaxTrees::new(body.items),
        })?;
        self.depth = self.depth.max(depth);
        Ok(())
    }
}

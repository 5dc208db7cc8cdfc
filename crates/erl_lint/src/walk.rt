// The first fault of the expressions of a module.
ghost use Rattle.std.specs.Prelude.{◌≡◌, IfOk, OnOk};
ghost use Rattle.erl_ast.specs.TreeForms.{tree as tree_of, trees, guards, clauses};
ghost use Rattle.erl_lint.specs.First.{soonest};
ghost use Rattle.erl_lint.specs.Faults.{leaf_faults, call_faults, faults_in, faults_in_parts, faults_apart, faults_in_turn, faults_in_guards, faults_in_clause, faults_in_clauses};

use crate::binding::{bind_patterns, bind_row, bind_tree};
use crate::fault::{StaticFault, sooner};
use crate::functions::{Functions, count, has, is_built_in};
use crate::scope::Scope;
use crate::scoping::{Scoping, scoping_of};
use erl_ast::{ClauseTree, Leaf, Shape, SyntaxTree, SyntaxTrees};
use std::alloc::AllocError;

/// The first fault that was found, if any.
pub(crate) type First = Option<StaticFault>;

/// The first fault with that of a leaf: a variable that is not bound.
fn first_in_leaf<'a>(leaf: &'a Leaf, scope: &Scope<'a>, first: First) -> First
    ensures { result ≡ soonest first (leaf_faults scope.now leaf.now) }
{
    match leaf {
        Leaf::Variable(name, at) => {
            if scope.has(name) {
                first
            } else {
                sooner(first, StaticFault::UnboundVariable(*at))
            }
        }
        _ => first,
    }
}

/// The first fault with that of a shape: a local call of a function that there is not.
fn first_in_call(functions: &Functions, shape: &Shape, arguments: usize, first: First) -> First
    ensures { result ≡ soonest first (call_faults functions.now.keys shape.now arguments) }
{
    match shape {
        Shape::Local(function) => {
            let name = &function.name;
            if has(functions, name, arguments) || is_built_in(name, arguments) {
                first
            } else {
                sooner(first, StaticFault::UndefinedLocal(function.at))
            }
        }
        _ => first,
    }
}

/// The first fault with those of an expression or a test.
#[cycle(walk)]
fn first_in_tree<'a>(
    functions: &Functions,
    tree: &'a SyntaxTree,
    scope: &mut Scope<'a>,
    first: First,
) -> Result<First, AllocError>
    ensures found { IfOk result (λ r. r ≡ soonest first (faults_in functions.now.keys scope.old (tree_of tree.now))) }
    ensures kept { OnOk result (scope.new ≡ scope.old) }
{
    match tree {
        SyntaxTree::Leaf(leaf) => Ok(first_in_leaf(leaf, scope, first)),
        SyntaxTree::Node(shape, parts) => {
            let found = first_in_call(functions, shape, count(parts), first);
            first_in_parts(functions, scoping_of(shape), parts.as_slice(), scope, found)
        }
        SyntaxTree::Case(subject, clauses) => {
            let found = first_in_row(functions, subject.as_slice(), scope, first)?;
            let outer = scope.len();
            bind_row(subject.as_slice(), scope)?;
            let found = first_in_clauses(functions, clauses.as_slice(), scope, found)?;
            scope.keep_first(outer);
            Ok(found)
        }
    }
}

/// The first fault with those of the parts of an expression.
#[cycle(walk)]
fn first_in_parts<'a>(
    functions: &Functions,
    scoping: Scoping,
    parts: &'a [SyntaxTree],
    scope: &mut Scope<'a>,
    first: First,
) -> Result<First, AllocError>
    ensures found { IfOk result (λ r. r ≡ soonest first
        (faults_in_parts functions.now.keys scope.old scoping (trees parts.now))) }
    ensures kept { OnOk result (scope.new ≡ scope.old) }
{
    match scoping {
        Scoping::Apart => first_in_row(functions, parts, scope, first),
        Scoping::InTurn | Scoping::FirstOnly => first_in_turn(functions, parts, scope, first),
        Scoping::Matching => match parts {
            [] => Ok(first),
            [_, rest @ ..] => first_in_row(functions, rest, scope, first),
        },
    }
}

/// The first fault with those of expressions that see nothing of one another.
#[cycle(walk)]
fn first_in_row<'a>(
    functions: &Functions,
    row: &'a [SyntaxTree],
    scope: &mut Scope<'a>,
    first: First,
) -> Result<First, AllocError>
    ensures found { IfOk result (λ r. r ≡ soonest first (faults_apart functions.now.keys scope.old (trees row.now))) }
    ensures kept { OnOk result (scope.new ≡ scope.old) }
{
    let mut found = first;
    for tree in row {
        found = first_in_tree(functions, tree, scope, found)?;
    }
    Ok(found)
}

/// The first fault with those of expressions that see what those before them bind.
#[cycle(walk)]
fn first_in_turn<'a>(
    functions: &Functions,
    row: &'a [SyntaxTree],
    scope: &mut Scope<'a>,
    first: First,
) -> Result<First, AllocError>
    ensures found { IfOk result (λ r. r ≡ soonest first (faults_in_turn functions.now.keys scope.old (trees row.now))) }
    ensures kept { OnOk result (scope.new ≡ scope.old) }
{
    let outer = scope.len();
    let mut found = first;
    for tree in row {
        found = first_in_tree(functions, tree, scope, found)?;
        bind_tree(tree, scope)?;
    }
    scope.keep_first(outer);
    Ok(found)
}

/// The first fault with those of a guard sequence.
#[cycle(walk)]
pub(crate) fn first_in_guards<'a>(
    functions: &Functions,
    alternatives: &'a [SyntaxTrees],
    scope: &mut Scope<'a>,
    first: First,
) -> Result<First, AllocError>
    ensures found { IfOk result (λ r. r ≡ soonest first
        (faults_in_guards functions.now.keys scope.old (guards alternatives.now))) }
    ensures kept { OnOk result (scope.new ≡ scope.old) }
{
    let mut found = first;
    for tests in alternatives {
        found = first_in_row(functions, tests.as_slice(), scope, found)?;
    }
    Ok(found)
}

/// The first fault with those of a clause.
#[cycle(walk)]
pub(crate) fn first_in_clause<'a>(
    functions: &Functions,
    clause: &'a ClauseTree,
    scope: &mut Scope<'a>,
    first: First,
) -> Result<First, AllocError>
    ensures found { IfOk result (λ r. r ≡ soonest first (faults_in_clause functions.now.keys scope.old clause.now)) }
    ensures kept { OnOk result (scope.new ≡ scope.old) }
{
    let outer = scope.len();
    bind_patterns(clause.patterns.as_slice(), scope)?;
    let found = first_in_guards(functions, clause.guard.as_slice(), scope, first)?;
    let found = first_in_turn(functions, clause.body.as_slice(), scope, found)?;
    scope.keep_first(outer);
    Ok(found)
}

/// The first fault with those of clauses.
#[cycle(walk)]
pub(crate) fn first_in_clauses<'a>(
    functions: &Functions,
    row: &'a [ClauseTree],
    scope: &mut Scope<'a>,
    first: First,
) -> Result<First, AllocError>
    ensures found { IfOk result (λ r. r ≡ soonest first (faults_in_clauses functions.now.keys scope.old (clauses row.now))) }
    ensures kept { OnOk result (scope.new ≡ scope.old) }
{
    let mut found = first;
    for clause in row {
        found = first_in_clause(functions, clause, scope, found)?;
    }
    Ok(found)
}

// What patterns and expressions bind.
ghost use Rattle.std.specs.Prelude.{◌≡◌, codes, OnOk};
ghost use Rattle.std.specs.Str.{bytes_eq};
ghost use Rattle.erl_ast.specs.TreeForms.{tree as tree_of, trees};
ghost use Rattle.erl_lint.specs.Scopes.{with_names, variable_names, leaf_names, pattern_names, pattern_names_in, binds, binds_in, bound_by_parts};

use crate::scope::Scope;
use crate::scoping::{Scoping, scoping_of};
use erl_ast::{Leaf, SyntaxTree};
use erl_chars::SharedText;
use std::alloc::AllocError;

/// Binds the variables of a pattern.
#[cycle(patterns)]
fn bind_pattern<'a>(pattern: &'a SyntaxTree, scope: &mut Scope<'a>) -> Result<(), AllocError>
    ensures { OnOk result (scope.new ≡ with_names scope.old (pattern_names (tree_of pattern.now))) }
{
    match pattern {
        SyntaxTree::Leaf(leaf) => bind_leaf(leaf, scope),
        SyntaxTree::Node(_, parts) => bind_patterns(parts.as_slice(), scope),
        SyntaxTree::Case(_, _) => Ok(()),
    }
}

/// Binds the variables of patterns.
#[cycle(patterns)]
pub(crate) fn bind_patterns<'a>(
    row: &'a [SyntaxTree],
    scope: &mut Scope<'a>,
) -> Result<(), AllocError>
    ensures { OnOk result (scope.new ≡ with_names scope.old (pattern_names_in (trees row.now))) }
{
    for pattern in row {
        bind_pattern(pattern, scope)?;
    }
    Ok(())
}

/// Binds a leaf of a pattern; no leaf but a variable binds one.
fn bind_leaf<'a>(leaf: &'a Leaf, scope: &mut Scope<'a>) -> Result<(), AllocError>
    ensures { OnOk result (scope.new ≡ with_names scope.old (leaf_names leaf.now)) }
{
    match leaf {
        Leaf::Variable(name, _) => bind_variable(name, scope),
        _ => Ok(()),
    }
}

/// Binds a variable, but not `_`.
fn bind_variable<'a>(name: &'a SharedText, scope: &mut Scope<'a>) -> Result<(), AllocError>
    ensures { OnOk result (scope.new ≡ with_names scope.old (variable_names name.now)) }
{
    if is_anonymous(name) {
        return Ok(());
    }
    scope.bind(name)?;
    Ok(())
}

/// Whether a variable is `_`, the anonymous one. Takes no memory.
pub fn is_anonymous(name: &SharedText) -> bool
    ensures { result ≡ bytes_eq name.now (codes "_") }
{
    name.as_str() == "_"
}

/// Binds what an expression binds behind it.
#[cycle(expressions)]
pub(crate) fn bind_tree<'a>(tree: &'a SyntaxTree, scope: &mut Scope<'a>) -> Result<(), AllocError>
    ensures { OnOk result (scope.new ≡ with_names scope.old (binds (tree_of tree.now))) }
{
    match tree {
        SyntaxTree::Leaf(_) => Ok(()),
        SyntaxTree::Node(shape, parts) => bind_parts(scoping_of(shape), parts.as_slice(), scope),
        SyntaxTree::Case(subject, _) => bind_row(subject.as_slice(), scope),
    }
}

/// Binds what expressions in a row bind.
#[cycle(expressions)]
pub(crate) fn bind_row<'a>(row: &'a [SyntaxTree], scope: &mut Scope<'a>) -> Result<(), AllocError>
    ensures { OnOk result (scope.new ≡ with_names scope.old (binds_in (trees row.now))) }
{
    for tree in row {
        bind_tree(tree, scope)?;
    }
    Ok(())
}

/// Binds what the parts of an expression bind behind it.
#[cycle(expressions)]
fn bind_parts<'a>(
    scoping: Scoping,
    parts: &'a [SyntaxTree],
    scope: &mut Scope<'a>,
) -> Result<(), AllocError>
    ensures { OnOk result (scope.new ≡ with_names scope.old (bound_by_parts scoping (trees parts.now))) }
{
    match scoping {
        Scoping::Apart | Scoping::InTurn => bind_row(parts, scope),
        Scoping::Matching => match parts {
            [] => Ok(()),
            [pattern, rest @ ..] => {
                bind_row(rest, scope)?;
                bind_pattern(pattern, scope)
            }
        },
        Scoping::FirstOnly => match parts {
            [] => Ok(()),
            [left, ..] => bind_tree(left, scope),
        },
    }
}

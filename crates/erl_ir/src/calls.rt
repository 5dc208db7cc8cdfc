// The modules that are named in remote calls.
ghost use Rattle.std.specs.Prelude.{◌≡◌, IfOk, OnOk};
ghost use Rattle.std.specs.Str.{bytes_eq};
ghost use Rattle.indexmap.specs.IndexSet.{insert_key, insert_all};
ghost use Rattle.erl_ir.specs.ExpressionForms.{expr, exprs, guards, clauses};
ghost use Rattle.erl_ir.specs.Module.{module_of, called_by, called_in, called_in_row, called_in_guards, called_in_clauses};
ghost use Rattle.erl_ir.specs.Module.{called_in_definition};

use crate::expression::{Clause, Expression, Expressions};
use crate::function::Definition;
use crate::operation::{BuiltIn, Operation};
use erl_term::Atom;
use indexmap::IndexSet;
use std::alloc::{AllocError, Global};
use std::hash::RandomState;
use values::Duplicate;

/// Names, each once, in the order in which they were noted.
pub(crate) type Names = IndexSet<Atom, RandomState>;

/// Notes the modules that are named in the remote calls of a definition.
pub(crate) fn note_calls(
    alloc: Global,
    definition: &Definition,
    names: &mut Names,
) -> Result<(), AllocError>
    ensures { OnOk result (names.new.keys ≡ insert_all bytes_eq names.old.keys (called_in_definition definition.now)) }
{
    match definition {
        Definition::Clauses(clauses) => note_clauses(alloc, clauses.as_slice(), names),
        Definition::Loop { guard, receive, .. } => {
            note_guards(alloc, guard.as_slice(), names)?;
            note_clauses(alloc, receive.as_slice(), names)
        }
    }
}

/// Notes those of an expression.
#[cycle(calls)]
fn note_expression(
    alloc: Global,
    expression: &Expression,
    names: &mut Names,
) -> Result<(), AllocError>
    ensures { OnOk result (names.new.keys ≡ insert_all bytes_eq names.old.keys (called_in (expr expression.now))) }
{
    match expression {
        Expression::Literal(_) | Expression::Variable(_) => Ok(()),
        Expression::Apply(operation, operands) => {
            note_operation(alloc, operation, names)?;
            note_row(alloc, operands.as_slice(), names)
        }
        Expression::Match(_, body) | Expression::Block(body) => {
            note_row(alloc, body.as_slice(), names)
        }
        Expression::Case(subject, clauses) => {
            note_row(alloc, subject.as_slice(), names)?;
            note_clauses(alloc, clauses.as_slice(), names)
        }
        Expression::ShortCircuit(_, left, right) => {
            note_row(alloc, left.as_slice(), names)?;
            note_row(alloc, right.as_slice(), names)
        }
    }
}

/// Notes those of expressions.
#[cycle(calls)]
#[inline(never)]
fn note_row(alloc: Global, row: &[Expression], names: &mut Names) -> Result<(), AllocError>
    ensures { OnOk result (names.new.keys ≡ insert_all bytes_eq names.old.keys (called_in_row (exprs row.now))) }
{
    for expression in row {
        note_expression(alloc, expression, names)?;
    }
    Ok(())
}

/// Notes those of the tests of guards.
#[cycle(calls)]
fn note_guards(
    alloc: Global,
    alternatives: &[Expressions],
    names: &mut Names,
) -> Result<(), AllocError>
    ensures { OnOk result (names.new.keys ≡ insert_all bytes_eq names.old.keys (called_in_guards (guards alternatives.now))) }
{
    for tests in alternatives {
        note_row(alloc, tests.as_slice(), names)?;
    }
    Ok(())
}

/// Notes those of clauses: of the guard first, and then of the body.
#[cycle(calls)]
fn note_clauses(alloc: Global, items: &[Clause], names: &mut Names) -> Result<(), AllocError>
    ensures { OnOk result (names.new.keys ≡ insert_all bytes_eq names.old.keys (called_in_clauses (clauses items.now))) }
{
    for clause in items {
        note_guards(alloc, clause.guard.as_slice(), names)?;
        note_row(alloc, clause.body.as_slice(), names)?;
    }
    Ok(())
}

/// Notes the module that an operation names, if it is a remote call.
fn note_operation(alloc: Global, operation: &Operation, names: &mut Names) -> Result<(), AllocError>
    ensures { OnOk result (names.new.keys ≡ insert_all bytes_eq names.old.keys (called_by operation.now)) }
{
    match operation {
        Operation::BuiltIn {
            function,
            qualified: true,
        } => note(home(alloc, *function)?, names),
        Operation::Remote { module, .. } => note(module.copy(alloc)?, names),
        _ => Ok(()),
    }
}

/// Notes a name.
fn note(name: Atom, names: &mut Names) -> Result<(), AllocError>
    ensures { OnOk result (names.new.keys ≡ insert_key bytes_eq names.old.keys name) }
{
    names.insert(name)?;
    Ok(())
}

/// The module of a function that is built in.
fn home(alloc: Global, function: BuiltIn) -> Result<Atom, AllocError>
    ensures { IfOk result (λ it. it ≡ module_of function) }
{
    match function {
        BuiltIn::Cast | BuiltIn::Reply | BuiltIn::Call | BuiltIn::StartLink => {
            Atom::word(alloc, "gen_server")
        }
        BuiltIn::Reverse | BuiltIn::Member => Atom::word(alloc, "lists"),
        BuiltIn::ProcLibSpawnLink => Atom::word(alloc, "proc_lib"),
        _ => Atom::word(alloc, "erlang"),
    }
}

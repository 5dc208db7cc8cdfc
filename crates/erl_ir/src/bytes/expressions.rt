// The bytes of expressions, guards and clauses.
ghost use Rattle.std.specs.Prelude.{◌≡◌, OnOk};
ghost use Rattle.erl_ir.specs.ExpressionForms.{expr, exprs, guards, clauses};
ghost use Rattle.erl_ir.specs.FormsCode.{clauses_code, expr_code, exprs_code, guards_code};
ghost use Rattle.erl_ir.specs.ModuleBytes.{written};

use super::operations::{connective_index, write_operation};
use super::patterns::{write_pattern, write_patterns};
use super::terms::write_term;
use super::{END, FRONT, PAIR, write_number};
use crate::expression::{Clause, Expression, Expressions};
use std::alloc::AllocError;

/// Appends an expression's bytes.
#[cycle(expressions)]
fn write_expression(expression: &Expression, out: &mut Vec<u8>) -> Result<(), AllocError>
    ensures { OnOk result (out.new.items ≡ written (expr_code (expr expression.now)) out.old.items) }
{
    match expression {
        Expression::Literal(term) => {
            out.push(FRONT)?;
            write_term(term, out)
        }
        Expression::Variable(index) => {
            out.push(FRONT + 1)?;
            write_number(u64::from(*index), out)
        }
        Expression::Apply(operation, operands) => {
            out.push(FRONT + 2)?;
            write_operation(operation, out)?;
            write_row(operands.as_slice(), out)
        }
        Expression::Match(pattern, body) => {
            out.push(FRONT + 3)?;
            out.push(PAIR)?;
            write_pattern(pattern, out)?;
            write_row(body.as_slice(), out)
        }
        Expression::Block(body) => {
            out.push(FRONT + 4)?;
            write_row(body.as_slice(), out)
        }
        Expression::Case(subject, clauses) => {
            out.push(FRONT + 5)?;
            out.push(PAIR)?;
            write_row(subject.as_slice(), out)?;
            write_clauses(clauses.as_slice(), out)
        }
        Expression::ShortCircuit(connective, left, right) => {
            out.push(FRONT + 6)?;
            out.push(FRONT + connective_index(*connective))?;
            out.push(PAIR)?;
            write_row(left.as_slice(), out)?;
            write_row(right.as_slice(), out)
        }
    }
}

/// Appends the bytes of expressions in a row.
#[cycle(expressions)]
#[inline(never)]
fn write_row(row: &[Expression], out: &mut Vec<u8>) -> Result<(), AllocError>
    ensures { OnOk result (out.new.items ≡ written (exprs_code (exprs row.now)) out.old.items) }
{
    for expression in row {
        out.push(PAIR)?;
        write_expression(expression, out)?;
    }
    out.push(END)?;
    Ok(())
}

/// Appends the bytes of guards in a row.
#[cycle(expressions)]
pub(crate) fn write_guards(
    alternatives: &[Expressions],
    out: &mut Vec<u8>,
) -> Result<(), AllocError>
    ensures { OnOk result (out.new.items ≡ written (guards_code (guards alternatives.now)) out.old.items) }
{
    for tests in alternatives {
        out.push(PAIR)?;
        write_row(tests.as_slice(), out)?;
    }
    out.push(END)?;
    Ok(())
}

/// Appends the bytes of clauses in a row.
#[cycle(expressions)]
pub(crate) fn write_clauses(items: &[Clause], out: &mut Vec<u8>) -> Result<(), AllocError>
    ensures { OnOk result (out.new.items ≡ written (clauses_code (clauses items.now)) out.old.items) }
{
    for clause in items {
        out.push(PAIR)?;
        write_patterns(clause.patterns.as_slice(), out)?;
        out.push(PAIR)?;
        write_guards(clause.guard.as_slice(), out)?;
        out.push(PAIR)?;
        write_row(clause.body.as_slice(), out)?;
    }
    out.push(END)?;
    Ok(())
}

// What is made of the expressions of a shape's parts.
ghost use Rattle.std.specs.Prelude.{◌≡◌, IfOk};
ghost use Rattle.erl_ir.specs.ExpressionForms.{expr, exprs};
ghost use Rattle.erl_ir.specs.Expression.{apply};
ghost use Rattle.erl_lower.specs.Expressions.{alone as expression_alone, called_in, made as made_of, operated as operated_on, prefix_operator as prefix_in};

use crate::built_ins::{local_call, remote_call};
use erl_ast::{Infix, Prefix, Qualifier, Shape};
use erl_ir::{Expression, Expressions, Operation, Operator};
use erl_term::Atom;
use std::alloc::{AllocError, Global};

/// An operator before its operand.
fn prefix_operator(operator: Prefix) -> Operator
    ensures { result ≡ prefix_in operator }
{
    match operator {
        Prefix::Negate => Operator::Negate,
        Prefix::Not => Operator::Not,
    }
}

/// The expression between parentheses.
#[tactic(auto, using(crate::proofs::Rows::alone_expression, crate::proofs::Rows::several_expressions))]
fn alone(row: Vec<Expression>) -> Expression
    ensures { expr result ≡ expression_alone (exprs row.items) }
{
    let mut parts = row;
    if parts.len() != 1 {
        return Expression::Block(Expressions::new(parts));
    }
    match parts.pop() {
        Some(expression) => expression,
        None => Expression::Block(Expressions::new(parts)),
    }
}

/// What an operation makes of its operands.
fn applied(operation: Operation, row: Vec<Expression>) -> Expression
    ensures { expr result ≡ apply operation (exprs row.items) }
{
    Expression::Apply(operation, Expressions::new(row))
}

/// What an operator between operands makes of them.
fn operated(operator: Infix, row: Vec<Expression>) -> Expression
    ensures { expr result ≡ operated_on operator (exprs row.items) }
{
    let operator = match operator {
        Infix::AndAlso | Infix::OrElse | Infix::Match => {
            return Expression::Block(Expressions::new(row));
        }
        Infix::Multiply => Operator::Multiply,
        Infix::Divide => Operator::Divide,
        Infix::Remainder => Operator::Remainder,
        Infix::And => Operator::And,
        Infix::Add => Operator::Add,
        Infix::Subtract => Operator::Subtract,
        Infix::Or => Operator::Or,
        Infix::Append => Operator::Append,
        Infix::Equal => Operator::Equal,
        Infix::NotEqual => Operator::NotEqual,
        Infix::ExactlyEqual => Operator::ExactlyEqual,
        Infix::ExactlyNotEqual => Operator::ExactlyNotEqual,
        Infix::Less => Operator::Less,
        Infix::Greater => Operator::Greater,
        Infix::AtMost => Operator::AtMost,
        Infix::AtLeast => Operator::AtLeast,
        Infix::Send => Operator::Send,
    };
    applied(Operation::Operator(operator), row)
}

/// The module of a remote call.
fn module_of<'a>(own: &'a Atom, qualifier: &'a Qualifier) -> &'a Atom
    ensures { result.now ≡ called_in own.now qualifier.now }
{
    match qualifier {
        Qualifier::Module(named) => &named.name,
        Qualifier::ModuleName(_) => own,
    }
}

/// What is made of the expressions of a shape's parts.
pub(crate) fn made(
    alloc: Global,
    own: &Atom,
    shape: &Shape,
    arguments: usize,
    row: Vec<Expression>,
) -> Result<Expression, AllocError>
    ensures { IfOk result (λ e. expr e ≡ made_of own.now shape.now arguments (exprs row.items)) }
{
    match shape {
        Shape::Tuple => Ok(applied(Operation::Tuple, row)),
        Shape::List => Ok(applied(Operation::List, row)),
        Shape::Cons => Ok(applied(Operation::Cons, row)),
        Shape::Parenthesized => Ok(alone(row)),
        Shape::Block => Ok(Expression::Block(Expressions::new(row))),
        Shape::Local(function) => {
            let operation = local_call(alloc, &function.name, arguments)?;
            Ok(applied(operation, row))
        }
        Shape::Remote(qualifier, function) => {
            let called = module_of(own, qualifier.get());
            let operation = remote_call(alloc, called, &function.get().name, arguments)?;
            Ok(applied(operation, row))
        }
        Shape::Prefix(operator) => {
            let operation = Operation::Operator(prefix_operator(*operator));
            Ok(applied(operation, row))
        }
        Shape::Infix(operator) => Ok(operated(*operator, row)),
    }
}

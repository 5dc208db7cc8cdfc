// Operators.
ghost use Rattle.std.specs.Prelude.{◌≡◌, ℤ, Bool, pos, ◌&&◌, ◌||◌, not, ◌+ℤ◌, ◌-ℤ◌, ◌*ℤ◌, neg_ℤ, int_div, int_rem, IfOk, FitsSigned, ◌++◌};
ghost use Rattle.std.specs.Int.{w64};
ghost use Rattle.std.specs.Option.{SomeIff};
ghost use Rattle.erl_term.specs.Term.{tree, trees};
ghost use Rattle.erl_term.specs.Rows.{append_trees};
ghost use Rattle.erl_semantics.specs.Given.{result_of};
ghost use Rattle.erl_semantics.specs.State as state;
ghost use Rattle.erl_ir.specs.declared.operation.Operator.TheVariants as operator;
ghost use Rattle.erl_semantics.specs.Operators.{truth, truth_of, of_one, of_two, operated, integer, holds_by, consed};

use crate::given::{Given, exit_by, made, truth_term};
use erl_ir::Operator;
use erl_term::{Term, Terms, one, two};
use std::alloc::{AllocError, Global};
use std::cmp::Ordering;
use values::Duplicate;

/// Whether a term is `true` or `false`; none where it is neither. Takes no memory.
pub fn truth_of(term: &Term) -> Option<bool>
    ensures { result ≡ truth_of (tree term.now) }
{
    let atom = term.as_atom()?;
    if atom.is("true") {
        Some(true)
    } else if atom.is("false") {
        Some(false)
    } else {
        None
    }
}

/// The value of a truth value.
pub(crate) fn boolean(holds: bool) -> Given
    ensures { result_of result ≡ state.value (truth holds) }
{
    Given::Value(truth_term(holds))
}

/// An integer that was worked out, or a breach of the limits where it doesn't fit.
pub(crate) fn integer(alloc: Global, n: Option<i64>) -> Result<Given, AllocError>
    ensures { IfOk result (λ it. (z : ℤ) → SomeIff n (FitsSigned w64 z) z → result_of it ≡ integer z) }
{
    match n {
        Some(n) => Ok(Given::Value(Term::Int(n))),
        None => exit_by(alloc, "system_limit"),
    }
}

/// `E1 * E2`
fn multiply(alloc: Global, x: &Term, y: &Term) -> Result<Given, AllocError>
    ensures { IfOk result (λ it. result_of it ≡ of_two operator.Multiply (tree x.now) (tree y.now)) }
{
    match (x.as_int(), y.as_int()) {
        (Some(m), Some(n)) => integer(alloc, m.checked_mul(n)),
        (_, _) => exit_by(alloc, "badarith"),
    }
}

/// `E1 + E2`
fn add(alloc: Global, x: &Term, y: &Term) -> Result<Given, AllocError>
    ensures { IfOk result (λ it. result_of it ≡ of_two operator.Add (tree x.now) (tree y.now)) }
{
    match (x.as_int(), y.as_int()) {
        (Some(m), Some(n)) => integer(alloc, m.checked_add(n)),
        (_, _) => exit_by(alloc, "badarith"),
    }
}

/// `E1 - E2`
fn subtract(alloc: Global, x: &Term, y: &Term) -> Result<Given, AllocError>
    ensures { IfOk result (λ it. result_of it ≡ of_two operator.Subtract (tree x.now) (tree y.now)) }
{
    match (x.as_int(), y.as_int()) {
        (Some(m), Some(n)) => integer(alloc, m.checked_sub(n)),
        (_, _) => exit_by(alloc, "badarith"),
    }
}

/// `E1 div E2`
fn divide(alloc: Global, x: &Term, y: &Term) -> Result<Given, AllocError>
    ensures { IfOk result (λ it. result_of it ≡ of_two operator.Divide (tree x.now) (tree y.now)) }
{
    match (x.as_int(), y.as_int()) {
        (Some(m), Some(n)) if n != 0 => integer(alloc, m.checked_div(n)),
        (_, _) => exit_by(alloc, "badarith"),
    }
}

/// `E1 rem E2`
fn remainder(alloc: Global, x: &Term, y: &Term) -> Result<Given, AllocError>
    ensures { IfOk result (λ it. result_of it ≡ of_two operator.Remainder (tree x.now) (tree y.now)) }
{
    match (x.as_int(), y.as_int()) {
        (Some(_), Some(-1)) => Ok(Given::Value(Term::Int(0))),
        (Some(m), Some(n)) if n != 0 => Ok(Given::Value(Term::Int(m % n))),
        (_, _) => exit_by(alloc, "badarith"),
    }
}

/// `E1 and E2`
fn and(alloc: Global, x: &Term, y: &Term) -> Result<Given, AllocError>
    ensures { IfOk result (λ it. result_of it ≡ of_two operator.And (tree x.now) (tree y.now)) }
{
    match (truth_of(x), truth_of(y)) {
        (Some(a), Some(b)) => Ok(boolean(a && b)),
        (_, _) => exit_by(alloc, "badarg"),
    }
}

/// `E1 or E2`
fn or(alloc: Global, x: &Term, y: &Term) -> Result<Given, AllocError>
    ensures { IfOk result (λ it. result_of it ≡ of_two operator.Or (tree x.now) (tree y.now)) }
{
    match (truth_of(x), truth_of(y)) {
        (Some(a), Some(b)) => Ok(boolean(a || b)),
        (_, _) => exit_by(alloc, "badarg"),
    }
}

/// Whether a comparison holds, by the order of its operands.
fn holds_by(operator: Operator, order: Ordering) -> bool
    ensures { result ≡ holds_by operator order }
{
    match operator {
        Operator::Equal | Operator::ExactlyEqual => order == Ordering::Equal,
        Operator::NotEqual | Operator::ExactlyNotEqual => order != Ordering::Equal,
        Operator::Less => order == Ordering::Less,
        Operator::Greater => order == Ordering::Greater,
        Operator::AtMost => order != Ordering::Greater,
        Operator::AtLeast => order != Ordering::Less,
        _ => false,
    }
}

/// `E1 ++ E2`: the list of the elements of both, if the left one has any.
fn append(alloc: Global, x: &Term, y: &Term) -> Result<Given, AllocError>
    ensures { IfOk result (λ it. result_of it ≡ of_two operator.Append (tree x.now) (tree y.now)) }
{
    let Some(front) = x.as_list() else {
        return exit_by(alloc, "badarg");
    };
    if front.is_empty() {
        return Ok(Given::Value(y.copy(alloc)?));
    }
    match y.as_list() {
        Some(back) => made(alloc, Term::List(joined(alloc, front, back)?)),
        None => exit_by(alloc, "not_in_profile"),
    }
}

/// The terms of two rows, one row behind the other.
fn joined(alloc: Global, front: &Terms, back: &Terms) -> Result<Terms, AllocError>
    ensures { IfOk result (λ it. it ≡ append_trees front.now back.now) }
{
    Terms::joined(alloc, front.as_slice(), back)
}

/// `[E1,..,En|E]`: the list of the values of `E1` to `En`, and behind them the elements of the list that `E` gives.
///
/// # Errors
///
/// `AllocError` where memory is refused.
pub fn cons(alloc: Global, operands: Vec<Term>) -> Result<Given, AllocError>
    ensures { IfOk result (λ it. result_of it ≡ consed (trees operands.items)) }
{
    let mut items = operands;
    let Some(last) = items.pop() else {
        return exit_by(alloc, "undef");
    };
    let Term::List(row) = last else {
        return exit_by(alloc, "not_in_profile");
    };
    made(
        alloc,
        Term::List(Terms::joined(alloc, items.as_slice(), &row)?),
    )
}

/// `E1 ! E2`: the message, where there may be a receiver.
fn send(alloc: Global, x: &Term, y: &Term) -> Result<Given, AllocError>
    ensures { IfOk result (λ it. result_of it ≡ of_two operator.Send (tree x.now) (tree y.now)) }
{
    match x {
        Term::Atom(_) | Term::Pid(_) => Ok(Given::Value(y.copy(alloc)?)),
        Term::Int(_) | Term::Tuple(_) | Term::List(_) => exit_by(alloc, "badarg"),
    }
}

/// `-E`
fn negate(alloc: Global, x: &Term) -> Result<Given, AllocError>
    ensures { IfOk result (λ it. result_of it ≡ of_one operator.Negate (tree x.now)) }
{
    match x.as_int() {
        Some(n) => integer(alloc, n.checked_neg()),
        None => exit_by(alloc, "badarith"),
    }
}

/// `not E`
fn not(alloc: Global, x: &Term) -> Result<Given, AllocError>
    ensures { IfOk result (λ it. result_of it ≡ of_one operator.Not (tree x.now)) }
{
    match truth_of(x) {
        Some(a) => Ok(boolean(!a)),
        None => exit_by(alloc, "badarg"),
    }
}

/// What an operator of one operand gives.
fn of_one(alloc: Global, operator: Operator, x: &Term) -> Result<Given, AllocError>
    ensures { IfOk result (λ it. result_of it ≡ of_one operator (tree x.now)) }
{
    match operator {
        Operator::Negate => negate(alloc, x),
        Operator::Not => not(alloc, x),
        _ => exit_by(alloc, "undef"),
    }
}

/// What an operator gives of the values of two operands (Erlang Reference Manual, Expressions).
///
/// # Errors
///
/// `AllocError` where memory is refused.
pub fn of_two(alloc: Global, operator: Operator, x: &Term, y: &Term) -> Result<Given, AllocError>
    ensures { IfOk result (λ it. result_of it ≡ of_two operator (tree x.now) (tree y.now)) }
{
    match operator {
        Operator::Multiply => multiply(alloc, x, y),
        Operator::Divide => divide(alloc, x, y),
        Operator::Remainder => remainder(alloc, x, y),
        Operator::And => and(alloc, x, y),
        Operator::Add => add(alloc, x, y),
        Operator::Subtract => subtract(alloc, x, y),
        Operator::Or => or(alloc, x, y),
        Operator::Append => append(alloc, x, y),
        Operator::Send => send(alloc, x, y),
        Operator::Negate | Operator::Not => exit_by(alloc, "undef"),
        _ => Ok(boolean(holds_by(operator, x.cmp(y)))),
    }
}

/// What an operator gives of the values of its operands (Erlang Reference Manual, Expressions).
///
/// # Errors
///
/// `AllocError` where memory is refused.
#[tactic(auto, using(crate::proofs::Rows::operated_one, crate::proofs::Rows::operated_two, crate::proofs::Rows::operated_else))]
pub fn operate(alloc: Global, operator: Operator, operands: &[Term]) -> Result<Given, AllocError>
    ensures { IfOk result (λ it. result_of it ≡ operated operator (trees operands.now)) }
{
    if let Some(x) = one(operands) {
        return of_one(alloc, operator, x);
    }
    match two(operands) {
        Some((x, y)) => of_two(alloc, operator, x, y),
        None => exit_by(alloc, "undef"),
    }
}

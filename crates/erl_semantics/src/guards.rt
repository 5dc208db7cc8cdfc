// Guards, and the selection of a clause.
ghost use Rattle.std.specs.Prelude.{◌≡◌, IfOk, map, nat_lt, option_map, slice_get};
ghost use Rattle.erl_term.specs.Term.{tree, trees};
ghost use Rattle.erl_ir.specs.Expression.{Exprs, clause, no_clauses};
ghost use Rattle.erl_ir.specs.ExpressionForms.{expr, exprs, guards, clauses};
ghost use Rattle.erl_ir.specs.PatternForms.{pats};
ghost use Rattle.erl_semantics.specs.Bindings.{bindings};
ghost use Rattle.erl_semantics.specs.Given.{result_of, values_of, found_by};
ghost use Rattle.erl_semantics.specs.Guards.{guard_operated, is_guard_bif, guard_called, guard_applied, applied_to, connected, tested_then, tested, tested_row, tested_alone, holds, all_hold, one_holds, guarded, selected, decisive};
ghost use Rattle.erl_semantics.specs.Operators as operators;
ghost use Rattle.erl_semantics.specs.State.{bound_to, exit_by_pair};

use crate::built_ins::call_built_in;
use crate::given::{Given, exit_by, exit_by_pair, made};
use crate::matching::{bound, match_each};
use crate::operators::{cons, operate, truth_of};
use erl_ir::{BuiltIn, Clause, Connective, Expression, Expressions, Operation, Operator, Pattern};
use erl_term::{Term, Terms};
use std::alloc::{AllocError, Global};
use values::Duplicate;

/// How many calls a callback may make.
pub const MOST_CALLS: u32 = 10_000;

/// What all that a process evaluates is given.
#[derive(Drop)]
pub struct Setting {
    /// The allocator.
    pub alloc: Global,
    /// The process that evaluates, or is started.
    pub own: u64,
}

/// What is bound where a guard is tested: what was bound before the match, and behind it what the match bound.
#[derive(Drop)]
struct Bound<'a> {
    base: &'a [Term],
    fresh: &'a [Term],
}

/// The values of operands, or the reason of the exit of one of them.
#[derive(Drop)]
pub(crate) enum Values {
    /// The value of each.
    All(Vec<Term>),
    /// The first exit.
    Exit(Term),
}

/// A clause that was selected.
#[derive(Drop)]
pub struct Selected<'a> {
    /// What its patterns bind, behind what was bound.
    pub fresh: Vec<Term>,
    /// Its body.
    pub body: &'a Expressions,
}

/// What an operator gives in a guard, which has neither `++` nor `!`.
fn operate_in_guard(
    setting: &Setting,
    operator: Operator,
    operands: &[Term],
) -> Result<Given, AllocError>
    ensures { IfOk result (λ it. result_of it ≡ guard_operated operator (trees operands.now)) }
{
    match operator {
        Operator::Append | Operator::Send => exit_by(setting.alloc, "undef"),
        _ => operate(setting.alloc, operator, operands),
    }
}

/// Whether guards may call a function that is built in.
fn is_guard_bif(function: BuiltIn) -> bool
    ensures { result ≡ is_guard_bif function }
{
    matches!(
        function,
        BuiltIn::Abs
            | BuiltIn::Element
            | BuiltIn::Hd
            | BuiltIn::Tl
            | BuiltIn::Length
            | BuiltIn::TupleSize
            | BuiltIn::IsAtom
            | BuiltIn::IsInteger
            | BuiltIn::IsList
            | BuiltIn::IsPid
            | BuiltIn::IsTuple
            | BuiltIn::IsBoolean
            | BuiltIn::SelfPid
    )
}

/// What a call gives in a guard. It counts among the calls.
fn call_in_guard(
    setting: &Setting,
    function: BuiltIn,
    arguments: &[Term],
    calls: &mut u32,
) -> Result<Given, AllocError>
    ensures { IfOk result (λ it. (result_of it, calls.new) ≡ guard_called (is_guard_bif function) (nat_lt calls.old 10000)
        setting.now.own function (trees arguments.now) calls.old) }
{
    if !is_guard_bif(function) {
        return exit_by(setting.alloc, "undef");
    }
    if *calls >= MOST_CALLS {
        return exit_by(setting.alloc, "system_limit");
    }
    *calls += 1;
    call_built_in(setting.alloc, setting.own, function, arguments)
}

/// What an operation gives in a guard, of the values of its operands.
fn apply_in_guard(
    setting: &Setting,
    operation: &Operation,
    operands: Vec<Term>,
    calls: &mut u32,
) -> Result<Given, AllocError>
    ensures { IfOk result (λ it. (result_of it, calls.new) ≡ guard_applied setting.now.own operation.now (trees operands.items)
        calls.old) }
{
    match operation {
        Operation::Tuple => made(
            setting.alloc,
            Term::Tuple(Terms::new(setting.alloc, operands)?),
        ),
        Operation::List => made(
            setting.alloc,
            Term::List(Terms::new(setting.alloc, operands)?),
        ),
        Operation::Cons => cons(setting.alloc, operands),
        Operation::Operator(operator) => operate_in_guard(setting, *operator, operands.as_slice()),
        Operation::BuiltIn { function, .. } => {
            call_in_guard(setting, *function, operands.as_slice(), calls)
        }
        Operation::Local(_) | Operation::Remote { .. } => exit_by(setting.alloc, "undef"),
    }
}

/// What a variable gives.
fn value_of(alloc: Global, bound_terms: &Bound<'_>, index: usize) -> Result<Given, AllocError>
    ensures { IfOk result (λ it. result_of it ≡ bound_to
        (slice_get (bindings bound_terms.now.base.now bound_terms.now.fresh.now) index)) }
{
    match bound(bound_terms.base, bound_terms.fresh, index) {
        Some(term) => Ok(Given::Value(term.copy(alloc)?)),
        None => exit_by(alloc, "undef"),
    }
}

/// What an expression of a guard gives.
#[cycle(guards)]
fn test(
    setting: &Setting,
    bound: &Bound<'_>,
    expression: &Expression,
    calls: &mut u32,
) -> Result<Given, AllocError>
    ensures { IfOk result (λ it. (result_of it, calls.new) ≡ tested setting.now.own
        (bindings bound.now.base.now bound.now.fresh.now) (expr expression.now) calls.old) }
{
    match expression {
        Expression::Literal(term) => Ok(Given::Value(term.copy(setting.alloc)?)),
        Expression::Variable(index) => value_of(setting.alloc, bound, *index as usize),
        Expression::Apply(operation, operands) => {
            test_operation(setting, bound, operation, operands.as_slice(), calls)
        }
        Expression::ShortCircuit(connective, left, right) => test_connective(
            setting,
            bound,
            *connective,
            left.as_slice(),
            right.as_slice(),
            calls,
        ),
        Expression::Match(_, _) | Expression::Block(_) | Expression::Case(_, _) => {
            exit_by(setting.alloc, "undef")
        }
    }
}

/// What an operation gives in a guard: its operands are tested first.
#[cycle(guards)]
fn test_operation(
    setting: &Setting,
    bound: &Bound<'_>,
    operation: &Operation,
    operands: &[Expression],
    calls: &mut u32,
) -> Result<Given, AllocError>
    ensures { IfOk result (λ it. (result_of it, calls.new) ≡ applied_to setting.now.own operation.now
        (tested_row setting.now.own (bindings bound.now.base.now bound.now.fresh.now) (exprs operands.now) calls.old)) }
{
    match test_row(setting, bound, operands, calls)? {
        Values::All(values) => apply_in_guard(setting, operation, values, calls),
        Values::Exit(reason) => Ok(Given::Exit(reason)),
    }
}

/// What operands give, from left to right.
#[cycle(guards)]
fn test_row(
    setting: &Setting,
    bound: &Bound<'_>,
    row: &[Expression],
    calls: &mut u32,
) -> Result<Values, AllocError>
    ensures { IfOk result (λ it. (values_of it, calls.new) ≡ tested_row setting.now.own
        (bindings bound.now.base.now bound.now.fresh.now) (exprs row.now) calls.old) }
{
    let mut values = Vec::with_capacity(setting.alloc, row.len())?;
    for expression in row {
        match test(setting, bound, expression, calls)? {
            Given::Value(value) => values.push(value)?,
            Given::Exit(reason) => return Ok(Values::Exit(reason)),
        }
    }
    Ok(Values::All(values))
}

/// What a side of a connective gives, which is one expression.
#[cycle(guards)]
fn test_alone(
    setting: &Setting,
    bound: &Bound<'_>,
    side: &[Expression],
    calls: &mut u32,
) -> Result<Given, AllocError>
    ensures { IfOk result (λ it. (result_of it, calls.new) ≡ tested_alone setting.now.own
        (bindings bound.now.base.now bound.now.fresh.now) (exprs side.now) calls.old) }
{
    if side.len() != 1 {
        return exit_by(setting.alloc, "undef");
    }
    test(setting, bound, &side[0], calls)
}

/// What a connective gives in a guard: its right side is tested only where it is needed.
#[cycle(guards)]
fn test_connective(
    setting: &Setting,
    bound: &Bound<'_>,
    connective: Connective,
    left: &[Expression],
    right: &[Expression],
    calls: &mut u32,
) -> Result<Given, AllocError>
    ensures { IfOk result (λ it. (result_of it, calls.new) ≡ tested_then
        (λ t behind. connected (operators.truth_of t) connective t
        (tested_alone setting.now.own (bindings bound.now.base.now bound.now.fresh.now) (exprs right.now)) behind)
        (tested_alone setting.now.own (bindings bound.now.base.now bound.now.fresh.now) (exprs left.now) calls.old)) }
{
    match test_alone(setting, bound, left, calls)? {
        Given::Value(value) => test_right(setting, bound, connective, value, right, calls),
        Given::Exit(reason) => Ok(Given::Exit(reason)),
    }
}

/// What a connective decides by its left side alone: `andalso` by `false`, `orelse` by `true`.
pub fn decisive(connective: Connective) -> bool
    ensures { result ≡ decisive connective }
{
    match connective {
        Connective::AndAlso => false,
        Connective::OrElse => true,
    }
}

/// What a connective gives in a guard, by the value of its left side.
#[cycle(guards)]
fn test_right(
    setting: &Setting,
    bound: &Bound<'_>,
    connective: Connective,
    value: Term,
    right: &[Expression],
    calls: &mut u32,
) -> Result<Given, AllocError>
    ensures { IfOk result (λ it. (result_of it, calls.new) ≡ connected (operators.truth_of (tree value)) connective
        (tree value) (tested_alone setting.now.own (bindings bound.now.base.now bound.now.fresh.now) (exprs right.now))
        calls.old) }
{
    match truth_of(&value) {
        None => exit_by_pair(setting.alloc, "badarg", value),
        Some(truth) if truth == decisive(connective) => Ok(Given::Value(value)),
        Some(_) => test_alone(setting, bound, right, calls),
    }
}

/// Whether a test that gave this holds.
fn holds(given: &Given) -> bool
    ensures { result ≡ holds (result_of given.now) }
{
    match given {
        Given::Value(term) => truth_of(term) == Some(true),
        Given::Exit(_) => false,
    }
}

/// Whether each test of a guard holds. The first that doesn't ends it.
fn all_hold(
    setting: &Setting,
    bound: &Bound<'_>,
    tests: &[Expression],
    calls: &mut u32,
) -> Result<bool, AllocError>
    ensures { IfOk result (λ it. (it, calls.new) ≡ all_hold setting.now.own (bindings bound.now.base.now bound.now.fresh.now)
        (exprs tests.now) calls.old) }
{
    for expression in tests {
        let given = test(setting, bound, expression, calls)?;
        if !holds(&given) {
            return Ok(false);
        }
    }
    Ok(true)
}

/// Whether one guard of some is true. The first that is ends it.
fn one_holds(
    setting: &Setting,
    bound: &Bound<'_>,
    alternatives: &[Expressions],
    calls: &mut u32,
) -> Result<bool, AllocError>
    ensures { IfOk result (λ it. (it, calls.new) ≡ one_holds setting.now.own (bindings bound.now.base.now bound.now.fresh.now)
        (guards alternatives.now) calls.old) }
{
    for tests in alternatives {
        if all_hold(setting, bound, tests.as_slice(), calls)? {
            return Ok(true);
        }
    }
    Ok(false)
}

/// Whether a guard sequence is true; without guards it is.
fn is_guarded(
    setting: &Setting,
    bound: &Bound<'_>,
    alternatives: &[Expressions],
    calls: &mut u32,
) -> Result<bool, AllocError>
    ensures { IfOk result (λ it. (it, calls.new) ≡ guarded setting.now.own (bindings bound.now.base.now bound.now.fresh.now)
        (guards alternatives.now) calls.old) }
{
    if alternatives.is_empty() {
        return Ok(true);
    }
    one_holds(setting, bound, alternatives, calls)
}

/// What a clause binds of terms, where its patterns match them and its guard sequence is true; none where it doesn't take
/// them. Calls in its guards count among `calls`.
///
/// # Errors
///
/// `AllocError` where memory is refused; some calls may have been counted.
pub fn try_clause(
    setting: &Setting,
    base: &[Term],
    patterns: &[Pattern],
    alternatives: &[Expressions],
    terms: &[Term],
    calls: &mut u32,
) -> Result<Option<Vec<Term>>, AllocError>
    ensures { IfOk result (λ it. (body : Exprs) → (
      option_map (λ fresh. (bindings base.now fresh.items, body)) it,
      calls.new,
    ) ≡ selected setting.now.own (map tree base.now)
        (clause (pats patterns.now) (guards alternatives.now) body no_clauses) (trees terms.now) calls.old) }
{
    let mut fresh = Vec::new(setting.alloc);
    if !match_each(setting.alloc, patterns, terms, base, &mut fresh)? {
        return Ok(None);
    }
    let bound = Bound {
        base,
        fresh: fresh.as_slice(),
    };
    if is_guarded(setting, &bound, alternatives, calls)? {
        Ok(Some(fresh))
    } else {
        Ok(None)
    }
}

/// The first clause that takes these terms, if one does (Erlang Reference Manual, Guard Sequences).
///
/// Clauses are tried in order: the first is selected whose patterns match and whose guard sequence is true. Calls in guards
/// count among `calls`, those of clauses that are passed over too.
///
/// # Errors
///
/// `AllocError` where memory is refused; some calls may have been counted.
pub fn select<'a>(
    setting: &Setting,
    base: &[Term],
    items: &'a [Clause],
    terms: &[Term],
    calls: &mut u32,
) -> Result<Option<Selected<'a>>, AllocError>
    ensures { IfOk result (λ it. (option_map (found_by base.now) it, calls.new) ≡ selected setting.now.own (map tree base.now)
        (clauses items.now) (trees terms.now) calls.old) }
{
    for clause in items {
        let patterns = clause.patterns.as_slice();
        let alternatives = clause.guard.as_slice();
        if let Some(fresh) = try_clause(setting, base, patterns, alternatives, terms, calls)? {
            return Ok(Some(Selected {
                fresh,
                body: &clause.body,
            }));
        }
    }
    Ok(None)
}

// Functions that are built in, but for those that start a process.
ghost use Rattle.std.specs.Prelude.{◌≡◌, ℕ, suc, pos, Bool, IsTrue, IfOk, MatchOption, Option, slice_get, None, Some, List, [], ◌∷◌};
ghost use Rattle.erl_term.specs.Accessors.{one_of, two_of};
ghost use Rattle.erl_term.specs.Term.{tree, trees};
ghost use Rattle.erl_term.specs.Tree.{Tree, Trees, int, list, tuple, none, more, count};
ghost use Rattle.erl_ir.specs.declared.operation.BuiltIn.TheVariants as built_in;
ghost use Rattle.erl_semantics.specs.Given.{result_of};
ghost use Rattle.erl_semantics.specs.State as state;
ghost use Rattle.erl_semantics.specs.BuiltIns.{given, of_none, of_one, of_two, of_three, has_member, is_of_kind, ok, element_of, with_element};

use crate::given::{Given, exit_by, made};
use crate::operators::{boolean, integer, truth_of};
use erl_ir::BuiltIn;
use erl_term::{Atom, Predefined, Term, Terms, one, three, two};
use std::alloc::{AllocError, Global};
use std::cmp::Ordering;
use values::{Duplicate, copied_slice};

/// `abs(N)`
fn abs(alloc: Global, x: &Term) -> Result<Given, AllocError>
    ensures { IfOk result (λ it. result_of it ≡ of_one built_in.Abs (tree x.now)) }
{
    match x.as_int() {
        Some(n) if n < 0 => integer(alloc, n.checked_neg()),
        Some(n) => Ok(Given::Value(Term::Int(n))),
        None => exit_by(alloc, "badarg"),
    }
}

/// `hd(L)`
fn hd(alloc: Global, x: &Term) -> Result<Given, AllocError>
    ensures { IfOk result (λ it. result_of it ≡ of_one built_in.Hd (tree x.now)) }
{
    if let Term::List(row) = x
        && let Some((first, _)) = row.as_slice().split_first()
    {
        return Ok(Given::Value(first.copy(alloc)?));
    }
    exit_by(alloc, "badarg")
}

/// `tl(L)`, which shares what it holds with the list.
fn tl(alloc: Global, x: &Term) -> Result<Given, AllocError>
    ensures { IfOk result (λ it. result_of it ≡ of_one built_in.Tl (tree x.now)) }
{
    match x {
        Term::List(row) if !row.is_empty() => Ok(Given::Value(Term::List(row.rest(alloc)?))),
        _ => exit_by(alloc, "badarg"),
    }
}

/// How many terms a row has, as an integer. No memory holds so many that there is none.
fn count(alloc: Global, row: &Terms) -> Result<Given, AllocError>
    ensures { IfOk result (λ it. result_of it ≡ state.value (int (pos (count row.now)))) }
{
    match i64::try_from(row.len()) {
        Ok(n) => Ok(Given::Value(Term::Int(n))),
        Err(_) => Err(AllocError),
    }
}

/// `length(L)`
fn length(alloc: Global, x: &Term) -> Result<Given, AllocError>
    ensures { IfOk result (λ it. result_of it ≡ of_one built_in.Length (tree x.now)) }
{
    match x {
        Term::List(row) => count(alloc, row),
        Term::Int(_) | Term::Atom(_) | Term::Pid(_) | Term::Tuple(_) => exit_by(alloc, "badarg"),
    }
}

/// `tuple_size(T)`
fn tuple_size(alloc: Global, x: &Term) -> Result<Given, AllocError>
    ensures { IfOk result (λ it. result_of it ≡ of_one built_in.TupleSize (tree x.now)) }
{
    match x {
        Term::Tuple(row) => count(alloc, row),
        Term::Int(_) | Term::Atom(_) | Term::Pid(_) | Term::List(_) => exit_by(alloc, "badarg"),
    }
}

/// Whether a term is of the kind that a test of kinds asks for.
fn is_of_kind(test: BuiltIn, x: &Term) -> bool
    ensures { result ≡ is_of_kind test (tree x.now) }
{
    match test {
        BuiltIn::IsAtom => matches!(x, Term::Atom(_)),
        BuiltIn::IsInteger => matches!(x, Term::Int(_)),
        BuiltIn::IsList => matches!(x, Term::List(_)),
        BuiltIn::IsPid => matches!(x, Term::Pid(_)),
        BuiltIn::IsTuple => matches!(x, Term::Tuple(_)),
        BuiltIn::IsBoolean => truth_of(x).is_some(),
        _ => false,
    }
}

/// `lists:reverse(L)`
fn reverse(alloc: Global, x: &Term) -> Result<Given, AllocError>
    ensures { IfOk result (λ it. result_of it ≡ of_one built_in.Reverse (tree x.now)) }
{
    let Term::List(row) = x else {
        return exit_by(alloc, "function_clause");
    };
    let mut items = copied_slice(alloc, row.as_slice())?;
    items.reverse();
    made(alloc, Term::List(Terms::new(alloc, items)?))
}

/// An index of an element, which is counted from 1, as it is counted from 0.
fn index_of(x: &Term) -> Option<usize>
    ensures { MatchOption result ((n : ℕ) → tree x.now ≡ int (pos n) → n ≡ 0) (λ index. tree x.now ≡ int (pos (suc index))) }
{
    let n = x.as_int()?.checked_sub(1)?;
    usize::try_from(n).ok()
}

/// The term at an index, if the terms have it.
fn item_at(terms: &[Term], index: usize) -> Option<&Term>
    ensures { MatchOption result (slice_get terms.now index ≡ None) (λ t. slice_get terms.now index ≡ Some t.now) }
{
    if index < terms.len() {
        Some(&terms[index])
    } else {
        None
    }
}

/// The element of a row at an index that is counted from 1.
fn nth<'a>(x: &Term, row: &'a Terms) -> Option<&'a Term>
    ensures { MatchOption result (element_of (tree x.now) row.now ≡ None)
        (λ t. element_of (tree x.now) row.now ≡ Some (tree t.now)) }
{
    let terms = row.as_slice();
    match index_of(x) {
        Some(index) => item_at(terms, index),
        None => None,
    }
}

/// `element(N,T)`
fn element(alloc: Global, x: &Term, y: &Term) -> Result<Given, AllocError>
    ensures { IfOk result (λ it. result_of it ≡ of_two built_in.Element (tree x.now) (tree y.now)) }
{
    let Term::Tuple(row) = y else {
        return exit_by(alloc, "badarg");
    };
    match nth(x, row) {
        Some(element) => Ok(Given::Value(element.copy(alloc)?)),
        None => exit_by(alloc, "badarg"),
    }
}

/// The row with another element at an index that is counted from 1, if it has that index.
fn with_nth(alloc: Global, x: &Term, row: &Terms, z: &Term) -> Result<Option<Terms>, AllocError>
    ensures { IfOk result (λ made. made ≡ with_element (tree x.now) (tree z.now) row.now) }
{
    let terms = row.as_slice();
    let Some(index) = index_of(x) else {
        return Ok(None);
    };
    if index >= terms.len() {
        return Ok(None);
    }
    let mut items = copied_slice(alloc, terms)?;
    items[index] = z.copy(alloc)?;
    Ok(Some(Terms::new(alloc, items)?))
}

/// `setelement(N,T,E)`
fn set_element(alloc: Global, x: &Term, y: &Term, z: &Term) -> Result<Given, AllocError>
    ensures { IfOk result (λ it. result_of it ≡ of_three built_in.SetElement (tree x.now) (tree y.now) (tree z.now)) }
{
    let Term::Tuple(row) = y else {
        return exit_by(alloc, "badarg");
    };
    match with_nth(alloc, x, row, z)? {
        Some(row) => made(alloc, Term::Tuple(row)),
        None => exit_by(alloc, "badarg"),
    }
}

/// Whether a term is equal to one of these.
fn is_among(x: &Term, terms: &[Term]) -> bool
    ensures { result ≡ has_member (tree x.now) (trees terms.now) }
{
    for term in terms {
        if x.cmp(term) == Ordering::Equal {
            return true;
        }
    }
    false
}

/// `lists:member(E,L)`
fn member(alloc: Global, x: &Term, y: &Term) -> Result<Given, AllocError>
    ensures { IfOk result (λ it. result_of it ≡ of_two built_in.Member (tree x.now) (tree y.now)) }
{
    match y {
        Term::List(row) => Ok(boolean(is_among(x, row.as_slice()))),
        Term::Int(_) | Term::Atom(_) | Term::Pid(_) | Term::Tuple(_) => exit_by(alloc, "badarg"),
    }
}

/// The atom `ok`.
fn ok() -> Given
    ensures { result_of result ≡ ok }
{
    Given::Value(Term::Atom(Atom::predefined(Predefined::OkWord)))
}

/// `gen_server:cast(Dest,T)`: `ok`, where there may be a receiver.
fn cast(alloc: Global, x: &Term, _y: &Term) -> Result<Given, AllocError>
    ensures { IfOk result (λ it. result_of it ≡ of_two built_in.Cast (tree x.now) (tree _y.now)) }
{
    match x {
        Term::Atom(_) | Term::Pid(_) => Ok(ok()),
        Term::Int(_) | Term::Tuple(_) | Term::List(_) => exit_by(alloc, "badarg"),
    }
}

/// What a call without arguments gives.
fn of_none(alloc: Global, own: u64, function: BuiltIn) -> Result<Given, AllocError>
    ensures { IfOk result (λ it. result_of it ≡ of_none own function) }
{
    match function {
        BuiltIn::SelfPid => Ok(Given::Value(Term::Pid(own))),
        _ => exit_by(alloc, "undef"),
    }
}

/// What a call with one argument gives.
fn of_one(alloc: Global, function: BuiltIn, x: &Term) -> Result<Given, AllocError>
    ensures { IfOk result (λ it. result_of it ≡ of_one function (tree x.now)) }
{
    match function {
        BuiltIn::Abs => abs(alloc, x),
        BuiltIn::Hd => hd(alloc, x),
        BuiltIn::Tl => tl(alloc, x),
        BuiltIn::Length => length(alloc, x),
        BuiltIn::TupleSize => tuple_size(alloc, x),
        BuiltIn::IsAtom
        | BuiltIn::IsInteger
        | BuiltIn::IsList
        | BuiltIn::IsPid
        | BuiltIn::IsTuple
        | BuiltIn::IsBoolean => Ok(boolean(is_of_kind(function, x))),
        BuiltIn::Exit | BuiltIn::Error => Ok(Given::Exit(x.copy(alloc)?)),
        BuiltIn::Reverse => reverse(alloc, x),
        _ => exit_by(alloc, "undef"),
    }
}

/// What a call with two arguments gives.
fn of_two(alloc: Global, function: BuiltIn, x: &Term, y: &Term) -> Result<Given, AllocError>
    ensures { IfOk result (λ it. result_of it ≡ of_two function (tree x.now) (tree y.now)) }
{
    match function {
        BuiltIn::Element => element(alloc, x, y),
        BuiltIn::Member => member(alloc, x, y),
        BuiltIn::Cast => cast(alloc, x, y),
        BuiltIn::Reply => Ok(ok()),
        BuiltIn::Call => exit_by(alloc, "not_in_profile"),
        _ => exit_by(alloc, "undef"),
    }
}

/// What a call with three arguments gives.
fn of_three(
    alloc: Global,
    function: BuiltIn,
    x: &Term,
    y: &Term,
    z: &Term,
) -> Result<Given, AllocError>
    ensures { IfOk result (λ it. result_of it ≡ of_three function (tree x.now) (tree y.now) (tree z.now)) }
{
    match function {
        BuiltIn::SetElement => set_element(alloc, x, y, z),
        BuiltIn::Call => exit_by(alloc, "not_in_profile"),
        _ => exit_by(alloc, "undef"),
    }
}

/// What a call with three arguments or more gives.
#[tactic(auto, using(crate::proofs::Rows::given_three, crate::proofs::Rows::given_else))]
fn of_more(
    alloc: Global,
    own: u64,
    function: BuiltIn,
    arguments: &[Term],
) -> Result<Given, AllocError>
    requires some { trees arguments.now ≡ none → ⊥ }
    requires not_one { one_of (trees arguments.now) ≡ None }
    requires not_two { two_of (trees arguments.now) ≡ None }
    ensures { IfOk result (λ it. result_of it ≡ given own function (trees arguments.now)) }
{
    match three(arguments) {
        Some((x, y, z)) => of_three(alloc, function, x, y, z),
        None => exit_by(alloc, "undef"),
    }
}

/// What a call of a function that is built in gives in the process `own`, but of one that starts or names a process
/// (erlang(3), lists(3), gen_server(3)).
///
/// # Errors
///
/// `AllocError` where memory is refused.
#[tactic(auto, using(crate::proofs::Rows::given_none, crate::proofs::Rows::given_one, crate::proofs::Rows::given_two))]
pub fn call_built_in(
    alloc: Global,
    own: u64,
    function: BuiltIn,
    arguments: &[Term],
) -> Result<Given, AllocError>
    ensures { IfOk result (λ it. result_of it ≡ given own function (trees arguments.now)) }
{
    if arguments.is_empty() {
        return of_none(alloc, own, function);
    }
    if let Some(x) = one(arguments) {
        return of_one(alloc, function, x);
    }
    if let Some((x, y)) = two(arguments) {
        return of_two(alloc, function, x, y);
    }
    of_more(alloc, own, function, arguments)
}

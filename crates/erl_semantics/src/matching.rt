// Matching: what a term binds of a pattern.
ghost use Rattle.std.specs.Prelude.{◌≡◌, ◌++◌, IfOk, Bool, MatchOption, None, Some, slice_get, map};
ghost use Rattle.erl_term.specs.Term.{tree, trees};
ghost use Rattle.erl_ir.specs.Pattern as pattern;
ghost use Rattle.erl_ir.specs.PatternForms.{pat, pats};
ghost use Rattle.erl_semantics.specs.Bindings.{bindings, bound_if, rest_behind};
ghost use Rattle.erl_semantics.specs.Matching.{matched, matched_each, matched_front, matched_all, matched_variable};

use erl_ir::Pattern;
use erl_term::{Term, Terms};
use std::alloc::{AllocError, Global};
use values::Duplicate;

/// The term at an index of the bindings: of `base`, and of `fresh` behind it. Takes no memory.
pub fn bound<'a>(base: &'a [Term], fresh: &'a [Term], index: usize) -> Option<&'a Term>
    ensures { MatchOption result (slice_get (bindings base.now fresh.now) index ≡ None)
        (λ t. slice_get (bindings base.now fresh.now) index ≡ Some (tree t.now)) }
{
    if index < base.len() {
        return Some(&base[index]);
    }
    let index = index - base.len();
    if index < fresh.len() {
        Some(&fresh[index])
    } else {
        None
    }
}

/// Matches a variable: a bound one compares, and the next one is bound.
fn match_variable(
    alloc: Global,
    index: usize,
    term: &Term,
    base: &[Term],
    fresh: &mut Vec<Term>,
) -> Result<bool, AllocError>
    ensures { IfOk result (λ ok. matched (pattern.variable index) (tree term.now)
        (bindings base.now fresh.old.items) ≡ bound_if ok (bindings base.now fresh.new.items)) }
{
    if let Some(value) = bound(base, fresh.as_slice(), index) {
        return Ok(term == value);
    }
    if index == base.len() + fresh.len() {
        fresh.push(term.copy(alloc)?)?;
        return Ok(true);
    }
    Ok(false)
}

/// Matches a term with a pattern (Erlang Reference Manual, Pattern Matching): whether it matches where `base` and behind it
/// `fresh` are bound, and then what the match binds stands behind `fresh`. Where it doesn't match, `fresh` may have got more.
///
/// # Errors
///
/// `AllocError` where memory is refused; `fresh` may have got more.
#[cycle(matching)]
pub fn match_pattern(
    alloc: Global,
    pattern: &Pattern,
    term: &Term,
    base: &[Term],
    fresh: &mut Vec<Term>,
) -> Result<bool, AllocError>
    ensures { IfOk result (λ ok. matched (pat pattern.now) (tree term.now) (bindings base.now fresh.old.items) ≡ bound_if ok
        (bindings base.now fresh.new.items)) }
{
    match (pattern, term) {
        (Pattern::Literal(literal), _) => Ok(term == literal),
        (Pattern::Variable(index), _) => {
            match_variable(alloc, *index as usize, term, base, fresh)
        }
        (Pattern::Anything, _) => Ok(true),
        (Pattern::Tuple(patterns), Term::Tuple(row)) | (Pattern::List(patterns), Term::List(row)) =>
            { match_each(alloc, patterns.as_slice(), row.as_slice(), base, fresh) }
        (Pattern::Cons(patterns), Term::List(row)) => {
            match_front(alloc, patterns.as_slice(), row, base, fresh)
        }
        (Pattern::Alias(patterns), _) => match_all(alloc, patterns.as_slice(), term, base, fresh),
        (_, _) => Ok(false),
    }
}

/// Matches terms in a row with as many patterns, each with its own.
#[cycle(matching)]
pub fn match_each(
    alloc: Global,
    patterns: &[Pattern],
    terms: &[Term],
    base: &[Term],
    fresh: &mut Vec<Term>,
) -> Result<bool, AllocError>
    ensures { IfOk result (λ ok. matched_each (pats patterns.now) (trees terms.now)
        (bindings base.now fresh.old.items) ≡ bound_if ok (bindings base.now fresh.new.items)) }
{
    if patterns.len() != terms.len() {
        return Ok(false);
    }
    for i in 0..patterns.len() {
        if !match_pattern(alloc, &patterns[i], &terms[i], base, fresh)? {
            return Ok(false);
        }
    }
    Ok(true)
}

/// The row behind so many terms, which shares what it holds with the row.
fn rest_behind(alloc: Global, row: &Terms, count: usize) -> Result<Terms, AllocError>
    ensures { IfOk result (λ it. it ≡ rest_behind count row.now) }
{
    if count == 0 {
        return row.copy(alloc);
    }
    let mut left = row.rest(alloc)?;
    for _ in 1..count {
        left = left.rest(alloc)?;
    }
    Ok(left)
}

/// Matches the elements of a list with patterns, and what is left of it with the last pattern.
#[cycle(matching)]
fn match_front(
    alloc: Global,
    patterns: &[Pattern],
    row: &Terms,
    base: &[Term],
    fresh: &mut Vec<Term>,
) -> Result<bool, AllocError>
    ensures { IfOk result (λ ok. matched_front (pats patterns.now) row.now (bindings base.now fresh.old.items) ≡ bound_if ok
        (bindings base.now fresh.new.items)) }
{
    let Some((last, patterns)) = patterns.split_last() else {
        return Ok(false);
    };
    let terms = row.as_slice();
    if terms.len() < patterns.len() {
        return Ok(false);
    }
    let front = &terms[..patterns.len()];
    if !match_each(alloc, patterns, front, base, fresh)? {
        return Ok(false);
    }
    let rest = Term::List(rest_behind(alloc, row, patterns.len())?);
    match_pattern(alloc, last, &rest, base, fresh)
}

/// Matches one term with each pattern.
#[cycle(matching)]
fn match_all(
    alloc: Global,
    patterns: &[Pattern],
    term: &Term,
    base: &[Term],
    fresh: &mut Vec<Term>,
) -> Result<bool, AllocError>
    ensures { IfOk result (λ ok. matched_all (pats patterns.now) (tree term.now) (bindings base.now fresh.old.items) ≡ bound_if
        ok (bindings base.now fresh.new.items)) }
{
    for pattern in patterns {
        if !match_pattern(alloc, pattern, term, base, fresh)? {
            return Ok(false);
        }
    }
    Ok(true)
}

// An order of vertices.
ghost use Rattle.std.specs.Prelude.{◌≡◌, ◌<◌, ◌≤◌, ◌+◌, ◌||◌, ℕ, false, true, ltb, IfOk, OnOk, MatchOption, List, All};
ghost use Rattle.std.specs.Prelude.{length, get_or, set, map, replicate};
ghost use Rattle.std.specs.Ordering.{nat_cmp};
ghost use Rattle.std.specs.BTreeSet.{contains};
ghost use Rattle.dependency_order.specs.Left.{AreBothWays, AreOffered, IsClear, IsNextOf, IsPassing, Knows};
ghost use Rattle.dependency_order.specs.Left.{is_left, is_passed, waits_by};
ghost use Rattle.dependency_order.specs.Lists.{row, upto};
ghost use Rattle.dependency_order.specs.Orders.{IsOrderOf, stands, times};

use crate::lists::Lists;
use crate::relation::Relation;
use std::alloc::{AllocError, Global};
use std::collections::BTreeSet;

/// Which vertices are left, and what is known of them.
#[derive(Drop)]
pub struct Left {
    /// Whether a vertex that gives a module that it asks for waits for itself.
    itself: bool,
    /// Which are left.
    left: Vec<bool>,
    /// How many of those left give each module.
    held: Vec<usize>,
    /// How many of the modules that each vertex asks for, from the first on, are given by none that it waits for.
    passed: Vec<usize>,
    /// Those that may be free: all that are, and perhaps others.
    free: BTreeSet<usize>,
    /// None before it is left.
    first: usize,
}

/// The vertices, in order: a vertex waits for those that give a module that it asks for, and for itself only if `itself`.
pub fn in_order(
    alloc: Global,
    asks: &Relation,
    gives: &Relation,
    itself: bool,
) -> Result<Vec<usize>, AllocError>
    requires same { length asks.now.modules ≡ length gives.now.modules }
    requires asks { AreBothWays (length asks.now.modules) asks.now.modules asks.now.vertices }
    requires gives { AreBothWays (length asks.now.modules) gives.now.modules gives.now.vertices }
    ensures { IfOk result (λ order. IsOrderOf (waits_by asks.now.modules gives.now.modules itself)
        (upto (length asks.now.modules)) order.items) }
{
    let mut left = all_left(alloc, &gives.vertices, itself)?;
    let mut order = Vec::with_capacity(alloc, asks.modules.len())?;
    while let Some(vertex) = next(&mut left, &asks.modules, &gives.modules) {
        order.push(vertex)?;
        take(&mut left, vertex, asks, gives)?;
    }
    Ok(order)
}

// The state where all vertices are left.
fn all_left(alloc: Global, givers: &Lists, itself: bool) -> Result<Left, AllocError>
    ensures known { IfOk result (λ s. (asks gives : List (List ℕ)) → AreBothWays (length givers.now) gives givers.now →
        Knows asks gives (length givers.now) (length givers.now) s) }
    ensures itself { IfOk result (λ s. s.itself ≡ itself) }
    ensures left { IfOk result (λ s. s.left.items ≡ replicate (length givers.now) true) }
{
    let count = givers.len();
    Ok(Left {
        itself,
        left: vec![in alloc; true; count]?,
        held: lengths(alloc, givers)?,
        passed: vec![in alloc; 0; count]?,
        free: numbers(alloc, count)?,
        first: 0,
    })
}

fn lengths(alloc: Global, lists: &Lists) -> Result<Vec<usize>, AllocError>
    ensures { IfOk result (λ lengths. lengths.items ≡ map length lists.now) }
{
    let mut lengths = Vec::with_capacity(alloc, lists.len())?;
    for k in 0..lists.len() {
        lengths.push(lists.at(k).len())?;
    }
    Ok(lengths)
}

fn numbers(alloc: Global, count: usize) -> Result<BTreeSet<usize>, AllocError>
    ensures { IfOk result (λ numbers. (p : ℕ) → contains nat_cmp numbers p ≡ ltb p count) }
{
    let mut numbers = BTreeSet::new(alloc);
    for k in 0..count {
        numbers.insert(k)?;
    }
    Ok(numbers)
}

// What comes next.
fn next(left: &mut Left, asks: &Lists, gives: &Lists) -> Option<usize>
    requires same { length gives.now ≡ length asks.now }
    requires known { Knows asks.now gives.now (length asks.now) (length asks.now) left.old }
    requires asked { (k p : ℕ) → stands k (row asks.now p) ≡ true → k < length asks.now }
    ensures left { left.new.left.items ≡ left.old.left.items }
    ensures itself { left.new.itself ≡ left.old.itself }
    ensures next { MatchOption result ((p : ℕ) → is_left left.old.left.items p ≡ false)
        (λ p. IsNextOf (waits_by asks.now gives.now left.old.itself) left.old.left.items p ×
        Knows asks.now gives.now (length asks.now) p left.new) }
{
    if let Some(vertex) = next_free(left, asks, gives) {
        return Some(vertex);
    }
    left.first = first_left(&left.left, left.first);
    if left.first < left.left.len() {
        Some(left.first)
    } else {
        None
    }
}

// The first free one.
fn next_free(left: &mut Left, asks: &Lists, gives: &Lists) -> Option<usize>
    requires same { length gives.now ≡ length asks.now }
    requires known { Knows asks.now gives.now (length asks.now) (length asks.now) left.old }
    requires asked { (k p : ℕ) → stands k (row asks.now p) ≡ true → k < length asks.now }
    ensures left { left.new.left.items ≡ left.old.left.items }
    ensures itself { left.new.itself ≡ left.old.itself }
    ensures next { MatchOption result
        (Knows asks.now gives.now (length asks.now) (length asks.now) left.new ×
        ((p : ℕ) → is_left left.old.left.items p ≡ true →
        IsClear (waits_by asks.now gives.now left.old.itself) left.old.left.items p → ⊥))
        (λ p. IsNextOf (waits_by asks.now gives.now left.old.itself) left.old.left.items p ×
        Knows asks.now gives.now (length asks.now) p left.new) }
{
    while let Some(vertex) = left.free.pop_first() {
        if left.left[vertex] {
            let asked = asks.at(vertex);
            let from = left.passed[vertex];
            let to = passing(&left.held, asked, gives.at(vertex), left.itself, from);
            left.passed[vertex] = to;
            if to == asked.len() {
                return Some(vertex);
            }
        }
    }
    None
}

// The first index from one on, up to the end, whose module is given by one that a vertex waits for.
fn passing(held: &[usize], asked: &[usize], given: &[usize], itself: bool, from: usize) -> usize
    requires known { All (λ k. k < length held.now) asked.now }
    requires within { from ≤ length asked.now }
    ensures { IsPassing held.now asked.now given.now itself from result }
{
    let mut to = from;
    while to < asked.len() && is_passed(held[asked[to]], asked[to], given, itself) {
        to += 1;
    }
    to
}

// Whether a module that so many give is given by no other, or, if `itself`, by none.
fn is_passed(held: usize, number: usize, given: &[usize], itself: bool) -> bool
    ensures { result ≡ is_passed itself given.now held number }
{
    held == 0 || (held == 1 && !itself && given.contains(&number))
}

// The first that is left, from a vertex on, or how many there are.
fn first_left(left: &[bool], from: usize) -> usize
    ensures before { (p : ℕ) → from ≤ p → p < result → is_left left.now p ≡ false }
    ensures on { from ≤ result }
    ensures found { result < length left.now → is_left left.now result ≡ true }
{
    let mut first = from;
    while first < left.len() && !left[first] {
        first += 1;
    }
    first
}

// Takes a vertex from those left.
fn take(left: &mut Left, vertex: usize, asks: &Relation, gives: &Relation) -> Result<(), AllocError>
    requires left { is_left left.old.left.items vertex ≡ true }
    requires same { length asks.now.modules ≡ length gives.now.modules }
    requires asks { AreBothWays (length asks.now.modules) asks.now.modules asks.now.vertices }
    requires gives { AreBothWays (length asks.now.modules) gives.now.modules gives.now.vertices }
    requires known { Knows asks.now.modules gives.now.modules (length asks.now.modules) vertex left.old }
    ensures left { OnOk result (left.new.left.items ≡ set left.old.left.items vertex false) }
    ensures itself { OnOk result (left.new.itself ≡ left.old.itself) }
    ensures known { OnOk result
        (Knows asks.now.modules gives.now.modules (length asks.now.modules) (length asks.now.modules) left.new) }
{
    let given = gives.modules.at(vertex);
    left.left[vertex] = false;
    give_up(&mut left.held, given);
    offer_askers(&mut left.free, &left.held, given, &asks.vertices)?;
    Ok(())
}

// Counts off what a vertex gives.
fn give_up(held: &mut [usize], given: &[usize])
    requires known { All (λ k. k < length held.old) given.now }
    requires enough { (k : ℕ) → times k given.now ≤ get_or held.old k 0 }
    ensures { (k : ℕ) → get_or held.new k 0 + times k given.now ≡ get_or held.old k 0 }
{
    for module in given {
        held[*module] -= 1;
    }
}

// Puts those that may have become free to the others.
fn offer_askers(
    free: &mut BTreeSet<usize>,
    held: &[usize],
    given: &[usize],
    askers: &Lists,
) -> Result<(), AllocError>
    requires held { All (λ k. k < length held.now) given.now }
    requires askers { All (λ k. k < length askers.now) given.now }
    ensures { OnOk result (AreOffered free.old free.new held.now given.now askers.now) }
{
    for module in given {
        if held[*module] <= 1 {
            offer(free, askers.at(*module))?;
        }
    }
    Ok(())
}

fn offer(free: &mut BTreeSet<usize>, vertices: &[usize]) -> Result<(), AllocError>
    ensures { OnOk result
        ((p : ℕ) → contains nat_cmp free.new p ≡ (contains nat_cmp free.old p || stands p vertices.now)) }
{
    for vertex in vertices {
        free.insert(*vertex)?;
    }
    Ok(())
}

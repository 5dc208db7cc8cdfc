// The indices of children in the order of their Ids, and of the pids that they run as.
ghost use Rattle.std.specs.Prelude.{◌≡◌, ◌+◌, ◌<◌, ◌≤◌, ◌∷◌, All, IfOk, IsPermutation, Some, length, position, slice_index, true, vec_capacity, vec_len};
ghost use Rattle.std.specs.List.{insert, range_with_len, remove};
ghost use Rattle.std.specs.Option.{option_cmp};
ghost use Rattle.std.specs.Ordering.{is_lt, nat_cmp, on};
ghost use Rattle.erl_term.specs.Order.{tree_cmp};
ghost use Rattle.erl_term.specs.Term.{tree};
ghost use Rattle.app_table.specs.Applications.{has_id};
ghost use Rattle.app_table.specs.Children.{in_state, runs_as};
ghost use Rattle.app_table.specs.Ordered.{BelongsAt, IsOrderOf, Rises, by_id, by_pid, id_at, pid_at};
ghost use Rattle.values.specs.Edits.{changed_at};

use crate::child::{Child, ChildState};
use erl_term::Term;
use std::alloc::{AllocError, Global};
use std::cmp::Ordering;

/// How the Ids of the children at two indices compare.
fn compare_ids(row: &[Child], one: usize, other: usize) -> Ordering
    ensures { result ≡ option_cmp (on tree tree_cmp) (id_at row.now one) (id_at row.now other) }
{
    match row.get(one) {
        Some(a) => match row.get(other) {
            Some(b) => a.spec.id.cmp(&b.spec.id),
            None => Ordering::Greater,
        },
        None => match row.get(other) {
            Some(_) => Ordering::Less,
            None => Ordering::Equal,
        },
    }
}

/// Whether an index stands before another in the order of Ids.
fn stands_before_by_id(row: &[Child], one: usize, other: usize) -> bool
    ensures { result ≡ is_lt (by_id row.now one other) }
{
    compare_ids(row, one, other).then(one.cmp(&other)).is_lt()
}

/// Whether the child at an index has a lower Id.
fn is_below_id(row: &[Child], index: usize, id: &Term) -> bool
    ensures { result ≡ is_lt (option_cmp (on tree tree_cmp) (id_at row.now index) (Some id.now)) }
{
    match row.get(index) {
        Some(child) => child.spec.id.cmp(id).is_lt(),
        None => true,
    }
}

/// The pid that the child at an index runs as.
fn pid_at(row: &[Child], index: usize) -> Option<u64>
    ensures { result ≡ pid_at row.now index }
{
    match row.get(index) {
        Some(child) => child.pid(),
        None => None,
    }
}

/// Whether an index stands before another in the order of pids.
fn stands_before_by_pid(row: &[Child], one: usize, other: usize) -> bool
    ensures { result ≡ is_lt (by_pid row.now one other) }
{
    pid_at(row, one)
        .cmp(&pid_at(row, other))
        .then(one.cmp(&other))
        .is_lt()
}

/// Whether the child at an index runs as a lower pid, or doesn't run.
fn is_below_pid(row: &[Child], index: usize, pid: u64) -> bool
    ensures { result ≡ is_lt (option_cmp nat_cmp (pid_at row.now index) (Some pid)) }
{
    match pid_at(row, index) {
        Some(its) => its < pid,
        None => true,
    }
}

/// The index of the first child that has an Id. Takes the logarithm of their number.
pub(crate) fn first_of_id(row: &[Child], ids: &[usize], id: &Term) -> Option<usize>
    requires { IsOrderOf (by_id row.now) (length row.now) ids.now }
    ensures { result ≡ position (has_id id.now) row.now }
{
    let at = ids.partition_point(|index| is_below_id(row, *index, id));
    let index = *ids.get(at)?;
    let child = row.get(index)?;
    if child.spec.id == *id {
        Some(index)
    } else {
        None
    }
}

/// The index of the first child that runs as the process of a pid. Takes the logarithm of their number.
pub(crate) fn first_of_pid(row: &[Child], pids: &[usize], pid: u64) -> Option<usize>
    requires { IsOrderOf (by_pid row.now) (length row.now) pids.now }
    ensures { result ≡ position (runs_as pid) row.now }
{
    let at = pids.partition_point(|index| is_below_pid(row, *index, pid));
    let index = *pids.get(at)?;
    let child = row.get(index)?;
    if child.runs_as(pid) {
        Some(index)
    } else {
        None
    }
}

/// How many indices of the order of pids stand before an index.
fn count_before_by_pid(row: &[Child], pids: &[usize], index: usize) -> usize
    requires { Rises (by_pid row.now) pids.now }
    ensures within { result ≤ length pids.now }
    ensures point { BelongsAt (by_pid row.now) pids.now index result }
{
    pids.partition_point(|each| stands_before_by_pid(row, *each, index))
}

/// How many indices of the order of Ids stand before an index.
fn count_before_by_id(row: &[Child], ids: &[usize], index: usize) -> usize
    requires { Rises (by_id row.now) ids.now }
    ensures within { result ≤ length ids.now }
    ensures point { BelongsAt (by_id row.now) ids.now index result }
{
    ids.partition_point(|each| stands_before_by_id(row, *each, index))
}

/// Puts an index into the order of pids, where there is room. It doesn't stand there yet.
fn put_in_by_pid(row: &[Child], pids: &mut Vec<usize>, index: usize)
    requires rises { Rises (by_pid row.now) pids.old.items }
    requires others { All (λ each. each ≡ index → ⊥) pids.old.items }
    requires room { vec_len pids.old < vec_capacity pids.old }
    ensures rises { Rises (by_pid row.now) pids.new.items }
    ensures once { IsPermutation (index ∷ pids.old.items) pids.new.items }
    ensures room { (vec_len pids.new ≡ vec_len pids.old + 1) × (vec_capacity pids.new ≡ vec_capacity pids.old) }
{
    let at = count_before_by_pid(row, pids.as_slice(), index);
    let _ = pids.insert(at, index);
}

/// Puts an index into the order of Ids, where there is room. It doesn't stand there yet.
fn put_in_by_id(row: &[Child], ids: &mut Vec<usize>, index: usize)
    requires rises { Rises (by_id row.now) ids.old.items }
    requires others { All (λ each. each ≡ index → ⊥) ids.old.items }
    requires room { vec_len ids.old < vec_capacity ids.old }
    ensures rises { Rises (by_id row.now) ids.new.items }
    ensures once { IsPermutation (index ∷ ids.old.items) ids.new.items }
    ensures room { (vec_len ids.new ≡ vec_len ids.old + 1) × (vec_capacity ids.new ≡ vec_capacity ids.old) }
{
    let at = count_before_by_id(row, ids.as_slice(), index);
    let _ = ids.insert(at, index);
}

/// The indices of children in the order of their Ids.
///
/// # Errors
///
/// `AllocError` where memory is refused.
pub(crate) fn order_by_id(alloc: Global, row: &[Child]) -> Result<Vec<usize>, AllocError>
    ensures { IfOk result (λ ids. IsOrderOf (by_id row.now) (length row.now) ids.items) }
{
    let mut ids = Vec::with_capacity(alloc, row.len())?;
    put_all_in_by_id(row, &mut ids);
    Ok(ids)
}

/// The indices of children in the order of their Ids, in a list that has room for them. Takes no memory.
pub(crate) fn put_all_in_by_id(row: &[Child], ids: &mut Vec<usize>)
    requires { length row.now ≤ vec_capacity ids.old }
    ensures { IsOrderOf (by_id row.now) (length row.now) ids.new.items }
{
    ids.clear();
    for index in 0..row.len() {
        put_in_by_id(row, ids, index);
    }
}

/// The indices of children in the order of the pids that they run as.
///
/// # Errors
///
/// `AllocError` where memory is refused.
pub(crate) fn order_by_pid(alloc: Global, row: &[Child]) -> Result<Vec<usize>, AllocError>
    ensures { IfOk result (λ pids. IsOrderOf (by_pid row.now) (length row.now) pids.items) }
{
    let mut pids = Vec::with_capacity(alloc, row.len())?;
    put_all_in_by_pid(row, &mut pids);
    Ok(pids)
}

/// The indices of children in the order of the pids that they run as, in a list that has room for them. Takes no memory.
pub(crate) fn put_all_in_by_pid(row: &[Child], pids: &mut Vec<usize>)
    requires { length row.now ≤ vec_capacity pids.old }
    ensures { IsOrderOf (by_pid row.now) (length row.now) pids.new.items }
{
    pids.clear();
    for index in 0..row.len() {
        put_in_by_pid(row, pids, index);
    }
}

/// The indices in their own order.
pub(crate) fn order_indices(indices: &mut [usize])
    ensures { indices.new ≡ range_with_len 0 (length indices.old) }
{
    for index in 0..indices.len() {
        indices[index] = index;
    }
}

/// Where an index belongs among the others of an order of pids, from which it is left out where it stands.
fn count_others_before(row: &[Child], pids: &[usize], from: usize, index: usize) -> usize
    requires rises { Rises (by_pid row.now) (remove pids.now from) }
    requires there { from < length pids.now }
    ensures within { result < length pids.now }
    ensures point { BelongsAt (by_pid row.now) (remove pids.now from) index result }
{
    let front = &pids[..from];
    let back = &pids[from + 1..];
    let count = count_before_by_pid(row, front, index);
    if count < from {
        return count;
    }
    from + count_before_by_pid(row, back, index)
}

/// Moves an entry towards the end, and those between by one.
fn shift_up(pids: &mut [usize], from: usize, to: usize)
    requires ordered { from ≤ to }
    requires within { to < length pids.old }
    ensures { pids.new ≡ insert (remove pids.old from) to (slice_index pids.old from) }
{
    pids[from..to + 1].rotate_left(1);
}

/// Moves an entry towards the front, and those between by one.
fn shift_down(pids: &mut [usize], from: usize, to: usize)
    requires ordered { to ≤ from }
    requires within { from < length pids.old }
    ensures { pids.new ≡ insert (remove pids.old from) to (slice_index pids.old from) }
{
    pids[to..from + 1].rotate_right(1);
}

/// Moves an entry from one index to another, and those between by one.
fn shift(pids: &mut [usize], from: usize, to: usize)
    requires from { from < length pids.old }
    requires to { to < length pids.old }
    ensures { pids.new ≡ insert (remove pids.old from) to (slice_index pids.old from) }
{
    if from < to {
        shift_up(pids, from, to);
    } else {
        shift_down(pids, from, to);
    }
}

/// The child at an index is in a state: its index moves to where it belongs in the order of pids. Takes no memory.
pub(crate) fn set_state(row: &mut Vec<Child>, pids: &mut [usize], index: usize, state: ChildState)
    requires order { IsOrderOf (by_pid row.old.items) (length row.old.items) pids.old }
    requires there { index < length row.old.items }
    ensures set { row.new.items ≡ changed_at (in_state state) row.old.items index }
    ensures order { IsOrderOf (by_pid row.new.items) (length row.new.items) pids.new }
{
    let from = count_before_by_pid(row.as_slice(), pids, index);
    row[index].set(state);
    let to = count_others_before(row.as_slice(), pids, from, index);
    shift(pids, from, to);
}

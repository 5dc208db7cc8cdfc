// The children of a supervisor are specified anew.
ghost use Rattle.std.specs.Prelude.{◌≡◌, ◌+◌, ◌≤◌, ◌<◌, ◌++◌, ◌∷◌, [], IfSome, Some, drop, insert, length, option_map};
ghost use Rattle.std.specs.Prelude.{position, remove, slice_get, take, vec_capacity, vec_len};
ghost use Rattle.app_table.specs.Applications.{has_id};
ghost use Rattle.app_table.specs.Renewing.{AreEdits, IsEdit, IsFormer, child_by_id, child_for, moved, renewed};
ghost use Rattle.app_table.specs.Renewing.{unedited, unrenewed, with_former, with_spec, without};
ghost use Rattle.app_table.specs.declared.child.Child.{Child as OneChild};
ghost use Rattle.values.specs.Edits.{changed_at};

use crate::child::{Child, ChildState};
use child_specs::ChildSpec;
use erl_term::Term;
use std::mem;
use values::{Row, Same};

/// What a new specification has made of the children of a supervisor.
#[derive(Drop)]
pub enum ChildEdit {
    /// A child is new.
    Added,
    /// A child was there, at this index among those that were left, counted from 0 over all; and its former specification, where
    /// that is another one.
    Kept(usize, Option<ChildSpec>),
}

/// The child at an index moves to another one, and those between by one.
fn move_child(row: &mut Vec<Child>, from: usize, to: usize)
    requires from { from < length row.old.items }
    requires to { to < length row.old.items }
    ensures moved { row.new.items ≡ moved from to row.old.items }
    ensures room { (vec_len row.new ≡ vec_len row.old) × (vec_capacity row.new ≡ vec_capacity row.old) }
{
    if from == to {
        return;
    }
    let child = row.remove(from);
    let _ = row.insert(to, child);
}

/// A child is specified anew: its former specification, where that is another one.
fn respecify(child: &mut Child, spec: ChildSpec) -> Option<ChildSpec>
    ensures new { child.new ≡ with_spec spec child.old }
    ensures back { with_former result child.new ≡ child.old }
    ensures former { IsFormer spec child.old result }
{
    if child.spec.same(&spec) {
        return None;
    }
    Some(mem::replace(&mut child.spec, spec))
}

/// The index of the child of an Id.
fn index_in(row: &[Child], id: &Term) -> Option<usize>
    ensures { result ≡ position (has_id id.now) row.now }
{
    row.iter().position(|child| child.spec.id == *id)
}

/// The index of the child of an Id, among those from an index on.
fn index_from(row: &[Child], at: usize, id: &Term) -> Option<usize>
    requires { at ≤ length row.now }
    ensures { result ≡ option_map (λ k. at + k) (position (has_id id.now) (drop at row.now)) }
{
    match index_in(&row[at..], id) {
        Some(behind) => Some(at + behind),
        None => None,
    }
}

/// A child that is there moves to an index in front, and is specified anew.
fn keep_child(row: &mut Vec<Child>, at: usize, from: usize, spec: ChildSpec) -> ChildEdit
    requires ordered { at ≤ from }
    requires there { from < length row.old.items }
    ensures kept { (c : OneChild) → slice_get row.old.items from ≡ Some c →
        row.new.items ≡ insert (remove row.old.items from) at (with_spec spec c) }
    ensures back { unedited at result row.new.items ≡ row.old.items }
    ensures edit { (c : OneChild) → slice_get row.old.items from ≡ Some c → IsEdit spec (Some c) result }
    ensures room { (vec_len row.new ≡ vec_len row.old) × (vec_capacity row.new ≡ vec_capacity row.old) }
{
    move_child(row, from, at);
    let former = respecify(&mut row[at], spec);
    ChildEdit::Kept(from, former)
}

/// A child that is new stands at an index.
fn add_child(row: &mut Vec<Child>, at: usize, spec: ChildSpec) -> ChildEdit
    requires within { at ≤ length row.old.items }
    requires room { vec_len row.old < vec_capacity row.old }
    ensures added { row.new.items ≡ insert row.old.items at (child_for spec None) }
    ensures back { unedited at result row.new.items ≡ row.old.items }
    ensures edit { IsEdit spec None result }
    ensures room { (vec_len row.new ≡ vec_len row.old + 1) × (vec_capacity row.new ≡ vec_capacity row.old) }
{
    let child = Child {
        spec,
        state: ChildState::Stopped,
    };
    let _ = row.insert(at, child);
    ChildEdit::Added
}

/// The child of a specification stands at an index: that of its Id among those from there on, or a new one.
fn renew_child(row: &mut Vec<Child>, at: usize, spec: ChildSpec) -> ChildEdit
    requires within { at ≤ length row.old.items }
    requires room { vec_len row.old < vec_capacity row.old }
    ensures renewed { row.new.items ≡ take at row.old.items ++
        child_for spec (child_by_id spec.id (drop at row.old.items)) ∷ without spec.id (drop at row.old.items) }
    ensures back { unedited at result row.new.items ≡ row.old.items }
    ensures edit { IsEdit spec (child_by_id spec.id (drop at row.old.items)) result }
    ensures room { (vec_len row.new ≤ vec_len row.old + 1) × (vec_capacity row.new ≡ vec_capacity row.old) }
{
    match index_from(row.as_slice(), at, &spec.id) {
        Some(from) => keep_child(row, at, from, spec),
        None => add_child(row, at, spec),
    }
}

/// Children are specified anew. There is room for those that are new, and for what takes it back.
pub(crate) fn renew_all(row: &mut Vec<Child>, specs: Vec<ChildSpec>, edits: &mut Vec<ChildEdit>)
    requires room { vec_len row.old + length specs.items ≤ vec_capacity row.old }
    requires noted { length specs.items ≤ vec_capacity edits.old }
    requires none { edits.old.items ≡ [] }
    ensures renewed { row.new.items ≡ renewed specs.items row.old.items }
    ensures back { unrenewed 0 edits.new.items row.new.items ≡ row.old.items }
    ensures edits { AreEdits specs.items row.old.items edits.new.items }
    ensures room { (vec_len row.new ≤ vec_len row.old + length specs.items) × (vec_capacity row.new ≡ vec_capacity row.old) }
{
    for spec in specs {
        let at = edits.as_slice().len();
        edits.push_reserved(renew_child(row, at, spec));
    }
}

/// A child is as it was before a new specification. One that was there gets its former specification from the edit.
fn undo_edit(row: &mut Vec<Child>, at: usize, edit: ChildEdit)
    ensures undone { row.new.items ≡ unedited at edit row.old.items }
    ensures room { (vec_len row.new ≤ vec_len row.old) × (vec_capacity row.new ≡ vec_capacity row.old) }
{
    if at >= row.as_slice().len() {
        return;
    }
    match edit {
        ChildEdit::Added => {
            row.remove(at);
        }
        ChildEdit::Kept(from, former) => {
            undo_spec(&mut row[at], former);
            if from < row.as_slice().len() {
                move_child(row, at, from);
            }
        }
    }
}

/// A child has its former specification again, if that was another one.
fn undo_spec(child: &mut Child, former: Option<ChildSpec>)
    ensures { child.new ≡ with_former former child.old }
{
    if let Some(spec) = former {
        child.spec = spec;
    }
}

/// Children are as they were before they were specified anew, the last first.
pub(crate) fn unrenew_all(row: &mut Vec<Child>, edits: Row<ChildEdit>)
    ensures undone { row.new.items ≡ unrenewed 0 edits row.old.items }
    ensures room { (vec_len row.new ≤ vec_len row.old) × (vec_capacity row.new ≡ vec_capacity row.old) }
{
    let mut left = edits.into_vec();
    for at in (0..left.as_slice().len()).rev() {
        if let Some(edit) = left.pop() {
            undo_edit(row, at, edit);
        }
    }
}

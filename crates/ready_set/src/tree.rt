// A tree of marks, in a list. Node 1 is the root, a node has the nodes of twice its number and of one more below it, and the
// upper half of the list are the leaves. A node is marked where one of the two below it is. There is no node 0.
ghost use Rattle.std.specs.Prelude.{◌≡◌, ◌<◌, ◌≤◌, ◌+◌, ◌*◌, ◌/◌, ◌||◌, ℕ, false, true, length, set, IfNone, IfSome};
ghost use Rattle.std.specs.Prelude.{OnOk, OnErr};
ghost use Rattle.ready_set.specs.Marks.{IsFirst, IsFirstBelow, IsFirstFrom, IsFull, IsMended, IsTree};
ghost use Rattle.ready_set.specs.Marks.{is_leaf_marked, is_marked, leaf_of};

use std::alloc::AllocError;

// A node, and how many levels it stands above the leaves.
#[derive(Clone, Copy)]
struct Root {
    node: usize,
    levels: usize,
}

// The first marked leaf from a given one on, in logarithmic time.
pub(crate) fn first_from(marks: &[bool], leaf: usize) -> Option<usize>
    requires tree { IsTree marks.now }
    requires inner { 0 < leaf }
    requires within { leaf < length marks.now }
    ensures none { IfNone result ((k : ℕ) → leaf ≤ k → is_marked marks.now k ≡ false) }
    ensures first { IfSome result (IsFirstFrom marks.now leaf) }
{
    match climb(marks, leaf) {
        Some(root) => Some(descend(marks, leaf, root)),
        None => None,
    }
}

// The first marked node on the way from a leaf up and to the right.
fn climb(marks: &[bool], leaf: usize) -> Option<Root>
    requires tree { IsTree marks.now }
    requires inner { 0 < leaf }
    requires within { leaf < length marks.now }
    ensures none { IfNone result ((k : ℕ) → leaf ≤ k → is_marked marks.now k ≡ false) }
    ensures first { IfSome result (λ root. IsFirst marks.now leaf root.levels root.node) }
{
    let mut node = leaf;
    let mut end = marks.len();
    let mut levels = 0;
    while node < end {
        if marks[node] {
            return Some(Root { node, levels });
        }
        if node % 2 == 0 {
            node += 1;
        } else {
            node = node / 2 + 1;
            end /= 2;
            levels += 1;
        }
    }
    None
}

// The first marked leaf below a node.
fn descend(marks: &[bool], from: usize, root: Root) -> usize
    requires tree { IsTree marks.now }
    requires first { IsFirst marks.now from root.levels root.node }
    ensures { IsFirstBelow marks.now root.levels root.node result }
{
    let mut node = root.node;
    let mut levels = root.levels;
    while levels > 0 {
        levels -= 1;
        node *= 2;
        if !marks[node] {
            node += 1;
        }
    }
    node
}

// Marks or unmarks the leaf of a number, in logarithmic time.
pub(crate) fn put(marks: &mut [bool], number: usize, marked: bool)
    requires tree { IsTree marks.old }
    requires within { leaf_of marks.old number < length marks.old }
    ensures tree { IsTree marks.new }
    ensures here { is_leaf_marked marks.new number ≡ marked }
    ensures others { (k : ℕ) → (k ≡ number → ⊥) → is_leaf_marked marks.new k ≡ is_leaf_marked marks.old k }
{
    let leaf = marks.len() / 2 + number;
    marks[leaf] = marked;
    mend_above(marks, leaf);
}

// Mends the nodes above a leaf, where no other is to be mended.
fn mend_above(marks: &mut [bool], leaf: usize)
    requires full { IsFull marks.old }
    requires within { leaf < length marks.old }
    requires others { (k : ℕ) → 0 < k → 2 * k + 1 < length marks.old → (k ≡ leaf / 2 → ⊥) → IsMended marks.old k }
    ensures tree { IsTree marks.new }
    ensures leaves { (k : ℕ) → length marks.old ≤ 2 * k → is_marked marks.new k ≡ is_marked marks.old k }
{
    let mut node = leaf / 2;
    while node > 0 {
        mend(marks, node);
        node /= 2;
    }
}

// Mends all nodes above the leaves.
fn mend_all(marks: &mut [bool])
    requires { IsFull marks.old }
    ensures tree { IsTree marks.new }
    ensures leaves { (k : ℕ) → length marks.old ≤ 2 * k → is_marked marks.new k ≡ is_marked marks.old k }
{
    let mut node = marks.len() / 2;
    while node > 1 {
        node -= 1;
        mend(marks, node);
    }
}

// Mends a node by those below it.
fn mend(marks: &mut [bool], node: usize)
    requires inner { 0 < node }
    requires above { 2 * node + 1 < length marks.old }
    ensures { marks.new ≡ set marks.old node (is_marked marks.old (2 * node) || is_marked marks.old (2 * node + 1)) }
{
    marks[node] = marks[2 * node] || marks[2 * node + 1];
}

// Room for one number more: where each leaf has one, twice as many leaves. All new memory is asked for before the first change.
pub(crate) fn make_room(marks: &mut Vec<bool>, capacity: usize) -> Result<(), AllocError>
    requires tree { IsTree marks.old.items }
    requires room { 2 * capacity ≤ length marks.old.items }
    ensures tree { OnOk result (IsTree marks.new.items) }
    ensures room { OnOk result (2 * capacity + 2 ≤ length marks.new.items) }
    ensures leaves { OnOk result
        ((number : ℕ) → is_leaf_marked marks.new.items number ≡ is_leaf_marked marks.old.items number) }
    ensures err { OnErr result (marks.new.items ≡ marks.old.items) }
{
    if capacity < marks.len() / 2 {
        Ok(())
    } else {
        grow(marks)
    }
}

// As many leaves again stand behind those that there are, none of them marked, or the first one where there is none.
fn grow(marks: &mut Vec<bool>) -> Result<(), AllocError>
    requires { IsTree marks.old.items }
    ensures tree { OnOk result (IsTree marks.new.items) }
    ensures first { OnOk result (2 ≤ length marks.new.items) }
    ensures wider { OnOk result (2 * length marks.old.items ≤ length marks.new.items) }
    ensures leaves { OnOk result
        ((number : ℕ) → is_leaf_marked marks.new.items number ≡ is_leaf_marked marks.old.items number) }
    ensures err { OnErr result (marks.new.items ≡ marks.old.items) }
{
    let len = marks.len();
    let wanted = if len == 0 { 2 } else { 2 * len };
    marks.resize(wanted, false)?;
    spread(marks, len / 2);
    Ok(())
}

// The first numbers have the marks of what were their leaves, and all nodes above the leaves are mended.
fn spread(marks: &mut [bool], count: usize)
    requires full { IsFull marks.old }
    requires fits { 2 * count ≤ length marks.old / 2 }
    ensures tree { IsTree marks.new }
    ensures moved { (k : ℕ) → k < count → is_leaf_marked marks.new k ≡ is_marked marks.old (count + k) }
    ensures others { (k : ℕ) → count ≤ k → is_leaf_marked marks.new k ≡ is_leaf_marked marks.old k }
{
    move_leaves(marks, count);
    mend_all(marks);
}

// The first numbers have the marks of what were their leaves.
fn move_leaves(marks: &mut [bool], count: usize)
    requires { 2 * count ≤ length marks.old / 2 }
    ensures moved { (k : ℕ) → k < count → is_leaf_marked marks.new k ≡ is_marked marks.old (count + k) }
    ensures others { (k : ℕ) → count ≤ k → is_leaf_marked marks.new k ≡ is_leaf_marked marks.old k }
{
    let first = marks.len() / 2;
    for number in 0..count {
        marks[first + number] = marks[count + number];
    }
}

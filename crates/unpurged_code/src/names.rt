// Names in their order.
ghost use Rattle.std.specs.Prelude.{◌≡◌, ◌≤◌, OnOk, length, position};
ghost use Rattle.std.specs.Cmp.Lexicographic.{slice_cmp};
ghost use Rattle.std.specs.Ordering.{nat_cmp};
ghost use Rattle.unpurged_code.specs.Names.{is_among, index_among, stands_before, with_name};

use erl_term::Atom;
use std::alloc::AllocError;
use std::cmp::Ordering;

/// How two names compare: by the characters' code points.
fn compare(one: &Atom, other: &Atom) -> Ordering
    ensures { result ≡ slice_cmp nat_cmp one.now other.now }
{
    one.as_str().chars().cmp(other.as_str().chars())
}

/// Whether a name stands before another.
fn stands_before(one: &Atom, other: &Atom) -> bool
    ensures { result ≡ stands_before one.now other.now }
{
    compare(one, other).is_lt()
}

/// Whether a name is one of these.
fn is_among(names: &[Atom], name: &Atom) -> bool
    ensures { result ≡ is_among name.now names.now }
{
    names.iter().any(|each| *name == *each)
}

/// The index of the first name that stands behind this one.
fn first_behind(names: &[Atom], name: &Atom) -> Option<usize>
    ensures { result ≡ position (stands_before name.now) names.now }
{
    names.iter().position(|each| stands_before(name, each))
}

/// The index of a name among names that rise: that of the first that stands behind it.
fn index_among(names: &[Atom], name: &Atom) -> usize
    ensures index { result ≡ index_among name.now names.now }
    ensures within { result ≤ length names.now }
{
    match first_behind(names, name) {
        Some(index) => index,
        None => names.len(),
    }
}

/// Puts a name among names that rise, where it isn't one of them.
pub(crate) fn put_by_name(names: &mut Vec<Atom>, name: Atom) -> Result<(), AllocError>
    ensures { OnOk result (names.new.items ≡ with_name name names.old.items) }
{
    if is_among(names.as_slice(), &name) {
        return Ok(());
    }
    let index = index_among(names.as_slice(), &name);
    names.insert(index, name)?;
    Ok(())
}

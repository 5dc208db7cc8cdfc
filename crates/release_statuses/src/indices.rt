// Where releases stand in the list.
ghost use Rattle.std.specs.Prelude.{◌≡◌, IfOk, map};
ghost use Rattle.std.specs.Option.{option_copied};
ghost use Rattle.std.specs.Str.{bytes_eq, chars};
ghost use Rattle.release_statuses.specs.Statuses.{has_status, index_with, is_permanent, is_status, listed};
ghost use Rattle.release_statuses.specs.Statuses.{status_of, vsn_of};

use crate::by_version::ByVersion;
use crate::listed::Listed;
use crate::status::Status;
use std::alloc::{AllocError, Global};

/// Whether two statuses are one.
fn is_status(one: Status, other: Status) -> bool
    ensures { result ≡ is_status one other }
{
    one == other
}

/// Whether a release has a status.
pub(crate) fn has_status(it: &Listed, status: Status) -> bool
    ensures { result ≡ has_status status it.now }
{
    is_status(status, it.status)
}

/// Whether a release is of a version.
pub(crate) fn is_of(it: &Listed, vsn: &str) -> bool
    ensures { result ≡ bytes_eq (chars vsn.now) (vsn_of it.now) }
{
    vsn == it.release.rel.vsn.as_str()
}

/// Where the first release with a status stands. Looks at each release before it.
pub(crate) fn index_with(list: &[Listed], status: Status) -> Option<usize>
    ensures { result ≡ index_with status list.now }
{
    list.iter().position(|it| has_status(it, status))
}

/// The release of a version, with its status.
pub(crate) fn listed<'a>(table: &'a ByVersion, vsn: &str) -> Option<&'a Listed>
    ensures { option_copied result ≡ listed (chars vsn.now) table.now }
{
    let index = table.index_of(vsn)?;
    table.as_slice().get(index)
}

/// The status of the release of a version.
pub(crate) fn status_of(table: &ByVersion, vsn: &str) -> Option<Status>
    ensures { result ≡ status_of (chars vsn.now) table.now }
{
    match listed(table, vsn) {
        Some(it) => Some(it.status),
        None => None,
    }
}

/// Whether the release of a version is permanent.
pub(crate) fn is_permanent(table: &ByVersion, vsn: &str) -> bool
    ensures { result ≡ is_permanent (status_of (chars vsn.now) table.now) }
{
    match status_of(table, vsn) {
        Some(status) => is_status(Status::Permanent, status),
        None => false,
    }
}

/// The statuses of releases, in their order.
///
/// # Errors
///
/// `AllocError` where memory is refused.
pub(crate) fn statuses(alloc: Global, list: &[Listed]) -> Result<Vec<Status>, AllocError>
    ensures { IfOk result (λ statuses. statuses.items ≡ map (λ it. it.status) list.now) }
{
    let mut statuses = Vec::with_capacity(alloc, list.len())?;
    for it in list {
        statuses.push(it.status)?;
    }
    Ok(statuses)
}

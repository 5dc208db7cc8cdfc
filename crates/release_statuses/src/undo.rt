// What takes a change of the releases back.
use crate::by_version::TakenOut;
use crate::status::Status;
use values::Row;

/// What takes a change of the releases back.
#[derive(Drop)]
pub enum ReleasesUndo {
    /// A release was set unpacked: the last one.
    Added,
    /// This release stood at this index.
    Removed(usize, TakenOut),
    /// The releases had these statuses, in their order.
    Statuses(Row<Status>),
}

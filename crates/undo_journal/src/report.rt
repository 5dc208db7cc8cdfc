// What an undo reports.
ghost use Rattle.std.specs.Prelude.{◌≡◌, IfOk};

use std::alloc::{AllocError, Global};
use values::{Duplicate, Row, Same};

/// What an undo cut.
#[derive(Drop)]
pub struct Report<N> {
    /// How many stations, which is how many steps were taken back.
    pub cut: usize,
    /// The notes of their steps, oldest first.
    pub notes: Row<N>,
}

impl<N: Duplicate> Duplicate for Report<N> {
    fn copy(&self, alloc: Global) -> Result<Report<N>, AllocError> {
        Ok(Report {
            cut: self.cut,
            notes: self.notes.copy(alloc)?,
        })
    }
}

impl<N: Same> Same for Report<N> {
    fn same(&self, other: &Report<N>) -> bool {
        self.cut == other.cut && self.notes.same(&other.notes)
    }
}

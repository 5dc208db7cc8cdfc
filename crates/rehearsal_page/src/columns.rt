// The steps as columns of the timeline.
use low_instructions::{Direction, Low};
use node_views::NodeView;
use rehearsals::{Rehearsal, Station, Way};
use std::alloc::{AllocError, Global};

/// A step.
#[derive(Clone, Copy)]
pub(crate) struct Column<'a> {
    /// The way of the step.
    pub(crate) way: Direction,
    /// Its index on the way, from 0.
    pub(crate) index: usize,
    /// The node before it.
    pub(crate) before: &'a NodeView,
    /// Its record.
    pub(crate) station: &'a Station,
}

impl Column<'_> {
    /// Returns whether a failure of the step or of a later one restarts the node.
    pub(crate) fn is_point_of_no_return(&self) -> bool {
        matches!(self.station.instruction, Some(Low::PointOfNoReturn))
    }

    /// Returns whether its instruction fails.
    pub(crate) fn fails(&self) -> bool {
        !self.station.outcome.is_carried_out() && !self.station.outcome.is_end()
    }

    /// Returns whether it is the first step of the way down.
    pub(crate) fn begins_down(&self) -> bool {
        matches!(self.way, Direction::Down) && self.index == 0
    }

    /// Returns its number on its way, from 1.
    pub(crate) fn number(&self) -> u64 {
        number_of(self.index)
    }
}

/// Returns the number, from 1, for an index, from 0.
pub(crate) fn number_of(index: usize) -> u64 {
    (index as u64).saturating_add(1)
}

/// Returns the steps of a rehearsal: those of the way up, and then those of the way down.
pub(crate) fn columns_of<'a>(
    alloc: Global,
    rehearsal: &'a Rehearsal,
) -> Result<Vec<Column<'a>>, AllocError> {
    let mut found = Vec::new(alloc);
    push_way(Direction::Up, &rehearsal.up, &mut found)?;
    if let Some(down) = &rehearsal.down {
        push_way(Direction::Down, down, &mut found)?;
    }
    Ok(found)
}

/// Appends the steps of a way.
fn push_way<'a>(
    direction: Direction,
    way: &'a Way,
    found: &mut Vec<Column<'a>>,
) -> Result<(), AllocError> {
    for (index, station) in way.stations.iter().enumerate() {
        found.push(Column {
            way: direction,
            index,
            before: way.before(index),
            station,
        })?;
    }
    Ok(())
}

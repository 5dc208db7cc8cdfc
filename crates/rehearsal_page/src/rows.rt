// The processes as rows of the timeline.
use crate::cells::Cell;
use crate::columns::Column;
use node_views::NodeView;
use std::alloc::{AllocError, Global};

/// The largest number of processes in the timeline, so that a browser can handle it.
const MOST_ROWS: usize = 200;

/// A process that lived at some step.
#[derive(Clone, Copy)]
pub(crate) struct Row<'a> {
    /// Its pid.
    pub(crate) pid: u64,
    /// A node in which it lives.
    pub(crate) home: &'a NodeView,
    /// The column at which an instruction changes it first, or the number of columns.
    first: usize,
}

/// The rows of the timeline.
#[derive(Drop)]
pub(crate) struct Rows<'a> {
    /// Those that are shown, the least pid first.
    pub(crate) shown: Vec<Row<'a>>,
    /// The number of rows that are left out.
    pub(crate) left_out: usize,
}

impl Rows<'_> {
    /// Returns whether a process is shown.
    pub(crate) fn shows(&self, pid: u64) -> bool {
        self.shown.as_slice().iter().any(|row| row.pid == pid)
    }
}

/// Returns the rows of a rehearsal. If there are too many processes, those are shown that an instruction changes first.
pub(crate) fn rows_of<'a>(alloc: Global, columns: &[Column<'a>]) -> Result<Rows<'a>, AllocError> {
    let mut all = Vec::new(alloc);
    for pid in 0..pids(columns) {
        if let Some(home) = home_of(columns, pid) {
            let first = first_change(columns, pid);
            all.push(Row { pid, home, first })?;
        }
    }
    let shown = chosen(alloc, all.as_slice(), columns.len())?;
    let left_out = all.as_slice().len().saturating_sub(shown.as_slice().len());
    Ok(Rows { shown, left_out })
}

/// Returns the number of pids that were given.
fn pids(columns: &[Column<'_>]) -> u64 {
    let mut most = 0;
    for column in columns {
        most = most.max(column.before.processes.as_slice().len());
        most = most.max(column.station.behind.processes.as_slice().len());
        most = most.max(column.station.view.processes.as_slice().len());
    }
    most as u64
}

/// Returns the first node in which a process lives.
fn home_of<'a>(columns: &[Column<'a>], pid: u64) -> Option<&'a NodeView> {
    for column in columns {
        if column.before.process(pid).is_some() {
            return Some(column.before);
        }
        if column.station.behind.process(pid).is_some() {
            return Some(&column.station.behind);
        }
        if column.station.view.process(pid).is_some() {
            return Some(&column.station.view);
        }
    }
    None
}

/// Returns the first column at which an instruction changes a process, or the number of columns.
fn first_change(columns: &[Column<'_>], pid: u64) -> usize {
    match columns
        .iter()
        .position(|column| Cell::of(column, pid).is_changed)
    {
        Some(first) => first,
        None => columns.len(),
    }
}

/// Returns the number of rows that change before a column.
fn changed_before(rows: &[Row<'_>], column: usize) -> usize {
    rows.iter().filter(|row| row.first < column).count()
}

/// Returns the last column before which no more rows change than there is room for.
fn last_fitting(rows: &[Row<'_>], columns: usize) -> usize {
    let mut last = 0;
    for column in 0..=columns {
        if changed_before(rows, column) <= MOST_ROWS {
            last = column;
        }
    }
    last
}

/// Returns the rows that are shown: those that change before the last column that fits. Of the rows that change in that column,
/// it returns as many as there is room for.
fn chosen<'a>(alloc: Global, rows: &[Row<'a>], columns: usize) -> Result<Vec<Row<'a>>, AllocError> {
    let last = last_fitting(rows, columns);
    let mut room = MOST_ROWS.saturating_sub(changed_before(rows, last));
    let mut shown = Vec::new(alloc);
    for row in rows {
        if row.first < last {
            shown.push(*row)?;
        } else if row.first == last && room > 0 {
            room -= 1;
            shown.push(*row)?;
        }
    }
    Ok(shown)
}

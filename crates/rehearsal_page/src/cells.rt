// The cells of the timeline: what a process does after a step.
use crate::columns::Column;
use node_views::{Doing, ProcessView};
use rehearsal_report::doing_word;
use values::Same;

/// What a process does after a step.
#[derive(Clone, Copy)]
pub(crate) enum Kind {
    /// It rests.
    Idle,
    /// It runs a message.
    Running,
    /// It takes no message until it is resumed.
    Suspended,
    /// It has ended at this step.
    Ended,
    /// It was started at this step.
    New,
    /// It isn't there, neither before nor after.
    Absent,
}

/// All kinds, in the order of the legend.
pub(crate) const KINDS: [Kind; 6] = [
    Kind::Idle,
    Kind::Running,
    Kind::Suspended,
    Kind::Ended,
    Kind::New,
    Kind::Absent,
];

impl Kind {
    /// Returns its class in the style.
    pub(crate) fn class(self) -> &'static [u8] {
        match self {
            Kind::Idle => b"i",
            Kind::Running => b"r",
            Kind::Suspended => b"s",
            Kind::Ended => b"e",
            Kind::New => b"n",
            Kind::Absent => b"x",
        }
    }

    /// Returns its sign, which shows the kind without its colour.
    pub(crate) fn sign(self) -> &'static [u8] {
        match self {
            Kind::Idle => "○".as_bytes(),
            Kind::Running => "▶".as_bytes(),
            Kind::Suspended => "‖".as_bytes(),
            Kind::Ended => "✕".as_bytes(),
            Kind::New => b"+",
            Kind::Absent => "–".as_bytes(),
        }
    }

    /// Returns its word.
    pub(crate) fn word(self) -> &'static [u8] {
        match self {
            Kind::Idle => doing_word(&Doing::Idle),
            Kind::Running => b"running",
            Kind::Suspended => doing_word(&Doing::Suspended),
            Kind::Ended => b"ended",
            Kind::New => b"new",
            Kind::Absent => b"not there",
        }
    }
}

/// The content of a cell.
#[derive(Clone, Copy)]
pub(crate) struct Cell {
    /// What the process does.
    pub(crate) kind: Kind,
    /// Whether the instruction has changed it.
    pub(crate) is_changed: bool,
    /// Whether the traffic after the instruction has changed it.
    pub(crate) is_played: bool,
}

impl Cell {
    /// Returns the cell of a process after a step.
    pub(crate) fn of(column: &Column<'_>, pid: u64) -> Cell {
        let before = column.before.process(pid);
        let behind = column.station.behind.process(pid);
        let after = column.station.view.process(pid);
        Cell {
            kind: kind_of(before, before.is_some() || behind.is_some(), after),
            is_changed: !is_one(before, behind),
            is_played: !is_one(behind, after),
        }
    }

    /// Returns the classes of what has changed it, to be written after that of its kind.
    pub(crate) fn mark_classes(self) -> &'static [u8] {
        match (self.is_changed, self.is_played) {
            (true, true) => b" c t",
            (true, false) => b" c",
            (false, true) => b" t",
            (false, false) => b"",
        }
    }

    /// Returns the words of what has changed it, to be written after that of its kind.
    pub(crate) fn mark_words(self) -> &'static [u8] {
        match (self.is_changed, self.is_played) {
            (true, true) => b", changed by the instruction, changed by the traffic",
            (true, false) => b", changed by the instruction",
            (false, true) => b", changed by the traffic",
            (false, false) => b"",
        }
    }
}

/// Returns what a process does after a step. `was_there` says whether it was there before the step or at it.
fn kind_of(before: Option<&ProcessView>, was_there: bool, after: Option<&ProcessView>) -> Kind {
    match (before, after) {
        (Some(_), Some(process)) => kind_of_doing(&process.doing),
        (None, Some(_)) => Kind::New,
        (_, None) => { if was_there { Kind::Ended } else { Kind::Absent } }
    }
}

/// Returns the kind of what a process does.
fn kind_of_doing(doing: &Doing) -> Kind {
    match doing {
        Doing::Idle => Kind::Idle,
        Doing::Suspended => Kind::Suspended,
        Doing::Running(_) => Kind::Running,
    }
}

/// Returns whether a process is unchanged, or is not there before or after.
fn is_one(before: Option<&ProcessView>, after: Option<&ProcessView>) -> bool {
    match (before, after) {
        (None, None) => true,
        (Some(before), Some(after)) => before.same(after),
        (_, _) => false,
    }
}

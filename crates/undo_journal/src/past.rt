// A journal's entries, by which its steps are taken back.
ghost use Rattle.std.specs.Prelude.{◌≡◌, ℕ, ◌<◌, ◌≤◌, ◌+◌, ◌-◌, List, [], ◌∷◌, ◌++◌, length, take, map, replicate};
ghost use Rattle.std.specs.Prelude.{Option, option_map, vec_len, vec_capacity, IfOk, IfSome};
ghost use Rattle.std.specs.Bool.{OnTrue, OnFalse};
ghost use Rattle.undo_journal.specs.Past.{stations, shortened, Chained};
ghost use Rattle.undo_journal.specs.Timeline.{Station, Rises, kept_to, newest, report_of};

use crate::report::Report;
use crate::reversible::Reversible;
use std::alloc::{AllocError, Global};
use std::snapshot::Snapshot;
use values::{Duplicate, Row};

/// What a journal keeps of a station: its serial and note, and the record that takes its step back.
/// The node is there for contracts alone, and has no bytes.
#[derive(Drop)]
pub(crate) struct Entry<S, R, N> {
    pub(crate) serial: u64,
    pub(crate) trace: R,
    pub(crate) note: N,
    pub(crate) node: Snapshot<S>,
}

/// Enters a step of a serial, after which the machine stands so, where there is room for it.
pub(crate) fn enter<S: Reversible>(
    past: &mut Vec<Entry<S, S::Record, S::Note>>,
    at: u64,
    trace: S::Record,
    note: S::Note,
    state: &S,
)
    requires { vec_len past.old < vec_capacity past.old }
    ensures { (entry : Entry S S.Record S.Note) × (past.new.items ≡ past.old.items ++ entry ∷ []) × (entry.serial ≡ at)
        × (entry.trace ≡ trace) × (entry.note ≡ note) × (entry.node.value ≡ state.now) }
{
    let entered = Entry {
        serial: at,
        trace,
        note,
        node: Snapshot::of(state),
    };
    past.push_reserved(entered);
}

/// The serial of the newest station, which is `floor`, the first one's, where there are no entries.
pub(crate) fn newest_serial<S, R, N>(past: &[Entry<S, R, N>], floor: u64) -> u64
    ensures { (s : Station S N) → s.serial ≡ floor → result ≡ (newest s (stations past.now)).serial }
{
    match past.last() {
        Some(entry) => entry.serial,
        None => floor,
    }
}

/// How many entries stay in an undo to `mark`, or `None` where no station has that serial. A binary
/// search, since serials rise from `floor`, the first station's.
pub(crate) fn kept_entries<S, R, N>(past: &[Entry<S, R, N>], floor: u64, mark: u64) -> Option<usize>
    requires { Rises floor (stations past.now) }
    ensures within { IfSome result (λ keep. keep ≤ length past.now) }
    ensures kept { (s : Station S N) → s.serial ≡ floor
        → kept_to mark s (stations past.now) ≡ option_map (λ keep. take keep (stations past.now)) result }
{
    let keep = past.partition_point(|entry| entry.serial <= mark);
    let reached = newest_serial(&past[..keep], floor);
    if reached == mark { Some(keep) } else { None }
}

/// Hands out the last of the first `count` entries, and drops those before it. Takes no memory, and
/// time for each entry.
pub(crate) fn drop_before<S: Reversible>(
    past: &mut Vec<Entry<S, S::Record, S::Note>>,
    count: usize,
) -> Entry<S, S::Record, S::Note>
    requires nonempty { 0 < count }
    requires within { count ≤ vec_len past.old }
    ensures { (dropped : List (Entry S S.Record S.Note)) × (past.old.items ≡ dropped ++ result ∷ past.new.items)
        × (length dropped + 1 ≡ count) }
{
    past.rotate_left(count);
    let Some(entry) = past.pop() else {
        unreachable!()
    };
    let dropped = count - 1;
    past.truncate(past.len() - dropped);
    entry
}

/// Takes the newest entry's step back, and answers whether it did: where memory is refused, all is
/// as it was.
fn take_back<S: Reversible>(state: &mut S, past: &mut Vec<Entry<S, S::Record, S::Note>>) -> bool
    requires nonempty { 0 < vec_len past.old }
    requires chained { (first : S) × Chained S.undoes first past.old.items state.old }
    ensures done { OnTrue result (past.new.items ≡ take (vec_len past.old - 1) past.old.items) }
    ensures unchanged { OnFalse result ((past.new.items ≡ past.old.items) × (state.new ≡ state.old)) }
    ensures chain { (first : S) → Chained S.undoes first past.old.items state.old
        → Chained S.undoes first past.new.items state.new }
{
    let Some(entry) = past.pop() else {
        unreachable!()
    };
    let Entry {
        serial,
        trace,
        note,
        node,
    } = entry;
    match state.revert(trace) {
        Ok(()) => true,
        Err(trace) => {
            let entry = Entry {
                serial,
                trace,
                note,
                node,
            };
            past.push_reserved(entry);
            false
        }
    }
}

/// Takes steps back, the newest first, until `keep` entries are left or memory is refused.
pub(crate) fn take_back_to<S: Reversible>(
    state: &mut S,
    past: &mut Vec<Entry<S, S::Record, S::Note>>,
    keep: usize,
)
    requires within { keep ≤ vec_len past.old }
    requires chained { (first : S) × Chained S.undoes first past.old.items state.old }
    ensures front { past.new.items ≡ take (vec_len past.new) past.old.items }
    ensures kept { keep ≤ vec_len past.new }
    ensures shorter { vec_len past.new ≤ vec_len past.old }
    ensures chain { (first : S) → Chained S.undoes first past.old.items state.old
        → Chained S.undoes first past.new.items state.new }
{
    while past.len() > keep {
        if !take_back(state, past) {
            return;
        }
    }
}

/// The report of an undo that cuts these stations.
pub(crate) fn report_on<S, R, N: Duplicate>(
    alloc: Global,
    cut: &[Entry<S, R, N>],
) -> Result<Report<N>, AllocError>
    ensures { IfOk result (λ report. report ≡ report_of (stations cut.now)) }
{
    let mut notes = Vec::with_capacity(alloc, cut.len())?;
    for entry in cut {
        notes.push(entry.note.copy(alloc)?)?;
    }
    Ok(Report {
        cut: cut.len(),
        notes: Row::new(notes),
    })
}

/// `n` equal reports of an undo that cuts these stations.
pub(crate) fn reports_on<S, R, N: Duplicate>(
    alloc: Global,
    cut: &[Entry<S, R, N>],
    n: u8,
) -> Result<Vec<Report<N>>, AllocError>
    ensures { IfOk result (λ reports. reports.items ≡ replicate n (report_of (stations cut.now))) }
{
    let mut reports = Vec::with_capacity(alloc, usize::from(n))?;
    for _i in 0..n {
        reports.push(report_on(alloc, cut)?)?;
    }
    Ok(reports)
}

/// Makes reports those of the newest `cut` stations alone. Takes no memory.
fn shorten<N: Drop>(reports: &mut Vec<Report<N>>, cut: usize)
    ensures { reports.new.items ≡ map (λ r. shortened cut r) reports.old.items }
{
    for report in reports.iter_mut() {
        report.cut = cut;
        report.notes.truncate_front(cut);
    }
}

/// Makes reports of an undo that stopped: those of the newest `cut` stations, and none where nothing
/// was cut. Takes no memory.
pub(crate) fn keep_newest<N: Drop>(reports: &mut Vec<Report<N>>, cut: usize)
    ensures none { cut ≡ 0 → reports.new.items ≡ [] }
    ensures some { 0 < cut → reports.new.items ≡ map (λ r. shortened cut r) reports.old.items }
{
    if cut == 0 {
        reports.clear();
    } else {
        shorten(reports, cut);
    }
}

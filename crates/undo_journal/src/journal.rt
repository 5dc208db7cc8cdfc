// The journal.
ghost use Rattle.std.specs.Prelude.{◌≡◌, ◌≤◌, ◌<◌, ◌↔◌, ◌-◌, ◌^◌, [], is_some, length, take, replicate};
ghost use Rattle.std.specs.Prelude.{Some, Err, IfOk, IfErr, IfSome, IsTrue, OnOk, OnErr};
ghost use Rattle.std.specs.Option.{option_copied};
ghost use Rattle.undo_journal.specs.Journal.{FailsBy, Performs, PerformFails, UndoFails, HasNoReport, HasNoStation, IsOutOfMemoryAt, IsReportOf};
ghost use Rattle.undo_journal.specs.Past.{IsRecordAt};
ghost use Rattle.undo_journal.specs.Timeline.{here, opened, kept_to, cut_to, forgotten_to, cut_stations, node_at};
ghost use Rattle.undo_journal.specs.Timeline.{notes_of, report_of, IsFront, IsOrdered};

use crate::error::JournalError;
use crate::past::{
    Entry, drop_before, enter, keep_newest, kept_entries, newest_serial, report_on, reports_on,
    take_back_to,
};
use crate::report::Report;
use crate::reversible::{Reversible, Stepped, Told};
use std::alloc::{AllocError, Global};
use std::marker::Model;
use std::snapshot::Snapshot;
use values::Failure;

/// The serial of a station. The node that a journal begins with has mark 0.
pub type Mark = u64;

/// A machine with the records of its steps, seen by contracts as a timeline.
pub struct Journal<S: Reversible> {
    alloc: Global,
    state: S,
    floor: u64,
    first_note: Option<S::Note>,
    first: Snapshot<S>,
    past: Vec<Entry<S, S::Record, S::Note>>,
    last: u64,
}

/// It is taken apart here. Who drops one above proves what its state, its records and its notes hold, for their types are
/// parameters.
impl<S: Reversible> Drop for Journal<S> {
    fn drop(self) {
        let Journal {
            alloc: _alloc,
            state: _state,
            floor: _floor,
            first_note: _first_note,
            first: _first,
            past: _past,
            last: _last,
        } = self;
    }
}

impl<S: Reversible> Model for Journal<S> {
    ghost use Rattle.undo_journal.specs.Timeline.{Timeline};

    ghost Value = { Timeline S S.Note };

    ghost use Rattle.undo_journal.specs.Past.{Chained, timeline_of};
    ghost use Rattle.undo_journal.specs.Timeline.{IsOrdered};

    ghost view = { λ j. timeline_of j.floor j.first.value j.first_note j.past.items j.last };

    ghost invariant = { λ j. Chained S.undoes j.first.value j.past.items j.state
        × IsOrdered (timeline_of j.floor j.first.value j.first_note j.past.items j.last) };
}

impl<S: Reversible> Journal<S> {
    /// A journal that stands at this node, with mark 0 and no step.
    ///
    /// It keeps room for a station from the start.
    ///
    /// # Errors
    ///
    /// `AllocError` where memory is refused; the node is then dropped.
    pub fn new(alloc: Global, node: S) -> Result<Journal<S>, AllocError>
        ensures { IfOk result (λ journal. journal ≡ opened node) }
    {
        let past = Vec::with_capacity(alloc, 1)?;
        let first = Snapshot::of(&node);
        Ok(Journal {
            alloc,
            state: node,
            floor: 0,
            first_note: None,
            first,
            past,
            last: 0,
        })
    }

    /// The mark of the node where the machine stands. Takes no memory.
    pub fn mark(&self) -> Mark
        ensures serial { result ≡ (here self.now).serial }
        ensures names { cut_to result self.now ≡ Some self.now }
        ensures node { node_at result self.now ≡ Some (here self.now).node }
        ensures ordered { IsOrdered self.now }
    {
        newest_serial(self.past.as_slice(), self.floor)
    }

    /// The machine where it stands. Takes no memory.
    pub fn state(&self) -> &S
        ensures { result.now ≡ (here self.now).node }
    {
        &self.state
    }

    /// The record that takes back the step to the station at an index behind the first, counted from 0; none past the last
    /// station. Takes no memory.
    pub fn record(&self, index: usize) -> Option<&S::Record>
        ensures kept { IsTrue (is_some result) ↔ (index < length self.now.later) }
        ensures takes_back { IfSome result (λ it. IsRecordAt S.undoes index self.now it.now) }
    {
        let entry = self.past.get(index)?;
        Some(&entry.trace)
    }

    /// Returns the mark of the first station: no undo goes back to before it. Takes no memory.
    pub fn floor(&self) -> Mark
        ensures { result ≡ self.now.first.serial }
    {
        self.floor
    }

    /// Returns what an undo to the mark would report: how many steps it would cut, and their notes, oldest first. Nothing is
    /// undone. It costs a binary search, and a copy of those notes.
    ///
    /// # Errors
    ///
    /// In this order: `Forgotten` if the mark is below the first station's, `DeadMark` if it is any other without a station,
    /// and `Memory`, which has the present mark, if an allocation fails.
    pub fn report(&self, mark: Mark) -> Result<Report<S::Note>, JournalError<S::Refusal, S::Note>>
        ensures reported { IfOk result (IsReportOf mark self.now) }
        ensures err { IfErr result (HasNoReport mark self.now) }
    {
        let keep = self.entries_to(mark)?;
        match report_on(self.alloc, &self.past[keep..]) {
            Ok(report) => Ok(report),
            Err(_) => Err(self.out_of_memory()),
        }
    }

    /// Whether no serial is left for another step. Takes no memory.
    pub fn is_full(&self) -> bool
        ensures { IsTrue result ↔ (self.now.last ≡ 2 ^ 64 - 1) }
    {
        self.last == u64::MAX
    }

    /// Performs an event, as the machine's rule says: appends its station under the next serial,
    /// and tells `n` equal values of it. The machine tells one more, whose note the journal keeps.
    /// Amortized, it costs the machine's step and no more.
    ///
    /// # Errors
    ///
    /// In this order: `SerialEnd`; `Step` with the rule's refusal; `Memory`, which names the mark
    /// where the journal stands, and which hides no refusal that is told without memory. Each
    /// leaves the journal as it was.
    pub fn perform(
        &mut self,
        event: &S::Event,
        n: u8,
    ) -> Result<Vec<Told<S::Answer, S::Note>>, JournalError<S::Refusal, S::Note>>
        ensures performed { IfOk result
            (λ told. Performs (S.rule (here self.old).node event.now) n self.old told.items self.new) }
        ensures refused { IfErr result
            (PerformFails (S.rule (here self.old).node event.now)
            (S.may_run_out (here self.old).node event.now) self.old) }
        ensures serial_end { self.old.last ≡ 2 ^ 64 - 1 → result ≡ Err JournalError.SerialEnd }
        ensures err { OnErr result (self.new ≡ self.old) }
    {
        if self.last == u64::MAX {
            return Err(JournalError::SerialEnd);
        }
        if self.past.reserve(1).is_err() {
            return Err(self.failure_without_memory(event));
        }
        let Stepped { mut told, trace } = match self.state.step(event, usize::from(n) + 1) {
            Ok(stepped) => stepped,
            Err(error) => return Err(self.failure(error)),
        };
        let Some(kept) = told.pop() else {
            unreachable!()
        };
        let Told { answer: _, note } = kept;
        self.last += 1;
        enter(&mut self.past, self.last, trace, note, &self.state);
        Ok(told)
    }

    /// Undoes every step after the mark, and reports it `n` times: how many steps, and their notes,
    /// oldest first. It costs a binary search, `n` copies of the notes of what it was asked to cut,
    /// and the reverts of what it cuts.
    ///
    /// # Errors
    ///
    /// In this order: `Forgotten` where the mark is below the first station's, and `DeadMark` where it
    /// is any other without a station, which leave the journal as it was. `Memory` where memory is
    /// refused, and then the journal stands at a station at or after the mark: the error names that
    /// station and has `n` reports of what was cut up to there, but none where nothing was. The same
    /// undo may be called again, and with memory it ends at the mark.
    pub fn undo(
        &mut self,
        mark: Mark,
        n: u8,
    ) -> Result<Vec<Report<S::Note>>, JournalError<S::Refusal, S::Note>>
        ensures undone { OnOk result (cut_to mark self.old ≡ Some self.new) }
        ensures at_mark { OnOk result ((here self.new).serial ≡ mark) }
        ensures reported { IfOk result
            (λ reports. reports.items ≡ replicate n (report_of (cut_stations self.old self.new))) }
        ensures err { IfErr result (UndoFails mark n self.old self.new) }
        ensures front { IsFront self.old self.new }
        ensures noted { length (notes_of (cut_stations self.old self.new))
            ≡ length (cut_stations self.old self.new) }
    {
        let keep = self.entries_to(mark)?;
        let Ok(mut reports) = reports_on(self.alloc, &self.past[keep..], n) else {
            return Err(self.out_of_memory());
        };
        let stood = self.past.len();
        take_back_to(&mut self.state, &mut self.past, keep);
        if self.past.len() == keep {
            return Ok(reports);
        }
        keep_newest(&mut reports, stood - self.past.len());
        Err(JournalError::Memory {
            mark: self.mark(),
            reports,
        })
    }

    /// Makes the mark's station the first, and drops the records of the steps up to it: no undo goes
    /// back to before it any more. The machine stands where it stood, and each mark from this one on names
    /// the node that it named. Takes no memory. It costs a binary search, the drops of those records,
    /// and a move of each other one.
    ///
    /// # Errors
    ///
    /// In this order: `Forgotten` where the mark is below the first station's, and `DeadMark` where it
    /// is any other without a station. Each leaves the journal as it was.
    pub fn forget(&mut self, mark: Mark) -> Result<(), JournalError<S::Refusal, S::Note>>
        ensures forgotten { OnOk result (forgotten_to mark self.old ≡ Some self.new) }
        ensures at_mark { OnOk result (self.new.first.serial ≡ mark) }
        ensures here { here self.new ≡ here self.old }
        ensures refused { IfErr result (HasNoStation mark self.old) }
        ensures err { OnErr result (self.new ≡ self.old) }
    {
        let count = self.entries_to(mark)?;
        if count == 0 {
            return Ok(());
        }
        let Entry {
            serial,
            trace: _,
            note,
            node,
        } = drop_before(&mut self.past, count);
        self.floor = serial;
        self.first_note = Some(note);
        self.first = node;
        Ok(())
    }

    /// How many entries stand up to the mark's station. A binary search.
    ///
    /// # Errors
    ///
    /// In this order: `Forgotten` where the mark is below the first station's, and `DeadMark` where it
    /// is any other without a station.
    fn entries_to(&self, mark: Mark) -> Result<usize, JournalError<S::Refusal, S::Note>>
        ensures within { IfOk result (λ count. count ≤ length self.now.later) }
        ensures kept { IfOk result
            (λ count. kept_to mark self.now.first self.now.later ≡ Some (take count self.now.later)) }
        ensures err { IfErr result (HasNoStation mark self.now) }
    {
        if mark < self.floor {
            return Err(JournalError::Forgotten);
        }
        match kept_entries(self.past.as_slice(), self.floor, mark) {
            Some(count) => Ok(count),
            None => Err(JournalError::DeadMark),
        }
    }

    /// Why an event isn't performed for which there is no memory: the rule refuses it, as is told without
    /// memory, or memory is wanting.
    fn failure_without_memory(&self, event: &S::Event) -> JournalError<S::Refusal, S::Note>
        ensures { PerformFails (S.rule (here self.now).node event.now)
            (S.may_run_out (here self.now).node event.now) self.now result }
    {
        match self.state.refusal(event) {
            Some(refusal) => JournalError::Step(refusal),
            None => self.out_of_memory(),
        }
    }

    /// Why an event isn't performed whose step failed, and changed nothing.
    fn failure(&self, error: Failure<S::Refusal>) -> JournalError<S::Refusal, S::Note>
        ensures { FailsBy error (here self.now).serial result }
    {
        match error {
            Failure::Refused(refusal) => JournalError::Step(refusal),
            Failure::Memory => self.out_of_memory(),
        }
    }

    /// Lack of memory that changed nothing.
    fn out_of_memory(&self) -> JournalError<S::Refusal, S::Note>
        ensures { IsOutOfMemoryAt (here self.now).serial result }
    {
        JournalError::Memory {
            mark: self.mark(),
            reports: Vec::new(self.alloc),
        }
    }
}

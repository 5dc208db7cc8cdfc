// The progress of a rehearsal, on a terminal.
use std::fmt;
use std::rt::Runtime;
use std::time::{Duration, Instant};
use upgrade_rehearsal::Watch;

/// The number of marks in a bar.
const MARKS: u64 = 40;

/// The number of seconds that a rehearsal takes before a bar is shown.
const PATIENCE: u64 = 1;

/// A progress bar on the standard error. It is shown if a rehearsal takes over a second; what can't be written of it is left
/// out.
#[derive(Drop)]
pub struct Bar<'a, R: Runtime> {
    rt: &'a R,
    /// The time at which the rehearsal began; `None` if no bar is to be shown.
    begun: Option<Instant>,
    /// The number of instructions.
    all: u64,
    /// The number of instructions that are done.
    gone: u64,
    /// The number of marks that are shown, if any are.
    shown: Option<u64>,
}

/// The marks of a bar.
#[derive(Clone, Copy, Drop)]
struct Marks {
    /// The number of filled marks.
    filled: u64,
}

impl fmt::Display for Marks {
    fn fmt<W: fmt::Write>(&self, f: &mut fmt::Formatter<W>) -> fmt::Result {
        f.write_str("\r[")?;
        for index in 0..MARKS {
            f.write_str(if index < self.filled { "#" } else { "." })?;
        }
        f.write_str("]")
    }
}

impl<'a, R: Runtime> Bar<'a, R> {
    /// Returns a bar for a rehearsal that begins, with so many instructions; it is shown only on a terminal.
    pub fn new(rt: &'a R, is_terminal: bool, all: u64) -> Bar<'a, R> {
        let begun = if is_terminal {
            Instant::now(rt).ok()
        } else {
            None
        };
        Bar {
            rt,
            begun,
            all,
            gone: 0,
            shown: None,
        }
    }

    /// Returns whether the rehearsal has taken so long that a bar is due.
    fn is_due(&self) -> bool {
        match &self.begun {
            Some(begun) => begun
                .elapsed(self.rt)
                .is_ok_and(|passed| passed >= Duration::from_secs(PATIENCE)),
            None => false,
        }
    }

    /// Returns the number of filled marks.
    fn filled(&self) -> u64 {
        let gone = u128::from(self.gone.min(self.all));
        let marks = gone * u128::from(MARKS) / u128::from(self.all.max(1));
        u64::try_from(marks).unwrap_or(MARKS)
    }

    /// Removes the bar, if one is shown.
    pub fn clear(self) {
        if self.shown.is_some() {
            let _ = self.rt.eprint("\r\u{1b}[K");
        }
    }
}

impl<'a, R: Runtime> Watch for Bar<'a, R> {
    fn step(&mut self) {
        self.gone = self.gone.saturating_add(1);
        let filled = self.filled();
        if self.shown != Some(filled) && self.is_due() {
            let _ = self.rt.eprint(Marks { filled });
            self.shown = Some(filled);
        }
    }
}

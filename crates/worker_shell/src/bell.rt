// What workers wait for that found nothing to do.
use std::sync::{Condvar, Mutex, MutexGuard, Wait};
use std::time::{Clock, Duration};

/// After how long a worker that found nothing to do looks again whether the bell has rung, in milliseconds.
const PAUSE: u64 = 50;

/// After how long it looks for work again while a line is answered that waits for others, in milliseconds: work may come at
/// any time then.
const SHORT_PAUSE: u64 = 1;

/// What is known of the session.
#[derive(Clone, Copy)]
struct Rings {
    /// How often the bell has rung; from the greatest number it goes back to 0.
    count: u64,
    /// Whether a line is being answered that waits for others.
    is_answering: bool,
    /// Whether the session is over.
    is_over: bool,
}

/// A bell: it rings where a line or a commit may have given work, and where a worker got a job, for there may be more. Workers
/// that found nothing to do wait for it.
#[derive(Drop)]
pub(crate) struct Bell {
    rings: Mutex<Rings>,
    rung: Condvar,
}

impl Bell {
    /// A bell that has not rung.
    pub(crate) fn new() -> Bell {
        Bell {
            rings: Mutex::new(Rings {
                count: 0,
                is_answering: false,
                is_over: false,
            }),
            rung: Condvar::new(),
        }
    }

    /// Rings: one who waits goes on.
    pub(crate) fn ring<R: Wait>(&self, rt: &R) {
        let mut rings = self.rings.lock(rt);
        rings.count = rings.count.wrapping_add(1);
        self.rung.notify_one();
    }

    /// Rings as a line begins or ends to be answered, and says whether one is that waits for others.
    pub(crate) fn ring_for_line<R: Wait>(&self, rt: &R, is_answering: bool) {
        let mut rings = self.rings.lock(rt);
        rings.count = rings.count.wrapping_add(1);
        rings.is_answering = is_answering;
        self.rung.notify_one();
    }

    /// Rings for the end of the session: all who wait go on.
    pub(crate) fn ring_out<R: Wait>(&self, rt: &R) {
        let mut rings = self.rings.lock(rt);
        rings.count = rings.count.wrapping_add(1);
        rings.is_over = true;
        self.rung.notify_all();
    }

    /// How often it has rung; none where the session is over.
    pub(crate) fn heard<R: Wait>(&self, rt: &R) -> Option<u64> {
        let rings = self.rings.lock(rt);
        if rings.is_over {
            None
        } else {
            Some(rings.count)
        }
    }

    /// Waits until it has rung again since it had rung so often, or the session is over. While a line is answered that waits
    /// for others, it waits for a moment alone.
    pub(crate) fn wait<R: Wait + Clock>(&self, rt: &R, heard: u64) {
        let mut rings = self.rings.lock(rt);
        for _ in rt.forever() {
            if rings.is_over || rings.count != heard {
                break;
            }
            if rings.is_answering {
                let _ = self.pause(rt, rings, SHORT_PAUSE);
                break;
            }
            rings = self.pause(rt, rings, PAUSE);
        }
    }

    /// Waits for so many milliseconds, or until it rings.
    fn pause<'b, R: Wait + Clock>(
        &'b self,
        rt: &R,
        rings: MutexGuard<'b, Rings>,
        length: u64,
    ) -> MutexGuard<'b, Rings> {
        self.rung
            .wait_timeout(rt, rings, Duration::from_millis(length))
            .0
    }
}

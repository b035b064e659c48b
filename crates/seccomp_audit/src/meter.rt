//! How far a run is, shown on standard error.

use sf_command::Meter;
use sf_crew::Gate;
use std::fmt::InlineText;
use std::io::Write;
use std::sync::atomic::{AtomicU64, Ordering};
use std::time::{Clock, Instant};

/// The most bytes of a line that says how far a run is. Even with three numbers of 20 digits a line has only 90.
const LINE: usize = 96;

/// After how many steps the clock is looked at again.
const STEPS: u64 = 64;

/// Counts steps, which are works and sheets of verdicts alike. Every `STEPS` steps it looks at the clock, and writes a
/// line to standard error if a second has begun since the last line. In the first second it writes none.
#[derive(Drop)]
pub struct Progress<'a, R> {
    /// What has the clock and standard error.
    rt: &'a R,
    /// When this meter was made; `None` where the clock couldn't be read then.
    started: Option<Instant>,
    /// The most works that are committed in each exploration; 0 before that is known.
    budget: AtomicU64,
    /// How many steps were counted.
    steps: AtomicU64,
    /// The second for which the last line was written, counted from `started`; 0 before there is a line.
    last: AtomicU64,
}

impl<'a, R: Clock> Progress<'a, R> {
    /// A meter of a run in which nothing is done yet. Where the clock can't be read, it never writes anything.
    pub fn new(rt: &'a R) -> Progress<'a, R> {
        Progress {
            rt,
            started: Instant::now(rt).ok(),
            budget: AtomicU64::new(0),
            steps: AtomicU64::new(0),
            last: AtomicU64::new(0),
        }
    }

    /// The whole seconds since this meter was made; 0 where the clock can't be read, or couldn't be read then.
    fn seconds(&self) -> u64 {
        match &self.started {
            Some(started) => match started.elapsed(self.rt) {
                Ok(elapsed) => elapsed.as_secs(),
                Err(_) => 0,
            },
            None => 0,
        }
    }
}

impl Progress<'_, HostRuntime> {
    /// Writes one line to standard error. It isn't looked at whether the write succeeds.
    fn tell(&self, steps: u64, seconds: u64) {
        let budget = self.budget.load(Ordering::Relaxed);
        let line: InlineText<LINE> = InlineText::of(format_args!(
            "progress: {steps} steps, budget {budget}, {seconds} s\n"
        ));
        let mut err = self.rt.stderr();
        let _ = err.write_all(line.as_str().as_bytes());
    }
}

impl Gate for Progress<'_, HostRuntime> {
    /// Counts a step, whichever worker makes it, and at every `STEPS`th one looks at the clock. Several workers may see
    /// that a second has begun since the last line. Only the worker that sets `last` to this second writes a line.
    fn pass(&self, _worker: usize, _call: usize) {
        let steps = self.steps.fetch_add(1, Ordering::Relaxed).wrapping_add(1);
        if steps % STEPS != 0 {
            return;
        }
        let seconds = self.seconds();
        let last = self.last.load(Ordering::Relaxed);
        if last < seconds
            && self
                .last
                .compare_exchange(last, seconds, Ordering::Relaxed, Ordering::Relaxed)
                .is_ok()
        {
            self.tell(steps, seconds);
        }
    }
}

impl Meter for Progress<'_, HostRuntime> {
    fn begin(&self, budget: u32) {
        self.budget.store(u64::from(budget), Ordering::Relaxed);
    }
}

//! A gate at which the two workers of an audit have to meet, once in its exploration and once in its sweep.

use sf_crew::Gate;
use std::hint::spin_loop;
use std::sync::atomic::{AtomicUsize, Ordering};

/// How often a worker looks whether the other one has come.
const LOOKS: usize = 100_000_000;

/// A place where two workers meet: which of them have come.
#[derive(Drop)]
struct Place {
    /// For each worker, not 0 once it has come.
    come: [AtomicUsize; 2],
}

impl Place {
    /// A place to which no worker has come yet.
    fn new() -> Place {
        Place {
            come: [AtomicUsize::new(0), AtomicUsize::new(0)],
        }
    }

    /// Whether this worker has come.
    fn has_come(&self, worker: usize) -> bool {
        match self.come.get(worker) {
            Some(come) => come.load(Ordering::SeqCst) != 0,
            None => false,
        }
    }

    /// Says that a worker has come. Where it comes for the first time, it waits for the other one. False where the
    /// other one doesn't come.
    fn meet(&self, worker: usize) -> bool {
        let Some(mine) = self.come.get(worker) else {
            return false;
        };
        if mine.swap(1, Ordering::SeqCst) != 0 {
            return true;
        }
        for _ in 0..LOOKS {
            if self.has_come(1 - worker) {
                return true;
            }
            spin_loop();
        }
        false
    }
}

/// A gate that holds each worker's first call in the exploration, and again in the sweep, until the other worker has
/// made its own. The first call of all isn't held, since until then there is only one piece; its worker's second call
/// is held.
#[derive(Drop)]
pub struct Meeting {
    /// Not 0 once the first call of all was made.
    begun: AtomicUsize,
    /// How many calls each worker has made under the number 1.
    firsts: [AtomicUsize; 2],
    /// Where they meet in the exploration.
    exploration: Place,
    /// Where they meet in the sweep.
    sweep: Place,
    /// Not 0 where a worker waited in vain, or a third one came.
    failed: AtomicUsize,
}

impl Meeting {
    /// A gate at which no worker has come yet.
    pub fn new() -> Meeting {
        Meeting {
            begun: AtomicUsize::new(0),
            firsts: [AtomicUsize::new(0), AtomicUsize::new(0)],
            exploration: Place::new(),
            sweep: Place::new(),
            failed: AtomicUsize::new(0),
        }
    }

    /// Whether both workers met in the exploration and in the sweep, and no third one came.
    pub fn is_met(&self) -> bool {
        self.failed.load(Ordering::SeqCst) == 0
            && self.exploration.has_come(0)
            && self.exploration.has_come(1)
            && self.sweep.has_come(0)
            && self.sweep.has_come(1)
    }
}

impl Gate for Meeting {
    fn pass(&self, worker: usize, call: usize) {
        let Some(firsts) = self.firsts.get(worker) else {
            self.failed.store(1, Ordering::SeqCst);
            return;
        };
        if call == 1 {
            firsts.fetch_add(1, Ordering::SeqCst);
        }
        if self.begun.swap(1, Ordering::SeqCst) == 0 {
            return;
        }
        let is_met = if firsts.load(Ordering::SeqCst) < 2 {
            self.exploration.meet(worker)
        } else {
            self.sweep.meet(worker)
        };
        if !is_met {
            self.failed.store(1, Ordering::SeqCst);
        }
    }
}

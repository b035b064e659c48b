//! A gate that counts calls and holds some of them.
use sf_crew::Gate;
use std::sync::atomic::{AtomicUsize, Ordering};
use std::thread::yield_now;

/// Which calls a gate holds, and until when.
#[derive(Clone, Copy)]
pub enum Plan {
    /// None.
    Count,
    /// After this many first calls of all, up to so many calls of each of two workers, until the other one has made as
    /// many.
    Pairs(usize, usize),
    /// The call at this place among all, until so many calls have come.
    Held(usize, usize),
    /// The first call of all, for a while. Others are to come only then.
    First,
    /// After this many first calls of all, each call, until each of up to four workers has made one more.
    Gathering(usize),
    /// The same after the first call of all, by which its worker has come, and the next one of that worker. So the
    /// others find their leases only on the bench of that worker.
    OneBench,
}

/// What a gate has seen: all calls, the held ones of the first four workers (in a gathering, whether one came), and two
/// numbers that are to be 0: calls under another number than the next of one of the workers, and calls that were let
/// go, or came, too early.
pub type Seen = (usize, [usize; 4], [usize; 2]);

/// A gate with a plan.
#[derive(Drop)]
pub struct Watch {
    plan: Plan,
    workers: usize,
    begun: AtomicUsize,
    /// The calls of each of the first four workers.
    made: [AtomicUsize; 4],
    held: [AtomicUsize; 4],
    /// The worker that made the first call of all.
    first: AtomicUsize,
    /// Whether the first call of all has gone.
    gone: AtomicUsize,
    strays: AtomicUsize,
    early: AtomicUsize,
}

/// How often a held call looks for what it waits for.
const TURNS: usize = 10_000_000;

/// How often the first call lets others run.
const WHILE: usize = 10_000;

fn value_of(count: &AtomicUsize) -> usize {
    count.load(Ordering::SeqCst)
}

fn is_reached(count: &AtomicUsize, wanted: usize) -> bool {
    for _ in 0..TURNS {
        if value_of(count) >= wanted {
            return true;
        }
        yield_now();
    }
    false
}

fn add_one(count: &AtomicUsize) -> usize {
    count.fetch_add(1, Ordering::SeqCst).wrapping_add(1)
}

fn four_zeros() -> [AtomicUsize; 4] {
    [
        AtomicUsize::new(0),
        AtomicUsize::new(0),
        AtomicUsize::new(0),
        AtomicUsize::new(0),
    ]
}

impl Watch {
    /// A gate for the calls of this many workers.
    pub fn new(plan: Plan, workers: usize) -> Watch {
        Watch {
            plan,
            workers,
            begun: AtomicUsize::new(0),
            made: four_zeros(),
            held: four_zeros(),
            first: AtomicUsize::new(0),
            gone: AtomicUsize::new(0),
            strays: AtomicUsize::new(0),
            early: AtomicUsize::new(0),
        }
    }

    pub fn seen(&self) -> Seen {
        let held = [
            value_of(&self.held[0]),
            value_of(&self.held[1]),
            value_of(&self.held[2]),
            value_of(&self.held[3]),
        ];
        let wrong = [value_of(&self.strays), value_of(&self.early)];
        (value_of(&self.begun), held, wrong)
    }

    fn is_next(&self, worker: usize, call: usize) -> bool {
        let is_next = match self.made.get(worker) {
            Some(made) => add_one(made) == call,
            None => true,
        };
        is_next && worker < self.workers
    }

    /// The first call of all goes after a while.
    fn is_first_gone(&self, place: usize) -> bool {
        if place > 1 {
            return value_of(&self.gone) != 0;
        }
        for _ in 0..WHILE {
            yield_now();
        }
        add_one(&self.gone) == 1
    }

    /// After one call that was let go too early no further one is held.
    fn is_paired(&self, worker: usize, most: usize) -> bool {
        let (Some(mine), Some(other)) = (self.held.get(worker), self.held.get(1 - worker.min(1)))
        else {
            return false;
        };
        value_of(&self.early) != 0 || value_of(mine) == most || is_reached(other, add_one(mine))
    }

    fn mark(&self, worker: usize) {
        if let Some(mine) = self.held.get(worker) {
            mine.store(1, Ordering::SeqCst);
        }
    }

    fn is_gathered(&self, worker: usize) -> bool {
        self.mark(worker);
        for (other, come) in self.held.iter().enumerate() {
            if other < self.workers && value_of(&self.early) == 0 && !is_reached(come, 1) {
                return false;
            }
        }
        true
    }

    /// Whether the call is the first of all, or the next one of the same worker.
    fn is_of_first(&self, worker: usize, call: usize, place: usize) -> bool {
        if place == 1 {
            self.first.store(worker, Ordering::SeqCst);
            self.mark(worker);
        }
        call <= 2 && value_of(&self.first) == worker
    }

    /// Holds the call as the plan says. False: it was let go, or came, too early.
    fn is_held(&self, worker: usize, call: usize, place: usize) -> bool {
        match self.plan {
            Plan::Count => true,
            Plan::Pairs(free, most) => place <= free || self.is_paired(worker, most),
            Plan::Held(held, until) => place != held || is_reached(&self.begun, until),
            Plan::First => self.is_first_gone(place),
            Plan::Gathering(free) => place <= free || self.is_gathered(worker),
            Plan::OneBench => self.is_of_first(worker, call, place) || self.is_gathered(worker),
        }
    }
}

impl Gate for Watch {
    fn pass(&self, worker: usize, call: usize) {
        let place = add_one(&self.begun);
        if !self.is_next(worker, call) {
            add_one(&self.strays);
        }
        if !self.is_held(worker, call, place) {
            add_one(&self.early);
        }
    }
}

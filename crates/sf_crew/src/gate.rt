//! Gates, which see each call of each worker.

/// Sees each call of each worker, outside of every lock. A test counts calls by a gate, or holds a worker back.
pub trait Gate: Sync {
    /// A worker calls this each time it has made a work or a sheet, before it hands it in. `worker` is the worker's
    /// number, from 0, and `call` the number of its call, from 1.
    fn pass(&self, worker: usize, call: usize);
}

/// Lets all calls pass.
#[derive(Clone, Copy, Debug)]
pub struct Open;

impl Gate for Open {
    fn pass(&self, _worker: usize, _call: usize) {}
}

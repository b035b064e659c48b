//! The two kinds of handle of a bench.
ghost use Rattle.std.specs.Prelude.{◌≡◌, ◌<◌, length};
ghost use Rattle.std.specs.Coded.{Coded-set};
ghost use Rattle.std.proofs.Props.{props};
ghost use Rattle.crossbeam_deque.specs.Handles.{IsPassOf, stealer_deque, stealer_flavor, worker_flavor, worker_port, worker_view, view};

use crate::benches::history::{HandleView, InOrder};
use crossbeam_deque::{Pass, Stealer, Worker};
use sf_book::Lease;
use std::alloc::Global;

/// The owner of a bench: the handle that puts items, and takes them too.
#[derive(Drop)]
pub struct Owner<T = Lease> {
    pub(crate) worker: Worker<T, Global, HandleView<T>, InOrder>,
    ghost fifo: { worker_flavor worker ≡ 0 },
    ghost port: { worker_port worker ≡ 0 },
    ghost live: { 0 < length (worker_view worker).ends },
}

/// A thief of a bench: a handle for another thread, which only gets items.
#[derive(Drop)]
pub struct Thief<T = Lease> {
    pub(crate) stealer: Stealer<T, Global, HandleView<T>, InOrder>,
    pub(crate) pass: Pass<T, HandleView<T>, Global>,
    ghost fifo: { stealer_flavor stealer ≡ 0 },
    ghost live: { 0 < length (view pass).ends },
    ghost seated: { IsPassOf (stealer_deque stealer)
        pass } by { Prim.hlevel (props, Coded-set T.code) },
}

//! How workers are made.

ghost use Rattle.std.specs.Prelude.{◌≡◌, ◌<◌, ◌≤◌, IfOk, IfErr, length, vec_len};
ghost use Rattle.sf_crew.specs.declared.fault.Fault.TheVariants.{Memory};

use crate::benches::{Thief, bench};
use crate::fault::Fault;
use crate::workers::NewWorker;
use crate::workers::hands::{NewBench, Thieves};
use crate::workers::naming::{NamedLease, Naming};
use std::alloc::Global;

/// This many workers, with a bench for each, and a thief on it for each other one.
pub(crate) fn workers_of<N: Naming>(alloc: Global, count: usize) -> Result<Vec<NewWorker<N>>, Fault>
    requires { (0 < count) × (count ≤ 64) }
    ensures count { IfOk result (λ v. vec_len v ≡ count) }
    ensures err { IfErr result (λ f. f ≡ Memory) }
{
    let mut workers = Vec::new(alloc);
    let mut thieves = Vec::new(alloc);
    for number in 0..count {
        let (own, new_thieves) = bench(alloc, count - 1)?;
        workers.push(NewWorker {
            number,
            own: NewBench::of(own),
            others: Thieves::new(alloc),
        })?;
        thieves.push(new_thieves)?;
    }
    hand_out_all(&mut workers, &mut thieves)?;
    Ok(workers)
}

/// Gives each worker a thief on the bench of each other worker, that of the next worker first. Thieves are taken out of
/// `thieves`, which has a list for each worker's bench.
fn hand_out_all<N: Naming>(
    workers: &mut [NewWorker<N>],
    thieves: &mut [Vec<Thief<NamedLease<N>>>],
) -> Result<(), Fault>
    requires { (length workers.old ≡ length thieves.old) × (length workers.old ≤ 64) }
    ensures err { IfErr result (λ f. f ≡ Memory) }
{
    for step in 1..workers.len() {
        hand_out(workers, thieves, step)?;
    }
    Ok(())
}

/// Gives each worker a thief on the bench that is `step` steps after its own; behind the last bench comes the first.
fn hand_out<N: Naming>(
    workers: &mut [NewWorker<N>],
    thieves: &mut [Vec<Thief<NamedLease<N>>>],
    step: usize,
) -> Result<(), Fault>
    requires { (length workers.old ≡ length thieves.old)
        × (length workers.old ≤ 64) × (step < 64) }
    ensures err { IfErr result (λ f. f ≡ Memory) }
{
    for number in 0..workers.len() {
        let place = (number + step) % thieves.len();
        if let Some(thief) = thieves[place].pop() {
            workers[number].others.add(thief)?;
        }
    }
    Ok(())
}

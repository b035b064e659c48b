//! Small diagrams, and what is read of them. The values of `stdout` are worked by hand, from the meaning of each call.
#![tactic(auto)]

use sf_diagram::{Fault, Node, Operation, Store, choose, least_input, merge, value_of};
use std::alloc::Global;

/// The AND of the variables 2 and 5: its value where only 5 is true, its value where both are, and the variables that
/// are true in the first input where it is 1.
fn conjunction(alloc: Global) -> Result<(u64, u64, Option<Vec<u16>>), Fault> {
    let mut store = Store::new(alloc, 100)?;
    let zero = store.leaf(0)?;
    let first = store.literal(2)?;
    let second = store.literal(5)?;
    let both = choose(&mut store, first, second, zero)?;
    let one = value_of(&store, both, &[5]);
    let two = value_of(&store, both, &[2, 5]);
    let least = least_input(alloc, &store, both)?;
    Ok((one, two, least))
}

/// The newer of two filters answers ERRNO 1 where variable 0 is true, else ALLOW with data; the older one KILL_PROCESS
/// where variable 1 is true, else ERRNO 2. The answers of both, of the inputs where none, only 0, and only 1 is true.
fn answers(alloc: Global) -> Result<(u64, u64, u64), Fault> {
    let mut store = Store::new(alloc, 100)?;
    let allow = store.leaf(0x7fff0007)?;
    let first = store.leaf(0x00050001)?;
    let newer = store.fork(0, allow, first)?;
    let second = store.leaf(0x00050002)?;
    let kill = store.leaf(0x80000000)?;
    let older = store.fork(1, second, kill)?;
    let both = merge(&mut store, Operation::Fold, newer, older)?;
    let (none, zero) = (value_of(&store, both, &[]), value_of(&store, both, &[0]));
    Ok((none, zero, value_of(&store, both, &[1])))
}

/// What a store of one node says of a second leaf, and whether it gives the first again.
fn small(alloc: Global) -> Result<(Option<u16>, bool), Fault> {
    let mut store = Store::new(alloc, 1)?;
    let first = store.leaf(7)?;
    let refused = store.leaf(8).err().map(|e| e.number());
    let again = store.leaf(7)?;
    let is_seven = store.node(again) == Node::Number(7);
    Ok((refused, again == first && is_seven))
}

fn main(rt: HostRuntime) -> Result<(), anyhow::Error> {
    let (one, two, least) = conjunction(rt.alloc())?;
    println!(rt; "{one} {two} {least:?}")?;
    let (none, zero, only_one) = answers(rt.alloc())?;
    println!(rt; "{none:#x} {zero:#x} {only_one:#x}")?;
    let allowed = Operation::Fold.apply(0x7fff0000, 0x7fff0009);
    let looser = Operation::Looser.apply(0x00050001, 0x7ffc0000);
    let tighter = Operation::Tighter.apply(0x00050001, 0x7ffc0000);
    let different = Operation::Different.apply(3, 4);
    let pair = Operation::Pair.apply(2, 3);
    let next = Operation::NextBit.apply(0x8000000000000005, 1);
    println!(rt; "{allowed:#x} {looser} {tighter} {different} {pair} {next}")?;
    let (refused, again) = small(rt.alloc())?;
    println!(rt; "{refused:?} {again}")?;
    Ok(())
}

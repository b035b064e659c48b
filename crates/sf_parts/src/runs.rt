ghost use Rattle.std.specs.Prelude.{◌≡◌, ◌+◌, ◌^◌, ◌<◌, ◌≤◌, [], ◌∷◌, ◌++◌, length, map, reverse, All, IfOk, IfErr, OnOk, MatchOption};
ghost use Rattle.sf_diagram.specs.Stores.{tree_at, IsLawfulStore};
ghost use Rattle.sf_parts.specs.Runs.{mask_in, runs_before, runs_in, with_run};
ghost use Rattle.sf_parts.specs.Stored.{run_seen, runs_seen};

use crate::bits::{has_bit, low_bits, weight};
use crate::fault::Fault;
use crate::word::sides_in;
use sf_diagram::{Id, Store};
use std::alloc::Global;

/// Numbers in a row, behind which the same comes.
#[derive(Clone, Copy)]
pub(crate) struct Run {
    pub(crate) first: u32,
    pub(crate) last: u32,
    pub(crate) behind: Id,
}

/// A word, the mask under which its numbers are listed, and how many runs of it are listed at most.
#[derive(Clone, Copy)]
struct Word {
    place: u16,
    mask: u32,
    most: usize,
}

/// The numbers that differ from the first only in so many lowest bits.
#[derive(Clone, Copy)]
struct Block {
    bits: u32,
    first: u32,
}

/// Adds a run, or says `Spent` where there are as many as are allowed.
fn push_new(runs: &mut Vec<Run>, run: Run, most: usize) -> Result<(), Fault>
    ensures runs { OnOk result (runs.new.items ≡ runs.old.items ++ run ∷ []) }
    ensures spent { IfErr result (λ e. e ≡ Fault.Spent → most ≤ length runs.old.items) }
{
    if runs.len() >= most {
        return Err(Fault::Spent);
    }
    runs.push(run)?;
    Ok(())
}

/// Adds a run to those that are listed from the last to the first, joined to the last of them where it can be.
fn push_run(store: &Store, runs: &mut Vec<Run>, run: Run, most: usize) -> Result<(), Fault>
    requires lawful { IsLawfulStore store.now }
    requires within { run.behind < length store.now.trees }
    requires kept { All (λ r. r.behind < length store.now.trees) runs.old.items }
    ensures kept { OnOk result (All (λ r. r.behind < length store.now.trees) runs.new.items) }
    ensures runs { OnOk result (runs_seen store.now.trees runs.new.items
        ≡ with_run run.first run.last (tree_at store.now.trees run.behind)
        (runs_seen store.now.trees runs.old.items)) }
    ensures spent { IfErr result (λ e. e ≡ Fault.Spent → most ≤ length runs.old.items) }
{
    let next = match runs.pop() {
        None => return push_new(runs, run, most),
        Some(next) => next,
    };
    if next.behind == run.behind {
        runs.push(Run {
            first: run.first,
            last: next.last,
            behind: run.behind,
        })?;
        return Ok(());
    }
    runs.push(next)?;
    push_new(runs, run, most)
}

/// Adds the runs of a block to those that are listed from the last to the first.
fn push_runs(
    store: &Store,
    word: Word,
    block: Block,
    id: Id,
    runs: &mut Vec<Run>,
) -> Result<(), Fault>
    requires lawful { IsLawfulStore store.now }
    requires within { id < length store.now.trees }
    requires bits { block.bits ≤ 32 }
    requires fits { block.first + 2 ^ block.bits ≤ 2 ^ 32 }
    requires kept { All (λ r. r.behind < length store.now.trees) runs.old.items }
    ensures kept { OnOk result (All (λ r. r.behind < length store.now.trees) runs.new.items) }
    ensures runs { OnOk result (runs_seen store.now.trees runs.new.items
        ≡ runs_before word.place word.mask block.bits block.first
        (tree_at store.now.trees id) (runs_seen store.now.trees runs.old.items)) }
    ensures spent { IfErr result (λ e. e ≡ Fault.Spent → word.most
        ≤ length (runs_before word.place
        word.mask block.bits block.first (tree_at store.now.trees id)
        (runs_seen store.now.trees runs.old.items))) }
{
    let first = block.first;
    if block.bits == 0 {
        return push_run(
            store,
            runs,
            Run {
                first,
                last: first,
                behind: id,
            },
            word.most,
        );
    }
    let bits = block.bits - 1;
    let (low, high) = match sides_in(store, word.place, bits, id) {
        None => {
            let last = first + low_bits(word.mask, block.bits);
            return push_run(
                store,
                runs,
                Run {
                    first,
                    last,
                    behind: id,
                },
                word.most,
            );
        }
        Some(sides) => sides,
    };
    if !has_bit(word.mask, bits) {
        return push_runs(store, word, Block { bits, first }, id, runs);
    }
    let middle = first + weight(bits);
    push_runs(
        store,
        word,
        Block {
            bits,
            first: middle,
        },
        high,
        runs,
    )?;
    push_runs(store, word, Block { bits, first }, low, runs)
}

fn turned(mut runs: Vec<Run>) -> Vec<Run>
    ensures { result.items ≡ reverse runs.items }
{
    runs.as_mut_slice().reverse();
    runs
}

fn if_few(runs: Vec<Run>, most: usize) -> Option<Vec<Run>>
    ensures { MatchOption result (most < length runs.items)
        (λ v. (v.items ≡ runs.items) × (length runs.items ≤ most)) }
{
    if runs.len() <= most { Some(runs) } else { None }
}

/// The runs of a word of a node under its mask, from the first to the last; `None` where there are more than a limit.
///
/// The work ends soon after the limit. A block of numbers that is divided leads to several nodes, so some run ends in
/// it; and the blocks of one size do not overlap. So there are at most 32 divided blocks for each run.
pub(crate) fn runs_of(
    alloc: Global,
    store: &Store,
    word: u16,
    mask: u32,
    most: u32,
    id: Id,
) -> Result<Option<Vec<Run>>, Fault>
    requires lawful { IsLawfulStore store.now }
    requires within { id < length store.now.trees }
    requires masked { mask ≡ mask_in word (tree_at store.now.trees id) }
    ensures runs { IfOk result (λ found. MatchOption found
        (most < length (runs_in word (tree_at store.now.trees id)))
        (λ v. (map (run_seen store.now.trees) v.items ≡ runs_in word
        (tree_at store.now.trees id))
        × (length v.items ≤ most) × (All (λ r. r.behind < length store.now.trees) v.items))) }
    ensures memory { IfErr result (λ e. e ≡ Fault.Memory) }
{
    let limit = most as usize;
    let listed = Word {
        place: word,
        mask,
        most: limit + 1,
    };
    let whole = Block { bits: 32, first: 0 };
    let mut runs = Vec::new(alloc);
    match push_runs(store, listed, whole, id, &mut runs) {
        Err(Fault::Spent) => Ok(None),
        Err(Fault::Memory) => Err(Fault::Memory),
        Ok(()) => Ok(if_few(turned(runs), limit)),
    }
}

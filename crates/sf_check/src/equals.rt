//! Chains of tests that compare A with one number after the other. In a long chain, the test for a number is looked up
//! in tables.

ghost use Rattle.std.specs.Prelude.{◌≡◌, ◌≢◌, ◌+◌, ◌-◌, ◌<◌, ◌≤◌, ℕ, length, slice_index, IfOk, IfErr, IfSome, IfNone};
ghost use Rattle.std.specs.List.Sorted.{IsNonDecreasing, IsPartitionPoint};
ghost use Rattle.sf_check.specs.EqualTests.{IsEqualTest, AreSkipped, IsBehindOthers, AreChains, AreTestKeys, AreEqualTests, LeadInside, test_key};
ghost use Rattle.sf_check.specs.Joining.{AreJoined, AreOwn, IsReached};

use crate::fault::Fault;
use crate::insn::Insn;
use std::alloc::{AllocError, Global};

/// Where a chain ends at most this many instructions further on, going through it costs less than a look-up.
const SHORT: usize = 8;

/// The tests of a program whether A equals a number, and the chains that they make. At each place of a chain but the
/// last stands a test, which leads to the next place where A is another number. Each place of the program is in one
/// chain: that of the first test that leads to it when it fails.
#[derive(Debug, Drop)]
pub(crate) struct EqualTests {
    // The tests as numbers (`key_of`), ascending. So the tests of a chain for one number stand together, by their
    // places.
    pub(crate) keys: Vec<u64>,
    // The chain of each place, named by its first place.
    pub(crate) chains: Vec<u16>,
    // How many tests of its chain stand before each place.
    pub(crate) steps: Vec<u16>,
    // The last place of each chain, at the index of the chain's first place. The other entries aren't used.
    pub(crate) lasts: Vec<u16>,
}

/// Tests that are skipped, since each of them fails and leads to the next one.
#[derive(Clone, Copy, Debug, PartialEq, Eq)]
pub struct Skipped {
    pub count: usize,
    /// Where the last of them leads; where there is none, the place that was asked about.
    pub behind: usize,
}

/// A test as one number. Keys are ordered by the chain, then by the number that is asked for, then by the place.
fn key_of(chain: u16, number: u32, place: usize) -> u64
    requires { place < 4096 }
    ensures { result ≡ test_key chain number place }
{
    4096 * (0x1_0000_0000 * chain as u64 + number as u64) + place as u64
}

/// Where the instruction leads when A is `number`, if it is a test for another number, which then fails.
fn next_where_it_fails(insns: &[Insn], place: usize, number: u32) -> Option<usize>
    requires inside { place < length insns.now }
    requires short { length insns.now ≤ 4096 }
    ensures some { IfSome result (λ next. (k : ℕ) × (k ≢ number)
        × IsEqualTest insns.now place k next) }
    ensures none { IfNone result ((k next : ℕ) → IsEqualTest insns.now place k next
        → k ≡ number) }
{
    let Some(test) = insns[place].equal_test() else {
        return None;
    };
    if test.number == number {
        None
    } else {
        Some(place + 1 + test.skips as usize)
    }
}

/// The places from 0 on. As a table of chains, or of their last places, this makes each place a chain of its own.
fn own_places(alloc: Global, size: usize) -> Result<Vec<u16>, AllocError>
    requires { size ≤ 4096 }
    ensures { IfOk result (λ places. AreOwn places.items size) }
{
    let mut places = Vec::with_capacity(alloc, size)?;
    for place in 0..size {
        places.push(place as u16)?;
    }
    Ok(places)
}

/// Puts `next`, where the test at `place` leads when it fails, into the chain of `place`, unless it is in one already.
fn join(
    insns: &[Insn],
    chains: &mut [u16],
    steps: &mut [u16],
    lasts: &mut [u16],
    place: usize,
    next: usize,
)
    requires short { length insns.now ≤ 4096 }
    requires inside { next < length insns.now }
    requires test { (k : ℕ) × IsEqualTest insns.now place k next }
    requires joined { AreJoined insns.now chains.old steps.old lasts.old place }
    ensures { AreJoined insns.now chains.new steps.new lasts.new (place + 1) }
{
    // For the prover: only clauses speak of them.
    let _insns = insns;
    // It is still the first place of its own chain.
    if chains[next] as usize == next {
        let chain = chains[place];
        chains[next] = chain;
        steps[next] = steps[place] + 1;
        lasts[chain as usize] = next as u16;
    }
}

/// Makes the chains: joins the tests one by one, in order of their places.
fn join_all(insns: &[Insn], chains: &mut [u16], steps: &mut [u16], lasts: &mut [u16])
    requires short { length insns.now ≤ 4096 }
    requires inside { LeadInside insns.now }
    requires single { AreJoined insns.now chains.old steps.old lasts.old 0 }
    ensures { AreChains insns.now chains.new steps.new lasts.new }
{
    for (place, insn) in insns.iter().enumerate() {
        if let Some(test) = insn.equal_test() {
            join(
                insns,
                chains,
                steps,
                lasts,
                place,
                place + 1 + test.skips as usize,
            );
        }
    }
}

/// The keys of all tests, ascending.
fn keys_of(alloc: Global, insns: &[Insn], chains: &[u16]) -> Result<Vec<u64>, AllocError>
    requires short { length insns.now ≤ 4096 }
    requires each { length chains.now ≡ length insns.now }
    ensures { IfOk result (λ keys. AreTestKeys insns.now chains.now keys.items) }
{
    let mut keys = Vec::with_capacity(alloc, insns.len())?;
    for (place, insn) in insns.iter().enumerate() {
        if let Some(test) = insn.equal_test() {
            keys.push(key_of(chains[place], test.number, place))?;
        }
    }
    keys.sort_unstable();
    Ok(keys)
}

fn count_below(keys: &[u64], key: u64) -> usize
    requires { IsNonDecreasing keys.now }
    ensures { IsPartitionPoint (λ k. k < key) (λ k. key ≤ k) keys.now result }
{
    keys.partition_point(|k| *k < key)
}

/// In the chain of `place`, from there on, the first place whose test asks for `number`; `last` where none before
/// `last` does. The contract says less: no test from `place` on and before the result asks for `number`.
fn find_test_or_last(
    insns: &[Insn],
    keys: &[u64],
    chains: &[u16],
    place: usize,
    last: usize,
    number: u32,
) -> usize
    requires short { length insns.now ≤ 4096 }
    requires keys { AreTestKeys insns.now chains.now keys.now }
    requires each { length chains.now ≡ length insns.now }
    requires from { place ≤ last }
    requires inside { last < length insns.now }
    requires same { slice_index chains.now last ≡ slice_index chains.now place }
    ensures { IsReached insns.now chains.now place number result }
{
    // For the prover: only clauses speak of them.
    let _insns = insns;
    let chain = chains[place];
    let from = key_of(chain, number, place);
    let found = count_below(keys, from);
    // No test of the chain from `place` on asks for `number`.
    if found >= keys.len() {
        return last;
    }
    let key = keys[found];
    if key < key_of(chain, number, last) {
        // The key is of this chain and this number, as `from` is: they differ only in the place.
        place + (key - from) as usize
    } else {
        last
    }
}

impl EqualTests {
    /// The tables of a program.
    pub(crate) fn of(alloc: Global, insns: &[Insn]) -> Result<EqualTests, Fault>
        requires short { length insns.now ≤ 4096 }
        requires inside { LeadInside insns.now }
        ensures tables { IfOk result (λ t. AreEqualTests insns.now t.keys.items t.chains.items
            t.steps.items t.lasts.items) }
        ensures only { IfErr result (λ e. e ≡ Fault.Memory) }
    {
        let mut chains = own_places(alloc, insns.len())?;
        let mut lasts = own_places(alloc, insns.len())?;
        let mut steps = vec![in alloc; 0; insns.len()]?;
        join_all(insns, &mut chains, &mut steps, &mut lasts);
        let keys = keys_of(alloc, insns, &chains)?;
        Ok(EqualTests {
            keys,
            chains,
            steps,
            lasts,
        })
    }

    /// How many tests of a chain lead from its place `from` to its place `to`.
    fn steps_between(&self, from: usize, to: usize) -> usize
        requires from { from < length self.now.steps.items }
        requires to { to < length self.now.steps.items }
        requires forward { slice_index self.now.steps.items from
            ≤ slice_index self.now.steps.items to }
        ensures { result ≡ slice_index self.now.steps.items to
            - slice_index self.now.steps.items from }
    {
        (self.steps[to] - self.steps[from]) as usize
    }

    /// Skips the tests of the chain from `place` on, up to the first that asks for `number` or the last place. Where
    /// the chain ends within `SHORT` instructions, none is skipped: the caller then looks at each.
    fn skip_in_chain(&self, insns: &[Insn], place: usize, number: u32) -> Skipped
        requires tables { AreEqualTests insns.now self.now.keys.items self.now.chains.items
            self.now.steps.items self.now.lasts.items }
        requires inside { place < length insns.now }
        ensures skipped { AreSkipped insns.now number result.count place result.behind }
        ensures inside { result.behind < length insns.now }
        ensures on { place + result.count ≤ result.behind }
    {
        let last = self.lasts[self.chains[place] as usize] as usize;
        if last - place <= SHORT {
            return Skipped {
                count: 0,
                behind: place,
            };
        }
        let behind = find_test_or_last(insns, &self.keys, &self.chains, place, last, number);
        Skipped {
            count: self.steps_between(place, behind),
            behind,
        }
    }

    /// Skips tests one after the other, from `place` on, that ask for other numbers than `number`. They may be in
    /// several chains. This ends where no such test stands.
    pub(crate) fn skip_others(&self, insns: &[Insn], place: usize, number: u32) -> Skipped
        requires tables { AreEqualTests insns.now self.now.keys.items self.now.chains.items
            self.now.steps.items self.now.lasts.items }
        requires inside { place < length insns.now }
        ensures { IsBehindOthers insns.now place number result.count result.behind }
    {
        let Skipped {
            mut count,
            mut behind,
        } = self.skip_in_chain(insns, place, number);
        while let Some(next) = next_where_it_fails(insns, behind, number) {
            let more = self.skip_in_chain(insns, next, number);
            count += 1 + more.count;
            behind = more.behind;
        }
        Skipped { count, behind }
    }
}

//! Calls of which an answer reports success, though they aren't made: ERRNO with data 0. A `setuid` that is answered so
//! drops nothing, and its caller believes that it did.

ghost use Rattle.std.specs.Prelude.{◌≡◌, ◌⊎◌, ◌↔◌, ◌+◌, ◌<◌, ℕ, length, Contains, IfNone, IfOk, IfSome, IsTrue, MatchBool, OnOk};
ghost use Rattle.sf_check.specs.Stacks.{IsPlain};
ghost use Rattle.sf_stack_warnings.specs.ZeroErrors.{zero_error, IsZeroErrorAt, AreZeroErrors, LeaveNoneOut};
ghost use Rattle.sf_stack_warnings.specs.Adding.{HaveSame, IsAddedOnce, IsOtherwiseAt, AreAddedBefore};

use sf_ask::find_member;
use sf_book::Settled;
use sf_run::{Action, Answer};
use std::alloc::{AllocError, Global};
use std::collections::BTreeSet;

fn is_zero_error(answer: Answer) -> bool
    ensures { IsTrue result ↔ (answer ≡ zero_error) }
{
    answer
        == Answer {
            action: Action::Errno,
            info: 0,
        }
}

fn number_at(alloc: Global, settled: &Settled, place: usize) -> Result<Option<u32>, AllocError>
    requires { place < length settled.now.regions }
    ensures number { IfOk result (λ o. IfSome o (IsZeroErrorAt settled.now place)) }
    ensures plain { IsPlain settled.now.stack
        → IfOk result (λ o. IfNone o (IsOtherwiseAt settled.now place)) }
{
    let region = settled.region(place);
    if !is_zero_error(region.answer()) {
        return Ok(None);
    }
    let Ok(member) = find_member(alloc, region.piece()) else {
        return Err(AllocError);
    };
    match member {
        Some(input) => Ok(Some(input.words[0])),
        None => Ok(None),
    }
}

fn put(seen: &mut BTreeSet<u32>, number: u32) -> Result<bool, AllocError>
    ensures is_new { IfOk result (λ b. MatchBool b (¬ Contains seen.old.keys number)
        (Contains seen.old.keys number)) }
    ensures numbers { OnOk result ((n : ℕ) → Contains seen.new.keys n
        ↔ (Contains seen.old.keys n ⊎ (n ≡ number))) }
{
    let is_new = seen.insert(number)?;
    Ok(is_new)
}

fn push_once(
    numbers: &mut Vec<u32>,
    seen: &mut BTreeSet<u32>,
    number: u32,
) -> Result<(), AllocError>
    requires { HaveSame seen.old.keys numbers.old.items }
    ensures added { OnOk result (IsAddedOnce number numbers.old.items numbers.new.items) }
    ensures same { OnOk result (HaveSame seen.new.keys numbers.new.items) }
{
    if !put(seen, number)? {
        return Ok(());
    }
    numbers.push(number)?;
    Ok(())
}

fn add_number_at(
    alloc: Global,
    settled: &Settled,
    place: usize,
    numbers: &mut Vec<u32>,
    seen: &mut BTreeSet<u32>,
) -> Result<(), AllocError>
    requires place { place < length settled.now.regions }
    requires before { AreAddedBefore settled.now place numbers.old.items seen.old.keys }
    ensures { OnOk result (AreAddedBefore settled.now (place + 1) numbers.new.items seen.new.keys) }
{
    let Some(number) = number_at(alloc, settled, place)? else {
        return Ok(());
    };
    push_once(numbers, seen, number)?;
    Ok(())
}

/// Numbers of calls that the explored stack answers ERRNO with data 0, each once: that of one input of each region with
/// this answer, in the order of the regions. Some region of a stack that isn't plain may have none that is found.
pub fn zero_errors(alloc: Global, settled: &Settled) -> Result<Vec<u32>, AllocError>
    ensures numbers { IfOk result (λ v. AreZeroErrors settled.now
        (length settled.now.regions) v.items) }
    ensures plain { IsPlain settled.now.stack → IfOk result (λ v. LeaveNoneOut settled.now
        (length settled.now.regions) v.items) }
{
    let mut numbers = Vec::new(alloc);
    let mut seen = BTreeSet::new(alloc);
    for place in 0..settled.region_count() {
        add_number_at(alloc, settled, place, &mut numbers, &mut seen)?;
    }
    Ok(numbers)
}

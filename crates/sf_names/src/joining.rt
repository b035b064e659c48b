//! Sets of a further file, joined to those that are there.

ghost use Rattle.std.specs.Prelude.{◌≡◌, ◌⊎◌, ◌<◌, ◌+◌, ◌++◌, Err, IfErr, Ok, OnOk, Some, filter, length, nat_lt, not, position, slice_get, slice_set};
ghost use Rattle.std.specs.List.{list_all, list_any};
ghost use Rattle.sf_names.specs.declared.fault.Fault.TheVariants.{Memory as MemoryFault};
ghost use Rattle.sf_names.specs.Names.{AreByNumber, GivesSet, NamesData, has_set};
ghost use Rattle.sf_names.specs.Joined.{AreSetsJoined, AreSetsUnfit, IsSetJoined, IsSetUnfit, may_stand, is_alike, is_same, is_there, joined_set, may_add, new_calls};

use crate::fault::Fault;
use crate::names::{Call, MOST_CALLS, Names};
use crate::reading::put_by_number;

fn is_same(call: &Call, known: &Call) -> bool
    ensures { result ≡ is_same call.now known.now }
{
    known.number == call.number && known.name.as_str() == call.name.as_str()
}

fn is_alike(call: &Call, known: &Call) -> bool
    ensures { result ≡ is_alike call.now known.now }
{
    known.number == call.number || known.name.as_str() == call.name.as_str()
}

fn is_there(calls: &[Call], call: &Call) -> bool
    ensures { result ≡ is_there calls.now call.now }
{
    calls.iter().any(|known| is_same(call, known))
}

fn has_alike(calls: &[Call], call: &Call) -> bool
    ensures { result ≡ list_any (is_alike call.now) calls.now }
{
    calls.iter().any(|known| is_alike(call, known))
}

fn is_new(calls: &[Call], call: &Call) -> bool
    ensures { result ≡ not (is_there calls.now call.now) }
{
    !is_there(calls, call)
}

/// Whether a call is one of these, or none has its name or its number.
fn may_stand(calls: &[Call], call: &Call) -> bool
    ensures { result ≡ may_stand calls.now call.now }
{
    is_there(calls, call) || !has_alike(calls, call)
}

fn all_fit(calls: &[Call], more: &[Call]) -> bool
    ensures { result ≡ list_all (may_stand calls.now) more.now }
{
    more.iter().all(|call| may_stand(calls, call))
}

/// Whether a set may get the calls of a further one: both have the same number of an architecture, no name gets a
/// second number, and no number a second name.
fn may_add(names: &Names, more: &Names) -> bool
    ensures { result ≡ may_add names.now more.now }
{
    names.arch == more.arch && all_fit(names.calls.as_slice(), more.calls.as_slice())
}

fn keep_new(more: &mut Vec<Call>, calls: &[Call])
    ensures { more.new.items ≡ filter (λ c. not (is_there calls.now c)) more.old.items }
{
    more.retain(|call| is_new(calls, call));
}

fn new_calls(names: &Names, more: Names) -> Vec<Call>
    ensures { result.items ≡ new_calls names.now more }
{
    let mut calls = more.calls;
    keep_new(&mut calls, names.calls.as_slice());
    calls
}

fn are_too_many(calls: &[Call], more: &[Call]) -> bool
    ensures { result ≡ nat_lt 1024 (length calls.now + length more.now) }
{
    calls.len().saturating_add(more.len()) > MOST_CALLS
}

/// Adds calls, and puts all in the order of their numbers.
fn add_calls(calls: &mut Vec<Call>, more: Vec<Call>) -> Result<(), Fault>
    ensures added { OnOk result (AreByNumber (calls.old.items ++ more.items) calls.new.items) }
    ensures memory { IfErr result (λ e. e ≡ MemoryFault) }
{
    let mut more = more;
    calls.append(&mut more)?;
    put_by_number(calls)?;
    Ok(())
}

/// Adds the calls of a further set of the same name. Refusals are tried in the order `Key`, `Count`, and leave the set
/// as it was.
fn join_set(names: &mut Names, more: Names) -> Result<(), Fault>
    ensures joined { OnOk result (GivesSet (Ok names.new) (joined_set names.old more)) }
    ensures refused { IfErr result (λ e. (e ≡ MemoryFault)
        ⊎ ((names.new ≡ names.old) × (joined_set names.old more ≡ Err e))) }
{
    if !may_add(names, &more) {
        return Err(Fault::Key);
    }
    let calls = new_calls(names, more);
    if are_too_many(names.calls.as_slice(), calls.as_slice()) {
        return Err(Fault::Count);
    }
    add_calls(&mut names.calls, calls)
}

fn place_of(sets: &[Names], set: &str) -> Option<usize>
    ensures { result ≡ position (has_set set.now) sets.now }
{
    sets.iter().position(|names| names.set.as_str() == set)
}

fn join_at(sets: &mut [Names], place: usize, more: Names) -> Result<(), Fault>
    requires { place < length sets.old }
    ensures joined { OnOk result ((known : NamesData) × (joined : NamesData)
        × (slice_get sets.old place ≡ Some known) × GivesSet (Ok joined) (joined_set known more)
        × (sets.new ≡ slice_set sets.old place joined)) }
    ensures refused { IfErr result (λ e. (e ≡ MemoryFault) ⊎ ((sets.new ≡ sets.old)
        × ((known : NamesData) × (slice_get sets.old place ≡ Some known)
        × (joined_set known more ≡ Err e)))) }
{
    join_set(&mut sets[place], more)
}

/// Joins one set to those that are there: behind them, or its calls to the one of its name.
fn join_one(all: &mut Vec<Names>, more: Names) -> Result<(), Fault>
    ensures joined { OnOk result (IsSetJoined all.old.items more all.new.items) }
    ensures refused { IfErr result (λ e. (e ≡ MemoryFault)
        ⊎ ((all.new.items ≡ all.old.items) × IsSetUnfit all.old.items more e)) }
{
    match place_of(all.as_slice(), more.set.as_str()) {
        Some(place) => join_at(all.as_mut_slice(), place, more),
        None => Ok(all.push(more)?),
    }
}

/// Joins the sets of a further file to those of the files before it. A set whose name is new comes behind them. The
/// calls of any other one are added to the set of its name, in the order of their numbers; a call that is there already
/// stays there once.
///
/// `Key` where a set has another number of its architecture than that of its name, a name another number, or a number
/// another name: a number may have two names only where one file gives it both. The sets before the one that is refused
/// are joined.
pub fn join_sets(all: &mut Vec<Names>, sets: Vec<Names>) -> Result<(), Fault>
    ensures joined { OnOk result (AreSetsJoined all.old.items sets.items all.new.items) }
    ensures refused { IfErr result (λ e. (e ≡ MemoryFault)
        ⊎ AreSetsUnfit all.old.items sets.items all.new.items e) }
{
    for names in sets {
        join_one(all, names)?;
    }
    Ok(())
}

//! The rows of the inputs of calls without a name.

ghost use Rattle.std.specs.Prelude.{◌≡◌, ◌≤◌, ◌<◌, ◌^◌, ◌%◌, ◌==◌, ◌&&◌, All, IfOk, filter, if◌then◌else◌, length, map, not};
ghost use Rattle.std.specs.Int.{bit_at};
ghost use Rattle.std.specs.List.{list_any};
ghost use Rattle.sf_diagram.specs.Trees.{Bits};
ghost use Rattle.sf_diagram.specs.Stores.{KeepsStore, IsLawfulStore, tree_at};
ghost use Rattle.sf_behaviour.specs.Words.{IsDiagramOf};
ghost use Rattle.sf_parts.specs.Words.{low_number, word_number};
ghost use Rattle.sf_rows.specs.Trees.{is_call_number, is_named_call, unnamed_number};
ghost use Rattle.sf_rows.specs.Rows.{rows_of, hidden_number};
ghost use Rattle.sf_rows.specs.Shown.{AreOthers};

use crate::calls::has_bit;
use crate::fault::Fault;
use crate::subject::{Subject, hidden_number};
use crate::words::{ARCH, NR};
use sf_diagram::{Id, Store, choose};
use sf_names::{Call, Names};
use sf_parts::{Row, rows_of};
use std::alloc::{AllocError, Global};

fn parted(alloc: Global, numbers: &[u32], bit: u32) -> Result<(Vec<u32>, Vec<u32>), AllocError>
    requires { bit < 32 }
    ensures set { IfOk result (λ p. p.0.items
        ≡ filter (λ n. bit_at n bit == 1) numbers.now) }
    ensures unset { IfOk result (λ p. p.1.items
        ≡ filter (λ n. not (bit_at n bit == 1)) numbers.now) }
{
    let mut set = Vec::new(alloc);
    let mut unset = Vec::new(alloc);
    for number in numbers {
        if has_bit(*number, bit) {
            set.push(*number)?;
        } else {
            unset.push(*number)?;
        }
    }
    Ok((set, unset))
}

fn one_of(
    alloc: Global,
    store: &mut Store,
    word: u16,
    bits: u32,
    numbers: &[u32],
) -> Result<Id, sf_diagram::Fault>
    requires word { word < 34 }
    requires bits { bits ≤ 32 }
    ensures values { IfOk result (λ id. IsDiagramOf store.new.trees id (λ b.
        if list_any (λ n. n % 2 ^ bits == low_number word bits b) numbers.now then 1 else 0)) }
    ensures keeps { KeepsStore store.old store.new }
{
    if numbers.is_empty() {
        let none = store.leaf(0)?;
        return Ok(none);
    }
    if bits == 0 {
        let one = store.leaf(1)?;
        return Ok(one);
    }
    let bit = bits - 1;
    let (set, unset) = parted(alloc, numbers, bit)?;
    let higher = one_of(alloc, store, word, bit, &set)?;
    let lower = one_of(alloc, store, word, bit, &unset)?;
    let variable = store.literal(32 * word + (31 - bit as u16))?;
    let id = choose(store, variable, higher, lower)?;
    Ok(id)
}

/// The numbers of calls. For the prover: they have 32 bits.
fn numbers_of(alloc: Global, calls: &[Call]) -> Result<Vec<u32>, AllocError>
    ensures numbers { IfOk result (λ v. v.items ≡ map (λ c. c.number) calls.now) }
    ensures small { IfOk result (λ v. All (λ n. n < 2 ^ 32) v.items) }
{
    let mut numbers = Vec::new(alloc);
    for call in calls {
        numbers.push(call.number())?;
    }
    Ok(numbers)
}

fn calls_of(alloc: Global, store: &mut Store, names: &Names) -> Result<Id, sf_diagram::Fault>
    ensures values { IfOk result (λ id. IsDiagramOf store.new.trees id (λ b.
        if (names.now.arch == word_number 18 b)
        && list_any (is_call_number (word_number 19 b)) names.now.calls then 1 else 0)) }
    ensures keeps { KeepsStore store.old store.new }
{
    let numbers = numbers_of(alloc, names.calls())?;
    let of_arch = one_of(alloc, store, ARCH, 32, &[names.arch()])?;
    let of_calls = one_of(alloc, store, NR, 32, &numbers)?;
    let none = store.leaf(0)?;
    let id = choose(store, of_arch, of_calls, none)?;
    Ok(id)
}

fn named_calls(alloc: Global, store: &mut Store, sets: &[Names]) -> Result<Id, sf_diagram::Fault>
    ensures values { IfOk result (λ id. IsDiagramOf store.new.trees id (λ b.
        if is_named_call sets.now (word_number 18 b) (word_number 19 b) then 1 else 0)) }
    ensures keeps { KeepsStore store.old store.new }
{
    let mut named = store.leaf(0)?;
    for names in sets {
        let of_set = calls_of(alloc, store, names)?;
        let one = store.leaf(1)?;
        named = choose(store, of_set, one, named)?;
    }
    Ok(named)
}

fn without_named(
    alloc: Global,
    store: &mut Store,
    sets: &[Names],
    number: u64,
    id: Id,
) -> Result<Id, sf_diagram::Fault>
    requires { id < length store.old.trees }
    ensures values { IfOk result (λ rest. IsDiagramOf store.new.trees rest
        (unnamed_number sets.now number (tree_at store.old.trees id))) }
    ensures keeps { KeepsStore store.old store.new }
    ensures lawful { IfOk result (λ rest. IsLawfulStore store.new) }
{
    let named = named_calls(alloc, store, sets)?;
    let leaf = store.leaf(number)?;
    let rest = choose(store, named, leaf, id)?;
    Ok(rest)
}

pub(crate) fn all_rows(
    alloc: Global,
    store: &Store,
    subject: Subject,
    id: Id,
) -> Result<Vec<Row>, sf_parts::Fault>
    requires { id < length store.now.trees }
    ensures { IfOk result (λ v. v.items ≡ rows_of subject (tree_at store.now.trees id)) }
{
    // For the prover: the store is lawful.
    let _node = store.node(id);
    let rows = rows_of(alloc, store, ARCH, 16, NR, hidden_number(subject), id)?;
    Ok(rows)
}

pub(crate) fn other_rows(
    alloc: Global,
    store: &mut Store,
    subject: Subject,
    id: Id,
    sets: &[Names],
    wanted: &[&str],
) -> Result<Vec<Row>, Fault>
    requires { id < length store.old.trees }
    ensures rows { IfOk result (λ v. AreOthers (map (λ t. t.now) wanted.now) subject
        (tree_at store.old.trees id) sets.now v.items) }
    ensures keeps { KeepsStore store.old store.new }
{
    if !wanted.is_empty() {
        return Ok(Vec::new(alloc));
    }
    let rest = without_named(alloc, store, sets, hidden_number(subject), id)?;
    let rows = all_rows(alloc, store, subject, rest)?;
    Ok(rows)
}

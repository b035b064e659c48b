//! The sets of calls of a file of names, which is TOML.

ghost use Rattle.std.specs.Prelude.{◌≡◌, ◌⊎◌, Err, IfErr, IfOk, None, OnOk, Some, codes, option_map, string_bytes};
ghost use Rattle.std.specs.BTreeMap.{keys};
ghost use Rattle.std.specs.List.{list_all, list_any};
ghost use Rattle.toml.specs.Data.{Members, get_member};
ghost use Rattle.toml.specs.Parse.{parse_document};
ghost use Rattle.toml.specs.View.{table_view, view};
ghost use Rattle.sf_names.specs.declared.fault.Fault.TheVariants.{Memory as MemoryFault};
ghost use Rattle.sf_names.specs.Names.{AreByNumber, Gives, GivesNames, GivesSet, IsOrdered, arch_at, arch_of_value, arch_where_word, call_of, call_where_word, calls_at, calls_of, calls_of_value, few_calls_of, has_names_keys, is_low_call, is_names_key, known_set, key_count, sets_of_file, list_of_one_set, only_set, set_from, set_of_key, set_of_table, set_of_value, sets_of_table, usual_set, word_in};

use crate::fault::Fault;
use crate::names::{Call, MOST_CALLS, Names, is_call_name};
use std::alloc::{AllocError, Global};
use toml::{Table, Value};

/// The most sets of a file. Five are known.
const MOST_SETS: usize = 64;

fn word_from(number: i64) -> Option<u32>
    ensures { result ≡ word_in number }
{
    u32::try_from(number).ok()
}

fn value_at<'a>(table: &'a Table, key: &str) -> Option<&'a Value>
    ensures { option_map (λ v. view v.now) result ≡ get_member key.now (table_view table.now) }
{
    table.get(key)
}

/// Whether a table may be a single set: it has no other keys than `arch` and `calls`.
fn has_only_names_keys(table: &Table) -> bool
    ensures { result ≡ list_all (λ key. is_names_key (string_bytes key)) (keys table.now) }
{
    table
        .keys()
        .all(|key| key.as_str() == "arch" || key.as_str() == "calls")
}

/// For the prover: the same, said of the members of the table's tree.
fn has_names_keys(table: &Table) -> bool
    ensures { result ≡ has_names_keys (table_view table.now) }
{
    has_only_names_keys(table)
}

fn key_count(table: &Table) -> usize
    ensures { result ≡ key_count (table_view table.now) }
{
    table.len()
}

fn call_from(alloc: Global, name: &str, number: i64) -> Result<Call, Fault>
    ensures { Gives (λ c. c) result (call_where_word name.now (word_in number)) }
{
    let Some(number) = word_from(number) else {
        return Err(Fault::Range);
    };
    let name = String::from_str(alloc, name)?;
    Ok(Call { number, name })
}

/// The call of a key of the table `calls` and its value.
fn call_in(alloc: Global, name: &str, value: &Value) -> Result<Call, Fault>
    ensures { Gives (λ c. c) result (call_of name.now (view value.now)) }
{
    if !is_call_name(name) {
        return Err(Fault::Key);
    }
    match value {
        Value::Integer(number) => call_from(alloc, name, *number),
        _ => Err(Fault::Key),
    }
}

/// The calls of a table, in the order of their names. The refusal is that of the first call that is refused.
fn calls_of(alloc: Global, table: &Table) -> Result<Vec<Call>, Fault>
    ensures { Gives (λ v. v.items) result (calls_of (table_view table.now)) }
{
    let mut calls = Vec::new(alloc);
    for (name, value) in table.iter() {
        let call = call_in(alloc, name.as_str(), value)?;
        calls.push(call)?;
    }
    Ok(calls)
}

fn few_calls_of(alloc: Global, table: &Table) -> Result<Vec<Call>, Fault>
    ensures { Gives (λ v. v.items) result (few_calls_of (table_view table.now)) }
{
    if key_count(table) > MOST_CALLS {
        return Err(Fault::Count);
    }
    calls_of(alloc, table)
}

fn calls_of_value(alloc: Global, value: &Value) -> Result<Vec<Call>, Fault>
    ensures { Gives (λ v. v.items) result (calls_of_value (view value.now)) }
{
    match value {
        Value::Table(calls) => few_calls_of(alloc, calls),
        _ => Err(Fault::Key),
    }
}

fn calls_in(alloc: Global, table: &Table) -> Result<Vec<Call>, Fault>
    ensures { Gives (λ v. v.items) result
        (calls_at (get_member (codes "calls") (table_view table.now))) }
{
    match value_at(table, "calls") {
        Some(value) => calls_of_value(alloc, value),
        None => Err(Fault::Key),
    }
}

fn arch_from(number: i64) -> Result<u32, Fault>
    ensures { Gives (λ n. n) result (arch_where_word (word_in number)) }
{
    let Some(arch) = word_from(number) else {
        return Err(Fault::Range);
    };
    Ok(arch)
}

fn arch_of_value(value: &Value) -> Result<u32, Fault>
    ensures { Gives (λ n. n) result (arch_of_value (view value.now)) }
{
    match value {
        Value::Integer(number) => arch_from(*number),
        _ => Err(Fault::Key),
    }
}

fn arch_in(table: &Table) -> Result<u32, Fault>
    ensures { Gives (λ n. n) result (arch_at (get_member (codes "arch") (table_view table.now))) }
{
    match value_at(table, "arch") {
        Some(value) => arch_of_value(value),
        None => Err(Fault::Key),
    }
}

/// The set that a table without unknown keys describes. Refusals of `arch` come before those of `calls`.
fn set_from(alloc: Global, set: &str, table: &Table) -> Result<Names, Fault>
    ensures { Gives (λ n. n) result (set_from set.now (table_view table.now)) }
{
    let arch = arch_in(table)?;
    let calls = calls_in(alloc, table)?;
    let set = String::from_str(alloc, set)?;
    Ok(Names { set, arch, calls })
}

fn set_of_table(alloc: Global, set: &str, table: &Table) -> Result<Names, Fault>
    ensures { Gives (λ n. n) result (set_of_table set.now (table_view table.now)) }
{
    if !has_names_keys(table) {
        return Err(Fault::Key);
    }
    set_from(alloc, set, table)
}

fn set_of_value(alloc: Global, set: &str, value: &Value) -> Result<Names, Fault>
    ensures { Gives (λ n. n) result (set_of_value set.now (view value.now)) }
{
    match value {
        Value::Table(table) => set_of_table(alloc, set, table),
        _ => Err(Fault::Key),
    }
}

/// The set of a key at the top of a file and its value, with the calls in the order of their names.
fn set_of(alloc: Global, set: &str, value: &Value) -> Result<Names, Fault>
    ensures { Gives (λ n. n) result (set_of_key set.now (view value.now)) }
{
    if !is_call_name(set) {
        return Err(Fault::Key);
    }
    set_of_value(alloc, set, value)
}

/// Whether a call is none of x32, x86-64 with 32-bit pointers: those begin at 2^30.
fn is_low_call(call: &Call) -> bool
    ensures { result ≡ is_low_call call.now }
{
    call.number < 0x4000_0000
}

fn has_low_call(calls: &[Call]) -> bool
    ensures { result ≡ list_any is_low_call calls.now }
{
    calls.iter().any(|call| is_low_call(call))
}

/// The usual name of a set with this architecture and these calls, if it has one. Two sets have 0xC000003E, x86-64:
/// `x86_64` where a call has a number below those of x32, and else `x32`.
fn known_set(arch: u32, calls: &[Call]) -> Option<&'static str>
    ensures { option_map (λ s. s.now) result ≡ known_set arch calls.now }
{
    match arch {
        0xc000003e => Some(if has_low_call(calls) { "x86_64" } else { "x32" }),
        0x40000003 => Some("i386"),
        0xc00000b7 => Some("aarch64"),
        0x40000028 => Some("arm"),
        _ => None,
    }
}

/// The usual name of the set of these calls, or else `0x` and the architecture's number with eight hexadecimal digits,
/// in capitals.
fn usual_set(alloc: Global, arch: u32, calls: &[Call]) -> Result<String, AllocError>
    ensures { IfOk result (λ s. string_bytes s ≡ usual_set arch calls.now) }
{
    match known_set(arch, calls) {
        Some(set) => String::from_str(alloc, set),
        None => format!(in alloc; "0x{arch:08X}"),
    }
}

/// The set of a file that is one set, with its usual name, and with the calls in the order of their names.
fn only_set(alloc: Global, table: &Table) -> Result<Names, Fault>
    ensures { Gives (λ n. n) result (only_set (table_view table.now)) }
{
    // The usual name depends on the calls, so the set is read without a name first.
    let names = set_from(alloc, "", table)?;
    let set = usual_set(alloc, names.arch, names.calls.as_slice())?;
    Ok(Names {
        set,
        arch: names.arch,
        calls: names.calls,
    })
}

/// Puts calls in the order of their numbers, in place; calls with the same number keep their order.
pub(crate) fn put_by_number(calls: &mut Vec<Call>) -> Result<(), AllocError>
    ensures { OnOk result (AreByNumber calls.old.items calls.new.items) }
{
    calls.sort_by_key(|call| call.number)
}

fn put_in_order(names: Names) -> Result<Names, Fault>
    ensures ok { IfOk result (IsOrdered names) }
    ensures err { IfErr result (λ e. e ≡ MemoryFault) }
{
    let mut ordered = names;
    put_by_number(&mut ordered.calls)?;
    Ok(ordered)
}

fn ordered_set(alloc: Global, set: &str, value: &Value) -> Result<Names, Fault>
    ensures { GivesSet result (set_of_key set.now (view value.now)) }
{
    let names = set_of(alloc, set, value)?;
    put_in_order(names)
}

fn ordered_only_set(alloc: Global, table: &Table) -> Result<Names, Fault>
    ensures { GivesSet result (only_set (table_view table.now)) }
{
    let names = only_set(alloc, table)?;
    put_in_order(names)
}

/// The sets of a table that has a set at each key, in the order of the keys. The refusal is that of the first set that
/// is refused.
fn sets_of(alloc: Global, table: &Table) -> Result<Vec<Names>, Fault>
    ensures { GivesNames (λ v. v.items) result (sets_of_table (table_view table.now)) }
{
    let mut sets = Vec::new(alloc);
    for (set, value) in table.iter() {
        let names = ordered_set(alloc, set.as_str(), value)?;
        sets.push(names)?;
    }
    Ok(sets)
}

fn list_of_one_set(alloc: Global, table: &Table) -> Result<Vec<Names>, Fault>
    ensures { GivesNames (λ v. v.items) result
        (list_of_one_set (only_set (table_view table.now))) }
{
    let names = ordered_only_set(alloc, table)?;
    let mut sets = Vec::new(alloc);
    sets.push(names)?;
    Ok(sets)
}

/// The sets of a file's table. `Count` for too many sets comes before a set is made.
fn names_of(alloc: Global, table: &Table) -> Result<Vec<Names>, Fault>
    ensures { GivesNames (λ v. v.items) result (sets_of_file (table_view table.now)) }
{
    if has_names_keys(table) {
        list_of_one_set(alloc, table)
    } else if key_count(table) > MOST_SETS {
        Err(Fault::Count)
    } else {
        sets_of(alloc, table)
    }
}

/// The sets of calls of a file of names, which is TOML. The calls of each set are in the order of their numbers.
///
/// A set is a table with the number of an architecture at the key `arch`, and at the key `calls` a table, with a number
/// for each name. A file with no other keys at its top is one set, with the usual name of its architecture: `i386`,
/// `aarch64` or `arm`; for 0xC000003E `x86_64` where some call's number is below 2^30, and else `x32`; for another
/// architecture `0x` and its number with eight hexadecimal digits, in capitals. In any other file each key at the top
/// names a set; the sets come in the order of their names.
///
/// Refusals come in this order: `Syntax`; `Count` for the sets; then, set after set, `Key` for the set, `Key` and
/// `Range` for its architecture, `Key` and `Count` for its calls; then, call after call in the order of the names,
/// `Key` and `Range`.
pub fn read_names(alloc: Global, text: &str) -> Result<Vec<Names>, Fault>
    ensures read { (tree : Members) → parse_document text.now ≡ Some tree
        → GivesNames (λ v. v.items) result (sets_of_file tree) }
    ensures syntax { result ≡ Err Fault.Syntax → parse_document text.now ≡ None }
    ensures no_syntax { parse_document text.now ≡ None → (result ≡ Err Fault.Syntax)
        ⊎ (result ≡ Err Fault.Memory) }
{
    match toml::table_from_str(alloc, text) {
        Ok(table) => names_of(alloc, &table),
        Err(error) => {
            if error.is_memory() {
                Err(Fault::Memory)
            } else {
                Err(Fault::Syntax)
            }
        }
    }
}

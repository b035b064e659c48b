//! Tests of words.

ghost use Rattle.std.specs.Prelude.{IfOk, if◌then◌else◌};
ghost use Rattle.sf_insn.specs.Words.{passes};
ghost use Rattle.sf_diagram.specs.Trees.{value};
ghost use Rattle.sf_diagram.specs.Stores.{tree_at};
ghost use Rattle.sf_behaviour.specs.Words.{word_value, IsTruth, IsTruthOf, IsWord, Grows};
ghost use Rattle.sf_behaviour.specs.Combining.{tested_bits};

use crate::combining::{Bitwise, combine_bits};
use crate::truths::{differ, pick};
use crate::words::Word;
use sf_diagram::{Fault, Id, Store};
use sf_insn::Test;

/// Whether a test passes by one more bit of two words, where `lower` says whether it passes by the lower bits.
fn test_bits(store: &mut Store, test: Test, a: Id, b: Id, lower: Id) -> Result<Id, Fault>
    requires a { IsTruth store.old.trees a }
    requires b { IsTruth store.old.trees b }
    requires lower { IsTruth store.old.trees lower }
    ensures truth { IfOk result (λ id. IsTruthOf store.new.trees id (λ bits. tested_bits test
        (value (tree_at store.old.trees a) bits) (value (tree_at store.old.trees b) bits)
        (value (tree_at store.old.trees lower) bits))) }
    ensures store { Grows result store.old store.new }
{
    match test {
        Test::Equal => {
            let unequal = differ(store, a, b)?;
            let zero = store.leaf(0)?;
            pick(store, unequal, zero, lower)
        }
        Test::Greater | Test::GreaterOrEqual => {
            let unequal = differ(store, a, b)?;
            pick(store, unequal, a, lower)
        }
        Test::AnyBit => {
            let both = combine_bits(store, Bitwise::And, a, b)?;
            pick(store, both, both, lower)
        }
    }
}

/// Whether a test of the first word against the second passes: 1 or 0.
pub(crate) fn test_words(store: &mut Store, test: Test, a: &Word, b: &Word) -> Result<Id, Fault>
    requires a { IsWord store.old.trees a.now.bits }
    requires b { IsWord store.old.trees b.now.bits }
    ensures truth { IfOk result (λ id. IsTruthOf store.new.trees id (λ bits. if passes test
        (word_value store.old.trees a.now.bits bits) (word_value store.old.trees b.now.bits bits)
        then 1 else 0)) }
    ensures store { Grows result store.old store.new }
{
    let mut passed = store.leaf(if test.passes(0, 0) { 1 } else { 0 })?;
    for i in 0..32 {
        passed = test_bits(store, test, a.bits[i], b.bits[i], passed)?;
    }
    Ok(passed)
}

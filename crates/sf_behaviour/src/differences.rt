//! Differences and sums of words.

ghost use Rattle.std.specs.Prelude.{◌≡◌, ◌+◌, ◌*◌, IfOk};
ghost use Rattle.sf_insn.specs.Words.{apply, negation_of};
ghost use Rattle.sf_insn.specs.declared.ops.BinOp.TheVariants.{Add, Sub};
ghost use Rattle.sf_diagram.specs.Trees.{Bits, value};
ghost use Rattle.sf_diagram.specs.Stores.{tree_at};
ghost use Rattle.sf_behaviour.specs.Words.{word_value, IsTruth, IsWord, IsWordOf, Grows};

use crate::truths::{differ, pick};
use crate::words::{Word, constant_word};
use sf_diagram::{Fault, Id, Store};

/// A bit of a difference: that of `a` less that of `b` less what is borrowed for the lower bits; and whether it borrows
/// from the next bit.
fn difference_bit(store: &mut Store, a: Id, b: Id, borrowed: Id) -> Result<(Id, Id), Fault>
    requires a { IsTruth store.old.trees a }
    requires b { IsTruth store.old.trees b }
    requires borrowed { IsTruth store.old.trees borrowed }
    ensures bit { IfOk result (λ p. IsTruth store.new.trees p.0) }
    ensures borrows { IfOk result (λ p. IsTruth store.new.trees p.1) }
    ensures value { IfOk result (λ p. (bits : Bits) → value (tree_at store.new.trees p.0) bits
        + value (tree_at store.old.trees b) bits + value (tree_at store.old.trees borrowed) bits
        ≡ value (tree_at store.old.trees a) bits + 2 * value (tree_at store.new.trees p.1) bits) }
    ensures store { Grows result store.old store.new }
{
    let half = differ(store, a, b)?;
    let bit = differ(store, half, borrowed)?;
    let borrows = pick(store, half, b, borrowed)?;
    Ok((bit, borrows))
}

/// The first word less the second, modulo 2^32.
pub(crate) fn difference(store: &mut Store, a: &Word, b: &Word) -> Result<Word, Fault>
    requires a { IsWord store.old.trees a.now.bits }
    requires b { IsWord store.old.trees b.now.bits }
    ensures word { IfOk result (λ w. IsWordOf store.new.trees w.bits (λ bits. apply Sub
        (word_value store.old.trees a.now.bits bits)
        (word_value store.old.trees b.now.bits bits))) }
    ensures store { Grows result store.old store.new }
{
    let mut borrowed = store.leaf(0)?;
    let mut bits: [Id; 32] = [0; 32];
    for i in 0..32 {
        let (bit, borrows) = difference_bit(store, a.bits[i], b.bits[i], borrowed)?;
        bits[i] = bit;
        borrowed = borrows;
    }
    Ok(Word { bits })
}

/// Minus a word, modulo 2^32.
pub(crate) fn negation(store: &mut Store, a: &Word) -> Result<Word, Fault>
    requires { IsWord store.old.trees a.now.bits }
    ensures word { IfOk result (λ w. IsWordOf store.new.trees w.bits
        (λ bits. negation_of (word_value store.old.trees a.now.bits bits))) }
    ensures store { Grows result store.old store.new }
{
    let zero = constant_word(store, 0)?;
    Ok(difference(store, &zero, a)?)
}

/// The sum of two words, modulo 2^32: the first less minus the second.
pub(crate) fn sum(store: &mut Store, a: &Word, b: &Word) -> Result<Word, Fault>
    requires a { IsWord store.old.trees a.now.bits }
    requires b { IsWord store.old.trees b.now.bits }
    ensures word { IfOk result (λ w. IsWordOf store.new.trees w.bits (λ bits. apply Add
        (word_value store.old.trees a.now.bits bits)
        (word_value store.old.trees b.now.bits bits))) }
    ensures store { Grows result store.old store.new }
{
    let minus = negation(store, b)?;
    Ok(difference(store, a, &minus)?)
}

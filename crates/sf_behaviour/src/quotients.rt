//! Quotients of words.

ghost use Rattle.std.specs.Prelude.{◌<◌, ◌*◌, ◌^◌, ℕ, IfOk};
ghost use Rattle.sf_insn.specs.Words.{apply};
ghost use Rattle.sf_insn.specs.declared.ops.BinOp.TheVariants.{Div};
ghost use Rattle.sf_diagram.specs.Trees.{Bits, value};
ghost use Rattle.sf_diagram.specs.Stores.{tree_at};
ghost use Rattle.sf_behaviour.specs.Words.{word_value, IsTruth, IsTruthOf, IsWord, IsWordOf, Grows};
ghost use Rattle.sf_behaviour.specs.Combining.{IsDigit};

use crate::combining::{Bitwise, combine};
use crate::differences::difference;
use crate::shifting::{Direction, move_bits};
use crate::testing::test_words;
use crate::words::{Word, constant_word};
use sf_diagram::{Fault, Id, Store};
use sf_insn::Test;

/// Whether `b`, moved to a bit, fits into the rest of the lower bits; and what is left.
fn divide_bit(
    store: &mut Store,
    rest: &Word,
    b: &Word,
    bit: usize,
    zero: Id,
) -> Result<(Id, Word), Fault>
    requires rest { IsWord store.old.trees rest.now.bits }
    requires b { IsWord store.old.trees b.now.bits }
    requires bit { bit < 32 }
    requires zero { IsTruthOf store.old.trees zero (λ bits. 0) }
    ensures bit { IfOk result (λ p. IsTruth store.new.trees p.0) }
    ensures left { IfOk result (λ p. IsWord store.new.trees p.1.bits) }
    ensures digit { IfOk result (λ p. (f : Bits → ℕ) → IsWordOf store.old.trees b.now.bits f
        → (bits : Bits) → word_value store.old.trees rest.now.bits bits < 2 * (f bits * 2 ^ bit)
        → IsDigit (word_value store.old.trees rest.now.bits bits) (f bits * 2 ^ bit)
        (value (tree_at store.new.trees p.0) bits) (word_value store.new.trees p.1.bits bits)) }
    ensures store { Grows result store.old store.new }
{
    let high = move_bits(Direction::Right, rest, bit, zero);
    let moved = move_bits(Direction::Left, b, bit, zero);
    let fits = test_words(store, Test::GreaterOrEqual, &high, b)?;
    let reduced = difference(store, rest, &moved)?;
    let left = combine(store, Bitwise::Choose(fits), &reduced, rest)?;
    Ok((fits, left))
}

/// The quotient of two words, rounded down; 0 where the second is 0.
pub(crate) fn quotient(store: &mut Store, a: &Word, b: &Word) -> Result<Word, Fault>
    requires a { IsWord store.old.trees a.now.bits }
    requires b { IsWord store.old.trees b.now.bits }
    ensures word { IfOk result (λ w. IsWordOf store.new.trees w.bits (λ bits. apply Div
        (word_value store.old.trees a.now.bits bits)
        (word_value store.old.trees b.now.bits bits))) }
    ensures store { Grows result store.old store.new }
{
    let none = constant_word(store, 0)?;
    let mut rest = *a;
    let mut bits = none.bits;
    for i in 0..32 {
        let (bit, left) = divide_bit(store, &rest, b, 31 - i, none.bits[0])?;
        bits[31 - i] = bit;
        rest = left;
    }
    let by_zero = test_words(store, Test::Equal, b, &none)?;
    Ok(combine(store, Bitwise::Choose(by_zero), &none, &Word { bits })?)
}

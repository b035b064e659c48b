//! Operations on words, bit by bit.

ghost use Rattle.std.specs.Prelude.{IfOk};
ghost use Rattle.sf_diagram.specs.Trees.{value};
ghost use Rattle.sf_diagram.specs.Stores.{tree_at};
ghost use Rattle.sf_behaviour.specs.Words.{word_value, IsTruth, IsTruthOf, IsWord, IsWordOf, Grows};
ghost use Rattle.sf_behaviour.specs.Combining.{combined, IsBitwise};

use crate::truths::{differ, pick};
use crate::words::Word;
use sf_diagram::{Fault, Id, Store};

/// An operation on two words that treats each bit by itself.
#[derive(Clone, Copy, Debug, PartialEq, Eq)]
pub(crate) enum Bitwise {
    /// Bitwise and.
    And,
    /// Bitwise or.
    Or,
    /// Bitwise exclusive or.
    Xor,
    /// The first one where a diagram is 1, else the second.
    Choose(Id),
}

/// What an operation makes of two bits.
pub(crate) fn combine_bits(store: &mut Store, operation: Bitwise, a: Id, b: Id) -> Result<Id, Fault>
    requires operation { IsBitwise store.old.trees operation }
    requires a { IsTruth store.old.trees a }
    requires b { IsTruth store.old.trees b }
    ensures truth { IfOk result (λ id. IsTruthOf store.new.trees id
        (λ bits. combined store.old.trees bits
        operation (value (tree_at store.old.trees a) bits)
        (value (tree_at store.old.trees b) bits))) }
    ensures store { Grows result store.old store.new }
{
    match operation {
        Bitwise::And => pick(store, b, a, b),
        Bitwise::Or => pick(store, b, b, a),
        Bitwise::Xor => differ(store, a, b),
        Bitwise::Choose(test) => pick(store, test, a, b),
    }
}

/// What an operation makes of two words.
pub(crate) fn combine(
    store: &mut Store,
    operation: Bitwise,
    a: &Word,
    b: &Word,
) -> Result<Word, Fault>
    requires operation { IsBitwise store.old.trees operation }
    requires a { IsWord store.old.trees a.now.bits }
    requires b { IsWord store.old.trees b.now.bits }
    ensures word { IfOk result (λ w. IsWordOf store.new.trees w.bits
        (λ bits. combined store.old.trees bits
        operation (word_value store.old.trees a.now.bits bits)
        (word_value store.old.trees b.now.bits bits))) }
    ensures store { Grows result store.old store.new }
{
    let mut bits: [Id; 32] = [0; 32];
    for i in 0..32 {
        let bit = combine_bits(store, operation, a.bits[i], b.bits[i])?;
        bits[i] = bit;
    }
    Ok(Word { bits })
}

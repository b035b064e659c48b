//! Words as diagrams of their bits.

ghost use Rattle.std.specs.Prelude.{◌+◌, ◌-◌, ◌*◌, ◌<◌, ◌≤◌, slice_index, IfOk};
ghost use Rattle.sf_behaviour.specs.InputBits.{number_by, input_by};
ghost use Rattle.sf_behaviour.specs.Words.{word_value, IsDiagramOf, IsWord, IsWordOf, Grows};

use crate::inputs::first_variable;
use sf_diagram::{Fault, Id, Operation, Store, merge};

/// A word that depends on the input, by a diagram for each of its bits, the lowest bit first. Each diagram is 0 or 1 on
/// each input.
#[derive(Clone, Copy, Debug, PartialEq, Eq)]
pub(crate) struct Word {
    /// The diagram of each bit.
    pub bits: [Id; 32],
}

/// The word that is the same number on each input.
pub(crate) fn constant_word(store: &mut Store, number: u32) -> Result<Word, Fault>
    ensures word { IfOk result (λ w. IsWordOf store.new.trees w.bits (λ bits. number)) }
    ensures store { Grows result store.old store.new }
{
    let mut bits: [Id; 32] = [0; 32];
    for i in 0..32 {
        let bit = store.leaf(((number >> i) % 2) as u64)?;
        bits[i] = bit;
    }
    Ok(Word { bits })
}

/// The word whose bits are these variables: 32 at equal distances, of which the first is the highest bit.
pub(crate) fn variable_word(store: &mut Store, first: u16, distance: u16) -> Result<Word, Fault>
    requires first { first < 16384 }
    requires distance { distance ≤ 2 }
    ensures word { IfOk result
        (λ w. IsWordOf store.new.trees w.bits (λ bits. number_by first distance 32 bits)) }
    ensures store { Grows result store.old store.new }
{
    let mut bits: [Id; 32] = [0; 32];
    for i in 0..32 {
        let behind = distance * (31 - i as u16);
        let bit = store.literal(first + behind)?;
        bits[i] = bit;
    }
    Ok(Word { bits })
}

/// A word of the input, by its number: `Input` of `sf_insn` says which is which.
pub(crate) fn input_word(store: &mut Store, word: usize) -> Result<Word, Fault>
    requires { word < 16 }
    ensures word { IfOk result (λ w. IsWordOf store.new.trees w.bits
        (λ bits. slice_index (input_by bits).words word)) }
    ensures store { Grows result store.old store.new }
{
    Ok(variable_word(store, first_variable(word), 1)?)
}

/// One diagram with the numbers of a word at its leaves.
pub(crate) fn number_diagram(store: &mut Store, word: &Word) -> Result<Id, Fault>
    requires { IsWord store.old.trees word.now.bits }
    ensures number { IfOk result
        (λ id. IsDiagramOf store.new.trees id (word_value store.old.trees word.now.bits)) }
    ensures store { Grows result store.old store.new }
{
    let mut number = store.leaf(0)?;
    for i in 0..32 {
        number = merge(store, Operation::NextBit, number, word.bits[31 - i])?;
    }
    Ok(number)
}

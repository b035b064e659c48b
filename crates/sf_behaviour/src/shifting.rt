//! Shifts of words.

ghost use Rattle.std.specs.Prelude.{◌≡◌, ◌<◌, ◌≤◌, ℕ, List, IfOk};
ghost use Rattle.sf_insn.specs.Words.{apply};
ghost use Rattle.sf_diagram.specs.Trees.{Tree, Bits};
ghost use Rattle.sf_behaviour.specs.Words.{word_value, IsTruthOf, IsWord, IsWordOf, Grows};
ghost use Rattle.sf_behaviour.specs.Combining.{moved, shift_of, shifted_by};

use crate::combining::{Bitwise, combine};
use crate::words::Word;
use sf_diagram::{Fault, Id, Store};

/// Where a shift moves bits.
#[derive(Clone, Copy, Debug, PartialEq, Eq)]
pub(crate) enum Direction {
    /// To higher bits.
    Left,
    /// To lower bits.
    Right,
}

/// The diagram that is moved to a bit, or `zero` where none is.
fn moved_bit(direction: Direction, word: &Word, by: usize, zero: Id, bit: usize) -> Id
    requires bit { bit < 32 }
    requires by { by ≤ 32 }
    ensures { result ≡ moved direction word.now.bits by zero bit }
{
    match direction {
        Direction::Left => { if bit < by { zero } else { word.bits[bit - by] } }
        Direction::Right => {
            if by + bit < 32 {
                word.bits[by + bit]
            } else {
                zero
            }
        }
    }
}

/// The word with its bits moved, and `zero`, the diagram of 0, where no bit is moved to.
pub(crate) fn move_bits(direction: Direction, word: &Word, by: usize, zero: Id) -> Word
    requires { by ≤ 32 }
    ensures { (ts : List Tree) (f : Bits → ℕ) → IsWordOf ts word.now.bits f
        → IsTruthOf ts zero (λ bits. 0)
        → IsWordOf ts result.bits (λ bits. shifted_by direction (f bits) by) }
{
    let mut bits = word.bits;
    for i in 0..32 {
        bits[i] = moved_bit(direction, word, by, zero, i);
    }
    Word { bits }
}

/// The first word, shifted by the second modulo 32.
pub(crate) fn shift(
    store: &mut Store,
    direction: Direction,
    word: &Word,
    by: &Word,
) -> Result<Word, Fault>
    requires word { IsWord store.old.trees word.now.bits }
    requires by { IsWord store.old.trees by.now.bits }
    ensures word { IfOk result (λ w. IsWordOf store.new.trees w.bits (λ bits.
        apply (shift_of direction) (word_value store.old.trees word.now.bits bits)
        (word_value store.old.trees by.now.bits bits))) }
    ensures store { Grows result store.old store.new }
{
    let zero = store.leaf(0)?;
    let mut so_far = *word;
    let mut places = 1;
    for i in 0..5 {
        let moved = move_bits(direction, &so_far, places, zero);
        so_far = combine(store, Bitwise::Choose(by.bits[i]), &moved, &so_far)?;
        places = 2 * places;
    }
    Ok(so_far)
}

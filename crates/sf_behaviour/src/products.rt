//! Products of words.

ghost use Rattle.std.specs.Prelude.{IfOk};
ghost use Rattle.sf_insn.specs.Words.{apply};
ghost use Rattle.sf_insn.specs.declared.ops.BinOp.TheVariants.{Mul};
ghost use Rattle.sf_behaviour.specs.Words.{word_value, IsWord, IsWordOf, Grows};

use crate::combining::{Bitwise, combine};
use crate::differences::sum;
use crate::shifting::{Direction, move_bits};
use crate::words::{Word, constant_word};
use sf_diagram::{Fault, Store};

/// The product of two words, modulo 2^32: the sum of the first word, moved to each bit of the second that is 1.
pub(crate) fn product(store: &mut Store, a: &Word, b: &Word) -> Result<Word, Fault>
    requires a { IsWord store.old.trees a.now.bits }
    requires b { IsWord store.old.trees b.now.bits }
    ensures word { IfOk result (λ w. IsWordOf store.new.trees w.bits (λ bits. apply Mul
        (word_value store.old.trees a.now.bits bits)
        (word_value store.old.trees b.now.bits bits))) }
    ensures store { Grows result store.old store.new }
{
    let none = constant_word(store, 0)?;
    let mut total = none;
    for i in 0..32 {
        let moved = move_bits(Direction::Left, a, i, none.bits[0]);
        let row = combine(store, Bitwise::Choose(b.bits[i]), &moved, &none)?;
        total = sum(store, &total, &row)?;
    }
    Ok(total)
}

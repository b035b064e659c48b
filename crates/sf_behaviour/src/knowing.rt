//! The words that registers are known to have at a place.

ghost use Rattle.std.specs.Prelude.{◌≡◌, Some, length};
ghost use Rattle.sf_behaviour.specs.Registers.{IsRegister};
ghost use Rattle.sf_behaviour.specs.Knowledge.{known_word, IsLess};
ghost use Rattle.sf_behaviour.specs.declared.words.Word.{Word as AWord};

use crate::registers::Register;
use crate::words::Word;

/// For each register the word that it has on all ways to a place, if one is known. Such words depend on the input
/// alone.
pub(crate) type Known = [Option<Word>; 18];

/// The word that a register is known to have.
pub(crate) fn word_of(known: &Known, register: Register) -> Option<Word>
    requires { IsRegister register }
    ensures { result ≡ known_word known.now register }
{
    known[register]
}

/// The word of both, if it is the same.
fn common(a: Option<Word>, b: Option<Word>) -> Option<Word>
    ensures first { (w : AWord) → result ≡ Some w → a ≡ Some w }
    ensures second { (w : AWord) → result ≡ Some w → b ≡ Some w }
{
    if a == b { a } else { None }
}

/// What both know.
pub(crate) fn meet(a: &Known, b: &Known) -> Known
    ensures first { IsLess result a.now }
    ensures second { IsLess result b.now }
    ensures count { length result ≡ 18 }
{
    let mut both: Known = [None; 18];
    for i in 0..18 {
        let word = common(word_of(a, i), word_of(b, i));
        both[i] = word;
    }
    both
}

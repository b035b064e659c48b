//! The registers of a run, and their bits as variables.

ghost use Rattle.std.specs.Prelude.{◌≡◌, ◌<◌, IfOk};
ghost use Rattle.sf_behaviour.specs.Registers.{register_by, register_first, IsRegister};
ghost use Rattle.sf_behaviour.specs.Words.{IsWordOf, Grows};

use crate::words::{Word, variable_word};
use sf_diagram::{Fault, Store};

/// A word that a run may change, by its number: A, X, and then M[0] to M[15].
pub(crate) type Register = usize;

/// The accumulator.
pub(crate) const A: Register = 0;

/// The index register.
pub(crate) const X: Register = 1;

/// The first scratch word; the others follow it.
pub(crate) const SCRATCH: Register = 2;

/// The variable of the register's highest bit. Two registers have 64 variables together, in turns.
pub(crate) fn first_variable_of(register: Register) -> u16
    requires { IsRegister register }
    ensures is { result ≡ register_first register }
    ensures small { result < 16384 }
{
    64 * (register as u16 / 2) + register as u16 % 2
}

/// The word that a register has, whatever it is.
pub(crate) fn register_word(store: &mut Store, register: Register) -> Result<Word, Fault>
    requires { IsRegister register }
    ensures word { IfOk result
        (λ w. IsWordOf store.new.trees w.bits (λ bits. register_by register bits)) }
    ensures store { Grows result store.old store.new }
{
    Ok(variable_word(store, first_variable_of(register), 2)?)
}

//! Diagrams in which a word stands in the place of a register.

ghost use Rattle.std.specs.Prelude.{◌≡◌, ◌≤◌, ◌<◌, ℕ, length, OnOk, IfOk, IfSome, if◌then◌else◌};
ghost use Rattle.sf_diagram.specs.Trees.{Bits};
ghost use Rattle.sf_behaviour.specs.Words.{IsTruthOf, IsWord, IsWordOf, Grows};
ghost use Rattle.sf_behaviour.specs.Registers.{register_bit, with_register, IsRegister};
ghost use Rattle.sf_behaviour.specs.Replacing.{IsReplaced, AreReplaced};

use crate::registers::{Register, first_variable_of};
use crate::words::Word;
use sf_diagram::{Fault, Id, Node, Store, choose};
use std::alloc::Global;
use std::collections::BTreeMap;

/// Which bit of the register a variable is, if it is one.
fn bit_of(register: Register, variable: u16) -> Option<u8>
    ensures bit { result ≡ register_bit register variable }
    ensures few { IfSome result (λ bit. bit < 32) }
{
    let variable = variable as usize;
    if variable / 64 == register / 2 && variable % 2 == register % 2 {
        Some((31 - variable % 64 / 2) as u8)
    } else {
        None
    }
}

/// A variable that is greater than each of the register's, as all greater ones are.
fn first_past(register: Register) -> u16
    requires { IsRegister register }
    ensures { (w : ℕ) → result ≤ w → register_bit register w ≡ None }
{
    first_variable_of(register) + 64
}

/// The diagram that is 1 where a variable is true once the word stands in the place of the register, else 0.
fn bit_for(store: &mut Store, register: Register, by: &Word, variable: u16) -> Result<Id, Fault>
    requires { IsWord store.old.trees by.now.bits }
    ensures within { IfOk result (λ id. id < length store.new.trees) }
    ensures truth { IfOk result (λ id. (f : Bits → ℕ)
        → IsWordOf store.old.trees by.now.bits f
        → IsTruthOf store.new.trees id
        (λ bits. if with_register register (f bits) bits variable then 1 else 0)) }
    ensures store { Grows result store.old store.new }
{
    match bit_of(register, variable) {
        Some(bit) => Ok(by.bits[bit as usize]),
        None => Ok(store.literal(variable)?),
    }
}

/// The diagram in which the word stands in the place of the register. What is made for a node is put into `made`, and
/// isn't made again.
fn replace_in(
    store: &mut Store,
    made: &mut BTreeMap<Id, Id>,
    register: Register,
    by: &Word,
    id: Id,
) -> Result<Id, Fault>
    requires within { id < length store.old.trees }
    requires by { IsWord store.old.trees by.now.bits }
    requires made { (f : Bits → ℕ) → IsWordOf store.old.trees by.now.bits f
        → AreReplaced register store.old.trees f made.old }
    requires register { IsRegister register }
    ensures within { IfOk result (λ new. new < length store.new.trees) }
    ensures replaced { IfOk result (λ new. (f : Bits → ℕ)
        → IsWordOf store.old.trees by.now.bits f
        → IsReplaced register store.new.trees f id new) }
    ensures made { OnOk result ((f : Bits → ℕ) → IsWordOf store.old.trees by.now.bits f
        → AreReplaced register store.new.trees f made.new) }
    ensures store { Grows result store.old store.new }
{
    let (variable, lower, higher) = match store.node(id) {
        Node::Number(_) => return Ok(id),
        Node::Choice(variable, lower, higher) => (variable, lower, higher),
    };
    let past = first_past(register);
    if variable >= past {
        return Ok(id);
    }
    if let Some(known) = made.get(&id) {
        return Ok(*known);
    }
    let new_lower = replace_in(store, made, register, by, lower)?;
    let new_higher = replace_in(store, made, register, by, higher)?;
    let bit = bit_for(store, register, by, variable)?;
    let new = choose(store, bit, new_higher, new_lower)?;
    made.insert(id, new)?;
    Ok(new)
}

/// The diagram in which the word stands in the place of the register.
pub(crate) fn replace(
    alloc: Global,
    store: &mut Store,
    register: Register,
    by: &Word,
    id: Id,
) -> Result<Id, Fault>
    requires within { id < length store.old.trees }
    requires by { IsWord store.old.trees by.now.bits }
    requires register { IsRegister register }
    ensures within { IfOk result (λ new. new < length store.new.trees) }
    ensures replaced { IfOk result (λ new. (f : Bits → ℕ)
        → IsWordOf store.old.trees by.now.bits f
        → IsReplaced register store.new.trees f id new) }
    ensures store { Grows result store.old store.new }
{
    let mut made = BTreeMap::new(alloc);
    replace_in(store, &mut made, register, by, id)
}

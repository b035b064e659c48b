//! What instructions do, by the registers that they set.

ghost use Rattle.std.specs.Prelude.{◌≡◌, IfOk};
ghost use Rattle.sf_insn.specs.Words.{apply};
ghost use Rattle.sf_check.specs.Insns.{IsInRange};
ghost use Rattle.sf_behaviour.specs.Registers.{IsRegister};
ghost use Rattle.sf_behaviour.specs.Knowledge.{held_in, IsKnowledge};
ghost use Rattle.sf_behaviour.specs.Effects.{divides, operand_in, source_in, IsEffectOf, IsSource};
ghost use Rattle.sf_behaviour.specs.Words.{word_value, IsWord, IsWordOf, Grows};

use crate::combining::{Bitwise, combine};
use crate::differences::{difference, negation, sum};
use crate::knowing::{Known, word_of};
use crate::products::product;
use crate::quotients::quotient;
use crate::registers::{A, Register, SCRATCH, X, register_word};
use crate::shifting::{Direction, shift};
use crate::words::{Word, constant_word, input_word};
use sf_check::{Insn, Operand};
use sf_diagram::{Fault, Store};
use sf_insn::{BinOp, Test};

/// Where a register's new number, or a returned one, comes from.
#[derive(Clone, Copy)]
pub(crate) enum Source {
    /// A constant.
    Constant(u32),
    /// A word of the input, 0 to 15.
    Word(u8),
    /// The number that a register has.
    Held(Register),
    /// Minus A.
    Negation,
    /// What the operation makes of A and the operand.
    Result(BinOp, Operand),
}

/// What an instruction does.
#[derive(Clone, Copy)]
pub(crate) enum Effect {
    /// It sets a register, or returns 0 where the source divides by X and X is 0.
    Sets(Register, Source),
    /// It skips this many instructions.
    Skips(u32),
    /// It tests A against the operand, and skips the first number of instructions where that is true, else the second.
    Tests(Test, Operand, u8, u8),
    /// It returns a number.
    Returns(Source),
}

/// What an instruction does.
pub(crate) fn effect_of(insn: &Insn) -> Effect
    requires { IsInRange insn.now }
    ensures { IsEffectOf insn.now result }
{
    match *insn {
        Insn::LoadWord(i) => Effect::Sets(A, Source::Word(i)),
        Insn::LoadConstant(k) => Effect::Sets(A, Source::Constant(k)),
        Insn::LoadScratch(k) => Effect::Sets(A, Source::Held(SCRATCH + k as usize)),
        Insn::LoadLength => Effect::Sets(A, Source::Constant(64)),
        Insn::LoadXConstant(k) => Effect::Sets(X, Source::Constant(k)),
        Insn::LoadXScratch(k) => Effect::Sets(X, Source::Held(SCRATCH + k as usize)),
        Insn::LoadXLength => Effect::Sets(X, Source::Constant(64)),
        Insn::StoreA(k) => Effect::Sets(SCRATCH + k as usize, Source::Held(A)),
        Insn::StoreX(k) => Effect::Sets(SCRATCH + k as usize, Source::Held(X)),
        Insn::Alu(op, other) => Effect::Sets(A, Source::Result(op, other)),
        Insn::Negate => Effect::Sets(A, Source::Negation),
        Insn::Jump(k) => Effect::Skips(k),
        Insn::Branch(test, other, on_true, on_false) => {
            Effect::Tests(test, other, on_true, on_false)
        }
        Insn::ReturnConstant(k) => Effect::Returns(Source::Constant(k)),
        Insn::ReturnA => Effect::Returns(Source::Held(A)),
        Insn::Tax => Effect::Sets(X, Source::Held(A)),
        Insn::Txa => Effect::Sets(A, Source::Held(X)),
    }
}

/// What an operation makes of two words.
fn operate(store: &mut Store, op: BinOp, a: &Word, b: &Word) -> Result<Word, Fault>
    requires a { IsWord store.old.trees a.now.bits }
    requires b { IsWord store.old.trees b.now.bits }
    ensures word { IfOk result (λ w. IsWordOf store.new.trees w.bits (λ bits. apply op
        (word_value store.old.trees a.now.bits bits)
        (word_value store.old.trees b.now.bits bits))) }
    ensures store { Grows result store.old store.new }
{
    match op {
        BinOp::Add => sum(store, a, b),
        BinOp::Sub => difference(store, a, b),
        BinOp::Mul => product(store, a, b),
        BinOp::Div => quotient(store, a, b),
        BinOp::Or => combine(store, Bitwise::Or, a, b),
        BinOp::And => combine(store, Bitwise::And, a, b),
        BinOp::Lsh => shift(store, Direction::Left, a, b),
        BinOp::Rsh => shift(store, Direction::Right, a, b),
        BinOp::Xor => combine(store, Bitwise::Xor, a, b),
    }
}

/// The word of a register: the one that it is known to have, or else its own.
pub(crate) fn held_word(store: &mut Store, known: &Known, register: Register) -> Result<Word, Fault>
    requires register { IsRegister register }
    requires known { IsKnowledge store.old.trees known.now }
    ensures word { IfOk result (λ w. IsWordOf store.new.trees w.bits
        (λ bits. held_in store.old.trees known.now bits register)) }
    ensures store { Grows result store.old store.new }
{
    match word_of(known, register) {
        Some(word) => Ok(word),
        None => Ok(register_word(store, register)?),
    }
}

/// The word of an operand.
fn operand_word(store: &mut Store, known: &Known, other: Operand) -> Result<Word, Fault>
    requires { IsKnowledge store.old.trees known.now }
    ensures word { IfOk result (λ w. IsWordOf store.new.trees w.bits
        (λ bits. operand_in store.old.trees known.now bits other)) }
    ensures store { Grows result store.old store.new }
{
    match other {
        Operand::Constant(k) => constant_word(store, k),
        Operand::X => held_word(store, known, X),
    }
}

/// The words of a register and of an operand.
pub(crate) fn held_words(
    store: &mut Store,
    known: &Known,
    register: Register,
    other: Operand,
) -> Result<(Word, Word), Fault>
    requires register { IsRegister register }
    requires known { IsKnowledge store.old.trees known.now }
    ensures first { IfOk result (λ p. IsWordOf store.new.trees p.0.bits
        (λ bits. held_in store.old.trees known.now bits register)) }
    ensures second { IfOk result (λ p. IsWordOf store.new.trees p.1.bits
        (λ bits. operand_in store.old.trees known.now bits other)) }
    ensures store { Grows result store.old store.new }
{
    let a = held_word(store, known, register)?;
    let b = operand_word(store, known, other)?;
    Ok((a, b))
}

/// The word of a source.
pub(crate) fn source_word(store: &mut Store, known: &Known, source: Source) -> Result<Word, Fault>
    requires source { IsSource source }
    requires known { IsKnowledge store.old.trees known.now }
    ensures word { IfOk result (λ w. IsWordOf store.new.trees w.bits
        (λ bits. source_in store.old.trees known.now bits source)) }
    ensures store { Grows result store.old store.new }
{
    match source {
        Source::Constant(k) => constant_word(store, k),
        Source::Word(i) => input_word(store, i as usize),
        Source::Held(register) => held_word(store, known, register),
        Source::Negation => {
            let held = held_word(store, known, A)?;
            Ok(negation(store, &held)?)
        }
        Source::Result(op, other) => {
            let (a, b) = held_words(store, known, A, other)?;
            Ok(operate(store, op, &a, &b)?)
        }
    }
}

/// Whether a source is made by an operation that divides by X.
pub(crate) fn is_quotient(source: Source) -> bool
    ensures { result ≡ divides source }
{
    match source {
        Source::Result(BinOp::Div, Operand::X) => true,
        _ => false,
    }
}

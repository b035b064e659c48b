//! What runs return that go on from a place, as diagrams.

ghost use Rattle.std.specs.Prelude.{◌≡◌, ◌==◌, ◌&&◌, ◌<◌, ◌^◌, ℕ, List, None, Some, length, slice_set, if◌then◌else◌, IfOk, OnOk};
ghost use Rattle.sf_insn.specs.Words.{passes};
ghost use Rattle.sf_check.specs.declared.insn.Insn.{Insn as AnInsn};
ghost use Rattle.sf_diagram.specs.Trees.{Bits, value};
ghost use Rattle.sf_diagram.specs.Stores.{tree_at};
ghost use Rattle.sf_behaviour.specs.Registers.{X as TheX, IsRegister};
ghost use Rattle.sf_behaviour.specs.Knowledge.{known_word, held_in, IsKnowledge, IsLess};
ghost use Rattle.sf_behaviour.specs.Effects.{divides, operand_in, source_in, IsSource};
ghost use Rattle.sf_behaviour.specs.Telling.{insns_of, IsNext, IsPlace, Tells};
ghost use Rattle.sf_behaviour.specs.Words.{IsDiagramOf, IsTruthOf, Grows};

use crate::effects::{Effect, Source, held_words, is_quotient, source_word};
use crate::knowing::{Known, word_of};
use crate::registers::{A, Register, X};
use crate::replacing::replace;
use crate::steps::{Step, id_at, step_at};
use crate::testing::test_words;
use crate::words::number_diagram;
use sf_check::Operand;
use sf_diagram::{Fault, Id, Store, choose};
use sf_insn::Test;
use std::alloc::Global;

/// A diagram that tells what runs return where `known` is known, made one where as much as `more` knows is known of a
/// register.
fn learn_register(
    alloc: Global,
    store: &mut Store,
    known: &mut Known,
    more: &Known,
    register: Register,
    id: Id,
) -> Result<Id, Fault>
    requires register { IsRegister register }
    requires knowledge { IsKnowledge store.old.trees more.now }
    requires less { IsLess known.old more.now }
    requires count { length known.old ≡ 18 }
    requires within { id < length store.old.trees }
    ensures known { OnOk result (known.new
        ≡ slice_set known.old register (known_word more.now register)) }
    ensures within { IfOk result (λ new. new < length store.new.trees) }
    ensures tells { IfOk result (λ new. (code : List AnInsn) (place : ℕ)
        → Tells code place store.old.trees known.old id
        → Tells code place store.new.trees known.new new) }
    ensures store { Grows result store.old store.new }
{
    match word_of(known, register) {
        Some(_) => Ok(id),
        None => match word_of(more, register) {
            None => Ok(id),
            Some(by) => {
                let made = replace(alloc, store, register, &by, id)?;
                known[register] = Some(by);
                Ok(made)
            }
        },
    }
}

/// A diagram that tells what runs return where `known` is known, made one where `more` is known.
fn learn(alloc: Global, store: &mut Store, known: &Known, more: &Known, id: Id) -> Result<Id, Fault>
    requires knowledge { IsKnowledge store.old.trees more.now }
    requires less { IsLess known.now more.now }
    requires count { length known.now ≡ 18 }
    requires within { id < length store.old.trees }
    ensures tells { IfOk result (λ new. (code : List AnInsn) (place : ℕ)
        → Tells code place store.old.trees known.now id
        → Tells code place store.new.trees more.now new) }
    ensures store { Grows result store.old store.new }
{
    let mut so_far = *known;
    let mut learnt = id;
    for register in 0..18 {
        learnt = learn_register(alloc, store, &mut so_far, more, register, learnt)?;
    }
    Ok(learnt)
}

/// Whether a test of a register passes: 1 or 0.
fn test_diagram(
    store: &mut Store,
    known: &Known,
    register: Register,
    test: Test,
    operand: Operand,
) -> Result<Id, Fault>
    requires register { IsRegister register }
    requires known { IsKnowledge store.old.trees known.now }
    ensures truth { IfOk result (λ id. IsTruthOf store.new.trees id (λ bits.
        if passes test (held_in store.old.trees known.now bits register)
        (operand_in store.old.trees known.now bits operand) then 1 else 0)) }
    ensures store { Grows result store.old store.new }
{
    let (a, b) = held_words(store, known, register, operand)?;
    Ok(test_words(store, test, &a, &b)?)
}

/// What is returned where a source's number is taken before: 0 where it divides by X and X is 0.
fn guarded_diagram(store: &mut Store, known: &Known, source: Source, id: Id) -> Result<Id, Fault>
    requires known { IsKnowledge store.old.trees known.now }
    requires within { id < length store.old.trees }
    ensures values { IfOk result (λ new. IsDiagramOf store.new.trees new (λ bits.
        if divides source && (held_in store.old.trees known.now bits TheX == 0) then 0
        else value (tree_at store.old.trees id) bits)) }
    ensures store { Grows result store.old store.new }
{
    if !is_quotient(source) {
        return Ok(id);
    }
    let zero = store.leaf(0)?;
    let number = Operand::Constant(0);
    let is_zero = test_diagram(store, known, X, Test::Equal, number)?;
    let guarded = choose(store, is_zero, zero, id)?;
    Ok(guarded)
}

/// The numbers of a source.
fn source_diagram(store: &mut Store, known: &Known, source: Source) -> Result<Id, Fault>
    requires source { IsSource source }
    requires known { IsKnowledge store.old.trees known.now }
    ensures values { IfOk result (λ id. IsDiagramOf store.new.trees id
        (λ bits. source_in store.old.trees known.now bits source)) }
    ensures small { IfOk result (λ id. (bits : Bits)
        → value (tree_at store.new.trees id) bits < 2 ^ 32) }
    ensures store { Grows result store.old store.new }
{
    match source {
        Source::Constant(number) => Ok(store.leaf(number as u64)?),
        _ => {
            let word = source_word(store, known, source)?;
            let id = number_diagram(store, &word)?;
            Ok(id)
        }
    }
}

/// The diagram of a place, made one where this is known that is known behind a step.
fn diagram_behind(
    alloc: Global,
    store: &mut Store,
    steps: &Vec<Step>,
    ids: &Vec<Id>,
    from: &Step,
    place: usize,
) -> Result<Id, Fault>
    requires { IsNext store.old.trees steps.now.items ids.now.items from.now place }
    ensures tells { IfOk result
        (λ id. Tells (insns_of steps.now.items) place store.new.trees from.now.after id) }
    ensures store { Grows result store.old store.new }
{
    let step = step_at(steps, place);
    Ok(learn(alloc, store, &step.known, &from.after, id_at(ids, place))?)
}

/// The diagram that tells what runs return that go on from a place, by its step.
pub(crate) fn diagram_of_place(
    alloc: Global,
    store: &mut Store,
    steps: &Vec<Step>,
    ids: &Vec<Id>,
    place: usize,
    step: &Step,
) -> Result<Id, Fault>
    requires { IsPlace store.old.trees steps.now.items ids.now.items place step.now }
    ensures tells { IfOk result
        (λ id. Tells (insns_of steps.now.items) place store.new.trees step.now.known id) }
    ensures store { Grows result store.old store.new }
{
    match step.effect {
        Effect::Sets(register, source) => {
            let next = diagram_behind(alloc, store, steps, ids, step, place + 1)?;
            let by = source_word(store, &step.known, source)?;
            let set = replace(alloc, store, register, &by, next)?;
            Ok(guarded_diagram(store, &step.known, source, set)?)
        }
        Effect::Skips(k) => {
            let target = place + 1 + k as usize;
            Ok(diagram_behind(alloc, store, steps, ids, step, target)?)
        }
        Effect::Tests(test, operand, on_true, on_false) => {
            let on_yes = place + 1 + on_true as usize;
            let on_no = place + 1 + on_false as usize;
            let taken = diagram_behind(alloc, store, steps, ids, step, on_yes)?;
            let other = diagram_behind(alloc, store, steps, ids, step, on_no)?;
            let passed = test_diagram(store, &step.known, A, test, operand)?;
            let tested = choose(store, passed, taken, other)?;
            Ok(tested)
        }
        Effect::Returns(source) => Ok(source_diagram(store, &step.known, source)?),
    }
}

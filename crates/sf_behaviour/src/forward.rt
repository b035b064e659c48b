//! How places come to be known, from the first on.

ghost use Rattle.std.specs.Prelude.{◌≡◌, ◌<◌, true, [], ◌∷◌, Some, length, IfOk};
ghost use Rattle.sf_check.specs.Insns.{IsInRange};
ghost use Rattle.sf_check.specs.Programs.{IsLawfulProgram};
ghost use Rattle.sf_diagram.specs.Trees.{IsOrderedFrom};
ghost use Rattle.sf_diagram.specs.Stores.{tree_at};
ghost use Rattle.sf_behaviour.specs.Knowledge.{IsInputWord, IsKnowledge};
ghost use Rattle.sf_behaviour.specs.Effects.{places_after, source_in, IsEffect, IsSource};
ghost use Rattle.sf_behaviour.specs.Telling.{insns_of, AreSteps, IsAfter, IsCarried, IsStep};
ghost use Rattle.sf_behaviour.specs.Words.{IsWord, IsWordOf, Grows};
ghost use Rattle.sf_behaviour.specs.declared.words.Word.{Word as AWord};

use crate::effects::{Effect, Source, effect_of, source_word};
use crate::inputs::REGISTER_BITS;
use crate::knowing::{Known, meet};
use crate::steps::Step;
use crate::words::{Word, constant_word};
use sf_check::Insn;
use sf_diagram::{Fault, Id, Node, Store};
use std::alloc::Global;

/// Whether a diagram tests no register.
fn is_of_input(store: &Store, id: Id) -> bool
    requires { id < length store.now.trees }
    ensures { result ≡ true → IsOrderedFrom 576 (tree_at store.now.trees id) }
{
    match store.node(id) {
        Node::Number(_) => true,
        Node::Choice(variable, _, _) => variable >= REGISTER_BITS,
    }
}

/// Whether a word depends on the input alone.
fn is_input_word(store: &Store, word: &Word) -> bool
    requires { IsWord store.now.trees word.now.bits }
    ensures { result ≡ true → IsInputWord store.now.trees word.now.bits }
{
    for i in 0..32 {
        if !is_of_input(store, word.bits[i]) {
            return false;
        }
    }
    true
}

/// The word of a source, if it depends on the input alone.
fn fixed_word(store: &mut Store, known: &Known, source: Source) -> Result<Option<Word>, Fault>
    requires source { IsSource source }
    requires known { IsKnowledge store.old.trees known.now }
    ensures word { IfOk result (λ o. (w : AWord) → o ≡ Some w
        → IsInputWord store.new.trees w.bits
        × IsWordOf store.new.trees w.bits
        (λ bits. source_in store.old.trees known.now bits source)) }
    ensures store { Grows result store.old store.new }
{
    let word = source_word(store, known, source)?;
    if is_input_word(store, &word) {
        Ok(Some(word))
    } else {
        Ok(None)
    }
}

/// What is known behind an effect.
fn known_after(store: &mut Store, known: &Known, effect: Effect) -> Result<Known, Fault>
    requires known { IsKnowledge store.old.trees known.now }
    requires there { IsEffect effect }
    ensures after { IfOk result (IsAfter store.new.trees known.now effect) }
    ensures store { Grows result store.old store.new }
{
    match effect {
        Effect::Sets(register, source) => {
            let word = fixed_word(store, known, source)?;
            let mut after = *known;
            after[register] = word;
            Ok(after)
        }
        Effect::Skips(_) => Ok(*known),
        Effect::Tests(_, _, _, _) => Ok(*known),
        Effect::Returns(_) => Ok(*known),
    }
}

/// The step of an instruction, where these words are known.
fn step_of(store: &mut Store, insn: Insn, known: Known) -> Result<Step, Fault>
    requires range { IsInRange insn }
    requires known { IsKnowledge store.old.trees known }
    ensures step { IfOk result (λ s. IsStep store.new.trees s) }
    ensures insn { IfOk result (λ s. s.insn ≡ insn) }
    ensures known { IfOk result (λ s. s.known ≡ known) }
    ensures store { Grows result store.old store.new }
{
    let effect = effect_of(&insn);
    let after = known_after(store, &known, effect)?;
    Ok(Step {
        insn,
        effect,
        known,
        after,
    })
}

/// Carries what is known behind a step to a place, if there is such a place.
fn carry_to(known: &mut Vec<Option<Known>>, place: usize, after: &Known)
    ensures { IsCarried known.old.items known.new.items after.now (place ∷ []) }
{
    if place < known.len() {
        // Where nothing leads there so far, all that is known behind the step is known.
        let so_far = known[place].unwrap_or(*after);
        known[place] = Some(meet(&so_far, after));
    }
}

/// Carries what is known behind the step of a place to the places to which it leads.
fn carry(known: &mut Vec<Option<Known>>, place: usize, step: &Step)
    requires { place < 4096 }
    ensures { IsCarried known.old.items known.new.items step.now.after
        (places_after place step.now.effect) }
{
    match step.effect {
        Effect::Sets(_, _) => carry_to(known, place + 1, &step.after),
        Effect::Skips(k) => carry_to(known, place + 1 + k as usize, &step.after),
        Effect::Tests(_, _, on_true, on_false) => {
            carry_to(known, place + 1 + on_true as usize, &step.after);
            carry_to(known, place + 1 + on_false as usize, &step.after);
        }
        Effect::Returns(_) => {}
    }
}

/// What is known of each place of a program: what is known behind all steps that lead to it. At its beginning all
/// registers are 0; the same is said of places to which no step leads.
pub(crate) fn forward_steps(
    alloc: Global,
    store: &mut Store,
    insns: &[Insn],
) -> Result<Vec<Step>, Fault>
    requires { IsLawfulProgram insns.now }
    ensures code { IfOk result (λ v. insns_of v.items ≡ insns.now) }
    ensures steps { IfOk result (λ v. AreSteps store.new.trees v.items) }
    ensures store { Grows result store.old store.new }
{
    let zero = constant_word(store, 0)?;
    let start: Known = [Some(zero); 18];
    // For each place what is known so far behind the steps that lead to it, if one does.
    let mut known: Vec<Option<Known>> = vec![in alloc; None; insns.len()]?;
    let mut steps: Vec<Step> = Vec::new(alloc);
    for i in 0..insns.len() {
        let here = known[i].unwrap_or(start);
        let step = step_of(store, insns[i], here)?;
        carry(&mut known, i, &step);
        steps.push(step)?;
    }
    Ok(steps)
}

//! What stacks answer by their diagrams, and by running them.

ghost use Rattle.std.specs.Prelude.{◌<◌, length};

use crate::aiming::aimed_inputs;
use crate::making::random_code;
use crate::numbers::Numbers;
use sf_behaviour::{behaviour, first_variable};
use sf_check::{Stack, check};
use sf_diagram::{Id, Store, value_of};
use sf_insn::{Input, RawInsn};
use sf_run::{Action, Answer, answer};
use std::alloc::{AllocError, Global};
use std::test::Fail;

/// How often the two were compared, and how often they differed.
#[derive(Clone, Copy)]
pub struct Counts {
    pub inputs: u32,
    pub wrong: u32,
}

/// The variables that are true for an input.
fn variables_of(alloc: Global, input: &Input) -> Result<Vec<u16>, AllocError> {
    let mut variables = Vec::new(alloc);
    for i in 0..512u16 {
        let word = (i / 32) as usize;
        if (input.words[word] >> (31 - i % 32)) % 2 == 1 {
            variables.push(first_variable(word) + i % 32)?;
        }
    }
    Ok(variables)
}

/// The answer that a diagram has for an input.
fn answer_by(alloc: Global, store: &Store, id: Id, input: &Input) -> Result<Answer, AllocError>
    requires { id < length store.now.trees }
{
    let variables = variables_of(alloc, input)?;
    let value = value_of(store, id, &variables);
    Ok(Answer {
        action: Action::of_number((value & 0xffff0000) as u32),
        info: (value & 0xffff) as u16,
    })
}

/// A stack on inputs that are aimed at what its programs name.
fn compared(
    alloc: Global,
    numbers: &mut Numbers,
    stack: &Stack,
    code: &[RawInsn],
    mut so_far: Counts,
) -> Result<Counts, Fail> {
    let mut store = Store::new(alloc, 4_000_000)?;
    let id = behaviour(alloc, &mut store, stack.programs())?;
    for input in &aimed_inputs(alloc, numbers, code)? {
        so_far.inputs = so_far.inputs.wrapping_add(1);
        if answer_by(alloc, &store, id, input)? != answer(stack, input) {
            so_far.wrong = so_far.wrong.wrapping_add(1);
        }
    }
    Ok(so_far)
}

/// A stack of these programs, on its inputs.
fn compared_stack(
    alloc: Global,
    numbers: &mut Numbers,
    codes: &[Vec<RawInsn>],
    so_far: Counts,
) -> Result<Counts, Fail> {
    let mut programs = Vec::new(alloc);
    let mut all = Vec::new(alloc);
    for code in codes {
        programs.push(check(alloc, code)?)?;
        for raw in code {
            all.push(*raw)?;
        }
    }
    let stack = Stack::of(programs)?;
    let counts = compared(alloc, numbers, &stack, &all, so_far)?;
    Ok(counts)
}

/// Nothing was compared.
const NONE: Counts = Counts {
    inputs: 0,
    wrong: 0,
};

/// The stack of these programs.
pub fn of_stack(alloc: Global, codes: &[Vec<RawInsn>]) -> Result<Counts, Fail> {
    compared_stack(alloc, &mut Numbers::new(1), codes, NONE)
}

/// Random stacks of one to three programs.
pub fn of_random_stacks(alloc: Global, stacks: u32) -> Result<Counts, Fail> {
    let mut numbers = Numbers::new(20_260_730);
    let mut so_far = NONE;
    for _ in 0..stacks {
        let mut codes = Vec::new(alloc);
        for _ in 0..numbers.below(3) + 1 {
            let code = random_code(alloc, &mut numbers)?;
            codes.push(code)?;
        }
        so_far = compared_stack(alloc, &mut numbers, &codes, so_far)?;
    }
    Ok(so_far)
}

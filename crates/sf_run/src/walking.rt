//! The run of a program on one input, with all that it meets and the words that it compares.

ghost use Rattle.std.specs.Prelude.{◌≡◌, ◌++◌, ℕ, [], Option, Some, All, IfOk, OnOk, MatchOption};
ghost use Rattle.sf_run.specs.Code.{state_of};
ghost use Rattle.std.specs.List.{flat_map};
ghost use Rattle.sf_run.specs.Machine.{met_by, return_of};
ghost use Rattle.sf_run.specs.Walks.{HoldsItsWord, at_place, course, meeting_at, truths, walk_of, word_after};

use crate::fault::Fault;
use crate::machine::{Machine, Next, execute, operand};
use sf_check::{Insn, Operand, Program};
use sf_insn::{BinOp, Input, Test};
use std::alloc::Global;

/// What an instruction meets.
#[derive(Clone, Copy, Debug)]
pub enum Met {
    /// A conditional test: what it asks, A, the second word, and its result.
    Tested(Test, u32, u32, bool),
    /// A division by X, with the value of X.
    Divided(u32),
    /// A return of A, with the value of A.
    Returned(u32),
}

/// What the instruction at a place meets.
#[derive(Clone, Copy, Debug)]
pub struct Meeting {
    pub place: usize,
    /// The word of the input, 0 to 15, that A is known to hold: the last instruction that set A loaded it.
    pub word: Option<u8>,
    pub met: Met,
}

/// A run of a program on an input.
#[derive(Debug, Drop)]
pub struct Course {
    pub met: Vec<Meeting>,
    /// Where the program returned: a return, or a division by an X of 0.
    pub place: usize,
    pub value: u32,
}

/// What the instruction meets, before it runs; `None` where it meets nothing.
pub(crate) fn what_is_met(machine: &Machine, insn: &Insn) -> Option<Met>
    ensures { (place : ℕ) (word : Option ℕ) → MatchOption result
        (meeting_at (state_of place machine.now) word insn.now ≡ [])
        (λ m. meeting_at (state_of place machine.now) word insn.now ≡ at_place place word m) }
{
    match insn {
        Insn::Branch(test, other, _, _) => {
            let word = operand(machine, *other);
            let passed = test.passes(machine.a, word);
            Some(Met::Tested(*test, machine.a, word, passed))
        }
        Insn::Alu(BinOp::Div, Operand::X) => Some(Met::Divided(machine.x)),
        Insn::ReturnA => Some(Met::Returned(machine.a)),
        Insn::LoadWord(_)
        | Insn::LoadConstant(_)
        | Insn::LoadScratch(_)
        | Insn::LoadLength
        | Insn::LoadXConstant(_)
        | Insn::LoadXScratch(_)
        | Insn::LoadXLength
        | Insn::StoreA(_)
        | Insn::StoreX(_)
        | Insn::Alu(_, _)
        | Insn::Negate
        | Insn::Jump(_)
        | Insn::ReturnConstant(_)
        | Insn::Tax
        | Insn::Txa => None,
    }
}

/// The word of the input that A is known to hold after an instruction. `word` is the one that it held before.
fn word_after(word: Option<u8>, insn: &Insn) -> Option<u8>
    ensures { result ≡ word_after word insn.now }
{
    match insn {
        Insn::LoadWord(loaded) => Some(*loaded),
        Insn::LoadConstant(_)
        | Insn::LoadScratch(_)
        | Insn::LoadLength
        | Insn::Alu(_, _)
        | Insn::Negate
        | Insn::Txa => None,
        Insn::LoadXConstant(_)
        | Insn::LoadXScratch(_)
        | Insn::LoadXLength
        | Insn::StoreA(_)
        | Insn::StoreX(_)
        | Insn::Jump(_)
        | Insn::Branch(_, _, _, _)
        | Insn::ReturnConstant(_)
        | Insn::ReturnA
        | Insn::Tax => word,
    }
}

/// Adds what the instruction meets. `word` is the word of the input that A is known to hold then.
fn push_meeting(
    met: &mut Vec<Meeting>,
    machine: &Machine,
    place: usize,
    word: Option<u8>,
    insn: &Insn,
) -> Result<(), Fault>
    ensures pushed { OnOk result (met.new.items ≡ met.old.items
        ++ meeting_at (state_of place machine.now) word insn.now) }
{
    if let Some(here) = what_is_met(machine, insn) {
        met.push(Meeting {
            place,
            word,
            met: here,
        })?;
    }
    Ok(())
}

/// The run of the program on the input: what it meets, with the numbers that it compares, the place at which it
/// returns, and the value.
pub fn walk(alloc: Global, program: &Program, input: &Input) -> Result<Course, Fault>
    ensures course { IfOk result (λ w. walk_of program.now input.now
        ≡ Some (course w.met.items w.place w.value)) }
    ensures run { IfOk result (λ w. (w.value ≡ return_of program.now input.now)
        × (flat_map truths w.met.items ≡ met_by program.now input.now)) }
    ensures words { IfOk result (λ w. All (HoldsItsWord input.now) w.met.items) }
{
    let code = program.insns();
    let mut met = Vec::new(alloc);
    let mut machine = Machine::start();
    let mut place = 0;
    let mut word = None;
    'steps: loop {
        let insn = &code[place];
        push_meeting(&mut met, &machine, place, word, insn)?;
        word = word_after(word, insn);
        match execute(&mut machine, input, place, insn) {
            Next::Goes(next) => place = next,
            Next::Returns(value) => return Ok(Course { met, place, value }),
        }
    }
}

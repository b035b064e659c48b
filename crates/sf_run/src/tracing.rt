ghost use Rattle.std.specs.Prelude.{◌≡◌, ◌++◌, IfOk, OnOk};
ghost use Rattle.sf_run.specs.Machine.{bits, met_by, trace_of};
ghost use Rattle.sf_run.specs.Code.{met_at, state_of};

use crate::fault::Fault;
use crate::machine::{Machine, Next, execute};
use crate::walking::{Met, what_is_met};
use sf_check::{Insn, Program, Stack};
use sf_insn::Input;
use std::alloc::Global;

/// Adds the 32 bits of a word to `met`, the highest first.
fn push_bits(met: &mut Vec<bool>, word: u32) -> Result<(), Fault>
    ensures pushed { OnOk result (met.new.items ≡ met.old.items ++ bits 32 word) }
{
    for i in 0..32u32 {
        met.push((word >> (31 - i)) & 1 == 1)?;
    }
    Ok(())
}

/// Adds what the instruction meets: the result of a test, whether X is 0 at a division by X, or the 32 bits of A at a
/// return of A.
fn push_met(met: &mut Vec<bool>, machine: &Machine, insn: &Insn) -> Result<(), Fault>
    ensures pushed { OnOk result (met.new.items ≡ met.old.items
        ++ met_at (state_of 0 machine.now) insn.now) }
{
    match what_is_met(machine, insn) {
        Some(Met::Tested(_, _, _, passed)) => met.push(passed)?,
        Some(Met::Divided(x)) => met.push(x == 0)?,
        Some(Met::Returned(a)) => push_bits(met, a)?,
        None => {}
    }
    Ok(())
}

fn push_program(met: &mut Vec<bool>, program: &Program, input: &Input) -> Result<(), Fault>
    ensures pushed { OnOk result (met.new.items ≡ met.old.items ++ met_by program.now input.now) }
{
    let code = program.insns();
    let mut machine = Machine::start();
    let mut place = 0;
    loop {
        let insn = &code[place];
        push_met(met, &machine, insn)?;
        match execute(&mut machine, input, place, insn) {
            Next::Goes(next) => place = next,
            Next::Returns(_) => return Ok(()),
        }
    }
}

/// The truth values that the stack meets on the input, in order, the newest program first: the result of each
/// conditional test, whether X is 0 at each division by X, and the 32 bits of A at each return of A, the highest first.
pub fn trace(alloc: Global, stack: &Stack, input: &Input) -> Result<Vec<bool>, Fault>
    ensures met { IfOk result (λ v. v.items ≡ trace_of stack.now input.now) }
{
    let mut met = Vec::new(alloc);
    for program in stack.programs().iter().rev() {
        push_program(&mut met, program, input)?;
    }
    Ok(met)
}

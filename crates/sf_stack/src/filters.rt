ghost use Rattle.std.specs.Prelude.{◌≡◌, ◌⊎◌, ◌≤◌, length, map, IfOk, IfErr};
ghost use Rattle.sf_stack.specs.FaultPlaces.{decode_fault, check_fault};
ghost use Rattle.sf_check.specs.Programs.{SpellsProgram};
ghost use Rattle.sf_stack.specs.Filters.{SpellPrograms, SpellStack, IsRefusalOf, IsFileRefusal, IsFirstRefusal};

use crate::fault::Fault;
use sf_check::{MOST_PROGRAMS, Program, Stack, check};
use sf_insn::decode;
use std::alloc::Global;

/// A fault of the bytes of a filter, with the filter's number, from 1.
fn fault_of_decoding(filter: usize, fault: sf_insn::Fault) -> Fault
    ensures { result ≡ decode_fault filter fault }
{
    match fault {
        sf_insn::Fault::Ragged => Fault::Ragged { filter },
        sf_insn::Fault::Empty => Fault::Empty { filter },
        sf_insn::Fault::TooLong => Fault::TooLong { filter },
        sf_insn::Fault::Memory => Fault::Memory,
    }
}

/// The fault of a filter's program, with the filter's number, from 1, unless it is one of the whole stack.
fn fault_of_checking(filter: usize, fault: sf_check::Fault) -> Fault
    ensures { result ≡ check_fault filter fault }
{
    match fault {
        sf_check::Fault::Empty => Fault::Empty { filter },
        sf_check::Fault::TooLong => Fault::TooLong { filter },
        sf_check::Fault::Code(instruction) => Fault::Code {
            filter,
            instruction,
        },
        sf_check::Fault::Field(instruction) => Fault::Field {
            filter,
            instruction,
        },
        sf_check::Fault::Jump(instruction) => Fault::Jump {
            filter,
            instruction,
        },
        sf_check::Fault::Last => Fault::Last { filter },
        sf_check::Fault::Scratch(instruction) => Fault::Scratch {
            filter,
            instruction,
        },
        sf_check::Fault::NoFilter => Fault::NoFilter,
        sf_check::Fault::TooMany => Fault::TooMany,
        sf_check::Fault::PathLength => Fault::PathLength,
        sf_check::Fault::Memory => Fault::Memory,
    }
}

/// The program that the bytes of the filter of this number spell. Faults of bytes come before those of instructions.
fn program_of(alloc: Global, filter: usize, bytes: &[u8]) -> Result<Program, Fault>
    ensures accepted { IfOk result (SpellsProgram bytes.now) }
    ensures refused { IfErr result (λ e. (e ≡ Fault.Memory) ⊎ IsRefusalOf filter bytes.now e) }
{
    let raws = decode(alloc, bytes).map_err(|fault| fault_of_decoding(filter, fault))?;
    check(alloc, &raws).map_err(|fault| fault_of_checking(filter, fault))
}

/// The programs that the filter files spell. The refusal is that of the first file that is refused.
fn programs_of(alloc: Global, filters: &[Vec<u8>]) -> Result<Vec<Program>, Fault>
    requires { length filters.now ≤ 64 }
    ensures accepted { IfOk result (λ v. SpellPrograms (map (λ f. f.items) filters.now) v.items) }
    ensures refused { IfErr result (λ e. (e ≡ Fault.Memory)
        ⊎ IsFileRefusal (map (λ f. f.items) filters.now) e) }
{
    let mut programs = Vec::new(alloc);
    for (i, bytes) in filters.iter().enumerate() {
        let program = program_of(alloc, i + 1, bytes)?;
        programs.push(program)?;
    }
    Ok(programs)
}

/// The stack that filter files spell, in order of installation, the newest last.
///
/// Refusals come in this order: `NoFilter`, `TooMany`; then for each file in order the faults of its bytes, then the
/// fault of its instructions that `check` finds first; then `PathLength`.
pub fn stack_of(alloc: Global, filters: &[Vec<u8>]) -> Result<Stack, Fault>
    ensures accepted { IfOk result (SpellStack (map (λ f. f.items) filters.now)) }
    ensures refused { IfErr result (λ e. (e ≡ Fault.Memory)
        ⊎ IsFirstRefusal (map (λ f. f.items) filters.now) e) }
{
    if filters.is_empty() {
        return Err(Fault::NoFilter);
    }
    if filters.len() > MOST_PROGRAMS {
        return Err(Fault::TooMany);
    }
    let programs = programs_of(alloc, filters)?;
    // Only a fault of the whole stack is left.
    Stack::of(programs).map_err(|fault| fault_of_checking(filters.len(), fault))
}

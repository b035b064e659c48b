//! Two stacks, whose filters are numbered together.

ghost use Rattle.std.specs.Prelude.{◌≡◌, ◌⊎◌, ◌+◌, ◌≤◌, ◌^◌, ◌<◌, length, map, IfOk, IfErr};
ghost use Rattle.sf_stack.specs.Filters.{SpellStack};
ghost use Rattle.sf_stack.specs.TwoStacks.{IsNewRefusal, IsRefusalOfBoth, counted_on, filter_number};

use crate::fault::Fault;
use crate::filters::stack_of;
use sf_check::Stack;
use std::alloc::Global;

/// The fault where the filters are numbered behind `older` others.
fn counted_on(fault: Fault, older: usize) -> Fault
    requires { filter_number fault + older < 2 ^ 64 }
    ensures { result ≡ counted_on older fault }
{
    match fault {
        Fault::Ragged { filter } => Fault::Ragged {
            filter: filter + older,
        },
        Fault::Empty { filter } => Fault::Empty {
            filter: filter + older,
        },
        Fault::TooLong { filter } => Fault::TooLong {
            filter: filter + older,
        },
        Fault::Code {
            filter,
            instruction,
        } => Fault::Code {
            filter: filter + older,
            instruction,
        },
        Fault::Field {
            filter,
            instruction,
        } => Fault::Field {
            filter: filter + older,
            instruction,
        },
        Fault::Jump {
            filter,
            instruction,
        } => Fault::Jump {
            filter: filter + older,
            instruction,
        },
        Fault::Last { filter } => Fault::Last {
            filter: filter + older,
        },
        Fault::Scratch {
            filter,
            instruction,
        } => Fault::Scratch {
            filter: filter + older,
            instruction,
        },
        other => other,
    }
}

/// The stack that the new files spell; for a fault their filters are numbered behind the `older` ones.
fn new_stack_of(alloc: Global, older: usize, files: &[Vec<u8>]) -> Result<Stack, Fault>
    requires { older ≤ 64 }
    ensures accepted { IfOk result (SpellStack (map (λ f. f.items) files.now)) }
    ensures refused { IfErr result (λ e. (e ≡ Fault.Memory)
        ⊎ IsNewRefusal older (map (λ f. f.items) files.now) e) }
{
    match stack_of(alloc, files) {
        Ok(stack) => Ok(stack),
        Err(fault) => Err(counted_on(fault, older)),
    }
}

/// The old stack and the new one that files spell, as by `stack_of`. The filters of the new one are numbered behind
/// those of the old one.
pub fn stacks_of(alloc: Global, old: &[Vec<u8>], new: &[Vec<u8>]) -> Result<(Stack, Stack), Fault>
    ensures old { IfOk result (λ s. SpellStack (map (λ f. f.items) old.now) s.0) }
    ensures new { IfOk result (λ s. SpellStack (map (λ f. f.items) new.now) s.1) }
    ensures refused { IfErr result (λ e. (e ≡ Fault.Memory) ⊎ IsRefusalOfBoth
        (map (λ f. f.items) old.now) (map (λ f. f.items) new.now) e) }
{
    let first = stack_of(alloc, old)?;
    let second = new_stack_of(alloc, first.programs().len(), new)?;
    Ok((first, second))
}

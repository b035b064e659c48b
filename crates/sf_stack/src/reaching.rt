//! Which instructions of a filter some path comes to.

ghost use Rattle.std.specs.Prelude.{◌≡◌, ◌+◌, ◌<◌, length, IfOk};
ghost use Rattle.sf_check.specs.Insns.{successors};
ghost use Rattle.sf_check.specs.Programs.{AllBelow};
ghost use Rattle.sf_stack.specs.Reaching.{AreReached, with_found};

use sf_check::{Insn, Program};
use std::alloc::{AllocError, Global};

/// Marks the places to which an instruction may lead. A jump counts from the place behind it, hence the `+ 1`.
fn find_next(found: &mut [bool], place: usize, insn: &Insn)
    requires small { place < 4096 }
    requires inside { AllBelow (length found.old) (successors place insn.now) }
    ensures { found.new ≡ with_found (successors place insn.now) found.old }
{
    match insn {
        Insn::ReturnConstant(_) | Insn::ReturnA => {}
        Insn::Jump(k) => found[place + 1 + *k as usize] = true,
        Insn::Branch(_, _, on_true, on_false) => {
            found[place + 1 + *on_true as usize] = true;
            found[place + 1 + *on_false as usize] = true;
        }
        _ => found[place + 1] = true,
    }
}

/// For each instruction of a program, whether some path from the first instruction comes to it. Behind each test there
/// are paths for both results, whether or not an input gives them.
pub fn reached(alloc: Global, program: &Program) -> Result<Vec<bool>, AllocError>
    ensures { IfOk result (λ found. AreReached program.now found.items) }
{
    let code = program.insns();
    let mut found = vec![in alloc; false; code.len()]?;
    // A program has an instruction, and each path begins at the first one.
    found[0] = true;
    // Instructions lead only to later places, so one pass finds all.
    for (place, insn) in code.iter().enumerate() {
        if found[place] {
            find_next(&mut found, place, insn);
        }
    }
    Ok(found)
}

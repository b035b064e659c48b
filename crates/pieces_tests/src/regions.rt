//! Tests of pieces and works of small stacks. What audits of such stacks find is tried by the command lines of
//! `command_run`.
use crate::exploring::{explore_stack, push_name};
use samples::{
    eight_divided, execve_refused, execve_stack, late_contradiction, stack_of, x32_refused,
};
use sf_insn::{Input, RawInsn};
use sf_piece::{Piece, Step, Work, advance, root};
use sf_run::{Answer, answer, trace};
use std::alloc::Global;
use std::test::Fail;

/// Words 0, 1 and 4 of inputs. The others are 0.
const INPUTS: [(u32, u32, u32); 4] = [
    (59, 0xC000003E, 0),
    (60, 0xC000003E, 2),
    (59, 0x40000003, 8),
    (0x40000000, 0xC000003E, 9),
];

/// The input with these words at the places 0, 1 and 4.
fn input_of(nr: u32, arch: u32, argument: u32) -> Input {
    Input {
        words: [nr, arch, 0, 0, argument, 0, 0, 0, 0, 0, 0, 0, 0, 0, 0, 0],
    }
}

/// How many of the regions have this name, and how many of these this answer.
fn count_named(regions: &[(Vec<bool>, Answer)], name: &[bool], answer: Answer) -> (u64, u64) {
    let (mut named, mut answered) = (0u64, 0u64);
    for (other, told) in regions {
        if other.as_slice() == name {
            named = named.wrapping_add(1);
            if *told == answer {
                answered = answered.wrapping_add(1);
            }
        }
    }
    (named, answered)
}

/// The first of the inputs whose trace isn't the name of one region, or whose answer isn't that region's; `None` where
/// there is none.
fn stray_input(alloc: Global, filters: &[&[RawInsn]]) -> Result<Option<(u32, u32, u32)>, Fail> {
    let stack = stack_of(alloc, filters)?;
    let seen = explore_stack(alloc, &stack)?;
    for (nr, arch, argument) in INPUTS {
        let input = input_of(nr, arch, argument);
        let met = trace(alloc, &stack, &input)?;
        if count_named(&seen.regions, &met, answer(&stack, &input)) != (1, 1) {
            return Ok(Some((nr, arch, argument)));
        }
    }
    Ok(None)
}

#[test]
fn a_trace_is_the_name_of_one_region_with_the_answer(rt: HostRuntime) -> Result<(), Fail> {
    let login = stray_input(rt.alloc(), &[&execve_refused(), &x32_refused()])?;
    let divided = stray_input(rt.alloc(), &[&eight_divided()])?;
    let late = stray_input(rt.alloc(), &[&late_contradiction()])?;
    assert_eq!(rt; [login, divided, late], [None; 3]);
    Ok(())
}

/// The sense of the oldest condition.
fn first_sense(piece: &Piece) -> Option<bool> {
    if piece.cond_count() > 0 {
        Some(piece.cond(0).sense)
    } else {
        None
    }
}

/// Adds the name of a piece, and the sense of its oldest condition.
fn show_piece(alloc: Global, text: &mut String, piece: &Piece) -> Result<(), Fail> {
    push_name(text, &piece.name().values(alloc)?)?;
    write!(&mut *text, " {:?};", first_sense(piece))?;
    Ok(())
}

/// What the readers of a work give: its name, its piece, and its children.
fn told(alloc: Global, work: &Work) -> Result<String, Fail> {
    let mut text = String::new(alloc);
    push_name(&mut text, &work.name().values(alloc)?)?;
    text.push(';')?;
    show_piece(alloc, &mut text, work.piece())?;
    if let Some((on_false, on_true)) = work.children() {
        show_piece(alloc, &mut text, on_false)?;
        show_piece(alloc, &mut text, on_true)?;
    }
    Ok(text)
}

/// The work of the root of `execve_stack`.
fn first_work(alloc: Global) -> Result<Work, Fail> {
    Ok(advance(alloc, &root(alloc, &execve_stack(alloc)?)?)?)
}

#[test]
fn a_root_is_of_its_stack(rt: HostRuntime) -> Result<(), Fail> {
    let stack = execve_stack(rt.alloc())?;
    assert!(rt; root(rt.alloc(), &stack)?.stack().is_same(&stack));
    Ok(())
}

#[test]
fn a_work_tells_its_piece_and_its_children(rt: HostRuntime) -> Result<(), Fail> {
    let work = first_work(rt.alloc())?;
    assert!(rt; matches!(work.step(), Step::Split(_, _)));
    assert_eq!(rt;
        told(rt.alloc(), &work)?.as_str(),
        "; None;F Some(false);T Some(true);"
    );
    Ok(())
}

#[test]
fn a_settled_work_has_no_children(rt: HostRuntime) -> Result<(), Fail> {
    let work = first_work(rt.alloc())?;
    let (on_false, _on_true) = work.children().ok_or("no children")?;
    let settled = advance(rt.alloc(), on_false)?;
    assert_eq!(rt; told(rt.alloc(), &settled)?.as_str(), "F;F Some(false);");
    Ok(())
}

#[test]
fn a_piece_tells_its_facts_and_its_pool(rt: HostRuntime) -> Result<(), Fail> {
    let work = first_work(rt.alloc())?;
    let (_on_false, on_true) = work.children().ok_or("no children")?;
    // The words, 0, and the number of the test.
    let told = (on_true.facts().least(1), on_true.pool().len());
    assert_eq!(rt; told, (Some(0xC000003E), 18));
    Ok(())
}

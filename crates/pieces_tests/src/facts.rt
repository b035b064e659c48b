//! Tests of what pieces know of their nodes.

ghost use Rattle.std.specs.Prelude.{length, IfOk, All};
ghost use Rattle.sf_sym.specs.Pool.{IsCondBelow};

use crate::exploring::explore_stack;
use samples::{
    any_bit, eight_divided, execve_refused, four_tests, low_bits, nested_tests, stack_of,
    x32_refused,
};
use sf_check::Stack;
use sf_dom::Facts;
use sf_insn::RawInsn;
use sf_piece::Piece;
use sf_sym::{Cond, NodeId};
use std::alloc::Global;
use std::sync::Arc;
use std::test::Fail;

/// The conditions of a piece, the oldest first.
fn conds_of(alloc: Global, piece: &Piece) -> Result<Vec<Cond>, Fail>
    ensures { IfOk result (λ v. All (IsCondBelow (length piece.now.pool)) v.items) }
{
    let mut conds = Vec::new(alloc);
    for i in 0..piece.cond_count() {
        conds.push(piece.cond(i))?;
    }
    Ok(conds)
}

/// Whether the facts that the piece carries are those that are made of its conditions anew.
fn carries_its_facts(alloc: Global, piece: &Piece) -> Result<bool, Fail> {
    let conds = conds_of(alloc, piece)?;
    match Facts::of(alloc, piece.pool(), conds.as_slice())? {
        Some(afresh) => Ok(afresh.is_same(piece.facts())),
        None => Ok(false),
    }
}

/// How many pieces of the stack of these filters carry other facts than those that are made of their conditions.
fn strays(alloc: Global, filters: &[&[RawInsn]]) -> Result<u64, Fail> {
    let stack = stack_of(alloc, filters)?;
    let mut strays = 0u64;
    for piece in &explore_stack(alloc, &stack)?.pieces {
        if !carries_its_facts(alloc, piece)? {
            strays = strays.wrapping_add(1);
        }
    }
    Ok(strays)
}

#[test]
fn carried_facts_are_those_built_afresh(rt: HostRuntime) -> Result<(), Fail> {
    let alloc = rt.alloc();
    let login = strays(alloc, &[&execve_refused(), &x32_refused()])?;
    let divided = strays(alloc, &[&eight_divided()])?;
    let nested = strays(alloc, &[&nested_tests()])?;
    let four = strays(alloc, &[&four_tests()])?;
    let low = strays(alloc, &[&low_bits(3)])?;
    let any = strays(alloc, &[&any_bit(5)])?;
    assert_eq!(rt; [login, divided, nested, four, low, any], [0; 6]);
    Ok(())
}

/// The quotient is node 18 in the pools of `eight_divided`: the words are nodes 0 to 15; then come the numbers 0 and 8.
const QUOTIENT: NodeId = NodeId(18);

/// Writes what is known of word 4, and of the quotient where the pool has it.
fn write_known(text: &mut String, piece: &Piece) -> Result<(), Fail> {
    let word = piece.facts().known(NodeId(4));
    write!(&mut *text, "{}-{}", word.low, word.high)?;
    if piece.pool().len() > QUOTIENT.0 as usize {
        let known = piece.facts().known(QUOTIENT);
        write!(
            &mut *text,
            " {}-{} {:08x} {:08x}",
            known.low, known.high, known.zeros, known.ones
        )?;
    }
    text.push_str(";")?;
    Ok(())
}

/// What is known in each piece of the stack, in the order of names.
fn known_of_all(alloc: Global, stack: &Arc<Stack>) -> Result<String, Fail> {
    let mut text = String::new(alloc);
    for piece in &explore_stack(alloc, stack)?.pieces {
        write_known(&mut text, piece)?;
    }
    Ok(text)
}

/// At first word 4 may be any number. Where it isn't 0, it is at least 1, and the quotient, 8 divided by 1 to 2^32 - 1,
/// is 0 to 8: its bits from 4 up are 0. Without bit 3 the quotient is 0 to 7, and with it 8. Of 0 to 7, 0 to 3 are
/// left without bit 2, and 4 to 7 with it: there bit 2 is 1. Bit 1 halves these again, and bit 0 leaves one
/// number, of which each bit is known. In the last piece word 4 is 0.
const KNOWN: &str = "0-4294967295;1-4294967295;\
    1-4294967295 0-7 fffffff8 00000000;1-4294967295 0-3 fffffffc 00000000;\
    1-4294967295 0-1 fffffffe 00000000;1-4294967295 0-0 ffffffff 00000000;\
    1-4294967295 1-1 fffffffe 00000001;1-4294967295 2-3 fffffffc 00000002;\
    1-4294967295 2-2 fffffffd 00000002;1-4294967295 3-3 fffffffc 00000003;\
    1-4294967295 4-7 fffffff8 00000004;1-4294967295 4-5 fffffffa 00000004;\
    1-4294967295 4-4 fffffffb 00000004;1-4294967295 5-5 fffffffa 00000005;\
    1-4294967295 6-7 fffffff8 00000006;1-4294967295 6-6 fffffff9 00000006;\
    1-4294967295 7-7 fffffff8 00000007;1-4294967295 8-8 fffffff7 00000008;\
    0-0;";

#[test]
fn each_quotient_is_known_bit_by_bit(rt: HostRuntime) -> Result<(), Fail> {
    let alloc = rt.alloc();
    let stack = stack_of(alloc, &[&eight_divided()])?;
    assert_eq!(rt; known_of_all(alloc, &stack)?.as_str(), KNOWN);
    Ok(())
}

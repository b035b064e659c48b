//! Symbolic execution: one instruction on symbolic words, or one truth value of it.

ghost use Rattle.std.specs.Prelude.{◌≡◌, IfOk, Option, length, slice_get, Some};
ghost use Rattle.sf_sym.specs.declared.pool.NodeId.{NodeId as ANodeId};
ghost use Rattle.sf_check.specs.Stacks.{IsPlain};
ghost use Rattle.sf_sym.specs.Pool.{OperandsBelow};
ghost use Rattle.sf_dom.specs.Facts.{IsWordOrConst};
ghost use Rattle.sf_piece.specs.SymbolicRun.{IsLawfulPiece};
ghost use Rattle.sf_piece.specs.Machines.{after_return, updated, FitsIn};
ghost use Rattle.sf_piece.specs.Execution.{Computes, IsAtHand, Loads, MovesTo, with_machine};
ghost use Rattle.sf_piece.specs.Pieces.{PieceData};
ghost use Rattle.sf_piece.specs.Works.{HasAtHand, Sets, GoesTo, ReturnsNow, IsMove, IsSmallStep, IsExecuted};
ghost use Rattle.sf_dom.specs.SoundRules.{ForcedIsLearnt};

use crate::asking::{alu, branch, return_a};
use crate::deciding::SmallStep;
use crate::fault::Fault;
use crate::machine::{Register, SymbolicMachine, Update};
use crate::nodes::push;
use crate::run::Run;
use sf_check::Insn;
use sf_sym::{Node, NodeId};
use std::alloc::Global;

/// Runs one instruction, or takes one truth value of it. Where a test is told, failing tests behind it are taken too
/// (`take_failing`). After an error the run may be changed, and is of no use.
pub(crate) fn execute(alloc: Global, run: &mut Run) -> Result<SmallStep, Fault>
    requires { IsLawfulPiece run.old }
    ensures step { IfOk result (IsSmallStep run.old run.new) }
    ensures rule { ForcedIsLearnt → IfOk result (IsExecuted run.old run.new) }
{
    let Some(insn) = run.insn() else {
        return Ok(SmallStep::Settled);
    };
    match insn {
        Insn::LoadWord(i) => load(alloc, run, insn, Register::A, Node::Word(i)),
        Insn::LoadConstant(k) => load(alloc, run, insn, Register::A, Node::Const(k)),
        // An input is 64 bytes long.
        Insn::LoadLength => load(alloc, run, insn, Register::A, Node::Const(64)),
        Insn::LoadXConstant(k) => load(alloc, run, insn, Register::X, Node::Const(k)),
        Insn::LoadXLength => load(alloc, run, insn, Register::X, Node::Const(64)),
        Insn::Negate => {
            let a = run.machine.a;
            load(alloc, run, insn, Register::A, Node::Neg(a))
        }
        Insn::Alu(op, other) => alu(alloc, run, insn, op, other),
        Insn::Branch(test, other, _, _) => branch(alloc, run, insn, test, other),
        Insn::ReturnConstant(k) => {
            leave_program(run, insn, k);
            Ok(SmallStep::On)
        }
        Insn::ReturnA => return_a(alloc, run),
        Insn::LoadScratch(_)
        | Insn::LoadXScratch(_)
        | Insn::StoreA(_)
        | Insn::StoreX(_)
        | Insn::Tax
        | Insn::Txa
        | Insn::Jump(_) => {
            move_on(run, insn);
            Ok(SmallStep::On)
        }
    }
}

/// Puts a node in a register, which is what `insn` does, and goes on. `Empty` where the facts can't take in the node.
pub(crate) fn load(
    alloc: Global,
    run: &mut Run,
    insn: Insn,
    to: Register,
    node: Node,
) -> Result<SmallStep, Fault>
    requires lawful { IsLawfulPiece run.old }
    requires standing { HasAtHand run.old insn }
    requires below { OperandsBelow (length run.old.pool) node }
    requires sets { Sets run.old insn to node }
    requires plain { IsPlain run.old.stack → IsWordOrConst node }
    ensures step { IfOk result (IsSmallStep run.old run.new) }
    ensures rule { (p : PieceData) → IsAtHand p insn
        → ((made : Option PieceData) → Loads run.old to node made → Computes p insn made)
        → IfOk result (IsExecuted p run.new) }
{
    match push(alloc, run, node)? {
        Some(id) => {
            go(run, insn, Update::Load(to, id));
            Ok(SmallStep::On)
        }
        None => Ok(SmallStep::Empty),
    }
}

/// Runs an instruction that moves a word between A, X and the scratch words, or that jumps.
fn move_on(run: &mut Run, insn: Insn)
    requires lawful { IsLawfulPiece run.old }
    requires standing { HasAtHand run.old insn }
    requires moves { IsMove insn }
    ensures step { IsSmallStep run.old run.new SmallStep.On }
    ensures rule { MovesTo run.old.machine insn run.new.machine }
    ensures rest { run.new ≡ with_machine run.old run.new.machine }
{
    let a = run.machine.a;
    let x = run.machine.x;
    match insn {
        Insn::LoadScratch(k) => {
            let node = scratch(&run.machine, k);
            go(run, insn, Update::Load(Register::A, node));
        }
        Insn::LoadXScratch(k) => {
            let node = scratch(&run.machine, k);
            go(run, insn, Update::Load(Register::X, node));
        }
        Insn::StoreA(k) => go(run, insn, Update::Scratch(k, a)),
        Insn::StoreX(k) => go(run, insn, Update::Scratch(k, x)),
        Insn::Tax => go(run, insn, Update::Load(Register::X, a)),
        Insn::Txa => go(run, insn, Update::Load(Register::A, x)),
        Insn::Jump(count) => go(run, insn, Update::Skip(count)),
        _ => unreachable!(),
    }
}

/// The node of scratch word `k`, which is set.
fn scratch(m: &SymbolicMachine, k: u8) -> NodeId
    requires { (w : ANodeId) × (slice_get m.now.scratch k ≡ Some (Some w)) }
    ensures { slice_get m.now.scratch k ≡ Some (Some result) }
{
    match m.scratch[k as usize] {
        Some(n) => n,
        None => unreachable!(),
    }
}

/// Goes on by an instruction that doesn't leave the program, and all of whose truth values are in the name.
fn go(run: &mut Run, insn: Insn, update: Update)
    requires lawful { IsLawfulPiece run.old }
    requires standing { HasAtHand run.old insn }
    requires fits { FitsIn run.old.machine update }
    requires goes { GoesTo run.old insn (updated run.old.machine update) }
    ensures step { IsSmallStep run.old run.new SmallStep.On }
    ensures moved { run.new ≡ with_machine run.old (updated run.old.machine update) }
{
    // For the prover: only clauses speak of it.
    let _insn = insn;
    run.machine.go_on(update);
}

/// Leaves the program with a return of this value; all bits of a returned A are in the name.
pub(crate) fn leave_program(run: &mut Run, insn: Insn, value: u32)
    requires lawful { IsLawfulPiece run.old }
    requires standing { HasAtHand run.old insn }
    requires returns { ReturnsNow run.old insn value }
    ensures step { IsSmallStep run.old run.new SmallStep.On }
    ensures moved { run.new ≡ with_machine run.old (after_return run.old.machine value) }
{
    // For the prover: only clauses speak of it.
    let _insn = insn;
    run.machine.start_next(value);
}

//! Symbolic execution of the instructions that may meet truth values: operations, tests and returns of A.

ghost use Rattle.std.specs.Prelude.{◌≡◌, ℕ, ◌<◌, ◌^◌, length, IfOk, IfSome};
ghost use Rattle.sf_insn.specs.Inputs.{IsInput};
ghost use Rattle.sf_insn.specs.declared.input.Input.{Input as AnInput};
ghost use Rattle.sf_sym.specs.Pool.{value_of};
ghost use Rattle.sf_dom.specs.Backward.{IsPropagatedBack};
ghost use Rattle.sf_dom.specs.Facts.{Covers, Agrees, known_at};
ghost use Rattle.sf_dom.specs.Rules.{number_known};
ghost use Rattle.sf_piece.specs.SymbolicRun.{IsLawfulPiece};
ghost use Rattle.sf_piece.specs.Works.{HasAtHand, IsOperandNumber, IsAPropagatedBack, PassesAlways, AsksTest, divides_at, IsTestedNumber, IsForetold, IsSmallStep, IsExecuted};
ghost use Rattle.sf_dom.specs.SoundRules.{ForcedIsLearnt};

use crate::chains::take_failing;
use crate::deciding::{SmallStep, carry_out, decide, take};
use crate::executing::{leave_program, load};
use crate::fault::Fault;
use crate::machine::Register;
use crate::nodes::operand;
use crate::run::Run;
use sf_check::{Insn, Operand};
use sf_dom::{Facts, rules_are_sound};
use sf_insn::{BinOp, Test};
use sf_sym::{Cond, Node, NodeId, Pool};
use std::alloc::Global;

/// Whether the operation has to ask first whether X is 0.
fn asks_zero(run: &Run, op: BinOp, other: Operand) -> bool
    ensures { result ≡ divides_at op other run.now.machine.taken }
{
    match (op, other) {
        (BinOp::Div, Operand::X) => run.machine.taken == 0,
        _ => false,
    }
}

/// The only number that a node may have; `None` also where its known bits could still narrow other nodes.
fn only_number(facts: &Facts, pool: &Pool, node: NodeId) -> Option<u32>
    requires covers { Covers facts.now pool.now }
    requires within { node.0 < length pool.now }
    ensures value { IfSome result (λ n. (d : AnInput) → IsInput d → Agrees facts.now pool.now d
        → value_of pool.now d node.0 ≡ n) }
    ensures known { IfSome result (λ n. known_at facts.now.known node.0 ≡ number_known n) }
    ensures back { IfSome result (λ n. (m : ℕ) → IsPropagatedBack m facts.now.known
        pool.now node.0) }
    ensures fits { IfSome result (λ n. n < 2 ^ 32) }
{
    let number = facts.decided(pool, node)?;
    // Only `None` matters.
    facts.tell(pool, node, Test::Equal, number)?;
    Some(number)
}

/// The number that A is tested against. `None` where a test with X can teach something.
fn number_against(run: &Run, other: Operand) -> Option<u32>
    requires { IsLawfulPiece run.now }
    ensures value { IfSome result (IsOperandNumber run.now other) }
    ensures rule { IfSome result (λ n. IsTestedNumber run.now other n) }
    ensures fits { IfSome result (λ n. n < 2 ^ 32) }
{
    match other {
        Operand::Constant(number) => Some(number),
        Operand::X => only_number(&run.facts, &run.pool, run.machine.x),
    }
}

/// The result of a test of A, where it is told: every member has it, and nothing can be learnt from it.
fn foresee(run: &Run, test: Test, other: Operand) -> Option<bool>
    requires { IsLawfulPiece run.now }
    ensures value { IfSome result (λ b. PassesAlways run.now test other b) }
    ensures propagated { IfSome result (λ b. IsAPropagatedBack run.now) }
    ensures rule { ForcedIsLearnt → IfSome result (λ b. IsForetold run.now test other b) }
{
    // For the prover: a test that is told has this result on every member.
    rules_are_sound();
    let number = number_against(run, other)?;
    run.facts.tell(&run.pool, run.machine.a, test, number)
}

/// Tries a test of A, whose result is the next truth value of `insn`. On `Split` and `Empty` the run stays as it is.
fn ask(
    alloc: Global,
    run: &mut Run,
    insn: Insn,
    test: Test,
    other: Operand,
) -> Result<SmallStep, Fault>
    requires lawful { IsLawfulPiece run.old }
    requires standing { HasAtHand run.old insn }
    requires asks { AsksTest run.old insn test other }
    ensures step { IfOk result (IsSmallStep run.old run.new) }
    ensures rule { IfOk result (IsExecuted run.old run.new) }
{
    // `other` gets its node in a copy: if only one truth value is left, the run goes on without this node.
    let mut asked = run.fork()?;
    let Some(right) = operand(alloc, &mut asked, other)? else {
        return Ok(SmallStep::Empty);
    };
    let cond = Cond {
        node: run.machine.a,
        test,
        other: right,
        sense: true,
    };
    let decision = decide(alloc, &asked, insn, cond)?;
    carry_out(run, insn, decision)
}

/// Runs an operation on A. A division by X first asks whether X is 0, unless the name says already that it isn't; such
/// a call only takes this truth value, and the next one divides.
pub(crate) fn alu(
    alloc: Global,
    run: &mut Run,
    insn: Insn,
    op: BinOp,
    other: Operand,
) -> Result<SmallStep, Fault>
    requires lawful { IsLawfulPiece run.old }
    requires standing { HasAtHand run.old insn }
    requires is { insn ≡ Insn.Alu op other }
    ensures step { IfOk result (IsSmallStep run.old run.new) }
    ensures rule { ForcedIsLearnt → IfOk result (IsExecuted run.old run.new) }
{
    // For the prover: a test that is told has this result on every member.
    rules_are_sound();
    if asks_zero(run, op, other) {
        let cond = Cond {
            node: run.machine.x,
            test: Test::Equal,
            other: run.machine.zero,
            sense: true,
        };
        if let Some(sense) = run.facts.tell(&run.pool, cond.node, cond.test, 0) {
            take(run, insn, sense)?;
            return Ok(SmallStep::On);
        }
        let decision = decide(alloc, run, insn, cond)?;
        return carry_out(run, insn, decision);
    }
    match operand(alloc, run, other)? {
        Some(right) => {
            let node = Node::Bin(op, run.machine.a, right);
            load(alloc, run, insn, Register::A, node)
        }
        None => Ok(SmallStep::Empty),
    }
}

/// Runs a test of A. Where `foresee` tells it, the failing tests behind it are taken too; else it is tried.
pub(crate) fn branch(
    alloc: Global,
    run: &mut Run,
    insn: Insn,
    test: Test,
    other: Operand,
) -> Result<SmallStep, Fault>
    requires lawful { IsLawfulPiece run.old }
    requires standing { HasAtHand run.old insn }
    requires is { (t : ℕ) × (f : ℕ) × (insn ≡ Insn.Branch test other t f) }
    ensures step { IfOk result (IsSmallStep run.old run.new) }
    ensures rule { ForcedIsLearnt → IfOk result (IsExecuted run.old run.new) }
{
    if let Some(sense) = foresee(run, test, other) {
        take(run, insn, sense)?;
        take_failing(run);
        return Ok(SmallStep::On);
    }
    ask(alloc, run, insn, test, other)
}

/// Runs a return of A: each call takes the next of the 32 bits of A, the highest first; one more leaves the program.
pub(crate) fn return_a(alloc: Global, run: &mut Run) -> Result<SmallStep, Fault>
    requires lawful { IsLawfulPiece run.old }
    requires standing { HasAtHand run.old Insn.ReturnA }
    ensures step { IfOk result (IsSmallStep run.old run.new) }
    ensures rule { ForcedIsLearnt → IfOk result (IsExecuted run.old run.new) }
{
    let taken = run.machine.taken;
    if taken == 32 {
        let value = run.machine.value;
        leave_program(run, Insn::ReturnA, value);
        return Ok(SmallStep::On);
    }
    // Only the next bit of this number is 1.
    let bit = Operand::Constant(1 << (31 - taken as u32));
    if let Some(sense) = foresee(run, Test::AnyBit, bit) {
        take(run, Insn::ReturnA, sense)?;
        return Ok(SmallStep::On);
    }
    ask(alloc, run, Insn::ReturnA, Test::AnyBit, bit)
}

//! A truth value of the trace, taken as true, as false or as both.

ghost use Rattle.std.specs.Prelude.{◌≡◌, if◌then◌else◌, IfOk, length, MatchOption, true, false};
ghost use Rattle.sf_check.specs.Stacks.{IsPlain};
ghost use Rattle.sf_sym.specs.Pool.{IsCondBelow};
ghost use Rattle.sf_dom.specs.Facts.{IsPlainCondition};
ghost use Rattle.sf_dom.specs.Learning.{LearnsBy, CantLearn};
ghost use Rattle.sf_piece.specs.SymbolicRun.{IsLawfulPiece};
ghost use Rattle.sf_piece.specs.Works.{HasAtHand, IsQuery, AfterTruthValue, IsForeseen, Asks, AreChildFacts, IsNever, with_sense, IsSmallStep, IsDecision, IsRightDecision, IsCarriedOut};
ghost use Rattle.sf_piece.specs.Execution.{IsSide, IsNamedOn, with_machine};
ghost use Rattle.sf_piece.specs.declared.deciding.SmallStep.TheVariants.{On};

use crate::fault::Fault;
use crate::run::Run;
use sf_check::Insn;
use sf_dom::{Facts, rules_are_sound};
use sf_sym::Cond;
use std::alloc::Global;

/// What became of a run by one instruction, or by one truth value of it.
#[derive(Drop)]
pub(crate) enum SmallStep {
    /// The run goes on.
    On,
    /// The facts leave both truth values open: the members on which it is false, and those on which it is true.
    Split(Run, Run),
    /// The last program has returned: the name is whole, and the answer is that of all programs.
    Settled,
    /// There is no member.
    Empty,
}

/// Which of the two truth values of a condition the facts leave.
#[derive(Drop)]
pub(crate) enum Decision {
    /// Both: the members on which it is false, and those on which it is true.
    Split(Run, Run),
    /// Only this one.
    Implied(bool),
    /// Neither: there is no member.
    Neither,
}

/// How many instructions a test skips where its result is `sense`.
fn skip_count(on_true: u8, on_false: u8, sense: bool) -> u8
    ensures { result ≡ (if sense then on_true else on_false) }
{
    if sense { on_true } else { on_false }
}

/// Moves the machine on: `insn` has met the truth value `sense`. At a division by X this says whether X is 0, and then
/// the program returns 0; else the machine stays, and can now divide. A return of A stays too, with one more bit.
fn meet(run: &mut Run, insn: Insn, sense: bool)
    requires standing { HasAtHand run.old insn }
    requires asks { Asks run.old.machine insn }
    ensures machine { AfterTruthValue run.old insn sense run.new.machine }
    ensures rest { run.new ≡ with_machine run.old run.new.machine }
{
    match insn {
        Insn::Branch(_, _, on_true, on_false) => {
            run.machine.place += 1 + skip_count(on_true, on_false, sense) as usize;
        }
        Insn::ReturnA => {
            run.machine.taken += 1;
            run.machine.value = 2 * run.machine.value + u32::from(sense);
        }
        // A division by X: no other instruction meets a truth value.
        _ => {
            if sense {
                run.machine.start_next(0);
            } else {
                run.machine.taken = 1;
            }
        }
    }
}

/// Takes a truth value that is the same on every member. Nothing is learnt from it.
pub(crate) fn take(run: &mut Run, insn: Insn, sense: bool) -> Result<(), Fault>
    requires lawful { IsLawfulPiece run.old }
    requires standing { HasAtHand run.old insn }
    requires foreseen { IsForeseen run.old insn sense }
    ensures step { IfOk result (λ _. IsSmallStep run.old run.new On) }
    ensures rule { IfOk result (λ _. IsNamedOn run.old insn sense run.new) }
{
    meet(run, insn, sense);
    run.name.push(sense)?;
    Ok(())
}

/// The run of those members on which the next truth value of `insn` is `sense`; `facts` are those of `child_facts`.
fn child(run: &Run, insn: Insn, cond: Cond, sense: bool, facts: Facts) -> Result<Run, Fault>
    requires lawful { IsLawfulPiece run.now }
    requires standing { HasAtHand run.now insn }
    requires query { IsQuery run.now insn cond }
    requires facts { AreChildFacts run.now cond sense facts }
    ensures lawful { IfOk result (λ c. IsLawfulPiece c) }
    ensures rule { IfOk result (λ c. IsSide (run.now, cond) insn sense c) }
{
    let mut side = run.fork()?;
    meet(&mut side, insn, sense);
    side.name.push(sense)?;
    side.conditions.push(Cond { sense, ..cond })?;
    side.facts = facts;
    Ok(side)
}

/// A copy of the facts that has learnt that `cond` has the result `sense`; `None` where that contradicts them.
fn child_facts(alloc: Global, run: &Run, cond: Cond, sense: bool) -> Result<Option<Facts>, Fault>
    requires lawful { IsLawfulPiece run.now }
    requires below { IsCondBelow (length run.now.pool) cond }
    requires plain { IsPlain run.now.stack → IsPlainCondition run.now.pool cond }
    ensures facts { IfOk result (λ o. MatchOption o (IsNever run.now cond sense)
        (λ fs. AreChildFacts run.now cond sense fs)) }
    ensures rule { IfOk result (λ o. MatchOption o
        (CantLearn run.now.facts run.now.pool (with_sense cond sense))
        (λ fs. LearnsBy run.now.facts fs run.now.pool (with_sense cond sense))) }
{
    // For the prover: facts that learn by the rules lose no input.
    rules_are_sound();
    let learnt = run
        .facts
        .with_cond(alloc, &run.pool, &Cond { sense, ..cond })?;
    Ok(learnt)
}

/// Learns the next truth value of `insn`, which `cond` tells, as false and as true, each from the same facts.
pub(crate) fn decide(alloc: Global, asked: &Run, insn: Insn, cond: Cond) -> Result<Decision, Fault>
    requires lawful { IsLawfulPiece asked.now }
    requires standing { HasAtHand asked.now insn }
    requires query { IsQuery asked.now insn cond }
    ensures right { IfOk result (IsRightDecision asked.now insn) }
    ensures rule { IfOk result (IsDecision (asked.now, cond) insn) }
{
    let Some(on_false) = child_facts(alloc, asked, cond, false)? else {
        // What was learnt isn't kept: by the rules an implied truth value adds nothing to the facts.
        let Some(_on_true) = child_facts(alloc, asked, cond, true)? else {
            return Ok(Decision::Neither);
        };
        return Ok(Decision::Implied(true));
    };
    let Some(on_true) = child_facts(alloc, asked, cond, true)? else {
        return Ok(Decision::Implied(false));
    };
    let false_run = child(asked, insn, cond, false, on_false)?;
    let true_run = child(asked, insn, cond, true, on_true)?;
    Ok(Decision::Split(false_run, true_run))
}

/// Goes on as was decided. An implied truth value is added to the name only.
pub(crate) fn carry_out(run: &mut Run, insn: Insn, decision: Decision) -> Result<SmallStep, Fault>
    requires lawful { IsLawfulPiece run.old }
    requires standing { HasAtHand run.old insn }
    requires right { IsRightDecision run.old insn decision }
    ensures step { IfOk result (IsSmallStep run.old run.new) }
    ensures rule { IfOk result (IsCarriedOut run.old insn decision run.new) }
{
    match decision {
        Decision::Split(on_false, on_true) => Ok(SmallStep::Split(on_false, on_true)),
        Decision::Implied(sense) => {
            take(run, insn, sense)?;
            Ok(SmallStep::On)
        }
        Decision::Neither => Ok(SmallStep::Empty),
    }
}

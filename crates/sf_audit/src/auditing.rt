//! The audit of a stack of filters.

ghost use Rattle.std.specs.Prelude.{◌≡◌, ◌⊎◌, ◌<◌, ◌≤◌, false, true, length, map, IfOk, IfErr};
ghost use Rattle.sf_audit.specs.Audits.{IsFoundOn, IsAudit, IsAuditOf, IsAuditRefusal, IsWrongCount};
ghost use Rattle.sf_crew.specs.Sweeps.{AreRightReplies};

use crate::outcome::Outcome;
use sf_ask::{Question, Reply};
use sf_book::Settled;
use sf_check::Stack;
use sf_crew::{Gate, explore, sweep};
use sf_policy::MOST_QUESTIONS;
use sf_stack::{Fault, stack_of};
use std::alloc::Global;
use std::sync::{Arc, Wait};
use std::thread::Threads;

/// Explores the stack by at most `budget` works, and judges the questions by what was found. `Memory` where the calling
/// thread or a worker that judges is refused memory, or something that is shared has too many owners. Another thread
/// that is refused memory while it explores just ends.
fn outcome_of<R: Threads + Wait + Sync, G: Gate>(
    rt: &R,
    alloc: Global,
    stack: Stack,
    questions: Vec<Question>,
    budget: u32,
    workers: usize,
    gate: &G,
) -> Result<Outcome, sf_crew::Fault>
    requires workers { (0 < workers) × (workers ≤ 64) }
    requires few { length questions.items ≤ 256 }
    ensures { IfOk result (IsFoundOn stack budget questions.items) }
{
    let stack = Arc::new(alloc, stack)?;
    let settled = explore(rt, alloc, stack, budget, workers, gate)?;
    let replies = sweep(rt, alloc, &settled, &questions, workers, gate)?;
    Ok(Outcome {
        settled,
        questions,
        replies,
    })
}

fn is_wrong_count(questions: &[Question]) -> bool
    ensures wrong { result ≡ true → IsWrongCount questions.now }
    ensures right { result ≡ false
        → (0 < length questions.now) × (length questions.now ≤ 256) }
{
    questions.is_empty() || questions.len() > MOST_QUESTIONS
}

/// The replies to further questions about an exploration that has ended, such as those of a control.
pub fn reply_to<R: Threads + Wait + Sync, G: Gate>(
    rt: &R,
    alloc: Global,
    settled: &Settled,
    questions: &[Question],
    workers: usize,
    gate: &G,
) -> Result<Vec<Reply>, Fault>
    requires workers { (0 < workers) × (workers ≤ 64) }
    ensures right { IfOk result (λ v. AreRightReplies settled.now questions.now v.items) }
    ensures refused { IfErr result (λ e. (e ≡ Fault.Memory)
        ⊎ ((e ≡ Fault.Count) × IsWrongCount questions.now)) }
{
    if is_wrong_count(questions) {
        return Err(Fault::Count);
    }
    sweep(rt, alloc, settled, questions, workers, gate).map_err(|_| Fault::Memory)
}

/// Audits a stack: explores it by at most `budget` works, and replies to each question. Where the budget doesn't
/// suffice, pieces are left outstanding, and replies may be unsettled. The gate sees each work before it is committed,
/// and each sheet of verdicts before it is entered. Budgets are meant from 1 to 1,000,000. Of more than one worker each
/// gets a thread, unless it can't be started or nothing is left to do.
pub fn audit_stack<R: Threads + Wait + Sync, G: Gate>(
    rt: &R,
    alloc: Global,
    stack: Stack,
    questions: Vec<Question>,
    budget: u32,
    workers: usize,
    gate: &G,
) -> Result<Outcome, Fault>
    requires workers { (0 < workers) × (workers ≤ 64) }
    ensures found { IfOk result (IsAuditOf stack questions.items budget) }
    ensures refused { IfErr result (λ e. (e ≡ Fault.Memory)
        ⊎ ((e ≡ Fault.Count) × IsWrongCount questions.items)) }
{
    if is_wrong_count(&questions) {
        return Err(Fault::Count);
    }
    outcome_of(rt, alloc, stack, questions, budget, workers, gate).map_err(|_| Fault::Memory)
}

/// Audits the stack that filter files spell, as `audit_stack` does. They stand in order of installation, the newest
/// last.
pub fn audit<R: Threads + Wait + Sync, G: Gate>(
    rt: &R,
    alloc: Global,
    filters: &[Vec<u8>],
    questions: Vec<Question>,
    budget: u32,
    workers: usize,
    gate: &G,
) -> Result<Outcome, Fault>
    requires workers { (0 < workers) × (workers ≤ 64) }
    ensures found { IfOk result (IsAudit (map (λ f. f.items) filters.now) questions.items budget) }
    ensures refused { IfErr result (λ e. (e ≡ Fault.Memory)
        ⊎ IsAuditRefusal (map (λ f. f.items) filters.now) questions.items e) }
{
    let stack = stack_of(alloc, filters)?;
    audit_stack(rt, alloc, stack, questions, budget, workers, gate)
}

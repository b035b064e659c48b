//! Replies to questions, from the tally of all regions.
ghost use Rattle.std.specs.Prelude.{◌≡◌, ◌<◌, ◌≤◌, ℕ, Some, true, false, length, IfOk, IfErr};
ghost use Rattle.sf_check.specs.Stacks.{IsPlain};
ghost use Rattle.sf_crew.specs.Sweeps.{IsFullTally, IsUnbroken, HasDoubt, IsReplyTo, AreRightReplies, IsRightReplyAt};
ghost use Rattle.sf_crew.specs.declared.fault.Fault.TheVariants.{Memory};

use crate::board::Tally;
use crate::fault::Fault;
use crate::gate::Gate;
use crate::sweeping::tally;
use sf_ask::laws::verdicts_have_one_result;
use sf_ask::{Question, Reply, Verdict, has_bit, judge};
use sf_book::Settled;
use sf_piece::laws::execution_has_one_result;
use std::alloc::Global;
use std::sync::Wait;
use std::thread::Threads;

/// The reply to a question on which no region has a hit. `_question` is there for the contract only.
fn reply_without_hit(settled: &Settled, _question: &Question, doubt: bool) -> Reply
    requires unbroken { (r : ℕ) → r < length settled.now.regions
        → IsUnbroken settled.now _question.now doubt r }
    requires doubtful { doubt ≡ true → HasDoubt settled.now _question.now }
    requires plain { IsPlain settled.now.stack → doubt ≡ false }
    ensures { IsReplyTo settled.now _question.now result }
{
    let left = settled.outstanding_count();
    if doubt {
        return Reply::Unsettled;
    }
    if left > 0 {
        Reply::Unsettled
    } else {
        Reply::Never
    }
}

/// The reply to the question q. The region at its least place is judged once more, which gives the same hit.
fn reply_of(
    alloc: Global,
    settled: &Settled,
    questions: &[Question],
    q: usize,
    tally: &Tally,
) -> Result<Reply, Fault>
    requires question { (q < length questions.now) × (q < 256) }
    requires tally { IsFullTally settled.now questions.now tally.now }
    ensures ok { IfOk result (IsRightReplyAt settled.now questions.now q) }
    ensures err { IfErr result (λ f. f ≡ Memory) }
{
    // For the prover: a region has one verdict.
    execution_has_one_result();
    verdicts_have_one_result();
    let _counts = settled.counts();
    let question = &questions[q];
    let Some(place) = tally.least[q] else {
        let doubt = has_bit(&tally.doubts, q);
        return Ok(reply_without_hit(settled, question, doubt));
    };
    let Verdict::Hit(input) = judge(alloc, settled, place, question)? else {
        unreachable!()
    };
    Ok(Reply::Allowed(input))
}

/// Replies to the questions, in their order: this many workers judge the regions by a board that they share. The gate
/// sees each sheet before it is entered. Waits for the workers.
pub fn sweep<R: Threads + Wait + Sync, G: Gate>(
    rt: &R,
    alloc: Global,
    settled: &Settled,
    questions: &[Question],
    workers: usize,
    gate: &G,
) -> Result<Vec<Reply>, Fault>
    requires workers { (0 < workers) × (workers ≤ 64) }
    requires questions { length questions.now ≤ 256 }
    ensures ok { IfOk result (λ v. AreRightReplies settled.now questions.now v.items) }
    ensures err { IfErr result (λ f. f ≡ Memory) }
{
    let full = tally(rt, alloc, settled, questions, workers, gate)?;
    let mut replies = Vec::new(alloc);
    for q in 0..questions.len() {
        let reply = reply_of(alloc, settled, questions, q, &full)?;
        replies.push(reply)?;
    }
    Ok(replies)
}

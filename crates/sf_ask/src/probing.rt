//! Which questions a region is to be judged on.

ghost use Rattle.std.specs.Prelude.{◌≡◌, ◌<◌, ◌≤◌, ℕ, false, length, All};
ghost use Rattle.sf_ask.specs.Probing.{IsProbeIn, AreProbesOf, IsRuledOutIfAsked, AreRuledOutBut};
ghost use Rattle.sf_ask.specs.QuestionBits.{has_bit};
ghost use Rattle.sf_ask.specs.declared.probe.Probe.{Probe as AProbe};
ghost use Rattle.sf_ask.specs.Sheets.{AreClearBut};

use crate::bits::set_bit;
use crate::confining::rules_out;
use crate::probe::{Probe, Probes};
use sf_book::Settled;
use sf_dom::Facts;
use sf_question::Question;
use sf_run::Action;
use sf_sym::NodeId;

/// Whether the probe's question asks about the action, and the facts don't rule it out at once.
#[tactic(auto, unfolding(crate::specs::Probing::IsRuledOutIfAsked))]
fn is_left_to_judge(facts: &Facts, questions: &[Question], action: Action, probe: &Probe) -> bool
    requires known { 16 ≤ length facts.now.known }
    requires probe { IsProbeIn questions.now probe.now }
    ensures { result ≡ false
        → IsRuledOutIfAsked facts.now questions.now action probe.now.question }
{
    let question = &questions[probe.question];
    question.actions().has(action) && !rules_out(facts, question)
}

/// Sets the bit of each probe's question that is left to judge.
fn add_questions_left(
    facts: &Facts,
    questions: &[Question],
    action: Action,
    probes: &[Probe],
    left: &mut [u64; 4],
)
    requires known { 16 ≤ length facts.now.known }
    requires questions { length questions.now ≤ 256 }
    requires probes { All (IsProbeIn questions.now) probes.now }
    ensures added { All (λ (p : AProbe). has_bit left.new p.question ≡ false
        → IsRuledOutIfAsked facts.now questions.now action p.question) probes.now }
    ensures kept { (q : ℕ) → has_bit left.new q ≡ false → has_bit left.old q ≡ false }
{
    for probe in probes {
        if is_left_to_judge(facts, questions, action, probe) {
            set_bit(left, probe.question);
        }
    }
}

/// The questions, as bits, that ask about the action and that the facts don't rule out at once.
fn questions_left(
    facts: &Facts,
    questions: &[Question],
    probes: &Probes,
    action: Action,
) -> [u64; 4]
    requires known { 16 ≤ length facts.now.known }
    requires questions { length questions.now ≤ 256 }
    requires probes { AreProbesOf questions.now probes.now }
    ensures { AreRuledOutBut facts.now questions.now action result }
{
    // Node 0 is the first word of the input, the call's number.
    let call = facts.known(NodeId(0));
    let mut left = [0u64; 4];
    let others = probes.others.as_slice();
    add_questions_left(facts, questions, action, others, &mut left);
    let by_call = probes.probes_of_calls(call.low, call.high);
    add_questions_left(facts, questions, action, by_call, &mut left);
    left
}

/// The questions, as bits, on which the region at the place `job` is to be judged. Its verdict on each other question
/// is clear.
pub fn questions_to_judge(
    settled: &Settled,
    job: usize,
    questions: &[Question],
    probes: &Probes,
) -> [u64; 4]
    requires job { job < length settled.now.regions }
    requires questions { length questions.now ≤ 256 }
    requires probes { AreProbesOf questions.now probes.now }
    ensures { AreClearBut settled.now questions.now job result }
{
    let region = settled.region(job);
    let piece = region.piece();
    let action = region.answer().action;
    questions_left(piece.facts(), questions, probes, action)
}

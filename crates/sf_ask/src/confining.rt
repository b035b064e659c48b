//! Facts, confined to the numbers that a question leaves for the words.

ghost use Rattle.std.specs.Prelude.{◌≡◌, ◌<◌, ◌≤◌, true, false, Ok, length, IfOk, IfErr, MatchBool, MatchOption};
ghost use Rattle.sf_dom.specs.Facts.{Covers, AreConfined, ConfinesWord, NoInput, HasIn, known_at};
ghost use Rattle.sf_question.specs.Breaking.{IsNumberOf, IsInQuestion};
ghost use Rattle.sf_question.specs.QuestionData.{is_whole};
ghost use Rattle.sf_ask.specs.Judging.{TakeInRange, TakeInMask, TakeInWord, TakeInQuestion, CantTakeInQuestion};
ghost use Rattle.sf_ask.specs.Probing.{IsRuledOut};
ghost use Rattle.sf_ask.specs.Searches.{IsInWordRange, HasMaskBits, IsOutside, CantTakeInRange, CantTakeInMask, CantTakeInWord};
ghost use Rattle.sf_ask.specs.Trying.{IsNumberBefore};
ghost use Rattle.sf_question.specs.declared.fault.Fault.TheVariants.{Memory};

use sf_dom::{Facts, rules_are_sound, rules_have_one_result};
use sf_question::{Fault, Question};
use sf_sym::{NodeId, Pool};
use std::alloc::Global;

/// Whether the range leaves no number out.
fn is_whole(range: (u32, u32)) -> bool
    ensures { result ≡ is_whole range }
{
    range.0 == 0 && range.1 == u32::MAX
}

/// Whether no number from `low` to `high` lies in the interval that is known for a word.
fn misses(facts: &Facts, word: usize, low: u32, high: u32) -> bool
    requires word { word < 16 }
    requires known { 16 ≤ length facts.now.known }
    ensures { result ≡ true → IsOutside (known_at facts.now.known word) low high }
{
    let known = facts.known(NodeId(word as u32));
    known.high < low || high < known.low
}

/// Whether the known interval of some word has no number of the question's range for it. This is a quick look: it
/// copies nothing, and leaves out masks, known bits and excluded numbers.
pub(crate) fn rules_out(facts: &Facts, question: &Question) -> bool
    requires { 16 ≤ length facts.now.known }
    ensures { result ≡ true → IsRuledOut facts.now question.now }
{
    for word in 0..16 {
        let (low, high) = question.range(word);
        if !is_whole((low, high)) && misses(facts, word, low, high) {
            return true;
        }
    }
    false
}

/// Confines a word to the question's range for it. `false`: no number is left; the facts stay as they were.
fn confine_range(
    alloc: Global,
    facts: &mut Facts,
    pool: &Pool,
    question: &Question,
    word: usize,
) -> Result<bool, Fault>
    requires covers { Covers facts.old pool.now }
    requires word { word < 16 }
    ensures confined { IfOk result (λ b. MatchBool b
        (ConfinesWord facts.old facts.new pool.now word (IsInWordRange question.now word))
        (NoInput facts.old pool.now (HasIn word (IsInWordRange question.now word)))) }
    ensures rule { IfOk result (λ b. MatchBool b
        (TakeInRange question.now word pool.now facts.old facts.new)
        (CantTakeInRange question.now word pool.now facts.old)) }
    ensures err { IfErr result (λ f. f ≡ Memory) }
{
    // For the prover: facts that are confined by the rules lose no such input.
    rules_are_sound();
    let (low, high) = question.range(word);
    if is_whole((low, high)) {
        return Ok(true);
    }
    facts
        .confine(alloc, pool, word, low, high)
        .map_err(|_| Fault::Memory)
}

/// Confines a word to the numbers that equal the question's value for it on all bits of the mask. `false`: no number is
/// left; the facts stay as they were.
fn confine_mask(
    alloc: Global,
    facts: &mut Facts,
    pool: &Pool,
    question: &Question,
    word: usize,
) -> Result<bool, Fault>
    requires covers { Covers facts.old pool.now }
    requires word { word < 16 }
    ensures confined { IfOk result (λ b. MatchBool b
        (ConfinesWord facts.old facts.new pool.now word (HasMaskBits question.now word))
        (NoInput facts.old pool.now (HasIn word (HasMaskBits question.now word)))) }
    ensures rule { IfOk result (λ b. MatchBool b
        (TakeInMask question.now word pool.now facts.old facts.new)
        (CantTakeInMask question.now word pool.now facts.old)) }
    ensures err { IfErr result (λ f. f ≡ Memory) }
{
    // For the prover: facts that are confined by the rules lose no such input.
    rules_are_sound();
    let (mask, value) = question.mask(word);
    if mask == 0 {
        return Ok(true);
    }
    facts
        .confine_bits(alloc, pool, word, mask, value)
        .map_err(|_| Fault::Memory)
}

/// Confines a word to the question's range and mask. `false`: no number is left; the facts may be confined to the range
/// already.
fn confine_word(
    alloc: Global,
    facts: &mut Facts,
    pool: &Pool,
    question: &Question,
    word: usize,
) -> Result<bool, Fault>
    requires covers { Covers facts.old pool.now }
    requires word { word < 16 }
    ensures confined { IfOk result (λ b. MatchBool b
        (ConfinesWord facts.old facts.new pool.now word (IsNumberOf question.now word))
        (NoInput facts.old pool.now (HasIn word (IsNumberOf question.now word)))) }
    ensures rule { IfOk result (λ b. MatchBool b
        (TakeInWord question.now word pool.now facts.old facts.new)
        (CantTakeInWord question.now word pool.now facts.old)) }
    ensures err { IfErr result (λ f. f ≡ Memory) }
{
    if !confine_range(alloc, facts, pool, question, word)? {
        return Ok(false);
    }
    confine_mask(alloc, facts, pool, question, word)
}

/// A copy of the facts, confined to the question; `None` where they contradict.
pub(crate) fn facts_in_question(
    alloc: Global,
    facts: &Facts,
    pool: &Pool,
    question: &Question,
) -> Result<Option<Facts>, Fault>
    requires { Covers facts.now pool.now }
    ensures confined { IfOk result (λ o. MatchOption o
        (NoInput facts.now pool.now (IsInQuestion question.now))
        (λ f. AreConfined facts.now f pool.now (IsInQuestion question.now)
        (IsNumberBefore question.now 16))) }
    ensures rule { IfOk result (λ o. MatchOption o
        (CantTakeInQuestion question.now pool.now facts.now)
        (λ f. TakeInQuestion question.now pool.now facts.now f)) }
    ensures err { IfErr result (λ f. f ≡ Memory) }
{
    // For the prover: the rules of facts have one result.
    rules_have_one_result();
    let mut confined = facts.fork().map_err(|_| Fault::Memory)?;
    for word in 0..16 {
        if !confine_word(alloc, &mut confined, pool, question, word)? {
            return Ok(None);
        }
    }
    Ok(Some(confined))
}

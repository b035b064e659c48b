//! Verdicts on regions.

ghost use Rattle.std.specs.Prelude.{◌≡◌, ◌<◌, length, IfOk, IfErr, IfSome, MatchOption};
ghost use Rattle.sf_check.specs.Stacks.{IsPlain};
ghost use Rattle.sf_question.specs.declared.fault.Fault.TheVariants.{Memory};
ghost use Rattle.sf_piece.specs.Pieces.{is_member};
ghost use Rattle.sf_ask.specs.Judging.{FindsInQuestion, HasVerdictAt};
ghost use Rattle.sf_ask.specs.Verdicts.{IsRightVerdict, TellsTriedAt, IsDecisive};
ghost use Rattle.sf_ask.specs.Searches.{IsRightSearch, TellsTried};
ghost use Rattle.sf_ask.specs.Trying.{IsLeastInput};

use crate::confining::facts_in_question;
use crate::verdict::Verdict;
use sf_book::Settled;
use sf_dom::Facts;
use sf_insn::Input;
use sf_piece::Piece;
use sf_question::{Fault, Question};
use std::alloc::Global;

/// The input that has in each word the least number that the facts leave for it. It is never `None`.
pub(crate) fn least_input(facts: &Facts) -> Option<Input>
    ensures { MatchOption result ⊥ (λ d. IsLeastInput facts.now d) }
{
    let mut words = [0; 16];
    for word in 0..16 {
        let number = facts.least(word)?;
        words[word] = number;
    }
    Some(Input { words })
}

/// Whether the input is a member of the piece, as far as conditions on words of the input and constants tell. Most
/// conditions are of this kind. `None` where one on a computed node comes first.
fn meets_without_computing(piece: &Piece, input: &Input) -> Option<bool>
    ensures { IfSome result (λ b. b ≡ is_member piece.now input.now) }
{
    for i in 0..piece.cond_count() {
        if !piece.pool().holds_without_computing(&piece.cond(i), input)? {
            return Some(false);
        }
    }
    Some(true)
}

/// Whether the input is a member of the piece, found from the values of all nodes.
fn meets_by_computing(alloc: Global, piece: &Piece, input: &Input) -> Result<bool, Fault>
    ensures tells { IfOk result (λ b. b ≡ is_member piece.now input.now) }
    ensures err { IfErr result (λ f. f ≡ Memory) }
{
    let values = piece
        .pool()
        .values(alloc, input)
        .map_err(|_| Fault::Memory)?;
    for i in 0..piece.cond_count() {
        let cond = piece.cond(i);
        if !cond.is_met(values.as_slice()) {
            return Ok(false);
        }
    }
    Ok(true)
}

/// Whether the input is a member of the piece. Nodes are computed only where `meets_without_computing` gives `None`.
pub(crate) fn is_member_of(alloc: Global, piece: &Piece, input: &Input) -> Result<bool, Fault>
    ensures tells { IfOk result (λ b. b ≡ is_member piece.now input.now) }
    ensures err { IfErr result (λ f. f ≡ Memory) }
{
    if let Some(is_member) = meets_without_computing(piece, input) {
        return Ok(is_member);
    }
    meets_by_computing(alloc, piece, input)
}

/// Looks for a member of the piece that is in the question, whatever actions this asks about.
fn search(alloc: Global, piece: &Piece, question: &Question) -> Result<Verdict, Fault>
    ensures right { IfOk result (IsRightSearch piece.now question.now) }
    ensures tried { IfOk result (TellsTried piece.now question.now) }
    ensures rule { IfOk result (FindsInQuestion piece.now question.now) }
    ensures decisive { IsPlain piece.now.stack → IfOk result IsDecisive }
    ensures err { IfErr result (λ f. f ≡ Memory) }
{
    let known = piece.facts();
    let Some(facts) = facts_in_question(alloc, known, piece.pool(), question)? else {
        return Ok(Verdict::Clear);
    };
    let Some(input) = least_input(&facts) else {
        return Ok(Verdict::Doubt);
    };
    if !is_member_of(alloc, piece, &input)? {
        return Ok(Verdict::Doubt);
    }
    Ok(Verdict::Hit(input))
}

/// The verdict on the settled region at this place in the order of names.
///
/// One input is tried: it has in each word the least number that the region's facts leave, confined to the question. A
/// `Hit` is this input. `Doubt`: it isn't a member of the region.
pub fn judge(
    alloc: Global,
    settled: &Settled,
    region: usize,
    question: &Question,
) -> Result<Verdict, Fault>
    requires { region < length settled.now.regions }
    ensures right { IfOk result (IsRightVerdict settled.now region question.now) }
    ensures tried { IfOk result (TellsTriedAt settled.now region question.now) }
    ensures rule { IfOk result (HasVerdictAt settled.now region question.now) }
    ensures decisive { IsPlain settled.now.stack → IfOk result IsDecisive }
    ensures err { IfErr result (λ f. f ≡ Memory) }
{
    let settled_region = settled.region(region);
    if !question.actions().has(settled_region.answer().action) {
        return Ok(Verdict::Clear);
    }
    search(alloc, settled_region.piece(), question)
}

//! Sheets of verdicts.

ghost use Rattle.std.specs.Prelude.{◌≡◌, ◌<◌, ◌≤◌, ℕ, not, length, map, IfOk, IfErr, Some, None};
ghost use Rattle.sf_ask.specs.QuestionBits.{has_bit};
ghost use Rattle.sf_ask.specs.Sheets.{SheetData, verdict_at, clear_if_wanted, is_skipped, is_hit, is_doubt, is_clear_or_skipped, AreClearBut, IsRightOn, IsRightWhereGiven, IsRightSheet, HasWanted};
ghost use Rattle.std.specs.List.{list_all};
ghost use Rattle.sf_question.specs.declared.fault.Fault.TheVariants.{Memory};

use crate::bits::{has_bit, share_none};
use crate::judging::judge;
use crate::verdict::Verdict;
use sf_book::Settled;
use sf_question::{Fault, Question};
use std::alloc::Global;
use std::marker::Model;
use std::snapshot::Snapshot;

/// The verdicts on one settled region: for each question a verdict, or none where the question was skipped.
#[derive(Drop)]
pub struct Sheet {
    // For the prover: the regions and the questions that the sheet is about.
    settled: Snapshot<Settled>,
    questions: Vec<Snapshot<Question>>,
    // The place of the region.
    job: usize,
    // The questions that are asked for, as bits; the others are skipped.
    wanted: [u64; 4],
    // `None` where it was known before judging that each verdict that is asked for is clear, as on most sheets.
    verdicts: Option<Vec<Option<Verdict>>>,
    // Whether no verdict is a hit or a doubt.
    finds_nothing: bool,
}

impl Model for Sheet {
    ghost use Rattle.std.specs.Prelude.{◌≡◌, ◌≤◌, length, map, option_map};
    ghost use Rattle.std.specs.List.{list_all};
    ghost use Rattle.sf_ask.specs.Sheets.{SheetData, IsRightSheet, is_clear_or_skipped, shown_verdicts};

    ghost Value = { SheetData };

    ghost view = { λ s. record {
      settled = s.settled.value;
      questions = map (λ q. q.value) s.questions.items;
      job = s.job;
      verdicts = shown_verdicts s.wanted (length s.questions.items)
          (option_map (λ v. v.items) s.verdicts);
    } };

    ghost invariant = { λ s. IsRightSheet (record {
      settled = s.settled.value;
      questions = map (λ q. q.value) s.questions.items;
      job = s.job;
      verdicts = shown_verdicts s.wanted (length s.questions.items)
          (option_map (λ v. v.items) s.verdicts);
    }) × (s.finds_nothing ≡ list_all is_clear_or_skipped
        (shown_verdicts s.wanted (length s.questions.items)
        (option_map (λ v. v.items) s.verdicts))) × (length s.questions.items ≤ 256) };
}

/// For the prover: a snapshot of each question, which takes no bytes. By these contracts see what a sheet or a board is
/// about.
pub fn snapshots(alloc: Global, questions: &[Question]) -> Result<Vec<Snapshot<Question>>, Fault>
    ensures each { IfOk result (λ v. map (λ q. q.value) v.items ≡ questions.now) }
    ensures err { IfErr result (λ f. f ≡ Memory) }
{
    let mut all = Vec::with_capacity(alloc, questions.len())?;
    for question in questions {
        all.push_reserved(Snapshot::of(question));
    }
    Ok(all)
}

/// Whether the verdict is clear, or there is none.
fn is_clear(verdict: Option<Verdict>) -> bool
    ensures { result ≡ is_clear_or_skipped verdict }
{
    match verdict {
        None | Some(Verdict::Clear) => true,
        Some(Verdict::Hit(_)) | Some(Verdict::Doubt) => false,
    }
}

/// The verdict of the region at the place `job` on the question q. It is judged only where the question's bit in
/// `to_judge` is set, and else clear.
fn verdict_on(
    alloc: Global,
    settled: &Settled,
    job: usize,
    questions: &[Question],
    q: usize,
    to_judge: &[u64; 4],
) -> Result<Verdict, Fault>
    requires job { job < length settled.now.regions }
    requires question { (q < length questions.now) × (q < 256) }
    requires clear { AreClearBut settled.now questions.now job to_judge.now }
    ensures right { IfOk result (IsRightOn settled.now questions.now job q) }
    ensures err { IfErr result (λ f. f ≡ Memory) }
{
    if !has_bit(to_judge, q) {
        return Ok(Verdict::Clear);
    }
    judge(alloc, settled, job, &questions[q])
}

/// The verdict for the question q on a sheet whose verdicts are all clear.
fn clear_verdict(wanted: &[u64; 4], q: usize) -> Option<Verdict>
    requires { q < 256 }
    ensures { result ≡ clear_if_wanted wanted.now q }
{
    if has_bit(wanted, q) {
        Some(Verdict::Clear)
    } else {
        None
    }
}

/// The verdict of the region at the place `job` on each question, in order; `None` where the question's bit in `wanted`
/// isn't set.
fn verdicts_on(
    alloc: Global,
    settled: &Settled,
    job: usize,
    questions: &[Question],
    to_judge: &[u64; 4],
    wanted: &[u64; 4],
) -> Result<Vec<Option<Verdict>>, Fault>
    requires job { job < length settled.now.regions }
    requires questions { length questions.now ≤ 256 }
    requires clear { AreClearBut settled.now questions.now job to_judge.now }
    ensures each { IfOk result (λ v. length v.items ≡ length questions.now) }
    ensures right { IfOk result (λ v. (q : ℕ) → q < length questions.now
        → IsRightWhereGiven settled.now questions.now job q (verdict_at v.items q)) }
    ensures wanted { IfOk result (λ v. (q : ℕ) → q < length questions.now
        → is_skipped (verdict_at v.items q) ≡ not (has_bit wanted.now q)) }
    ensures err { IfErr result (λ f. f ≡ Memory) }
{
    let mut verdicts = Vec::with_capacity(alloc, questions.len())?;
    for q in 0..questions.len() {
        let verdict = if has_bit(wanted, q) {
            Some(verdict_on(alloc, settled, job, questions, q, to_judge)?)
        } else {
            None
        };
        verdicts.push(verdict)?;
    }
    Ok(verdicts)
}

/// Whether there is neither a hit nor a doubt among the verdicts.
fn are_clear(verdicts: &[Option<Verdict>]) -> bool
    ensures { result ≡ list_all is_clear_or_skipped verdicts.now }
{
    verdicts.iter().all(|verdict| is_clear(*verdict))
}

impl Sheet {
    /// The sheet of the region at the place `job`, with a verdict on each question whose bit in `wanted` is set. Bits
    /// past the last question are ignored.
    pub fn of(
        alloc: Global,
        settled: &Settled,
        job: usize,
        questions: &[Question],
        wanted: [u64; 4],
    ) -> Result<Sheet, Fault>
        requires job { job < length settled.now.regions }
        requires questions { length questions.now ≤ 256 }
        ensures settled { IfOk result (λ s. s.settled ≡ settled.now) }
        ensures questions { IfOk result (λ s. s.questions ≡ questions.now) }
        ensures job { IfOk result (λ s. s.job ≡ job) }
        ensures wanted { IfOk result (HasWanted wanted) }
        ensures err { IfErr result (λ f. f ≡ Memory) }
    {
        Sheet::judge(alloc, settled, job, questions, &[u64::MAX; 4], wanted)
    }

    /// The sheet that `of` makes, for a caller who knows that the verdict is clear on each question whose bit in
    /// `to_judge` isn't set.
    pub fn judge(
        alloc: Global,
        settled: &Settled,
        job: usize,
        questions: &[Question],
        to_judge: &[u64; 4],
        wanted: [u64; 4],
    ) -> Result<Sheet, Fault>
        requires job { job < length settled.now.regions }
        requires questions { length questions.now ≤ 256 }
        requires clear { AreClearBut settled.now questions.now job to_judge.now }
        ensures settled { IfOk result (λ s. s.settled ≡ settled.now) }
        ensures questions { IfOk result (λ s. s.questions ≡ questions.now) }
        ensures job { IfOk result (λ s. s.job ≡ job) }
        ensures wanted { IfOk result (HasWanted wanted) }
        ensures err { IfErr result (λ f. f ≡ Memory) }
    {
        // Each verdict that is asked for is known to be clear: no list is made.
        if share_none(to_judge, &wanted) {
            return Ok(Sheet {
                settled: Snapshot::of(settled),
                questions: snapshots(alloc, questions)?,
                job,
                wanted,
                verdicts: None,
                finds_nothing: true,
            });
        }
        let listed = verdicts_on(alloc, settled, job, questions, to_judge, &wanted)?;
        let finds_nothing = are_clear(listed.as_slice());
        Ok(Sheet {
            settled: Snapshot::of(settled),
            questions: snapshots(alloc, questions)?,
            job,
            wanted,
            verdicts: Some(listed),
            finds_nothing,
        })
    }

    /// The place of the region in the order of names.
    pub fn job(&self) -> usize
        ensures job { result ≡ self.now.job }
        ensures right { IsRightSheet self.now }
    {
        self.job
    }

    /// How many questions there are, with those that were skipped.
    pub fn question_count(&self) -> usize
        ensures count { result ≡ length self.now.questions }
        ensures right { IsRightSheet self.now }
    {
        self.questions.len()
    }

    /// The verdict on the question q; `None` where it was skipped.
    pub fn verdict(&self, q: usize) -> Option<Verdict>
        requires { q < length self.now.questions }
        ensures value { result ≡ verdict_at self.now.verdicts q }
        ensures right { IsRightWhereGiven self.now.settled self.now.questions
            self.now.job q result }
    {
        match &self.verdicts {
            Some(listed) => listed[q],
            None => clear_verdict(&self.wanted, q),
        }
    }

    /// Whether there is neither a hit nor a doubt on any question.
    pub fn finds_nothing(&self) -> bool
        ensures { result ≡ list_all is_clear_or_skipped self.now.verdicts }
    {
        self.finds_nothing
    }

    /// Whether there is a hit on the question q.
    pub fn is_hit(&self, q: usize) -> bool
        requires { q < length self.now.questions }
        ensures { result ≡ is_hit (verdict_at self.now.verdicts q) }
    {
        matches!(self.verdict(q), Some(Verdict::Hit(_)))
    }

    /// Whether the region is in doubt for the question q.
    pub fn is_doubt(&self, q: usize) -> bool
        requires { q < length self.now.questions }
        ensures { result ≡ is_doubt (verdict_at self.now.verdicts q) }
    {
        matches!(self.verdict(q), Some(Verdict::Doubt))
    }

    /// Whether the question q was skipped.
    pub fn is_skipped(&self, q: usize) -> bool
        requires { q < length self.now.questions }
        ensures { result ≡ is_skipped (verdict_at self.now.verdicts q) }
    {
        self.verdict(q).is_none()
    }
}

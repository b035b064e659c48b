//! Probes: which call a question is about, made once for many regions.

ghost use Rattle.std.specs.Prelude.{◌≡◌, ◌<◌, ◌≤◌, length, IfOk, IfErr, Contains, IsPermutation};
ghost use Rattle.std.specs.List.Sorted.{IsNonDecreasingBy};
ghost use Rattle.sf_ask.specs.Probing.{has_one_call, IsProbeIn, AreProbes, AreProbesOf};
ghost use Rattle.sf_ask.specs.declared.probe.Probe.{Probe as AProbe};
ghost use Rattle.sf_question.specs.declared.fault.Fault.TheVariants.{Memory};

use sf_question::{Fault, Question};
use std::alloc::Global;

/// The place of a question, and its range for the first word, the call's number.
#[derive(Clone, Copy, Debug, PartialEq, Eq)]
pub(crate) struct Probe {
    pub(crate) question: usize,
    pub(crate) low: u32,
    pub(crate) high: u32,
}

impl Probe {
    /// The probe of the question at a place.
    fn of(questions: &[Question], place: usize) -> Probe
        requires { place < length questions.now }
        ensures place { result.question ≡ place }
        ensures probe { IsProbeIn questions.now result }
    {
        let (low, high) = questions[place].range(0);
        Probe {
            question: place,
            low,
            high,
        }
    }

    /// Whether the question is about only one call.
    fn has_one_call(&self) -> bool
        ensures { result ≡ has_one_call self.now }
    {
        self.low == self.high
    }
}

/// The probes of the questions about one call, and those of the other questions, in the order of the questions.
fn probes_of(alloc: Global, questions: &[Question]) -> Result<(Vec<Probe>, Vec<Probe>), Fault>
    ensures each { IfOk result (λ r. AreProbes questions.now (length questions.now)
        r.0.items r.1.items) }
    ensures err { IfErr result (λ f. f ≡ Memory) }
{
    let mut by_call = Vec::new(alloc);
    let mut others = Vec::new(alloc);
    for place in 0..questions.len() {
        let probe = Probe::of(questions, place);
        if probe.has_one_call() {
            by_call.push(probe)?;
        } else {
            others.push(probe)?;
        }
    }
    Ok((by_call, others))
}

/// Puts probes in ascending order of their low ends, in place.
fn put_in_order(probes: &mut Vec<Probe>)
    ensures permutation { IsPermutation probes.old.items probes.new.items }
    ensures ascending { IsNonDecreasingBy (λ (p : AProbe). p.low) probes.new.items }
{
    probes.sort_unstable_by_key(|probe| probe.low);
}

/// The probes of questions, made once for all regions. Most questions are about only one call. Of their probes, only
/// those in the known interval of the call's number are looked at for a region.
#[derive(Drop)]
pub struct Probes {
    // In ascending order of the call's number.
    pub(crate) by_call: Vec<Probe>,
    // In the order of the questions.
    pub(crate) others: Vec<Probe>,
}

impl Probes {
    /// The probes of these questions.
    pub fn of(alloc: Global, questions: &[Question]) -> Result<Probes, Fault>
        requires { length questions.now ≤ 256 }
        ensures ok { IfOk result (AreProbesOf questions.now) }
        ensures err { IfErr result (λ f. f ≡ Memory) }
    {
        let (mut by_call, others) = probes_of(alloc, questions)?;
        put_in_order(&mut by_call);
        Ok(Probes { by_call, others })
    }

    /// The probes of the questions about one call whose number is from `low` to `high`.
    pub(crate) fn probes_of_calls(&self, low: u32, high: u32) -> &[Probe]
        requires { IsNonDecreasingBy (λ (p : AProbe). p.low) self.now.by_call.items }
        ensures all { (p : AProbe) → Contains self.now.by_call.items p → low ≤ p.low
            → p.low ≤ high → Contains result.now p }
        ensures only { (p : AProbe) → Contains result.now p
            → Contains self.now.by_call.items p }
    {
        let by_call = self.by_call.as_slice();
        let from = by_call.partition_point(|probe| probe.low < low);
        let to = by_call.partition_point(|probe| probe.low <= high);
        // `from` may be past `to` only where `low` is above `high`.
        &by_call[from.min(to)..to]
    }
}

//! What a profile says, and its writer may not mean: comparisons under a mask with a bit outside it, and ERRNO 0.

ghost use Rattle.std.specs.Prelude.{◌≡◌, IfErr, IfOk};
ghost use Rattle.std.specs.List.{list_any};
ghost use Rattle.sf_profile.specs.Cautions.{AreLooseFor, HaveZeroErrors, has_loose_mask, is_loose, is_masked, loose_rules};
ghost use Rattle.sf_profile.specs.Filters.{IsInText, IsRefusedText};

use crate::fault::Fault;
use crate::read::{ProfileRule, read_file};
use crate::rules::{Comparing, Comparison};
use crate::settings::Settings;
use crate::text::tree_of;
use crate::zeros::zeros_of;
use std::alloc::{AllocError, Global};

fn is_masked(comparing: Comparing) -> bool
    ensures { result ≡ is_masked comparing }
{
    matches!(comparing, Comparing::MaskedEqual)
}

/// Whether a comparison under a mask asks for a number with a bit outside the mask. That bit counts for nothing.
fn is_loose(comparison: Comparison) -> bool
    ensures { result ≡ is_loose comparison }
{
    is_masked(comparison.comparing)
        && comparison.value_two & comparison.value != comparison.value_two
}

fn has_loose(comparisons: &[Comparison]) -> bool
    ensures { result ≡ list_any is_loose comparisons.now }
{
    comparisons.iter().any(|comparison| is_loose(*comparison))
}

fn has_loose_mask(rule: &ProfileRule<'_>) -> bool
    ensures { result ≡ has_loose_mask rule.now }
{
    rule.applies && has_loose(&rule.comparisons)
}

fn loose_rules(alloc: Global, rules: &[ProfileRule<'_>]) -> Result<Vec<usize>, AllocError>
    ensures { IfOk result (λ v. v.items ≡ loose_rules rules.now) }
{
    (1..rules.len() + 1)
        .zip(rules)
        .filter(|(_, rule)| has_loose_mask(rule))
        .map(|(number, _)| number)
        .collect(alloc)
}

/// The numbers, from 1, of the rules that apply and have an `SCMP_CMP_MASKED_EQ` whose `valueTwo` has a bit outside its
/// mask, which is `value`. The refusals are those of `profile`, but for `TooLong`.
#[tactic(auto, using(crate::proofs::file::FileLemmas::in_text, crate::proofs::file::FileLemmas::refused_text))]
pub fn loose_masks(alloc: Global, settings: &Settings, bytes: &[u8]) -> Result<Vec<usize>, Fault>
    ensures loose { IfOk result (λ v. IsInText settings.now (AreLooseFor v.items) bytes.now) }
    ensures refused { IfErr result (λ e. IsRefusedText settings.now bytes.now e) }
{
    let file = tree_of(alloc, bytes)?;
    let profile = read_file(alloc, settings, &file)?;
    let numbers = loose_rules(alloc, &profile.rules)?;
    Ok(numbers)
}

/// Numbers of calls that a profile answers by ERRNO 0: the call isn't made, and the program is told that it succeeded.
/// They are found by trying what the rules suggest, so a number may be missing; but each call that a rule answers so,
/// and each of a set's calls where the default does, is tried.
#[tactic(auto, using(crate::proofs::file::FileLemmas::in_text, crate::proofs::file::FileLemmas::refused_text, crate::proofs::file::FileLemmas::long_text))]
pub fn zero_errors(alloc: Global, settings: &Settings, bytes: &[u8]) -> Result<Vec<u32>, Fault>
    ensures zeros { IfOk result (λ v. IsInText settings.now (HaveZeroErrors settings.now v.items)
        bytes.now) }
    ensures refused { IfErr result (λ e. IsRefusedText settings.now bytes.now e) }
{
    let file = tree_of(alloc, bytes)?;
    let profile = read_file(alloc, settings, &file)?;
    let numbers = zeros_of(alloc, settings, &profile)?;
    Ok(numbers)
}

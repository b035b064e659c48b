//! The filter of a profile, from the bytes of its file.

ghost use Rattle.std.specs.Prelude.{◌≡◌, ◌⊎◌, string_bytes, IfOk, IfErr};
ghost use Rattle.sf_profile.specs.Filters.{IsFilterFor, IsRefusedText, IsTooLong, MakesFilterOf};
ghost use Rattle.sf_profile.specs.Notes.{AreNotesFor, AreNotesOfText, AreUnknownOf};

use crate::fault::Fault;
use crate::filter::filter_of;
use crate::plan::plan_of;
use crate::read::{Profile, read_file};
use crate::settings::Settings;
use crate::telling::{notes_text, nowhere_words};
use crate::text::tree_of;
use std::alloc::Global;

#[tactic(auto, using(crate::proofs::ShortLemmas::profile_long))]
pub(crate) fn filter_for(
    alloc: Global,
    settings: &Settings,
    profile: &Profile<'_>,
) -> Result<Vec<u8>, Fault>
    ensures made { IfOk result (λ v. IsFilterFor settings.now v.items profile.now) }
    ensures refused { IfErr result (λ e. (e ≡ Fault.Memory) ⊎ ((e ≡ Fault.TooLong)
        × IsTooLong settings.now profile.now)) }
{
    let plan = plan_of(alloc, settings, profile)?;
    let filter = filter_of(alloc, &plan)?;
    Ok(filter)
}

/// The filter that the profile in a file means, as bytes: a program that answers each input as the profile does, for
/// comparing with what is installed, and not for installing.
///
/// Refusals come in this order: `Syntax`; `RuleKey` or `Key` where a key comes twice; for the head `Key` (also where
/// not all runtimes would find the same profile, see `profile_in`), `Actions`, `Range` and `Set`; then, rule after
/// rule, `RuleKey`, `RuleCount`, `RuleName`, `RuleUnknown`, `RuleActions` and `RuleRange`; then `TooLong`.
#[tactic(auto, using(crate::proofs::file::FileLemmas::in_text, crate::proofs::file::FileLemmas::refused_text, crate::proofs::file::FileLemmas::long_text))]
pub fn profile(alloc: Global, settings: &Settings, bytes: &[u8]) -> Result<Vec<u8>, Fault>
    ensures made { IfOk result (λ v. MakesFilterOf settings.now bytes.now v.items) }
    ensures refused { IfErr result (λ e. IsRefusedText settings.now bytes.now e) }
{
    let file = tree_of(alloc, bytes)?;
    let profile = read_file(alloc, settings, &file)?;
    let filter = filter_for(alloc, settings, &profile)?;
    Ok(filter)
}

fn notes_for(alloc: Global, settings: &Settings, profile: &Profile<'_>) -> Result<String, Fault>
    ensures notes { IfOk result (λ t. AreNotesFor settings.now (string_bytes t) profile.now) }
    ensures refused { IfErr result (λ e. (e ≡ Fault.Memory) ⊎ ((e ≡ Fault.TooLong)
        × IsTooLong settings.now profile.now)) }
{
    let filter = filter_for(alloc, settings, profile)?;
    // An instruction has eight bytes.
    let text = notes_text(alloc, settings, profile, filter.len() / 8)?;
    Ok(text)
}

/// The notes on the profile in a file: its default and its sets of calls; how many rules it has, and how many of them
/// apply; how many different names these have; for which of them no set in `settings.calls` has a call; and how many
/// instructions its filter has. The refusals are those of `profile`.
#[tactic(auto, using(crate::proofs::file::FileLemmas::in_text, crate::proofs::file::FileLemmas::refused_text, crate::proofs::file::FileLemmas::long_text))]
pub fn notes(alloc: Global, settings: &Settings, bytes: &[u8]) -> Result<String, Fault>
    ensures notes { IfOk result (λ t. AreNotesOfText settings.now bytes.now (string_bytes t)) }
    ensures refused { IfErr result (λ e. IsRefusedText settings.now bytes.now e) }
{
    let file = tree_of(alloc, bytes)?;
    let profile = read_file(alloc, settings, &file)?;
    let text = notes_for(alloc, settings, &profile)?;
    Ok(text)
}

/// The names that are passed over where `settings.skip_unknown` is true, each once, with a blank before each: no set in
/// `settings.calls` has such a call, nor has another machine that libseccomp knows. Only rules that apply count. The
/// refusals are those of `profile`, but for `TooLong`.
#[tactic(auto, using(crate::proofs::file::FileLemmas::in_text, crate::proofs::file::FileLemmas::refused_text))]
pub fn unknown_names(alloc: Global, settings: &Settings, bytes: &[u8]) -> Result<String, Fault>
    ensures words { IfOk result (λ t. AreUnknownOf settings.now bytes.now (string_bytes t)) }
    ensures refused { IfErr result (λ e. IsRefusedText settings.now bytes.now e) }
{
    let file = tree_of(alloc, bytes)?;
    let profile = read_file(alloc, settings, &file)?;
    let words = nowhere_words(alloc, settings, &profile.rules)?;
    Ok(words)
}

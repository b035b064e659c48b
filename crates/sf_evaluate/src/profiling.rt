//! The subcommand `profile`: writes the filter that a JSON profile means, or notes on the profile.

ghost use Rattle.std.specs.Prelude.{◌≡◌, ◌⊎◌, ℕ, List, true, false, IfOk, IfErr, OnOk};
ghost use Rattle.clap.specs.Words.{found_of, rows_of};
ghost use Rattle.sf_stack.specs.declared.fault.Fault.TheVariants.{Write as WriteFault};
ghost use Rattle.sf_evaluate.specs.declared.fault.Fault.TheVariants.{Other};
ghost use Rattle.sf_evaluate.specs.Profiles.{IsReadFor, RefusesNamesOf, RefusesProfile, RefusesProfileOf, WritesOf, WritesProfile, profile_words_fit};

use crate::calls::calls_of;
use crate::checking::print;
use crate::explaining::{Cause, Notes};
use crate::fault::Fault;
use crate::files::{FileRole, Files, read_file, read_needed_names};
use crate::words::{profile_words_fit, settings_of};
use clap::ArgMatches;
use sf_command_line::{text_of, wants_notes, wants_quiet};
use sf_names::Names;
use sf_profile::{
    Settings, loose_masks, notes as notes_of, profile as filter_of, refused, set_of_names,
    unknown_names, zero_errors,
};
use sf_stack::{push_zero_errors, write_bytes};
use std::alloc::{AllocError, Global};
use std::io::Write;

const MOST_RULES: usize = 3;

/// The lines that warn of a profile: of names that are passed over, unless notes, which have them, are written; of
/// calls that fail with the error number 0; and of rules whose comparison asks for a bit outside its mask. Of more than
/// `MOST_RULES` of these, the last line tells how many more there are.
fn warnings_of(
    alloc: Global,
    settings: &Settings,
    wants_notes: bool,
    bytes: &[u8],
) -> Result<String, AllocError> {
    let mut text = String::new(alloc);
    if !wants_notes {
        let names = unknown_names(alloc, settings, bytes).map_err(|_| AllocError)?;
        if !names.is_empty() {
            write!(text, "warning: no file of names has{names}\n")?;
        }
    }
    let calls = zero_errors(alloc, settings, bytes).map_err(|_| AllocError)?;
    push_zero_errors(&mut text, &calls)?;
    let rules = loose_masks(alloc, settings, bytes).map_err(|_| AllocError)?;
    for rule in rules.iter().take(MOST_RULES) {
        write!(
            text,
            "warning: rule {rule}: SCMP_CMP_MASKED_EQ has a bit of valueTwo outside its mask: it counts only on the mask\n"
        )?;
    }
    match rules.len().saturating_sub(MOST_RULES) {
        0 => {}
        1 => text.push_str("warning: .. and 1 rule more\n")?,
        more => write!(text, "warning: .. and {more} rules more\n")?,
    }
    Ok(text)
}

fn write_of<O: Write>(
    alloc: Global,
    settings: &Settings,
    wants_notes: bool,
    bytes: &[u8],
    out: &mut O,
) -> Result<(), Fault>
    ensures written { OnOk result (WritesOf wants_notes settings.now bytes.now (O.contents out.old)
        (O.contents out.new)) }
    ensures refused { IfErr result (λ e. (e ≡ Other WriteFault)
        ⊎ (RefusesProfileOf settings.now bytes.now e × (out.new ≡ out.old))) }
{
    if wants_notes {
        let text = notes_of(alloc, settings, bytes)?;
        return Ok(print(&text, out)?);
    }
    let filter = filter_of(alloc, settings, bytes)?;
    Ok(write_bytes(&filter, out)?)
}

/// The first set that is none of the five of `CallSet`, by its architecture, not by its name.
fn other_set(alloc: Global, names: &[Names]) -> Option<Cause> {
    let place = names.iter().position(|set| set_of_names(set).is_none())?;
    let name = String::from_str(alloc, names.get(place)?.set()).ok()?;
    Some(Cause::OtherSet(place, name))
}

/// The settings for a profile: what the command line says, with the calls of the files of names.
fn read_settings<F: Files>(
    alloc: Global,
    found: &ArgMatches<'_>,
    files: &mut F,
    notes: &mut Notes,
) -> Result<Settings, Fault>
    requires { profile_words_fit (rows_of (found_of found.now)) ≡ true }
    ensures read { IfOk result (IsReadFor (F.holds files.old) (rows_of (found_of found.now))) }
    ensures refused { IfErr result (RefusesNamesOf (F.holds files.old)
        (rows_of (found_of found.now))) }
    ensures same { (p : List ℕ) → F.holds files.new p ≡ F.holds files.old p }
{
    let names = read_needed_names(alloc, found, files, notes)?;
    let other = other_set(alloc, &names);
    match calls_of(alloc, names) {
        Ok(calls) => Ok(settings_of(alloc, found, calls)?),
        Err(fault) => {
            notes.cause = other;
            Err(fault.into())
        }
    }
}

/// Reads the files of names and then the profile that the matches name, and writes the filter that the profile means,
/// or with `--notes` notes on the profile. The status is 0; or 4 where a word isn't one that its option takes: then no
/// file is read, and nothing is written.
///
/// `notes` get the counts of sets, and the warnings, unless `--quiet` is given, or for what the profile is refused.
///
/// Refusals come in this order: those of `read_needed_names`; `Profile(Set)` where one of the sets is none of the five
/// of `CallSet`; `Read` for the profile; `Profile` with the fault for which `sf_profile` refuses it; `Write`.
pub fn profile<F: Files, O: Write>(
    alloc: Global,
    found: &ArgMatches<'_>,
    files: &mut F,
    notes: &mut Notes,
    out: &mut O,
) -> Result<u8, Fault>
    ensures status { IfOk result (λ s. (s ≡ 0) ⊎ (s ≡ 4)) }
    ensures done { IfOk result (λ s. s ≡ 0 → WritesProfile (F.holds files.old)
        (rows_of (found_of found.now)) (O.contents out.old) (O.contents out.new)) }
    ensures usage { IfOk result (λ s. s ≡ 4
        → (profile_words_fit (rows_of (found_of found.now)) ≡ false)
        × (files.new ≡ files.old) × (out.new ≡ out.old)) }
    ensures quiet { IfErr result (λ e. (e ≡ Other WriteFault) ⊎ (out.new ≡ out.old)) }
    ensures refused { IfErr result (RefusesProfile (F.holds files.old)
        (rows_of (found_of found.now))) }
{
    if !profile_words_fit(found) {
        return Ok(4);
    }
    let settings = read_settings(alloc, found, files, notes)?;
    let bytes = read_file(
        alloc,
        FileRole::Profile,
        text_of(found, "profile"),
        files,
        notes,
    )?;
    let with_notes = wants_notes(found);
    match write_of(alloc, &settings, with_notes, &bytes, out) {
        Ok(()) => {
            notes.last = None;
            if !wants_quiet(found) {
                notes.warnings = warnings_of(alloc, &settings, with_notes, &bytes);
            }
            Ok(0)
        }
        Err(fault) => {
            match &fault {
                Fault::Profile(refusal) => {
                    let refused = refused(alloc, &settings, &bytes, *refusal);
                    notes.cause = refused.ok().map(Cause::Profile);
                }
                Fault::Other(_) => notes.last = None,
            }
            Err(fault)
        }
    }
}

//! What the words of the command line say of an audit.

ghost use Rattle.std.specs.Prelude.{◌≡◌, is_none};
ghost use Rattle.clap.specs.Words.{found_of, rows_of};
ghost use Rattle.sf_evaluate.specs.Expecting.{audit_words_fit, control_fits, wants_summary};
ghost use Rattle.sf_evaluate.specs.Wanted.{is_switched_on};

use super::asking::is_given;
use super::misfits::Misfit;
use super::settings::is_among;
use clap::ArgMatches;
use sf_command_line::{given_text, text_of};

/// Whether the switch with this name, without dashes, is given.
pub fn is_switched_on(found: &ArgMatches<'_>, name: &str) -> bool
    ensures { result ≡ is_switched_on name.now (rows_of (found_of found.now)) }
{
    text_of(found, name) == "true"
}

/// Whether a summary of an audit is asked for.
pub fn wants_summary(found: &ArgMatches<'_>) -> bool
    ensures { result ≡ wants_summary (rows_of (found_of found.now)) }
{
    is_switched_on(found, "summary") || is_switched_on(found, "summary-all")
}

/// The path behind `--control`, where it is one of those behind `--policy`. Paths are compared as texts.
fn misfit_of_control<'a>(found: &ArgMatches<'a>) -> Option<Misfit<'a>>
    ensures { is_none result ≡ control_fits (rows_of (found_of found.now)) }
{
    let policies = found.get_strs("policy").unwrap_or(&[]);
    match given_text(found, "control") {
        Some(path) => is_among(path, policies).then(|| Misfit::Control(path)),
        None => None,
    }
}

/// The first thing that doesn't fit in the options of `audit`.
pub(super) fn misfit_of_audit<'a>(found: &ArgMatches<'a>) -> Option<Misfit<'a>>
    ensures { is_none result ≡ audit_words_fit (rows_of (found_of found.now)) }
{
    if let Some(misfit) = misfit_of_control(found) {
        return Some(misfit);
    }
    if !wants_summary(found) {
        let sentence = "--groups is for a summary: give --summary or --summary-all too";
        return is_given(found, "groups").then(|| Misfit::Sentence(sentence));
    }
    let sentence =
        "a summary takes the place of a report: give it without --json, --regions and --why";
    let is_report = is_switched_on(found, "json")
        || (is_switched_on(found, "regions") || is_switched_on(found, "why"));
    is_report.then(|| Misfit::Sentence(sentence))
}

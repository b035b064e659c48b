//! The words of the command line: whether they fit together, and what they ask for.

ghost use Rattle.std.specs.Prelude.{◌≡◌, is_none};
ghost use Rattle.clap.specs.Words.{found_of, rows_of};
ghost use Rattle.sf_evaluate.specs.Words.{words_fit_for};

mod asking;
mod auditing;
mod misfits;
mod naming;
mod settings;
mod wanted;

use asking::misfit_of_eval;
pub(crate) use asking::misspelled;
pub use asking::{asked_input, is_given, numbers_fit};
use auditing::misfit_of_audit;
pub use auditing::{is_switched_on, wants_summary};
use clap::ArgMatches;
use misfits::Misfit;
pub(crate) use misfits::push_misspelled;
pub use misfits::tell_wrong_words;
pub(crate) use naming::lacks_names;
use settings::misfit_of_profile;
pub(crate) use settings::{profile_words_fit, settings_of};
pub use wanted::known_calls;
use wanted::{misfit_of_calls, misfit_of_digest, misfit_of_rows};

/// The first thing that doesn't fit in the words of the subcommand with this name.
fn misfit_of<'a>(name: &str, found: &ArgMatches<'a>) -> Option<Misfit<'a>>
    ensures { is_none result ≡ words_fit_for name.now (rows_of (found_of found.now)) }
{
    match name {
        "profile" => misfit_of_profile(found),
        "eval" => misfit_of_eval(found),
        "list" => misfit_of_calls(found).or(misfit_of_digest(found)),
        "compare" => misfit_of_calls(found).or(misfit_of_rows(found)),
        "audit" => misfit_of_audit(found),
        _ => None,
    }
}

/// Whether the words of the subcommand with this name fit: each option but `--input` has a word of a form that it
/// takes, and the options go together. `clap` has checked everything else.
pub fn words_fit_for(name: &str, found: &ArgMatches<'_>) -> bool
    ensures { result ≡ words_fit_for name.now (rows_of (found_of found.now)) }
{
    misfit_of(name, found).is_none()
}

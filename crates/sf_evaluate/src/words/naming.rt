//! Which files of names the words of the command line need.

ghost use Rattle.std.specs.Prelude.{◌≡◌};
ghost use Rattle.clap.specs.Words.{found_of, rows_of};
ghost use Rattle.sf_evaluate.specs.Asking.{has_file_of_names, lacks_names};

use super::asking::is_given;
use clap::ArgMatches;
use sf_calls::is_number;
use sf_command_line::text_of;

pub(crate) fn has_names(found: &ArgMatches<'_>) -> bool
    ensures { result ≡ has_file_of_names (rows_of (found_of found.now)) }
{
    !found.get_strs("names").unwrap_or(&[]).is_empty()
}

pub(crate) fn lacks_names(found: &ArgMatches<'_>) -> bool
    ensures { result ≡ lacks_names (rows_of (found_of found.now)) }
{
    !has_names(found)
        && ((is_given(found, "call") || is_given(found, "calls"))
            || (is_given(found, "profile")
                || (is_given(found, "arch") && !is_number(text_of(found, "arch")))))
}

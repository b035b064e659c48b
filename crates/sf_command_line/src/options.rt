//! What the matches of a subcommand ask for.
ghost use Rattle.std.specs.Prelude.{◌≡◌, ◌<◌, ◌≤◌, codes, option_map};
ghost use Rattle.clap.specs.Words.{first_of, found_of, one_of, rows_of};
ghost use Rattle.sf_command_line.specs.Options.{IsOptionNumber, IsSwitch, text_of};

use clap::ArgMatches;

/// The text of an argument with this name, given without `--`; the first one where there are several. Where it isn't
/// given, this is its usual value, or the empty text. The text of a switch is `true` or `false`.
pub fn text_of<'a>(found: &ArgMatches<'a>, name: &str) -> &'a str
    ensures { result.now ≡ text_of name.now (rows_of (found_of found.now)) }
{
    found.get_str(name).unwrap_or("")
}

/// The text of an argument with this name, given without `--`; the first one where there are several. Where it isn't
/// given, this is its usual value, if it has one. `--calls` without names behind it has the empty text.
pub fn given_text<'a>(found: &ArgMatches<'a>, name: &str) -> Option<&'a str>
    ensures { option_map (λ t. t.now) result ≡ first_of name.now (rows_of (found_of found.now)) }
{
    found.get_str(name)
}

/// The most works that an exploration may commit, 1 to 1,000,000.
pub fn budget_of(found: &ArgMatches<'_>) -> u32
    ensures { IsOptionNumber (one_of (codes "budget") (rows_of (found_of found.now)))
        1000000 100000 result }
{
    found.get_one::<u32>("budget").unwrap_or(100_000)
}

/// The number of workers. That it is 1 to 64 isn't proved of this result, so `workers_of` looks once more.
fn asked_workers(found: &ArgMatches<'_>) -> u8
    ensures { IsOptionNumber (one_of (codes "workers") (rows_of (found_of found.now))) 64 4 result }
{
    found.get_one::<u8>("workers").unwrap_or(4)
}

/// The number of workers, 1 to 64.
pub fn workers_of(found: &ArgMatches<'_>) -> u8
    ensures number { IsOptionNumber (one_of (codes "workers")
        (rows_of (found_of found.now))) 64 4 result }
    ensures few { (0 < result) × (result ≤ 64) }
{
    let asked = asked_workers(found);
    if 0 < asked && asked <= 64 { asked } else { 4 }
}

/// Whether the switch with this name, given without `--`, is on.
pub fn is_on(found: &ArgMatches<'_>, name: &str) -> bool
    ensures { IsSwitch (one_of name.now (rows_of (found_of found.now))) result }
{
    found.get_flag(name)
}

/// Whether a fault is explained under its line.
pub fn wants_explanation(found: &ArgMatches<'_>) -> bool
    ensures { IsSwitch (one_of (codes "explain-errors") (rows_of (found_of found.now))) result }
{
    is_on(found, "explain-errors")
}

/// Whether calls whose number is above all that the rules name fail with ENOSYS.
pub fn wants_newer(found: &ArgMatches<'_>) -> bool
    ensures { IsSwitch (one_of (codes "newer") (rows_of (found_of found.now))) result }
{
    is_on(found, "newer")
}

/// Whether names of the profile that no set of calls has are passed over.
pub fn skips_unknown(found: &ArgMatches<'_>) -> bool
    ensures { IsSwitch (one_of (codes "skip-unknown") (rows_of (found_of found.now))) result }
{
    is_on(found, "skip-unknown")
}

/// Whether notes on the profile are written, and no filter.
pub fn wants_notes(found: &ArgMatches<'_>) -> bool
    ensures { IsSwitch (one_of (codes "notes") (rows_of (found_of found.now))) result }
{
    is_on(found, "notes")
}

/// Whether warnings are left out.
pub fn wants_quiet(found: &ArgMatches<'_>) -> bool
    ensures { IsSwitch (one_of (codes "quiet") (rows_of (found_of found.now))) result }
{
    is_on(found, "quiet")
}

/// The most nodes that decision diagrams may have, 1 to 16,000,000.
pub fn nodes_of(found: &ArgMatches<'_>) -> u32
    ensures { IsOptionNumber (one_of (codes "nodes") (rows_of (found_of found.now)))
        16000000 1000000 result }
{
    found.get_one::<u32>("nodes").unwrap_or(1_000_000)
}

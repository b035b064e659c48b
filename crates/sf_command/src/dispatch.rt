//! What the program does, from the words of its command line to its exit status.
ghost use Rattle.std.specs.Prelude.{◌≡◌, ◌≤◌, ◌⊎◌, map, string_bytes, IfOk, IfErr};
ghost use Rattle.clap.specs.Words.{found_of, rows_of, subcommand_rows_of};
ghost use Rattle.sf_stack.specs.declared.fault.Fault.TheVariants.{Write as WriteFault};
ghost use Rattle.sf_command.specs.Runs.{DoesAsAsked, HasWrongWord, IsTooLarge, RefusesAs, RefusesAsAsked, RefusesWords, meant_words};
ghost use Rattle.sf_command.specs.Subcommands.{RunsAs};
ghost use Rattle.sf_command_line.specs.CommandLine.{IsKnown};
ghost use Rattle.sf_evaluate.specs.Faults.{fault_number};
ghost use Rattle.sf_evaluate.specs.Status.{fault_status};
ghost use Rattle.sf_evaluate.specs.declared.fault.Fault.{Fault};
ghost use Rattle.sf_evaluate.specs.declared.fault.Fault.TheVariants.{Other};

use crate::means::Means;
use crate::subcommands::run_on_stack;
use crate::usage::{meant_words, write_usage};
use crate::watching::Meter;
use clap::ArgMatches;
use sf_command_line::command_form;
use sf_evaluate::{Files, Notes, profile, tell, tell_wrong_words, warn, words_fit_for};
use std::io::Write;
use std::sync::Wait;
use std::thread::Threads;

/// Runs the subcommand that the command line names, and gives its exit status. Whether its words fit is asked before
/// any file is read.
fn run<R: Threads + Wait + Sync, F: Files, M: Meter, O: Write>(
    means: &Means<'_, '_, R, M>,
    version: &str,
    matches: &ArgMatches<'_>,
    files: &mut F,
    notes: &mut Notes,
    out: &mut O,
) -> Result<u8, sf_evaluate::Fault>
    ensures status { IfOk result (λ s. (s ≤ 2) ⊎ (s ≡ 4)) }
    ensures done { IfOk result (λ s. s ≤ 2 → RunsAs version.now (F.holds files.old)
        (subcommand_rows_of matches.now) s (O.contents out.old) (O.contents out.new)) }
    ensures usage { IfOk result (λ s. s ≡ 4 → (¬ IsKnown (subcommand_rows_of matches.now)
        ⊎ HasWrongWord (subcommand_rows_of matches.now))
        × (files.new ≡ files.old) × (out.new ≡ out.old)) }
    ensures quiet { IfErr result (λ e. (e ≡ Other WriteFault) ⊎ (out.new ≡ out.old)) }
    ensures refused { IfErr result (RefusesAs (F.holds files.old)
        (subcommand_rows_of matches.now)) }
{
    let Some((name, found)) = matches.subcommand() else {
        return Ok(4);
    };
    if !words_fit_for(name, found) {
        return Ok(4);
    }
    match name {
        "profile" => profile(means.alloc, found, files, notes, out),
        _ => Ok(run_on_stack(means, version, name, found, files, notes, out)?),
    }
}

/// Does what the words after the program's name ask for, and gives the exit status. After a fault of a subcommand the
/// notes have what `explain` keeps in them. After a subcommand without a fault its warnings are written to standard
/// error, unless `--quiet` is given, or lines that say which of its words don't fit.
fn run_words<R: Threads + Wait + Sync, F: Files, M: Meter, O: Write, E: Write>(
    means: &Means<'_, '_, R, M>,
    version: &str,
    words: &[String],
    files: &mut F,
    notes: &mut Notes,
    out: &mut O,
    err: &mut E,
) -> Result<u8, sf_evaluate::Fault>
    ensures status { IfOk result (λ s. (s ≤ 2) ⊎ (s ≡ 4)) }
    ensures done { IfOk result (λ s. s ≤ 2 → DoesAsAsked version.now (F.holds files.old)
        (meant_words (map string_bytes words.now)) s (O.contents out.old) (O.contents out.new)) }
    ensures usage { IfOk result (λ s. s ≡ 4 → RefusesWords
        (meant_words (map string_bytes words.now))
        × (files.new ≡ files.old) × (out.new ≡ out.old)) }
    ensures quiet { IfErr result (λ e. (e ≡ Other WriteFault) ⊎ (out.new ≡ out.old)) }
    ensures refused { IfErr result (RefusesAsAsked (F.holds files.old)
        (meant_words (map string_bytes words.now))) }
{
    let alloc = means.alloc;
    let meant = meant_words(alloc, words)?;
    match command_form(alloc)?.try_get_matches_from(&meant) {
        Ok(matches) => {
            let ran = run(means, version, &matches, files, notes, out);
            notes.explain(alloc, &matches, &ran, files.explains(), files.reason());
            if ran.is_ok() {
                warn(&matches, &notes.warnings, err);
                tell_wrong_words(alloc, &matches, &ran, err);
            }
            ran
        }
        Err(error) => write_usage(alloc, version, &meant, &error, out, err),
    }
}

/// Does what the words after the program's name ask for, and gives the exit status:
///
/// - 0: done, also where help is asked for, or the version, whose line is `version`. After an audit the control holds,
///   and each question is never, or allowed with an accepted name. After a comparison the relation that is asked for is
///   never. After `needed` each filter is needed.
/// - 1: the control of an audit holds, but an allowed question has a name that isn't accepted; or the relation that is
///   asked for is found; or some filter is spare.
/// - 2: the control of an audit doesn't hold; or nothing gives status 1, and some question is unsettled. Or `list`,
///   `compare` or `needed` would take more nodes of decision diagrams than are allowed, or too many rows: standard
///   output is left as it was then, and one line on standard error says so.
/// - 3: the filters, a policy, a profile, a file of names, the file of `--accept`, a name behind `--calls`, `--call` or
///   `--arch`, or the input is refused. Standard output is left as it was.
/// - 4: the command line is refused. No file was read, standard output is left as it was, and standard error has the
///   text of `refusal_text` or that of `tell_wrong_words`, as far as it can be written.
/// - 5: reading, writing or memory failed. Standard output is left as it was, unless writing failed.
///
/// The gate of the means sees each work and each sheet of verdicts where `--progress` is given. Else it isn't called.
///
/// At 0 to 2 standard error gets the warnings, or a line that there was no memory for them, unless `--quiet` is given.
/// At 3 and 5 one line on standard error names the fault: `error`, its number, its name and its place, if it has one.
/// With `--explain-errors`, or where `files` say so, lines for a person follow the fault of a subcommand, if there is
/// memory for them. It isn't looked at whether standard error can be written.
pub fn command<R: Threads + Wait + Sync, F: Files, M: Meter, O: Write, E: Write>(
    means: &Means<'_, '_, R, M>,
    version: &str,
    words: &[String],
    files: &mut F,
    out: &mut O,
    err: &mut E,
) -> u8
    ensures status { result ≤ 5 }
    ensures done { result ≤ 2 → DoesAsAsked version.now (F.holds files.old)
        (meant_words (map string_bytes words.now)) result
        (O.contents out.old) (O.contents out.new)
        ⊎ ((result ≡ 2) × (out.new ≡ out.old)
        × IsTooLarge (F.holds files.old) (meant_words (map string_bytes words.now))) }
    ensures usage { result ≡ 4 → RefusesWords (meant_words (map string_bytes words.now))
        × (files.new ≡ files.old) × (out.new ≡ out.old) }
    ensures refused { result ≡ 3 → (out.new ≡ out.old)
        × ((e : Fault) × (fault_status (fault_number e) ≡ 3)
        × RefusesAsAsked (F.holds files.old) (meant_words (map string_bytes words.now)) e) }
    ensures failed { result ≡ 5 → (e : Fault) × (fault_status (fault_number e) ≡ 5)
        × RefusesAsAsked (F.holds files.old) (meant_words (map string_bytes words.now)) e
        × ((e ≡ Other WriteFault) ⊎ (out.new ≡ out.old)) }
{
    let mut notes = Notes::new(means.alloc);
    match run_words(means, version, words, files, &mut notes, out, err) {
        Ok(status) => status,
        Err(fault) => tell(means.alloc, &fault, &notes, err),
    }
}

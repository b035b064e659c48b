//! The subcommands that take filters: each reads its words from the matches, and does what they ask for.
ghost use Rattle.std.specs.Prelude.{◌≡◌, ◌≢◌, ◌≤◌, ◌⊎◌, ℕ, List, Some, codes, option_map, IfOk, IfErr};
ghost use Rattle.clap.specs.Words.{first_of, found_of, rows_of};
ghost use Rattle.sf_stack.specs.declared.fault.Fault.TheVariants.{Write as WriteFault};
ghost use Rattle.sf_command.specs.Audits.{AskedData, RefusesAudit};
ghost use Rattle.sf_command.specs.Comparisons.{RefusesComparison};
ghost use Rattle.sf_command.specs.Diagrams.{RefusesList, RefusesStack};
ghost use Rattle.sf_evaluate.specs.Asking.{RefusesNamed};
ghost use Rattle.sf_evaluate.specs.Outputs.{RefusesCheck};
ghost use Rattle.sf_command.specs.Subcommands.{Audits, Checks, Compares, Evaluates, RunsAs, IsAskedFor, Lists, Needs, OnCalls, OnNodes, OnPaths, RefusesEval, RefusesOnStack, groups_path, listing_form, relation_named, relation_of_status, text_form};
ghost use Rattle.sf_command_line.specs.CommandLine.{IsKnown};

use crate::auditing::{Asked, AuditTask, AuditTerms, TextForm, audit};
use crate::comparing::{ComparisonTask, compare};
use crate::listing::{ListingForm, ListingTask, list};
use crate::means::Means;
use crate::needing::{NeededTask, needed};
use crate::watching::{Meter, Watched};
use clap::ArgMatches;
use sf_command_line::{budget_of, given_text, nodes_of, workers_of};
use sf_evaluate::{
    CheckManner, Evaluation, Files, INSTALLED_GROUPS, Manner, Notes, asked_input, check, evaluate,
    is_given, is_switched_on, known_calls, numbers_fit, read_needed_names, wants_summary,
};
use sf_names::Names;
use sf_relations::Relation;
use sf_stack::Fault;
use std::alloc::Global;
use std::io::Write;
use std::sync::Wait;
use std::thread::Threads;

fn text_form(found: &ArgMatches<'_>) -> TextForm
    ensures { result ≡ text_form (rows_of (found_of found.now)) }
{
    if is_switched_on(found, "summary-all") {
        TextForm::SummaryOfAll
    } else if is_switched_on(found, "summary") {
        TextForm::Summary
    } else {
        TextForm::Report
    }
}

fn groups_path<'a>(found: &ArgMatches<'a>) -> Option<&'a str>
    ensures { option_map (λ t. t.now) result ≡ groups_path (rows_of (found_of found.now)) }
{
    if !wants_summary(found) {
        return None;
    }
    match given_text(found, "groups") {
        Some(path) => Some(path),
        None => Some(INSTALLED_GROUPS),
    }
}

/// Here and below the caller has seen by `words_fit_for` that the words fit, and the notes are new.
/// JSON documents show `version`, the line of the program's version.
fn run_audit<R: Threads + Wait + Sync, F: Files, M: Meter, O: Write>(
    means: &Means<'_, '_, R, M>,
    version: &str,
    found: &ArgMatches<'_>,
    files: &mut F,
    notes: &mut Notes,
    out: &mut O,
) -> Result<u8, Fault>
    ensures done { IfOk result (λ s. Audits version.now (F.holds files.old)
        (rows_of (found_of found.now)) s (O.contents out.old) (O.contents out.new)) }
    ensures status { IfOk result (λ s. s ≤ 2) }
    ensures quiet { IfErr result (λ e. (e ≡ WriteFault) ⊎ (out.new ≡ out.old)) }
    ensures refused { IfErr result (λ e. RefusesNamed (F.holds files.old)
        (rows_of (found_of found.now)) e
        ⊎ OnPaths (codes "filters") (rows_of (found_of found.now))
        (λ paths. (asked : AskedData) × IsAskedFor (rows_of (found_of found.now)) asked
        × RefusesAudit (F.holds files.old) asked paths e)) }
{
    let names = read_needed_names(means.alloc, found, files, notes)?;
    let paths = found.get_strs("filters").unwrap_or(&[]);
    let terms = AuditTerms {
        budget: budget_of(found),
        workers: workers_of(found),
        regions: is_switched_on(found, "regions"),
        why: is_switched_on(found, "why"),
        text: text_form(found),
        json: is_switched_on(found, "json"),
    };
    let asked = Asked {
        policies: found.get_strs("policy").unwrap_or(&[]),
        control: given_text(found, "control"),
        accept: given_text(found, "accept"),
        groups: groups_path(found),
        has_groups: is_given(found, "groups"),
        names: found.get_strs("names").unwrap_or(&[]),
    };
    let task = AuditTask {
        asked: &asked,
        paths,
        names: &names,
        version,
        terms,
    };
    let gate = Watched::of(
        means.gate,
        is_switched_on(found, "progress"),
        budget_of(found),
    );
    let means = Means {
        rt: means.rt,
        alloc: means.alloc,
        gate: &gate,
    };
    audit(&means, &task, files, notes, out)
}

fn run_check<F: Files, O: Write>(
    alloc: Global,
    version: &str,
    found: &ArgMatches<'_>,
    files: &mut F,
    notes: &mut Notes,
    out: &mut O,
) -> Result<u8, Fault>
    ensures done { IfOk result (λ s. Checks version.now (F.holds files.old)
        (rows_of (found_of found.now)) s (O.contents out.old) (O.contents out.new)) }
    ensures quiet { IfErr result (λ e. (e ≡ WriteFault) ⊎ (out.new ≡ out.old)) }
    ensures refused { IfErr result (λ e. OnPaths (codes "filters") (rows_of (found_of found.now))
        (λ paths. RefusesCheck (F.holds files.old) paths e)) }
{
    let paths = found.get_strs("filters").unwrap_or(&[]);
    let how = CheckManner {
        listed: is_switched_on(found, "instructions"),
        json: is_switched_on(found, "json"),
    };
    check(alloc, version, paths, how, files, notes, out)?;
    Ok(0)
}

fn run_eval<F: Files, O: Write>(
    alloc: Global,
    version: &str,
    found: &ArgMatches<'_>,
    files: &mut F,
    notes: &mut Notes,
    out: &mut O,
) -> Result<u8, Fault>
    ensures done { IfOk result (λ s. Evaluates version.now (F.holds files.old)
        (rows_of (found_of found.now)) s (O.contents out.old) (O.contents out.new)) }
    ensures quiet { IfErr result (λ e. (e ≡ WriteFault) ⊎ (out.new ≡ out.old)) }
    ensures refused { IfErr result (λ e. RefusesNamed (F.holds files.old)
        (rows_of (found_of found.now)) e
        ⊎ RefusesEval (F.holds files.old) (rows_of (found_of found.now)) e) }
{
    if !numbers_fit(found) {
        return Err(Fault::Input);
    }
    let names = read_needed_names(alloc, found, files, notes)?;
    let input = asked_input(found, &names, notes)?;
    let paths = found.get_strs("filters").unwrap_or(&[]);
    let how = Manner {
        traced: is_switched_on(found, "trace"),
        brief: is_switched_on(found, "trace-true"),
        json: is_switched_on(found, "json"),
    };
    let asked = Evaluation {
        input: &input,
        how,
        version,
        names: &names,
    };
    evaluate(alloc, &asked, paths, files, notes, out)?;
    Ok(0)
}

fn relation_of_status(found: &ArgMatches<'_>) -> Relation
    ensures { result ≡ relation_of_status (rows_of (found_of found.now)) }
{
    if is_switched_on(found, "same") {
        Relation::Different
    } else {
        Relation::Looser
    }
}

/// Each other word is `different`: `rows_fit` has let no other through.
fn relation_named(word: &str) -> Relation
    ensures { result ≡ relation_named word.now }
{
    match word {
        "looser" => Relation::Looser,
        "tighter" => Relation::Tighter,
        _ => Relation::Different,
    }
}

fn relation_of_rows(found: &ArgMatches<'_>) -> Option<Relation>
    ensures { result
        ≡ option_map relation_named (first_of (codes "only") (rows_of (found_of found.now))) }
{
    match given_text(found, "only") {
        Some(word) => Some(relation_named(word)),
        None => None,
    }
}

fn run_compare<F: Files, O: Write>(
    alloc: Global,
    version: &str,
    found: &ArgMatches<'_>,
    files: &mut F,
    notes: &mut Notes,
    out: &mut O,
) -> Result<u8, Fault>
    ensures done { IfOk result (λ s. Compares version.now (F.holds files.old)
        (rows_of (found_of found.now)) s (O.contents out.old) (O.contents out.new)) }
    ensures status { IfOk result (λ s. s ≤ 1) }
    ensures quiet { IfErr result (λ e. (e ≡ WriteFault) ⊎ (out.new ≡ out.old)) }
    ensures refused { IfErr result (λ e. OnCalls (F.holds files.old)
        (rows_of (found_of found.now)) e
        (OnPaths (codes "old") (rows_of (found_of found.now))
        (λ old. OnPaths (codes "new") (rows_of (found_of found.now))
        (λ new. OnNodes (rows_of (found_of found.now))
        (λ nodes. RefusesComparison (F.holds files.old) old new nodes e))))) }
{
    let names = read_needed_names(alloc, found, files, notes)?;
    let calls = known_calls(alloc, found, &names, notes)?;
    let task = ComparisonTask {
        old: found.get_strs("old").unwrap_or(&[]),
        new: found.get_strs("new").unwrap_or(&[]),
        sets: &names,
        calls: &calls,
        version,
        nodes: nodes_of(found),
        asked: relation_of_status(found),
        rows: is_switched_on(found, "rows"),
        only: relation_of_rows(found),
        json: is_switched_on(found, "json"),
    };
    compare(alloc, &task, files, notes, out)
}

/// `--digest` and `--json` don't come together, as `words_fit_for` has seen.
fn form_of(found: &ArgMatches<'_>) -> ListingForm
    ensures { result ≡ listing_form (rows_of (found_of found.now)) }
{
    if is_switched_on(found, "digest") {
        ListingForm::Digest
    } else if is_switched_on(found, "json") {
        ListingForm::Json
    } else {
        ListingForm::Text
    }
}

fn run_list<F: Files, O: Write>(
    alloc: Global,
    version: &str,
    found: &ArgMatches<'_>,
    files: &mut F,
    notes: &mut Notes,
    out: &mut O,
) -> Result<u8, Fault>
    ensures done { IfOk result (λ s. Lists version.now (F.holds files.old)
        (rows_of (found_of found.now)) s (O.contents out.old) (O.contents out.new)) }
    ensures status { IfOk result (λ s. s ≡ 0) }
    ensures quiet { IfErr result (λ e. (e ≡ WriteFault) ⊎ (out.new ≡ out.old)) }
    ensures refused { IfErr result (λ e. OnCalls (F.holds files.old)
        (rows_of (found_of found.now)) e
        (OnPaths (codes "filters") (rows_of (found_of found.now))
        (λ paths. OnNodes (rows_of (found_of found.now))
        (λ nodes. RefusesList (F.holds files.old) paths nodes e)))) }
{
    let names = read_needed_names(alloc, found, files, notes)?;
    let calls = known_calls(alloc, found, &names, notes)?;
    let task = ListingTask {
        paths: found.get_strs("filters").unwrap_or(&[]),
        sets: &names,
        calls: &calls,
        form: form_of(found),
        version,
        nodes: nodes_of(found),
    };
    list(alloc, &task, files, notes, out)?;
    Ok(0)
}

fn run_needed<F: Files, O: Write>(
    alloc: Global,
    version: &str,
    found: &ArgMatches<'_>,
    files: &mut F,
    notes: &mut Notes,
    out: &mut O,
) -> Result<u8, Fault>
    ensures done { IfOk result (λ s. Needs version.now (F.holds files.old)
        (rows_of (found_of found.now)) s (O.contents out.old) (O.contents out.new)) }
    ensures status { IfOk result (λ s. s ≤ 1) }
    ensures quiet { IfErr result (λ e. (e ≡ WriteFault) ⊎ (out.new ≡ out.old)) }
    ensures refused { IfErr result (λ e. OnPaths (codes "filters") (rows_of (found_of found.now))
        (λ paths. OnNodes (rows_of (found_of found.now))
        (λ nodes. RefusesStack (F.holds files.old) paths nodes e))) }
{
    let task = NeededTask {
        paths: found.get_strs("filters").unwrap_or(&[]),
        json: is_switched_on(found, "json"),
        version,
        nodes: nodes_of(found),
    };
    needed(alloc, &task, files, notes, out)
}

/// Runs the subcommand with this name, one of the six that take filters, and gives its exit status.
pub fn run_on_stack<R: Threads + Wait + Sync, F: Files, M: Meter, O: Write>(
    means: &Means<'_, '_, R, M>,
    version: &str,
    name: &str,
    found: &ArgMatches<'_>,
    files: &mut F,
    notes: &mut Notes,
    out: &mut O,
) -> Result<u8, Fault>
    requires { name.now ≢ codes "profile" }
    ensures status { IfOk result (λ s. (s ≤ 2) ⊎ (s ≡ 4)) }
    ensures done { IfOk result (λ s. s ≤ 2 → RunsAs version.now (F.holds files.old)
        (Some (name.now, rows_of (found_of found.now))) s (O.contents out.old)
        (O.contents out.new)) }
    ensures usage { IfOk result (λ s. s ≡ 4
        → ¬ IsKnown (Some (name.now, rows_of (found_of found.now)))
        × (files.new ≡ files.old) × (out.new ≡ out.old)) }
    ensures quiet { IfErr result (λ e. (e ≡ WriteFault) ⊎ (out.new ≡ out.old)) }
    ensures refused { IfErr result (RefusesOnStack (F.holds files.old)
        (Some (name.now, rows_of (found_of found.now)))) }
{
    match name {
        "audit" => run_audit(means, version, found, files, notes, out),
        "check" => run_check(means.alloc, version, found, files, notes, out),
        "eval" => run_eval(means.alloc, version, found, files, notes, out),
        "compare" => run_compare(means.alloc, version, found, files, notes, out),
        "list" => run_list(means.alloc, version, found, files, notes, out),
        "needed" => run_needed(means.alloc, version, found, files, notes, out),
        _ => Ok(4),
    }
}

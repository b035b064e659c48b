//! The subcommand `compare`: reads two stacks, compares them and writes what is found.

ghost use Rattle.std.specs.Prelude.{◌≡◌, ◌≤◌, ◌⊎◌, map, option_map, IfOk, IfErr, OnOk};
ghost use Rattle.std.specs.Io.KnownBytes.{Appends};
ghost use Rattle.serde_json.specs.View.{view};
ghost use Rattle.sf_stack.specs.declared.fault.Fault.TheVariants.{Memory as MemoryFault, TooLarge as TooLargeFault, TooManyRows, Write as WriteFault};
ghost use Rattle.sf_command.specs.Comparisons.{ComparesFiles, RefusesComparison, WritesCompared, changed_output, comparison_output};

use crate::status::status_of_finding;
use crate::warnings::warnings_of_comparison;
use sf_compare::{Comparison, comparison_document, write_comparison};
use sf_evaluate::{Files, Identity, Notes, identified, read_stacks};
use sf_json::{Document, write_document};
use sf_list::{Changes, changes_document, list_changes, write_changes};
use sf_names::Names;
use sf_relations::Relation;
use sf_stack::Fault;
use std::alloc::Global;
use std::io::Write;

/// What a comparison is asked for.
#[derive(Drop)]
pub struct ComparisonTask<'t, 'm, 'a> {
    /// The paths of filter files, in order of installation, as those of `new`.
    pub old: &'m [&'a str],
    pub new: &'m [&'a str],
    pub sets: &'t [Names],
    /// The calls whose rows are written, as for a listing. They count only where `rows` is set.
    pub calls: &'t Option<Vec<&'a str>>,
    /// The line of the program's version, which a JSON document shows.
    pub version: &'t str,
    /// The most nodes that the decision diagrams may have, 1 to 16,000,000.
    pub nodes: u32,
    /// The relation that the exit status is about.
    pub asked: Relation,
    pub rows: bool,
    /// Of the rows only those whose answers have this relation. It counts only where `rows` is set.
    pub only: Option<Relation>,
    pub json: bool,
}

fn write_found<O: Write>(
    alloc: Global,
    comparison: &Comparison,
    sets: &[Names],
    json: bool,
    identity: Identity<'_>,
    out: &mut O,
) -> Result<(), Fault>
    ensures written { OnOk result (Appends (O.contents out.old) (O.contents out.new)
        (comparison_output json identity.entry.version.now (map view identity.entry.files.items)
        sets.now comparison.now)) }
    ensures refused { IfErr result (λ e. (e ≡ WriteFault)
        ⊎ ((e ≡ MemoryFault) × (out.new ≡ out.old))) }
{
    if !json {
        return write_comparison(alloc, comparison, out);
    }
    let document = comparison_document(alloc, comparison, sets)?;
    let document = identified(alloc, document, identity)?;
    write_document(alloc, &document, out)
}

/// `changes` are meant to be those of `list_changes` for this comparison.
fn write_rows<O: Write>(
    alloc: Global,
    comparison: &Comparison,
    changes: &Changes<'_>,
    sets: &[Names],
    json: bool,
    identity: Identity<'_>,
    out: &mut O,
) -> Result<(), Fault>
    ensures written { OnOk result (Appends (O.contents out.old) (O.contents out.new)
        (changed_output json identity.entry.version.now (map view identity.entry.files.items)
        sets.now comparison.now changes.now)) }
    ensures refused { IfErr result (λ e. (e ≡ WriteFault)
        ⊎ ((e ≡ MemoryFault) × (out.new ≡ out.old))) }
{
    if !json {
        return write_changes(alloc, comparison, changes, sets, out);
    }
    let document = changes_document(alloc, comparison, changes, sets)?;
    let document = identified(alloc, document, identity)?;
    write_document(alloc, &document, out)
}

fn write_compared<O: Write>(
    alloc: Global,
    comparison: &Comparison,
    task: &ComparisonTask<'_, '_, '_>,
    documents: Vec<Document>,
    out: &mut O,
) -> Result<(), Fault>
    ensures written { OnOk result (WritesCompared task.now.rows task.now.json
        task.now.version.now (map view documents.items) task.now.sets.now (record {
          only = task.now.only;
          calls = option_map (λ v. map (λ t. t.now) v.items) task.now.calls.now;
        })
        comparison.now (O.contents out.old) (O.contents out.new)) }
    ensures refused { IfErr result (λ e. (e ≡ WriteFault)
        ⊎ (((e ≡ MemoryFault) ⊎ ((e ≡ TooLargeFault task.now.nodes) ⊎ (e ≡ TooManyRows)))
        × (out.new ≡ out.old))) }
{
    let (sets, calls, json) = (task.sets, task.calls, task.json);
    let identity = Identity {
        version: task.version,
        files: documents,
    };
    if !task.rows {
        return write_found(alloc, comparison, sets, json, identity, out);
    }
    let (nodes, only) = (task.nodes, task.only);
    let changes = list_changes(alloc, nodes, comparison, only, sets, calls)?;
    write_rows(alloc, comparison, &changes, sets, json, identity, out)
}

/// Reads two stacks, compares them, writes what is found, and gives the exit status. The notes get the warnings.
#[tactic(auto, using(sf_evaluate::specs::laws::FilesLaws::handed_on))]
pub fn compare<F: Files, O: Write>(
    alloc: Global,
    task: &ComparisonTask<'_, '_, '_>,
    files: &mut F,
    notes: &mut Notes,
    out: &mut O,
) -> Result<u8, Fault>
    ensures written { IfOk result (λ s. ComparesFiles (F.holds files.old) task.now.old.now
        task.now.new.now task.now.version.now task.now.sets.now task.now.asked
        task.now.rows task.now.json (record {
          only = task.now.only;
          calls = option_map (λ v. map (λ t. t.now) v.items) task.now.calls.now;
        }) s
        (O.contents out.old) (O.contents out.new)) }
    ensures status { IfOk result (λ s. s ≤ 1) }
    ensures refused { IfErr result (RefusesComparison (F.holds files.old) task.now.old.now
        task.now.new.now task.now.nodes) }
    ensures quiet { IfErr result (λ e. (e ≡ WriteFault) ⊎ (out.new ≡ out.old)) }
{
    let json = task.json;
    let (old, new, documents) = read_stacks(alloc, task.old, task.new, json, files, notes)?;
    let comparison = sf_compare::compare(alloc, task.nodes, old, new)?;
    notes.warnings = warnings_of_comparison(alloc, &comparison);
    write_compared(alloc, &comparison, task, documents, out)?;
    Ok(status_of_finding(comparison.finding(task.asked)))
}

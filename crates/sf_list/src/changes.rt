//! The rows of what changes from one stack to another.

ghost use Rattle.std.specs.Prelude.{◌≡◌, ◌⊎◌, ◌++◌, IfErr, IfOk, OnErr, OnOk, map, option_map, string_bytes};
ghost use Rattle.std.specs.Io.KnownBytes.{Appends};
ghost use Rattle.serde_json.specs.View.{view};
ghost use Rattle.sf_stack.specs.Texts.{AppendsFront};
ghost use Rattle.sf_stack.specs.declared.fault.Fault.TheVariants.{Memory as MemoryFault, Write as WriteFault};
ghost use Rattle.sf_list.specs.Changes.{AreChanges, changed_document, changed_line, changed_text, shown_words};

use sf_behaviour::behaviour;
use sf_check::Program;
use sf_compare::{Comparison, comparison_fields, text_of_comparison};
use sf_diagram::Store;
use sf_json::Document;
use sf_names::Names;
use sf_relations::Relation;
use sf_rows::{Shown, Subject, changes_between, push_lines, show, shown_count, with_rows};
use sf_stack::{Fault, write_bytes};
use std::alloc::{AllocError, Global};
use std::io::Write;
use std::marker::Model;

/// The rows of what changes from one stack to another: all, or those whose answers have a relation.
#[derive(Drop)]
pub struct Changes<'a> {
    only: Option<Relation>,
    shown: Shown<'a>,
}

impl<'a> Model for Changes<'a> {
    ghost use Rattle.sf_list.specs.Changes.{ChangedData};

    ghost Value = { ChangedData };

    ghost view = { λ x. record { only = x.only; shown = x.shown } };
}

fn shown_of<'a>(
    alloc: Global,
    nodes: u32,
    stacks: (&[Program], &[Program]),
    only: Option<Relation>,
    sets: &'a [Names],
    calls: &Option<Vec<&str>>,
) -> Result<Changes<'a>, sf_rows::Fault>
    ensures changes { IfOk result (AreChanges stacks.entry.0.now stacks.entry.1.now sets.now
        (option_map (λ v. map (λ t. t.now) v.items) calls.now)) }
    ensures only { IfOk result (λ x. x.only ≡ only) }
{
    let mut store = Store::new(alloc, nodes)?;
    let before = behaviour(alloc, &mut store, stacks.0)?;
    let after = behaviour(alloc, &mut store, stacks.1)?;
    // For the prover: the trees of a store are canonical.
    let _node = store.node(after);
    let changed = changes_between(&mut store, only, before, after)?;
    let shown = show(alloc, &mut store, Subject::Change, changed, sets, calls)?;
    Ok(Changes { only, shown })
}

/// Lists what changes between the two stacks of a comparison. Where `only` is given, only the inputs count whose
/// answers have this relation. `sets` and `calls` say how rows are shown, as for `list`. `TooLarge` where the diagrams
/// of the answers would have more than `nodes` nodes; `TooManyRows` where there would be too many rows, or a word is
/// tested too often.
pub fn list_changes<'a>(
    alloc: Global,
    nodes: u32,
    comparison: &Comparison,
    only: Option<Relation>,
    sets: &'a [Names],
    calls: &Option<Vec<&str>>,
) -> Result<Changes<'a>, Fault>
    ensures listed { IfOk result (AreChanges comparison.now.old comparison.now.new sets.now
        (option_map (λ v. map (λ t. t.now) v.items) calls.now)) }
    ensures only { IfOk result (λ x. x.only ≡ only) }
    ensures refused { IfErr result (λ e. (e ≡ Fault.Memory) ⊎ ((e ≡ Fault.TooLarge nodes)
        ⊎ (e ≡ Fault.TooManyRows))) }
{
    let stacks = (
        comparison.old_stack().programs(),
        comparison.new_stack().programs(),
    );
    shown_of(alloc, nodes, stacks, only, sets, calls).map_err(|fault| fault.told(nodes))
}

fn word_of(only: Option<Relation>) -> &'static str
    ensures { result.now ≡ shown_words only }
{
    match only {
        Some(Relation::Looser) => "looser",
        Some(Relation::Tighter) => "tighter",
        Some(Relation::Different) => "different",
        Some(Relation::Pretended) => "pretended",
        None => "changed",
    }
}

fn push_total(text: &mut String, changes: &Changes<'_>) -> Result<(), AllocError>
    ensures { OnOk result (string_bytes text.new ≡ string_bytes text.old
        ++ changed_line changes.now) }
{
    let shown = word_of(changes.only);
    let count = shown_count(&changes.shown);
    write!(text, "total {shown} {count}\n")
}

fn text_of(
    alloc: Global,
    comparison: &Comparison,
    changes: &Changes<'_>,
    sets: &[Names],
) -> Result<String, AllocError>
    ensures { IfOk result (λ text. string_bytes text
        ≡ changed_text sets.now comparison.now changes.now) }
{
    let mut text = text_of_comparison(alloc, comparison)?;
    push_lines(alloc, &mut text, Subject::Change, sets, &changes.shown)?;
    push_total(&mut text, changes)?;
    Ok(text)
}

/// Writes the text of a comparison and the rows of what changes, with the names of calls from these sets.
pub fn write_changes<W: Write>(
    alloc: Global,
    comparison: &Comparison,
    changes: &Changes<'_>,
    sets: &[Names],
    out: &mut W,
) -> Result<(), Fault>
    ensures written { OnOk result (Appends (W.contents out.old) (W.contents out.new)
        (changed_text sets.now comparison.now changes.now)) }
    ensures begun { OnErr result (AppendsFront (W.contents out.old) (W.contents out.new)
        (changed_text sets.now comparison.now changes.now)) }
    ensures refused { IfErr result (λ e. (e ≡ WriteFault)
        ⊎ ((e ≡ MemoryFault) × (out.new ≡ out.old))) }
{
    let text = text_of(alloc, comparison, changes, sets)?;
    write_bytes(text.as_bytes(), out)
}

/// A comparison as JSON, with the rows of what changes, and the names of calls from these sets.
pub fn changes_document(
    alloc: Global,
    comparison: &Comparison,
    changes: &Changes<'_>,
    sets: &[Names],
) -> Result<Document, AllocError>
    ensures { IfOk result (λ d. view d ≡ changed_document sets.now comparison.now changes.now) }
{
    let fields = comparison_fields(alloc, comparison, sets)?.with(
        "shown",
        Document::copy_of(alloc, word_of(changes.only))?,
    )?;
    let rows = with_rows(alloc, fields, Subject::Change, sets, &changes.shown)?;
    Ok(Document::object(rows))
}

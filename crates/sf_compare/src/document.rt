//! A comparison as JSON.

ghost use Rattle.std.specs.Prelude.{◌≡◌, IfOk};
ghost use Rattle.serde_json.specs.View.{view};
ghost use Rattle.sf_compare.specs.Documents.{comparison_document, change_document, result_document};

use crate::comparison::Comparison;
use sf_json::{
    Document, Fields, answer_document, diagram_document, input_document, sizes_document,
};
use sf_names::Names;
use sf_relations::{Example, Relation};
use std::alloc::{AllocError, Global};

/// Without an example the caller gives null for it and for both answers.
fn result_document(
    alloc: Global,
    word: &str,
    example: Document,
    old: Document,
    new: Document,
) -> Result<Document, AllocError>
    ensures { IfOk result (λ d. view d
        ≡ result_document word.now (view example) (view old) (view new)) }
{
    let fields = Fields::new(alloc)
        .with("result", Document::copy_of(alloc, word)?)?
        .with("example", example)?
        .with("old", old)?
        .with("new", new)?;
    Ok(Document::object(fields))
}

fn change_document(
    alloc: Global,
    names: &[Names],
    finding: Option<Example>,
) -> Result<Document, AllocError>
    ensures { IfOk result (λ d. view d ≡ change_document names.now finding) }
{
    match finding {
        None => result_document(
            alloc,
            "never",
            Document::null(),
            Document::null(),
            Document::null(),
        ),
        Some(example) => {
            let input = input_document(alloc, names, &example.input)?;
            let old = answer_document(alloc, example.before)?;
            let new = answer_document(alloc, example.after)?;
            result_document(alloc, "found", input, old, new)
        }
    }
}

/// The fields of a comparison as JSON.
pub fn comparison_fields(
    alloc: Global,
    comparison: &Comparison,
    names: &[Names],
) -> Result<Fields, AllocError>
    ensures { IfOk result (λ f. view f ≡ comparison_document names.now comparison.now) }
{
    let looser = change_document(alloc, names, comparison.finding(Relation::Looser))?;
    let tighter = change_document(alloc, names, comparison.finding(Relation::Tighter))?;
    let different = change_document(alloc, names, comparison.finding(Relation::Different))?;
    Fields::new(alloc)
        .with("seccomp_audit", Document::copy_of(alloc, "compare")?)?
        .with("version", Document::number(2))?
        .with(
            "old",
            sizes_document(alloc, comparison.old_stack().programs())?,
        )?
        .with(
            "new",
            sizes_document(alloc, comparison.new_stack().programs())?,
        )?
        .with("diagram", diagram_document(alloc, comparison.nodes())?)?
        .with("looser", looser)?
        .with("tighter", tighter)?
        .with("different", different)
}

/// A comparison as JSON.
pub fn comparison_document(
    alloc: Global,
    comparison: &Comparison,
    names: &[Names],
) -> Result<Document, AllocError>
    ensures { IfOk result (λ d. view d ≡ comparison_document names.now comparison.now) }
{
    let fields = comparison_fields(alloc, comparison, names)?;
    Ok(Document::object(fields))
}

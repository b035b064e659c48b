//! Which filters of a stack are needed, as JSON.

ghost use Rattle.std.specs.Prelude.{◌≡◌, ◌<◌, ◌+◌, All, map, IfOk};
ghost use Rattle.serde_json.specs.View.{view};
ghost use Rattle.sf_json.specs.Documents.{count};
ghost use Rattle.sf_needed.specs.Documents.{finding_document, finding_documents, finding_object, needs_document, needed_totals_document};

use crate::needs::NeededFilters;
use sf_json::{Document, Fields, diagram_document, input_document, sizes_document};
use sf_relations::Example;
use std::alloc::{AllocError, Global};

fn finding_object(
    alloc: Global,
    number: usize,
    word: &str,
    example: Document,
) -> Result<Document, AllocError>
    ensures { IfOk result (λ d. view d ≡ finding_object number word.now (view example)) }
{
    let fields = Fields::new(alloc)
        .with("number", Document::count(number))?
        .with("result", Document::copy_of(alloc, word)?)?
        .with("example", example)?;
    Ok(Document::object(fields))
}

/// The call of the example isn't named.
fn finding_document(
    alloc: Global,
    number: usize,
    finding: Option<Example>,
) -> Result<Document, AllocError>
    ensures { IfOk result (λ d. view d ≡ finding_document number finding) }
{
    match finding {
        None => finding_object(alloc, number, "spare", Document::null()),
        Some(example) => {
            let input = input_document(alloc, &[], &example.input)?;
            finding_object(alloc, number, "needed", input)
        }
    }
}

fn finding_documents(
    alloc: Global,
    findings: &[Option<Example>],
) -> Result<Vec<Document>, AllocError>
    ensures { IfOk result (λ v. map view v.items ≡ finding_documents 1 findings.now) }
{
    let mut documents = Vec::new(alloc);
    for (place, finding) in findings.iter().enumerate() {
        let document = finding_document(alloc, place + 1, *finding)?;
        documents.push(document)?;
    }
    Ok(documents)
}

fn kept_documents(alloc: Global, kept: &[usize]) -> Result<Vec<Document>, AllocError>
    requires { All (λ p. p < 64) kept.now }
    ensures { IfOk result (λ v. map view v.items ≡ map (λ p. count (p + 1)) kept.now) }
{
    let mut documents = Vec::new(alloc);
    for place in kept {
        documents.push(Document::count(*place + 1))?;
    }
    Ok(documents)
}

fn totals_document(alloc: Global, needs: &NeededFilters) -> Result<Document, AllocError>
    ensures { IfOk result (λ d. view d ≡ needed_totals_document needs.now) }
{
    let fields = Fields::new(alloc)
        .with("needed", Document::count(needs.count_needed()))?
        .with("spare", Document::count(needs.count_spare()))?
        .with("kept", Document::count(needs.kept().len()))?;
    Ok(Document::object(fields))
}

/// Which filters of a stack are needed, as JSON.
pub fn needs_document(alloc: Global, needs: &NeededFilters) -> Result<Document, AllocError>
    ensures { IfOk result (λ d. view d ≡ needs_document needs.now) }
{
    let filters = finding_documents(alloc, needs.findings())?;
    let kept = kept_documents(alloc, needs.kept())?;
    let fields = Fields::new(alloc)
        .with("seccomp_audit", Document::copy_of(alloc, "needed")?)?
        .with("version", Document::number(2))?
        .with("stack", sizes_document(alloc, needs.stack().programs())?)?
        .with("diagram", diagram_document(alloc, needs.nodes())?)?
        .with("filters", Document::array(alloc, filters)?)?
        .with("kept", Document::array(alloc, kept)?)?
        .with("totals", totals_document(alloc, needs)?)?;
    Ok(Document::object(fields))
}

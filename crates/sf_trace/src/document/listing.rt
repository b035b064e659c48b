//! What `check` finds, as JSON.

ghost use Rattle.std.specs.Prelude.{◌≡◌, length, map, IfOk};
ghost use Rattle.serde_json.specs.View.{view};
ghost use Rattle.sf_trace.specs.CheckDocuments.{AreFilterDocuments, IsCheckDocument, IsFilterDocument, AreListedLines};

use crate::texts::push_instructions;
use sf_check::{Program, Stack};
use sf_json::{Document, Fields};
use std::alloc::{AllocError, Global};

fn listing_of(alloc: Global, listed: bool, program: &Program) -> Result<Document, AllocError>
    ensures { IfOk result (λ d. AreListedLines listed program.now (view d)) }
{
    if !listed {
        return Ok(Document::null());
    }
    let mut text = String::new(alloc);
    push_instructions(alloc, &mut text, program)?;
    Ok(Document::text(text))
}

fn document_of(
    alloc: Global,
    listed: bool,
    number: usize,
    program: &Program,
) -> Result<Document, AllocError>
    ensures { IfOk result (λ d. IsFilterDocument listed number program.now (view d)) }
{
    let listing = listing_of(alloc, listed, program)?;
    let fields = Fields::new(alloc)
        .with("number", Document::count(number))?
        .with("instructions", Document::count(program.insns().len()))?
        .with("listing", listing)?;
    Ok(Document::object(fields))
}

fn filter_documents(
    alloc: Global,
    listed: bool,
    programs: &[Program],
) -> Result<Vec<Document>, AllocError>
    ensures { IfOk result (λ v. AreFilterDocuments listed programs.now (map view v.items)) }
{
    let mut documents = Vec::new(alloc);
    for (i, program) in programs.iter().enumerate() {
        let document = document_of(alloc, listed, i + 1, program)?;
        documents.push(document)?;
    }
    Ok(documents)
}

/// What `check` finds of a stack, as JSON.
pub fn check_document(alloc: Global, stack: &Stack, listed: bool) -> Result<Document, AllocError>
    ensures { IfOk result (λ d. IsCheckDocument listed stack.now (view d)) }
{
    let filters = filter_documents(alloc, listed, stack.programs())?;
    let fields = Fields::new(alloc)
        .with("seccomp_audit", Document::copy_of(alloc, "check")?)?
        .with("version", Document::number(1))?
        .with("filters", Document::array(alloc, filters)?)?
        .with("path", Document::count(stack.path_length()))?;
    Ok(Document::object(fields))
}

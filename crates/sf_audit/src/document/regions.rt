//! Regions as JSON.

ghost use Rattle.std.specs.Prelude.{◌≡◌, map, string_bytes, IfOk};
ghost use Rattle.serde_json.specs.View.{view};
ghost use Rattle.sf_audit.specs.Documents.{region_document, shown_regions};
ghost use Rattle.sf_audit.specs.Reports.{letter};

use sf_book::{Region, Settled};
use sf_json::{Document, Fields, answer_document};
use std::alloc::{AllocError, Global};

fn letters_of(alloc: Global, name: &[bool]) -> Result<String, AllocError>
    ensures { IfOk result (λ text. string_bytes text ≡ map letter name.now) }
{
    let mut text = String::new(alloc);
    for value in name {
        text.push_str(if *value { "T" } else { "F" })?;
    }
    Ok(text)
}

fn name_of(alloc: Global, region: &Region) -> Result<String, AllocError>
    ensures { IfOk result (λ text. string_bytes text ≡ map letter region.now.name) }
{
    let name = region.name().values(alloc)?;
    letters_of(alloc, &name)
}

fn region_document(alloc: Global, number: usize, region: &Region) -> Result<Document, AllocError>
    ensures { IfOk result (λ d. view d ≡ region_document number region.now) }
{
    let name = name_of(alloc, region)?;
    let answer = answer_document(alloc, region.answer())?;
    let fields = Fields::new(alloc)
        .with("number", Document::count(number))?
        .with("name", Document::text(name))?
        .with("answer", answer)?;
    Ok(Document::object(fields))
}

pub(super) fn shown_regions(
    alloc: Global,
    shown: bool,
    settled: &Settled,
) -> Result<Document, AllocError>
    ensures { IfOk result (λ d. view d ≡ shown_regions shown settled.now.regions) }
{
    if !shown {
        return Ok(Document::null());
    }
    let mut documents = Vec::new(alloc);
    for i in 0..settled.region_count() {
        let document = region_document(alloc, i + 1, settled.region(i))?;
        documents.push(document)?;
    }
    Document::array(alloc, documents)
}

//! Rows as JSON.

ghost use Rattle.std.specs.Prelude.{◌≡◌, IfOk, map, option_map, string_bytes};
ghost use Rattle.serde_json.specs.Data.{string};
ghost use Rattle.serde_json.specs.View.{view};
ghost use Rattle.sf_json.specs.Documents.{list_of};
ghost use Rattle.sf_rows.specs.Lines.{row_names};
ghost use Rattle.sf_rows.specs.Documents.{call_row_document, calls_document, condition_document, range_document, row_document, with_rows, with_answers};

use crate::calls::CallRow;
use crate::names::row_names;
use crate::shown::{Shown, shown_count};
use crate::subject::{Subject, after_of, answer_of, before_of};
use crate::words::name_of;
use sf_json::{Document, Fields, answer_document};
use sf_names::Names;
use sf_parts::{Condition, Row, Span};
use std::alloc::{AllocError, Global};

fn range_document(alloc: Global, span: Span) -> Result<Document, AllocError>
    ensures { IfOk result (λ d. view d ≡ range_document span) }
{
    let ends = vec![in alloc; Document::number(span.first), Document::number(span.last)]?;
    Document::array(alloc, ends)
}

fn range_documents(alloc: Global, spans: &[Span]) -> Result<Vec<Document>, AllocError>
    ensures { IfOk result (λ v. map view v.items ≡ map range_document spans.now) }
{
    let mut documents = Vec::new(alloc);
    for span in spans {
        documents.push(range_document(alloc, *span)?)?;
    }
    Ok(documents)
}

fn condition_document(alloc: Global, condition: &Condition) -> Result<Document, AllocError>
    ensures { IfOk result (λ d. view d ≡ condition_document condition.now) }
{
    let ranges = range_documents(alloc, &condition.form.spans)?;
    let fields = Fields::new(alloc)
        .with("word", Document::copy_of(alloc, name_of(condition.word))?)?
        .with("mask", Document::number(condition.form.mask))?
        .with("not", Document::truth(condition.form.without))?
        .with("ranges", Document::array(alloc, ranges)?)?;
    Ok(Document::object(fields))
}

fn condition_documents(alloc: Global, conditions: &[Condition]) -> Result<Vec<Document>, AllocError>
    ensures { IfOk result (λ v. map view v.items ≡ map condition_document conditions.now) }
{
    let mut documents = Vec::new(alloc);
    for condition in conditions {
        documents.push(condition_document(alloc, condition)?)?;
    }
    Ok(documents)
}

fn with_answers(
    alloc: Global,
    fields: Fields,
    subject: Subject,
    number: u64,
) -> Result<Fields, AllocError>
    ensures { IfOk result (λ f. view f ≡ with_answers subject number (view fields)) }
{
    match subject {
        Subject::Stack => fields.with("answer", answer_document(alloc, answer_of(number))?),
        Subject::Change => fields
            .with("old", answer_document(alloc, before_of(number))?)?
            .with("new", answer_document(alloc, after_of(number))?),
    }
}

fn text_documents(alloc: Global, texts: Vec<String>) -> Result<Vec<Document>, AllocError>
    ensures { IfOk result (λ v. map view v.items
        ≡ map string (map string_bytes texts.items)) }
{
    let mut documents = Vec::new(alloc);
    for text in texts {
        documents.push(Document::text(text))?;
    }
    Ok(documents)
}

fn row_document(
    alloc: Global,
    subject: Subject,
    sets: &[Names],
    row: &Row,
) -> Result<Document, AllocError>
    ensures { IfOk result (λ d. view d ≡ row_document subject sets.now row.now) }
{
    let names = text_documents(alloc, row_names(alloc, sets, &row.conditions)?)?;
    let conditions = condition_documents(alloc, &row.conditions)?;
    let fields = Fields::new(alloc)
        .with("conditions", Document::array(alloc, conditions)?)?
        .with("calls", Document::array(alloc, names)?)?;
    let shown = with_answers(alloc, fields, subject, row.number)?;
    Ok(Document::object(shown))
}

fn row_documents(
    alloc: Global,
    subject: Subject,
    sets: &[Names],
    rows: &[Row],
) -> Result<Vec<Document>, AllocError>
    ensures { IfOk result (λ v. map view v.items
        ≡ map (row_document subject sets.now) rows.now) }
{
    let mut documents = Vec::new(alloc);
    for row in rows {
        documents.push(row_document(alloc, subject, sets, row)?)?;
    }
    Ok(documents)
}

fn call_row_document(
    alloc: Global,
    subject: Subject,
    row: &CallRow<'_>,
) -> Result<Document, AllocError>
    ensures { IfOk result (λ d. view d ≡ call_row_document subject row.now) }
{
    let conditions = condition_documents(alloc, &row.row().conditions)?;
    let fields = Fields::new(alloc)
        .with("set", Document::copy_of(alloc, row.set())?)?
        .with("call", Document::copy_of(alloc, row.name())?)?
        .with("conditions", Document::array(alloc, conditions)?)?;
    let shown = with_answers(alloc, fields, subject, row.row().number)?;
    Ok(Document::object(shown))
}

fn calls_document(
    alloc: Global,
    subject: Subject,
    calls: &Option<Vec<CallRow<'_>>>,
) -> Result<Document, AllocError>
    ensures { IfOk result (λ d. view d ≡ calls_document subject
        (option_map (λ v. v.items) calls.now)) }
{
    let Some(rows) = calls else {
        return Ok(Document::null());
    };
    let mut documents = Vec::new(alloc);
    for row in rows {
        documents.push(call_row_document(alloc, subject, row)?)?;
    }
    Document::array(alloc, documents)
}

/// Fields, and what is shown: the rows of calls (`calls`, `null` where none are shown), the other rows (`rows`), and
/// the number of both together (`total`, at `rows`). `sets` give the names of the calls of a row.
pub fn with_rows(
    alloc: Global,
    fields: Fields,
    subject: Subject,
    sets: &[Names],
    shown: &Shown<'_>,
) -> Result<Fields, AllocError>
    ensures { IfOk result (λ f. view f ≡ with_rows subject sets.now shown.now (view fields)) }
{
    let rows = row_documents(alloc, subject, sets, shown.rows())?;
    let total = Fields::new(alloc).with("rows", Document::count(shown_count(shown)))?;
    fields
        .with("calls", calls_document(alloc, subject, shown.calls())?)?
        .with("rows", Document::array(alloc, rows)?)?
        .with("total", Document::object(total))
}

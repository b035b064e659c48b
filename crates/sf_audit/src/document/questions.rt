//! Questions with their replies, as JSON.

ghost use Rattle.std.specs.Prelude.{◌≡◌, ◌<◌, ◌^◌, length, map, string_bytes, IfOk};
ghost use Rattle.serde_json.specs.View.{view};
ghost use Rattle.sf_audit.specs.Documents.{example_of, origin_of, question_document, question_documents, remark_document, reply_word, telling_data};
ghost use Rattle.sf_audit.specs.Reports.{remark_at};
ghost use Rattle.sf_json.specs.Documents.{list_of};

use super::Telling;
use crate::expecting::Expected;
use sf_ask::{Question, Reply};
use sf_json::{Document, Fields, input_document};
use sf_names::Names;
use std::alloc::{AllocError, Global};

pub(super) fn reply_word(reply: Reply) -> &'static str
    ensures { result.now ≡ reply_word reply }
{
    match reply {
        Reply::Never => "never",
        Reply::Allowed(_) => "allowed",
        Reply::Unsettled => "unsettled",
    }
}

fn example_of(alloc: Global, names: &[Names], reply: Reply) -> Result<Document, AllocError>
    ensures { IfOk result (λ d. view d ≡ example_of names.now reply) }
{
    match reply {
        Reply::Allowed(input) => input_document(alloc, names, &input),
        Reply::Never | Reply::Unsettled => Ok(Document::null()),
    }
}

fn remark_document(alloc: Global, text: &str) -> Result<Document, AllocError>
    ensures { IfOk result (λ d. view d ≡ remark_document text.now) }
{
    if text.is_empty() {
        return Ok(Document::null());
    }
    Document::copy_of(alloc, text)
}

fn why_of(alloc: Global, remarks: &[String], place: usize) -> Result<Document, AllocError>
    ensures { IfOk result (λ d. view d
        ≡ remark_document (remark_at (map string_bytes remarks.now) place)) }
{
    match remarks.get(place) {
        Some(remark) => remark_document(alloc, remark.as_str()),
        None => Ok(Document::null()),
    }
}

fn origin_of(origins: &[Document], place: usize) -> Result<Document, AllocError>
    ensures { IfOk result (λ d. view d ≡ origin_of (map view origins.now) place) }
{
    match origins.get(place) {
        Some(origin) => origin.try_clone(),
        None => Ok(Document::null()),
    }
}

fn question_document(
    alloc: Global,
    telling: &Telling<'_>,
    expected: &Expected,
    place: usize,
    name: &str,
    reply: Reply,
) -> Result<Document, AllocError>
    requires { place < 2 ^ 63 }
    ensures { IfOk result (λ d. view d
        ≡ question_document (telling_data telling.now) expected.now place name.now reply) }
{
    let fields = Fields::new(alloc)
        .with("number", Document::count(place + 1))?
        .with("name", Document::copy_of(alloc, name)?)?
        .with("origin", origin_of(telling.origins, place)?)?
        .with("reply", Document::copy_of(alloc, reply_word(reply))?)?
        .with("example", example_of(alloc, telling.names, reply)?)?
        .with("why", why_of(alloc, telling.remarks, place)?)?
        .with("accepted", Document::truth(expected.is_accepted(name)))?
        .with(
            "unexpected",
            Document::truth(expected.is_unexpected(name, reply)),
        )?;
    Ok(Document::object(fields))
}

pub(super) fn questions_document(
    alloc: Global,
    telling: &Telling<'_>,
    expected: &Expected,
    questions: &[Question],
    replies: &[Reply],
) -> Result<Document, AllocError>
    requires { length questions.now ≡ length replies.now }
    ensures { IfOk result (λ d. view d ≡ list_of (question_documents
        (telling_data telling.now) expected.now 0 questions.now replies.now)) }
{
    let mut documents = Vec::new(alloc);
    for (i, question) in questions.iter().enumerate() {
        let name = question.name();
        let document = question_document(alloc, telling, expected, i, name, replies[i])?;
        documents.push(document)?;
    }
    Document::array(alloc, documents)
}

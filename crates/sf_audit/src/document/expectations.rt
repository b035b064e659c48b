//! What was expected of an audit, as JSON.

ghost use Rattle.std.specs.Prelude.{◌≡◌, length, map, IfOk};
ghost use Rattle.serde_json.specs.View.{view};
ghost use Rattle.sf_audit.specs.Documents.{control_document, control_documents, shown_expected};

use super::questions::reply_word;
use crate::expecting::Expected;
use sf_ask::{Question, Reply};
use sf_json::{Document, Fields};
use std::alloc::{AllocError, Global};

fn control_document(alloc: Global, name: &str, reply: Reply) -> Result<Document, AllocError>
    ensures { IfOk result (λ d. view d ≡ control_document name.now reply) }
{
    let fields = Fields::new(alloc)
        .with("name", Document::copy_of(alloc, name)?)?
        .with("reply", Document::copy_of(alloc, reply_word(reply))?)?;
    Ok(Document::object(fields))
}

fn control_documents(
    alloc: Global,
    questions: &[Question],
    replies: &[Reply],
) -> Result<Vec<Document>, AllocError>
    requires { length questions.now ≡ length replies.now }
    ensures { IfOk result (λ v. map view v.items
        ≡ control_documents questions.now replies.now) }
{
    let mut documents = Vec::new(alloc);
    for (i, question) in questions.iter().enumerate() {
        let document = control_document(alloc, question.name(), replies[i])?;
        documents.push(document)?;
    }
    Ok(documents)
}

pub(super) fn shown_expected(
    alloc: Global,
    shown: bool,
    expected: &Expected,
) -> Result<Document, AllocError>
    ensures { IfOk result (λ d. view d ≡ shown_expected shown expected.now) }
{
    if !shown {
        return Ok(Document::null());
    }
    let control = control_documents(alloc, expected.control(), expected.held())?;
    let fields = Fields::new(alloc)
        .with("control", Document::array(alloc, control)?)?
        .with("holds", Document::truth(expected.does_hold()))?;
    Ok(Document::object(fields))
}

//! What a filter meets, as JSON.

ghost use Rattle.std.specs.Prelude.{◌≡◌, ◌++◌, map, IfOk};
ghost use Rattle.std.specs.List.{flat_map};
ghost use Rattle.serde_json.specs.View.{view};
ghost use Rattle.sf_trace.specs.TraceDocuments.{meeting_document, shown_meeting, step_document, word_name};

use crate::step::{Step, is_false, sign_of, step_of};
use sf_json::{Document, Fields, word_document};
use sf_policy::WORD_KEYS;
use sf_run::Meeting;
use std::alloc::{AllocError, Global};

fn word_name(alloc: Global, word: Option<u8>) -> Result<Document, AllocError>
    ensures { IfOk result (λ d. view d ≡ word_name word) }
{
    let Some(word) = word else {
        return Ok(Document::null());
    };
    let name = WORD_KEYS.get(usize::from(word)).copied().unwrap_or("");
    Document::copy_of(alloc, name)
}

fn step_document(
    alloc: Global,
    place: usize,
    step: Step,
    sign: Document,
    other: Document,
    truth: Document,
) -> Result<Document, AllocError>
    ensures { IfOk result (λ d. view d ≡ step_document place step
        (view sign, view other, view truth)) }
{
    let fields = Fields::new(alloc)
        .with("instruction", Document::count(place))?
        .with("word", word_name(alloc, step.word)?)?
        .with("value", word_document(alloc, step.value)?)?
        .with("sign", sign)?
        .with("other", other)?
        .with("true", truth)?;
    Ok(Document::object(fields))
}

fn meeting_document(alloc: Global, meeting: Meeting) -> Result<Document, AllocError>
    ensures { IfOk result (λ d. view d ≡ meeting_document meeting) }
{
    let (place, step) = (meeting.place, step_of(meeting));
    match step.compared {
        Some((test, other, truth)) => {
            let sign = Document::copy_of(alloc, sign_of(test))?;
            let other = word_document(alloc, other)?;
            step_document(alloc, place, step, sign, other, Document::truth(truth))
        }
        None => {
            let (sign, other) = (Document::null(), Document::null());
            step_document(alloc, place, step, sign, other, Document::null())
        }
    }
}

fn push_shown(
    alloc: Global,
    documents: &mut Vec<Document>,
    brief: bool,
    meeting: Meeting,
) -> Result<(), AllocError>
    ensures { IfOk result (λ _. map view documents.new.items ≡ map view documents.old.items
        ++ shown_meeting brief meeting) }
{
    if brief && is_false(meeting) {
        return Ok(());
    }
    documents.push(meeting_document(alloc, meeting)?)?;
    Ok(())
}

pub(super) fn met_documents(
    alloc: Global,
    brief: bool,
    met: &[Meeting],
) -> Result<Vec<Document>, AllocError>
    ensures { IfOk result (λ v. map view v.items ≡ flat_map (shown_meeting brief) met.now) }
{
    let mut documents = Vec::new(alloc);
    for meeting in met {
        push_shown(alloc, &mut documents, brief, *meeting)?;
    }
    Ok(documents)
}

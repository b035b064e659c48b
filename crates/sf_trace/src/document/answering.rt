//! What `eval` finds, as JSON.

ghost use Rattle.std.specs.Prelude.{◌≡◌, map, IfOk};
ghost use Rattle.serde_json.specs.View.{view};
ghost use Rattle.sf_trace.specs.TraceDocuments.{eval_document, filter_document, traced_document};

use super::steps::met_documents;
use crate::runs::{Run, Trace, runs_of};
use sf_json::{Document, Fields, action_document, answer_document, input_document};
use sf_run::Action;
use std::alloc::{AllocError, Global};

fn filter_document(alloc: Global, brief: bool, run: &Run) -> Result<Document, AllocError>
    ensures { IfOk result (λ d. view d ≡ filter_document brief run.now) }
{
    let value = run.course.value;
    let action = Action::of_number(value & 0xffff0000);
    let met = met_documents(alloc, brief, &run.course.met)?;
    let fields = Fields::new(alloc)
        .with("number", Document::count(run.number))?
        .with("answer", action_document(alloc, action, value & 0xffff)?)?
        .with("instruction", Document::count(run.course.place))?
        .with("stands", Document::truth(run.stands))?
        .with("met", Document::array(alloc, met)?)?;
    Ok(Document::object(fields))
}

fn filter_documents(alloc: Global, brief: bool, runs: &[Run]) -> Result<Vec<Document>, AllocError>
    ensures { IfOk result (λ v. map view v.items ≡ map (filter_document brief) runs.now) }
{
    let mut documents = Vec::new(alloc);
    for run in runs {
        documents.push(filter_document(alloc, brief, run)?)?;
    }
    Ok(documents)
}

fn traced_document(
    alloc: Global,
    traced: bool,
    trace: &Trace<'_>,
) -> Result<Document, sf_run::Fault>
    ensures { IfOk result (λ d. view d ≡ traced_document traced trace.now.brief
        trace.now.stack.now trace.now.input.now trace.now.answer) }
{
    if !traced && !trace.brief {
        return Ok(Document::null());
    }
    let runs = runs_of(alloc, trace)?;
    let documents = filter_documents(alloc, trace.brief, &runs)?;
    Ok(Document::array(alloc, documents)?)
}

/// What `eval` finds, as JSON.
pub fn eval_document(
    alloc: Global,
    traced: bool,
    trace: &Trace<'_>,
) -> Result<Document, sf_run::Fault>
    ensures { IfOk result (λ d. view d ≡ eval_document traced trace.now.brief trace.now.names.now
        trace.now.stack.now trace.now.input.now trace.now.answer) }
{
    let fields = Fields::new(alloc)
        .with("seccomp_audit", Document::copy_of(alloc, "eval")?)?
        .with("version", Document::number(1))?
        .with("input", input_document(alloc, trace.names, trace.input)?)?
        .with("answer", answer_document(alloc, trace.answer)?)?
        .with("filters", traced_document(alloc, traced, trace)?)?;
    Ok(Document::object(fields))
}

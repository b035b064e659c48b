//! An audit as JSON.

mod expectations;
mod questions;
mod regions;

ghost use Rattle.std.specs.Prelude.{◌≡◌, IfOk};
ghost use Rattle.serde_json.specs.View.{view};
ghost use Rattle.sf_audit.specs.Documents.{audit_document, telling_data, totals_document};

use crate::counting::{count_allowed, count_never, count_unsettled};
use crate::expecting::Expected;
use crate::outcome::Outcome;
use expectations::shown_expected;
use questions::questions_document;
use regions::shown_regions;
use sf_ask::Reply;
use sf_json::{Document, Fields, counts_document, sizes_document};
use sf_names::Names;
use std::alloc::{AllocError, Global};

/// How an audit is shown.
#[derive(Drop)]
pub struct Telling<'m> {
    /// Whether the settled regions are shown.
    pub regions: bool,
    /// Whether it is shown what was expected.
    pub is_expecting: bool,
    /// The names of calls with which inputs are shown.
    pub names: &'m [Names],
    /// For each question, at its place, the policy file and, if known, the line where it stands, as an object. `null`
    /// is shown for a question behind the end of this list.
    pub origins: &'m [Document],
    /// For each question, at its place, the remark on it: whole lines of text that say why the stack answers its
    /// example as it does. `null` is shown for an empty remark, and for a question behind the end of this list.
    pub remarks: &'m [String],
}

fn totals_document(alloc: Global, replies: &[Reply]) -> Result<Document, AllocError>
    ensures { IfOk result (λ d. view d ≡ totals_document replies.now) }
{
    let fields = Fields::new(alloc)
        .with("never", Document::count(count_never(replies)))?
        .with("allowed", Document::count(count_allowed(replies)))?
        .with("unsettled", Document::count(count_unsettled(replies)))?;
    Ok(Document::object(fields))
}

/// An audit as a JSON object. The fields `expected` and `regions` are `null` where `telling` doesn't ask for them. Each
/// question says in any case whether it is accepted or unexpected by the parameter `expected`.
pub fn audit_document(
    alloc: Global,
    outcome: &Outcome,
    expected: &Expected,
    telling: &Telling<'_>,
) -> Result<Document, AllocError>
    ensures { IfOk result (λ d. view d ≡ audit_document (telling_data telling.now)
        expected.now outcome.now) }
{
    let settled = outcome.settled();
    let (asked, replies) = (outcome.questions(), outcome.replies());
    let questions = questions_document(alloc, telling, expected, asked, replies)?;
    let shown = shown_expected(alloc, telling.is_expecting, expected)?;
    let regions = shown_regions(alloc, telling.regions, settled)?;
    let fields = Fields::new(alloc)
        .with("seccomp_audit", Document::copy_of(alloc, "audit")?)?
        .with("version", Document::number(1))?
        .with("stack", sizes_document(alloc, settled.stack().programs())?)?
        .with("counts", counts_document(alloc, settled.counts())?)?
        .with("questions", questions)?
        .with("expected", shown)?
        .with("regions", regions)?
        .with("totals", totals_document(alloc, outcome.replies())?)?;
    Ok(Document::object(fields))
}

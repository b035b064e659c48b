//! What is shown of stacks as JSON: their size, the counts of an exploration, and the nodes of diagrams.

ghost use Rattle.std.specs.Prelude.{◌≡◌, ◌≤◌, length, IfOk};
ghost use Rattle.sf_json.specs.Documents.{counts_document, diagram_document, sizes_document};
ghost use Rattle.serde_json.specs.View.{view};

use crate::document::{Document, Fields};
use sf_check::{Program, path_length};
use sf_run::Counts;
use std::alloc::{AllocError, Global};

/// The object with how many programs there are (`filters`), and the length of the path through them (`path`).
pub fn sizes_document(alloc: Global, programs: &[Program]) -> Result<Document, AllocError>
    requires { length programs.now ≤ 64 }
    ensures { IfOk result (λ d. view d ≡ sizes_document programs.now) }
{
    let filters = programs.len();
    let path = path_length(programs);
    let fields = Fields::new(alloc)
        .with("filters", Document::count(filters))?
        .with("path", Document::count(path))?;
    Ok(Document::object(fields))
}

/// The object with the counts of an exploration: `regions`, `open`, `emptied`, `splits` and `commits`.
pub fn counts_document(alloc: Global, counts: Counts) -> Result<Document, AllocError>
    ensures { IfOk result (λ d. view d ≡ counts_document counts) }
{
    let fields = Fields::new(alloc)
        .with("regions", Document::count(counts.settled))?
        .with("open", Document::count(counts.left))?
        .with("emptied", Document::count(counts.emptied))?
        .with("splits", Document::number(counts.splits))?
        .with("commits", Document::number(counts.commits))?;
    Ok(Document::object(fields))
}

/// The object with how many nodes diagrams have (`nodes`).
pub fn diagram_document(alloc: Global, nodes: usize) -> Result<Document, AllocError>
    ensures { IfOk result (λ d. view d ≡ diagram_document nodes) }
{
    let fields = Fields::new(alloc).with("nodes", Document::count(nodes))?;
    Ok(Document::object(fields))
}

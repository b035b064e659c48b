//! A listing as JSON.

ghost use Rattle.std.specs.Prelude.{◌≡◌, IfOk};
ghost use Rattle.serde_json.specs.View.{view};
ghost use Rattle.sf_list.specs.Documents.{listing_document};

use crate::listing::Listing;
use sf_json::{Document, Fields, sizes_document};
use sf_names::Names;
use sf_rows::{Subject, with_rows};
use std::alloc::{AllocError, Global};

/// A listing as JSON, with the names of calls from these sets.
pub fn listing_document(
    alloc: Global,
    listing: &Listing<'_>,
    sets: &[Names],
) -> Result<Document, AllocError>
    ensures { IfOk result (λ d. view d ≡ listing_document sets.now listing.now) }
{
    let fields = Fields::new(alloc)
        .with("seccomp_audit", Document::copy_of(alloc, "list")?)?
        .with("version", Document::number(2))?
        .with("stack", sizes_document(alloc, listing.stack().programs())?)?;
    let rows = with_rows(alloc, fields, Subject::Stack, sets, listing.shown())?;
    Ok(Document::object(rows))
}

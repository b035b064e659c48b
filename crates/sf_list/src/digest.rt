//! The digest of what a stack does.

ghost use Rattle.std.specs.Prelude.{◌≡◌, IfOk, string_bytes};
ghost use Rattle.sf_list.specs.Listings.{digest_line};

use crate::listing::Listing;
use sf_rows::{Subject, digest_of_rows};
use std::alloc::{AllocError, Global};

/// The line with the digest of the rows that a listing shows each by itself; without calls these are all rows. Stacks
/// that answer alike have one line.
pub fn digest_of(alloc: Global, listing: &Listing<'_>) -> Result<String, AllocError>
    ensures { IfOk result (λ text. string_bytes text ≡ digest_line listing.now) }
{
    let hex = digest_of_rows(alloc, Subject::Stack, listing.shown().rows())?;
    format!(in alloc; "list 2 sha256 {hex}\n")
}

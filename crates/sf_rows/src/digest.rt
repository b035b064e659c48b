ghost use Rattle.std.specs.Prelude.{◌≡◌, IfOk, string_bytes};
ghost use Rattle.sf_rows.specs.Lines.{digest_of};

use crate::lines::push_rows;
use crate::subject::Subject;
use sf_parts::Row;
use sha2::{Digest, Sha256};
use std::alloc::{AllocError, Global};

/// The SHA-256 of the lines of rows, without names of calls, as 64 hexadecimal digits in lower case.
pub fn digest_of_rows(alloc: Global, subject: Subject, rows: &[Row]) -> Result<String, AllocError>
    ensures { IfOk result (λ text. string_bytes text ≡ digest_of subject rows.now) }
{
    let mut text = String::new(alloc);
    push_rows(alloc, &mut text, subject, &[], rows)?;
    let digest = Sha256::digest(text.as_bytes());
    hex::encode(alloc, &digest)
}

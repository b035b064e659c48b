//! Where the questions of policy files stand, as JSON.

ghost use Rattle.std.specs.Prelude.{◌≡◌, ◌++◌, [], List, false, map, true, IfOk, OnOk};
ghost use Rattle.serde_json.specs.Data.{Data};
ghost use Rattle.serde_json.specs.View.{view};
ghost use Rattle.sf_evaluate.specs.Origins.{AreOriginsOf, IsOrigin};

use crate::explaining::bytes_of_text;
use sf_json::{Document, Fields};
use sf_policy::{Mark, marks_of_questions};
use std::alloc::{AllocError, Global};

/// Where a question stands, as a JSON object: at `policy` the path of its file, at `line` the number, from 1, of the
/// line on which it begins, and at `comment` the text of the comment that stands directly above it, or `null` for what
/// isn't known.
fn origin_document(alloc: Global, path: &str, mark: Option<&Mark>) -> Result<Document, AllocError>
    ensures { IfOk result (λ d. IsOrigin path.now (view d)) }
{
    let line = match mark {
        Some(mark) => Document::count(mark.line),
        None => Document::null(),
    };
    let comment = match mark.and_then(|mark| mark.comment.as_ref()) {
        Some(text) => Document::copy_of(alloc, text.as_str())?,
        None => Document::null(),
    };
    let fields = Fields::new(alloc)
        .with("policy", Document::copy_of(alloc, path)?)?
        .with("line", line)?
        .with("comment", comment)?;
    Ok(Document::object(fields))
}

/// Adds an object for each of the `count` questions of the policy with this path and these bytes, as `origin_document`
/// writes it, if this is asked for.
pub(crate) fn push_origins(
    alloc: Global,
    origins: &mut Vec<Document>,
    is_asked: bool,
    path: &str,
    policy: &[u8],
    count: usize,
) -> Result<(), AllocError>
    ensures { OnOk result ((more : List Data) × (is_asked ≡ true → AreOriginsOf path.now count more)
        × (is_asked ≡ false → more ≡ [])
        × (map view origins.new.items ≡ map view origins.old.items ++ more)) }
{
    if !is_asked {
        return Ok(());
    }
    let text = std::str::from_utf8(bytes_of_text(policy)).unwrap_or("");
    let marks = marks_of_questions(alloc, text)?;
    for place in 0..count {
        origins.push(origin_document(alloc, path, marks.get(place))?)?;
    }
    Ok(())
}

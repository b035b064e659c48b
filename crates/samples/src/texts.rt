//! What values are displayed as.
use std::alloc::{AllocError, Global};
use std::fmt::Display;

/// The text of the first value that is displayed otherwise than the text beside it says; `None` where there is none.
/// `AllocError` where an allocation is refused.
pub fn other_text<T: Display>(
    alloc: Global,
    cases: &[(T, &str)],
) -> Result<Option<String>, AllocError> {
    for (value, said) in cases {
        let text = format!(in alloc; "{value}")?;
        if text.as_str() != *said {
            return Ok(Some(text));
        }
    }
    Ok(None)
}

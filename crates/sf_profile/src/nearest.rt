//! The name of a call that is nearest to one that no machine has. It is for a person: contracts say nothing of it.

use crate::settings::Settings;
use std::alloc::{AllocError, Global};
use strsim::damerau_levenshtein;

/// The name of a call of the given sets that is nearest to `name`, if fewer than a third of its letters would have to
/// be changed, added, left out or exchanged with their neighbours.
pub(crate) fn nearest<'a>(
    alloc: Global,
    settings: &'a Settings,
    name: &str,
) -> Result<Option<&'a str>, AllocError> {
    let mut found = None;
    let mut least = (name.len() + 2) / 3;
    for calls in &settings.calls {
        for call in calls.calls() {
            let distance = damerau_levenshtein(alloc, name, call.name())?;
            if distance < least {
                found = Some(call.name());
                least = distance;
            }
        }
    }
    Ok(found)
}

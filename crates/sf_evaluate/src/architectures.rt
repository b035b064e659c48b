//! A warning of questions about architectures that no set of calls has. No contract speaks of it.

use crate::explaining::Notes;
use sf_names::Names;
use sf_question::Question;
use std::alloc::AllocError;

/// Adds a warning about the first question that asks about a single architecture of which no set is, with its number,
/// from 1, and its name. A wider range is taken to be meant.
fn push_warning(
    text: &mut String,
    questions: &[Question],
    sets: &[Names],
) -> Result<(), AllocError> {
    for (place, question) in questions.iter().enumerate() {
        let (low, high) = question.range(1);
        if low == high && !sets.iter().any(|names| names.arch() == low) {
            let (number, name) = (place.saturating_add(1), question.name());
            return write!(
                text,
                "warning: question {number} {name:?} asks about an architecture that no file of names has: is its number right?\n"
            );
        }
    }
    Ok(())
}

impl Notes {
    /// Adds a warning about the first question that asks about a single architecture of which there is no set; none
    /// where there are no sets. Where there is no memory for it, the notes say so from then on, and the warnings that
    /// they had are lost.
    pub fn warn_of_questions(&mut self, questions: &[Question], sets: &[Names]) {
        if sets.is_empty() {
            return;
        }
        let failed = match &mut self.warnings {
            Ok(text) => push_warning(text, questions, sets).is_err(),
            Err(_) => false,
        };
        if failed {
            self.warnings = Err(AllocError);
        }
    }
}

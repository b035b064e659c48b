//! What is said of a profile that is refused, or of a set of calls for which `profile` is refused.

use super::hints::hint_of_kind;
use super::meanings::meaning_of_refusal;
use super::{Case, Cause};
use sf_command_line::text_of;
use sf_profile::Refused;
use std::alloc::AllocError;

impl Case<'_, '_> {
    /// Adds the line of the file of names that has the set at this place, and the line of this set where the file has
    /// several.
    fn push_other_set(&self, text: &mut String, place: usize, set: &str) -> Result<(), AllocError> {
        let sets = &self.notes.sets;
        let Some(file) = sets.iter().position(|set| place < set.1) else {
            return Err(AllocError);
        };
        let paths = self.found.get_strs("names").unwrap_or(&[]);
        let path = paths.get(file).copied().unwrap_or("");
        write!(text, "names {path:?}\n")?;
        if sets.get(file).is_some_and(|set| set.0 > 1) {
            write!(text, "set {set:?}\n")?;
        }
        Ok(())
    }

    /// Adds the line of the profile, and those of the key for which it is refused and of the reason, where they are
    /// known.
    fn push_refused(&self, text: &mut String, refused: &Refused) -> Result<(), AllocError> {
        let path = text_of(self.found, "profile");
        write!(text, "profile {path:?}\n")?;
        if let Some(key) = &refused.key {
            write!(text, "key {key:?}\n")?;
        }
        if let Some(why) = &refused.why {
            write!(text, "why {why}\n")?;
        }
        Ok(())
    }

    /// The lines that explain why a profile is refused: the set of names or the key at fault, what the fault means, and
    /// a hint.
    pub(super) fn refusal_text(&self, refusal: sf_profile::Fault) -> Result<String, AllocError> {
        let mut text = String::new(self.alloc);
        let hint = match &self.notes.cause {
            Some(Cause::OtherSet(place, name)) => {
                self.push_other_set(&mut text, *place, name.as_str())?;
                None
            }
            Some(Cause::Profile(refused)) => {
                self.push_refused(&mut text, refused)?;
                let file = self.notes.last.as_ref();
                file.and_then(|file| hint_of_kind(file, false))
            }
            _ => return Err(AllocError),
        };
        let meaning = meaning_of_refusal(refusal);
        write!(text, "{meaning}\n")?;
        if let Some(hint) = hint {
            hint.push(&mut text)?;
        }
        Ok(text)
    }
}

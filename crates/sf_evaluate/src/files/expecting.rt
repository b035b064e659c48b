//! The files that say what a build expects of an audit.

ghost use Rattle.std.specs.Prelude.{◌≡◌, ◌⊎◌, ℕ, List, None, Some, map, option_map, string_bytes, IfOk, IfErr};
ghost use Rattle.sf_policy.specs.Accepted.{AreAccepted};
ghost use Rattle.sf_stack.specs.declared.fault.Fault.TheVariants.{Memory as MemoryFault};
ghost use Rattle.sf_evaluate.specs.Failures.{IsGivenFile};
ghost use Rattle.sf_evaluate.specs.declared.files.identity.FileRole.TheVariants.{Accept, Control};
ghost use Rattle.sf_evaluate.specs.Expecting.{AreAcceptedIn, IsControl, RefusesAccepted, RefusesControl, RefusesNamed};

use super::questions::questions_in;
use crate::explaining::Notes;
use crate::files::{FileRole, Files, read_file};
use sf_policy::read_accepted;
use sf_question::Question;
use sf_stack::Fault;
use std::alloc::Global;

/// The questions of the control, whose policy file is at a path, if one is given.
pub fn control_in<F: Files>(
    alloc: Global,
    path: Option<&str>,
    files: &mut F,
    notes: &mut Notes,
) -> Result<Vec<Question>, Fault>
    ensures asked { IfOk result (λ v. IsControl (F.holds files.old)
        (option_map (λ t. t.now) path.entry) v.items) }
    ensures refused { IfErr result (RefusesControl (F.holds files.old)
        (option_map (λ t. t.now) path.entry)) }
    ensures failed { IfErr result (λ e. (e ≡ MemoryFault) ⊎ IsGivenFile Control
        (option_map (λ t. t.now) path.entry) notes.new.last) }
    ensures same { (p : List ℕ) → F.holds files.new p ≡ F.holds files.old p }
{
    match path {
        Some(path) => {
            let (questions, _) = questions_in(alloc, FileRole::Control, path, files, notes)?;
            Ok(questions)
        }
        None => Ok(Vec::new(alloc)),
    }
}

fn accepted_of(alloc: Global, bytes: &[u8], questions: &[Question]) -> Result<Vec<String>, Fault>
    ensures named { IfOk result (λ v. AreAccepted questions.now bytes.now
        (map string_bytes v.items)) }
    ensures refused { IfErr result (λ e. (e ≡ MemoryFault)
        ⊎ RefusesNamed questions.now bytes.now e) }
{
    match std::str::from_utf8(bytes) {
        Ok(text) => read_accepted(alloc, text, questions),
        Err(_) => Err(Fault::Syntax),
    }
}

/// The names of the questions that may be allowed, by the file at a path, if one is given.
pub fn accepted_in<F: Files>(
    alloc: Global,
    path: Option<&str>,
    questions: &[Question],
    files: &mut F,
    notes: &mut Notes,
) -> Result<Vec<String>, Fault>
    ensures named { IfOk result (λ v. AreAcceptedIn (F.holds files.old)
        (option_map (λ t. t.now) path.entry) questions.now (map string_bytes v.items)) }
    ensures refused { IfErr result (RefusesAccepted (F.holds files.old)
        (option_map (λ t. t.now) path.entry) questions.now) }
    ensures failed { IfErr result (λ e. (e ≡ MemoryFault) ⊎ IsGivenFile Accept
        (option_map (λ t. t.now) path.entry) notes.new.last) }
    ensures same { (p : List ℕ) → F.holds files.new p ≡ F.holds files.old p }
{
    match path {
        Some(path) => {
            let bytes = read_file(alloc, FileRole::Accept, path, files, notes)?;
            accepted_of(alloc, &bytes, questions)
        }
        None => Ok(Vec::new(alloc)),
    }
}

//! The questions of the policy files that the command line names.

ghost use Rattle.std.specs.Prelude.{◌≡◌, ◌⊎◌, ℕ, List, None, map, IfOk, IfErr};
ghost use Rattle.serde_json.specs.View.{view};
ghost use Rattle.sf_stack.specs.declared.fault.Fault.TheVariants.{Memory as MemoryFault, Read as ReadFault};
ghost use Rattle.sf_evaluate.specs.Failures.{IsFile, NamesFailed};
ghost use Rattle.sf_evaluate.specs.Files.{AreKnownBytes};
ghost use Rattle.sf_evaluate.specs.Identity.{HasFiles};
ghost use Rattle.sf_evaluate.specs.Origins.{HasOrigins};
ghost use Rattle.sf_evaluate.specs.Policies.{AreAsked, IsPolicyFile, RefusesAsking, RefusesPolicyFile};
ghost use Rattle.sf_evaluate.specs.declared.files.identity.FileRole.TheVariants.{Policy};

use super::identity::{FileRole, push_file};
use super::origins::push_origins;
use crate::explaining::Notes;
use crate::files::{Files, read_file};
use sf_json::Document;
use sf_policy::read_policy_at;
use sf_question::Question;
use sf_stack::Fault;
use std::alloc::Global;

/// The questions of the policy file at a path, and its bytes.
pub(crate) fn questions_in<F: Files>(
    alloc: Global,
    role: FileRole,
    path: &str,
    files: &mut F,
    notes: &mut Notes,
) -> Result<(Vec<Question>, Vec<u8>), Fault>
    ensures asked { IfOk result (λ r. IsPolicyFile (F.holds files.old path.now) r.0.items) }
    ensures kept { IfOk result (λ r. AreKnownBytes (F.holds files.old path.now) r.1.items) }
    ensures refused { IfErr result (λ e. ((e ≡ ReadFault)
        × (F.holds files.old path.now ≡ None))
        ⊎ (e ≡ MemoryFault) ⊎ RefusesPolicyFile (F.holds files.old path.now) e) }
    ensures failed { IfErr result (λ e. (e ≡ MemoryFault)
        ⊎ IsFile role path.now notes.new.last) }
    ensures same { (p : List ℕ) → F.holds files.new p ≡ F.holds files.old p }
{
    let bytes = read_file(alloc, role, path, files, notes)?;
    match std::str::from_utf8(&bytes) {
        Ok(text) => match read_policy_at(alloc, text) {
            Ok(questions) => Ok((questions, bytes)),
            Err(refusal) => Err(notes.take_refusal(bytes, Some(refusal))),
        },
        Err(_) => Err(notes.take_refusal(bytes, None)),
    }
}

/// What is read of policy files.
#[derive(Drop)]
pub struct Policies {
    /// The questions, one file after the other.
    pub questions: Vec<Question>,
    /// In the same order, if they are asked for, where each question stands: a JSON object with the path of its file at
    /// `policy`; at `line` the number, from 1, of the line on which it begins, or `null`; and at `comment` the text of
    /// the comment above it, or `null`.
    pub origins: Vec<Document>,
    /// The documents of the files, if they are asked for.
    pub files: Vec<Document>,
}

/// What is read of the policy files at these paths, with origins and the documents of files where these are asked for.
/// A refusal numbers the questions of each file from 1.
pub fn all_questions_in<F: Files>(
    alloc: Global,
    paths: &[&str],
    with_origins: bool,
    with_documents: bool,
    files: &mut F,
    notes: &mut Notes,
) -> Result<Policies, Fault>
    ensures asked { IfOk result (λ r. AreAsked (F.holds files.old) paths.now r.questions.items) }
    ensures placed { IfOk result (λ r. HasOrigins with_origins (F.holds files.old) paths.now
        r.questions.items (map view r.origins.items)) }
    ensures told { IfOk result (λ r. HasFiles with_documents (F.holds files.old) Policy paths.now
        (map view r.files.items)) }
    ensures refused { IfErr result (RefusesAsking (F.holds files.old) paths.now) }
    ensures failed { IfErr result (λ e. NamesFailed Policy (F.holds files.old) paths.now
        notes.new.last (λ _ path. RefusesPolicyFile (F.holds files.old path) e) e) }
    ensures closed { IfOk result (λ _. notes.new.last ≡ None) }
    ensures same { (p : List ℕ) → F.holds files.new p ≡ F.holds files.old p }
{
    let mut all = Vec::new(alloc);
    let mut origins = Vec::new(alloc);
    let mut documents = Vec::new(alloc);
    for path in paths {
        let role = FileRole::Policy;
        let (mut questions, policy) = questions_in(alloc, role, path, files, notes)?;
        push_file(alloc, &mut documents, with_documents, role, path, &policy)?;
        push_origins(
            alloc,
            &mut origins,
            with_origins,
            path,
            &policy,
            questions.len(),
        )?;
        all.append(&mut questions)?;
    }
    notes.last = None;
    Ok(Policies {
        questions: all,
        origins,
        files: documents,
    })
}

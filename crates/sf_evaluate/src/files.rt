//! The files that the program reads.

mod expecting;
mod groups;
mod identity;
mod naming;
mod opened;
mod origins;
mod questions;
mod stacks;

ghost use Rattle.std.specs.Prelude.{◌≡◌, ◌⊎◌, ◌≤◌, ℕ, List, None, length, map, IfOk, IfErr};
ghost use Rattle.serde_json.specs.View.{view};
ghost use Rattle.sf_evaluate.specs.Failures.{NamesFailed};
ghost use Rattle.sf_evaluate.specs.Files.{AreKeptFiles, AreKnownBytes, HasUnknown};
ghost use Rattle.sf_evaluate.specs.Identity.{HasFiles};
ghost use Rattle.sf_stack.specs.declared.fault.Fault.TheVariants.{Memory, Read};

use crate::explaining::Notes;
pub use expecting::{accepted_in, control_in};
pub use groups::{INSTALLED_GROUPS, groups_in};
use identity::push_file;
pub use identity::{FileRole, Identity, identified, join_documents};
pub use naming::read_needed_names;
pub use opened::FileRead;
pub(crate) use opened::{filter_of, read_file};
pub use questions::{Policies, all_questions_in};
use sf_check::MOST_PROGRAMS;
use sf_json::Document;
use sf_stack::Fault;
pub use stacks::{read_stack, read_stacks};
use std::alloc::Global;

/// 1 MiB, which is 32 times the longest filter. So a file without an end is refused too.
pub const MOST_BYTES: usize = 0x100000;

/// Where files are read by their paths.
pub trait Files {
    ghost use Rattle.std.specs.Prelude.{List, ℕ, Option, None};

    // The bytes of the file at a path, where they are known. A file with known bytes can be read.
    ghost holds: { Self → List ℕ → Option (List ℕ) } = { λ _ _. None };

    /// The bytes of the file at a path; `Read` where it can't be read or has more than `MOST_BYTES`.
    fn read(&mut self, path: &str) -> Result<Vec<u8>, Fault>
        ensures bytes { IfOk result (λ v. AreKnownBytes (holds self.old path.now) v.items) }
        ensures few { IfOk result (λ v. length v.items ≤ 0x100000) }
        ensures refused { IfErr result (λ e. ((e ≡ Read) × (holds self.old path.now ≡ None))
            ⊎ (e ≡ Memory)) }
        ensures same { (p : List ℕ) → holds self.new p ≡ holds self.old p };

    /// Why `read` refused the last file that it refused, in words for a person; empty where that isn't known.
    fn reason(&self) -> &str;

    /// Whether each fault is explained, also where the command line doesn't ask for it.
    fn explains(&self) -> bool {
        false
    }

    /// Takes over what was found, once it is written. A program that ends next may leave its memory to the end of the
    /// process.
    fn take_over<T: Drop>(&self, _found: T) {}
}

/// The bytes of the files at these paths, in order. All files are read, but only the first 65
/// are kept: one more than a stack may have, so that the stack is refused. Gives the documents of all files too, if
/// `with_documents`.
fn read_all<F: Files>(
    alloc: Global,
    role: FileRole,
    paths: &[&str],
    with_documents: bool,
    files: &mut F,
    notes: &mut Notes,
) -> Result<(Vec<Vec<u8>>, Vec<Document>), Fault>
    ensures read { IfOk result (λ r. AreKeptFiles (F.holds files.old) paths.now
        (map (λ f. f.items) r.0.items)) }
    ensures told { IfOk result (λ r. HasFiles with_documents (F.holds files.old) role paths.now
        (map view r.1.items)) }
    ensures refused { IfErr result (λ e. ((e ≡ Read)
        × HasUnknown (F.holds files.old) paths.now) ⊎ (e ≡ Memory)) }
    ensures failed { IfErr result (NamesFailed role (F.holds files.old) paths.now
        notes.new.last (λ _ _. ⊥)) }
    ensures same { (p : List ℕ) → F.holds files.new p ≡ F.holds files.old p }
{
    let mut read = Vec::new(alloc);
    let mut documents = Vec::new(alloc);
    for path in paths {
        let bytes = read_file(alloc, role, path, files, notes)?;
        push_file(alloc, &mut documents, with_documents, role, path, &bytes)?;
        if read.len() <= MOST_PROGRAMS {
            read.push(bytes)?;
        }
    }
    Ok((read, documents))
}

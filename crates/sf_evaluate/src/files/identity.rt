//! What each JSON document says of where it comes from: the program, and the files that were read.

ghost use Rattle.std.specs.Prelude.{◌≡◌, ◌++◌, ◌∷◌, [], if◌then◌else◌, map, IfOk, OnOk};
ghost use Rattle.serde_json.specs.View.{view};
ghost use Rattle.sf_evaluate.specs.Identity.{file_document, identified, role_name};

use sf_json::{Document, Fields};
use sha2::{Digest, Sha256};
use std::alloc::{AllocError, Global};

/// What a file is read as.
#[derive(Clone, Copy, Debug, PartialEq, Eq)]
pub enum FileRole {
    Names,
    /// A policy that asks questions.
    Policy,
    Control,
    /// The file of the questions that may be allowed.
    Accept,
    /// The file of the groups of a summary.
    Groups,
    /// A filter of the only stack.
    Filter,
    /// A filter of the first of two stacks, as `New` of the second.
    Old,
    New,
    Profile,
}

impl FileRole {
    pub(crate) fn name(self) -> &'static str
        ensures { result.now ≡ role_name self }
    {
        match self {
            FileRole::Names => "names",
            FileRole::Policy => "policy",
            FileRole::Control => "control",
            FileRole::Accept => "accept",
            FileRole::Groups => "groups",
            FileRole::Filter => "filter",
            FileRole::Old => "old",
            FileRole::New => "new",
            FileRole::Profile => "profile",
        }
    }
}

fn file_document(
    alloc: Global,
    role: FileRole,
    path: &str,
    bytes: &[u8],
) -> Result<Document, AllocError>
    ensures { IfOk result (λ d. view d ≡ file_document role path.now bytes.now) }
{
    let digest = Sha256::digest(bytes);
    let fields = Fields::new(alloc)
        .with("role", Document::copy_of(alloc, role.name())?)?
        .with("path", Document::copy_of(alloc, path)?)?
        .with("length", Document::count(bytes.len()))?
        .with("sha256", Document::text(hex::encode(alloc, &digest)?))?;
    Ok(Document::object(fields))
}

pub(crate) fn push_file(
    alloc: Global,
    documents: &mut Vec<Document>,
    is_asked: bool,
    role: FileRole,
    path: &str,
    bytes: &[u8],
) -> Result<(), AllocError>
    ensures { OnOk result (map view documents.new.items ≡ map view documents.old.items
        ++ (if is_asked then file_document role path.now bytes.now ∷ [] else [])) }
{
    if is_asked {
        documents.push(file_document(alloc, role, path, bytes)?)?;
    }
    Ok(())
}

/// The documents of some files, and behind them those of others.
pub fn join_documents(
    front: Vec<Document>,
    more: Vec<Document>,
) -> Result<Vec<Document>, AllocError>
    ensures { IfOk result (λ v. map view v.items
        ≡ map view front.items ++ map view more.items) }
{
    let (mut all, mut rest) = (front, more);
    all.append(&mut rest)?;
    Ok(all)
}

/// What identifies a JSON document.
#[derive(Drop)]
pub struct Identity<'v> {
    /// The line of the program's version.
    pub version: &'v str,
    /// The documents of the files that were read, in this order.
    pub files: Vec<Document>,
}

/// A document with two fields more: at `program` the line of the version, without white space at its end; and at
/// `files` the array of the files.
pub fn identified(
    alloc: Global,
    document: Document,
    identity: Identity<'_>,
) -> Result<Document, AllocError>
    ensures { IfOk result (λ d. view d ≡ identified identity.entry.version.now
        (map view identity.entry.files.items) (view document)) }
{
    let Identity { version, files } = identity;
    let program = Document::copy_of(alloc, version.trim_end())?;
    let files = Document::array(alloc, files)?;
    document
        .with(alloc, "files", files)?
        .with(alloc, "program", program)
}

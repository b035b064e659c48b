//! The file that is read, or that failed.

ghost use Rattle.std.specs.Prelude.{◌≡◌, ◌⊎◌, ℕ, List, None, IfOk, IfErr, unwrap_or};
ghost use Rattle.sf_stack.specs.declared.fault.Fault.TheVariants.{Memory as MemoryFault, Read as ReadFault};
ghost use Rattle.sf_stack.specs.TwoStacks.{filter_number};
ghost use Rattle.sf_evaluate.specs.Failures.{IsFile, IsFilterAt};
ghost use Rattle.sf_evaluate.specs.Files.{AreKnownBytes};

use super::Files;
use super::identity::FileRole;
use crate::explaining::{Kind, Notes, kind_of};
use sf_stack::Fault;
use std::alloc::{AllocError, Global};

/// A file that is read, or that failed.
#[derive(Drop)]
pub struct FileRead {
    pub role: FileRole,
    /// As it was given.
    pub path: String,
    pub(crate) kind: Kind,
}

/// The bytes of the file at a path. The notes name this file until its reader takes it.
pub(crate) fn read_file<F: Files>(
    alloc: Global,
    role: FileRole,
    path: &str,
    files: &mut F,
    notes: &mut Notes,
) -> Result<Vec<u8>, Fault>
    ensures bytes { IfOk result (λ v. AreKnownBytes (F.holds files.old path.now) v.items) }
    ensures refused { IfErr result (λ e. ((e ≡ ReadFault)
        × (F.holds files.old path.now ≡ None)) ⊎ (e ≡ MemoryFault)) }
    ensures failed { IfErr result (λ e. (e ≡ MemoryFault)
        ⊎ IsFile role path.now notes.new.last) }
    ensures opened { IfOk result (λ _. IsFile role path.now notes.new.last) }
    ensures same { (p : List ℕ) → F.holds files.new p ≡ F.holds files.old p }
{
    let given = path;
    let path = String::from_str(alloc, given)?;
    match files.read(given) {
        Ok(bytes) => {
            let kind = kind_of(&bytes);
            notes.last = Some(FileRead { role, path, kind });
            Ok(bytes)
        }
        Err(fault) => {
            let kind = Kind::Empty;
            notes.last = Some(FileRead { role, path, kind });
            Err(fault)
        }
    }
}

/// The number, from 1, of the filter that is refused for a fault.
pub(crate) fn filter_of(fault: &Fault) -> Option<usize>
    ensures { unwrap_or result 0 ≡ filter_number fault.now }
{
    match fault {
        Fault::Ragged { filter }
        | Fault::Empty { filter }
        | Fault::TooLong { filter }
        | Fault::Code { filter, .. }
        | Fault::Field { filter, .. }
        | Fault::Jump { filter, .. }
        | Fault::Last { filter }
        | Fault::Scratch { filter, .. } => Some(*filter),
        _ => None,
    }
}

/// Names the file of the filter with this number, from 1, of those with these paths and bytes; none for the number 0.
pub(crate) fn name_filter(
    alloc: Global,
    role: FileRole,
    paths: &[&str],
    read: &[Vec<u8>],
    number: usize,
    notes: &mut Notes,
) -> Result<(), AllocError>
    ensures { IfOk result (λ _. IsFilterAt role paths.now number notes.new.last) }
{
    notes.last = None;
    if number == 0 {
        return Ok(());
    }
    let place = number - 1;
    match paths.get(place) {
        Some(path) => {
            let kind = match read.get(place) {
                Some(bytes) => kind_of(bytes),
                None => Kind::Empty,
            };
            let path = String::from_str(alloc, path)?;
            notes.last = Some(FileRead { role, path, kind });
            Ok(())
        }
        None => Ok(()),
    }
}

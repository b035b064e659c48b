//! The stacks that filter files spell.

ghost use Rattle.std.specs.Prelude.{◌≡◌, ◌⊎◌, None, map, IfOk, IfErr};
ghost use Rattle.serde_json.specs.View.{view};
ghost use Rattle.sf_stack.specs.TwoStacks.{filter_number};
ghost use Rattle.sf_evaluate.specs.Failures.{IsFilterAt, IsFilterOfBoth, NamesFailed};
ghost use Rattle.sf_evaluate.specs.Files.{HoldStack, RefusesBoth, RefusesFiles};
ghost use Rattle.sf_evaluate.specs.Identity.{HasBothFiles, HasFiles};
ghost use Rattle.sf_evaluate.specs.declared.files.identity.FileRole.TheVariants.{Filter, Old, New};

use super::identity::{FileRole, join_documents};
use super::opened::{filter_of, name_filter};
use super::{Files, read_all};
use crate::explaining::Notes;
use sf_check::Stack;
use sf_json::Document;
use sf_stack::{Fault, stack_of, stacks_of};
use std::alloc::Global;

/// The stack of the filter files at these paths, which are named in order of installation; and if `with_documents`, the
/// documents of these files. All files are read before the first of them is looked at.
pub fn read_stack<F: Files>(
    alloc: Global,
    paths: &[&str],
    with_documents: bool,
    files: &mut F,
    notes: &mut Notes,
) -> Result<(Stack, Vec<Document>), Fault>
    ensures held { IfOk result (λ r. HoldStack (F.holds files.old) paths.now r.0) }
    ensures told { IfOk result (λ r. HasFiles with_documents (F.holds files.old) Filter paths.now
        (map view r.1.items)) }
    ensures refused { IfErr result (RefusesFiles (F.holds files.old) paths.now) }
    ensures failed { IfErr result (λ e. NamesFailed Filter (F.holds files.old) paths.now
        notes.new.last (λ _ _. ⊥) e ⊎ IsFilterAt Filter paths.now (filter_number e) notes.new.last) }
    ensures closed { IfOk result (λ _. notes.new.last ≡ None) }
{
    let role = FileRole::Filter;
    let (read, documents) = read_all(alloc, role, paths, with_documents, files, notes)?;
    match stack_of(alloc, &read) {
        Ok(stack) => {
            notes.last = None;
            Ok((stack, documents))
        }
        Err(fault) => {
            let number = filter_of(&fault).unwrap_or(0);
            name_filter(alloc, role, paths, &read, number, notes)?;
            Err(fault)
        }
    }
}

/// The stacks of the old filter files and of the new ones, read as by `read_stack`; and if `with_documents`, the
/// documents of the old files and behind them those of the new ones. A fault numbers the filters of the new stack
/// behind those of the old one.
pub fn read_stacks<F: Files>(
    alloc: Global,
    old: &[&str],
    new: &[&str],
    with_documents: bool,
    files: &mut F,
    notes: &mut Notes,
) -> Result<(Stack, Stack, Vec<Document>), Fault>
    ensures old { IfOk result (λ r. HoldStack (F.holds files.old) old.now r.0) }
    ensures new { IfOk result (λ r. HoldStack (F.holds files.old) new.now r.1) }
    ensures told { IfOk result (λ r. HasBothFiles with_documents (F.holds files.old) Old New
        old.now new.now (map view r.2.items)) }
    ensures refused { IfErr result (RefusesBoth (F.holds files.old) old.now new.now) }
    ensures failed { IfErr result (λ e. NamesFailed Old (F.holds files.old) old.now
        notes.new.last (λ _ _. ⊥) e ⊎ NamesFailed New (F.holds files.old) new.now
        notes.new.last (λ _ _. ⊥) e
        ⊎ IsFilterOfBoth old.now new.now (filter_number e) notes.new.last) }
    ensures closed { IfOk result (λ _. notes.new.last ≡ None) }
{
    let (older, told) = read_all(alloc, FileRole::Old, old, with_documents, files, notes)?;
    let (newer, added) = read_all(alloc, FileRole::New, new, with_documents, files, notes)?;
    match stacks_of(alloc, &older, &newer) {
        Ok((first, second)) => {
            notes.last = None;
            let documents = join_documents(told, added)?;
            Ok((first, second, documents))
        }
        Err(fault) => {
            let number = filter_of(&fault).unwrap_or(0);
            if number <= old.len() {
                name_filter(alloc, FileRole::Old, old, &older, number, notes)?;
                return Err(fault);
            }
            name_filter(alloc, FileRole::New, new, &newer, number - old.len(), notes)?;
            Err(fault)
        }
    }
}

//! The file of groups by which a summary puts questions in order.

ghost use Rattle.std.specs.Prelude.{◌≡◌, ◌⊎◌, ℕ, List, None, option_map, IfOk, IfErr};
ghost use Rattle.sf_policy.specs.Groups.{AreGroups};
ghost use Rattle.sf_stack.specs.declared.fault.Fault.TheVariants.{Memory as MemoryFault};
ghost use Rattle.sf_evaluate.specs.Failures.{IsGivenFile};
ghost use Rattle.sf_evaluate.specs.declared.files.identity.FileRole.TheVariants.{Groups};
ghost use Rattle.sf_evaluate.specs.Groups.{AreGroupsIn, AreNoGroups, RefusesGroups};

use crate::explaining::Notes;
use crate::files::{FileRole, Files, read_file};
use sf_policy::{Group, read_groups};
use sf_stack::Fault;
use std::alloc::Global;

/// The path of the groups that are installed.
pub const INSTALLED_GROUPS: &str = "@groups";

fn groups_of(alloc: Global, bytes: &[u8]) -> Result<Vec<Group>, Fault>
    ensures meant { IfOk result (λ v. AreGroups bytes.now v.items) }
    ensures refused { IfErr result (λ e. (e ≡ MemoryFault) ⊎ AreNoGroups bytes.now e) }
{
    match std::str::from_utf8(bytes) {
        Ok(text) => read_groups(alloc, text),
        Err(_) => Err(Fault::Syntax),
    }
}

/// The groups of the file at a path; none where there is no path, or where the file can't be read and wasn't given on
/// the command line.
pub fn groups_in<F: Files>(
    alloc: Global,
    path: Option<&str>,
    is_given: bool,
    files: &mut F,
    notes: &mut Notes,
) -> Result<Vec<Group>, Fault>
    ensures meant { IfOk result (λ v. AreGroupsIn (F.holds files.old)
        (option_map (λ t. t.now) path.entry) is_given v.items) }
    ensures refused { IfErr result (RefusesGroups (F.holds files.old)
        (option_map (λ t. t.now) path.entry)) }
    ensures failed { IfErr result (λ e. (e ≡ MemoryFault) ⊎ IsGivenFile Groups
        (option_map (λ t. t.now) path.entry) notes.new.last) }
    ensures same { (p : List ℕ) → F.holds files.new p ≡ F.holds files.old p }
{
    match path {
        Some(path) => match read_file(alloc, FileRole::Groups, path, files, notes) {
            Ok(bytes) => groups_of(alloc, &bytes),
            Err(Fault::Read) if !is_given => Ok(Vec::new(alloc)),
            Err(fault) => Err(fault),
        },
        None => Ok(Vec::new(alloc)),
    }
}

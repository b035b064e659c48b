//! The sets of calls of the files of names that the command line names.

ghost use Rattle.std.specs.Prelude.{◌≡◌, ◌⊎◌, ℕ, List, None, IfOk, IfErr};
ghost use Rattle.sf_stack.specs.declared.fault.Fault.TheVariants.{Memory as MemoryFault, Read as ReadFault};
ghost use Rattle.clap.specs.Words.{found_of, rows_of};
ghost use Rattle.sf_evaluate.specs.Asking.{AreNamed, NamesOfNamed, RefusesNamed};
ghost use Rattle.sf_evaluate.specs.declared.files.identity.FileRole.TheVariants.{Names as NamesRole};
ghost use Rattle.sf_evaluate.specs.Failures.{IsFile, NamesFailed};
ghost use Rattle.sf_evaluate.specs.Names.{AreNames, AreNamesRead, IsNamesFile, RefusesNames, RefusesNamesFile, RefusesSetsAt};

use crate::explaining::Notes;
use crate::files::{FileRole, Files, read_file};
use crate::words::lacks_names;
use clap::ArgMatches;
use sf_names::{Names, join_sets, read_names};
use sf_stack::Fault;
use std::alloc::Global;

/// The path of the names that come with the program.
const INSTALLED_NAMES: &str = "@names";

fn sets_of(alloc: Global, text: &str) -> Result<Vec<Names>, Fault>
    ensures meant { IfOk result (λ v. AreNames text.now v.items) }
    ensures refused { IfErr result (λ e. (e ≡ MemoryFault) ⊎ RefusesNames text.now e) }
{
    Ok(read_names(alloc, text)?)
}

/// The sets of the file of names at a path.
fn names_in<F: Files>(
    alloc: Global,
    path: &str,
    files: &mut F,
    notes: &mut Notes,
) -> Result<Vec<Names>, Fault>
    ensures meant { IfOk result (λ v. IsNamesFile (F.holds files.old path.now) v.items) }
    ensures refused { IfErr result (λ e. ((e ≡ ReadFault)
        × (F.holds files.old path.now ≡ None))
        ⊎ (e ≡ MemoryFault) ⊎ RefusesNamesFile (F.holds files.old path.now) e) }
    ensures failed { IfErr result (λ e. (e ≡ MemoryFault)
        ⊎ IsFile NamesRole path.now notes.new.last) }
    ensures opened { IfOk result (λ _. IsFile NamesRole path.now notes.new.last) }
    ensures same { (p : List ℕ) → F.holds files.new p ≡ F.holds files.old p }
{
    let bytes = read_file(alloc, FileRole::Names, path, files, notes)?;
    match std::str::from_utf8(&bytes) {
        Ok(text) => sets_of(alloc, text),
        Err(_) => Err(Fault::Syntax),
    }
}

/// The sets of the files of names at these paths, joined one file after the other: a file may add calls to a set of an
/// earlier one. The notes, which have counted no sets before, count them.
fn read_all_names<F: Files>(
    alloc: Global,
    paths: &[&str],
    files: &mut F,
    notes: &mut Notes,
) -> Result<Vec<Names>, Fault>
    ensures meant { IfOk result (λ v. AreNamesRead (F.holds files.old) paths.now v.items) }
    ensures failed { IfErr result (λ e. NamesFailed NamesRole (F.holds files.old) paths.now
        notes.new.last (RefusesSetsAt (F.holds files.old) paths.now e) e) }
    ensures closed { IfOk result (λ _. notes.new.last ≡ None) }
    ensures same { (p : List ℕ) → F.holds files.new p ≡ F.holds files.old p }
{
    let mut all = Vec::new(alloc);
    for path in paths {
        let sets = names_in(alloc, path, files, notes)?;
        let count = sets.len();
        join_sets(&mut all, sets)?;
        notes.sets.push((count, all.len()))?;
    }
    notes.last = None;
    Ok(all)
}

/// The sets of the files of names that the words of the command line give, or, where they give none and need names, of
/// the file that comes with the program.
pub fn read_needed_names<F: Files>(
    alloc: Global,
    found: &ArgMatches<'_>,
    files: &mut F,
    notes: &mut Notes,
) -> Result<Vec<Names>, Fault>
    ensures called { IfOk result (λ v. AreNamed (F.holds files.old)
        (rows_of (found_of found.now)) v.items) }
    ensures refused { IfErr result (RefusesNamed (F.holds files.old)
        (rows_of (found_of found.now))) }
    ensures failed { IfErr result (NamesOfNamed (F.holds files.old)
        (rows_of (found_of found.now)) notes.new.last) }
    ensures closed { IfOk result (λ _. notes.new.last ≡ None) }
    ensures same { (p : List ℕ) → F.holds files.new p ≡ F.holds files.old p }
{
    if lacks_names(found) {
        read_all_names(alloc, &[INSTALLED_NAMES], files, notes)
    } else {
        let paths = found.get_strs("names").unwrap_or(&[]);
        read_all_names(alloc, paths, files, notes)
    }
}

//! What changes between two stacks, worked by hand.
use crate::listings::{bytes_of, lines_behind, text_of};
use crate::names::names_of;
use crate::profiles::{bits, forgetful, profile};
use sf_compare::compare;
use sf_insn::RawInsn;
use sf_list::{list_changes, write_changes};
use sf_relations::Relation;
use sf_stack::stacks_of;
use std::alloc::Global;
use std::test::Fail;

/// The rows of what changes between two filters, with the names of files, and the line that counts them. Where `only`
/// is given, the rows of this relation.
fn changed_rows_with(
    alloc: Global,
    old: &[RawInsn],
    new: &[RawInsn],
    only: Option<Relation>,
    texts: &[&str],
) -> Result<String, Fail> {
    let names = names_of(alloc, texts)?;
    let mut older = Vec::new(alloc);
    older.push(bytes_of(alloc, old)?)?;
    let mut newer = Vec::new(alloc);
    newer.push(bytes_of(alloc, new)?)?;
    let (old, new) = stacks_of(alloc, older.as_slice(), newer.as_slice())?;
    let comparison = compare(alloc, 100000, old, new)?;
    let changes = list_changes(alloc, 100000, &comparison, only, names.as_slice(), &None)?;
    let mut out: Vec<u8> = Vec::new(alloc);
    write_changes(alloc, &comparison, &changes, names.as_slice(), &mut out)?;
    let text = text_of(out)?;
    lines_behind(alloc, text.as_str(), "different ")
}

/// The rows of what changes between two filters.
pub(crate) fn changed_rows(
    alloc: Global,
    old: &[RawInsn],
    new: &[RawInsn],
) -> Result<String, Fail> {
    changed_rows_with(alloc, old, new, None, &[])
}

#[test]
fn x32_numbers_are_forgotten(rt: HostRuntime) -> Result<(), Fail> {
    let text = changed_rows(rt.alloc(), &profile(), &forgetful())?;
    assert_eq!(rt;
        text.as_str(),
        "arch 0xC000003E nr 0x40000000..0xFFFFFFFF KILL_PROCESS 0 -> ALLOW 0
total changed 1
"
    );
    Ok(())
}

#[test]
fn x32_numbers_are_remembered(rt: HostRuntime) -> Result<(), Fail> {
    let text = changed_rows(rt.alloc(), &forgetful(), &profile())?;
    assert_eq!(rt;
        text.as_str(),
        "arch 0xC000003E nr 0x40000000..0xFFFFFFFF ALLOW 0 -> KILL_PROCESS 0
total changed 1
"
    );
    Ok(())
}

#[test]
fn names_in_changed_rows(rt: HostRuntime) -> Result<(), Fail> {
    let names = "arch = 0xC000003E\ncalls = { x_read = 0x40000000, read = 0 }";
    let text = changed_rows_with(rt.alloc(), &profile(), &forgetful(), None, &[names])?;
    assert_eq!(rt;
        text.as_str(),
        "arch 0xC000003E nr 0x40000000..0xFFFFFFFF KILL_PROCESS 0 -> ALLOW 0 # x_read
total changed 1
"
    );
    Ok(())
}

#[test]
fn nothing_differs(rt: HostRuntime) -> Result<(), Fail> {
    let text = changed_rows(rt.alloc(), &profile(), &profile())?;
    assert_eq!(rt; text.as_str(), "total changed 0\n");
    Ok(())
}

#[test]
fn another_profile(rt: HostRuntime) -> Result<(), Fail> {
    let text = changed_rows(rt.alloc(), &profile(), &bits())?;
    assert_eq!(rt;
        text.as_str(),
        "arch 0xC000003E nr 16 ERRNO 1 -> ALLOW 0 if arg1_lo = 0x5412
arch 0xC000003E nr 56 ALLOW 0 -> ERRNO 1 if arg0_lo & 0x7E020000 != 0x0
arch 0xC000003E nr 59 ERRNO 1 -> ALLOW 0
arch 0xC000003E nr 0x40000000..0xFFFFFFFF KILL_PROCESS 0 -> ALLOW 0
arch != 0xC000003E nr 0..55 KILL_PROCESS 0 -> ALLOW 0
arch != 0xC000003E nr 56 KILL_PROCESS 0 -> ALLOW 0 if arg0_lo & 0x7E020000 = 0x0
arch != 0xC000003E nr 56 KILL_PROCESS 0 -> ERRNO 1 if arg0_lo & 0x7E020000 != 0x0
arch != 0xC000003E nr 57..0xFFFFFFFF KILL_PROCESS 0 -> ALLOW 0
total changed 8
"
    );
    Ok(())
}

#[test]
fn rows_of_one_relation(rt: HostRuntime) -> Result<(), Fail> {
    let looser = Some(Relation::Looser);
    let text = changed_rows_with(rt.alloc(), &profile(), &bits(), looser, &[])?;
    assert_eq!(rt;
        text.as_str(),
        "arch 0xC000003E nr 16 ERRNO 1 -> ALLOW 0 if arg1_lo = 0x5412
arch 0xC000003E nr 59 ERRNO 1 -> ALLOW 0
arch 0xC000003E nr 0x40000000..0xFFFFFFFF KILL_PROCESS 0 -> ALLOW 0
arch != 0xC000003E nr 0..55 KILL_PROCESS 0 -> ALLOW 0
arch != 0xC000003E nr 56 KILL_PROCESS 0 -> ALLOW 0 if arg0_lo & 0x7E020000 = 0x0
arch != 0xC000003E nr 57..0xFFFFFFFF KILL_PROCESS 0 -> ALLOW 0
total looser 6
"
    );
    Ok(())
}

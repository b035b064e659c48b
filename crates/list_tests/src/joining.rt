//! Sets of further files, joined to those that are there.

use crate::sets::text_of;
use sf_names::{Fault, Names, join_sets, read_names};
use std::alloc::Global;
use std::test::Fail;

const FIRST: &str = "
[arm]
arch = 0x40000028
calls = { sync_file_range2 = 341, arm_sync_file_range = 341, read = 3 }

[x86_64]
arch = 0xC000003E
calls = { write = 1, read = 0 }
";

/// The sets of files, joined one after the other, or the first refusal.
fn joined(alloc: Global, texts: &[&str]) -> Result<Vec<Names>, Fault> {
    let mut all = Vec::new(alloc);
    for text in texts {
        join_sets(&mut all, read_names(alloc, *text)?)?;
    }
    Ok(all)
}

/// What the sets of the first file and of a further one are, joined; no text where they are refused.
fn joined_text(alloc: Global, more: &str) -> Result<String, Fail> {
    match joined(alloc, &[FIRST, more]) {
        Ok(sets) => text_of(alloc, sets.as_slice()),
        Err(_) => Ok(String::new(alloc)),
    }
}

#[test]
fn a_further_file_adds(rt: HostRuntime) -> Result<(), Fail> {
    let arm = "arm 40000028 read=3 arm_sync_file_range=155 sync_file_range2=155\n";
    let cases = [
        (
            "[x86_64]\narch = 0xC000003E\ncalls = { z = 2, open_tree_attr = 467, read = 0 }",
            "x86_64 c000003e read=0 write=1 z=2 open_tree_attr=1d3\n",
        ),
        // A file that is one set, of which some calls are there: 0xC000003E is x86_64.
        (
            "arch = 0xC000003E\ncalls = { write = 1, twice = 9, again = 9 }",
            "x86_64 c000003e read=0 write=1 again=9 twice=9\n",
        ),
        // Another set, behind those that are there.
        (
            "[a]\narch = 0xC000003E\ncalls = { write = 0 }",
            "x86_64 c000003e read=0 write=1\na c000003e write=0\n",
        ),
        // One of the two names that a number has.
        (
            "[arm]\narch = 0x40000028\ncalls = { sync_file_range2 = 341 }",
            "x86_64 c000003e read=0 write=1\n",
        ),
    ];
    for (more, expected) in cases {
        let text = joined_text(rt.alloc(), more)?;
        let whole = format!(in rt.alloc(); "{arm}{expected}")?;
        assert_eq!(rt; text.as_str(), whole.as_str());
    }
    Ok(())
}

#[test]
fn a_further_file_is_refused(rt: HostRuntime) -> Result<(), Fail> {
    let cases = [
        "[x86_64]\narch = 0xC000003E\ncalls = { read = 2 }",
        "[x86_64]\narch = 0xC000003E\ncalls = { lesen = 0 }",
        "[x86_64]\narch = 0xC000003F\ncalls = {}",
        "[arm]\narch = 0x40000028\ncalls = { read = 341 }",
        "[arm]\narch = 0x40000028\ncalls = { third = 341 }",
        "[a]\narch = 1\ncalls = {}\n[x86_64]\narch = 1\ncalls = {}",
    ];
    for more in cases {
        assert!(rt; joined(rt.alloc(), &[FIRST, more]).err() == Some(Fault::Key));
    }
    Ok(())
}

/// A file of so many keys, none of which is a set.
fn file_of_keys(alloc: Global, count: usize) -> Result<String, Fail> {
    let mut text = String::new(alloc);
    for key in 0..count {
        write!(text, "k{key} = 0\n")?;
    }
    Ok(text)
}

#[test]
fn at_most_64_sets(rt: HostRuntime) -> Result<(), Fail> {
    let most = file_of_keys(rt.alloc(), 64)?;
    assert!(rt; read_names(rt.alloc(), most.as_str()).err() == Some(Fault::Key));
    let more = file_of_keys(rt.alloc(), 65)?;
    assert!(rt; read_names(rt.alloc(), more.as_str()).err() == Some(Fault::Count));
    Ok(())
}

/// A file of a set with calls that have these numbers.
fn file_of_calls(alloc: Global, first: usize, end: usize) -> Result<String, Fail> {
    let mut text = String::from_str(alloc, "arch = 1\n[calls]\n")?;
    for number in first..end {
        write!(text, "c{number} = {number}\n")?;
    }
    Ok(text)
}

#[test]
fn at_most_1024_calls(rt: HostRuntime) -> Result<(), Fail> {
    let most = file_of_calls(rt.alloc(), 0, 1024)?;
    let more = file_of_calls(rt.alloc(), 0, 1025)?;
    assert!(rt; read_names(rt.alloc(), most.as_str()).is_ok());
    assert!(rt; read_names(rt.alloc(), more.as_str()).err() == Some(Fault::Count));
    // Of two files, of which the second has some calls of the first.
    let first = file_of_calls(rt.alloc(), 0, 600)?;
    let rest = file_of_calls(rt.alloc(), 300, 1024)?;
    let beyond = file_of_calls(rt.alloc(), 300, 1025)?;
    assert!(rt; joined(rt.alloc(), &[first.as_str(), rest.as_str()]).is_ok());
    assert!(rt; joined(rt.alloc(), &[first.as_str(), beyond.as_str()]).err() == Some(Fault::Count));
    Ok(())
}

//! Files of one set and of several, their names, and why they are refused.

use sf_names::{Fault, Names, find_set, read_names};
use std::alloc::Global;
use std::test::Fail;

const SETS: &str = "
[x32]
arch = 0xC000003E
[x32.calls]
write = 0x40000001
read = 0x40000000

[\"1_b\"]
calls = {}
arch = 7
";

/// The sets of a file; none where it is refused.
fn sets_of(alloc: Global, text: &str) -> Vec<Names> {
    match read_names(alloc, text) {
        Ok(sets) => sets,
        Err(_) => Vec::new(alloc),
    }
}

/// Whether a file is one set of this name.
fn is_one_set(alloc: Global, text: &str, set: &str) -> bool {
    match sets_of(alloc, text).as_slice() {
        [only] => only.set() == set,
        _ => false,
    }
}

/// A line for each set, with its calls.
pub(crate) fn text_of(alloc: Global, sets: &[Names]) -> Result<String, Fail> {
    let mut text = String::new(alloc);
    for names in sets {
        write!(text, "{} {:x}", names.set(), names.arch())?;
        for call in names.calls() {
            write!(text, " {}={:x}", call.name(), call.number())?;
        }
        text.push_str("\n")?;
    }
    Ok(text)
}

#[test]
fn two_sets_by_their_names(rt: HostRuntime) -> Result<(), Fail> {
    let sets = sets_of(rt.alloc(), SETS);
    let text = text_of(rt.alloc(), sets.as_slice())?;
    let expected = "1_b 7\nx32 c000003e read=40000000 write=40000001\n";
    assert_eq!(rt; text.as_str(), expected);
    Ok(())
}

/// The number of a call of the set with this name.
fn number_in(sets: &[Names], set: &str, name: &str) -> Option<u32> {
    find_set(sets, set)?.number_of(name)
}

#[test]
fn calls_of_a_set(rt: HostRuntime) -> Result<(), Fail> {
    let sets = sets_of(rt.alloc(), SETS);
    assert_eq!(rt;
        number_in(sets.as_slice(), "x32", "write"),
        Some(0x40000001)
    );
    assert_eq!(rt; number_in(sets.as_slice(), "x32", "writ"), None);
    assert_eq!(rt; number_in(sets.as_slice(), "i386", "write"), None);
    Ok(())
}

#[test]
fn usual_names(rt: HostRuntime) -> Result<(), Fail> {
    let cases = [
        (
            "arch = 0xC000003E\ncalls = { a = 0x40000000, b = 0x3FFFFFFF }",
            "x86_64",
        ),
        ("arch = 0xC000003E\ncalls = { a = 0x40000000 }", "x32"),
        ("arch = 0xC000003E\ncalls = {}", "x32"),
        ("arch = 0x40000003\ncalls = {}", "i386"),
        ("arch = 0xC00000B7\ncalls = {}", "aarch64"),
        ("arch = 0x40000028\ncalls = {}", "arm"),
        ("arch = 0xc00000f3\n[calls]\nread = 63", "0xC00000F3"),
        ("arch = 7\ncalls = {}", "0x00000007"),
    ];
    for (text, set) in cases {
        assert!(rt; is_one_set(rt.alloc(), text, set));
    }
    Ok(())
}

#[test]
fn refusals(rt: HostRuntime) -> Result<(), Fail> {
    let cases = [
        ("arch =", Fault::Syntax),
        ("", Fault::Key),
        ("arch = 1", Fault::Key),
        ("calls = {}", Fault::Key),
        ("arch = 1\nversion = 1\n[calls]", Fault::Key),
        ("arch = -1\ncalls = 1", Fault::Range),
        ("x = 1", Fault::Key),
        ("x = {}", Fault::Key),
        ("[x]\narch = 1\n[x.calls]\n[x.more]", Fault::Key),
        ("[a-b]\narch = 1\n[a-b.calls]", Fault::Key),
        ("[x]\narch = -1\n[x.calls]\n[y]\narch = 1", Fault::Range),
        ("[y]\narch = -1\n[y.calls]\n[x]\narch = 1", Fault::Key),
        ("[x]\narch = 1\n[x.calls]\na = 4294967296", Fault::Range),
    ];
    for (text, fault) in cases {
        assert!(rt; read_names(rt.alloc(), text).err() == Some(fault));
    }
    Ok(())
}

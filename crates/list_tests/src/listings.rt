//! Listings of small stacks, worked by hand.
use crate::profiles::{bits, profile, words};
use samples::{ALLOW, op, raw};
use sf_insn::RawInsn;
use sf_list::{digest_of, list, write_listing};
use sf_names::Names;
use sf_stack::{Fault, stack_of};
use std::alloc::Global;
use std::test::Fail;

/// The bytes of a filter file.
pub(crate) fn bytes_of(alloc: Global, insns: &[RawInsn]) -> Result<Vec<u8>, Fail> {
    let mut bytes = Vec::new(alloc);
    for insn in insns {
        bytes.extend_from_slice(&insn.code.to_le_bytes())?;
        bytes.push(insn.jt)?;
        bytes.push(insn.jf)?;
        bytes.extend_from_slice(&insn.k.to_le_bytes())?;
    }
    Ok(bytes)
}

/// The text that these bytes are.
pub(crate) fn text_of(bytes: Vec<u8>) -> Result<String, Fail> {
    match String::from_utf8(bytes) {
        Ok(text) => Ok(text),
        Err(_) => Err("no text".into()),
    }
}

/// The lines of a text behind the one that begins with these words.
pub(crate) fn lines_behind(alloc: Global, text: &str, words: &str) -> Result<String, Fail> {
    let mut rows = String::new(alloc);
    let mut behind = false;
    for line in text.lines() {
        if behind {
            rows.push_str(line)?;
            rows.push_str("\n")?;
        }
        behind = behind || line.starts_with(words);
    }
    Ok(rows)
}

/// The text of the list of one filter. `calls` says how rows are shown.
pub(crate) fn listing_text(
    alloc: Global,
    insns: &[RawInsn],
    names: &[Names],
    calls: &Option<Vec<&str>>,
) -> Result<String, Fail> {
    let mut files = Vec::new(alloc);
    files.push(bytes_of(alloc, insns)?)?;
    let stack = stack_of(alloc, files.as_slice())?;
    let listing = list(alloc, 100000, stack, names, calls)?;
    let mut out: Vec<u8> = Vec::new(alloc);
    write_listing(alloc, &listing, names, &mut out)?;
    text_of(out)
}

/// The rows of one filter, each by itself, and the line that counts them.
pub(crate) fn listed_rows(
    alloc: Global,
    insns: &[RawInsn],
    names: &[Names],
) -> Result<String, Fail> {
    let text = listing_text(alloc, insns, names, &None)?;
    lines_behind(alloc, text.as_str(), "filters ")
}

#[test]
fn what_stands_above_the_rows(rt: HostRuntime) -> Result<(), Fail> {
    let text = listing_text(rt.alloc(), &[ALLOW], &[], &None)?;
    let expected = "seccomp_audit list 2
filters 1 path 1
arch any nr any ALLOW 0
total rows 1
";
    assert_eq!(rt; text.as_str(), expected);
    Ok(())
}

#[test]
fn a_profile_of_x86_64(rt: HostRuntime) -> Result<(), Fail> {
    let text = listed_rows(rt.alloc(), &profile(), &[])?;
    assert_eq!(rt;
        text.as_str(),
        "arch 0xC000003E nr 0..15 ALLOW 0
arch 0xC000003E nr 16 ERRNO 1 if arg1_lo = 0x5412
arch 0xC000003E nr 16 ALLOW 0 if arg1_lo != 0x5412
arch 0xC000003E nr 17..58 ALLOW 0
arch 0xC000003E nr 59 ERRNO 1
arch 0xC000003E nr 60..0x3FFFFFFF ALLOW 0
arch 0xC000003E nr 0x40000000..0xFFFFFFFF KILL_PROCESS 0
arch != 0xC000003E nr any KILL_PROCESS 0
total rows 8
"
    );
    Ok(())
}

#[test]
fn bits_of_an_argument(rt: HostRuntime) -> Result<(), Fail> {
    let text = listed_rows(rt.alloc(), &bits(), &[])?;
    assert_eq!(rt;
        text.as_str(),
        "arch any nr 0..55 ALLOW 0
arch any nr 56 ALLOW 0 if arg0_lo & 0x7E020000 = 0x0
arch any nr 56 ERRNO 1 if arg0_lo & 0x7E020000 != 0x0
arch any nr 57..0xFFFFFFFF ALLOW 0
total rows 4
"
    );
    Ok(())
}

/// A comparison of two words takes a node for each number of the first one.
#[test]
fn a_word_against_a_word(rt: HostRuntime) -> Result<(), Fail> {
    let alloc = rt.alloc();
    let mut files = Vec::new(alloc);
    files.push(bytes_of(alloc, &words())?)?;
    let stack = stack_of(alloc, files.as_slice())?;
    match list(alloc, 1000, stack, &[], &None) {
        Ok(_) => Err("it is listed".into()),
        Err(fault) => {
            assert_eq!(rt; fault, Fault::TooLarge { nodes: 1000 });
            Ok(())
        }
    }
}

#[test]
fn a_difference(rt: HostRuntime) -> Result<(), Fail> {
    let text = listed_rows(
        rt.alloc(),
        &[
            op(0x20, 0),
            op(0x14, 59),
            raw(0x15, 0, 1, 0),
            op(0x06, 0x50001),
            ALLOW,
        ],
        &[],
    )?;
    assert_eq!(rt;
        text.as_str(),
        "arch any nr 0..58 ALLOW 0
arch any nr 59 ERRNO 1
arch any nr 60..0xFFFFFFFF ALLOW 0
total rows 3
"
    );
    Ok(())
}

#[test]
fn a_sum(rt: HostRuntime) -> Result<(), Fail> {
    let text = listed_rows(
        rt.alloc(),
        &[
            op(0x20, 0),
            raw(0x25, 0, 1, 0xFFFF),
            op(0x06, 0x80000000),
            op(0x04, 5),
            raw(0x15, 0, 1, 59),
            op(0x06, 0x50001),
            ALLOW,
        ],
        &[],
    )?;
    assert_eq!(rt;
        text.as_str(),
        "arch any nr 0..53 ALLOW 0
arch any nr 54 ERRNO 1
arch any nr 55..65535 ALLOW 0
arch any nr 0x10000..0xFFFFFFFF KILL_PROCESS 0
total rows 4
"
    );
    Ok(())
}

/// By `sha256sum`, of the lines of the rows.
#[test]
fn the_digest_of_a_profile(rt: HostRuntime) -> Result<(), Fail> {
    let alloc = rt.alloc();
    let mut files = Vec::new(alloc);
    files.push(bytes_of(alloc, &profile())?)?;
    let stack = stack_of(alloc, files.as_slice())?;
    let listing = list(alloc, 100000, stack, &[], &None)?;
    let text = digest_of(alloc, &listing)?;
    let expected =
        "list 2 sha256 0fa7a002459c2670afcd8778f85ba3a193708987ac086c48610e5cfd237d474f\n";
    assert_eq!(rt; text.as_str(), expected);
    Ok(())
}

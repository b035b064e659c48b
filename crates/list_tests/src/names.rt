//! Names of calls, read from files and written in rows.
use crate::listings::{lines_behind, listed_rows, listing_text};
use crate::profiles::{bits, profile, two};
use sf_insn::RawInsn;
use sf_names::{Names, read_names};
use sf_stack::Fault;
use std::alloc::Global;
use std::test::Fail;

const X86_64: &str = "arch = 0xC000003E
[calls]
read = 0
write = 1
ioctl = 16
execve = 59
";

const I386: &str = "arch = 0x40000003
[calls]
open = 5
execve = 11
";

/// The sets of files, one file after the other.
pub(crate) fn names_of(alloc: Global, texts: &[&str]) -> Result<Vec<Names>, Fail> {
    let mut names = Vec::new(alloc);
    for text in texts {
        let mut sets = read_names(alloc, *text)?;
        names.append(&mut sets)?;
    }
    Ok(names)
}

/// The rows of a filter, with these names.
fn rows_with(alloc: Global, insns: &[RawInsn], texts: &[&str]) -> Result<String, Fail> {
    let names = names_of(alloc, texts)?;
    let text = listed_rows(alloc, insns, names.as_slice())?;
    rows_in(alloc, text.as_str())
}

/// The lines of a text that are rows.
fn rows_in(alloc: Global, text: &str) -> Result<String, Fail> {
    let mut rows = String::new(alloc);
    for line in text.lines() {
        if line.starts_with("arch ") {
            rows.push_str(line)?;
            rows.push_str("\n")?;
        }
    }
    Ok(rows)
}

#[test]
fn names_of_some_calls(rt: HostRuntime) -> Result<(), Fail> {
    let text = rows_with(rt.alloc(), &profile(), &[X86_64])?;
    assert_eq!(rt;
        text.as_str(),
        "arch 0xC000003E nr 0..15 ALLOW 0 # read,write
arch 0xC000003E nr 16 ERRNO 1 if arg1_lo = 0x5412 # ioctl
arch 0xC000003E nr 16 ALLOW 0 if arg1_lo != 0x5412 # ioctl
arch 0xC000003E nr 17..58 ALLOW 0
arch 0xC000003E nr 59 ERRNO 1 # execve
arch 0xC000003E nr 60..0x3FFFFFFF ALLOW 0
arch 0xC000003E nr 0x40000000..0xFFFFFFFF KILL_PROCESS 0
arch != 0xC000003E nr any KILL_PROCESS 0
"
    );
    Ok(())
}

#[test]
fn names_of_another_architecture(rt: HostRuntime) -> Result<(), Fail> {
    let bare = rows_with(rt.alloc(), &profile(), &[])?;
    let text = rows_with(rt.alloc(), &profile(), &[I386])?;
    assert_eq!(rt; text.as_str(), bare.as_str());
    Ok(())
}

#[test]
fn names_of_two_architectures(rt: HostRuntime) -> Result<(), Fail> {
    let text = rows_with(rt.alloc(), &two(), &[X86_64, I386])?;
    assert_eq!(rt;
        text.as_str(),
        "arch 0x40000003 nr 0..10 ALLOW 0 # open
arch 0x40000003 nr 11 ERRNO 1 # execve
arch 0x40000003 nr 12..0xFFFFFFFF ALLOW 0
arch 0xC000003E nr 0..58 ALLOW 0 # read,write,ioctl
arch 0xC000003E nr 59 ERRNO 1 # execve
arch 0xC000003E nr 60..0xFFFFFFFF ALLOW 0
arch not in 0x40000003,0xC000003E nr any KILL_PROCESS 0
"
    );
    Ok(())
}

/// Two sets in one file.
const BOTH: &str = "[x86_64]
arch = 0xC000003E
calls = { read = 0, write = 1, ioctl = 16, execve = 59 }
[i386]
arch = 0x40000003
calls = { open = 5, execve = 11 }
";

#[test]
fn names_of_two_sets_of_a_file(rt: HostRuntime) -> Result<(), Fail> {
    let files = rows_with(rt.alloc(), &two(), &[X86_64, I386])?;
    let text = rows_with(rt.alloc(), &two(), &[BOTH])?;
    assert_eq!(rt; text.as_str(), files.as_str());
    Ok(())
}

#[test]
fn rows_about_all_architectures_have_no_names(rt: HostRuntime) -> Result<(), Fail> {
    let text = rows_with(rt.alloc(), &bits(), &[X86_64])?;
    assert_eq!(rt;
        text.as_str(),
        "arch any nr 0..55 ALLOW 0
arch any nr 56 ALLOW 0 if arg0_lo & 0x7E020000 = 0x0
arch any nr 56 ERRNO 1 if arg0_lo & 0x7E020000 != 0x0
arch any nr 57..0xFFFFFFFF ALLOW 0
"
    );
    Ok(())
}

/// The first row of the profile, with the names of one file.
fn first_row(alloc: Global, texts: &[&str]) -> Result<String, Fail> {
    let text = rows_with(alloc, &profile(), texts)?;
    Ok(String::from_str(alloc, text.lines().next().unwrap_or(""))?)
}

#[test]
fn eight_names_by_their_numbers(rt: HostRuntime) -> Result<(), Fail> {
    let file = "calls = { h = 0, g = 2, f = 3, e = 5, d = 7, c = 11, b = 13, a = 15 }
arch = 0xC000003E";
    let row = first_row(rt.alloc(), &[file])?;
    let expected = "arch 0xC000003E nr 0..15 ALLOW 0 # h,g,f,e,d,c,b,a";
    assert_eq!(rt; row.as_str(), expected);
    Ok(())
}

#[test]
fn of_nine_names_eight(rt: HostRuntime) -> Result<(), Fail> {
    let file = "arch = 0xC000003E
calls = { i = 0, h = 1, g = 2, f = 3, e = 5, d = 7, c = 11, b = 13, a = 15 }";
    let row = first_row(rt.alloc(), &[file])?;
    let expected = "arch 0xC000003E nr 0..15 ALLOW 0 # i,h,g,f,e,d,c,b,..";
    assert_eq!(rt; row.as_str(), expected);
    Ok(())
}

#[test]
fn names_of_one_number_and_of_two_files(rt: HostRuntime) -> Result<(), Fail> {
    let one = "arch = 0xC000003E
calls = { second = 3, first = 3, low = 1, beyond = 16 }";
    let row = first_row(rt.alloc(), &[one, X86_64])?;
    let expected = "arch 0xC000003E nr 0..15 ALLOW 0 # low,first,second,read,write";
    assert_eq!(rt; row.as_str(), expected);
    Ok(())
}

/// The lines of the calls of these names, or of all where none is named, and the line that counts them.
fn calls_with(
    alloc: Global,
    insns: &[RawInsn],
    texts: &[&str],
    wanted: &[&str],
) -> Result<String, Fail> {
    let names = names_of(alloc, texts)?;
    let mut calls = Vec::new(alloc);
    for name in wanted {
        calls.push(*name)?;
    }
    let text = listing_text(alloc, insns, names.as_slice(), &Some(calls))?;
    lines_behind(alloc, text.as_str(), "filters ")
}

#[test]
fn lines_of_one_call(rt: HostRuntime) -> Result<(), Fail> {
    let text = calls_with(rt.alloc(), &profile(), &[BOTH], &["ioctl"])?;
    let expected = "x86_64 ioctl ERRNO 1 if arg1_lo = 0x5412
x86_64 ioctl ALLOW 0 if arg1_lo != 0x5412
total lines 2
";
    assert_eq!(rt; text.as_str(), expected);
    Ok(())
}

#[test]
fn lines_of_all_calls_and_the_other_rows(rt: HostRuntime) -> Result<(), Fail> {
    let text = calls_with(rt.alloc(), &profile(), &[BOTH], &[])?;
    let expected = "i386 open KILL_PROCESS 0
i386 execve KILL_PROCESS 0
x86_64 read ALLOW 0
x86_64 write ALLOW 0
x86_64 ioctl ERRNO 1 if arg1_lo = 0x5412
x86_64 ioctl ALLOW 0 if arg1_lo != 0x5412
x86_64 execve ERRNO 1
arch 0x40000003 nr 0..4 KILL_PROCESS 0
arch 0x40000003 nr 6..10 KILL_PROCESS 0
arch 0x40000003 nr 12..0xFFFFFFFF KILL_PROCESS 0
arch 0xC000003E nr 2..15 ALLOW 0
arch 0xC000003E nr 17..58 ALLOW 0
arch 0xC000003E nr 60..0x3FFFFFFF ALLOW 0
arch 0xC000003E nr 0x40000000..0xFFFFFFFF KILL_PROCESS 0
arch not in 0x40000003,0xC000003E nr any KILL_PROCESS 0
total lines 15
";
    assert_eq!(rt; text.as_str(), expected);
    Ok(())
}

/// The number of the fault for which a file is refused, or 0.
fn fault_of(alloc: Global, text: &str) -> u16 {
    match read_names(alloc, text) {
        Ok(_) => 0,
        Err(fault) => Fault::from(fault).number(),
    }
}

#[test]
fn files_without_a_name(rt: HostRuntime) -> Result<(), Fail> {
    assert_eq!(rt; fault_of(rt.alloc(), "arch = 0\n[calls]\n"), 0);
    assert_eq!(rt;
        fault_of(rt.alloc(), "arch = 4294967295\n[calls]\na = 4294967295\n"),
        0
    );
    Ok(())
}

#[test]
fn files_with_wrong_keys(rt: HostRuntime) -> Result<(), Fail> {
    let refused = [
        "",
        "arch = 1",
        "[calls]",
        "arch = 1\ncalls = 5",
        "arch = 1\ncalls = [ 5 ]",
        "arch = 1.0\n[calls]",
        "arch = \"1\"\n[calls]",
        "arch = 1\nversion = 1\n[calls]",
        "arch = 1\n[calls]\nread = \"0\"",
        "arch = 1\n[calls]\nread = true",
        "arch = 1\n[calls]\nread.x = 0",
        "arch = 1\n[calls]\n\"\" = 0",
        "arch = 1\n[calls]\n\"a b\" = 0",
        "arch = 1\n[calls]\n\"a,b\" = 0",
        "arch = 1\n[calls]\na-b = 0",
        "arch = 1\n[calls]\n\"a\\n\" = 0",
        "arch = 1\n[calls]\na = 4294967296\nZ = \"\"",
    ];
    for text in refused {
        assert_eq!(rt; fault_of(rt.alloc(), text), 41);
    }
    Ok(())
}

#[test]
fn files_with_wrong_numbers(rt: HostRuntime) -> Result<(), Fail> {
    let refused = [
        "arch = 4294967296\n[calls]",
        "arch = -1\n[calls]",
        "arch = 1\n[calls]\nread = 4294967296",
        "arch = 1\n[calls]\nread = -1",
        "arch = -1\n[calls]\nread = \"0\"",
        "arch = 1\n[calls]\na = -1\nb = \"\"",
    ];
    for text in refused {
        assert_eq!(rt; fault_of(rt.alloc(), text), 42);
    }
    Ok(())
}

#[test]
fn files_that_are_no_toml(rt: HostRuntime) -> Result<(), Fail> {
    let refused = [
        "arch =",
        "arch = 1\narch = 1\n[calls]",
        "arch = 1\n[calls]\nread = 0\nread = 0",
        "arch = 1\n[calls]\nread = 99999999999999999999",
    ];
    for text in refused {
        assert_eq!(rt; fault_of(rt.alloc(), text), 46);
    }
    Ok(())
}

/// A file with a name of so many letters.
fn file_with_letters(alloc: Global, count: usize) -> Result<String, Fail> {
    let mut text = String::from_str(alloc, "arch = 1\n[calls]\n")?;
    for _ in 0..count {
        text.push_str("x")?;
    }
    text.push_str(" = 0\n")?;
    Ok(text)
}

#[test]
fn names_of_64_letters(rt: HostRuntime) -> Result<(), Fail> {
    let longest = file_with_letters(rt.alloc(), 64)?;
    assert_eq!(rt; fault_of(rt.alloc(), longest.as_str()), 0);
    let longer = file_with_letters(rt.alloc(), 65)?;
    assert_eq!(rt; fault_of(rt.alloc(), longer.as_str()), 41);
    Ok(())
}

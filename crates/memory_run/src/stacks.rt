//! The stacks, and the questions that are asked about them.

use crate::refused::Refused;
use sf_check::{Stack, check};
use sf_insn::decode;
use std::alloc::Global;

/// Kills what isn't for x86-64 and refuses execve: `ld [4]; jeq 0xC000003E 1 0; ret 0x80000000; ld [0]; jeq 59 0 1;
/// ret 0x00050001; ret 0x7fff0000`.
pub const LOGIN: [u8; 56] = [
    0x20, 0, 0, 0, 4, 0, 0, 0, 0x15, 0, 1, 0, 0x3e, 0, 0, 0xc0, 6, 0, 0, 0, 0, 0, 0, 0x80, 0x20, 0,
    0, 0, 0, 0, 0, 0, 0x15, 0, 0, 1, 0x3b, 0, 0, 0, 6, 0, 0, 0, 1, 0, 5, 0, 6, 0, 0, 0, 0, 0, 0xff,
    0x7f,
];

/// Returns 8 divided by word 4: `ld [16]; tax; ld #8; div x; ret a`.
pub const DIVIDES: [u8; 40] = [
    0x20, 0, 0, 0, 0x10, 0, 0, 0, 7, 0, 0, 0, 0, 0, 0, 0, 0, 0, 0, 0, 8, 0, 0, 0, 0x3c, 0, 0, 0, 0,
    0, 0, 0, 0x16, 0, 0, 0, 0, 0, 0, 0,
];

/// Refuses where word 4 has the bit 4: `ld [16]; and #7; jge 4 0 1; ret 0x00050002; ret 0x7fff0000`.
pub const MASKS: [u8; 40] = [
    0x20, 0, 0, 0, 0x10, 0, 0, 0, 0x54, 0, 0, 0, 7, 0, 0, 0, 0x35, 0, 0, 1, 4, 0, 0, 0, 6, 0, 0, 0,
    2, 0, 5, 0, 6, 0, 0, 0, 0, 0, 0xff, 0x7f,
];

/// Refuses the calls of the x32 range: `ld [0]; jset 0x40000000 0 1; ret 0x00050026; ret 0x7fff0000`.
pub const NO_X32: [u8; 32] = [
    0x20, 0, 0, 0, 0, 0, 0, 0, 0x45, 0, 0, 1, 0, 0, 0, 0x40, 6, 0, 0, 0, 0x26, 0, 5, 0, 6, 0, 0, 0,
    0, 0, 0xff, 0x7f,
];

/// Kills a call whose number has one of two bits: `ld [0]; jset 5 0 1; ret 0; ret 0x7fff0000`.
pub const TWO_BITS: [u8; 32] = [
    0x20, 0, 0, 0, 0, 0, 0, 0, 0x45, 0, 0, 1, 5, 0, 0, 0, 6, 0, 0, 0, 0, 0, 0, 0, 6, 0, 0, 0, 0, 0,
    0xff, 0x7f,
];

/// Returns the lowest four bits of word 4 as the data of ERRNO: `ld [16]; and #15; or #0x50000; ret a`. It has 16
/// regions, which 31 works find.
pub const FOUR_BITS: [u8; 32] = [
    0x20, 0, 0, 0, 0x10, 0, 0, 0, 0x54, 0, 0, 0, 0xf, 0, 0, 0, 0x44, 0, 0, 0, 0, 0, 5, 0, 0x16, 0,
    0, 0, 0, 0, 0, 0,
];

/// Returns the lowest eight bits of word 4 as the data of ERRNO: `ld [16]; and #255; or #0x50000; ret a`. It has 256
/// regions, which 511 works find.
pub const EIGHT_BITS: [u8; 32] = [
    0x20, 0, 0, 0, 0x10, 0, 0, 0, 0x54, 0, 0, 0, 0xff, 0, 0, 0, 0x44, 0, 0, 0, 0, 0, 5, 0, 0x16, 0,
    0, 0, 0, 0, 0, 0,
];

/// Questions of version 2, with masks.
pub const POLICY: &str = r#"
version = 2

[[question]]
name = "execve"
arch = 0xC000003E
nr = 59

[[question]]
name = "x32"
nr = { mask = 0x40000000, value = 0x40000000 }
arg0_lo = { mask = 6, value = 2, low = 1, high = 4000 }

[[question]]
name = "low"
nr = { mask = 0xFFFFFFF0, value = 0, low = 3, high = 12 }
arg0_lo = { mask = 4, value = 4 }

[[question]]
name = "refused"
arch = 0xC000003E
actions = ["ERRNO", "TRAP"]

[[question]]
name = "killed"
nr = [8, 58]
actions = ["KILL_THREAD", "OTHER"]
"#;

/// The stack of these files. Adds its line: how many filters it has, how long a path is, and whether it is plain.
pub fn stack_in(alloc: Global, files: &[&[u8]], text: &mut String) -> Result<Stack, Refused> {
    let mut programs = Vec::new(alloc);
    for file in files {
        let raws = decode(alloc, file)?;
        let program = check(alloc, &raws)?;
        programs.push(program)?;
    }
    let stack = Stack::of(programs)?;
    let (count, path, plain) = (
        stack.programs().len(),
        stack.path_length(),
        stack.is_plain(),
    );
    write!(text, "filters {count} path {path} plain {plain}\n")?;
    Ok(stack)
}

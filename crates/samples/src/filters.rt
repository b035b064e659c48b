//! Small filters, whose runs were worked out by hand.
use crate::insns::{ALLOW, op, raw};
use sf_insn::RawInsn;

/// Kills a call that does not come from x86-64, refuses `execve`, and allows the others:
/// `ld [4]; jeq 0xC000003E 1 0; ret 0x80000000; ld [0]; jeq 59 0 1; ret 0x00050001; ret 0x7fff0000`.
pub fn execve_refused() -> [RawInsn; 7] {
    [
        op(0x20, 4),
        raw(0x15, 1, 0, 0xC000003E),
        op(0x06, 0x80000000),
        op(0x20, 0),
        raw(0x15, 0, 1, 59),
        op(0x06, 0x00050001),
        ALLOW,
    ]
}

/// Refuses the x32 calls: `ld [0]; jge 0x40000000 0 1; ret 0x00050026; ret 0x7fff0000`.
pub fn x32_refused() -> [RawInsn; 4] {
    [
        op(0x20, 0),
        raw(0x35, 0, 1, 0x40000000),
        op(0x06, 0x00050026),
        ALLOW,
    ]
}

/// Returns 8 divided by word 4: `ld [16]; tax; ld #8; div x; ret a`. There is a region for each quotient, and one where
/// the word is 0.
pub fn eight_divided() -> [RawInsn; 5] {
    [
        op(0x20, 16),
        op(0x07, 0),
        op(0x00, 8),
        op(0x3c, 0),
        op(0x16, 0),
    ]
}

/// Returns ERRNO, whose data is those bits of word 4 that the mask has: `ld [16]; and #mask; or #0x50000; ret a`. The
/// mask lies within the low 16 bits.
pub fn low_bits(mask: u32) -> [RawInsn; 4] {
    [op(0x20, 16), op(0x54, mask), op(0x44, 0x50000), op(0x16, 0)]
}

/// Returns the first word: `ld [0]; ret a`. There is a region for each of its 2^32 values.
pub fn echo() -> [RawInsn; 2] {
    [op(0x20, 0), op(0x16, 0)]
}

/// Allows inputs whose first word has one of these bits, and kills the process on others:
/// `ld [0]; jset bits 0 1; ret 0x7fff0000; ret 0x80000000`. It is plain only where `bits` has exactly one bit.
pub fn any_bit(bits: u32) -> [RawInsn; 4] {
    [
        op(0x20, 0),
        raw(0x45, 0, 1, bits),
        ALLOW,
        op(0x06, 0x80000000),
    ]
}

/// Where the first test is true, only one result of the second is possible: `ld [0]; jge 100 0 3; jge 50 1 0; ret 0;
/// ret 0x7fff0000; ret 0x00050001`.
pub fn nested_tests() -> [RawInsn; 6] {
    [
        op(0x20, 0),
        raw(0x35, 0, 3, 100),
        raw(0x35, 1, 0, 50),
        op(0x06, 0),
        ALLOW,
        op(0x06, 0x00050001),
    ]
}

/// Where the first three tests fail, only one result of the fourth is possible, since a word that is at most 2 is 0, 1
/// or 2: `ld [0]; jgt 2 4 0; jeq 0 3 0; jeq 1 2 0; jeq 2 1 0; ret 0x80000000; ret 0x7fff0000`.
pub fn four_tests() -> [RawInsn; 7] {
    [
        op(0x20, 0),
        raw(0x25, 4, 0, 2),
        raw(0x15, 3, 0, 0),
        raw(0x15, 2, 0, 1),
        raw(0x15, 1, 0, 2),
        op(0x06, 0x80000000),
        ALLOW,
    ]
}

/// One combination of results of its tests belongs to no input: a word that is not above 101, but at least 102. The `or
/// #0` hides that at first: `ld [12]; jgt 101 0 0; or #0; jge 102 0 1; jgt 104 0 0; ret 0x80010000`.
pub fn late_contradiction() -> [RawInsn; 6] {
    [
        op(0x20, 12),
        raw(0x25, 0, 0, 101),
        op(0x44, 0),
        raw(0x35, 0, 1, 102),
        raw(0x25, 0, 0, 104),
        op(0x06, 0x80010000),
    ]
}

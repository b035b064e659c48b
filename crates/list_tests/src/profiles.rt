//! Filters that several tests list.
use samples::{ALLOW, op, raw};
use sf_insn::RawInsn;

/// A profile of x86-64 that looks at x32 numbers.
pub(crate) fn profile() -> [RawInsn; 13] {
    [
        op(0x20, 4),
        raw(0x15, 1, 0, 0xC000003E),
        op(0x06, 0x80000000),
        op(0x20, 0),
        raw(0x35, 0, 1, 0x40000000),
        op(0x06, 0x80000000),
        raw(0x15, 0, 1, 59),
        op(0x06, 0x50001),
        raw(0x15, 0, 3, 16),
        op(0x20, 24),
        raw(0x15, 0, 1, 0x5412),
        op(0x06, 0x50001),
        ALLOW,
    ]
}

/// The same, but it doesn't look at x32 numbers.
pub(crate) fn forgetful() -> [RawInsn; 11] {
    [
        op(0x20, 4),
        raw(0x15, 1, 0, 0xC000003E),
        op(0x06, 0x80000000),
        op(0x20, 0),
        raw(0x15, 0, 1, 59),
        op(0x06, 0x50001),
        raw(0x15, 0, 3, 16),
        op(0x20, 24),
        raw(0x15, 0, 1, 0x5412),
        op(0x06, 0x50001),
        ALLOW,
    ]
}

/// It refuses some bits of an argument.
pub(crate) fn bits() -> [RawInsn; 6] {
    [
        op(0x20, 0),
        raw(0x15, 0, 3, 56),
        op(0x20, 16),
        raw(0x45, 0, 1, 0x7E020000),
        op(0x06, 0x50001),
        ALLOW,
    ]
}

/// It refuses one call of x86-64 and one of i386.
pub(crate) fn two() -> [RawInsn; 12] {
    [
        op(0x20, 4),
        raw(0x15, 0, 4, 0xC000003E),
        op(0x20, 0),
        raw(0x15, 0, 1, 59),
        op(0x06, 0x50001),
        ALLOW,
        raw(0x15, 0, 4, 0x40000003),
        op(0x20, 0),
        raw(0x15, 0, 1, 11),
        op(0x06, 0x50001),
        ALLOW,
        op(0x06, 0x80000000),
    ]
}

/// It compares two words.
pub(crate) fn words() -> [RawInsn; 6] {
    [
        op(0x20, 16),
        op(0x07, 0),
        op(0x20, 24),
        raw(0x2d, 0, 1, 0),
        op(0x06, 0x50001),
        ALLOW,
    ]
}

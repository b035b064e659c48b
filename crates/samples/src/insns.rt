//! Instructions by their fields.
use sf_insn::RawInsn;

/// Returns SECCOMP_RET_ALLOW.
pub const ALLOW: RawInsn = RawInsn {
    code: 0x06,
    jt: 0,
    jf: 0,
    k: 0x7fff0000,
};

/// An instruction with these fields.
pub fn raw(code: u16, jt: u8, jf: u8, k: u32) -> RawInsn {
    RawInsn { code, jt, jf, k }
}

/// An instruction whose two fields for jumps are 0.
pub fn op(code: u16, k: u32) -> RawInsn {
    raw(code, 0, 0, k)
}

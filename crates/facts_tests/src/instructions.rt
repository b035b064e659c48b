//! Tests of instructions and inputs as bytes and fields, and of operations and tests.
use samples::execve_refused;
use sf_insn::{BinOp, Fault, RawInsn, Test, bytes_of_input, decode, encode, input_of_bytes};
use std::alloc::Global;

/// `ld [4]; jeq 0xC000003E 1 0; ret 0x80000000; ld [0]; jeq 59 0 1; ret 0x00050001; ret 0x7fff0000`, as a file holds
/// it.
const NO_EXECVE: [u8; 56] = [
    0x20, 0, 0, 0, 4, 0, 0, 0, 0x15, 0, 1, 0, 0x3e, 0, 0, 0xc0, 6, 0, 0, 0, 0, 0, 0, 0x80, 0x20, 0,
    0, 0, 0, 0, 0, 0, 0x15, 0, 0, 1, 0x3b, 0, 0, 0, 6, 0, 0, 0, 1, 0, 5, 0, 6, 0, 0, 0, 0, 0, 0xff,
    0x7f,
];

/// How many instructions are read from this many bytes 0.
fn read_of_zeros(alloc: Global, length: usize) -> Result<usize, Fault> {
    let zeros = vec![in alloc; 0u8; length]?;
    Ok(decode(alloc, &zeros)?.len())
}

/// How many bytes this many instructions are written as.
fn written_length(alloc: Global, count: usize) -> Result<usize, Fault> {
    let test = RawInsn {
        code: 0x15,
        jt: 1,
        jf: 2,
        k: 0x01020304,
    };
    let insns = vec![in alloc; test; count]?;
    Ok(encode(alloc, &insns)?.len())
}

/// Whether the file is read as `execve_refused`, and that is written as the file.
fn read_and_write(alloc: Global) -> Result<[bool; 2], Fault> {
    let insns = decode(alloc, &NO_EXECVE)?;
    let again = encode(alloc, &insns)?;
    Ok([
        insns.as_slice() == execve_refused().as_slice(),
        again.as_slice() == NO_EXECVE.as_slice(),
    ])
}

#[test]
fn reads_a_file_and_writes_it_again(rt: HostRuntime) {
    assert!(rt; read_and_write(rt.alloc()) == Ok([true, true]));
}

/// How many bytes there are, and how many instructions are read.
const READ: [(usize, Result<usize, Fault>); 5] = [
    (12, Err(Fault::Ragged)),
    (0, Err(Fault::Empty)),
    (8 * 4097, Err(Fault::TooLong)),
    (8 * 4096, Ok(4096)),
    (8 * 4095, Ok(4095)),
];

#[test]
fn reads_1_to_4096_instructions_and_writes_more(rt: HostRuntime) {
    for (length, wanted) in READ {
        assert!(rt; read_of_zeros(rt.alloc(), length) == wanted, "{length}");
    }
    for (count, length) in [(4096, 32768), (4097, 32776)] {
        assert!(rt; written_length(rt.alloc(), count) == Ok(length), "{count}");
    }
}

#[test]
fn inputs_go_both_ways(rt: HostRuntime) {
    let mut bytes = [0u8; 64];
    bytes[3] = 0x40;
    bytes[4] = 0x3e;
    bytes[7] = 0xc0;
    bytes[63] = 1;
    let input = input_of_bytes(&bytes);
    let words = [input.words[0], input.words[1], input.words[15]];
    assert_eq!(rt; words, [0x40000000, 0xC000003E, 0x01000000]);
    assert!(rt; bytes_of_input(&input) == bytes);
}

const OPERATIONS: [(BinOp, u32, u32, u32); 10] = [
    (BinOp::Add, 0xffffffff, 2, 1),
    (BinOp::Sub, 7, 9, 0xfffffffe),
    (BinOp::Mul, 0x80000000, 2, 0),
    (BinOp::Div, 0xffffffff, 2, 0x7fffffff),
    (BinOp::Div, 5, 0, 0),
    (BinOp::Or, 0x0c, 0x0a, 0x0e),
    (BinOp::And, 0x0c, 0x0a, 0x08),
    (BinOp::Xor, 0x0c, 0x0a, 0x06),
    (BinOp::Lsh, 1, 40, 256),
    (BinOp::Rsh, 0x80000000, 63, 1),
];

#[test]
fn operations_wrap_and_shift_modulo_32(rt: HostRuntime) {
    for (op, a, b, wanted) in OPERATIONS {
        assert_eq!(rt; op.apply(a, b), wanted, "{op:?}");
    }
}

const TESTS: [(Test, u32, u32, bool); 6] = [
    (Test::Equal, 5, 5, true),
    (Test::Greater, 0x80000000, 0x7fffffff, true),
    (Test::Greater, 5, 5, false),
    (Test::GreaterOrEqual, 5, 5, true),
    (Test::AnyBit, 5, 2, false),
    (Test::AnyBit, 5, 6, true),
];

#[test]
fn tests_are_unsigned(rt: HostRuntime) {
    for (test, a, b, wanted) in TESTS {
        assert_eq!(rt; test.passes(a, b), wanted, "{test:?} {a} {b}");
    }
}

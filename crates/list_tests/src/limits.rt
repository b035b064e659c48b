//! Long lists, worked by hand: thousands of rows, and many numbers in one.
use crate::differences::changed_rows;
use crate::listings::listed_rows;
use samples::{ALLOW, op, raw};
use sf_insn::RawInsn;
use std::alloc::Global;
use std::test::Fail;

/// Refuses the 2,000 calls below 6,000 whose number is a multiple of 3: `ld [0]`, for each of them `jeq NUMBER 0 1; ret
/// 0x50001`, and then `ret 0x7fff0000`.
fn third_calls(alloc: Global) -> Result<Vec<RawInsn>, Fail> {
    let mut insns = Vec::new(alloc);
    insns.push(op(0x20, 0))?;
    for third in 0..2000u32 {
        insns.push(raw(0x15, 0, 1, 3 * third))?;
        insns.push(op(0x06, 0x50001))?;
    }
    insns.push(ALLOW)?;
    Ok(insns)
}

/// Refuses the calls 0 to 160 where the low half of their first argument is a multiple of 3 below 186: `ld [0]`, for
/// each call `jeq NUMBER 0 1; ja TESTS`, `ret 0x7fff0000`, and the tests of the argument.
fn third_arguments(alloc: Global) -> Result<Vec<RawInsn>, Fail> {
    let mut insns = Vec::new(alloc);
    insns.push(op(0x20, 0))?;
    for call in 0..161u32 {
        insns.push(raw(0x15, 0, 1, call))?;
        insns.push(op(0x05, 321 - 2 * call))?;
    }
    insns.push(ALLOW)?;
    insns.push(op(0x20, 16))?;
    for third in 0..62u32 {
        insns.push(raw(0x15, 0, 1, 3 * third))?;
        insns.push(op(0x06, 0x50001))?;
    }
    insns.push(ALLOW)?;
    Ok(insns)
}

/// The multiples of 3 below 186, as rows have them.
fn third_numbers(alloc: Global) -> Result<String, Fail> {
    let mut text = String::from_str(alloc, "0x0")?;
    for third in 1..62u32 {
        let number = 3 * third;
        write!(text, ",0x{number:X}")?;
    }
    Ok(text)
}

#[test]
fn two_thousand_calls_are_listed(rt: HostRuntime) -> Result<(), Fail> {
    let alloc = rt.alloc();
    let mut expected = String::new(alloc);
    for third in 0..1999u32 {
        let number = 3 * third;
        let first = number + 1;
        let last = number + 2;
        write!(
            expected,
            "arch any nr {number} ERRNO 1\narch any nr {first}..{last} ALLOW 0\n"
        )?;
    }
    expected.push_str("arch any nr 5997 ERRNO 1\narch any nr 5998..0xFFFFFFFF ALLOW 0\n")?;
    expected.push_str("total rows 4000\n")?;
    let insns = third_calls(alloc)?;
    let text = listed_rows(alloc, insns.as_slice(), &[])?;
    assert_eq!(rt; text.as_str(), expected.as_str());
    Ok(())
}

#[test]
fn two_thousand_calls_are_changed(rt: HostRuntime) -> Result<(), Fail> {
    let alloc = rt.alloc();
    let mut expected = String::new(alloc);
    for third in 0..2000u32 {
        let number = 3 * third;
        write!(expected, "arch any nr {number} ALLOW 0 -> ERRNO 1\n")?;
    }
    expected.push_str("total changed 2000\n")?;
    let insns = third_calls(alloc)?;
    let text = changed_rows(alloc, &[ALLOW], insns.as_slice())?;
    assert_eq!(rt; text.as_str(), expected.as_str());
    Ok(())
}

#[test]
fn many_numbers_in_a_row(rt: HostRuntime) -> Result<(), Fail> {
    let alloc = rt.alloc();
    let insns = third_arguments(alloc)?;
    let numbers = third_numbers(alloc)?;
    let expected = format!(in alloc;
        "arch any nr 0..160 ERRNO 1 if arg0_lo in {numbers}
arch any nr 0..160 ALLOW 0 if arg0_lo not in {numbers}
arch any nr 161..0xFFFFFFFF ALLOW 0
total rows 3
"
    )?;
    let text = listed_rows(alloc, insns.as_slice(), &[])?;
    assert_eq!(rt; text.as_str(), expected.as_str());
    Ok(())
}

#[test]
fn many_numbers_in_a_changed_row(rt: HostRuntime) -> Result<(), Fail> {
    let alloc = rt.alloc();
    let insns = third_arguments(alloc)?;
    let numbers = third_numbers(alloc)?;
    let expected = format!(in alloc;
        "arch any nr 0..160 ALLOW 0 -> ERRNO 1 if arg0_lo in {numbers}
total changed 1
"
    )?;
    let text = changed_rows(alloc, &[ALLOW], insns.as_slice())?;
    assert_eq!(rt; text.as_str(), expected.as_str());
    Ok(())
}

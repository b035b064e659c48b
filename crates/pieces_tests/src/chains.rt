//! Tests of filters that compare A with one number after the other, where A has only one number.
use crate::exploring::{explore_stack, push_name};
use samples::{op, raw, stack_of};
use sf_insn::RawInsn;
use std::alloc::Global;
use std::test::Fail;

/// A number in decimal digits.
fn number(text: &str) -> Result<u32, Fail> {
    match text.parse::<u32>() {
        Ok(number) => Ok(number),
        Err(_) => Err("no number".into()),
    }
}

/// The instruction of sixteen hexadecimal digits: four are its code, two each its fields for jumps, and eight its
/// constant.
fn insn_of(digits: &str) -> Result<RawInsn, Fail> {
    let Ok(fields) = u64::from_str_radix(digits, 16) else {
        return Err("no instruction".into());
    };
    let [high, low, jt, jf, a, b, c, d] = fields.to_be_bytes();
    let code = u16::from_be_bytes([high, low]);
    Ok(raw(code, jt, jf, u32::from_be_bytes([a, b, c, d])))
}

/// Adds a test for each number from `from` up to `end`, without it. Where it fails, each leads past a return, or else,
/// as where it is true, to the next place.
fn push_tests(code: &mut Vec<RawInsn>, from: u32, end: u32, returns: bool) -> Result<(), Fail> {
    for number in from..end {
        code.push(raw(0x15, 0, if returns { 1 } else { 0 }, number))?;
        if returns {
            code.push(op(0x06, number))?;
        }
    }
    Ok(())
}

/// Adds a part of a filter: `10..20` stands for tests, `10..20+ret` for tests with a return behind each, and sixteen
/// digits for an instruction.
fn push_part(code: &mut Vec<RawInsn>, part: &str) -> Result<(), Fail> {
    let (range, returns) = match part.strip_suffix("+ret") {
        Some(range) => (range, true),
        None => (part, false),
    };
    match range.split_once("..") {
        Some((from, end)) => push_tests(code, number(from)?, number(end)?, returns),
        None => Ok(code.push(insn_of(part)?)?),
    }
}

/// The filter that loads a number, or the first word, has these parts, and then returns 0.
fn filter_of(alloc: Global, loads: &str, parts: &str) -> Result<Vec<RawInsn>, Fail> {
    let first = match loads {
        "word" => op(0x20, 0),
        _ => op(0x00, number(loads)?),
    };
    let mut code = vec![in alloc; first; 1]?;
    for part in parts.split_whitespace() {
        push_part(&mut code, part)?;
    }
    code.push(op(0x06, 0))?;
    Ok(code)
}

/// The names of the regions of a filter, as a report shows them, each with a full stop behind it.
fn names_of(alloc: Global, filter: &[RawInsn]) -> Result<String, Fail> {
    let stack = stack_of(alloc, &[filter])?;
    let mut text = String::new(alloc);
    for (name, _answer) in &explore_stack(alloc, &stack)?.regions {
        push_name(&mut text, name)?;
        text.push('.')?;
    }
    Ok(text)
}

/// The first case that is wrong; `None` where there is none. A case has what the filter loads, and the names of its
/// regions.
fn wrong_names(
    alloc: Global,
    parts: &str,
    cases: &'static str,
) -> Result<Option<&'static str>, Fail> {
    for case in cases.split_whitespace() {
        let (loads, names) = case.split_once(':').ok_or("no case")?;
        if names_of(alloc, &filter_of(alloc, loads, parts)?)?.as_str() != names {
            return Ok(Some(case));
        }
    }
    Ok(None)
}

/// What a filter does, its parts, and its cases.
const CHAINS: [(&str, &str, &str); 10] = [
    (
        "a number stands anywhere in a chain",
        "10..22",
        "10:TFFFFFFFFFFF. 11:FTFFFFFFFFFF. 15:FFFFFTFFFFFF. 21:FFFFFFFFFFFT. 9:FFFFFFFFFFFF. 22:FFFFFFFFFFFF. \
        4294967295:FFFFFFFFFFFF.",
    ),
    (
        "a number stands in a chain twice",
        "10..20 15..16 20..30",
        "15:FFFFFTFFFFTFFFFFFFFFF. 12:FFTFFFFFFFFFFFFFFFFFF. 25:FFFFFFFFFFFFFFFFTFFFF.",
    ),
    (
        "a true test leads past others of its chain",
        "10..15 001503000000000f 15..18 20..30 15..16",
        "15:FFFFFTFFFFFFFFFFT. 17:FFFFFFFFTFFFFFFFFFFF. 40:FFFFFFFFFFFFFFFFFFFF.",
    ),
    (
        "a false test leads past a return",
        "10..20 001500010000001e 0006000000000001 15..16 21..32",
        "15:FFFFFTFFFFFTFFFFFFFFFFF. 25:FFFFFFFFFFFFFFFFTFFFFFF. 30:FFFFFFFFFFT.",
    ),
    (
        "each test has a return behind it",
        "10..22+ret",
        "10:T. 15:FFFFFT. 21:FFFFFFFFFFFT. 22:FFFFFFFFFFFF. 9:FFFFFFFFFFFF.",
    ),
    (
        "a test for 50 leads to the chain of 1 to 9 where A is 50, and otherwise behind it, to a chain of 10 to 20",
        "0015000900000032 1..10 10..21",
        "50:TFFFFFFFFFFFFFFFFFFFF. 5:FFFFFFFFFFFF. 14:FFFFFTFFFFFF.",
    ),
    (
        "another test stands between two chains",
        "10..20 0025000000000064 20..31",
        "25:FFFFFFFFFFFFFFFFTFFFFF. 12:FFTFFFFFFFFFFFFFFFFFFF. 200:FFFFFFFFFFTFFFFFFFFFFF.",
    ),
    (
        "a jump stands between two chains",
        "10..20 0005000000000000 20..32 12..13",
        "27:FFFFFFFFFFFFFFFFFTFFFFF. 12:FFTFFFFFFFFFFFFFFFFFFFT.",
    ),
    (
        "chains are short",
        "10..13 0005000000000000 15..18",
        "10:TFFFFF. 12:FFTFFF. 15:FFFTFF. 17:FFFFFT.",
    ),
    (
        "a word has one number once a test told it",
        "001500140000000f 10..20 15..16 20..29",
        "word:F.TFFFFFTFFFFTFFFFFFFFF.",
    ),
];

#[test]
fn a_number_stands_in_chains(rt: HostRuntime) -> Result<(), Fail> {
    for (what, parts, cases) in CHAINS {
        assert_eq!(rt; wrong_names(rt.alloc(), parts, cases)?, None, "{what}");
    }
    Ok(())
}

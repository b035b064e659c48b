//! The numbers of faults, and what they say.
use sf_check::Fault;
use std::test::Fail;

/// Faults of files.
const OF_FILES: [(sf_insn::Fault, u16, &str); 4] = [
    (sf_insn::Fault::Ragged, 10, "the length is no multiple of 8"),
    (sf_insn::Fault::Empty, 11, "no instruction"),
    (sf_insn::Fault::TooLong, 12, "more than 4096 instructions"),
    (sf_insn::Fault::Memory, 60, "out of memory"),
];

#[test]
fn faults_of_files_say_what_is_wrong(rt: HostRuntime) -> Result<(), Fail> {
    for (fault, number, said) in OF_FILES {
        let text = format!(in rt.alloc(); "{} {fault}", fault.number())?;
        let wanted = format!(in rt.alloc(); "{number} {said}")?;
        assert_eq!(rt; text, wanted);
    }
    Ok(())
}

/// Faults of programs and stacks.
const OF_PROGRAMS: [(Fault, u16, &str); 11] = [
    (Fault::Empty, 11, "no instruction"),
    (Fault::TooLong, 12, "more than 4096 instructions"),
    (Fault::Code(7), 20, "instruction 7 has an unknown code"),
    (
        Fault::Field(4095),
        21,
        "instruction 4095 has a field out of range",
    ),
    (
        Fault::Jump(3),
        22,
        "instruction 3 leads outside the program",
    ),
    (Fault::Last, 23, "the last instruction is no return"),
    (
        Fault::Scratch(12),
        24,
        "instruction 12 loads a scratch word that may not be set",
    ),
    (Fault::NoFilter, 25, "no filter"),
    (Fault::TooMany, 26, "more than 64 filters"),
    (Fault::PathLength, 27, "the path length is above 32768"),
    (Fault::Memory, 60, "out of memory"),
];

#[test]
fn faults_of_programs_say_what_is_wrong_and_where(rt: HostRuntime) -> Result<(), Fail> {
    for (fault, number, said) in OF_PROGRAMS {
        let text = format!(in rt.alloc(); "{} {fault}", fault.number())?;
        let wanted = format!(in rt.alloc(); "{number} {said}")?;
        assert_eq!(rt; text, wanted);
    }
    Ok(())
}

#[test]
fn memory_has_one_number(rt: HostRuntime) {
    let (run, pool) = (sf_run::Fault::Memory, sf_sym::Fault::Memory);
    let numbers = [run.number(), pool.number(), sf_dom::Fault::Memory.number()];
    assert_eq!(rt; numbers, [60; 3]);
}

//! The filter that a profile means.

ghost use Rattle.std.specs.Prelude.{◌≡◌, ◌++◌, ◌+◌, IfOk, OnOk};
ghost use Rattle.std.specs.List.{flat_map};
ghost use Rattle.sf_profile.specs.Form.{above_calls, above_rules, body_code, call_code, direct_code, form, newer_where, part_code, round_code, places, return_code, rule_at, set_code, through_code};
ghost use Rattle.sf_profile.specs.Meaning.{refuses_newer};

use crate::comparing::comparisons_code;
use crate::instruction::Instruction;
use crate::rules::{Call, CallSet, Part, Plan, Reading, Response, Rule};
use sf_insn::Test;
use std::alloc::{AllocError, Global};

/// The number -1, which is no call's. It is above 2^30, where the numbers of x32 begin, but on x86-64 the filter counts
/// it to the 64-bit calls.
const NO_NUMBER: u32 = 0xffff_ffff;

pub(crate) const LEAST_OF_X32: u32 = 0x4000_0000;

/// The error number of a call that the kernel doesn't have.
const ENOSYS: u16 = 38;

/// The places that `Reading::order` gives to rules, the least first.
const PLACES: [u8; 8] = [0, 1, 2, 3, 4, 5, 6, 7];

/// Adds the code of comparisons, and a return of `value` where all hold. Behind the return the call's number is loaded
/// into A again, for the next call's test.
fn push_return(
    code: &mut Vec<Instruction>,
    comparisons: &[Instruction],
    value: u32,
) -> Result<(), AllocError>
    ensures { OnOk result (code.new.items ≡ code.old.items
        ++ return_code comparisons.now value) }
{
    code.extend_from_slice(comparisons)?;
    code.extend_from_slice(&[Instruction::Return(value), Instruction::Load(0)])
}

/// Adds the code for a call that is known by its number alone: a return of `value` if all comparisons hold. A has the
/// call's number before this code, and behind it again.
fn push_direct(
    code: &mut Vec<Instruction>,
    comparisons: &[Instruction],
    value: u32,
    number: u32,
) -> Result<(), AllocError>
    ensures { OnOk result (code.new.items ≡ code.old.items
        ++ direct_code comparisons.now value number) }
{
    if comparisons.is_empty() {
        return code.extend_from_slice(&[
            Instruction::Branch(Test::Equal, number, 0, 1),
            Instruction::Return(value),
        ]);
    }
    code.push(Instruction::Branch(Test::Equal, number, 0, comparisons.len() + 1))?;
    push_return(code, comparisons, value)
}

/// Adds the code for a call that is made through another one, as `socket` through `socketcall`, which the low half of
/// its first argument, `operation`, tells. A has the call's number before this code, and behind it again.
fn push_through(
    code: &mut Vec<Instruction>,
    comparisons: &[Instruction],
    value: u32,
    number: u32,
    operation: u32,
) -> Result<(), AllocError>
    ensures { OnOk result (code.new.items ≡ code.old.items
        ++ through_code comparisons.now value number operation) }
{
    let size = comparisons.len();
    code.extend_from_slice(&[
        Instruction::Branch(Test::Equal, number, 0, size + 3),
        Instruction::Load(4),
        Instruction::Branch(Test::Equal, operation, 0, size + 1),
    ])?;
    push_return(code, comparisons, value)
}

fn push_call(
    code: &mut Vec<Instruction>,
    comparisons: &[Instruction],
    value: u32,
    call: Call,
) -> Result<(), AllocError>
    ensures { OnOk result (code.new.items ≡ code.old.items
        ++ call_code comparisons.now value call) }
{
    match call.operation {
        None => push_direct(code, comparisons, value, call.number),
        Some(operation) => push_through(code, comparisons, value, call.number, operation),
    }
}

fn push_calls(
    code: &mut Vec<Instruction>,
    comparisons: &[Instruction],
    value: u32,
    calls: &[Call],
) -> Result<(), AllocError>
    ensures { OnOk result (code.new.items ≡ code.old.items
        ++ flat_map (call_code comparisons.now value) calls.now) }
{
    for call in calls {
        push_call(code, comparisons, value, *call)?;
    }
    Ok(())
}

/// Adds the code of a rule, if this is its place. If `wide`, arguments have 64 bits, and else 32.
fn push_rule(
    alloc: Global,
    code: &mut Vec<Instruction>,
    reading: Reading,
    wide: bool,
    place: u8,
    rule: &Rule,
) -> Result<(), AllocError>
    ensures { OnOk result (code.new.items ≡ code.old.items
        ++ rule_at reading wide place rule.now) }
{
    if reading.order(rule) == place {
        let comparisons = comparisons_code(alloc, wide, &rule.comparisons)?;
        return push_calls(code, &comparisons, rule.response.value(), &rule.calls);
    }
    Ok(())
}

fn push_round(
    alloc: Global,
    code: &mut Vec<Instruction>,
    reading: Reading,
    wide: bool,
    place: u8,
    rules: &[Rule],
) -> Result<(), AllocError>
    ensures { OnOk result (code.new.items ≡ code.old.items
        ++ round_code reading wide rules.now place) }
{
    for rule in rules {
        push_rule(alloc, code, reading, wide, place, rule)?;
    }
    Ok(())
}

/// Adds the code of all rules, ordered by the places of `Reading::order`. So the first code that returns is that of the
/// rule that counts.
fn push_rounds(
    alloc: Global,
    code: &mut Vec<Instruction>,
    reading: Reading,
    wide: bool,
    rules: &[Rule],
) -> Result<(), AllocError>
    ensures { OnOk result (code.new.items ≡ code.old.items
        ++ flat_map (round_code reading wide rules.now) places) }
{
    for place in PLACES.as_slice() {
        push_round(alloc, code, reading, wide, *place, rules)?;
    }
    Ok(())
}

/// The least number that is at least `least`, and greater than the number of each call.
fn above_calls(least: u64, calls: &[Call]) -> u64
    ensures { result ≡ above_calls least calls.now }
{
    calls
        .iter()
        .fold(least, |above, call| above.max(u64::from(call.number) + 1))
}

fn above_rules(rules: &[Rule]) -> u64
    ensures { result ≡ above_rules rules.now }
{
    rules
        .iter()
        .fold(0, |above, rule| above_calls(above, &rule.calls))
}

/// Whether `Plan::newer` is heeded: not where the default lets calls through, or leaves them to a tracer.
fn refuses_newer(default: Response) -> bool
    ensures { result ≡ refuses_newer default }
{
    !matches!(
        default,
        Response::Allow | Response::Log | Response::Tracer(_)
    )
}

/// Adds the code by which newer calls fail with ENOSYS if `asked`: those whose number is above those of all calls of
/// the rules. There are none where that number has more than 32 bits.
fn push_newer(code: &mut Vec<Instruction>, asked: bool, rules: &[Rule]) -> Result<(), AllocError>
    ensures { OnOk result (code.new.items ≡ code.old.items ++ newer_where asked rules.now) }
{
    if !asked {
        return Ok(());
    }
    let Ok(least) = u32::try_from(above_rules(rules)) else {
        return Ok(());
    };
    code.extend_from_slice(&[
        Instruction::Branch(Test::GreaterOrEqual, least, 0, 1),
        Instruction::Return(Response::Errno(ENOSYS).value()),
    ])
}

/// The code for the inputs of a set: a load of the call's number into A, the code for newer calls, that of the rules,
/// and a return of the default. It returns at every input.
fn body_code(alloc: Global, plan: &Plan, part: &Part) -> Result<Vec<Instruction>, AllocError>
    ensures { IfOk result (λ v. v.items ≡ body_code plan.now part.now) }
{
    let mut code = Vec::new(alloc);
    code.push(Instruction::Load(0))?;
    push_newer(
        &mut code,
        plan.newer && refuses_newer(plan.default),
        &part.rules,
    )?;
    push_rounds(
        alloc,
        &mut code,
        plan.reading,
        part.set.is_wide(),
        &part.rules,
    )?;
    code.push(Instruction::Return(plan.default.value()))?;
    Ok(code)
}

/// Adds code that skips `size` instructions where the input isn't of the set: it has another architecture, or on x86-64
/// a number of the other set. From `LEAST_OF_X32` up, numbers are those of x32, except `NO_NUMBER`.
///
/// The skip is an instruction of its own, since a branch can't skip more than 255.
fn push_skip_unless_of_set(
    code: &mut Vec<Instruction>,
    set: CallSet,
    size: usize,
) -> Result<(), AllocError>
    ensures { OnOk result (code.new.items ≡ code.old.items ++ set_code set size) }
{
    match set {
        CallSet::X64 => code.extend_from_slice(&[
            Instruction::Load(1),
            Instruction::Branch(Test::Equal, set.arch(), 0, 3),
            Instruction::Load(0),
            Instruction::Branch(Test::Equal, NO_NUMBER, 2, 0),
            Instruction::Branch(Test::GreaterOrEqual, LEAST_OF_X32, 0, 1),
            Instruction::Skip(size),
        ]),
        CallSet::X32 => code.extend_from_slice(&[
            Instruction::Load(1),
            Instruction::Branch(Test::Equal, set.arch(), 0, 3),
            Instruction::Load(0),
            Instruction::Branch(Test::Equal, NO_NUMBER, 1, 0),
            Instruction::Branch(Test::GreaterOrEqual, LEAST_OF_X32, 1, 0),
            Instruction::Skip(size),
        ]),
        CallSet::I386 | CallSet::Aarch64 | CallSet::Arm => code.extend_from_slice(&[
            Instruction::Load(1),
            Instruction::Branch(Test::Equal, set.arch(), 1, 0),
            Instruction::Skip(size),
        ]),
    }
}

fn push_part(
    alloc: Global,
    code: &mut Vec<Instruction>,
    plan: &Plan,
    part: &Part,
) -> Result<(), AllocError>
    ensures { OnOk result (code.new.items ≡ code.old.items ++ part_code plan.now part.now) }
{
    let body = body_code(alloc, plan, part)?;
    push_skip_unless_of_set(code, part.set, body.len())?;
    code.extend_from_slice(&body)
}

/// The whole filter of a plan. At its end a return of 0 kills the thread at an input of no set.
pub(crate) fn filter_code(alloc: Global, plan: &Plan) -> Result<Vec<Instruction>, AllocError>
    ensures { IfOk result (λ v. v.items ≡ form plan.now) }
{
    let mut code = Vec::new(alloc);
    for part in &plan.parts {
        push_part(alloc, &mut code, plan, part)?;
    }
    code.push(Instruction::Return(0))?;
    Ok(code)
}

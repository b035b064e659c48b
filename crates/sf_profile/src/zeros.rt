//! Calls that a profile answers by ERRNO 0.

ghost use Rattle.std.specs.Prelude.{◌≡◌, ◌⊎◌, ◌++◌, ◌∷◌, [], All, IfErr, IfOk, IfSome, OnOk};
ghost use Rattle.sf_profile.specs.Cautions.{AnswerZero, AreProgramOf, HaveZeroErrors};
ghost use Rattle.sf_profile.specs.Filters.{IsTooLong};

use crate::comparing::{high, low, word_of};
use crate::fault::Fault;
use crate::file::filter_for;
use crate::plan::plan_of;
use crate::read::Profile;
use crate::rules::{Call, CallSet, Comparing, Comparison, Part, Plan, Response};
use crate::settings::Settings;
use sf_check::{Stack, check};
use sf_insn::{Input, decode};
use sf_run::{Action, answer};
use std::alloc::{AllocError, Global};

fn number_for(comparison: Comparison) -> u64 {
    let value = comparison.value;
    match comparison.comparing {
        Comparing::NotEqual | Comparing::Greater => value.wrapping_add(1),
        Comparing::Less => value.wrapping_sub(1),
        Comparing::LessOrEqual | Comparing::Equal | Comparing::GreaterOrEqual => value,
        Comparing::MaskedEqual => value & comparison.value_two,
    }
}

/// The words of an input that is this call of this set, with arguments for which the comparisons hold, if there are
/// such.
fn words_for(set: CallSet, call: Call, comparisons: &[Comparison]) -> [u32; 16] {
    let mut words = [0u32; 16];
    words[0] = call.number;
    words[1] = set.arch();
    words[4] = call.operation.unwrap_or(0);
    for comparison in comparisons {
        let word = usize::from(word_of(comparison.argument));
        let number = number_for(*comparison);
        words[word] = low(number);
        words[word + 1] = high(number);
    }
    words
}

fn is_zero_error(response: Response) -> bool {
    matches!(response, Response::Errno(0))
}

/// Adds the words of an input for each call of a rule that answers ERRNO 0.
fn push_of_rules(inputs: &mut Vec<[u32; 16]>, part: &Part) -> Result<(), AllocError> {
    for rule in &part.rules {
        if is_zero_error(rule.response) {
            for call in &rule.calls {
                inputs.push(words_for(part.set, *call, &rule.comparisons))?;
            }
        }
    }
    Ok(())
}

fn push_of_set(
    inputs: &mut Vec<[u32; 16]>,
    settings: &Settings,
    set: CallSet,
) -> Result<(), AllocError> {
    for call in settings.calls_in(set) {
        let number = call.number();
        let call = Call {
            number,
            operation: None,
        };
        inputs.push(words_for(set, call, &[]))?;
    }
    Ok(())
}

/// The words of inputs that the plan may answer by ERRNO 0: one for each call of each rule that does, and where the
/// default does, one for each call of each set.
fn suggestions(
    alloc: Global,
    settings: &Settings,
    plan: &Plan,
) -> Result<Vec<[u32; 16]>, AllocError> {
    let mut inputs = Vec::new(alloc);
    for part in &plan.parts {
        push_of_rules(&mut inputs, part)?;
        if is_zero_error(plan.default) {
            push_of_set(&mut inputs, settings, part.set)?;
        }
    }
    Ok(inputs)
}

/// The number of the call that these words are, if the stack answers ERRNO 0 to them.
#[tactic(auto, using(crate::proofs::cautions::CautionLemmas::zero_found))]
fn number_of_zero(stack: &Stack, words: [u32; 16]) -> Option<u32>
    ensures { IfSome result (AnswerZero stack.now) }
{
    let input = Input { words };
    let given = answer(stack, &input);
    match (given.action, given.info) {
        (Action::Errno, 0) => Some(input.words[0]),
        _ => None,
    }
}

fn push_once(numbers: &mut Vec<u32>, number: u32) -> Result<(), AllocError>
    ensures { OnOk result ((numbers.new.items ≡ numbers.old.items)
        ⊎ (numbers.new.items ≡ numbers.old.items ++ number ∷ [])) }
{
    if numbers.contains(&number) {
        return Ok(());
    }
    numbers.push(number)?;
    Ok(())
}

#[tactic(auto, using(crate::proofs::cautions::CautionLemmas::one_more))]
fn zeros_among(alloc: Global, stack: &Stack, inputs: &[[u32; 16]]) -> Result<Vec<u32>, AllocError>
    ensures { IfOk result (λ v. All (AnswerZero stack.now) v.items) }
{
    let mut numbers = Vec::new(alloc);
    for words in inputs {
        if let Some(number) = number_of_zero(stack, *words) {
            push_once(&mut numbers, number)?;
        }
    }
    Ok(numbers)
}

/// The stack of one program, that of a filter that this crate has made.
fn stack_of(alloc: Global, bytes: &[u8]) -> Result<Stack, AllocError>
    ensures { IfOk result (AreProgramOf bytes.now) }
{
    let Ok(raws) = decode(alloc, bytes) else {
        return Err(AllocError);
    };
    let Ok(program) = check(alloc, &raws) else {
        return Err(AllocError);
    };
    let mut programs = Vec::new(alloc);
    programs.push(program)?;
    match Stack::of(programs) {
        Ok(stack) => Ok(stack),
        Err(_) => Err(AllocError),
    }
}

/// Numbers of calls that the profile answers by ERRNO 0, each once: those of the inputs that its plan suggests and its
/// filter answers so.
pub(crate) fn zeros_of(
    alloc: Global,
    settings: &Settings,
    profile: &Profile<'_>,
) -> Result<Vec<u32>, Fault>
    ensures zeros { IfOk result (λ v. HaveZeroErrors settings.now v.items profile.now) }
    ensures refused { IfErr result (λ e. (e ≡ Fault.Memory) ⊎ ((e ≡ Fault.TooLong)
        × IsTooLong settings.now profile.now)) }
{
    let filter = filter_for(alloc, settings, profile)?;
    let stack = stack_of(alloc, &filter)?;
    let plan = plan_of(alloc, settings, profile)?;
    let inputs = suggestions(alloc, settings, &plan)?;
    let numbers = zeros_among(alloc, &stack, &inputs)?;
    Ok(numbers)
}

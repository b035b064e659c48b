//! Why a stack answers an input as it does: the lines of `audit --why`.

ghost use Rattle.std.specs.Prelude.{◌≡◌, ◌++◌, find, reverse, IfErr, IfOk, OnOk, string_bytes};
ghost use Rattle.std.specs.List.{flat_map};
ghost use Rattle.std.specs.Option.{option_map};
ghost use Rattle.sf_stack.specs.declared.fault.Fault.TheVariants.{Memory as MemoryFault};
ghost use Rattle.sf_trace.specs.Traces.{IsWhy, cause_line, cause_text, is_true, last_true, why_text};

use super::tracing::{push_call_line, push_meeting, push_returned};
use crate::runs::{Run, Trace, runs_of};
use crate::step::step_of;
use sf_check::Stack;
use sf_insn::Input;
use sf_names::Names;
use sf_run::{Meeting, answer};
use sf_stack::Fault;
use std::alloc::{AllocError, Global};

fn is_true(meeting: Meeting) -> bool
    ensures { result ≡ is_true meeting }
{
    match step_of(meeting).compared {
        Some((_, _, truth)) => truth,
        None => false,
    }
}

fn last_true(met: &[Meeting]) -> Option<&Meeting>
    ensures { option_map (λ m. m.now) result ≡ last_true met.now }
{
    met.iter().rev().find(|meeting| is_true(**meeting))
}

fn push_cause(text: &mut String, number: usize, met: &[Meeting]) -> Result<(), AllocError>
    ensures { OnOk result (string_bytes text.new ≡ string_bytes text.old
        ++ cause_line number (last_true met.now)) }
{
    match last_true(met) {
        Some(meeting) => {
            text.push_str("why ")?;
            push_meeting(text, number, *meeting)
        }
        None => Ok(()),
    }
}

fn push_caused(text: &mut String, run: &Run) -> Result<(), AllocError>
    ensures { OnOk result (string_bytes text.new ≡ string_bytes text.old ++ cause_text run.now) }
{
    text.push_str("why ")?;
    push_returned(
        text,
        run.number,
        run.course.place,
        run.course.value,
        run.stands,
    )?;
    push_cause(text, run.number, &run.course.met)
}

fn push_causes(text: &mut String, runs: &[Run]) -> Result<(), AllocError>
    ensures { OnOk result (string_bytes text.new ≡ string_bytes text.old
        ++ flat_map cause_text runs.now) }
{
    for run in runs {
        push_caused(text, run)?;
    }
    Ok(())
}

fn push_why(alloc: Global, text: &mut String, trace: &Trace<'_>) -> Result<(), sf_run::Fault>
    ensures { OnOk result (string_bytes text.new ≡ string_bytes text.old
        ++ why_text trace.now.names.now trace.now.stack.now trace.now.input.now
        trace.now.answer) }
{
    let runs = runs_of(alloc, trace)?;
    text.push_str("why ")?;
    push_call_line(text, trace.names, trace.input)?;
    push_causes(text, &runs)?;
    Ok(())
}

/// Why a stack answers an input as it does.
pub fn why_text(
    alloc: Global,
    names: &[Names],
    stack: &Stack,
    input: &Input,
) -> Result<String, Fault>
    ensures shown { IfOk result (λ text. IsWhy names.now stack.now input.now (string_bytes text)) }
    ensures refused { IfErr result (λ e. e ≡ MemoryFault) }
{
    let answer = answer(stack, input);
    let trace = Trace {
        stack,
        input,
        answer,
        brief: true,
        names,
    };
    let mut text = String::new(alloc);
    match push_why(alloc, &mut text, &trace) {
        Ok(()) => Ok(text),
        Err(_) => Err(Fault::Memory),
    }
}

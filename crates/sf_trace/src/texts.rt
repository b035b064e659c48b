//! The texts that `check` and `eval` write.

mod instructions;
mod tracing;
mod why;

ghost use Rattle.std.specs.Prelude.{◌≡◌, ◌++◌, ℕ, List, IfOk, OnOk, length, string_bytes};
ghost use Rattle.sf_trace.specs.Texts.{AreFilterLines, IsCheckText, StandUnder, answer_text, filter_line};
ghost use Rattle.sf_trace.specs.Traces.{eval_text};

use crate::runs::Trace;
pub(crate) use instructions::push_instructions;
use sf_check::{Program, Stack};
use sf_run::Answer;
use sf_stack::push_action;
use std::alloc::{AllocError, Global};
use tracing::push_trace;
pub use why::why_text;

fn answer_text(alloc: Global, answer: Answer) -> Result<String, AllocError>
    ensures { IfOk result (λ text. string_bytes text ≡ answer_text answer) }
{
    let mut text = String::new(alloc);
    push_action(&mut text, answer.action)?;
    let info = answer.info;
    write!(text, " {info}\n")?;
    Ok(text)
}

/// The text of `eval`: the answer, and under it the trace, where it is asked for.
pub fn eval_text(alloc: Global, traced: bool, trace: &Trace<'_>) -> Result<String, sf_run::Fault>
    ensures { IfOk result (λ text. string_bytes text ≡ eval_text traced trace.now.brief
        trace.now.names.now trace.now.stack.now trace.now.input.now trace.now.answer) }
{
    let mut text = answer_text(alloc, trace.answer)?;
    if !traced && !trace.brief {
        return Ok(text);
    }
    push_trace(alloc, &mut text, trace)?;
    Ok(text)
}

fn push_filter(text: &mut String, number: usize, instructions: usize) -> Result<(), AllocError>
    ensures { OnOk result (string_bytes text.new ≡ string_bytes text.old
        ++ filter_line number instructions) }
{
    write!(text, "filter {number} {instructions} instructions\n")
}

fn push_under(
    alloc: Global,
    text: &mut String,
    listed: bool,
    program: &Program,
) -> Result<(), AllocError>
    ensures { OnOk result ((under : List ℕ) × StandUnder listed program.now under
        × (string_bytes text.new ≡ string_bytes text.old ++ under)) }
{
    if listed {
        push_instructions(alloc, text, program)?;
    }
    Ok(())
}

fn push_filters(
    alloc: Global,
    text: &mut String,
    listed: bool,
    programs: &[Program],
) -> Result<(), AllocError>
    ensures { OnOk result ((lines : List ℕ) × AreFilterLines listed 1 programs.now lines
        × (string_bytes text.new ≡ string_bytes text.old ++ lines)) }
{
    for (i, program) in programs.iter().enumerate() {
        push_filter(text, i + 1, program.insns().len())?;
        push_under(alloc, text, listed, program)?;
    }
    Ok(())
}

/// The text of `check`, where `listed` asks for it with the instructions of each filter.
pub fn check_text(alloc: Global, stack: &Stack, listed: bool) -> Result<String, AllocError>
    ensures { IfOk result (λ text. IsCheckText listed stack.now (string_bytes text)) }
{
    let mut text = String::new(alloc);
    push_filters(alloc, &mut text, listed, stack.programs())?;
    let path = stack.path_length();
    write!(&mut text, "path {path}\n")?;
    Ok(text)
}

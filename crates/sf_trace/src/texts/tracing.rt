//! The text of `eval --trace`: the input, and how each filter comes to its return value.
ghost use Rattle.std.specs.Prelude.{◌≡◌, ◌++◌, OnOk, string_bytes};
ghost use Rattle.std.specs.List.{flat_map};
ghost use Rattle.sf_trace.specs.Traces.{call_line, call_text, compared_text, field_line, fields_text, first_arguments, input_text, is_false, last_arguments, stands_text, meeting_line, named_text, nr_line, return_line, shown_line, trace_text, truth_text, walk_text, word_text};

use crate::runs::{Run, Trace, runs_of};
use crate::step::{is_false, sign_of, step_of};
use sf_calls::{is_named, push_call_words};
use sf_insn::{Input, Test};
use sf_names::{Names, push_names_between};
use sf_policy::WORD_KEYS;
use sf_run::{Action, Fault, Meeting};
use sf_stack::push_action;
use std::alloc::{AllocError, Global};

fn push_word(text: &mut String, word: u32) -> Result<(), AllocError>
    ensures { OnOk result (string_bytes text.new ≡ string_bytes text.old ++ word_text word) }
{
    write!(text, "0x{word:08X}")
}

fn push_field(text: &mut String, name: &str, low: u32, high: u32) -> Result<(), AllocError>
    ensures { OnOk result (string_bytes text.new ≡ string_bytes text.old
        ++ field_line name.now low high) }
{
    write!(text, "{name} ")?;
    push_word(text, high)?;
    write!(text, "{low:08X}\n")
}

fn push_nr(text: &mut String, names: &[Names], arch: u32, nr: u32) -> Result<(), AllocError>
    ensures { OnOk result (string_bytes text.new ≡ string_bytes text.old
        ++ nr_line names.now arch nr) }
{
    write!(text, "nr 0x{nr:08X} {nr}")?;
    push_names_between(text, 0, names, arch, nr, nr)?;
    text.push_str("\n")?;
    Ok(())
}

fn push_call(text: &mut String, names: &[Names], input: &Input) -> Result<(), AllocError>
    ensures { OnOk result (string_bytes text.new ≡ string_bytes text.old
        ++ call_text names.now input.now) }
{
    let arch = input.words[1];
    push_nr(text, names, arch, input.words[0])?;
    write!(text, "arch 0x{arch:08X}\n")?;
    push_field(text, "ip", input.words[2], input.words[3])
}

fn push_first_arguments(text: &mut String, input: &Input) -> Result<(), AllocError>
    ensures { OnOk result (string_bytes text.new ≡ string_bytes text.old
        ++ first_arguments input.now) }
{
    push_field(text, "arg0", input.words[4], input.words[5])?;
    push_field(text, "arg1", input.words[6], input.words[7])?;
    push_field(text, "arg2", input.words[8], input.words[9])
}

fn push_last_arguments(text: &mut String, input: &Input) -> Result<(), AllocError>
    ensures { OnOk result (string_bytes text.new ≡ string_bytes text.old
        ++ last_arguments input.now) }
{
    push_field(text, "arg3", input.words[10], input.words[11])?;
    push_field(text, "arg4", input.words[12], input.words[13])?;
    push_field(text, "arg5", input.words[14], input.words[15])
}

fn push_fields(text: &mut String, names: &[Names], input: &Input) -> Result<(), AllocError>
    ensures { OnOk result (string_bytes text.new ≡ string_bytes text.old
        ++ fields_text names.now input.now) }
{
    push_call(text, names, input)?;
    push_first_arguments(text, input)?;
    push_last_arguments(text, input)
}

pub(crate) fn push_call_line(
    text: &mut String,
    names: &[Names],
    input: &Input,
) -> Result<(), AllocError>
    ensures { OnOk result (string_bytes text.new ≡ string_bytes text.old
        ++ call_line names.now input.now) }
{
    text.push_str("call ")?;
    push_call_words(text, names, input)?;
    text.push_str("\n")?;
    Ok(())
}

fn push_input(text: &mut String, names: &[Names], input: &Input) -> Result<(), AllocError>
    ensures { OnOk result (string_bytes text.new ≡ string_bytes text.old
        ++ input_text names.now input.now) }
{
    if is_named(names, input) {
        push_call_line(text, names, input)?;
    }
    push_fields(text, names, input)
}

fn truth_of(truth: bool) -> &'static str
    ensures { result.now ≡ truth_text truth }
{
    if truth { "true" } else { "false" }
}

fn push_compared(text: &mut String, compared: Option<(Test, u32, bool)>) -> Result<(), AllocError>
    ensures { OnOk result (string_bytes text.new ≡ string_bytes text.old
        ++ compared_text compared) }
{
    let Some((test, other, truth)) = compared else {
        return text.push_str(" returned\n");
    };
    let (sign, truth) = (sign_of(test), truth_of(truth));
    write!(text, " {sign} 0x{other:08X} {truth}\n")
}

fn push_name(text: &mut String, word: Option<u8>) -> Result<(), AllocError>
    ensures { OnOk result (string_bytes text.new ≡ string_bytes text.old ++ named_text word) }
{
    let Some(word) = word else {
        return Ok(());
    };
    let name = WORD_KEYS.get(usize::from(word)).copied().unwrap_or("");
    write!(text, "{name} ")
}

pub(crate) fn push_meeting(
    text: &mut String,
    number: usize,
    meeting: Meeting,
) -> Result<(), AllocError>
    ensures { OnOk result (string_bytes text.new ≡ string_bytes text.old
        ++ meeting_line number meeting) }
{
    let step = step_of(meeting);
    let place = meeting.place;
    write!(text, "filter {number} instruction {place} ")?;
    push_name(text, step.word)?;
    push_word(text, step.value)?;
    push_compared(text, step.compared)
}

fn push_shown(
    text: &mut String,
    brief: bool,
    number: usize,
    meeting: Meeting,
) -> Result<(), AllocError>
    ensures { OnOk result (string_bytes text.new ≡ string_bytes text.old
        ++ shown_line brief number meeting) }
{
    if brief && is_false(meeting) {
        return Ok(());
    }
    push_meeting(text, number, meeting)
}

fn push_meetings(
    text: &mut String,
    brief: bool,
    number: usize,
    met: &[Meeting],
) -> Result<(), AllocError>
    ensures { OnOk result (string_bytes text.new ≡ string_bytes text.old
        ++ flat_map (shown_line brief number) met.now) }
{
    for meeting in met {
        push_shown(text, brief, number, *meeting)?;
    }
    Ok(())
}

fn stands_word(stands: bool) -> &'static str
    ensures { result.now ≡ stands_text stands }
{
    if stands { " stands" } else { "" }
}

pub(super) fn push_returned(
    text: &mut String,
    number: usize,
    place: usize,
    value: u32,
    stands: bool,
) -> Result<(), AllocError>
    ensures { OnOk result (string_bytes text.new ≡ string_bytes text.old
        ++ return_line number place value stands) }
{
    let action = Action::of_number(value & 0xffff0000);
    write!(text, "filter {number} ")?;
    push_action(text, action)?;
    let info = value & 0xffff;
    let mark = stands_word(stands);
    write!(text, " {info} instruction {place}{mark}\n")
}

fn push_run(text: &mut String, brief: bool, run: &Run) -> Result<(), AllocError>
    ensures { OnOk result (string_bytes text.new ≡ string_bytes text.old ++ walk_text brief run.now) }
{
    push_returned(
        text,
        run.number,
        run.course.place,
        run.course.value,
        run.stands,
    )?;
    push_meetings(text, brief, run.number, &run.course.met)
}

fn push_runs(text: &mut String, brief: bool, runs: &[Run]) -> Result<(), AllocError>
    ensures { OnOk result (string_bytes text.new ≡ string_bytes text.old
        ++ flat_map (walk_text brief) runs.now) }
{
    for run in runs {
        push_run(text, brief, run)?;
    }
    Ok(())
}

pub(super) fn push_trace(alloc: Global, text: &mut String, trace: &Trace<'_>) -> Result<(), Fault>
    ensures { OnOk result (string_bytes text.new ≡ string_bytes text.old
        ++ trace_text trace.now.brief trace.now.names.now trace.now.stack.now
        trace.now.input.now trace.now.answer) }
{
    let runs = runs_of(alloc, trace)?;
    push_input(text, trace.names, trace.input)?;
    push_runs(text, trace.brief, &runs)?;
    Ok(())
}

//! The text of a report, part by part. After an error a part of what was to be added may stand in the text; `report_of`
//! drops it.

ghost use Rattle.std.specs.Prelude.{◌≡◌, ◌<◌, ◌^◌, ◌++◌, IfOk, OnOk, length, map, string_bytes};
ghost use Rattle.sf_check.specs.Stacks.{path_length};
ghost use Rattle.sf_audit.specs.Reports.{size_line, question_line, question_lines, remark_at, remarked_line, name_text, region_line, shown_lines, total_line, totals_line, head_text, report_text};

use crate::counting::{count_allowed, count_never, count_unsettled};
use crate::outcome::Outcome;
use sf_ask::{Question, Reply};
use sf_book::{Region, Settled};
use sf_stack::{hex_of, push_action, push_counts};
use std::alloc::{AllocError, Global};

fn push_truth_values(text: &mut String, name: &[bool]) -> Result<(), AllocError>
    ensures { OnOk result (string_bytes text.new ≡ string_bytes text.old ++ name_text name.now) }
{
    if name.is_empty() {
        return text.push_str("-");
    }
    for value in name {
        text.push_str(if *value { "T" } else { "F" })?;
    }
    Ok(())
}

fn push_region(
    alloc: Global,
    text: &mut String,
    number: usize,
    region: &Region,
) -> Result<(), AllocError>
    ensures { OnOk result (string_bytes text.new ≡ string_bytes text.old
        ++ region_line number region.now) }
{
    write!(text, "region {number} ")?;
    let name = region.name().values(alloc)?;
    push_truth_values(text, &name)?;
    text.push_str(" ")?;
    let answer = region.answer();
    push_action(text, answer.action)?;
    let info = answer.info;
    write!(text, " {info}\n")
}

fn push_regions(
    alloc: Global,
    text: &mut String,
    shown: bool,
    settled: &Settled,
) -> Result<(), AllocError>
    ensures { OnOk result (string_bytes text.new ≡ string_bytes text.old
        ++ shown_lines shown settled.now.regions) }
{
    if !shown {
        return Ok(());
    }
    for i in 0..settled.region_count() {
        push_region(alloc, text, i + 1, settled.region(i))?;
    }
    Ok(())
}

fn push_question(
    alloc: Global,
    text: &mut String,
    number: usize,
    name: &str,
    reply: Reply,
) -> Result<(), AllocError>
    ensures { OnOk result (string_bytes text.new ≡ string_bytes text.old
        ++ question_line number name.now reply) }
{
    match reply {
        Reply::Never => write!(text, "question {number} {name} never\n"),
        Reply::Unsettled => write!(text, "question {number} {name} unsettled\n"),
        Reply::Allowed(input) => {
            let digits = hex_of(alloc, &input)?;
            write!(text, "question {number} {name} allowed {digits}\n")
        }
    }
}

fn push_remarked(
    alloc: Global,
    text: &mut String,
    place: usize,
    name: &str,
    reply: Reply,
    remarks: &[String],
) -> Result<(), AllocError>
    requires { place < 2 ^ 63 }
    ensures { OnOk result (string_bytes text.new ≡ string_bytes text.old
        ++ remarked_line place name.now reply (map string_bytes remarks.now)) }
{
    push_question(alloc, text, place + 1, name, reply)?;
    match remarks.get(place) {
        Some(remark) => text.push_str(remark.as_str()),
        None => Ok(()),
    }
}

fn push_questions(
    alloc: Global,
    text: &mut String,
    questions: &[Question],
    replies: &[Reply],
    remarks: &[String],
) -> Result<(), AllocError>
    requires { length questions.now ≡ length replies.now }
    ensures { OnOk result (string_bytes text.new ≡ string_bytes text.old
        ++ question_lines 0 questions.now replies.now (map string_bytes remarks.now)) }
{
    for (i, question) in questions.iter().enumerate() {
        push_remarked(alloc, text, i, question.name(), replies[i], remarks)?;
    }
    Ok(())
}

fn push_size(text: &mut String, settled: &Settled, questions: usize) -> Result<(), AllocError>
    ensures { OnOk result (string_bytes text.new ≡ string_bytes text.old
        ++ size_line (length settled.now.stack) (path_length settled.now.stack) questions) }
{
    let stack = settled.stack();
    let filters = stack.programs().len();
    let path = stack.path_length();
    write!(
        text,
        "filters {filters} path {path} questions {questions}\n"
    )
}

fn push_head(text: &mut String, settled: &Settled, questions: usize) -> Result<(), AllocError>
    ensures { OnOk result (string_bytes text.new ≡ string_bytes text.old
        ++ head_text settled.now questions) }
{
    text.push_str("seccomp_audit report 2\n")?;
    push_size(text, settled, questions)?;
    push_counts(text, settled.counts())
}

fn push_total(
    text: &mut String,
    never: usize,
    allowed: usize,
    unsettled: usize,
) -> Result<(), AllocError>
    ensures { OnOk result (string_bytes text.new ≡ string_bytes text.old
        ++ total_line never allowed unsettled) }
{
    write!(
        text,
        "total never {never} allowed {allowed} unsettled {unsettled}\n"
    )
}

fn push_totals(text: &mut String, replies: &[Reply]) -> Result<(), AllocError>
    ensures { OnOk result (string_bytes text.new ≡ string_bytes text.old
        ++ totals_line replies.now) }
{
    push_total(
        text,
        count_never(replies),
        count_allowed(replies),
        count_unsettled(replies),
    )
}

pub(super) fn report_of(
    alloc: Global,
    outcome: &Outcome,
    regions: bool,
    remarks: &[String],
) -> Result<String, AllocError>
    ensures { IfOk result (λ text. string_bytes text
        ≡ report_text outcome.now regions (map string_bytes remarks.now)) }
{
    let mut text = String::new(alloc);
    push_head(&mut text, outcome.settled(), outcome.questions().len())?;
    push_questions(
        alloc,
        &mut text,
        outcome.questions(),
        outcome.replies(),
        remarks,
    )?;
    push_regions(alloc, &mut text, regions, outcome.settled())?;
    push_totals(&mut text, outcome.replies())?;
    Ok(text)
}

//! The text of a summary, part by part. After an error a part of what was to be added may stand in the text;
//! `summary_of` drops it.

ghost use Rattle.std.specs.Prelude.{◌≡◌, ◌++◌, ◌==◌, [], IfOk, OnOk, if◌then◌else◌, length, map, string_bytes};
ghost use Rattle.sf_audit.specs.Summaries.{accepted_words, advice, body_text, broken_text, closed_titles, comment_line, end_text, ending, example_line, example_lines, first_line, gap, groups_text, is_closed, last_title, line_room, list_text, more_line, next_words, room_behind, row_lines, section_text, section_texts, size_words, summary_data, summary_text, totals_words, unexpected_text};

use super::Summary;
use super::lists::{Kind, Row, count_of, names_of, push_listed, rows_of};
use crate::counting::{count_allowed, count_never, count_unsettled, is_allowed};
use crate::expecting::{Expected, push_control};
use crate::outcome::Outcome;
use sf_ask::{Question, Reply};
use sf_calls::push_call_words;
use sf_names::Names;
use sf_policy::Group;
use std::alloc::{AllocError, Global};

/// What the groups of a summary are written from.
#[derive(Drop)]
struct Parts<'s> {
    alloc: Global,
    all: bool,
    names: &'s [Names],
    groups: &'s [Group],
    rows: &'s [Row<'s>],
}

/// How many columns a list has in a line behind its indent.
const COLUMNS: usize = 96;

fn line_room(room: usize, word: &str) -> usize
    ensures { result ≡ line_room room word.now }
{
    if word.len() < room { room } else { COLUMNS }
}

fn room_behind(room: usize, word: &str) -> usize
    ensures { result ≡ room_behind room word.now }
{
    room.saturating_sub(word.len()).saturating_sub(2)
}

fn gap(room: usize, word: &str) -> &'static str
    ensures { result.now ≡ gap room word.now }
{
    if word.len() < room { ", " } else { ",\n    " }
}

fn push_rest(text: &mut String, room: usize, words: &[&str]) -> Result<(), AllocError>
    ensures { OnOk result (string_bytes text.new ≡ string_bytes text.old
        ++ next_words room (map (λ t. t.now) words.now)) }
{
    let mut left = room;
    for word in words {
        text.push_str(gap(left, word))?;
        text.push_str(word)?;
        left = room_behind(line_room(left, word), word);
    }
    Ok(())
}

fn push_list(text: &mut String, head: &str, words: &[&str]) -> Result<(), AllocError>
    ensures { OnOk result (string_bytes text.new ≡ string_bytes text.old
        ++ list_text head.now (map (λ t. t.now) words.now)) }
{
    let [first, rest @ ..] = words else {
        return Ok(());
    };
    text.push_str(head)?;
    text.push_str(first)?;
    push_rest(text, room_behind(room_behind(102, head), first), rest)?;
    text.push_str("\n")
}

fn push_accepted(text: &mut String, count: usize) -> Result<(), AllocError>
    ensures { OnOk result (string_bytes text.new ≡ string_bytes text.old ++ accepted_words count) }
{
    if count == 0 {
        return Ok(());
    }
    write!(text, ", {count} of them accepted")
}

fn push_example(
    text: &mut String,
    names: &[Names],
    name: &str,
    reply: Reply,
) -> Result<(), AllocError>
    ensures { OnOk result (string_bytes text.new ≡ string_bytes text.old
        ++ example_line names.now name.now reply) }
{
    match reply {
        Reply::Allowed(input) => {
            write!(text, "    {name}: ")?;
            push_call_words(text, names, &input)?;
            text.push_str("\n")
        }
        Reply::Never | Reply::Unsettled => Ok(()),
    }
}

fn push_comment(text: &mut String, comment: &str) -> Result<(), AllocError>
    ensures { OnOk result (string_bytes text.new ≡ string_bytes text.old
        ++ comment_line comment.now) }
{
    if comment.is_empty() {
        return Ok(());
    }
    write!(text, "        {comment}\n")
}

fn push_row(text: &mut String, names: &[Names], row: &Row<'_>) -> Result<(), AllocError>
    ensures { OnOk result (string_bytes text.new ≡ string_bytes text.old
        ++ row_lines names.now row.now) }
{
    push_example(text, names, row.name, row.reply)?;
    push_comment(text, row.comment)
}

fn push_examples(
    text: &mut String,
    names: &[Names],
    place: usize,
    rows: &[Row<'_>],
) -> Result<(), AllocError>
    ensures { OnOk result (string_bytes text.new ≡ string_bytes text.old
        ++ example_lines names.now place rows.now) }
{
    for row in rows {
        if row.is_listed(Some(place), Kind::Unexpected) {
            push_row(text, names, row)?;
        }
    }
    Ok(())
}

fn push_unexpected(text: &mut String, parts: &Parts<'_>, place: usize) -> Result<(), AllocError>
    ensures { OnOk result (string_bytes text.new ≡ string_bytes text.old
        ++ unexpected_text parts.now.all parts.now.names.now place parts.now.rows.now) }
{
    if parts.all {
        return push_examples(text, parts.names, place, parts.rows);
    }
    let names = names_of(parts.alloc, parts.rows, Some(place), Kind::Unexpected)?;
    push_list(text, "    ", &names)
}

fn push_section(
    text: &mut String,
    parts: &Parts<'_>,
    place: usize,
    title: &str,
) -> Result<(), AllocError>
    ensures { OnOk result (string_bytes text.new ≡ string_bytes text.old
        ++ section_text parts.now.all parts.now.names.now parts.now.rows.now place title.now) }
{
    let (rows, at) = (parts.rows, Some(place));
    let allowed = count_of(rows, at, Kind::Allowed);
    if allowed == 0 {
        return Ok(());
    }
    let (asked, accepted) = (
        count_of(rows, at, Kind::Asked),
        count_of(rows, at, Kind::Accepted),
    );
    write!(text, "{title}: {allowed} of {asked} allowed")?;
    push_accepted(text, accepted)?;
    text.push_str("\n")?;
    push_unexpected(text, parts, place)
}

fn last_title(groups: &[Group]) -> &'static str
    ensures { result.now ≡ last_title groups.now }
{
    match groups {
        [] => "Questions",
        _ => "Other questions",
    }
}

fn push_sections(text: &mut String, parts: &Parts<'_>, groups: &[Group]) -> Result<(), AllocError>
    ensures { OnOk result (string_bytes text.new ≡ string_bytes text.old
        ++ section_texts parts.now.all parts.now.names.now parts.now.rows.now 0 groups.now) }
{
    for (place, group) in groups.iter().enumerate() {
        push_section(text, parts, place, group.title())?;
    }
    Ok(())
}

fn push_groups(text: &mut String, parts: &Parts<'_>) -> Result<(), AllocError>
    ensures { OnOk result (string_bytes text.new ≡ string_bytes text.old
        ++ groups_text parts.now.all parts.now.names.now parts.now.rows.now parts.now.groups.now) }
{
    let groups = parts.groups;
    push_sections(text, parts, groups)?;
    push_section(text, parts, groups.len(), last_title(groups))
}

fn is_closed(rows: &[Row<'_>], place: usize) -> bool
    ensures { result ≡ is_closed rows.now place }
{
    let at = Some(place);
    count_of(rows, at, Kind::Asked) != 0 && count_of(rows, at, Kind::Allowed) == 0
}

fn closed_titles<'g>(
    alloc: Global,
    rows: &[Row<'_>],
    groups: &'g [Group],
) -> Result<Vec<&'g str>, AllocError>
    ensures { IfOk result (λ v. map (λ t. t.now) v.items ≡ closed_titles rows.now 0 groups.now) }
{
    let mut titles = Vec::new(alloc);
    for (place, group) in groups.iter().enumerate() {
        push_listed(&mut titles, is_closed(rows, place), group.title())?;
    }
    Ok(titles)
}

fn ending(count: usize) -> &'static str
    ensures { result.now ≡ ending count }
{
    if count == 1 { "" } else { "s" }
}

fn push_size(text: &mut String, filters: usize, questions: usize) -> Result<(), AllocError>
    ensures { OnOk result (string_bytes text.new ≡ string_bytes text.old
        ++ size_words filters questions) }
{
    let (of_filters, of_questions) = (ending(filters), ending(questions));
    write!(
        text,
        "{filters} filter{of_filters}, {questions} question{of_questions}: "
    )
}

fn push_totals(
    text: &mut String,
    never: usize,
    allowed: usize,
    accepted: usize,
    unsettled: usize,
) -> Result<(), AllocError>
    ensures { OnOk result (string_bytes text.new ≡ string_bytes text.old
        ++ totals_words never allowed accepted unsettled) }
{
    write!(text, "{never} never, {allowed} allowed")?;
    push_accepted(text, accepted)?;
    write!(text, ", {unsettled} unsettled\n\n")
}

fn push_first_line(text: &mut String, rows: &[Row<'_>], outcome: &Outcome) -> Result<(), AllocError>
    ensures { OnOk result (string_bytes text.new ≡ string_bytes text.old
        ++ first_line (length outcome.now.settled.stack) rows.now outcome.now.replies) }
{
    let replies = outcome.replies();
    push_size(text, outcome.settled().stack().programs().len(), rows.len())?;
    let accepted = count_of(rows, None, Kind::Accepted);
    let (never, allowed) = (count_never(replies), count_allowed(replies));
    push_totals(text, never, allowed, accepted, count_unsettled(replies))
}

fn push_broken(
    text: &mut String,
    questions: &[Question],
    replies: &[Reply],
) -> Result<(), AllocError>
    requires { length questions.now ≡ length replies.now }
    ensures { OnOk result (string_bytes text.new ≡ string_bytes text.old
        ++ (if length questions.now == 0 then [] else broken_text questions.now replies.now)) }
{
    if questions.is_empty() {
        return Ok(());
    }
    for (i, question) in questions.iter().enumerate() {
        if !is_allowed(&replies[i]) {
            return push_control(text, question.name(), replies[i]);
        }
    }
    text.push_str("control holds\n")
}

fn more_line(all: bool) -> &'static str
    ensures { result.now ≡ more_line all }
{
    if all {
        "--why, without a summary, shows which instruction lets each through.\n"
    } else {
        "--summary-all shows the call of each; --why, without a summary, which instruction lets it through.\n"
    }
}

fn push_advice(text: &mut String, all: bool, unexpected: bool) -> Result<(), AllocError>
    ensures { OnOk result (string_bytes text.new ≡ string_bytes text.old
        ++ advice all unexpected) }
{
    if !unexpected {
        return Ok(());
    }
    text.push_str(more_line(all))?;
    text.push_str("--accept FILE names those that may be allowed.\n")
}

fn push_end(
    text: &mut String,
    parts: &Parts<'_>,
    expected: &Expected,
    unexpected: bool,
) -> Result<(), AllocError>
    ensures { OnOk result (string_bytes text.new ≡ string_bytes text.old
        ++ end_text parts.now.all parts.now.rows.now expected.now unexpected) }
{
    let unsettled = names_of(parts.alloc, parts.rows, None, Kind::Unsettled)?;
    push_list(
        text,
        "Unsettled (a greater --budget may settle them): ",
        &unsettled,
    )?;
    push_broken(text, expected.control(), expected.held())?;
    push_advice(text, parts.all, unexpected)
}

fn push_body(
    text: &mut String,
    parts: &Parts<'_>,
    expected: &Expected,
    outcome: &Outcome,
) -> Result<(), AllocError>
    ensures { OnOk result (string_bytes text.new ≡ string_bytes text.old
        ++ body_text parts.now.all parts.now.names.now parts.now.groups.now expected.now
        (length outcome.now.settled.stack) outcome.now.questions outcome.now.replies
        parts.now.rows.now) }
{
    push_first_line(text, parts.rows, outcome)?;
    push_groups(text, parts)?;
    let closed = closed_titles(parts.alloc, parts.rows, parts.groups)?;
    push_list(text, "Nothing allowed: ", &closed)?;
    let unexpected = expected.has_unexpected(outcome);
    push_end(text, parts, expected, unexpected)
}

pub(super) fn summary_of(
    alloc: Global,
    outcome: &Outcome,
    expected: &Expected,
    summary: &Summary<'_>,
) -> Result<String, AllocError>
    ensures { IfOk result (λ text. string_bytes text
        ≡ summary_text (summary_data summary.now) expected.now outcome.now) }
{
    let (questions, replies) = (outcome.questions(), outcome.replies());
    let rows = rows_of(alloc, summary, expected, questions, replies)?;
    let parts = Parts {
        alloc,
        all: summary.all,
        names: summary.names,
        groups: summary.groups,
        rows: &rows,
    };
    let mut text = String::from_str(alloc, summary.head)?;
    push_body(&mut text, &parts, expected, outcome)?;
    Ok(text)
}

//! Conditions of rows, as text.

ghost use Rattle.std.specs.Prelude.{◌≡◌, ◌<◌, ◌-◌, ◌==◌, ◌||◌, ◌++◌, [], OnOk, codes, find, if◌then◌else◌, map, option_map, slice_index, string_bytes};
ghost use Rattle.sf_behaviour.specs.InputBits.{words_in_order};
ghost use Rattle.sf_rows.specs.Lines.{condition_words, conditions_words, form_words, is_on, joined, number_alone, number_words, place_words, places_words, short_words, span_words, start_words, word_words};

use sf_parts::{Condition, Form, Span};
use sf_policy::WORD_KEYS;
use std::alloc::AllocError;

pub(crate) const ARCH: u16 = 18;

pub(crate) const NR: u16 = 19;

/// Which word of `struct seccomp_data` each word from 18 on is.
const PLACES: [usize; 16] = [1, 0, 5, 4, 7, 6, 9, 8, 11, 10, 13, 12, 15, 14, 3, 2];

#[derive(Clone, Copy)]
pub(crate) enum Style {
    /// In hexadecimal, without leading zeros.
    Short,
    /// Those of architectures: in hexadecimal, with eight digits.
    Arch,
    /// Those of calls: below 65,536 in decimal, else in hexadecimal without leading zeros.
    Call,
}

fn push_short(text: &mut String, number: u32) -> Result<(), AllocError>
    ensures { OnOk result (string_bytes text.new ≡ string_bytes text.old ++ short_words number) }
{
    write!(text, "0x{number:X}")
}

fn push_number(text: &mut String, style: Style, number: u32) -> Result<(), AllocError>
    ensures { OnOk result (string_bytes text.new ≡ string_bytes text.old
        ++ number_words style number) }
{
    match style {
        Style::Arch => write!(text, "0x{number:08X}"),
        Style::Call if number < 65536 => write!(text, "{number}"),
        Style::Short | Style::Call => push_short(text, number),
    }
}

fn push_span(text: &mut String, style: Style, span: Span) -> Result<(), AllocError>
    ensures { OnOk result (string_bytes text.new ≡ string_bytes text.old
        ++ span_words style span) }
{
    push_number(text, style, span.first)?;
    if span.first < span.last {
        text.push_str("..")?;
        push_number(text, style, span.last)?;
    }
    Ok(())
}

fn push_spans(text: &mut String, style: Style, spans: &[Span]) -> Result<(), AllocError>
    ensures { OnOk result (string_bytes text.new ≡ string_bytes text.old
        ++ joined [] (codes ",") (map (span_words style) spans.now)) }
{
    let mut before = "";
    for span in spans {
        text.push_str(before)?;
        push_span(text, style, *span)?;
        before = ",";
    }
    Ok(())
}

pub(crate) fn number_alone(spans: &[Span]) -> Option<u32>
    ensures { result ≡ number_alone spans.now }
{
    match spans {
        [span] if span.first == span.last => Some(span.first),
        _ => None,
    }
}

fn start_of(style: Style, without: bool, one: bool) -> &'static str
    ensures { result.now ≡ start_words style without one }
{
    if without {
        return if one { "!= " } else { "not in " };
    }
    match style {
        Style::Short => { if one { "= " } else { "in " } }
        Style::Arch => { if one { "" } else { "in " } }
        Style::Call => "",
    }
}

fn push_form(text: &mut String, style: Style, form: &Form) -> Result<(), AllocError>
    ensures { OnOk result (string_bytes text.new ≡ string_bytes text.old
        ++ form_words style form.now) }
{
    let one = number_alone(&form.spans).is_some();
    text.push_str(start_of(style, form.without, one))?;
    push_spans(text, style, &form.spans)
}

/// Which word of `struct seccomp_data` a word of trees, 18 to 33, is.
fn place_of(word: u16) -> usize
    ensures place { result ≡ slice_index words_in_order (word - 18) }
    ensures few { result < 16 }
{
    let behind = (word as usize).saturating_sub(18);
    if behind < PLACES.len() {
        PLACES[behind]
    } else {
        0
    }
}

pub(crate) fn name_of(word: u16) -> &'static str
    ensures { result.now ≡ word_words word }
{
    WORD_KEYS[place_of(word)]
}

fn push_mask(text: &mut String, mask: u32) -> Result<(), AllocError>
    ensures { OnOk result (string_bytes text.new ≡ string_bytes text.old
        ++ (if mask == 4294967295 then [] else codes " & " ++ short_words mask)) }
{
    if mask == u32::MAX {
        return Ok(());
    }
    text.push_str(" & ")?;
    push_short(text, mask)
}

fn push_condition(text: &mut String, condition: &Condition) -> Result<(), AllocError>
    ensures { OnOk result (string_bytes text.new ≡ string_bytes text.old
        ++ condition_words condition.now) }
{
    text.push_str(name_of(condition.word))?;
    push_mask(text, condition.form.mask)?;
    text.push_str(" ")?;
    push_form(text, Style::Short, &condition.form)
}

fn is_on(word: u16, condition: &Condition) -> bool
    ensures { result ≡ is_on word condition.now }
{
    condition.word == word && condition.form.mask == u32::MAX
}

pub(crate) fn find_on(conditions: &[Condition], word: u16) -> Option<&Condition>
    ensures { option_map (λ c. c.now) result ≡ find (is_on word) conditions.now }
{
    conditions.iter().find(|condition| is_on(word, *condition))
}

fn is_placed(condition: &Condition) -> bool
    ensures { result ≡ (is_on 18 condition.now || is_on 19 condition.now) }
{
    is_on(ARCH, condition) || is_on(NR, condition)
}

pub(crate) fn push_conditions(text: &mut String, conditions: &[Condition]) -> Result<(), AllocError>
    ensures { OnOk result (string_bytes text.new ≡ string_bytes text.old
        ++ conditions_words conditions.now) }
{
    let mut before = " if ";
    for condition in conditions {
        if is_placed(condition) {
            continue;
        }
        text.push_str(before)?;
        push_condition(text, condition)?;
        before = " and ";
    }
    Ok(())
}

fn push_place(
    text: &mut String,
    style: Style,
    condition: Option<&Condition>,
) -> Result<(), AllocError>
    ensures { OnOk result (string_bytes text.new ≡ string_bytes text.old
        ++ place_words style (option_map (λ c. c.now) condition.entry)) }
{
    match condition {
        Some(condition) => push_form(text, style, &condition.form),
        None => text.push_str("any"),
    }
}

pub(crate) fn push_places(text: &mut String, conditions: &[Condition]) -> Result<(), AllocError>
    ensures { OnOk result (string_bytes text.new ≡ string_bytes text.old
        ++ places_words conditions.now) }
{
    text.push_str("arch ")?;
    push_place(text, Style::Arch, find_on(conditions, ARCH))?;
    text.push_str(" nr ")?;
    push_place(text, Style::Call, find_on(conditions, NR))?;
    text.push_str(" ")
}

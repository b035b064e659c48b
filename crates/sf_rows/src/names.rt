//! The names of the calls that a row is about.

ghost use Rattle.std.specs.Prelude.{◌≡◌, ◌++◌, IfOk, OnOk, codes, map, option_map, string_bytes};
ghost use Rattle.std.specs.List.{flat_map};
ghost use Rattle.sf_names.specs.Names.{name_between, names_between, names_in};
ghost use Rattle.sf_rows.specs.Lines.{joined, meant, names_in_spans, row_names_words, row_names};

use crate::words::{ARCH, NR, find_on, number_alone};
use sf_names::{Call, Names};
use sf_parts::{Condition, Span};
use std::alloc::{AllocError, Global};

fn push_call(
    alloc: Global,
    names: &mut Vec<String>,
    call: &Call,
    span: Span,
) -> Result<(), AllocError>
    ensures { OnOk result (map string_bytes names.new.items ≡ map string_bytes names.old.items
        ++ name_between span.first span.last call.now) }
{
    if span.first <= call.number() && call.number() <= span.last {
        names.push(String::from_str(alloc, call.name())?)?;
    }
    Ok(())
}

fn push_set(
    alloc: Global,
    names: &mut Vec<String>,
    set: &Names,
    arch: u32,
    span: Span,
) -> Result<(), AllocError>
    ensures { OnOk result (map string_bytes names.new.items ≡ map string_bytes names.old.items
        ++ names_in arch span.first span.last set.now) }
{
    if set.arch() != arch {
        return Ok(());
    }
    let calls = set.calls();
    for call in calls {
        push_call(alloc, names, call, span)?;
    }
    Ok(())
}

fn push_span(
    alloc: Global,
    names: &mut Vec<String>,
    sets: &[Names],
    arch: u32,
    span: Span,
) -> Result<(), AllocError>
    ensures { OnOk result (map string_bytes names.new.items ≡ map string_bytes names.old.items
        ++ names_between sets.now arch span.first span.last) }
{
    for set in sets {
        push_set(alloc, names, set, arch, span)?;
    }
    Ok(())
}

fn names_in_spans(
    alloc: Global,
    sets: &[Names],
    arch: u32,
    spans: &[Span],
) -> Result<Vec<String>, AllocError>
    ensures { IfOk result (λ v. map string_bytes v.items
        ≡ names_in_spans sets.now arch spans.now) }
{
    let mut names = Vec::new(alloc);
    for span in spans {
        push_span(alloc, &mut names, sets, arch, *span)?;
    }
    Ok(names)
}

fn meant(condition: Option<&Condition>) -> &[Span]
    ensures { result.now ≡ meant (option_map (λ c. c.now) condition.entry) }
{
    match condition {
        Some(condition) if !condition.form.without => condition.form.spans.as_slice(),
        _ => &[],
    }
}

pub(crate) fn row_names(
    alloc: Global,
    sets: &[Names],
    conditions: &[Condition],
) -> Result<Vec<String>, AllocError>
    ensures { IfOk result (λ v. map string_bytes v.items
        ≡ row_names sets.now conditions.now) }
{
    match number_alone(meant(find_on(conditions, ARCH))) {
        Some(arch) => names_in_spans(alloc, sets, arch, meant(find_on(conditions, NR))),
        None => Ok(Vec::new(alloc)),
    }
}

fn push_each(text: &mut String, names: &[String]) -> Result<(), AllocError>
    ensures { OnOk result (string_bytes text.new ≡ string_bytes text.old
        ++ joined (codes " # ") (codes ",") (map string_bytes names.now)) }
{
    let mut before = " # ";
    for name in names {
        text.push_str(before)?;
        text.push_str(name.as_str())?;
        before = ",";
    }
    Ok(())
}

pub(crate) fn push_names(text: &mut String, names: &[String]) -> Result<(), AllocError>
    ensures { OnOk result (string_bytes text.new ≡ string_bytes text.old
        ++ row_names_words (map string_bytes names.now)) }
{
    if names.len() > 8 {
        push_each(text, &names[..8])?;
        return text.push_str(",..");
    }
    push_each(text, names)
}

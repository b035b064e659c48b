//! The lines of rows.

ghost use Rattle.std.specs.Prelude.{◌≡◌, ◌++◌, [], OnOk, option_map, string_bytes};
ghost use Rattle.std.specs.List.{flat_map};
ghost use Rattle.std.specs.Option.{option_map_or};
ghost use Rattle.sf_rows.specs.Lines.{call_row_line, row_line, lines_of_rows};

use crate::calls::CallRow;
use crate::names::{push_names, row_names};
use crate::shown::Shown;
use crate::subject::{Subject, push_answers};
use crate::words::{push_conditions, push_places};
use sf_names::Names;
use sf_parts::Row;
use std::alloc::{AllocError, Global};

fn push_row(
    alloc: Global,
    text: &mut String,
    subject: Subject,
    sets: &[Names],
    row: &Row,
) -> Result<(), AllocError>
    ensures { OnOk result (string_bytes text.new ≡ string_bytes text.old
        ++ row_line subject sets.now row.now) }
{
    let names = row_names(alloc, sets, &row.conditions)?;
    push_places(text, &row.conditions)?;
    push_answers(text, subject, row.number)?;
    push_conditions(text, &row.conditions)?;
    push_names(text, &names)?;
    text.push_str("\n")
}

pub(crate) fn push_rows(
    alloc: Global,
    text: &mut String,
    subject: Subject,
    sets: &[Names],
    rows: &[Row],
) -> Result<(), AllocError>
    ensures { OnOk result (string_bytes text.new ≡ string_bytes text.old
        ++ flat_map (row_line subject sets.now) rows.now) }
{
    for row in rows {
        push_row(alloc, text, subject, sets, row)?;
    }
    Ok(())
}

fn push_call_row(text: &mut String, subject: Subject, row: &CallRow<'_>) -> Result<(), AllocError>
    ensures { OnOk result (string_bytes text.new ≡ string_bytes text.old
        ++ call_row_line subject row.now) }
{
    let set = row.set();
    let name = row.name();
    write!(text, "{set} {name} ")?;
    push_answers(text, subject, row.row().number)?;
    push_conditions(text, &row.row().conditions)?;
    text.push_str("\n")
}

fn push_calls(
    text: &mut String,
    subject: Subject,
    calls: &Option<Vec<CallRow<'_>>>,
) -> Result<(), AllocError>
    ensures { OnOk result (string_bytes text.new ≡ string_bytes text.old
        ++ option_map_or (flat_map (call_row_line subject))
        (option_map (λ v. v.items) calls.now) []) }
{
    let Some(rows) = calls else {
        return Ok(());
    };
    for row in rows {
        push_call_row(text, subject, row)?;
    }
    Ok(())
}

/// Adds the lines of the rows that are shown: first those of calls. `sets` give the names of calls.
pub fn push_lines(
    alloc: Global,
    text: &mut String,
    subject: Subject,
    sets: &[Names],
    shown: &Shown<'_>,
) -> Result<(), AllocError>
    ensures { OnOk result (string_bytes text.new ≡ string_bytes text.old
        ++ lines_of_rows subject sets.now shown.now) }
{
    push_calls(text, subject, shown.calls())?;
    push_rows(alloc, text, subject, sets, shown.rows())
}

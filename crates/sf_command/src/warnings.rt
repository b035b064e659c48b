//! The warnings of `list` and `compare`. They are for a person, so contracts say nothing of their words.

use sf_compare::Comparison;
use sf_list::Listing;
use sf_relations::Relation;
use sf_rows::Shown;
use sf_run::Action;
use sf_stack::{push_of_filters, push_zero_errors, warnings_of_filters};
use sf_stack_warnings::may_let_through;
use std::alloc::{AllocError, Global};

/// The number of the answer ERRNO with data 0: the call isn't made, and its caller is told that it succeeded.
const ZERO_ERROR: u64 = 0x5_0000;

/// Whether a call may get through by the answer with this number, whose action stands in its upper half.
fn may_pass(number: u64) -> bool {
    may_let_through(Action::of_number((number & 0xFFFF_0000) as u32))
}

fn shows_passing(shown: &Shown<'_>) -> bool {
    let of_calls = match shown.calls() {
        Some(rows) => rows.iter().any(|row| may_pass(row.row().number)),
        None => false,
    };
    of_calls || shown.rows().iter().any(|row| may_pass(row.number))
}

fn count_zero_errors(shown: &Shown<'_>) -> usize {
    let of_calls = match shown.calls() {
        Some(rows) => rows
            .iter()
            .filter(|row| row.row().number == ZERO_ERROR)
            .count(),
        None => 0,
    };
    let others = shown.rows().iter().filter(|row| row.number == ZERO_ERROR);
    of_calls.saturating_add(others.count())
}

/// The warnings for a stack that is listed, each a line: those of its filters; that no call gets through, where all
/// rows are shown, so that `calls` names none; and how many of the shown rows have ERRNO 0.
pub(crate) fn warnings_of_listing(
    alloc: Global,
    listing: &Listing<'_>,
    calls: &Option<Vec<&str>>,
) -> Result<String, AllocError> {
    let mut text = warnings_of_filters(alloc, listing.stack().programs())?;
    let are_all = match calls {
        Some(names) => names.is_empty(),
        None => true,
    };
    if are_all && !shows_passing(listing.shown()) {
        text.push_str("warning: no call gets through: are these filters of one process?\n")?;
    }
    let count = count_zero_errors(listing.shown());
    if count > 0 {
        write!(
            text,
            "warning: rows with ERRNO 0, which reports success without making the call: {count}\n"
        )?;
    }
    Ok(text)
}

/// Adds the warning that no call gets through one of two stacks. `which` is `old ` or `new `, with the blank.
fn push_none(text: &mut String, which: &str) -> Result<(), AllocError> {
    write!(
        text,
        "warning: no call gets through the {which}filters: are they of one process?\n"
    )
}

/// The warnings for two stacks that are compared, each a line: those of the filters of each; that no call gets through
/// a stack; and that a call is newly answered ERRNO 0, with the number of the least input whose answer became this one.
pub(crate) fn warnings_of_comparison(
    alloc: Global,
    comparison: &Comparison,
) -> Result<String, AllocError> {
    let mut text = String::new(alloc);
    let (before, after) = (comparison.old_stack(), comparison.new_stack());
    push_of_filters(alloc, &mut text, "old ", before.programs())?;
    push_of_filters(alloc, &mut text, "new ", after.programs())?;
    let (old_passes, new_passes) = comparison.passing();
    if !old_passes {
        push_none(&mut text, "old ")?;
    }
    if !new_passes {
        push_none(&mut text, "new ")?;
    }
    if let Some(example) = comparison.finding(Relation::Pretended) {
        push_zero_errors(&mut text, &[example.input.words[0]])?;
    }
    Ok(text)
}

//! The lines of warnings that take no exploration. They are for a person, so contracts say nothing of their words.

use crate::equal::first_same;
use crate::reaching::reached;
use sf_check::Program;
use std::alloc::{AllocError, Global};

/// Adds the warning that two filters are the same, which is said of one pair only. `which` is empty, or `old ` or
/// `new ` for one of two stacks.
fn push_same(text: &mut String, which: &str, programs: &[Program]) -> Result<(), AllocError> {
    let Some((earlier, later)) = first_same(programs) else {
        return Ok(());
    };
    // Numbers count from 1. The sums never saturate: a place is below the number of filters.
    let (earlier, later) = (earlier.saturating_add(1), later.saturating_add(1));
    write!(
        text,
        "warning: {which}filters {earlier} and {later} are the same\n"
    )
}

/// Adds the warning that no path comes to some instructions of the filter with this number, from 1. The last
/// instruction alone doesn't count: libseccomp ends each filter with a return to which often nothing leads.
fn push_unreached(
    alloc: Global,
    text: &mut String,
    which: &str,
    number: usize,
    program: &Program,
) -> Result<(), AllocError> {
    let found = reached(alloc, program)?;
    let all = found.len();
    let unreached = found.iter().filter(|it| !**it).count();
    let last = found.last().copied().unwrap_or(true);
    if unreached <= usize::from(!last) {
        return Ok(());
    }
    write!(
        text,
        "warning: {which}filter {number}: {unreached} of {all} instructions are never reached: \
two filters in one file?\n"
    )
}

/// Adds the warnings of `warnings_of_filters`. `which` is empty, or `old ` or `new ` for one of two stacks.
pub fn push_of_filters(
    alloc: Global,
    text: &mut String,
    which: &str,
    programs: &[Program],
) -> Result<(), AllocError> {
    push_same(text, which, programs)?;
    for (i, program) in programs.iter().enumerate() {
        push_unreached(alloc, text, which, i.saturating_add(1), program)?;
    }
    Ok(())
}

/// The warnings that the filters of a stack call for, each a line: that two of them are the same, and that no path
/// comes to some instruction of a filter before its last one.
pub fn warnings_of_filters(alloc: Global, programs: &[Program]) -> Result<String, AllocError> {
    let mut text = String::new(alloc);
    push_of_filters(alloc, &mut text, "", programs)?;
    Ok(text)
}

/// How many numbers of calls a line names.
const MOST_NAMED: usize = 3;

/// Adds the warning that these calls report success without being made: their answer is ERRNO with data 0.
pub fn push_zero_errors(text: &mut String, numbers: &[u32]) -> Result<(), AllocError> {
    if numbers.is_empty() {
        return Ok(());
    }
    text.push_str("warning: ERRNO 0 reports success without making the call:")?;
    for (i, number) in numbers.iter().take(MOST_NAMED).enumerate() {
        let comma = if i == 0 { "" } else { "," };
        write!(text, "{comma} nr {number}")?;
    }
    let more = numbers.len().saturating_sub(MOST_NAMED);
    if more > 0 {
        write!(text, " and {more} more")?;
    }
    text.push_str("\n")
}

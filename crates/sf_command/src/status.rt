//! The exit statuses of what was found.

ghost use Rattle.std.specs.Prelude.{◌≡◌, ◌≤◌};
ghost use Rattle.sf_command.specs.Status.{audit_status, finding_status, needs_status};

use sf_audit::{Expected, Outcome, count_unsettled};
use sf_needed::NeededFilters;
use sf_relations::Example;

pub fn status_of_audit(expected: &Expected, outcome: &Outcome) -> u8
    ensures status { result ≡ audit_status expected.now outcome.now }
    ensures few { result ≤ 2 }
{
    if !expected.does_hold() {
        2
    } else if expected.has_unexpected(outcome) {
        1
    } else if 0 < count_unsettled(outcome.replies()) {
        2
    } else {
        0
    }
}

pub fn status_of_finding(finding: Option<Example>) -> u8
    ensures status { result ≡ finding_status finding }
    ensures few { result ≤ 1 }
{
    match finding {
        None => 0,
        Some(_) => 1,
    }
}

pub fn status_of_needs(needs: &NeededFilters) -> u8
    ensures status { result ≡ needs_status needs.now.findings }
    ensures few { result ≤ 1 }
{
    if 0 < needs.count_spare() { 1 } else { 0 }
}

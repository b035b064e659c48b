//! Audits real filters, and shows that the number of workers changes no byte of a report.

ghost use Rattle.std.specs.Prelude.{◌<◌, ◌≤◌};

use crate::meeting::Meeting;
use sf_audit::{audit, write_report};
use sf_crew::{Gate, Open};
use sf_policy::read_policy;
use std::alloc::Global;
use std::sync::Wait;
use std::test::Fail;
use std::thread::Threads;

/// The budget of each audit, in works: more than any of these stacks needs.
const BUDGET: u32 = 100_000;

/// The report of an audit by this many workers; with its regions, if they are asked for.
fn report_of<R: Threads + Wait + Sync, G: Gate>(
    rt: &R,
    alloc: Global,
    policy: &str,
    filters: &[Vec<u8>],
    workers: usize,
    gate: &G,
    regions: bool,
) -> Result<Vec<u8>, Fail>
    requires { (0 < workers) × (workers ≤ 64) }
{
    let questions = read_policy(alloc, policy)?;
    let outcome = audit(rt, alloc, filters, questions, BUDGET, workers, gate)?;
    let mut report = Vec::new(alloc);
    write_report(alloc, &outcome, regions, &[], "", &mut report)?;
    Ok(report)
}

/// Shows the report without its regions; whether audits by 1, 2, 8 and 64 workers have the same report with regions;
/// and whether the two workers met.
pub fn show_audit<R: Threads + Wait + Sync + Print>(
    rt: &R,
    alloc: Global,
    policy: &str,
    filters: &[Vec<u8>],
) -> Result<(), Fail> {
    let report = report_of(rt, alloc, policy, filters, 4, &Open, false)?;
    print!(rt; "{}", std::str::from_utf8(&report)?)?;
    let alone = report_of(rt, alloc, policy, filters, 1, &Open, true)?;
    let gate = Meeting::new();
    let two = report_of(rt, alloc, policy, filters, 2, &gate, true)?;
    let eight = report_of(rt, alloc, policy, filters, 8, &Open, true)?;
    let many = report_of(rt, alloc, policy, filters, 64, &Open, true)?;
    if alone == two && alone == eight && alone == many {
        println!(rt; "the same with 1, 2, 8 and 64 workers")?;
    } else {
        println!(rt; "not the same with 1, 2, 8 and 64 workers")?;
    }
    if gate.is_met() {
        println!(rt; "two workers met in the exploration and in the sweep")?;
    } else {
        println!(rt; "two workers did not meet")?;
    }
    Ok(())
}

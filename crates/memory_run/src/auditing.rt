//! Audits and their reports.

ghost use Rattle.std.specs.Prelude.{◌≤◌, ◌<◌};

use crate::refused::{MEMORY, Refused, Score};
use crate::stacks::POLICY;
use sf_audit::{audit, write_report};
use sf_crew::Open;
use sf_policy::read_policy;
use sf_stack::{Fault, stack_of};
use std::alloc::Global;
use std::io;
use std::io::Write;
use std::sync::Wait;
use std::thread::Threads;

/// A writer that allocates nothing and takes one byte a call.
#[derive(Drop)]
pub struct Page {
    held: [u8; 8192],
    len: usize,
}

impl Page {
    /// A page on which nothing is written.
    pub fn new() -> Page {
        Page {
            held: [0; 8192],
            len: 0,
        }
    }

    /// The bytes that were written.
    pub fn bytes(&self) -> &[u8] {
        self.held.get(..self.len).unwrap_or(&[])
    }

    /// The text that was written.
    pub fn text(&self) -> &str {
        std::str::from_utf8(self.bytes()).unwrap_or("no text\n")
    }
}

impl Write for Page {
    fn write(&mut self, bytes: &[u8]) -> io::Result<usize> {
        let Some(byte) = bytes.first() else {
            return Ok(0);
        };
        let Some(place) = self.held.get_mut(self.len) else {
            return Ok(0);
        };
        *place = *byte;
        self.len = self.len.saturating_add(1);
        Ok(1)
    }

    fn flush(&mut self) -> io::Result<()> {
        Ok(())
    }
}

/// Audits the stack of these filters and writes the report to the page.
fn report<R: Threads + Wait + Sync + AllocGlobal>(
    rt: &R,
    filters: &[Vec<u8>],
    workers: usize,
    page: &mut Page,
) -> Result<(), Refused>
    requires { (0 < workers) × (workers ≤ 64) }
{
    let alloc = rt.alloc();
    let questions = read_policy(alloc, POLICY)?;
    let outcome = audit(rt, alloc, filters, questions, 1000, workers, &Open)?;
    write_report(alloc, &outcome, true, &[], "", page)?;
    Ok(())
}

/// Adds the bytes of these files to the filters.
pub fn push_filters(
    alloc: Global,
    filters: &mut Vec<Vec<u8>>,
    files: &[&[u8]],
) -> Result<(), Refused> {
    for file in files {
        let mut filter = Vec::new(alloc);
        filter.extend_from_slice(file)?;
        filters.push(filter)?;
    }
    Ok(())
}

/// Writes the report of an audit by one worker to the page. The audits by two and by eight workers have to write the
/// same.
pub fn audit_files<R: Threads + Wait + Sync + AllocGlobal>(
    rt: &R,
    score: &mut Score,
    files: &[&[u8]],
    page: &mut Page,
) -> Result<(), Refused> {
    let mut filters = Vec::new(rt.alloc());
    push_filters(rt.alloc(), &mut filters, files)?;
    report(rt, &filters, 1, page)?;
    let mut by_two = Page::new();
    report(rt, &filters, 2, &mut by_two)?;
    score.expect(by_two.bytes() == page.bytes());
    let mut by_eight = Page::new();
    report(rt, &filters, 8, &mut by_eight)?;
    score.expect(by_eight.bytes() == page.bytes());
    Ok(())
}

/// Adds a fault's text, where the fault isn't refused memory.
fn push_fault(text: &mut String, fault: Option<Fault>) -> Result<(), Refused> {
    match fault {
        Some(Fault::Memory) => Err(Refused { number: MEMORY }),
        Some(fault) => Ok(write!(text, "{fault}\n")?),
        None => Ok(text.push_str("no fault\n")?),
    }
}

/// The texts of refusals that no command line can bring about: of no filter and of no question; and the text of refused
/// memory, which no audit shows here.
pub fn refusals<R: Threads + Wait + Sync + AllocGlobal>(rt: &R) -> Result<String, Refused> {
    let alloc = rt.alloc();
    let mut text = String::new(alloc);
    let none = Vec::new(alloc);
    push_fault(&mut text, stack_of(alloc, &none).err())?;
    let mut filter = Vec::new(alloc);
    filter.extend_from_slice(&[6, 0, 0, 0, 0, 0, 0, 0])?;
    let mut filters = Vec::new(alloc);
    filters.push(filter)?;
    let refused = audit(rt, alloc, &filters, Vec::new(alloc), 1000, 1, &Open).err();
    push_fault(&mut text, refused)?;
    let memory = Fault::Memory;
    write!(&mut text, "{memory}\n")?;
    Ok(text)
}

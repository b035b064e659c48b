//! Writes a report.

mod text;

ghost use Rattle.std.specs.Prelude.{◌≡◌, ◌⊎◌, ◌++◌, map, string_bytes, OnOk, OnErr, IfErr};
ghost use Rattle.std.specs.Io.KnownBytes.{Appends};
ghost use Rattle.sf_stack.specs.Texts.{AppendsFront};
ghost use Rattle.sf_audit.specs.Reports.{report_text};
ghost use Rattle.sf_stack.specs.declared.fault.Fault.TheVariants.{Memory as MemoryFault, Write as WriteFault};

use crate::outcome::Outcome;
use sf_stack::{Fault, write_bytes};
use std::alloc::Global;
use std::io::Write;
use text::report_of;

/// Writes the report of an outcome, with a line for each settled region if `regions`, and the text `behind` after it.
/// `remarks` are whole lines or empty texts, each on the question at its place.
pub fn write_report<W: Write>(
    alloc: Global,
    outcome: &Outcome,
    regions: bool,
    remarks: &[String],
    behind: &str,
    out: &mut W,
) -> Result<(), Fault>
    ensures written { OnOk result (Appends (W.contents out.old) (W.contents out.new)
        (report_text outcome.now regions (map string_bytes remarks.now) ++ behind.now)) }
    ensures begun { OnErr result (AppendsFront (W.contents out.old) (W.contents out.new)
        (report_text outcome.now regions (map string_bytes remarks.now) ++ behind.now)) }
    ensures refused { IfErr result (λ e. (e ≡ WriteFault)
        ⊎ ((e ≡ MemoryFault) × (out.new ≡ out.old))) }
{
    let mut text = report_of(alloc, outcome, regions, remarks)?;
    text.push_str(behind)?;
    write_bytes(text.as_bytes(), out)
}

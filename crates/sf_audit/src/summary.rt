//! Writes a summary of an audit, for a person.

mod lists;
mod text;

ghost use Rattle.std.specs.Prelude.{◌≡◌, ◌⊎◌, OnOk, IfErr};
ghost use Rattle.std.specs.Io.KnownBytes.{Appends};
ghost use Rattle.sf_audit.specs.Summaries.{summary_data, summary_text};
ghost use Rattle.sf_stack.specs.declared.fault.Fault.TheVariants.{Memory as MemoryFault, Write as WriteFault};

use crate::expecting::Expected;
use crate::outcome::Outcome;
use sf_json::Document;
use sf_names::Names;
use sf_policy::Group;
use sf_stack::{Fault, write_bytes};
use std::alloc::Global;
use std::io::Write;
use text::summary_of;

/// How a summary is written.
#[derive(Drop)]
pub struct Summary<'m> {
    /// Whole lines that stand before it.
    pub head: &'m str,
    /// Whether each allowed question has a line with the call of its example, and under it the comment that stands
    /// above the question in its policy, and not only its name.
    pub all: bool,
    /// The names of calls with which examples are shown.
    pub names: &'m [Names],
    /// The groups by which questions are put in order.
    pub groups: &'m [Group],
    /// For each question, at its place, where it stands, as in `Telling`. A question behind the end of this list has no
    /// comment.
    pub origins: &'m [Document],
}

/// Writes the summary of an audit.
pub fn write_summary<W: Write>(
    alloc: Global,
    outcome: &Outcome,
    expected: &Expected,
    summary: &Summary<'_>,
    out: &mut W,
) -> Result<(), Fault>
    ensures written { OnOk result (Appends (W.contents out.old) (W.contents out.new)
        (summary_text (summary_data summary.now) expected.now outcome.now)) }
    ensures refused { IfErr result (λ e. (e ≡ WriteFault)
        ⊎ ((e ≡ MemoryFault) × (out.new ≡ out.old))) }
{
    let text = summary_of(alloc, outcome, expected, summary)?;
    write_bytes(text.as_bytes(), out)
}

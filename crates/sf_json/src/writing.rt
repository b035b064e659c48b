ghost use Rattle.std.specs.Prelude.{◌≡◌, ◌⊎◌, string_bytes, IfErr, IfOk, OnErr, OnOk};
ghost use Rattle.std.specs.Io.KnownBytes.{Appends};
ghost use Rattle.serde_json.specs.View.{view};
ghost use Rattle.sf_json.specs.Documents.{document_line};
ghost use Rattle.sf_stack.specs.Texts.{AppendsFront};
ghost use Rattle.sf_stack.specs.declared.fault.Fault.TheVariants.{Memory as MemoryFault, Write as WriteFault};

use crate::document::Document;
use sf_stack::{Fault, write_bytes};
use std::alloc::{AllocError, Global};
use std::io::Write;

/// The text of a document on a line of its own: without blanks between its parts, and with a line feed at its end.
pub fn line_of(alloc: Global, document: &Document) -> Result<String, AllocError>
    ensures { IfOk result (λ text. string_bytes text ≡ document_line (view document.now)) }
{
    let mut text = document.value().to_string(alloc)?;
    text.push_str("\n")?;
    Ok(text)
}

/// Writes a document on a line of its own. After an error a beginning of the line, or nothing, was written.
pub fn write_document<W: Write>(
    alloc: Global,
    document: &Document,
    out: &mut W,
) -> Result<(), Fault>
    ensures written { OnOk result (Appends (W.contents out.old) (W.contents out.new)
        (document_line (view document.now))) }
    ensures begun { OnErr result (AppendsFront (W.contents out.old) (W.contents out.new)
        (document_line (view document.now))) }
    ensures refused { IfErr result (λ e. (e ≡ WriteFault)
        ⊎ ((e ≡ MemoryFault) × (out.new ≡ out.old))) }
{
    let line = line_of(alloc, document)?;
    write_bytes(line.as_bytes(), out)
}

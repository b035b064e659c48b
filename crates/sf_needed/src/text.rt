//! The text that says which filters of a stack are needed. After an error a part of what was to be added may stand in
//! the text.

ghost use Rattle.std.specs.Prelude.{◌≡◌, ◌⊎◌, ◌++◌, ◌<◌, All, IfOk, IfErr, OnOk, OnErr, string_bytes};
ghost use Rattle.std.specs.Io.KnownBytes.{Appends};
ghost use Rattle.sf_stack.specs.Texts.{AppendsFront};
ghost use Rattle.sf_stack.specs.declared.fault.Fault.TheVariants.{Memory as MemoryFault, Write as WriteFault};
ghost use Rattle.sf_needed.specs.Texts.{finding_line, finding_lines, kept_line, kept_words, needed_head_text, needs_text, needed_total_line};

use crate::needs::NeededFilters;
use sf_relations::Example;
use sf_stack::{Fault, hex_of, push_nodes, push_size, write_bytes};
use std::alloc::{AllocError, Global};
use std::io::Write;

fn push_finding(
    alloc: Global,
    text: &mut String,
    number: usize,
    finding: Option<Example>,
) -> Result<(), AllocError>
    ensures { OnOk result (string_bytes text.new ≡ string_bytes text.old
        ++ finding_line number finding) }
{
    match finding {
        None => write!(text, "filter {number} spare\n"),
        Some(example) => {
            let digits = hex_of(alloc, &example.input)?;
            write!(text, "filter {number} needed {digits}\n")
        }
    }
}

fn push_findings(
    alloc: Global,
    text: &mut String,
    findings: &[Option<Example>],
) -> Result<(), AllocError>
    ensures { OnOk result (string_bytes text.new ≡ string_bytes text.old
        ++ finding_lines 1 findings.now) }
{
    for (place, finding) in findings.iter().enumerate() {
        push_finding(alloc, text, place + 1, *finding)?;
    }
    Ok(())
}

fn push_numbers(text: &mut String, kept: &[usize]) -> Result<(), AllocError>
    requires { All (λ p. p < 64) kept.now }
    ensures { OnOk result (string_bytes text.new ≡ string_bytes text.old ++ kept_words kept.now) }
{
    if kept.is_empty() {
        return text.push_str(" -");
    }
    for place in kept {
        write!(text, " {}", *place + 1)?;
    }
    Ok(())
}

fn push_kept(text: &mut String, kept: &[usize]) -> Result<(), AllocError>
    requires { All (λ p. p < 64) kept.now }
    ensures { OnOk result (string_bytes text.new ≡ string_bytes text.old ++ kept_line kept.now) }
{
    text.push_str("kept")?;
    push_numbers(text, kept)?;
    text.push_str("\n")
}

fn push_head(text: &mut String, needs: &NeededFilters) -> Result<(), AllocError>
    ensures { OnOk result (string_bytes text.new ≡ string_bytes text.old
        ++ needed_head_text needs.now) }
{
    text.push_str("seccomp_audit needed 2\n")?;
    push_size(text, needs.stack().programs())?;
    push_nodes(text, needs.nodes())
}

fn push_total(text: &mut String, needs: &NeededFilters) -> Result<(), AllocError>
    ensures { OnOk result (string_bytes text.new ≡ string_bytes text.old
        ++ needed_total_line needs.now) }
{
    let needed = needs.count_needed();
    let spare = needs.count_spare();
    let kept = needs.kept().len();
    write!(text, "total needed {needed} spare {spare} kept {kept}\n")
}

/// The text that says which filters are needed.
pub fn text_of_needs(alloc: Global, needs: &NeededFilters) -> Result<String, AllocError>
    ensures { IfOk result (λ text. string_bytes text ≡ needs_text needs.now) }
{
    let mut text = String::new(alloc);
    push_head(&mut text, needs)?;
    push_findings(alloc, &mut text, needs.findings())?;
    push_kept(&mut text, needs.kept())?;
    push_total(&mut text, needs)?;
    Ok(text)
}

/// Writes the text that says which filters are needed.
pub fn write_needed<W: Write>(
    alloc: Global,
    needs: &NeededFilters,
    out: &mut W,
) -> Result<(), Fault>
    ensures written { OnOk result (Appends (W.contents out.old) (W.contents out.new)
        (needs_text needs.now)) }
    ensures begun { OnErr result (AppendsFront (W.contents out.old) (W.contents out.new)
        (needs_text needs.now)) }
    ensures refused { IfErr result (λ e. (e ≡ WriteFault)
        ⊎ ((e ≡ MemoryFault) × (out.new ≡ out.old))) }
{
    let text = text_of_needs(alloc, needs)?;
    write_bytes(text.as_bytes(), out)
}

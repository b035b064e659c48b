//! The text of a comparison. After an error a part of what was to be added may stand in the text.

ghost use Rattle.std.specs.Prelude.{◌≡◌, ◌⊎◌, ◌++◌, IfOk, IfErr, OnOk, OnErr, string_bytes};
ghost use Rattle.std.specs.Io.KnownBytes.{Appends};
ghost use Rattle.sf_stack.specs.Texts.{AppendsFront, answer_words};
ghost use Rattle.sf_stack.specs.declared.fault.Fault.TheVariants.{Memory as MemoryFault, Write as WriteFault};
ghost use Rattle.sf_compare.specs.Comparisons.{change_line, changes_text, comparison_head, comparison_text, part_line};

use crate::comparison::Comparison;
use sf_check::Stack;
use sf_relations::{Example, Relation};
use sf_run::Answer;
use sf_stack::{Fault, hex_of, push_action, push_nodes, push_size, write_bytes};
use std::alloc::{AllocError, Global};
use std::io::Write;

fn words_of(alloc: Global, answer: Answer) -> Result<String, AllocError>
    ensures { IfOk result (λ text. string_bytes text ≡ answer_words answer) }
{
    let mut text = String::new(alloc);
    push_action(&mut text, answer.action)?;
    let info = answer.info;
    write!(&mut text, " {info}")?;
    Ok(text)
}

fn push_change(
    alloc: Global,
    text: &mut String,
    relation: &str,
    finding: Option<Example>,
) -> Result<(), AllocError>
    ensures { OnOk result (string_bytes text.new ≡ string_bytes text.old
        ++ change_line relation.now finding) }
{
    match finding {
        None => write!(text, "{relation} never\n"),
        Some(example) => {
            let digits = hex_of(alloc, &example.input)?;
            let before = words_of(alloc, example.before)?;
            let after = words_of(alloc, example.after)?;
            write!(text, "{relation} found {digits} {before} -> {after}\n")
        }
    }
}

fn push_changes(alloc: Global, text: &mut String, comparison: &Comparison) -> Result<(), AllocError>
    ensures { OnOk result (string_bytes text.new ≡ string_bytes text.old
        ++ changes_text comparison.now.findings) }
{
    push_change(alloc, text, "looser", comparison.finding(Relation::Looser))?;
    push_change(
        alloc,
        text,
        "tighter",
        comparison.finding(Relation::Tighter),
    )?;
    push_change(
        alloc,
        text,
        "different",
        comparison.finding(Relation::Different),
    )
}

fn push_part(text: &mut String, which: &str, stack: &Stack) -> Result<(), AllocError>
    ensures { OnOk result (string_bytes text.new ≡ string_bytes text.old
        ++ part_line which.now stack.now) }
{
    write!(text, "{which} ")?;
    push_size(text, stack.programs())
}

fn push_head(text: &mut String, comparison: &Comparison) -> Result<(), AllocError>
    ensures { OnOk result (string_bytes text.new ≡ string_bytes text.old
        ++ comparison_head comparison.now) }
{
    text.push_str("seccomp_audit compare 2\n")?;
    push_part(text, "old", comparison.old_stack())?;
    push_part(text, "new", comparison.new_stack())?;
    push_nodes(text, comparison.nodes())
}

/// The text of a comparison.
pub fn text_of_comparison(alloc: Global, comparison: &Comparison) -> Result<String, AllocError>
    ensures { IfOk result (λ text. string_bytes text ≡ comparison_text comparison.now) }
{
    let mut text = String::new(alloc);
    push_head(&mut text, comparison)?;
    push_changes(alloc, &mut text, comparison)?;
    Ok(text)
}

/// Writes the text of a comparison.
pub fn write_comparison<W: Write>(
    alloc: Global,
    comparison: &Comparison,
    out: &mut W,
) -> Result<(), Fault>
    ensures written { OnOk result (Appends (W.contents out.old) (W.contents out.new)
        (comparison_text comparison.now)) }
    ensures begun { OnErr result (AppendsFront (W.contents out.old) (W.contents out.new)
        (comparison_text comparison.now)) }
    ensures refused { IfErr result (λ e. (e ≡ WriteFault)
        ⊎ ((e ≡ MemoryFault) × (out.new ≡ out.old))) }
{
    let text = text_of_comparison(alloc, comparison)?;
    write_bytes(text.as_bytes(), out)
}

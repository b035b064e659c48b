//! Texts that several reports share, and how a text is written.

ghost use Rattle.std.specs.Prelude.{◌≡◌, ◌≤◌, ◌++◌, IfErr, IfOk, OnErr, OnOk, length, string_bytes};
ghost use Rattle.std.specs.Io.KnownBytes.{Appends};
ghost use Rattle.sf_stack.specs.Texts.{AppendsFront, counts_line, hex_text, nodes_line, filters_line};
ghost use Rattle.sf_stack.specs.declared.fault.Fault.TheVariants.{Write as WriteFault};

use crate::fault::Fault;
use sf_check::{Program, path_length};
use sf_insn::{Input, bytes_of_input};
use sf_run::Counts;
use std::alloc::{AllocError, Global};
use std::io::Write;

/// The 64 bytes of an input as 128 hexadecimal digits in lower case.
pub fn hex_of(alloc: Global, input: &Input) -> Result<String, AllocError>
    ensures { IfOk result (λ digits. string_bytes digits ≡ hex_text input.now) }
{
    let bytes = bytes_of_input(input);
    hex::encode(alloc, &bytes)
}

/// Adds the line of an exploration's counts: regions, outstanding pieces (`open`), emptied names, splits and commits.
pub fn push_counts(text: &mut String, counts: Counts) -> Result<(), AllocError>
    ensures { OnOk result (string_bytes text.new ≡ string_bytes text.old ++ counts_line counts) }
{
    let regions = counts.settled;
    let open = counts.left;
    let emptied = counts.emptied;
    let splits = counts.splits;
    let commits = counts.commits;
    write!(
        text,
        "regions {regions} open {open} emptied {emptied} splits {splits} commits {commits}\n"
    )
}

/// Adds the line with the size of a stack: how many filters it has, and the length of the path through them.
pub fn push_size(text: &mut String, programs: &[Program]) -> Result<(), AllocError>
    requires { length programs.now ≤ 64 }
    ensures { OnOk result (string_bytes text.new ≡ string_bytes text.old
        ++ filters_line programs.now) }
{
    let filters = programs.len();
    let path = path_length(programs);
    write!(text, "filters {filters} path {path}\n")
}

/// Adds the line that tells how many nodes diagrams have.
pub fn push_nodes(text: &mut String, nodes: usize) -> Result<(), AllocError>
    ensures { OnOk result (string_bytes text.new ≡ string_bytes text.old ++ nodes_line nodes) }
{
    write!(text, "diagram nodes {nodes}\n")
}

/// Writes all the bytes, with as many writes as it takes. After an error a beginning of them, or nothing, was written.
/// A signal that interrupts a write is an error too.
pub fn write_bytes<W: Write>(bytes: &[u8], out: &mut W) -> Result<(), Fault>
    ensures ok { OnOk result (Appends (W.contents out.old) (W.contents out.new) bytes.now) }
    ensures err { OnErr result (AppendsFront (W.contents out.old) (W.contents out.new) bytes.now) }
    ensures fault { IfErr result (λ e. e ≡ WriteFault) }
{
    let mut rest = bytes;
    while !rest.is_empty() {
        match out.write(rest) {
            Ok(0) => return Err(Fault::Write),
            Ok(count) => rest = &rest[count..],
            Err(_) => return Err(Fault::Write),
        }
    }
    Ok(())
}

//! The subcommands `check` and `eval`: read the filter files and write what is found of their stack.

ghost use Rattle.std.specs.Prelude.{◌≡◌, ◌⊎◌, map, string_bytes, Ok, IfOk, IfErr, OnOk, IsOk};
ghost use Rattle.std.specs.Io.KnownBytes.{Appends};
ghost use Rattle.hex.specs.Hex.{decode_sized};
ghost use Rattle.serde_json.specs.View.{view};
ghost use Rattle.sf_insn.specs.Inputs.{input_bytes};
ghost use Rattle.sf_run.specs.Answers.{Answers};
ghost use Rattle.sf_run.specs.declared.action.Answer.{Answer};
ghost use Rattle.sf_evaluate.specs.Files.{RefusesFiles};
ghost use Rattle.sf_evaluate.specs.Outputs.{AnswersFiles, ChecksFiles, IsCheckOutput, eval_output};
ghost use Rattle.sf_stack.specs.declared.fault.Fault.TheVariants.{Memory as MemoryFault, Input as InputFault, Write as WriteFault};

use crate::explaining::Notes;
use crate::files::{Files, Identity, identified, read_stack};
use hex::FromHex;
use sf_check::Stack;
use sf_insn::{Input, input_of_bytes};
use sf_json::{Document, line_of};
use sf_names::Names;
use sf_run::answer;
use sf_stack::{Fault, warnings_of_filters, write_bytes};
use sf_trace::{Trace, check_document, check_text, eval_document, eval_text};
use std::alloc::{AllocError, Global};
use std::io::Write;

/// How `check` shows what it finds of a stack.
#[derive(Clone, Copy)]
pub struct CheckManner {
    /// Whether the instructions of each filter are shown too.
    pub listed: bool,
    /// Whether one JSON document is written in place of the text.
    pub json: bool,
}

/// How `eval` shows an answer.
#[derive(Clone, Copy)]
pub struct Manner {
    /// Whether a trace is shown: how each filter comes to its return value. A text then has the input too, which a JSON
    /// document has in any case.
    pub traced: bool,
    /// Whether a trace is shown without the comparisons that are false. `traced` needn't be set then.
    pub brief: bool,
    /// Whether one JSON document is written in place of the text.
    pub json: bool,
}

/// What `eval` is asked for.
#[derive(Clone, Copy, Drop)]
pub struct Evaluation<'a> {
    pub input: &'a Input,
    pub how: Manner,
    /// The line of the program's version, which a JSON document shows.
    pub version: &'a str,
    /// Sets of names of calls with which the input is shown.
    pub names: &'a [Names],
}

/// Writes a text to standard output.
pub fn print<O: Write>(text: &str, out: &mut O) -> Result<(), Fault>
    ensures written { OnOk result (Appends (O.contents out.old) (O.contents out.new) text.now) }
    ensures refused { IfErr result (λ e. e ≡ WriteFault) }
{
    write_bytes(text.as_bytes(), out)
}

/// The input that 128 hexadecimal digits spell: two for each of the 64 bytes of `struct seccomp_data`, whose words are
/// little-endian.
pub(crate) fn input_of(text: &str) -> Result<Input, Fault>
    ensures spelled { IfOk result (λ d. decode_sized text.now 64 ≡ Ok (input_bytes d)) }
    ensures refused { IfErr result (λ e. (e ≡ InputFault)
        × (IsOk (decode_sized text.now 64) → ⊥)) }
{
    let bytes = <[u8; 64] as FromHex>::from_hex(text).map_err(|_| Fault::Input)?;
    Ok(input_of_bytes(&bytes))
}

fn check_output(
    alloc: Global,
    stack: &Stack,
    how: CheckManner,
    identity: Identity<'_>,
) -> Result<String, AllocError>
    ensures { IfOk result (λ text. IsCheckOutput how.listed how.json identity.entry.version.now
        (map view identity.entry.files.items) stack.now (string_bytes text)) }
{
    if !how.json {
        return check_text(alloc, stack, how.listed);
    }
    let document = check_document(alloc, stack, how.listed)?;
    let document = identified(alloc, document, identity)?;
    line_of(alloc, &document)
}

fn output_of(
    alloc: Global,
    how: Manner,
    identity: Identity<'_>,
    trace: &Trace<'_>,
) -> Result<String, sf_run::Fault>
    ensures { IfOk result (λ text. string_bytes text ≡ eval_output how.traced trace.now.brief
        how.json identity.entry.version.now (map view identity.entry.files.items) trace.now.names.now
        trace.now.stack.now trace.now.input.now trace.now.answer) }
{
    if !how.json {
        return eval_text(alloc, how.traced, trace);
    }
    let document = eval_document(alloc, how.traced, trace)?;
    let document = identified(alloc, document, identity)?;
    Ok(line_of(alloc, &document)?)
}

fn eval_output(
    alloc: Global,
    asked: &Evaluation<'_>,
    stack: &Stack,
    files: Vec<Document>,
) -> Result<String, Fault>
    ensures shown { IfOk result (λ text. (a : Answer) × Answers stack.now asked.now.input.now a
        × (string_bytes text ≡ eval_output asked.now.how.traced asked.now.how.brief
        asked.now.how.json asked.now.version.now (map view files.items) asked.now.names.now
        stack.now asked.now.input.now a)) }
    ensures refused { IfErr result (λ e. e ≡ MemoryFault) }
{
    let (input, version) = (asked.input, asked.version);
    let answer = answer(stack, input);
    let trace = Trace {
        stack,
        input,
        answer,
        brief: asked.how.brief,
        names: asked.names,
    };
    match output_of(alloc, asked.how, Identity { version, files }, &trace) {
        Ok(text) => Ok(text),
        Err(_) => Err(Fault::Memory),
    }
}

/// Reads the filter files at `paths`, in order of installation, and writes the number of instructions of each and the
/// path length of their stack, and where `how.listed` asks for it, the instructions, of which those are marked to which
/// no path comes. A JSON document shows `version`, the line of the program's version. The notes count the files, and
/// get the warnings about them once the stack is accepted.
///
/// Refusals come in this order: `Read`, those of `stack_of`, `Write`.
pub fn check<F: Files, O: Write>(
    alloc: Global,
    version: &str,
    paths: &[&str],
    how: CheckManner,
    files: &mut F,
    notes: &mut Notes,
    out: &mut O,
) -> Result<(), Fault>
    ensures written { OnOk result (ChecksFiles how.listed how.json version.now
        (F.holds files.old) paths.now (O.contents out.old) (O.contents out.new)) }
    ensures refused { IfErr result (λ e. (e ≡ WriteFault)
        ⊎ (RefusesFiles (F.holds files.old) paths.now e × (out.new ≡ out.old))) }
{
    let (stack, documents) = read_stack(alloc, paths, how.json, files, notes)?;
    notes.warnings = warnings_of_filters(alloc, stack.programs());
    let identity = Identity {
        version,
        files: documents,
    };
    let text = check_output(alloc, &stack, how, identity)?;
    print(&text, out)
}

/// Reads the filter files at `paths`, in order of installation, and writes what their stack answers to the input in
/// `asked`. Refusals come in the order of `check`.
pub fn evaluate<F: Files, O: Write>(
    alloc: Global,
    asked: &Evaluation<'_>,
    paths: &[&str],
    files: &mut F,
    notes: &mut Notes,
    out: &mut O,
) -> Result<(), Fault>
    ensures written { OnOk result (AnswersFiles asked.now.input.now asked.now.how
        asked.now.version.now (F.holds files.old) paths.now asked.now.names.now
        (O.contents out.old) (O.contents out.new)) }
    ensures refused { IfErr result (λ e. (e ≡ WriteFault)
        ⊎ (RefusesFiles (F.holds files.old) paths.now e × (out.new ≡ out.old))) }
{
    let (stack, documents) = read_stack(alloc, paths, asked.how.json, files, notes)?;
    let text = eval_output(alloc, asked, &stack, documents)?;
    print(&text, out)
}

//! What two command lines say over files that are known: the contract of `command`, from words to bytes. Each function
//! only runs its command line.

ghost use Rattle.std.specs.Prelude.{◌≡◌, ℕ, List, [], ◌∷◌, Some, codes, false, map, string_bytes, IfOk};
ghost use Rattle.sf_check.specs.declared.insn.Insn.{Insn};
ghost use Rattle.sf_stack.specs.Filters.{SpellStack};
ghost use Rattle.sf_trace.specs.Texts.{IsCheckText};
ghost use Rattle.command_run.specs.Lines.{IsDone, KeepsPolicy, allow_bytes, audit_words, check_words, one_text};
ghost use Rattle.command_run.specs.Memory.{held};

use crate::memory_files::MemoryFiles;
use sf_command::{Means, Meter, command};
use sf_crew::Open;
use sf_evaluate::Files;
use sf_stack::laws::{a_refusal_spells_no_stack, one_stack};
use sf_trace::laws::one_check_text;
use std::alloc::{AllocError, Global};
use std::io::Write;
use std::sync::Wait;
use std::thread::Threads;

/// Let the bytes of p.bpf spell a filter. Then `check p.bpf` adds its text to what was written before, unless memory
/// runs out.
fn check<R: Threads + Wait + Sync, F: Files, M: Meter, E: Write>(
    means: &Means<'_, '_, R, M>,
    words: &[String],
    files: &mut F,
    out: &mut Vec<u8>,
    err: &mut E,
) -> u8
    ensures { (bytes text : List ℕ) (program : List Insn) → map string_bytes words.now ≡ check_words
        → F.holds files.old (codes "p.bpf") ≡ Some bytes
        → SpellStack (bytes ∷ []) (program ∷ []) → IsCheckText false (program ∷ []) text
        → IsDone result out.old.items out.new.items text }
{
    one_stack();
    a_refusal_spells_no_stack();
    one_check_text();
    command(means, "", words, files, out, err)
}

/// Where `audit --policy q.toml p.bpf` ends with status 0, no input breaks a question that q.toml asks, under the
/// filter that p.bpf spells. Nothing is assumed of the bytes of these files.
pub fn audit<R: Threads + Wait + Sync, F: Files, M: Meter, O: Write, E: Write>(
    means: &Means<'_, '_, R, M>,
    words: &[String],
    files: &mut F,
    out: &mut O,
    err: &mut E,
) -> u8
    ensures { (policy bytes : List ℕ) → map string_bytes words.now ≡ audit_words
        → F.holds files.old (codes "q.toml") ≡ Some policy
        → F.holds files.old (codes "p.bpf") ≡ Some bytes
        → result ≡ 0 → KeepsPolicy policy bytes }
{
    command(means, "", words, files, out, err)
}

/// Files of which p.bpf is `ret ALLOW`.
fn allow_files(alloc: Global) -> Result<MemoryFiles, AllocError>
    ensures { IfOk result (λ f. held f (codes "p.bpf") ≡ Some allow_bytes) }
{
    let allow = [0x06, 0, 0, 0, 0, 0, 0xff, 0x7f];
    let mut files = MemoryFiles::new(alloc);
    files.put("p.bpf", Vec::from_slice(alloc, allow.as_slice())?)?;
    Ok(files)
}

/// The words `check p.bpf`.
fn words_of_check(alloc: Global) -> Result<Vec<String>, AllocError>
    ensures { IfOk result (λ v. map string_bytes v.items ≡ check_words) }
{
    let mut words = Vec::new(alloc);
    words.push(String::from_str(alloc, "check")?)?;
    words.push(String::from_str(alloc, "p.bpf")?)?;
    Ok(words)
}

/// The status of `check p.bpf` and what it writes, where p.bpf is `ret ALLOW`.
pub fn check_allow<R: Threads + Wait + Sync>(
    rt: &R,
    alloc: Global,
) -> Result<(u8, Vec<u8>), AllocError>
    ensures { IfOk result (λ said. IsDone said.0 [] said.1.items one_text) }
{
    let mut files = allow_files(alloc)?;
    let words = words_of_check(alloc)?;
    let mut out = Vec::new(alloc);
    let mut err: Vec<u8> = Vec::new(alloc);
    let means = Means {
        rt,
        alloc,
        gate: &Open,
    };
    let status = check(&means, &words, &mut files, &mut out, &mut err);
    Ok((status, out))
}

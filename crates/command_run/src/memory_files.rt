//! Files in memory, by name.

ghost use Rattle.std.specs.Prelude.{◌≡◌, ◌≤◌, ◌⊎◌, ℕ, List, length, find, option_map, reverse, string_bytes, IfOk, IfErr, OnOk, Some, None, if◌then◌else◌};
ghost use Rattle.std.specs.Str.{bytes_eq};
ghost use Rattle.sf_stack.specs.declared.fault.Fault.TheVariants.{Memory as MemoryFault, Read as ReadFault};
ghost use Rattle.sf_evaluate.specs.Files.{AreKnownBytes};
ghost use Rattle.command_run.specs.Memory.{held, readable};

use crate::fragments::push_digits;
use sf_evaluate::{Files, MOST_BYTES};
use sf_stack::Fault;
use std::alloc::{AllocError, Global};
use std::test::Fail;

/// A file.
#[derive(Drop)]
struct Named {
    name: String,
    bytes: Vec<u8>,
}

/// Files by name, the newest last. Where several have one name, the newest is read.
#[derive(Drop)]
pub struct MemoryFiles {
    alloc: Global,
    files: Vec<Named>,
    /// Whether each fault is explained, also where the command line doesn't ask for it.
    pub explains: bool,
}

impl MemoryFiles {
    /// No files.
    pub fn new(alloc: Global) -> MemoryFiles {
        MemoryFiles {
            alloc,
            files: Vec::new(alloc),
            explains: false,
        }
    }

    /// Adds a file.
    pub fn put(&mut self, name: &str, bytes: Vec<u8>) -> Result<(), AllocError>
        ensures { OnOk result ((path : List ℕ) → held self.new path
            ≡ (if bytes_eq name.now path then readable bytes.items else held self.old path)) }
    {
        let name = String::from_str(self.alloc, name)?;
        self.files.push(Named { name, bytes })?;
        Ok(())
    }

    /// What `Files::read` gives at a path.
    fn read_at(&self, path: &str) -> Result<Vec<u8>, Fault>
        ensures bytes { IfOk result (λ v. AreKnownBytes (held self.now path.now) v.items) }
        ensures few { IfOk result (λ v. length v.items ≤ 0x100000) }
        ensures refused { IfErr result (λ e. ((e ≡ ReadFault)
            × (held self.now path.now ≡ None)) ⊎ (e ≡ MemoryFault)) }
    {
        match newest(&self.files, path) {
            Some(file) => read_bytes(self.alloc, &file.bytes),
            None => Err(Fault::Read),
        }
    }

    /// Adds a file from a line with its name and fragments of hexadecimal digits.
    pub fn put_digits(&mut self, line: &str) -> Result<(), Fail> {
        let (name, fragments) = line.split_once(' ').unwrap_or((line, ""));
        let mut digits = String::new(self.alloc);
        for fragment in fragments.split_whitespace() {
            push_digits(&mut digits, fragment)?;
        }
        let bytes = hex::decode(self.alloc, digits.as_str())?;
        self.put(name, bytes)?;
        Ok(())
    }

    /// Adds a file from a line with its name and the lines of the file, which are separated by bars.
    pub fn put_lines(&mut self, line: &str) -> Result<(), Fail> {
        let (name, lines) = line.split_once(' ').unwrap_or((line, ""));
        let mut text = String::new(self.alloc);
        for part in lines.split('|') {
            text.push_str(part)?;
            text.push_str("\n")?;
        }
        self.put(name, text.into_bytes())?;
        Ok(())
    }
}

/// The newest of these files with a name.
fn newest<'a>(files: &'a [Named], name: &str) -> Option<&'a Named>
    ensures { option_map (λ f. f.now) result
        ≡ find (λ f. bytes_eq (string_bytes f.name) name.now) (reverse files.now) }
{
    files.iter().rev().find(|file| file.name.as_str() == name)
}

/// What is read of a file with these bytes.
fn read_bytes(alloc: Global, bytes: &[u8]) -> Result<Vec<u8>, Fault>
    ensures read { IfOk result (λ v. readable bytes.now ≡ Some v.items) }
    ensures refused { IfErr result (λ e. ((e ≡ ReadFault) × (readable bytes.now ≡ None))
        ⊎ (e ≡ MemoryFault)) }
{
    if bytes.len() <= MOST_BYTES {
        Ok(Vec::from_slice(alloc, bytes)?)
    } else {
        Err(Fault::Read)
    }
}

impl Files for MemoryFiles {
    ghost holds = { held };

    fn read(&mut self, path: &str) -> Result<Vec<u8>, Fault> {
        self.read_at(path)
    }

    fn reason(&self) -> &str {
        "not in memory"
    }

    fn explains(&self) -> bool {
        self.explains
    }
}

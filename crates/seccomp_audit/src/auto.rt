//! `audit --policy @auto`: the ready policy of the architecture that the filters test, its control and names of calls.

use crate::disk::Disk;
use clap::ArgMatches;
use sf_command_line::command_form;
use sf_evaluate::Files;
use sf_stack::Fault;
use std::alloc::{AllocError, AllocFailed, Global};
use std::env::Env;
use std::rt::Files as FileSystem;

/// The path in whose place that of a ready policy comes.
const AUTO: &str = "@auto";

/// The option of which it is the value, alone and with the value in the same word.
const POLICY: &str = "--policy";

const POLICY_AUTO: &str = "--policy=@auto";

/// The architectures that the ready policies ask about: the number that filters test, and the policy's name. (Filters
/// tell x32 from x86-64 by the numbers of calls.)
const ARCHITECTURES: [(u32, &str); 4] = [
    (0xC000_003E, "x86_64"),
    (0x4000_0003, "i386"),
    (0xC000_00B7, "aarch64"),
    (0x4000_0028, "arm"),
];

/// The code of an instruction that loads a word of the input, and where the architecture stands in the input.
const LOAD: u16 = 0x20;

const ARCHITECTURE: u32 = 4;

/// The code of a comparison of A with a number.
const EQUAL: u16 = 0x15;

/// Why there is no policy.
#[derive(Drop)]
pub enum Refusal {
    Memory,
    /// A filter can't be read: its path and the reason, in a line.
    Unread(String),
    /// What the filters test, in lines.
    Tested(String),
}

impl From<AllocError> for Refusal {
    fn from(_e: AllocError) -> Refusal {
        Refusal::Memory
    }
}

impl<T: Drop> From<AllocFailed<T>> for Refusal {
    fn from(_e: AllocFailed<T>) -> Refusal {
        Refusal::Memory
    }
}

/// Whether an instruction with this code puts another number into A.
fn changes_a(code: u16) -> bool {
    matches!(code & 7, 0 | 4 | 7)
}

/// Whether a filter compares the architecture with this number. The instructions are looked at in their order: a jump
/// over a load isn't followed.
fn is_tested(filter: &[u8], architecture: u32) -> bool {
    let mut is_loaded = false;
    for instruction in filter.chunks(8) {
        let [low, high, _, _, k0, k1, k2, k3] = instruction else {
            return false;
        };
        let code = u16::from_le_bytes([*low, *high]);
        let k = u32::from_le_bytes([*k0, *k1, *k2, *k3]);
        if code == EQUAL && is_loaded && k == architecture {
            return true;
        }
        if changes_a(code) {
            is_loaded = code == LOAD && k == ARCHITECTURE;
        }
    }
    false
}

/// The names of the architectures that some of these filters test.
fn tested(alloc: Global, filters: &[Vec<u8>]) -> Result<Vec<&'static str>, AllocError> {
    let mut names = Vec::new(alloc);
    for (number, name) in ARCHITECTURES {
        if filters.iter().any(|filter| is_tested(filter, number)) {
            names.push(name)?;
        }
    }
    Ok(names)
}

/// Whether a word may ask for the policy.
fn is_auto(word: &str) -> bool {
    word == AUTO || word == POLICY_AUTO
}

/// Whether the word at a place is the value `@auto` of `--policy`.
fn is_value(words: &[String], place: usize) -> bool {
    let before = match place.checked_sub(1) {
        Some(before) => words.get(before),
        None => None,
    };
    match (before, words.get(place)) {
        (Some(before), Some(word)) => before.as_str() == POLICY && word.as_str() == AUTO,
        _ => false,
    }
}

/// The words with the policy of an architecture, and, behind the subcommand, with its control and with names where none
/// are given.
fn words_for(
    alloc: Global,
    words: &[String],
    found: &ArgMatches<'_>,
    name: &str,
) -> Result<Vec<String>, AllocError> {
    let mut all = Vec::new(alloc);
    for (place, word) in words.iter().enumerate() {
        if is_value(words, place) {
            all.push(format!(in alloc; "@{name}")?)?;
        } else if word.as_str() == POLICY_AUTO {
            all.push(format!(in alloc; "{POLICY}=@{name}")?)?;
        } else {
            all.push(String::from_str(alloc, word)?)?;
        }
        if place == 0 && found.get_str("control").is_none() {
            all.push(format!(in alloc; "--control=@control-{name}")?)?;
        }
        if place == 0 && found.get_str("names").is_none() {
            all.push(String::from_str(alloc, "--names=@names")?)?;
        }
    }
    Ok(all)
}

/// Why several architectures, or none, give no policy.
fn why_not(alloc: Global, names: &[&str]) -> Result<String, AllocError> {
    let mut text = String::new(alloc);
    text.push_str("error: --policy @auto takes filters that test one architecture; these test ")?;
    if names.is_empty() {
        text.push_str("none of x86_64, i386, aarch64 and arm")?;
    }
    for (place, name) in names.iter().enumerate() {
        text.push_str(if place == 0 { "" } else { " and " })?;
        text.push_str(name)?;
    }
    text.push_str("\n  Name the policy, as --policy @x86_64.\n")?;
    Ok(text)
}

/// The bytes of the filters, which are read ahead.
fn filters_of<R: FileSystem + Input + Env + AllocGlobal>(
    alloc: Global,
    found: &ArgMatches<'_>,
    disk: &mut Disk<'_, R>,
) -> Result<Vec<Vec<u8>>, Refusal> {
    let mut filters = Vec::new(alloc);
    for path in found.get_strs("filters").unwrap_or(&[]) {
        match disk.read_ahead(path) {
            Ok(bytes) => filters.push(bytes)?,
            Err(Fault::Memory) => return Err(Refusal::Memory),
            Err(_) => {
                let reason = disk.reason();
                return Err(Refusal::Unread(format!(in alloc; "file {path:?}: {reason}\n")?));
            }
        }
    }
    Ok(filters)
}

/// The words of an audit with the ready policy; `None` where they don't ask for it.
fn audit_words<R: FileSystem + Input + Env + AllocGlobal>(
    alloc: Global,
    words: &[String],
    found: &ArgMatches<'_>,
    disk: &mut Disk<'_, R>,
) -> Result<Option<Vec<String>>, Refusal> {
    let mut policies = found.get_strs("policy").unwrap_or(&[]).iter();
    if !policies.any(|path| *path == AUTO) {
        return Ok(None);
    }
    let filters = filters_of(alloc, found, disk)?;
    let names = tested(alloc, &filters)?;
    match names.as_slice() {
        [name] => Ok(Some(words_for(alloc, words, found, name)?)),
        names => Err(Refusal::Tested(why_not(alloc, names)?)),
    }
}

/// The words with the ready policy in the place of `@auto`; `None` where they don't ask for it, or are refused.
pub fn with_policy<R: FileSystem + Input + Env + AllocGlobal>(
    alloc: Global,
    words: &[String],
    disk: &mut Disk<'_, R>,
) -> Result<Option<Vec<String>>, Refusal> {
    if !words.iter().any(|word| is_auto(word)) {
        return Ok(None);
    }
    match command_form(alloc)?.try_get_matches_from(words) {
        Ok(matches) => match matches.subcommand() {
            Some((name, found)) if name == "audit" => audit_words(alloc, words, found, disk),
            _ => Ok(None),
        },
        Err(_) => Ok(None),
    }
}

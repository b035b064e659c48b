//! The filter of a profile, and the notes on it.

use crate::refused::Refused;
use sf_names::read_names;
use sf_profile::{CallSet, Calls, Reading, Settings, notes, profile, unknown_names};
use std::alloc::Global;

/// A file of names.
const NAMES: &str = "arch = 0xC00000B7\n[calls]\nread = 63\nwrite = 64\n";

/// A profile: a call where an argument has a number, one call always, and a name that has no number.
const PROFILE: &[u8] = br#"{"defaultAction": "SCMP_ACT_ERRNO", "syscalls": [
    {"names": ["read"], "action": "SCMP_ACT_ALLOW", "args": [{"index": 0, "value": 5, "op": "SCMP_CMP_EQ"}]},
    {"names": ["write", "no_call"], "action": "SCMP_ACT_LOG"}]}"#;

/// What the profile is read for.
fn settings_of(alloc: Global) -> Result<Settings, Refused> {
    let mut calls = Vec::new(alloc);
    for names in read_names(alloc, NAMES)? {
        if let Some(one) = Calls::of(names) {
            calls.push(one)?;
        }
    }
    Ok(Settings {
        machine: CallSet::Aarch64,
        caps: Vec::new(alloc),
        kernel: None,
        conflicts: Reading::Strictest,
        newer: false,
        skip_unknown: true,
        calls,
    })
}

/// Adds the digits of a filter, an instruction a line.
fn push_filter(text: &mut String, filter: &[u8]) -> Result<(), Refused> {
    for (i, byte) in filter.iter().enumerate() {
        write!(text, "{byte:02x}")?;
        if i % 8 == 7 {
            text.push_str("\n")?;
        }
    }
    Ok(())
}

/// The filter of the profile, the notes on it, and the names that have no number.
pub fn profile_text(alloc: Global) -> Result<String, Refused> {
    let settings = settings_of(alloc)?;
    let mut text = String::new(alloc);
    let filter = profile(alloc, &settings, PROFILE)?;
    push_filter(&mut text, &filter)?;
    let told = notes(alloc, &settings, PROFILE)?;
    text.push_str(&told)?;
    let unknown = unknown_names(alloc, &settings, PROFILE)?;
    write!(text, "without a number:{unknown}\n")?;
    Ok(text)
}

//! What may have been meant by something that is refused. No contract speaks of it.

use super::kinds::Kind;
use crate::files::{FileRead, FileRole};
use sf_policy::{Refusal, WORD_KEYS};
use sf_stack::Fault;
use std::alloc::{AllocError, Global};
use toml::Value;

/// Keys that people write in small letters or capitals, and the keys of a question that are meant by them.
const MEANT: [(&str, &str); 7] = [
    ("name", "name"),
    ("actions", "actions"),
    ("action", "actions"),
    ("syscall", "nr"),
    ("call", "nr"),
    ("number", "nr"),
    ("architecture", "arch"),
];

/// The numbers of 64 bits that a question has in two halves, each with a key of its own.
const HALVED: [&str; 7] = ["ip", "arg0", "arg1", "arg2", "arg3", "arg4", "arg5"];

/// What is said where a text spells no input.
pub(crate) const INPUT: &str =
    "128 digits without `0x` are wanted: the 64 bytes of struct seccomp_data, of each number the lowest byte first";

#[derive(Clone, Copy, Debug)]
pub(crate) enum Hint {
    Sentence(&'static str),
    /// In place of the key that was written, this one may be meant.
    Meant(&'static str),
    /// The key that was written names a number of 64 bits: a question has a key for each half of it.
    Halved(&'static str),
}

impl Hint {
    pub(crate) fn push(self, text: &mut String) -> Result<(), AllocError> {
        match self {
            Hint::Sentence(sentence) => write!(text, "hint: {sentence}\n"),
            Hint::Meant(key) => write!(text, "hint: did you mean `{key}`?\n"),
            Hint::Halved(key) => write!(
                text,
                "hint: did you mean `{key}_lo`? {key} has two halves, `{key}_lo` and `{key}_hi`\n"
            ),
        }
    }
}

/// Whether this fault fits a filter file in which the number of the instructions stands before them. It takes at most
/// 16 bytes, as two instructions do.
pub(crate) fn is_at_front(fault: &Fault) -> bool {
    match fault {
        Fault::Ragged { .. } => true,
        Fault::Code { instruction, .. } | Fault::Field { instruction, .. } => *instruction < 2,
        _ => false,
    }
}

/// The hint for a file that is refused in its role, by what it seems to hold. `at_front` is what `is_at_front` says.
pub(crate) fn hint_of_kind(file: &FileRead, at_front: bool) -> Option<Hint> {
    let sentence = match (file.role, file.kind) {
        (FileRole::Accept | FileRole::Groups, _) | (_, Kind::Empty) => return None,
        (FileRole::Policy | FileRole::Control, Kind::Json) => {
            "this is JSON, and a policy is TOML, as policies/x86_64.toml is"
        }
        (FileRole::Policy | FileRole::Control, Kind::Names) => {
            "this is a file of names, and a policy has questions"
        }
        (FileRole::Policy | FileRole::Control, Kind::Policy | Kind::Text) => return None,
        (FileRole::Policy | FileRole::Control, _) => {
            "this is no text: were the policy and a filter exchanged?"
        }
        (_, Kind::Policy) => "this is a policy: `audit --policy` takes it",
        (FileRole::Names, Kind::Json) => {
            "this is JSON, and a file of names is TOML, as policies/names/x86_64.toml is"
        }
        (FileRole::Names, Kind::Names | Kind::Text) => return None,
        (FileRole::Names, _) => "this is no text: were a file of names and a filter exchanged?",
        (FileRole::Profile, Kind::Json | Kind::Names) => return None,
        (FileRole::Profile, Kind::Text) => "this is text, and a profile is JSON",
        (FileRole::Profile, _) => "this is no text: were the profile and a filter exchanged?",
        (_, Kind::Json) => "this is JSON: a profile becomes a filter by `seccomp_audit profile`",
        (_, Kind::Text) => "this is text, and a filter file holds the instructions' bytes",
        (_, Kind::Elf) => {
            "this is a program or a library, and a filter file holds only a filter's instructions"
        }
        (_, Kind::Names) => "this is a file of names: each file of names wants its own `--names`",
        (_, Kind::BigEndian) => {
            "these instructions are big-endian, and only little-endian ones are read"
        }
        (_, Kind::Counted) if at_front => {
            "the number of the instructions seems to stand before them, and a filter file holds only the instructions"
        }
        (_, Kind::Counted | Kind::Bytes) => return None,
    };
    Some(Hint::Sentence(sentence))
}

/// The hint for a file that can't be read: what kind of file is wanted. There is one where a name
/// may have been given in place of a path (it has no `/`), or the path is that of a folder.
pub(crate) fn hint_of_read(file: &FileRead, reason: &str) -> Option<Hint> {
    let path = file.path.as_str();
    if path.starts_with('@') {
        return Some(Hint::Sentence(
            "@NAME comes with the program: give another path, or in SECCOMP_AUDIT_SHARE the folder that has policies/NAME.toml",
        ));
    }
    if path.contains('/') && !reason.starts_with("Is a directory") {
        return None;
    }
    let ready = match file.role {
        FileRole::Names => "a file of names is wanted, as policies/names/x86_64.toml is one",
        FileRole::Policy => "a policy file is wanted, as policies/x86_64.toml is one",
        FileRole::Control => "a policy file is wanted, whose questions must be allowed",
        FileRole::Accept => "a file is wanted with the name of a question on each line",
        FileRole::Groups => "a file of groups is wanted, as policies/groups.toml is one",
        FileRole::Filter | FileRole::Old | FileRole::New | FileRole::Profile => return None,
    };
    Some(Hint::Sentence(ready))
}

fn is_key_of_question(key: &str) -> bool {
    key == "name" || key == "actions" || WORD_KEYS.iter().any(|known| *known == key)
}

/// The hint at the key of a question that is meant by `key`. Capitals count as small letters.
fn meant_by(key: &str) -> Option<Hint> {
    for halved in HALVED {
        if key.eq_ignore_ascii_case(halved) {
            return Some(Hint::Halved(halved));
        }
    }
    for (written, meant) in MEANT {
        if key.eq_ignore_ascii_case(written) {
            return Some(Hint::Meant(meant));
        }
    }
    let mut keys = WORD_KEYS.into_iter();
    let known = keys.find(|known| key.eq_ignore_ascii_case(*known))?;
    Some(Hint::Meant(known))
}

/// The hint for a key that is refused at the top of a policy. `key` is `question` where the questions are missing or
/// wrong.
fn hint_of_top_key(key: &str) -> Hint {
    match key {
        "question" => Hint::Sentence("each question begins with the line `[[question]]`"),
        "questions" => Hint::Meant("question"),
        _ if is_key_of_question(key) || meant_by(key).is_some() => {
            Hint::Sentence("the keys of a question stand below its line `[[question]]`")
        }
        _ => Hint::Sentence("at the top of a policy stand only `version` and then the questions"),
    }
}

/// The sentence of the hint for a value of a word that is refused with the fault `Key`.
fn sentence_of_word(refusal: &Refusal, key: &str, value: &Value) -> &'static str {
    let version = match &refusal.read {
        Ok(tree) => tree.get("version"),
        Err(_) => None,
    };
    match (value, version) {
        (Value::Table(_), Some(Value::Integer(1))) => {
            "version 2 has masks: begin the policy with `version = 2`"
        }
        (Value::Table(_), _) => {
            "a table has `mask` and `value`, and if you want `low` and `high`, all of them whole numbers"
        }
        (Value::Array(_), _) => "an array has two whole numbers, the lowest and the highest",
        (Value::String(_), _) if key == "nr" => {
            "the number of the call is wanted: the names and their numbers stand in policies/names"
        }
        _ => "a whole number is wanted: leave a word out that may have any value",
    }
}

/// The hint for a key of a question that is refused with the fault `Key`: the key is unknown, or its value is of a
/// wrong kind.
fn hint_of_question_key(refusal: &Refusal, key: &str, value: &Value) -> Hint {
    match key {
        "name" => Hint::Sentence("a name is a text in quotes"),
        "actions" => Hint::Sentence("`actions` is an array of texts, as [\"ALLOW\", \"LOG\"]"),
        _ if is_key_of_question(key) => Hint::Sentence(sentence_of_word(refusal, key, value)),
        _ => meant_by(key).unwrap_or(Hint::Sentence(
            "a question has the keys name, actions, nr, arch, ip_lo, ip_hi, and arg0_lo, arg0_hi to arg5_lo, arg5_hi",
        )),
    }
}

/// The hint for a policy that is refused at this key with this value. A single number that is refused with the fault
/// `Range` is negative, or has more than 32 bits. `nr` and `arch` are no halves of a longer number.
fn hint_of_key(refusal: &Refusal, key: &str, value: &Value) -> Option<Hint> {
    let sentence = match (refusal.fault, value) {
        (Fault::TopKey, _) => return Some(hint_of_top_key(key)),
        (Fault::Key { .. }, _) => return Some(hint_of_question_key(refusal, key, value)),
        (Fault::Range { .. }, Value::Integer(number)) if *number < 0 => {
            "a negative number is written by its 32 bits, as 0xffffffff for -1"
        }
        (Fault::Range { .. }, Value::Integer(_)) if key != "nr" && key != "arch" => {
            "a number of 64 bits is asked for by its two halves, at the keys with `_lo` and `_hi`"
        }
        (Fault::Actions { .. }, _) => {
            "the actions are KILL_PROCESS, KILL_THREAD, TRAP, ERRNO, USER_NOTIF, TRACE, LOG, ALLOW and OTHER"
        }
        _ => return None,
    };
    Some(Hint::Sentence(sentence))
}

/// The hint for a policy that is refused, by its fault.
pub(crate) fn hint_of_refusal(refusal: &Refusal) -> Option<Hint> {
    if refusal.fault == Fault::Version {
        return Some(Hint::Sentence("a policy begins with `version = 2`"));
    }
    if refusal.fault == Fault::Count && refusal.count() == 0 {
        return Some(hint_of_top_key("question"));
    }
    let key = refusal.key()?;
    let value = refusal.table()?.get(key)?;
    hint_of_key(refusal, key, value)
}

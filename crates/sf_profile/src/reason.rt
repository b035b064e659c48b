//! Why a profile is refused: which rule and which key, and what runtimes would do. It is for a person: contracts say
//! nothing of it.

use crate::fault::Fault;
use crate::nearest::nearest;
use crate::read::read_file;
use crate::repeated::repeated_key;
use crate::settings::Settings;
use crate::text::tree_of;
use crate::wording::{Refusal, Refused, Why};
use serde_json::Value;
use std::alloc::{AllocError, Global};

fn check_file<'a>(alloc: Global, settings: &Settings, value: &'a Value) -> Result<(), Refusal<'a>> {
    read_file(alloc, settings, value)?;
    Ok(())
}

fn number_of_rule(fault: Fault) -> Option<usize> {
    match fault {
        Fault::RuleKey { rule }
        | Fault::RuleCount { rule }
        | Fault::RuleName { rule }
        | Fault::RuleUnknown { rule }
        | Fault::RuleActions { rule }
        | Fault::RuleRange { rule } => Some(rule),
        _ => None,
    }
}

/// Why a name that no machine has is refused: the nearest one that a given set has.
fn unknown_reason(alloc: Global, settings: &Settings, name: &str) -> Result<Why, AllocError> {
    let nearest = match nearest(alloc, settings, name)? {
        Some(other) => Some(String::from_str(alloc, other)?),
        None => None,
    };
    let name = String::from_str(alloc, name)?;
    Ok(Why::Unknown { name, nearest })
}

fn refused_by(
    alloc: Global,
    settings: &Settings,
    refusal: Refusal<'_>,
) -> Result<Refused, AllocError> {
    let Refusal {
        fault,
        key,
        why,
        unknown,
    } = refusal;
    let key = match key {
        Some(key) => Some(String::from_str(alloc, key)?),
        None => None,
    };
    let why = match unknown {
        Some(name) => Some(unknown_reason(alloc, settings, name)?),
        None => why,
    };
    Ok(Refused {
        rule: number_of_rule(fault),
        key,
        why,
    })
}

/// What the profile in a file, which `profile` refused with this fault and these settings, is refused for: the number
/// of the rule, the key, and why, each where it is known.
pub fn refused(
    alloc: Global,
    settings: &Settings,
    bytes: &[u8],
    fault: Fault,
) -> Result<Refused, AllocError> {
    let unexplained = Refused {
        rule: None,
        key: None,
        why: None,
    };
    match tree_of(alloc, bytes) {
        Ok(value) => match check_file(alloc, settings, &value) {
            Err(refusal) if refusal.fault == Fault::Memory => Err(AllocError),
            Err(refusal) if refusal.fault == fault => refused_by(alloc, settings, refusal),
            _ => Ok(unexplained),
        },
        Err(Fault::Memory) => Err(AllocError),
        Err(Fault::Syntax) => Ok(unexplained),
        // A key comes twice.
        Err(_) => Ok(Refused {
            rule: number_of_rule(fault),
            key: repeated_key(alloc, bytes)?,
            why: Some(Why::Twice),
        }),
    }
}

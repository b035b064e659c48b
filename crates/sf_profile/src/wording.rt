//! What a profile is refused for, and why. The words are for a person: contracts say nothing of them.

ghost use Rattle.std.specs.Prelude.{◌≡◌};
ghost use Rattle.sf_profile.specs.declared.fault.Fault.TheVariants.{Memory};

use crate::fault::Fault;
use std::alloc::{AllocError, AllocFailed};
use std::fmt;

/// What a profile is refused for.
#[derive(Debug, Drop)]
pub struct Refused {
    /// The number of the rule, from 1, if the fault is that of one.
    pub rule: Option<usize>,
    /// The key at fault, or the one that is missing.
    pub key: Option<String>,
    pub why: Option<Why>,
}

/// Why a key is refused, though a runtime may take the profile.
#[derive(Debug, Drop)]
pub enum Why {
    /// It comes twice in an object.
    Twice,
    /// It differs only in case from a key that is known.
    Case {
        known: &'static str,
    },
    /// It is a key of a profile, and stands beside `linux`.
    BesideLinux,
    /// It has a byte 0.
    Zero,
    /// It is the annotation that gives crun a filter.
    OtherFilter,
    /// It stands below `linux`, and only docker and podman know it.
    OnlyDocker,
    /// `linux` has no `seccomp`.
    Unconfined,
    /// It names no error.
    NoErrorName,
    /// It names an error that hasn't the number beside it.
    OtherError,
    /// No machine has a call of this name, as far as the files of names tell. `nearest` is the nearest name that one
    /// has.
    Unknown {
        name: String,
        nearest: Option<String>,
    },
}

/// What a profile is refused for, where that is found.
#[derive(Debug, Drop)]
pub(crate) struct Refusal<'a> {
    pub(crate) fault: Fault,
    /// The key at fault, or the one that is missing, if it is one.
    pub(crate) key: Option<&'a str>,
    /// Why, where the key alone doesn't tell.
    pub(crate) why: Option<Why>,
    /// The name that no machine has, where that is why.
    pub(crate) unknown: Option<&'a str>,
}

impl<'a> From<Refusal<'a>> for Fault {
    ghost from_gives = { λ r e. e ≡ r.fault };

    fn from(refusal: Refusal<'a>) -> Fault {
        refusal.fault
    }
}

pub(crate) fn without_key<'a>(fault: Fault) -> Refusal<'a>
    ensures { result.fault ≡ fault }
{
    Refusal {
        fault,
        key: None,
        why: None,
        unknown: None,
    }
}

impl<'a> From<AllocError> for Refusal<'a> {
    ghost from_gives = { λ _ r. r.fault ≡ Memory };

    fn from(_e: AllocError) -> Refusal<'a> {
        without_key(Fault::Memory)
    }
}

impl<'a, T: Drop> From<AllocFailed<T>> for Refusal<'a> {
    ghost from_gives = { λ _ r. r.fault ≡ Memory };

    fn from(_e: AllocFailed<T>) -> Refusal<'a> {
        without_key(Fault::Memory)
    }
}

pub(crate) fn because<'a>(fault: Fault, key: &'a str, why: Option<Why>) -> Refusal<'a>
    ensures { result.fault ≡ fault }
{
    Refusal {
        fault,
        key: Some(key),
        why,
        unknown: None,
    }
}

/// A refusal for this key, which needs no more words.
pub(crate) fn at_key<'a>(fault: Fault, key: &'a str) -> Refusal<'a>
    ensures { result.fault ≡ fault }
{
    because(fault, key, None)
}

impl fmt::Display for Why {
    fn fmt<W: fmt::Write>(&self, f: &mut fmt::Formatter<W>) -> fmt::Result {
        match self {
            Why::Twice => f.write_str(
                "it comes twice: Go takes parts of both, libyajl the first, others the last",
            ),
            Why::Case { known } => write!(f, "Go takes it for `{known}`"),
            Why::BesideLinux => f.write_str("podman reads the top, others read below linux"),
            Why::Zero => f.write_str("crun ends it at its byte 0"),
            Why::OtherFilter => {
                f.write_str("crun installs this filter in place of that of linux.seccomp")
            }
            Why::OnlyDocker => {
                f.write_str("only docker and podman know it: runc and crun pass over it")
            }
            Why::Unconfined => f.write_str("a container without linux.seccomp runs unconfined"),
            Why::NoErrorName => {
                f.write_str("it names no error: podman reads it, others only the number")
            }
            Why::OtherError => {
                f.write_str("it names another error: podman follows it, others the number")
            }
            Why::Unknown { name, nearest } => {
                write!(f, "no call is named `{name}`")?;
                if let Some(other) = nearest {
                    write!(f, " (is it `{other}`?)")?;
                }
                f.write_str(": runtimes that know it apply the rule to it, others don't")
            }
        }
    }
}

ghost use Rattle.std.specs.Prelude.{◌≡◌};
ghost use Rattle.sf_profile.specs.declared.fault.Fault.TheVariants.{Memory};
ghost use Rattle.sf_profile.specs.Faults.{fault_number};
ghost use Rattle.sf_profile.specs.Reads.{first_flaw, flaw_place, head_fault, rule_fault};

use std::alloc::{AllocError, AllocFailed};
use thiserror::Error;

/// Why a profile is refused. Rules are numbered from 1 in the order in which they stand. The text of a fault is its
/// number and its name; where a rule is at fault, the rule stands behind it.
#[derive(Clone, Copy, Debug, PartialEq, Eq, Error)]
pub enum Fault {
    #[error("12 TooLong")]
    TooLong,
    /// There is no profile, or a key of its head is unknown or missing, or has a wrong value, or doesn't go with
    /// another.
    #[error("41 Key")]
    Key,
    /// The same of a key of a rule; or the rule asks for a kernel, and the kernel's version isn't given.
    #[error("41 Key rule {rule}")]
    RuleKey { rule: usize },
    #[error("42 Range")]
    Range,
    #[error("42 Range rule {rule}")]
    RuleRange { rule: usize },
    #[error("43 Actions")]
    Actions,
    /// A rule has an unknown action or comparison.
    #[error("43 Actions rule {rule}")]
    RuleActions { rule: usize },
    /// A name of a rule isn't 1 to 64 letters, digits and `_`.
    #[error("44 Name rule {rule}")]
    RuleName { rule: usize },
    /// No call of the given sets has a name of a rule, nor has one of another machine.
    #[error("44 Name rule {rule}")]
    RuleUnknown { rule: usize },
    /// A rule has more than 1,024 names or 64 comparisons, or counts with the rules before it for more than 8,192: each
    /// rule for one, and each of its names for one.
    #[error("45 Count rule {rule}")]
    RuleCount { rule: usize },
    /// The profile is no UTF-8, is no JSON, nests deeper than 127, or has a number beyond a float's range or half a
    /// surrogate pair.
    #[error("46 Syntax")]
    Syntax,
    /// A set of calls isn't known, or its calls are given not at all, or more than once.
    #[error("49 Set")]
    Set,
    #[error("60 Memory")]
    Memory,
}

impl Fault {
    /// The number at the head of the fault's text.
    pub fn number(&self) -> u16
        ensures { result ≡ fault_number self.now }
    {
        match self {
            Fault::TooLong => 12,
            Fault::Key | Fault::RuleKey { .. } => 41,
            Fault::Range | Fault::RuleRange { .. } => 42,
            Fault::Actions | Fault::RuleActions { .. } => 43,
            Fault::RuleName { .. } | Fault::RuleUnknown { .. } => 44,
            Fault::RuleCount { .. } => 45,
            Fault::Syntax => 46,
            Fault::Set => 49,
            Fault::Memory => 60,
        }
    }
}

impl From<AllocError> for Fault {
    ghost from_gives = { λ _ e. e ≡ Memory };

    fn from(_e: AllocError) -> Fault {
        Fault::Memory
    }
}

impl<T: Drop> From<AllocFailed<T>> for Fault {
    ghost from_gives = { λ _ e. e ≡ Memory };

    fn from(_e: AllocFailed<T>) -> Fault {
        Fault::Memory
    }
}

/// What is wrong with a part of a profile. Of two flaws of a rule, the one that comes first here counts.
#[derive(Clone, Copy, Debug, PartialEq, Eq)]
pub(crate) enum Flaw {
    /// A key, or a value that is of another kind.
    Key,
    /// An action or a comparison that isn't known.
    Actions,
    Range,
}

impl Flaw {
    fn place(self) -> u8
        ensures { result ≡ flaw_place self }
    {
        match self {
            Flaw::Key => 0,
            Flaw::Actions => 1,
            Flaw::Range => 2,
        }
    }

    /// This flaw, unless the other one counts.
    pub(crate) fn first(self, other: Flaw) -> Flaw
        ensures { result ≡ first_flaw self other }
    {
        if other.place() < self.place() {
            other
        } else {
            self
        }
    }

    pub(crate) fn of_head(self) -> Fault
        ensures { result ≡ head_fault self }
    {
        match self {
            Flaw::Key => Fault::Key,
            Flaw::Actions => Fault::Actions,
            Flaw::Range => Fault::Range,
        }
    }

    pub(crate) fn of_rule(self, rule: usize) -> Fault
        ensures { result ≡ rule_fault rule self }
    {
        match self {
            Flaw::Key => Fault::RuleKey { rule },
            Flaw::Actions => Fault::RuleActions { rule },
            Flaw::Range => Fault::RuleRange { rule },
        }
    }
}

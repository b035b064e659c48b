//! What a profile says, set by set, with the numbers of its calls.

ghost use Rattle.std.specs.Prelude.{◌≡◌};
ghost use Rattle.sf_profile.specs.Form.{returned_value_of};
ghost use Rattle.sf_profile.specs.Meaning.{arch_of, is_wide, order, strictness};

use std::marker::Model;

/// A set of calls: the numbers that one architecture's programs call the kernel by.
#[derive(Clone, Copy, Debug, PartialEq, Eq)]
pub enum CallSet {
    /// The 64-bit calls of x86-64.
    X64,
    /// The calls of x86-64 with 32-bit pointers, whose numbers begin at 2^30.
    X32,
    /// The calls of 32-bit x86.
    I386,
    Aarch64,
    /// The calls of 32-bit Arm.
    Arm,
}

/// One of the six arguments of a call.
#[derive(Clone, Copy, Debug, PartialEq, Eq)]
pub enum Argument {
    Arg0,
    Arg1,
    Arg2,
    Arg3,
    Arg4,
    Arg5,
}

/// How an argument is compared with a value.
#[derive(Clone, Copy, Debug, PartialEq, Eq)]
pub enum Comparing {
    NotEqual,
    Less,
    LessOrEqual,
    Equal,
    GreaterOrEqual,
    Greater,
    /// Only the bits under a mask, the first value, are compared. What they have to be is the second value.
    MaskedEqual,
}

/// A comparison of an argument.
#[derive(Clone, Copy, Debug, PartialEq, Eq)]
pub struct Comparison {
    pub argument: Argument,
    pub comparing: Comparing,
    /// The value that it is compared with; for `MaskedEqual` the mask.
    pub value: u64,
    /// For `MaskedEqual` the value of the bits under the mask.
    pub value_two: u64,
}

/// What becomes of a call.
#[derive(Clone, Copy, Debug, PartialEq, Eq)]
pub enum Response {
    KillProcess,
    KillThread,
    /// The thread gets a SIGSYS.
    Trap,
    /// The call isn't made, and this is its error number.
    Errno(u16),
    /// A supervisor decides.
    Notify,
    /// A tracer decides, and is given this number.
    Tracer(u16),
    Log,
    Allow,
}

/// A call of a set.
#[derive(Clone, Copy, Debug, PartialEq, Eq)]
pub struct Call {
    /// The call's number, or that of socketcall or ipc where the call goes through one of these.
    pub number: u32,
    /// Where the call goes through socketcall or ipc: the number in the first argument that stands for it.
    pub operation: Option<u32>,
}

/// A rule in one set of calls: it gives its response to each of its calls for which all its comparisons hold.
#[derive(Debug, Drop)]
pub(crate) struct Rule {
    pub(crate) calls: Vec<Call>,
    pub(crate) comparisons: Vec<Comparison>,
    pub(crate) response: Response,
}

impl Model for Rule {
    ghost use Rattle.sf_profile.specs.Data.{RuleData};

    ghost Value = { RuleData };

    ghost view = { λ r. record {
      calls = r.calls.items;
      comparisons = r.comparisons.items;
      response = r.response;
    } };
}

/// The rules of a set of calls.
#[derive(Debug, Drop)]
pub(crate) struct Part {
    pub(crate) set: CallSet,
    /// The rules that apply, in the profile's order. A rule of the profile may have become several.
    pub(crate) rules: Vec<Rule>,
}

impl Model for Part {
    ghost use Rattle.sf_profile.specs.Data.{SetRulesData};

    ghost Value = { SetRulesData };

    ghost view = { λ p. record { set = p.set; rules = p.rules.items } };
}

/// Which rule counts where several say something of one call.
#[derive(Clone, Copy, Debug, PartialEq, Eq)]
pub enum Reading {
    /// The one whose action has the highest precedence, of equal ones the first.
    Strictest,
    /// The one whose action has the lowest precedence, of equal ones the first.
    Mildest,
    /// The first one without comparisons; where there is none, the first one.
    First,
}

/// A profile with the numbers of its calls.
#[derive(Debug, Drop)]
pub(crate) struct Plan {
    pub(crate) parts: Vec<Part>,
    /// What becomes of a call of these sets about which no rule says anything, unless it fails by `newer`.
    pub(crate) default: Response,
    pub(crate) reading: Reading,
    /// Whether ENOSYS is asked for at calls that are newer than all calls of their set's rules (see `refuses_newer`).
    pub(crate) newer: bool,
}

impl Model for Plan {
    ghost use Rattle.sf_profile.specs.Data.{PlanData};

    ghost Value = { PlanData };

    ghost view = { λ p. record {
      parts = p.parts.items;
      default = p.default;
      reading = p.reading;
      newer = p.newer;
    } };
}

impl CallSet {
    /// The number of the set's architecture, as in the word `arch` of an input. `X64` and `X32` have the same one.
    pub(crate) fn arch(self) -> u32
        ensures { result ≡ arch_of self }
    {
        match self {
            CallSet::X64 | CallSet::X32 => 0xc000003e,
            CallSet::I386 => 0x40000003,
            CallSet::Aarch64 => 0xc00000b7,
            CallSet::Arm => 0x40000028,
        }
    }

    /// Whether arguments have 64 bits; else they have 32.
    pub(crate) fn is_wide(self) -> bool
        ensures { result ≡ is_wide self }
    {
        match self {
            CallSet::X64 | CallSet::Aarch64 => true,
            CallSet::X32 | CallSet::I386 | CallSet::Arm => false,
        }
    }
}

impl Response {
    /// The value that a filter returns for the response: the action in the high 16 bits, and its number, or 0, in the
    /// low ones.
    pub(crate) fn value(self) -> u32
        ensures { result ≡ returned_value_of self }
    {
        match self {
            Response::KillProcess => 0x80000000,
            Response::KillThread => 0,
            Response::Trap => 0x00030000,
            Response::Errno(number) => 0x00050000 + u32::from(number),
            Response::Notify => 0x7fc00000,
            Response::Tracer(number) => 0x7ff00000 + u32::from(number),
            Response::Log => 0x7ffc0000,
            Response::Allow => 0x7fff0000,
        }
    }

    /// The place of the action in the order of precedence: 0 for the one that the kernel prefers to all others, up to
    /// 7.
    pub(crate) fn strictness(self) -> u8
        ensures { result ≡ strictness self }
    {
        match self {
            Response::KillProcess => 0,
            Response::KillThread => 1,
            Response::Trap => 2,
            Response::Errno(_) => 3,
            Response::Notify => 4,
            Response::Tracer(_) => 5,
            Response::Log => 6,
            Response::Allow => 7,
        }
    }
}

impl Reading {
    /// The place of a rule among those that say something of a call, 0 to 7: the rule with the least place counts, of
    /// equal ones the first.
    pub(crate) fn order(self, rule: &Rule) -> u8
        ensures { result ≡ order self rule.now }
    {
        match self {
            Reading::Strictest => rule.response.strictness(),
            Reading::Mildest => 7 - rule.response.strictness(),
            Reading::First => u8::from(!rule.comparisons.is_empty()),
        }
    }
}

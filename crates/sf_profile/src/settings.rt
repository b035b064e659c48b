//! What a profile is read for: a machine, a container and a kernel, with the numbers of calls.

ghost use Rattle.std.specs.Prelude.{◌≡◌, Some, count_by, find, option_map, string_bytes};
ghost use Rattle.std.specs.List.{list_any};
ghost use Rattle.std.specs.Str.{bytes_eq};
ghost use Rattle.sf_names.specs.Names.{is_low_call};
ghost use Rattle.sf_profile.specs.declared.settings.Calls.{Calls as ACalls};
ghost use Rattle.sf_profile.specs.Settings.{calls_of_names, has_calls, has_cap, is_same_set, number_of, number_where, set_of_arch, set_of_names, set_place};

use crate::form::LEAST_OF_X32;
use crate::names::Version;
use crate::rules::{CallSet, Reading};
use sf_names::{Call, Names};

/// The calls of a set, with their numbers.
#[derive(Debug, Drop)]
pub struct Calls {
    set: CallSet,
    names: Names,
}

/// What a profile is read for.
#[derive(Debug, Drop)]
pub struct Settings {
    /// The set that the machine's own programs use.
    pub machine: CallSet,
    /// The capabilities that the container has.
    pub caps: Vec<String>,
    pub kernel: Option<Version>,
    /// Which rule counts where several say something of one call.
    pub conflicts: Reading,
    /// Whether ENOSYS is asked for at calls that are newer than all that the rules that apply name. It isn't heeded
    /// where the default lets calls through, or leaves them to a tracer.
    pub newer: bool,
    /// Whether names of calls that no machine has are passed over; else a profile is refused for such a name.
    pub skip_unknown: bool,
    /// A profile is refused where the calls of a set that it needs aren't among these exactly once.
    pub calls: Vec<Calls>,
}

impl CallSet {
    fn place(self) -> u8
        ensures { result ≡ set_place self }
    {
        match self {
            CallSet::X64 => 0,
            CallSet::X32 => 1,
            CallSet::I386 => 2,
            CallSet::Aarch64 => 3,
            CallSet::Arm => 4,
        }
    }

    pub(crate) fn is_same(self, other: CallSet) -> bool
        ensures { result ≡ is_same_set self other }
    {
        self.place() == other.place()
    }
}

fn count_of(calls: &[Calls], set: CallSet) -> usize
    ensures { result ≡ count_by (λ (c : ACalls). is_same_set c.set set) calls.now }
{
    calls.iter().filter(|one| one.set.is_same(set)).count()
}

fn has_low_call(calls: &[Call]) -> bool
    ensures { result ≡ list_any is_low_call calls.now }
{
    calls.iter().any(|call| call.number() < LEAST_OF_X32)
}

/// The set of calls of the architecture with this number: on x86-64 `X64` if `low`, and else `X32`.
fn set_of_arch(low: bool, arch: u32) -> Option<CallSet>
    ensures { result ≡ set_of_arch low arch }
{
    match arch {
        0xc000003e => Some(if low { CallSet::X64 } else { CallSet::X32 }),
        0x40000003 => Some(CallSet::I386),
        0xc00000b7 => Some(CallSet::Aarch64),
        0x40000028 => Some(CallSet::Arm),
        _ => None,
    }
}

/// The set whose calls these are, by their architecture and their numbers, not by the set's name. For x86-64 it is
/// `X32` where no call has a number below 2^30, and else `X64`.
pub fn set_of_names(names: &Names) -> Option<CallSet>
    ensures { result ≡ set_of_names names.now }
{
    set_of_arch(has_low_call(names.calls()), names.arch())
}

impl Calls {
    /// These names as the calls of their set.
    pub fn of(names: Names) -> Option<Calls>
        ensures { result ≡ calls_of_names names }
    {
        let set = set_of_names(&names)?;
        Some(Calls { set, names })
    }

    pub(crate) fn calls(&self) -> &[Call] {
        self.names.calls()
    }

    /// The number of the first call with this name.
    pub(crate) fn number_of(&self, name: &str) -> Option<u32>
        ensures { result ≡ number_where (Some self.now) name.now }
    {
        self.names.number_of(name)
    }
}

fn calls_of(calls: &[Calls], set: CallSet) -> Option<&Calls>
    ensures { option_map (λ c. c.now) result
        ≡ find (λ (c : ACalls). is_same_set c.set set) calls.now }
{
    calls.iter().find(|one| one.set.is_same(set))
}

fn has_text(texts: &[String], text: &str) -> bool
    ensures { result ≡ list_any (λ t. bytes_eq text.now (string_bytes t)) texts.now }
{
    texts.iter().any(|one| text == one.as_str())
}

impl Settings {
    /// Whether the calls of a set are given exactly once.
    pub(crate) fn has_calls(&self, set: CallSet) -> bool
        ensures { result ≡ has_calls self.now set }
    {
        count_of(&self.calls, set) == 1
    }

    /// The number of the first call with this name among the calls of a set.
    pub(crate) fn number_of(&self, set: CallSet, name: &str) -> Option<u32>
        ensures { result ≡ number_of self.now set name.now }
    {
        match calls_of(&self.calls, set) {
            Some(calls) => calls.number_of(name),
            None => None,
        }
    }

    /// The calls of a set; none where they aren't given.
    pub(crate) fn calls_in(&self, set: CallSet) -> &[Call] {
        match calls_of(&self.calls, set) {
            Some(calls) => calls.calls(),
            None => &[],
        }
    }

    pub(crate) fn has_cap(&self, cap: &str) -> bool
        ensures { result ≡ has_cap self.now cap.now }
    {
        has_text(&self.caps, cap)
    }
}

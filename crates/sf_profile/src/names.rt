//! The texts of a profile, and what they stand for.

ghost use Rattle.std.specs.Prelude.{◌≡◌, ◌≤◌, true};
ghost use Rattle.sf_profile.specs.Profiles.{after_point, arch_name_of_set, argument_numbered, comparing_named, has_data, is_at_least, with_digit, name_of_set, response_named, set_named, up_to, up_to_or, version_of, version_read, version_step};

use crate::rules::{Argument, CallSet, Comparing, Response};

/// The set of calls with this name, as a profile has it at `architectures` and in `archMap`.
pub(crate) fn set_named(text: &str) -> Option<CallSet>
    ensures { result ≡ set_named text.now }
{
    match text {
        "SCMP_ARCH_X86_64" => Some(CallSet::X64),
        "SCMP_ARCH_X32" => Some(CallSet::X32),
        "SCMP_ARCH_X86" => Some(CallSet::I386),
        "SCMP_ARCH_AARCH64" => Some(CallSet::Aarch64),
        "SCMP_ARCH_ARM" => Some(CallSet::Arm),
        _ => None,
    }
}

/// The name of a set, as a profile has it at `architectures` and in `archMap`. (`arch_name_of_set` gives another name.)
pub(crate) fn name_of_set(set: CallSet) -> &'static str
    ensures { result.now ≡ name_of_set set }
{
    match set {
        CallSet::X64 => "SCMP_ARCH_X86_64",
        CallSet::X32 => "SCMP_ARCH_X32",
        CallSet::I386 => "SCMP_ARCH_X86",
        CallSet::Aarch64 => "SCMP_ARCH_AARCH64",
        CallSet::Arm => "SCMP_ARCH_ARM",
    }
}

/// The name of a set, as a profile has it among the `arches` of a rule's `includes` or `excludes`.
pub(crate) fn arch_name_of_set(set: CallSet) -> &'static str
    ensures { result.now ≡ arch_name_of_set set }
{
    match set {
        CallSet::X64 => "amd64",
        CallSet::X32 => "x32",
        CallSet::I386 => "x86",
        CallSet::Aarch64 => "arm64",
        CallSet::Arm => "arm",
    }
}

/// The response that the name of an action in a profile stands for. `number` becomes the number of `Errno` and
/// `Tracer`.
pub(crate) fn response_named(text: &str, number: u16) -> Option<Response>
    ensures { result ≡ response_named text.now number }
{
    match text {
        "SCMP_ACT_ALLOW" => Some(Response::Allow),
        "SCMP_ACT_ERRNO" => Some(Response::Errno(number)),
        "SCMP_ACT_KILL" => Some(Response::KillThread),
        "SCMP_ACT_KILL_THREAD" => Some(Response::KillThread),
        "SCMP_ACT_KILL_PROCESS" => Some(Response::KillProcess),
        "SCMP_ACT_TRAP" => Some(Response::Trap),
        "SCMP_ACT_NOTIFY" => Some(Response::Notify),
        "SCMP_ACT_TRACE" => Some(Response::Tracer(number)),
        "SCMP_ACT_LOG" => Some(Response::Log),
        _ => None,
    }
}

pub(crate) fn comparing_named(text: &str) -> Option<Comparing>
    ensures { result ≡ comparing_named text.now }
{
    match text {
        "SCMP_CMP_NE" => Some(Comparing::NotEqual),
        "SCMP_CMP_LT" => Some(Comparing::Less),
        "SCMP_CMP_LE" => Some(Comparing::LessOrEqual),
        "SCMP_CMP_EQ" => Some(Comparing::Equal),
        "SCMP_CMP_GE" => Some(Comparing::GreaterOrEqual),
        "SCMP_CMP_GT" => Some(Comparing::Greater),
        "SCMP_CMP_MASKED_EQ" => Some(Comparing::MaskedEqual),
        _ => None,
    }
}

/// Whether a response has data of its own: an error number, or what a tracer is given.
pub(crate) fn has_data(response: Response) -> bool
    ensures { result ≡ has_data response }
{
    matches!(response, Response::Errno(_) | Response::Tracer(_))
}

pub(crate) fn up_to(most: u64, number: i128) -> Option<u64>
    ensures { result ≡ up_to most number }
{
    let number = u64::try_from(number).ok()?;
    if number <= most { Some(number) } else { None }
}

pub(crate) fn up_to_or(absent: u64, most: u64, number: Option<i128>) -> Option<u64>
    ensures { result ≡ up_to_or absent most number }
{
    match number {
        None => Some(absent),
        Some(number) => up_to(most, number),
    }
}

/// The argument with this index, from 0. An index above 5 counts as 5; a profile with one is refused.
pub(crate) fn argument_numbered(index: u64) -> Argument
    ensures { result ≡ argument_numbered index }
{
    match index {
        0 => Argument::Arg0,
        1 => Argument::Arg1,
        2 => Argument::Arg2,
        3 => Argument::Arg3,
        4 => Argument::Arg4,
        _ => Argument::Arg5,
    }
}

/// A kernel's version.
#[derive(Clone, Copy, Debug, PartialEq, Eq)]
pub struct Version {
    pub major: u32,
    pub minor: u32,
}

/// What was read of a version.
#[derive(Clone, Copy, Debug)]
pub(crate) struct VersionRead {
    /// The number before the point; none where no point was read yet.
    pub(crate) major: Option<u32>,
    /// The number of the digits behind the point, or of all digits where no point was read yet.
    pub(crate) digits: Option<u32>,
    /// Whether the text can't be a version; then the other fields have no meaning.
    pub(crate) wrong: bool,
}

/// `read` with one digit more. A number above 9999 is wrong.
fn with_digit(read: VersionRead, digit: u8) -> VersionRead
    requires { digit ≤ 9 }
    ensures { result ≡ with_digit read digit }
{
    let so_far = read.digits.unwrap_or(0);
    if so_far < 1000 {
        VersionRead {
            major: read.major,
            digits: Some(10 * so_far + u32::from(digit)),
            wrong: read.wrong,
        }
    } else {
        wrong(read)
    }
}

fn wrong(read: VersionRead) -> VersionRead
    ensures { result ≡ record { major = read.major; digits = read.digits; wrong = true } }
{
    VersionRead {
        major: read.major,
        digits: read.digits,
        wrong: true,
    }
}

/// `read` with a point behind it: `digits` becomes `major`.
fn after_point(read: VersionRead) -> VersionRead
    ensures { result ≡ after_point read read.major read.digits }
{
    match (read.major, read.digits) {
        (None, Some(number)) => VersionRead {
            major: Some(number),
            digits: None,
            wrong: read.wrong,
        },
        _ => wrong(read),
    }
}

fn version_step(read: VersionRead, byte: u8) -> VersionRead
    ensures { result ≡ version_step read byte }
{
    if 48 <= byte && byte <= 57 {
        return with_digit(read, byte - 48);
    }
    if byte == 46 {
        return after_point(read);
    }
    wrong(read)
}

/// The version that a text is: two decimal numbers of at most 9999, with a point between them. Zeros may stand before a
/// number.
pub fn version_of(text: &str) -> Option<Version>
    ensures { result ≡ version_of text.now }
{
    let mut read = VersionRead {
        major: None,
        digits: None,
        wrong: false,
    };
    for byte in text.as_bytes() {
        read = version_step(read, *byte);
    }
    if read.wrong {
        return None;
    }
    Some(Version {
        major: read.major?,
        minor: read.digits?,
    })
}

/// Whether the first version is the second one, or newer.
pub(crate) fn is_at_least(version: Version, other: Version) -> bool
    ensures { result ≡ is_at_least version other }
{
    if version.major == other.major {
        version.minor >= other.minor
    } else {
        version.major > other.major
    }
}

//! What the words behind the options of `profile` say.

ghost use Rattle.std.specs.Prelude.{◌≡◌, IfOk, codes, find, is_none, map, not, option_map, string_bytes, true};
ghost use Rattle.std.specs.List.{list_all, list_any};
ghost use Rattle.std.specs.Str.{bytes_eq};
ghost use Rattle.clap.specs.Words.{found_of, rows_of};
ghost use Rattle.sf_command_line.specs.Options.{paths_of};
ghost use Rattle.sf_evaluate.specs.Profiles.{AreSettings, capabilities, is_capability, is_kernel_or_none, machine_named, reading_named, profile_words_fit};

use super::misfits::Misfit;
use clap::ArgMatches;
use sf_command_line::{skips_unknown, text_of, wants_newer};
use sf_profile::{CallSet, Calls, Reading, Settings, version_of};
use std::alloc::{AllocError, Global};

/// The names of the capabilities of linux/capability.h, in the order of their numbers, 0 to 40.
const CAPABILITIES: [&str; 41] = [
    "CAP_CHOWN",
    "CAP_DAC_OVERRIDE",
    "CAP_DAC_READ_SEARCH",
    "CAP_FOWNER",
    "CAP_FSETID",
    "CAP_KILL",
    "CAP_SETGID",
    "CAP_SETUID",
    "CAP_SETPCAP",
    "CAP_LINUX_IMMUTABLE",
    "CAP_NET_BIND_SERVICE",
    "CAP_NET_BROADCAST",
    "CAP_NET_ADMIN",
    "CAP_NET_RAW",
    "CAP_IPC_LOCK",
    "CAP_IPC_OWNER",
    "CAP_SYS_MODULE",
    "CAP_SYS_RAWIO",
    "CAP_SYS_CHROOT",
    "CAP_SYS_PTRACE",
    "CAP_SYS_PACCT",
    "CAP_SYS_ADMIN",
    "CAP_SYS_BOOT",
    "CAP_SYS_NICE",
    "CAP_SYS_RESOURCE",
    "CAP_SYS_TIME",
    "CAP_SYS_TTY_CONFIG",
    "CAP_MKNOD",
    "CAP_LEASE",
    "CAP_AUDIT_WRITE",
    "CAP_AUDIT_CONTROL",
    "CAP_SETFCAP",
    "CAP_MAC_OVERRIDE",
    "CAP_MAC_ADMIN",
    "CAP_SYSLOG",
    "CAP_WAKE_ALARM",
    "CAP_BLOCK_SUSPEND",
    "CAP_AUDIT_READ",
    "CAP_PERFMON",
    "CAP_BPF",
    "CAP_CHECKPOINT_RESTORE",
];

fn machine_named(text: &str) -> Option<CallSet>
    ensures { result ≡ machine_named text.now }
{
    match text {
        "x86_64" => Some(CallSet::X64),
        "i386" => Some(CallSet::I386),
        "aarch64" => Some(CallSet::Aarch64),
        "arm" => Some(CallSet::Arm),
        _ => None,
    }
}

fn reading_named(text: &str) -> Option<Reading>
    ensures { result ≡ reading_named text.now }
{
    match text {
        "strictest" => Some(Reading::Strictest),
        "mildest" => Some(Reading::Mildest),
        "first" => Some(Reading::First),
        _ => None,
    }
}

fn has_text(texts: &[&str], text: &str) -> bool
    ensures { result ≡ list_any (λ t. bytes_eq text.now t.now) texts.now }
{
    texts.iter().any(|one| text == *one)
}

/// For the prover: `has_text`, said of the texts, not of references to them.
pub(crate) fn is_among(text: &str, texts: &[&str]) -> bool
    ensures { result ≡ list_any (bytes_eq text.now) (map (λ t. t.now) texts.now) }
{
    has_text(texts, text)
}

fn is_capability(text: &str) -> bool
    ensures { result ≡ is_capability text.now }
{
    is_among(text, CAPABILITIES.as_slice())
}

fn unknown_capability<'a, 't>(texts: &'t [&'a str]) -> Option<&'t &'a str>
    ensures { option_map (λ t. t.now) result
        ≡ find (λ t. not (is_capability t.now)) texts.now }
{
    texts.iter().find(|text| !is_capability(text))
}

fn misfit_of_caps<'a>(found: &ArgMatches<'a>) -> Option<Misfit<'a>>
    ensures { is_none result ≡ list_all is_capability (paths_of (codes "cap")
        (rows_of (found_of found.now))) }
{
    let caps = found.get_strs("cap").unwrap_or(&[]);
    let taken = "a name of linux/capability.h, such as CAP_BPF";
    unknown_capability(caps).map(|cap| Misfit::Value("--cap <NAME>", *cap, taken))
}

/// Whether a text is the version of a kernel, such as 6.12, or empty, as where `--kernel` isn't given.
fn is_kernel_or_none(text: &str) -> bool
    ensures { result ≡ is_kernel_or_none text.now }
{
    text.is_empty() || version_of(text).is_some()
}

/// The first option of `profile` with a word that it doesn't take. Only `--machine` must be given.
pub(super) fn misfit_of_profile<'a>(found: &ArgMatches<'a>) -> Option<Misfit<'a>>
    ensures { is_none result ≡ profile_words_fit (rows_of (found_of found.now)) }
{
    let machine = text_of(found, "machine");
    if machine_named(machine).is_none() {
        return Some(Misfit::Value("--machine <MACHINE>", machine, "x86_64, i386, aarch64, arm"));
    }
    let conflicts = text_of(found, "conflicts");
    if reading_named(conflicts).is_none() {
        return Some(Misfit::Value("--conflicts <RULE>", conflicts, "strictest, mildest, first"));
    }
    let kernel = text_of(found, "kernel");
    if !is_kernel_or_none(kernel) {
        let taken = "two numbers with a point between them";
        return Some(Misfit::Value("--kernel <X.Y>", kernel, taken));
    }
    misfit_of_caps(found)
}

/// Whether each word behind `--machine`, `--conflicts`, `--kernel` and `--cap` is one that its option takes.
pub(crate) fn profile_words_fit(found: &ArgMatches<'_>) -> bool
    ensures { result ≡ profile_words_fit (rows_of (found_of found.now)) }
{
    misfit_of_profile(found).is_none()
}

fn strings_of(alloc: Global, texts: &[&str]) -> Result<Vec<String>, AllocError>
    ensures { IfOk result (λ v. map string_bytes v.items ≡ map (λ t. t.now) texts.now) }
{
    let mut strings = Vec::new(alloc);
    for text in texts {
        let string = String::from_str(alloc, text)?;
        strings.push(string)?;
    }
    Ok(strings)
}

/// The settings with which a profile is read: what the options say, and these calls. The words are known, so the values
/// that stand here for unknown ones aren't used.
pub(crate) fn settings_of(
    alloc: Global,
    found: &ArgMatches<'_>,
    calls: Vec<Calls>,
) -> Result<Settings, AllocError>
    requires { profile_words_fit (rows_of (found_of found.now)) ≡ true }
    ensures words { IfOk result (AreSettings (rows_of (found_of found.now))) }
    ensures calls { IfOk result (λ s. s.calls.items ≡ calls.items) }
{
    let caps = found.get_strs("cap").unwrap_or(&[]);
    Ok(Settings {
        machine: machine_named(text_of(found, "machine")).unwrap_or(CallSet::X64),
        caps: strings_of(alloc, caps)?,
        kernel: version_of(text_of(found, "kernel")),
        conflicts: reading_named(text_of(found, "conflicts")).unwrap_or(Reading::Strictest),
        newer: wants_newer(found),
        skip_unknown: skips_unknown(found),
        calls,
    })
}

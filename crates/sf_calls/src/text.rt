//! An input as a call, in words.

ghost use Rattle.std.specs.Prelude.{◌≡◌, ◌++◌, OnOk, find, string_bytes};
ghost use Rattle.std.specs.Option.{option_map};
ghost use Rattle.sf_calls.specs.Texts.{argument_words, arguments_words, call_words, has_call, has_number, is_named, call_name_text, name_words, separator, shown_arguments};

use crate::call::{arguments_in, count_shown};
use sf_insn::Input;
use sf_names::{Call, Names};
use std::alloc::AllocError;

fn call_numbered(calls: &[Call], nr: u32) -> Option<&Call>
    ensures { option_map (λ c. c.now) result ≡ find (has_number nr) calls.now }
{
    calls.iter().find(|call| call.number() == nr)
}

fn has_call(names: &Names, arch: u32, nr: u32) -> bool
    ensures { result ≡ has_call arch nr names.now }
{
    names.arch() == arch && call_numbered(names.calls(), nr).is_some()
}

fn find_call(sets: &[Names], arch: u32, nr: u32) -> Option<&Names>
    ensures { option_map (λ n. n.now) result ≡ find (has_call arch nr) sets.now }
{
    sets.iter().find(|names| has_call(*names, arch, nr))
}

/// Whether one of the sets has a name for the input's call.
pub fn is_named(sets: &[Names], input: &Input) -> bool
    ensures { result ≡ is_named sets.now input.now }
{
    find_call(sets, input.words[1], input.words[0]).is_some()
}

fn name_of(calls: &[Call], nr: u32) -> &str
    ensures { result.now ≡ call_name_text (find (has_number nr) calls.now) }
{
    match call_numbered(calls, nr) {
        Some(call) => call.name(),
        None => "",
    }
}

fn push_name(text: &mut String, set: Option<&Names>, arch: u32, nr: u32) -> Result<(), AllocError>
    ensures { OnOk result (string_bytes text.new ≡ string_bytes text.old
        ++ name_words arch nr (option_map (λ n. n.now) set.entry)) }
{
    match set {
        Some(set) => {
            let (name, call) = (set.set(), name_of(set.calls(), nr));
            write!(text, "{name} {call}")
        }
        None => write!(text, "0x{arch:08X} {nr}"),
    }
}

fn separator(place: usize) -> &'static str
    ensures { result.now ≡ separator place }
{
    if place == 0 { "" } else { ", " }
}

fn push_argument(text: &mut String, place: usize, argument: u64) -> Result<(), AllocError>
    ensures { OnOk result (string_bytes text.new ≡ string_bytes text.old
        ++ argument_words place argument) }
{
    let before = separator(place);
    write!(text, "{before}arg{place} = 0x{argument:X}")
}

fn push_arguments(text: &mut String, arguments: &[u64]) -> Result<(), AllocError>
    ensures { OnOk result (string_bytes text.new ≡ string_bytes text.old
        ++ arguments_words 0 arguments.now) }
{
    for (place, argument) in arguments.iter().enumerate() {
        push_argument(text, place, *argument)?;
    }
    Ok(())
}

fn push_shown(text: &mut String, arguments: &[u64]) -> Result<(), AllocError>
    ensures { OnOk result (string_bytes text.new ≡ string_bytes text.old
        ++ shown_arguments arguments.now) }
{
    let count = count_shown(arguments);
    text.push_str("(")?;
    push_arguments(text, &arguments[..count])?;
    text.push_str(")")?;
    Ok(())
}

/// Adds an input as a call, as `x86_64 ioctl(arg0 = 0x0, arg1 = 0x5412)`.
pub fn push_call_words(text: &mut String, names: &[Names], input: &Input) -> Result<(), AllocError>
    ensures { OnOk result (string_bytes text.new ≡ string_bytes text.old
        ++ call_words names.now input.now) }
{
    let (nr, arch) = (input.words[0], input.words[1]);
    push_name(text, find_call(names, arch, nr), arch, nr)?;
    push_shown(text, arguments_in(input).as_slice())
}

//! The input that `eval` is asked for, by the words of the command line.

ghost use Rattle.std.specs.Prelude.{◌≡◌, ◌&&◌, ◌||◌, ◌⊎◌, IfErr, IfOk, None, Ok, Some, codes, false, is_none, is_ok, not};
ghost use Rattle.clap.specs.Words.{found_of, rows_of};
ghost use Rattle.sf_command_line.specs.Options.{text_of};
ghost use Rattle.sf_calls.specs.Numbers.{is_number, read_arguments, read_number};
ghost use Rattle.sf_names.specs.Names.{is_call_name};
ghost use Rattle.sf_stack.specs.declared.fault.Fault.TheVariants.{Input as InputFault, UnknownName as NameFault};
ghost use Rattle.sf_evaluate.specs.Asking.{AsksInput, IsCallInput, LacksName, asked_arch, asked_nr, eval_words_fit, is_given, is_nr_narrow, numbers_fit};

use super::misfits::{Misfit, Misspelled};
use crate::checking::input_of;
use crate::explaining::{Cause, Notes};
use clap::ArgMatches;
use sf_calls::{are_arguments, call_input, is_number, read_arguments, read_word};
use sf_command_line::text_of;
use sf_insn::Input;
use sf_names::{Names, find_set, is_call_name};
use sf_stack::Fault;

/// Whether the option with this name, without dashes, is given. One with a usual value would always seem to be given.
pub fn is_given(found: &ArgMatches<'_>, name: &str) -> bool
    ensures { result ≡ is_given name.now (rows_of (found_of found.now)) }
{
    found.get_str(name).is_some()
}

const CALL: &str = "--call <NAME>";

const NR: &str = "--nr <N>";

const ARCH: &str = "--arch <SET>";

const ARGS: &str = "--args <A,..>";

/// The first option of a call that is given beside `--input`.
fn misfit_of_input<'a>(found: &ArgMatches<'a>) -> Option<Misfit<'a>>
    ensures { is_none result ≡ (not (is_given (codes "call") (rows_of (found_of found.now))
        || is_given (codes "nr") (rows_of (found_of found.now)))
        && not (is_given (codes "arch") (rows_of (found_of found.now))
        || is_given (codes "args") (rows_of (found_of found.now)))) }
{
    const INPUT: &str = "--input <HEX>";
    if is_given(found, "call") {
        Some(Misfit::Both(INPUT, CALL))
    } else if is_given(found, "nr") {
        Some(Misfit::Both(INPUT, NR))
    } else if is_given(found, "arch") {
        Some(Misfit::Both(INPUT, ARCH))
    } else {
        is_given(found, "args").then(|| Misfit::Both(INPUT, ARGS))
    }
}

fn misfit_of_name<'a>(found: &ArgMatches<'a>) -> Option<Misfit<'a>>
    ensures { is_none result ≡ (is_call_name (text_of (codes "call") (rows_of (found_of found.now)))
        && is_call_name (text_of (codes "arch") (rows_of (found_of found.now)))) }
{
    let (call, arch) = (text_of(found, "call"), text_of(found, "arch"));
    if !is_call_name(call) {
        return Some(Misfit::Value(
            CALL,
            call,
            "1 to 64 letters, digits and _: --nr takes a number",
        ));
    }
    let taken = "the name of a set of calls, such as x86_64";
    (!is_call_name(arch)).then(|| Misfit::Value(ARCH, arch, taken))
}

fn misfit_of_number<'a>(found: &ArgMatches<'a>) -> Option<Misfit<'a>>
    ensures { is_none result ≡ (is_number (text_of (codes "nr") (rows_of (found_of found.now)))
        && (is_number (text_of (codes "arch") (rows_of (found_of found.now)))
        || is_call_name (text_of (codes "arch") (rows_of (found_of found.now))))) }
{
    let (nr, arch) = (text_of(found, "nr"), text_of(found, "arch"));
    if !is_number(nr) {
        return Some(Misfit::Value(NR, nr, "decimal digits, or 0x and hexadecimal digits"));
    }
    let taken = "the name of a set of calls, such as x86_64, or the number of an architecture";
    (!(is_number(arch) || is_call_name(arch))).then(|| Misfit::Value(ARCH, arch, taken))
}

/// The first thing that doesn't fit in the words of `eval`, which ask for one input: by `--input`, or by a call's name
/// or its number, its architecture and its arguments.
pub(super) fn misfit_of_eval<'a>(found: &ArgMatches<'a>) -> Option<Misfit<'a>>
    ensures { is_none result ≡ eval_words_fit (rows_of (found_of found.now)) }
{
    if is_given(found, "input") {
        return misfit_of_input(found);
    }
    let (by_name, by_number) = (is_given(found, "call"), is_given(found, "nr"));
    if by_name && by_number {
        return Some(Misfit::Both(CALL, NR));
    }
    if !by_name && !by_number {
        return Some(Misfit::Missing("--input <HEX>, --call <NAME> or --nr <N>"));
    }
    if !is_given(found, "arch") {
        return Some(Misfit::Missing(ARCH));
    }
    if !is_given(found, "args") {
        return Some(Misfit::Missing(ARGS));
    }
    let args = text_of(found, "args");
    if !are_arguments(args) {
        let taken =
            "one to six numbers with commas between them: decimal digits, or 0x and hexadecimal digits";
        return Some(Misfit::Value(ARGS, args, taken));
    }
    if by_name {
        misfit_of_name(found)
    } else {
        misfit_of_number(found)
    }
}

/// Whether all inputs of a call with a name are asked for.
pub(super) fn asks_all_inputs(found: &ArgMatches<'_>) -> bool {
    is_given(found, "call") && !is_given(found, "args")
}

/// The text of `--input`, where it spells no input, or the first number of a call that doesn't fit into its place.
pub(crate) fn misspelled<'a>(found: &ArgMatches<'a>) -> Option<Misspelled<'a>>
    ensures { is_none result ≡ numbers_fit (rows_of (found_of found.now)) }
{
    if is_given(found, "input") {
        let input = text_of(found, "input");
        return input_of(input).is_err().then(|| Misspelled::Input(input));
    }
    let args = text_of(found, "args");
    if read_arguments(args).is_err() {
        return Some(Misspelled::Number("args", args, 64));
    }
    if !is_given(found, "nr") {
        return None;
    }
    let (nr, arch) = (text_of(found, "nr"), text_of(found, "arch"));
    if read_word(nr).is_err() {
        return Some(Misspelled::Number("nr", nr, 32));
    }
    let is_wide = is_number(arch) && read_word(arch).is_err();
    is_wide.then(|| Misspelled::Number("arch", arch, 32))
}

/// Whether nothing is misspelled. `eval` asks this before it reads any file.
pub fn numbers_fit(found: &ArgMatches<'_>) -> bool
    ensures { result ≡ numbers_fit (rows_of (found_of found.now)) }
{
    misspelled(found).is_none()
}

fn word_of(text: &str) -> Result<u32, Fault>
    ensures read { IfOk result (λ n. read_number 32 text.now ≡ Ok n) }
    ensures refused { IfErr result (λ e. (e ≡ InputFault)
        × (is_ok (read_number 32 text.now) ≡ false)) }
{
    let number = read_word(text).map_err(|_| Fault::Input)?;
    Ok(number)
}

fn asked_nr(found: &ArgMatches<'_>, names: &[Names]) -> Result<u32, Fault>
    ensures asked { IfOk result (λ n. asked_nr (rows_of (found_of found.now))
        names.now ≡ Some n) }
    ensures refused { IfErr result (λ e. ((e ≡ InputFault)
        × (is_nr_narrow (rows_of (found_of found.now)) ≡ false))
        ⊎ ((e ≡ NameFault) × (asked_nr (rows_of (found_of found.now)) names.now ≡ None))) }
{
    if is_given(found, "nr") {
        return word_of(text_of(found, "nr"));
    }
    match find_set(names, text_of(found, "arch")) {
        Some(set) => set
            .number_of(text_of(found, "call"))
            .ok_or(Fault::UnknownName),
        None => Err(Fault::UnknownName),
    }
}

/// The architecture. With `--call`, the text of `--arch` is the name of a set, even if it looks like a number.
fn asked_arch(found: &ArgMatches<'_>, names: &[Names], notes: &mut Notes) -> Result<u32, Fault>
    ensures asked { IfOk result (λ n. asked_arch (rows_of (found_of found.now))
        names.now ≡ Some n) }
    ensures refused { IfErr result (λ e. ((e ≡ InputFault)
        × (is_nr_narrow (rows_of (found_of found.now)) ≡ false))
        ⊎ ((e ≡ NameFault) × (asked_arch (rows_of (found_of found.now)) names.now ≡ None))) }
{
    if is_given(found, "nr") && is_number(text_of(found, "arch")) {
        return word_of(text_of(found, "arch"));
    }
    match find_set(names, text_of(found, "arch")) {
        Some(set) => Ok(set.arch()),
        None => {
            notes.cause = Some(Cause::UnknownSet);
            Err(Fault::UnknownName)
        }
    }
}

/// The input of the call that is asked for. Its arguments are refused first, then its architecture, then its number.
fn asked_call(found: &ArgMatches<'_>, names: &[Names], notes: &mut Notes) -> Result<Input, Fault>
    ensures asked { IfOk result (λ d. IsCallInput (rows_of (found_of found.now)) names.now d) }
    ensures refused { IfErr result (λ e. ((e ≡ InputFault)
        × ((is_ok (read_arguments (text_of (codes "args") (rows_of (found_of found.now))))
        ≡ false)
        ⊎ (is_nr_narrow (rows_of (found_of found.now)) ≡ false)))
        ⊎ ((e ≡ NameFault) × LacksName (rows_of (found_of found.now)) names.now)) }
{
    let arguments = read_arguments(text_of(found, "args")).map_err(|_| Fault::Input)?;
    let arch = asked_arch(found, names, notes)?;
    let nr = asked_nr(found, names)?;
    Ok(call_input(nr, arch, &arguments))
}

/// The input that the words ask for.
pub fn asked_input(
    found: &ArgMatches<'_>,
    names: &[Names],
    notes: &mut Notes,
) -> Result<Input, Fault>
    ensures asked { IfOk result (λ d. AsksInput (rows_of (found_of found.now)) names.now d) }
    ensures refused { IfErr result (λ e. ((e ≡ InputFault)
        × (numbers_fit (rows_of (found_of found.now)) ≡ false))
        ⊎ ((e ≡ NameFault) × LacksName (rows_of (found_of found.now)) names.now)) }
{
    if is_given(found, "input") {
        return input_of(text_of(found, "input"));
    }
    asked_call(found, names, notes)
}

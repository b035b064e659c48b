//! What `--explain-errors` shows of a fault under its line. It is for a person: contracts say only when it may be
//! shown.

mod hints;
mod kinds;
mod meanings;
mod policies;
mod refusals;

ghost use Rattle.std.specs.Prelude.{◌≡◌, IfOk, None, Some, false};
ghost use Rattle.std.specs.Option.{option_map_or};
ghost use Rattle.clap.specs.Words.{subcommand_rows_of};
ghost use Rattle.sf_command_line.specs.Options.{IsUnasked};
ghost use Rattle.sf_evaluate.specs.declared.explaining.Cause.TheVariants.{Policy};
ghost use Rattle.sf_stack.specs.declared.fault.Fault.TheVariants.{Syntax};

use crate::files::{FileRead, FileRole, filter_of};
use crate::words::{is_given, misspelled, push_misspelled};
use clap::ArgMatches;
use hints::{Hint, INPUT, hint_of_kind, hint_of_read, hint_of_refusal, is_at_front};
pub(crate) use kinds::{Kind, bytes_of_text, kind_of};
use meanings::meaning_of;
use policies::Page;
use sf_command_line::{text_of, wants_explanation};
use sf_policy::{Refusal, position_of};
use sf_profile::Refused;
use sf_stack::Fault;
use std::alloc::{AllocError, Global};
use std::fmt::InlineText;

/// The most bytes of the words that say which policy is refused: `policy` and a number.
pub(crate) const WHICH: usize = 32;

/// Why a run failed, beyond what its fault says.
#[derive(Drop)]
pub enum Cause {
    /// A policy of these bytes is refused: it is no UTF-8 where there is no refusal.
    Policy(Vec<u8>, Option<Refusal>),
    Profile(Refused),
    /// The set at this place, from 0, of those of all files of names, is none of the five of `CallSet`; and its name.
    OtherSet(usize, String),
    /// No file of names has this call of those behind `--calls`.
    UnknownCall(String),
    /// No file of names has the set behind `eval --arch`.
    UnknownSet,
}

/// What a run notes for a person beside its result: which file it reads, why it failed, warnings, and the text that
/// explains a fault.
#[derive(Drop)]
pub struct Notes {
    /// `None` also where there was no memory to say it.
    pub cause: Option<Cause>,
    /// For each file of names how many sets it has, and how many there are with those of the files before it.
    pub(crate) sets: Vec<(usize, usize)>,
    /// The file that is read, or that failed; `None` where a run failed for another reason, but for want of memory.
    pub last: Option<FileRead>,
    /// Which policy is refused, such as `policy 2` or `control`; empty where it is the only one, and before `explain`.
    pub(crate) which: InlineText<WHICH>,
    /// The lines that explain the fault, where they are asked for and there is memory for them.
    pub explanation: Option<String>,
    /// The lines of warnings; an error where there was no memory for them.
    pub warnings: Result<String, AllocError>,
}

impl Notes {
    /// The notes before any file is read.
    pub fn new(alloc: Global) -> Notes
        ensures nothing_read { (result.cause ≡ None) × (result.last ≡ None) }
        ensures unexplained { result.explanation ≡ None }
    {
        Notes {
            cause: None,
            sets: Vec::new(alloc),
            last: None,
            which: InlineText::new(),
            explanation: None,
            warnings: Ok(String::new(alloc)),
        }
    }

    /// Keeps why a policy of these bytes is refused, and gives the fault: it is no UTF-8 where there is no refusal.
    pub fn take_refusal(&mut self, bytes: Vec<u8>, refusal: Option<Refusal>) -> Fault
        ensures same { result ≡ option_map_or (λ r. r.fault) refusal Syntax }
        ensures kept { self.new.cause ≡ Some (Policy bytes refusal) }
        ensures file { self.new.last ≡ self.old.last }
    {
        let fault = match &refusal {
            Some(refusal) => refusal.fault,
            None => Fault::Syntax,
        };
        self.cause = Some(Cause::Policy(bytes, refusal));
        fault
    }

    /// Keeps which of the policies is refused for the fault with which a run ended, if it did, and the lines that
    /// explain it, where the matches or `explains` ask for them. `reason` says why a file can't be read.
    pub fn explain(
        &mut self,
        alloc: Global,
        matches: &ArgMatches<'_>,
        ran: &Result<u8, crate::Fault>,
        explains: bool,
        reason: &str,
    )
        ensures ok { IfOk ran.now (λ _. self.new ≡ self.old) }
        ensures unasked { explains ≡ false → IsUnasked (subcommand_rows_of matches.now)
            → self.old.explanation ≡ None → self.new.explanation ≡ None }
        ensures kept { (self.new.cause ≡ self.old.cause) × (self.new.last ≡ self.old.last) }
    {
        if let Err(fault) = ran {
            if let (crate::Fault::Other(other), Some((_, found))) = (fault, matches.subcommand()) {
                self.which = which_policy(found, other, &self.last);
            }
            self.explanation = explanation(alloc, matches, fault, self, explains, reason);
        }
    }
}

/// Which of the policies is refused for a fault for which this file failed. One that can't be read isn't refused.
fn which_policy(
    found: &ArgMatches<'_>,
    fault: &Fault,
    file: &Option<FileRead>,
) -> InlineText<WHICH> {
    let Some(file) = file else {
        return InlineText::new();
    };
    let paths = found.get_strs("policy").unwrap_or(&[]);
    match file.role {
        _ if matches!(fault, Fault::Read | Fault::Memory) => InlineText::new(),
        FileRole::Policy if paths.len() > 1 => {
            let place = paths.iter().position(|path| *path == file.path.as_str());
            let number = place.unwrap_or(0).saturating_add(1);
            InlineText::of(format_args!("policy {number}"))
        }
        FileRole::Control => InlineText::of("control"),
        _ => InlineText::new(),
    }
}

/// A run that ended with a fault.
#[derive(Drop)]
struct Case<'a, 'm> {
    alloc: Global,
    found: &'a ArgMatches<'m>,
    notes: &'a Notes,
    /// Why a file can't be read; empty where that isn't known.
    reason: &'a str,
}

impl Case<'_, '_> {
    /// The file that failed, if this fault is that of a file.
    fn file_of(&self, fault: &Fault) -> Option<&FileRead> {
        match fault {
            Fault::Memory => None,
            _ => self.notes.last.as_ref(),
        }
    }

    /// Adds the line of the file that failed, and where it is a policy that is refused, lines that say where.
    fn push_file(
        &self,
        text: &mut String,
        fault: &Fault,
        file: &FileRead,
    ) -> Result<(), AllocError> {
        let (name, path) = (file.role.name(), file.path.as_str());
        if *fault == Fault::Read {
            let reason = self.reason;
            write!(text, "file {path:?}")?;
            if !reason.is_empty() {
                write!(text, ": {reason}")?;
            }
            return text.push_str("\n");
        }
        if let Some(filter) = filter_of(fault) {
            return write!(text, "filter {filter} {path:?}\n");
        }
        let Some(Cause::Policy(whole, refusal)) = &self.notes.cause else {
            return write!(text, "{name} {path:?}\n");
        };
        write!(text, "policy {path:?}\n")?;
        let bytes = bytes_of_text(whole);
        // A byte order mark: the place of a TOML error counts its bytes, and lines and columns here don't.
        let hidden = whole.len().saturating_sub(bytes.len());
        match (std::str::from_utf8(bytes), refusal) {
            (Ok(policy), Some(refusal)) => Page {
                alloc: self.alloc,
                text,
                policy,
            }
            .push_refusal(refusal, hidden),
            (Ok(_), None) => Ok(()),
            (Err(error), _) => {
                let (line, column) = position_of(bytes, error.valid_up_to());
                write!(text, "line {line} column {column}: no UTF-8\n")
            }
        }
    }

    /// Adds the line of the name that is unknown: in the text of `--calls`, or behind `--arch`, or behind `--call`.
    fn push_unknown(&self, text: &mut String) -> Result<(), AllocError> {
        let (set, call) = (text_of(self.found, "arch"), text_of(self.found, "call"));
        match &self.notes.cause {
            Some(Cause::UnknownCall(call)) => write!(text, "call {call:?}\n"),
            Some(Cause::UnknownSet) => write!(text, "set {set:?}\n"),
            _ => write!(text, "call {call:?} of the set {set:?}\n"),
        }
    }

    /// Adds the lines that say where a fault lies: in which file, or in which word of the command line.
    fn push_place(&self, text: &mut String, fault: &Fault) -> Result<(), AllocError> {
        if let Some(file) = self.file_of(fault) {
            return self.push_file(text, fault, file);
        }
        match fault {
            Fault::Input => match misspelled(self.found) {
                Some(misspelled) => push_misspelled(text, &misspelled),
                None => Ok(()),
            },
            Fault::UnknownName => self.push_unknown(text),
            _ => Ok(()),
        }
    }

    /// The hint at what may have been meant by what is refused with this fault.
    fn hint_of(&self, fault: &Fault) -> Option<Hint> {
        let Some(file) = self.file_of(fault) else {
            let is_input = *fault == Fault::Input && is_given(self.found, "input");
            return is_input.then(|| Hint::Sentence(INPUT));
        };
        if *fault == Fault::Read {
            return hint_of_read(file, self.reason);
        }
        match (hint_of_kind(file, is_at_front(fault)), &self.notes.cause) {
            (None, Some(Cause::Policy(_, Some(refusal)))) => hint_of_refusal(refusal),
            (hint, _) => hint,
        }
    }

    /// The lines that explain a fault: where it lies, what it means, and a hint where there is one.
    fn fault_text(&self, fault: &Fault) -> Result<String, AllocError> {
        let mut text = String::new(self.alloc);
        self.push_place(&mut text, fault)?;
        let role = self.notes.last.as_ref().map(|file| file.role);
        let meaning = match fault {
            Fault::Input if !is_given(self.found, "input") => {
                "a number with too many bits for its place"
            }
            _ => meaning_of(fault, role),
        };
        write!(text, "{meaning}\n")?;
        if let Some(hint) = self.hint_of(fault) {
            hint.push(&mut text)?;
        }
        Ok(text)
    }
}

/// The lines that explain a fault, where they are asked for, and there is memory for them.
fn explanation(
    alloc: Global,
    matches: &ArgMatches<'_>,
    fault: &crate::Fault,
    notes: &Notes,
    explains: bool,
    reason: &str,
) -> Option<String>
    ensures { explains ≡ false → IsUnasked (subcommand_rows_of matches.now)
        → result ≡ None }
{
    let (_, found) = matches.subcommand()?;
    if !explains && !wants_explanation(found) {
        return None;
    }
    let case = Case {
        alloc,
        found,
        notes,
        reason,
    };
    match fault {
        crate::Fault::Profile(refusal) => case.refusal_text(*refusal).ok(),
        crate::Fault::Other(other) => case.fault_text(other).ok(),
    }
}

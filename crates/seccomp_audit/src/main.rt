//! Audits a stack of seccomp filters: hands the system's files and streams to the command line.
#![tactic(auto)]

mod auto;
mod disk;
mod installed;
mod meter;
mod version;

use auto::{Refusal, with_policy};
use disk::Disk;
use meter::Progress;
use sf_command::{Means, command};
use sf_evaluate::tell_fault;
use sf_stack::Fault;
use std::env::{Env, FillError};
use std::io::{ErrorKind, IsTerminal, Write};
use std::process::ExitCode;
use std::{env, io};
use version::VERSION;

/// The variable of the environment that has `1` where each fault is to be explained, and `0` where none is.
const EXPLAIN: &str = "SECCOMP_AUDIT_EXPLAIN";

/// The arguments after the program's name. The name isn't read, so it needn't be UTF-8.
#[derive(Drop)]
struct AfterName<'a, R> {
    rt: &'a R,
}

impl<R: Env> Env for AfterName<'_, R> {
    fn arg(&self, i: usize, buf: &mut [u8]) -> Result<usize, FillError> {
        match i.checked_add(1) {
            Some(next) => self.rt.arg(next, buf),
            None => Err(FillError::NotPresent),
        }
    }

    fn var(&self, name: &str, buf: &mut [u8]) -> Result<usize, FillError> {
        self.rt.var(name, buf)
    }

    fn var_at(&self, i: usize, buf: &mut [u8]) -> Result<usize, FillError> {
        self.rt.var_at(i, buf)
    }
}

/// The words after the program's name. An error where one of them isn't UTF-8.
fn words_of(rt: &HostRuntime) -> io::Result<Vec<String>> {
    let words = env::args(&(AfterName { rt }, rt.alloc()))?;
    Ok(words.collect(rt.alloc())?)
}

/// Whether each fault is to be explained: the variable that `EXPLAIN` names is `1`; or it isn't `0`, and a person sees
/// standard error. A longer value than 8 bytes isn't read, and says neither.
fn asks_to_explain<R: Env>(rt: &R, is_seen: bool) -> bool {
    let mut value = [0u8; 8];
    match rt.var(EXPLAIN, &mut value) {
        Ok(1) if value[0] == b'1' => true,
        Ok(1) if value[0] == b'0' => false,
        _ => is_seen,
    }
}

/// Writes to standard error why there are no words, and gives the exit status. `error` is one of `words_of`. It isn't
/// looked at whether the write succeeds, here and below.
fn no_words<E: Write>(error: &io::Error, err: &mut E) -> u8 {
    if error.kind() == ErrorKind::OutOfMemory {
        return tell_fault(&sf_evaluate::Fault::Other(Fault::Memory), err);
    }
    let _ = err.write_all(
        "error: invalid UTF-8 was detected in one or more arguments\n".as_bytes(),
    );
    4
}

/// Writes to standard error why there is no policy for `@auto`, and gives the exit status.
fn no_policy<E: Write>(refusal: &Refusal, explains: bool, err: &mut E) -> u8 {
    match refusal {
        Refusal::Memory => tell_fault(&sf_evaluate::Fault::Other(Fault::Memory), err),
        Refusal::Unread(reason) => {
            let status = tell_fault(&sf_evaluate::Fault::Other(Fault::Read), err);
            if explains {
                let _ = err.write_all(reason.as_bytes());
            }
            status
        }
        Refusal::Tested(text) => {
            let _ = err.write_all(text.as_bytes());
            4
        }
    }
}

/// Runs the command line over the files, the streams and the clock of the system. Gives the exit status, as `command`
/// has it; or that of `no_words` or `no_policy`, where there are no words for it.
fn main(rt: HostRuntime) -> ExitCode {
    let mut err = rt.stderr();
    let words = match words_of(&rt) {
        Ok(words) => words,
        Err(error) => return ExitCode::from(no_words(&error, &mut err)),
    };
    let explains = asks_to_explain(&rt, err.is_terminal());
    let mut disk = Disk::new(&rt, explains);
    let chosen = match with_policy(rt.alloc(), &words, &mut disk) {
        Ok(chosen) => chosen,
        Err(refusal) => {
            disk.close();
            return ExitCode::from(no_policy(&refusal, explains, &mut err));
        }
    };
    let words = chosen.unwrap_or(words);
    let mut out = rt.stdout();
    let meter = Progress::new(&rt);
    let means = Means {
        rt: &rt,
        alloc: rt.alloc(),
        gate: &meter,
    };
    let status = command(&means, VERSION, &words, &mut disk, &mut out, &mut err);
    disk.close();
    ExitCode::from(status)
}

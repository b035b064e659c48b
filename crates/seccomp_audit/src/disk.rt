//! The files of the system, as the command line reads them.

use crate::installed::{is_installed_name, places_of};
use sf_evaluate::{Files, MOST_BYTES};
use sf_stack::Fault;
use std::env::Env;
use std::fmt::{Display, InlineText};
use std::fs::File;
use std::io::{ErrorKind, Read};
use std::rt::Files as FileSystem;
use std::{io, mem};

/// The most bytes of a reason that are kept. A longer reason is cut.
const REASON: usize = 1024;

/// The path that stands for standard input.
const STANDARD_INPUT: &str = "-";

/// What stands before the name of a file that comes with the program.
const INSTALLED: char = '@';

/// The files of the system, and its standard input, which can be read once.
pub struct Disk<'a, R> {
    /// What files are opened by.
    rt: &'a R,
    /// Why the last file that was refused could not be read, in words for a person; empty while no file was refused.
    reason: InlineText<REASON>,
    /// Whether each fault is to be explained.
    explains: bool,
    /// Whether standard input was read.
    is_input_read: bool,
    /// Files that were read ahead: their paths and bytes, in order.
    ahead: Vec<(String, Vec<u8>)>,
}

/// The bytes of standard input. Where it is longer than `MOST_BYTES`, only one byte more than that is read, which shows
/// the caller that it is too long.
fn bytes_of_input<R: Input + AllocGlobal>(rt: &R) -> io::Result<Vec<u8>> {
    let mut bytes = Vec::new(rt.alloc());
    rt.reader()
        .take(MOST_BYTES as u64 + 1)
        .read_to_end(&mut bytes)?;
    Ok(bytes)
}

/// The bytes of a file, as those of standard input.
fn bytes_of<R: FileSystem + AllocGlobal>(rt: &R, path: &str) -> io::Result<Vec<u8>> {
    let mut bytes = Vec::new(rt.alloc());
    let file = File::open(rt, path)?;
    file.take(MOST_BYTES as u64 + 1).read_to_end(&mut bytes)?;
    Ok(bytes)
}

fn is_missing(read: &io::Result<Vec<u8>>) -> bool {
    match read {
        Ok(_) => false,
        Err(error) => error.kind() == ErrorKind::NotFound,
    }
}

impl<'a, R: AllocGlobal> Disk<'a, R> {
    /// The files of a system, of which none was read. `explains` tells whether each fault is to be explained.
    pub fn new(rt: &'a R, explains: bool) -> Disk<'a, R> {
        Disk {
            rt,
            reason: InlineText::new(),
            explains,
            is_input_read: false,
            ahead: Vec::new(rt.alloc()),
        }
    }

    /// Ends the use of the files. A value is dropped only where its type is `Drop`, and this one isn't.
    pub fn close(self) {
        let Disk {
            rt: _,
            reason: _,
            explains: _,
            is_input_read: _,
            ahead: _,
        } = self;
    }

    /// Keeps the reason, and gives the fault of a file that can't be read.
    fn refuse<D: Display + Drop>(&mut self, reason: D) -> Fault {
        self.reason = InlineText::of(reason);
        Fault::Read
    }

    /// Keeps the reason, and gives the fault: `Memory` where an allocation was refused, and else `Read`.
    fn refuse_for(&mut self, error: &io::Error, place: &str) -> Fault {
        let fault = self.refuse(format_args!("{place}{error}"));
        if error.kind() == ErrorKind::OutOfMemory {
            Fault::Memory
        } else {
            fault
        }
    }

    /// What was read, unless it is too long. `place` stands before the system's reason.
    fn taken(&mut self, read: io::Result<Vec<u8>>, place: &str) -> Result<Vec<u8>, Fault> {
        match read {
            Ok(bytes) => {
                if bytes.len() <= MOST_BYTES {
                    Ok(bytes)
                } else {
                    Err(self.refuse(format_args!("{place}more than {MOST_BYTES} bytes")))
                }
            }
            Err(error) => Err(self.refuse_for(&error, place)),
        }
    }
}

impl<R: FileSystem + Input + Env + AllocGlobal> Disk<'_, R> {
    /// Standard input, which counts as read from then on, also after an error. `Read` for the second time.
    fn read_input(&mut self) -> Result<Vec<u8>, Fault> {
        if self.is_input_read {
            return Err(self.refuse(format_args!("standard input is read only once")));
        }
        self.is_input_read = true;
        let read = bytes_of_input(self.rt);
        self.taken(read, "")
    }

    /// The first file that is there of those at these places. `Read` where none is; and where that file can't be read,
    /// so that another isn't taken for it.
    fn read_first(&mut self, places: &[String]) -> Result<Vec<u8>, Fault> {
        let mut tried = String::new(self.rt.alloc());
        for place in places {
            let read = bytes_of(self.rt, place);
            if !is_missing(&read) {
                tried.clear();
                tried.push_str(place)?;
                tried.push_str(": ")?;
                return self.taken(read, &tried);
            }
            tried.push_str(if tried.is_empty() {
                "there is no "
            } else {
                ", and no "
            })?;
            tried.push_str(place)?;
        }
        Err(self.refuse(tried.as_str()))
    }

    fn read_now(&mut self, path: &str) -> Result<Vec<u8>, Fault> {
        if path == STANDARD_INPUT {
            return self.read_input();
        }
        match path.strip_prefix(INSTALLED) {
            Some(name) => self.read_installed(name),
            None => {
                let read = bytes_of(self.rt, path);
                self.taken(read, "")
            }
        }
    }

    /// The bytes of the file at a path, which the next `read` of this path gives again: the file may be a pipe.
    pub fn read_ahead(&mut self, path: &str) -> Result<Vec<u8>, Fault> {
        let alloc = self.rt.alloc();
        let bytes = self.read_now(path)?;
        self.ahead
            .push((String::from_str(alloc, path)?, bytes.clone()?))?;
        Ok(bytes)
    }

    /// The first of the files that were read ahead from this path, which is given but once.
    fn ahead_of(&mut self, path: &str) -> Option<Vec<u8>> {
        let mut ahead = self.ahead.iter();
        let place = ahead.position(|(name, _)| name.as_str() == path)?;
        if place < self.ahead.len() {
            let (_, bytes) = self.ahead.remove(place);
            Some(bytes)
        } else {
            None
        }
    }

    /// The file with this name that comes with the program.
    fn read_installed(&mut self, name: &str) -> Result<Vec<u8>, Fault> {
        if !is_installed_name(name) {
            return Err(self.refuse("behind @ stands a name of letters, digits, - and _"));
        }
        match places_of(self.rt, name) {
            Ok(places) => self.read_first(&places),
            Err(error) => Err(self.refuse_for(&error, "")),
        }
    }
}

impl<R: FileSystem + Input + Env + AllocGlobal> Files for Disk<'_, R> {
    /// The bytes of the file at a path; `-` is standard input, and `@NAME` a file that comes with the program. Where it
    /// was read ahead, this is what was read.
    fn read(&mut self, path: &str) -> Result<Vec<u8>, Fault> {
        let read = match self.ahead_of(path) {
            Some(bytes) => Ok(bytes),
            None => self.read_now(path),
        };
        // For the prover: `taken` has seen that the bytes are few enough, and other faults don't come.
        match read {
            Ok(bytes) if bytes.len() <= MOST_BYTES => Ok(bytes),
            Err(Fault::Memory) => Err(Fault::Memory),
            _ => Err(Fault::Read),
        }
    }

    fn reason(&self) -> &str {
        self.reason.as_str()
    }

    fn explains(&self) -> bool {
        self.explains
    }

    /// Gives no memory back: the process ends next, and the system takes all of it at once. To free each allocation
    /// would take 5 to 10 % more instructions.
    fn take_over<T: Drop>(&self, found: T) {
        mem::forget(found);
    }
}

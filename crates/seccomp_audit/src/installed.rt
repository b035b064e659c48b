//! Where the files stand that come with the program: ready policies, and names of calls.

use std::env::{Env, VarError};
use std::io::ErrorKind;
use std::rt::Files as FileSystem;
use std::{env, io};

/// The variable of the environment that has the path of the only folder in which such files are looked for.
const SHARE: &str = "SECCOMP_AUDIT_SHARE";

/// The folders in which they are looked for where it isn't known where the program stands.
const SHARES: [&str; 2] = ["/usr/local/share/seccomp_audit", "/usr/share/seccomp_audit"];

/// The folders of a checkout, from its top, in which the program may stand.
const BUILT: [&str; 3] = ["/out/proved", "/out/unproved", "/crates/seccomp_audit/out"];

/// The most bytes of the program's name that are read.
const PATH: usize = 4096;

/// Whether a text can be the name of such a file, without the end of its path.
pub fn is_installed_name(text: &str) -> bool {
    !text.is_empty()
        && text.bytes().all(|byte| byte.is_ascii_alphanumeric() || byte == b'-' || byte == b'_')
}

/// The folder that the environment names, if it does.
fn share_of<R: Env + AllocGlobal>(rt: &R) -> io::Result<Option<String>> {
    match env::var(rt, SHARE) {
        Ok(share) => Ok(Some(share)),
        Err(VarError::NotPresent) => Ok(None),
        Err(VarError::NotUnicode) => Err(io::Error::from(ErrorKind::InvalidData)),
        Err(VarError::OutOfMemory) => Err(io::Error::from(ErrorKind::OutOfMemory)),
    }
}

/// The word by which the program was called. `None` where the program is to be looked for in the folders of `PATH`.
fn first_word<R: Env + AllocGlobal>(rt: &R) -> io::Result<Option<String>> {
    let mut bytes = [0u8; PATH];
    let Ok(length) = rt.arg(0, &mut bytes) else {
        return Ok(None);
    };
    let word = bytes.get(..length).unwrap_or(&[]);
    match std::str::from_utf8(word) {
        Ok(word) if word.contains('/') => Ok(Some(String::from_str(rt.alloc(), word)?)),
        _ => Ok(None),
    }
}

/// The path of the program, where the system tells it, or the word by which it was called.
fn program<R: FileSystem + Env + AllocGlobal>(rt: &R) -> io::Result<Option<String>> {
    match env::current_exe(rt) {
        Ok(path) => Ok(Some(path.into_string())),
        Err(error) if error.kind() == ErrorKind::OutOfMemory => Err(error),
        Err(_) => first_word(rt),
    }
}

/// The top of the checkout in which the program stands in this folder, if it is one.
fn checkout_of(folder: &str) -> Option<&str> {
    for built in BUILT {
        if let Some(top) = folder.strip_suffix(built) {
            return Some(top);
        }
    }
    None
}

/// The folders in which such files are looked for, in this order.
fn shares_of<R: FileSystem + Env + AllocGlobal>(rt: &R) -> io::Result<Vec<String>> {
    let alloc = rt.alloc();
    let mut shares = Vec::new(alloc);
    if let Some(share) = share_of(rt)? {
        shares.push(share)?;
        return Ok(shares);
    }
    let program = program(rt)?;
    match program.as_ref().and_then(|path| path.rsplit_once('/')) {
        Some((folder, _)) => {
            shares.push(format!(in alloc; "{folder}/../share/seccomp_audit")?)?;
            if let Some(top) = checkout_of(folder) {
                shares.push(String::from_str(alloc, top)?)?;
            }
        }
        None => {
            for share in SHARES {
                shares.push(String::from_str(alloc, share)?)?;
            }
        }
    }
    Ok(shares)
}

/// The paths at which the file with a name is looked for, in this order.
pub fn places_of<R: FileSystem + Env + AllocGlobal>(rt: &R, name: &str) -> io::Result<Vec<String>> {
    let alloc = rt.alloc();
    let mut places = Vec::new(alloc);
    for share in &shares_of(rt)? {
        places.push(format!(in alloc; "{share}/policies/{name}.toml")?)?;
    }
    Ok(places)
}

//! The calls that the names of a rule stand for.

ghost use Rattle.std.specs.Prelude.{◌≡◌, ◌++◌, ◌<◌, map, length, IfOk, IfSome, OnOk};
ghost use Rattle.std.specs.List.{flat_map};
ghost use Rattle.serde_json.specs.View.{view};
ghost use Rattle.sf_profile.specs.Trees.{text_in};
ghost use Rattle.sf_profile.specs.Plans.{calls_named, direct_call, ipc_call, ipc_calls, place_from, socket_call, socket_calls};

use crate::rules::{Call, CallSet};
use crate::settings::Settings;
use crate::tree::text_of;
use serde_json::Value;
use std::alloc::{AllocError, Global};

/// The calls that i386 has behind `socketcall`, by their numbers there from 1 (`SYS_SOCKET` and so on in Linux's
/// include/uapi/linux/net.h).
const SOCKET_CALLS: [&str; 20] = [
    "socket",
    "bind",
    "connect",
    "listen",
    "accept",
    "getsockname",
    "getpeername",
    "socketpair",
    "send",
    "recv",
    "sendto",
    "recvfrom",
    "shutdown",
    "setsockopt",
    "getsockopt",
    "sendmsg",
    "recvmsg",
    "accept4",
    "recvmmsg",
    "sendmmsg",
];

/// The calls that i386 has behind `ipc`: four with numbers from 1, four from 11 and four from 21 (`SEMOP` and
/// so on in Linux's include/uapi/linux/ipc.h).
const IPC_CALLS: [&str; 12] = [
    "semop",
    "semget",
    "semctl",
    "semtimedop",
    "msgsnd",
    "msgrcv",
    "msgget",
    "msgctl",
    "shmat",
    "shmdt",
    "shmget",
    "shmctl",
];

pub(crate) fn place_of(name: &str, names: &[&str]) -> Option<usize>
    ensures value { result ≡ place_from 0 name.now (map (λ n. n.now) names.now) }
    ensures small { IfSome result (λ n. n < length names.now) }
{
    for (i, other) in names.iter().enumerate() {
        if name == *other {
            return Some(i);
        }
    }
    None
}

pub(crate) fn place_of_socket_call(name: &str) -> Option<usize>
    ensures value { result ≡ place_from 0 name.now socket_calls }
    ensures small { IfSome result (λ n. n < 20) }
{
    place_of(name, SOCKET_CALLS.as_slice())
}

pub(crate) fn place_of_ipc_call(name: &str) -> Option<usize>
    ensures value { result ≡ place_from 0 name.now ipc_calls }
    ensures small { IfSome result (λ n. n < 12) }
{
    place_of(name, IPC_CALLS.as_slice())
}

/// Adds the call with this number, if there is one; it doesn't go through another call.
fn push_direct(calls: &mut Vec<Call>, number: Option<u32>) -> Result<(), AllocError>
    ensures { OnOk result (calls.new.items ≡ calls.old.items ++ direct_call number) }
{
    if let Some(number) = number {
        calls.push(Call {
            number,
            operation: None,
        })?;
    }
    Ok(())
}

/// The number of `socketcall`, in Linux's arch/x86/entry/syscalls/syscall_32.tbl.
const SOCKETCALL: u32 = 102;

/// The number of `ipc`, there.
const IPC: u32 = 117;

/// Adds the call with this name that goes through `socketcall`, if one does. Its `operation` is the
/// name's place, from 1.
fn push_socket_call(calls: &mut Vec<Call>, name: &str) -> Result<(), AllocError>
    ensures { OnOk result (calls.new.items ≡ calls.old.items
        ++ socket_call (place_from 0 name.now socket_calls)) }
{
    if let Some(place) = place_of_socket_call(name) {
        calls.push(Call {
            number: SOCKETCALL,
            operation: Some(place as u32 + 1),
        })?;
    }
    Ok(())
}

/// Adds the call with this name that goes through `ipc`, if one does. Its `operation` is 1 to 4, 11
/// to 14 or 21 to 24, in the order of `IPC_CALLS`.
fn push_ipc_call(calls: &mut Vec<Call>, name: &str) -> Result<(), AllocError>
    ensures { OnOk result (calls.new.items ≡ calls.old.items
        ++ ipc_call (place_from 0 name.now ipc_calls)) }
{
    if let Some(place) = place_of_ipc_call(name) {
        let place = place as u32;
        calls.push(Call {
            number: IPC,
            operation: Some(place / 4 * 10 + place % 4 + 1),
        })?;
    }
    Ok(())
}

/// Adds the calls that a name stands for in a set. On i386 they may go through `socketcall` or `ipc`, if
/// the rule compares nothing: the arguments of such a call aren't where comparisons look.
fn push_named(
    calls: &mut Vec<Call>,
    settings: &Settings,
    set: CallSet,
    compares_nothing: bool,
    name: &str,
) -> Result<(), AllocError>
    ensures { OnOk result (calls.new.items ≡ calls.old.items
        ++ calls_named settings.now set compares_nothing name.now) }
{
    push_direct(calls, settings.number_of(set, name))?;
    if set.is_same(CallSet::I386) && compares_nothing {
        push_socket_call(calls, name)?;
        push_ipc_call(calls, name)?;
    }
    Ok(())
}

/// The calls that the names of a rule stand for in a set.
pub(crate) fn calls_of(
    alloc: Global,
    settings: &Settings,
    set: CallSet,
    compares_nothing: bool,
    names: &[Value],
) -> Result<Vec<Call>, AllocError>
    ensures { IfOk result (λ v. v.items
        ≡ flat_map (calls_named settings.now set compares_nothing)
        (map text_in (map view names.now))) }
{
    let mut calls = Vec::new(alloc);
    for value in names {
        push_named(&mut calls, settings, set, compares_nothing, text_of(value))?;
    }
    Ok(calls)
}

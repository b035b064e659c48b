//! What a fault means, in words for a person.

use crate::files::FileRole;
use sf_stack::Fault;

/// `role` is that of the file that failed, if one did.
pub(crate) fn meaning_of(fault: &Fault, role: Option<FileRole>) -> &'static str {
    match fault {
        Fault::Ragged { .. } => "the length of the file is no multiple of 8",
        Fault::Empty { .. } => "the file is empty",
        Fault::TooLong { .. } => "more than 4096 instructions",
        Fault::Code { .. } => "a code that isn't permitted",
        Fault::Field { .. } => {
            "a load of no word of the input or no scratch word, a division by 0, a shift by 32 or more"
        }
        Fault::Jump { .. } => "a jump or a test that leads outside the filter",
        Fault::Last { .. } => "the last instruction is no return",
        Fault::Scratch { .. } => "a load of a scratch word that some path hasn't stored",
        Fault::NoFilter => "no filter",
        Fault::TooMany => "more than 64 filters",
        Fault::PathLength => "a path length above 32768",
        Fault::TooLarge { .. } => "the answers take more nodes of decision diagrams",
        Fault::TooManyRows => {
            "more rows than are listed, or more tests of a word than are followed; more nodes don't help, fewer filters or calls may"
        }
        Fault::Version => "no version, or neither 1 nor 2",
        Fault::TopKey | Fault::Key { .. } => {
            "an unknown key, a missing one, or a value of another kind: a call is named by its number"
        }
        Fault::Range { .. } => "a number outside 0 to 4294967295, or a low end above the high end",
        Fault::Actions { .. } => "no action, or an unknown one",
        Fault::Name { .. } => "a name that isn't 1 to 64 printable bytes without spaces",
        Fault::Count => "no question, or more than 256",
        Fault::Syntax => match role {
            Some(FileRole::Names) => "the file of names is no UTF-8 or no TOML",
            Some(FileRole::Accept) => "the file of questions that may be allowed is no UTF-8",
            Some(FileRole::Groups) => {
                "the file of groups is no UTF-8 or no TOML, or a group hasn't just name, title, why and questions"
            }
            _ => "the policy is no UTF-8 or no TOML",
        },
        Fault::Input => "the input isn't 128 hexadecimal digits",
        Fault::Mask { .. } => "a value with a bit outside its mask",
        Fault::NamesKey => {
            "an unknown key, a missing one, a value of another kind, a name with other signs than letters, digits and _, or a set of calls that was there with another number or name"
        }
        Fault::NamesCount => "more than 64 sets of calls, or more than 1024 calls in one",
        Fault::NamesRange => "a number outside 0 to 4294967295",
        Fault::UnknownName => {
            "a name that no file of names has for a call or a set of calls, or not in the set that --arch names"
        }
        Fault::Accepted { .. } => {
            "a line that isn't the name of one question: two names, or a name that no question has, or several"
        }
        Fault::Read => "a file can't be read, or has more than 1 MiB",
        Fault::Write => "standard output can't be written, or a signal interrupted that",
        Fault::Memory => "memory ran out",
    }
}

/// What a fault of a profile means. Not every cause is named: `Key` comes also where the file has no profile.
pub(crate) fn meaning_of_refusal(refusal: sf_profile::Fault) -> &'static str {
    match refusal {
        sf_profile::Fault::TooLong => "the filter of the profile has more than 4096 instructions",
        sf_profile::Fault::Key | sf_profile::Fault::RuleKey { .. } => {
            "an unknown key, a missing one, a value of another kind, or one that doesn't go with another key: minKernel wants --kernel"
        }
        sf_profile::Fault::Range | sf_profile::Fault::RuleRange { .. } => {
            "a number outside its range: index 0 to 5, value 0 to 18446744073709551615, errnoRet 0 to 65535"
        }
        sf_profile::Fault::Actions | sf_profile::Fault::RuleActions { .. } => {
            "an unknown action or comparison"
        }
        sf_profile::Fault::RuleName { .. } => "a name that isn't 1 to 64 letters, digits and _",
        sf_profile::Fault::RuleUnknown { .. } => {
            "a name that no set of calls has: mistyped, or newer than the files of names? --skip-unknown passes over it"
        }
        sf_profile::Fault::RuleCount { .. } =>
            "more than 1024 names or 64 comparisons, or with the rules before more than 8192 rules and names",
        sf_profile::Fault::Syntax => "the profile is no UTF-8 or no JSON, or nests deeper than 127",
        sf_profile::Fault::Set => {
            "a set of calls that isn't known, or that no file of names has: policies/names.toml has all five"
        }
        sf_profile::Fault::Memory => "memory ran out",
    }
}

ghost use Rattle.std.specs.Prelude.{◌≡◌, find, option_map};
ghost use Rattle.std.specs.List.{list_all};
ghost use Rattle.sf_names.specs.Names.{has_name, has_set, is_call_name, is_name_byte, number_of_call};

use std::marker::Model;

/// The most calls of a set. Linux has fewer than 500 on each architecture.
pub(crate) const MOST_CALLS: usize = 1024;

/// A call: its number and its name.
#[derive(Debug, Drop)]
pub struct Call {
    pub(crate) number: u32,
    pub(crate) name: String,
}

impl Model for Call {
    ghost use Rattle.std.specs.Prelude.{string_bytes};
    ghost use Rattle.sf_names.specs.Names.{CallData};

    ghost Value = { CallData };

    ghost view = { λ c. record { number = c.number; name = string_bytes c.name } };
}

impl Call {
    /// The number, by which programs of the set's architecture call the kernel.
    pub fn number(&self) -> u32
        ensures { result ≡ self.now.number }
    {
        self.number
    }

    /// The name: 1 to 64 letters, digits and `_`.
    pub fn name(&self) -> &str
        ensures { result.now ≡ self.now.name }
    {
        self.name.as_str()
    }
}

/// A named set of calls of an architecture.
#[derive(Debug, Drop)]
pub struct Names {
    pub(crate) set: String,
    pub(crate) arch: u32,
    pub(crate) calls: Vec<Call>,
}

impl Model for Names {
    ghost use Rattle.std.specs.Prelude.{string_bytes};
    ghost use Rattle.sf_names.specs.Names.{NamesData};

    ghost Value = { NamesData };

    ghost view = { λ n. record {
      set = string_bytes n.set;
      arch = n.arch;
      calls = n.calls.items;
    } };
}

impl Names {
    /// The name of the set.
    pub fn set(&self) -> &str
        ensures { result.now ≡ self.now.set }
    {
        self.set.as_str()
    }

    /// The number of the architecture, as in the word `arch` of an input.
    pub fn arch(&self) -> u32
        ensures { result ≡ self.now.arch }
    {
        self.arch
    }

    /// The calls, in the order of their numbers.
    pub fn calls(&self) -> &[Call]
        ensures { result.now ≡ self.now.calls }
    {
        self.calls.as_slice()
    }

    /// The number of the first call with this name.
    pub fn number_of(&self, name: &str) -> Option<u32>
        ensures { result ≡ number_of_call self.now name.now }
    {
        Some(call_named(self.calls.as_slice(), name)?.number)
    }
}

fn call_named<'a>(calls: &'a [Call], name: &str) -> Option<&'a Call>
    ensures { option_map (λ c. c.now) result ≡ find (has_name name.now) calls.now }
{
    for call in calls {
        if call.name.as_str() == name {
            return Some(call);
        }
    }
    None
}

/// The first set with this name.
pub fn find_set<'a>(sets: &'a [Names], set: &str) -> Option<&'a Names>
    ensures { option_map (λ n. n.now) result ≡ find (has_set set.now) sets.now }
{
    for names in sets {
        if names.set.as_str() == set {
            return Some(names);
        }
    }
    None
}

fn is_name_byte(byte: u8) -> bool
    ensures { result ≡ is_name_byte byte }
{
    let digit = 0x30 <= byte && byte <= 0x39;
    let capital = 0x41 <= byte && byte <= 0x5a;
    let small = 0x61 <= byte && byte <= 0x7a;
    (digit || capital) || (small || byte == 0x5f)
}

fn are_name_bytes(bytes: &[u8]) -> bool
    ensures { result ≡ list_all is_name_byte bytes.now }
{
    bytes.iter().all(|byte| is_name_byte(*byte))
}

/// Whether a text can be the name of a call or a set: 1 to 64 letters, digits and `_`.
pub fn is_call_name(text: &str) -> bool
    ensures { result ≡ is_call_name text.now }
{
    1 <= text.len() && text.len() <= 64 && are_name_bytes(text.as_bytes())
}

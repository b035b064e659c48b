ghost use Rattle.std.specs.Prelude.{◌≡◌, ◌<◌};
ghost use Rattle.sf_diagram.specs.Trees.{bits_with};
ghost use Rattle.sf_behaviour.specs.InputBits.{number_by, input_by};

use sf_behaviour::first_variable;
use sf_insn::Input;

fn is_true(variables: &[u16], variable: u16) -> bool
    ensures { result ≡ bits_with variables.now variable }
{
    variables.iter().any(|v| *v == variable)
}

/// The number of a word of which some variables are true; `first` is that of its highest bit.
fn number_of(variables: &[u16], first: u16) -> u32
    requires { first < 16384 }
    ensures { result ≡ number_by first 1 32 (bits_with variables.now) }
{
    let mut number: u32 = 0;
    for bit in 0..32u16 {
        if is_true(variables, first + (31 - bit)) {
            number += 1 << bit;
        }
    }
    number
}

/// The input of which just these variables are true.
pub(crate) fn input_of(variables: &[u16]) -> Input
    ensures { result ≡ input_by (bits_with variables.now) }
{
    let mut words = [0u32; 16];
    for word in 0..16 {
        words[word] = number_of(variables, first_variable(word));
    }
    Input { words }
}

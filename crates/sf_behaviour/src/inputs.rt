//! Where the words of an input stand among the variables of diagrams.

ghost use Rattle.std.specs.Prelude.{◌≡◌, ◌<◌};
ghost use Rattle.sf_behaviour.specs.InputBits.{input_first};

/// The architecture, as a word of 32 variables: the variables of registers are words 0 to 17.
pub const ARCH_WORD: u16 = 18;

/// The number of the call, as a word of 32 variables.
pub const NR_WORD: u16 = 19;

/// How many variables stand before those of the input: the bits of A, X and the scratch words.
pub(crate) const REGISTER_BITS: u16 = 18 * 32;

/// Where each word of the input stands in the order of the variables: architecture, number of the call, arguments,
/// instruction pointer, of two halves the upper one first.
const PLACES: [u16; 16] = [1, 0, 15, 14, 3, 2, 5, 4, 7, 6, 9, 8, 11, 10, 13, 12];

/// The variable of the highest bit of a word of the input; the others follow it.
pub fn first_variable(word: usize) -> u16
    requires { word < 16 }
    ensures is { result ≡ input_first word }
    ensures small { result < 16384 }
{
    REGISTER_BITS + 32 * PLACES[word]
}

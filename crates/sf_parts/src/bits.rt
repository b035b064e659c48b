//! Bits of numbers.

ghost use Rattle.std.specs.Prelude.{◌≡◌, ◌+◌, ◌-◌, ◌%◌, ◌^◌, ◌<◌, ◌≤◌, ◌==◌};
ghost use Rattle.std.specs.Int.{bit_at};
ghost use Rattle.sf_parts.specs.Runs.{mask_for};
ghost use Rattle.sf_parts.specs.Parts.{with_bit};

pub(crate) fn has_bit(number: u32, bit: u32) -> bool
    requires { bit < 32 }
    ensures { result ≡ (bit_at number bit == 1) }
{
    number >> bit & 1 == 1
}

pub(crate) fn weight(bit: u32) -> u32
    requires { bit < 32 }
    ensures { result ≡ 2 ^ bit }
{
    1 << bit
}

/// A number with the bit that a variable tests.
pub(crate) fn with_bit(number: u32, variable: u16) -> u32
    ensures { result ≡ with_bit number variable }
{
    number | weight(31 - variable as u32 % 32)
}

pub(crate) fn low_bits(number: u32, bits: u32) -> u32
    requires { bits ≤ 32 }
    ensures { result ≡ number % 2 ^ bits }
{
    (number as u64 % (1 << bits)) as u32
}

/// The mask under which the numbers of a word are listed: the bits that are tested, or all bits where at most two are
/// missing besides those below the lowest of them.
pub(crate) fn mask_of(tested: u32) -> u32
    ensures { result ≡ mask_for tested }
{
    if tested.count_ones() + tested.trailing_zeros() >= 30 {
        u32::MAX
    } else {
        tested
    }
}

//! The input that a call is, and the arguments of an input.

ghost use Rattle.std.specs.Prelude.{◌≡◌, ◌≤◌, ◌%◌, ◌/◌, ◌^◌, length};
ghost use Rattle.sf_calls.specs.Calls.{arguments_in, call_input, count_shown, whole_of};

use sf_insn::Input;

fn low_half(number: u64) -> u32
    ensures { result ≡ number % 2 ^ 32 }
{
    (number % 0x1_0000_0000) as u32
}

fn high_half(number: u64) -> u32
    ensures { result ≡ number / 2 ^ 32 }
{
    (number / 0x1_0000_0000) as u32
}

/// The input of a call. Its instruction pointer, the third and the fourth word, is 0. Each argument is two words, the
/// low half first.
pub fn call_input(nr: u32, arch: u32, arguments: &[u64; 6]) -> Input
    ensures { result ≡ call_input nr arch arguments.now }
{
    let [a, b, c, d, e, f] = *arguments;
    Input {
        words: [
            nr,
            arch,
            0,
            0,
            low_half(a),
            high_half(a),
            low_half(b),
            high_half(b),
            low_half(c),
            high_half(c),
            low_half(d),
            high_half(d),
            low_half(e),
            high_half(e),
            low_half(f),
            high_half(f),
        ],
    }
}

fn whole_of(low: u32, high: u32) -> u64
    ensures { result ≡ whole_of low high }
{
    u64::from(high) * 0x1_0000_0000 + u64::from(low)
}

pub(crate) fn arguments_in(input: &Input) -> [u64; 6]
    ensures { result ≡ arguments_in input.now }
{
    [
        whole_of(input.words[4], input.words[5]),
        whole_of(input.words[6], input.words[7]),
        whole_of(input.words[8], input.words[9]),
        whole_of(input.words[10], input.words[11]),
        whole_of(input.words[12], input.words[13]),
        whole_of(input.words[14], input.words[15]),
    ]
}

pub(crate) fn count_shown(arguments: &[u64]) -> usize
    ensures count { result ≡ count_shown arguments.now }
    ensures few { result ≤ length arguments.now }
{
    let mut count = 0;
    for (place, argument) in arguments.iter().enumerate() {
        if *argument != 0 {
            count = place + 1;
        }
    }
    count
}

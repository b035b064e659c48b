//! The guards: what is known of a word, of which `v` was known, once it is compared with a number. Where no number is
//! left, the ends of the result are crossed, or a bit is known to be both 0 and 1 in it.

ghost use Rattle.std.specs.Prelude.{◌≡◌, ◌≢◌, ℕ, ◌+◌, ◌-◌, ◌*◌, ◌/◌, ◌%◌, ◌<◌, ◌≤◌, ◌^◌};
ghost use Rattle.sf_dom.specs.Rules.{nothing, at_least, at_most, more_than, less_than, past, some_of, none_of};

use crate::known::Known;

/// What is known of the two words of a test.
#[derive(Clone, Copy, Debug, PartialEq, Eq)]
pub(crate) struct Pair {
    pub(crate) node: Known,
    pub(crate) other: Known,
}

/// What is known where no number is left.
fn nothing() -> Known
    ensures { result ≡ nothing }
{
    Known::interval(1, 0)
}

pub(crate) fn at_least(v: Known, number: u32) -> Known
    ensures { result ≡ at_least number v }
{
    Known {
        low: v.low.max(number),
        ..v
    }
}

pub(crate) fn at_most(v: Known, number: u32) -> Known
    ensures { result ≡ at_most number v }
{
    Known {
        high: v.high.min(number),
        ..v
    }
}

#[tactic(auto, using(std::proofs::lemmas::Bool::Decides::nat_tests))]
pub(crate) fn more_than(v: Known, number: u32) -> Known
    ensures { result ≡ more_than number v }
{
    if number == u32::MAX {
        return nothing();
    }
    at_least(v, number + 1)
}

#[tactic(auto, using(std::proofs::lemmas::Bool::Decides::nat_tests))]
pub(crate) fn less_than(v: Known, number: u32) -> Known
    ensures { result ≡ less_than number v }
{
    if number == 0 {
        return nothing();
    }
    at_most(v, number - 1)
}

/// Once the word isn't `number`: an end of the interval that equals it moves past it.
#[tactic(auto, using(std::proofs::lemmas::Bool::Decides::nat_tests))]
pub(crate) fn other_than(v: Known, number: u32) -> Known
    ensures { result ≡ past number v }
{
    let mut at = v;
    if at.low == number {
        at = more_than(at, number);
    }
    if at.high == number {
        at = less_than(at, number);
    }
    at
}

/// Once all of these bits are 0 in the word.
pub(crate) fn no_common_bit(v: Known, bits: u32) -> Known
    ensures { result ≡ none_of bits v }
{
    Known {
        zeros: v.zeros | bits,
        ..v
    }
}

/// Once at least one of these bits is 1 in the word: where all but one are known to be 0, this one is 1.
#[tactic(auto, using(std::proofs::lemmas::Bool::Decides::nat_tests))]
pub(crate) fn common_bit(v: Known, bits: u32) -> Known
    ensures { result ≡ some_of bits v }
{
    let open = bits & !v.zeros;
    if open == 0 {
        return nothing();
    }
    // The lowest of the bits that aren't known to be 0: is it the only one?
    let place = open.trailing_zeros();
    if place < 32 && open == 1u32 << place {
        return Known {
            ones: v.ones | open,
            ..v
        };
    }
    v
}

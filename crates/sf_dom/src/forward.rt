//! The transfer functions: what is known of the result of each operation, by what is known of its operands. Each result
//! is promised where no operand's interval has crossed ends (its `low` above its `high`).

ghost use Rattle.std.specs.Prelude.{◌≡◌, ℕ, ◌+◌, ◌-◌, ◌*◌, ◌/◌, ◌%◌, ◌<◌, ◌≤◌, ◌^◌, if◌then◌else◌, ◌==◌, bit_and, bit_or, bit_xor};
ghost use Rattle.sf_dom.specs.Rules.{forward_known, forward_negated, moved_left, moved_right};

use crate::known::Known;
use sf_insn::BinOp;

/// What is known of a sum: something only where none wraps, or each does. No bit of it is known.
#[tactic(auto, using(crate::proofs::Tests::test_steps), unfolding(crate::specs::Rules::forward_known))]
fn add(a: Known, b: Known) -> Known
    ensures { a.low ≤ a.high → b.low ≤ b.high → result
        ≡ forward_known BinOp.Add a b }
{
    let fits = a.high <= u32::MAX - b.high;
    let wraps = a.low > u32::MAX - b.low;
    if fits || wraps {
        Known::interval(a.low.wrapping_add(b.low), a.high.wrapping_add(b.high))
    } else {
        Known::top()
    }
}

/// What is known of a difference: something only where none wraps, or each does. No bit of it is known.
#[tactic(auto, using(crate::proofs::Tests::test_steps), unfolding(crate::specs::Rules::forward_known))]
fn sub(a: Known, b: Known) -> Known
    ensures { a.low ≤ a.high → b.low ≤ b.high → result
        ≡ forward_known BinOp.Sub a b }
{
    if a.low >= b.high || a.high < b.low {
        Known::interval(a.low.wrapping_sub(b.high), a.high.wrapping_sub(b.low))
    } else {
        Known::top()
    }
}

/// What is known of a product: something only where that of the high ends fits 32 bits.
#[tactic(auto, using(crate::proofs::Tests::test_steps), unfolding(crate::specs::Rules::forward_known))]
fn mul(a: Known, b: Known) -> Known
    ensures { a.low ≤ a.high → b.low ≤ b.high → result
        ≡ forward_known BinOp.Mul a b }
{
    match a.high.checked_mul(b.high) {
        Some(high) => Known::interval(a.low.wrapping_mul(b.low), high),
        None => Known::top(),
    }
}

/// What is known of a quotient, which is 0 where the divisor is 0.
#[tactic(auto, using(crate::proofs::Tests::test_steps), unfolding(crate::specs::Rules::forward_known))]
fn div(a: Known, b: Known) -> Known
    ensures { a.low ≤ a.high → b.low ≤ b.high → result
        ≡ forward_known BinOp.Div a b }
{
    // The second comparison follows from the first, unless the ends are crossed.
    if b.low >= 1 && b.high >= 1 {
        Known::interval(a.low / b.high, a.high / b.low)
    } else {
        Known::interval(0, a.high)
    }
}

#[tactic(auto, using(crate::proofs::Tests::test_steps), unfolding(crate::specs::Rules::forward_known))]
fn or(a: Known, b: Known) -> Known
    ensures { result ≡ forward_known BinOp.Or a b }
{
    Known {
        low: a.low.max(b.low),
        high: u32::MAX,
        zeros: a.zeros & b.zeros,
        ones: a.ones | b.ones,
    }
}

#[tactic(auto, using(crate::proofs::Tests::test_steps), unfolding(crate::specs::Rules::forward_known))]
fn and(a: Known, b: Known) -> Known
    ensures { result ≡ forward_known BinOp.And a b }
{
    Known {
        low: 0,
        high: a.high.min(b.high),
        zeros: a.zeros | b.zeros,
        ones: a.ones & b.ones,
    }
}

#[tactic(auto, using(crate::proofs::Tests::test_steps), unfolding(crate::specs::Rules::forward_known))]
fn xor(a: Known, b: Known) -> Known
    ensures { result ≡ forward_known BinOp.Xor a b }
{
    Known {
        low: 0,
        high: u32::MAX,
        zeros: (a.zeros & b.zeros) | (a.ones & b.ones),
        ones: (a.zeros & b.ones) | (a.ones & b.zeros),
    }
}

/// What is known of a word that is shifted to the left by `s` bits. Its ends are shifted only where the high one loses
/// no bit.
fn shift_left_by(a: Known, s: u32) -> Known
    requires { s < 32 }
    ensures { a.low ≤ a.high → result ≡ moved_left a s }
{
    let zeros = (a.zeros << s) | !(u32::MAX << s);
    let ones = a.ones << s;
    if a.high <= u32::MAX >> s {
        Known {
            low: a.low << s,
            high: a.high << s,
            zeros,
            ones,
        }
    } else {
        Known {
            low: 0,
            high: u32::MAX,
            zeros,
            ones,
        }
    }
}

/// What is known of a word that is shifted to the right by `s` bits.
fn shift_right_by(a: Known, s: u32) -> Known
    requires { s < 32 }
    ensures { result ≡ moved_right a s }
{
    Known {
        low: a.low >> s,
        high: a.high >> s,
        zeros: (a.zeros >> s) | !(u32::MAX >> s),
        ones: a.ones >> s,
    }
}

/// What is known of a shift to the left, which goes by the second operand modulo 32.
#[tactic(auto, using(crate::proofs::Tests::test_steps), unfolding(crate::specs::Rules::forward_known))]
fn shift_left(a: Known, b: Known) -> Known
    ensures { a.low ≤ a.high → result ≡ forward_known BinOp.Lsh a b }
{
    match b.decided() {
        Some(bits) => shift_left_by(a, bits % 32),
        None => Known::top(),
    }
}

/// What is known of a shift to the right, which goes by the second operand modulo 32.
#[tactic(auto, using(crate::proofs::Tests::test_steps), unfolding(crate::specs::Rules::forward_known))]
fn shift_right(a: Known, b: Known) -> Known
    ensures { result ≡ forward_known BinOp.Rsh a b }
{
    match b.decided() {
        Some(bits) => shift_right_by(a, bits % 32),
        None => Known::interval(0, a.high),
    }
}

/// What is known of the result of an operation, by what is known of its operands.
pub(crate) fn forward(op: BinOp, a: Known, b: Known) -> Known
    ensures { a.low ≤ a.high → b.low ≤ b.high → result ≡ forward_known op a b }
{
    match op {
        BinOp::Add => add(a, b),
        BinOp::Sub => sub(a, b),
        BinOp::Mul => mul(a, b),
        BinOp::Div => div(a, b),
        BinOp::Or => or(a, b),
        BinOp::And => and(a, b),
        BinOp::Lsh => shift_left(a, b),
        BinOp::Rsh => shift_right(a, b),
        BinOp::Xor => xor(a, b),
    }
}

/// What is known of the negation of a word: 2^32 minus the word, or 0 where the word is 0.
#[tactic(auto, using(crate::proofs::Tests::test_steps), unfolding(crate::specs::Rules::forward_negated))]
pub(crate) fn negate(a: Known) -> Known
    ensures { a.low ≤ a.high → result ≡ forward_negated a }
{
    // The second comparison follows from the first, unless the ends are crossed.
    if a.low >= 1 && a.high >= 1 {
        Known::interval(a.high.wrapping_neg(), a.low.wrapping_neg())
    } else if a.high == 0 {
        Known::interval(0, 0)
    } else {
        Known::top()
    }
}

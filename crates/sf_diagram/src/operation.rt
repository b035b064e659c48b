//! What a merge makes of two numbers.

ghost use Rattle.std.specs.Prelude.{◌≡◌, ℕ, true};
ghost use Rattle.sf_diagram.specs.Operations.{folded_of, looser_of, merged_of, pair_of, pretended_of, rank, reach_by};

/// What is made of the numbers that two trees have on an input.
#[derive(Clone, Copy, Debug, PartialEq, Eq)]
pub enum Operation {
    /// The answer of filters: the first number is the answer of the newer ones, and the second is that of the older
    /// ones, or what a single older one returns. The older one counts where its action has precedence. A fold that
    /// begins with an ALLOW without data has no data in any ALLOW.
    Fold,
    /// 1 where a call gets further by the second answer than by the first, else 0.
    Looser,
    /// 1 where a call gets less far by the second answer than by the first, else 0.
    Tighter,
    /// 1 where the numbers differ, else 0.
    Different,
    /// 1 where the second answer is ERRNO with data 0 and the first is another one, else 0. Such a call isn't made, and
    /// is reported as done.
    Pretended,
    /// 0 where the numbers are equal; else both as one number, the first in the upper half of its bits. This tells
    /// numbers below 2^32 apart, as return values of filters are.
    Pair,
    /// The first number with the second, 0 or 1, as one more bit behind it, modulo 2^64.
    NextBit,
}

/// The rank of an action's number; the action of the lowest rank has precedence. The unsigned order of ranks is the
/// signed order of these numbers as words.
fn rank_of(action: u64) -> u64
    ensures { result ≡ rank action }
{
    action.wrapping_add(0x80000000) % 0x1_0000_0000
}

/// Of two return values the one that counts.
fn folded(newer: u64, older: u64) -> u64
    ensures { result ≡ folded_of newer older }
{
    if rank_of(older & 0xffff0000) < rank_of(newer & 0xffff0000) {
        older
    } else {
        newer
    }
}

/// How far an action lets a call get: 2, it is carried out; 1, another process decides; 0, it is refused.
fn reach(action: u64) -> u64
    ensures { result ≡ reach_by action }
{
    if action == 0x7fff0000 || action == 0x7ffc0000 {
        2
    } else if action == 0x7ff00000 || action == 0x7fc00000 {
        1
    } else {
        0
    }
}

/// 1 where a call gets further by the second answer than by the first, else 0.
fn looser(before: u64, after: u64) -> u64
    ensures { result ≡ looser_of before after }
{
    if reach(before & 0xffff0000) < reach(after & 0xffff0000) {
        1
    } else {
        0
    }
}

/// 1 where the second answer is ERRNO with data 0 and the first is another one, else 0.
fn pretended(before: u64, after: u64) -> u64
    ensures { result ≡ pretended_of before after }
{
    if before != after && after == 0x00050000 {
        1
    } else {
        0
    }
}

/// 0 for equal numbers, else both as one number.
fn pair(first: u64, second: u64) -> u64
    ensures { result ≡ pair_of first second }
{
    if first == second {
        0
    } else {
        first % 0x1_0000_0000 * 0x1_0000_0000 + second % 0x1_0000_0000
    }
}

impl Operation {
    /// What the operation makes of two numbers.
    pub fn apply(self, first: u64, second: u64) -> u64
        ensures { result ≡ merged_of self first second }
    {
        match self {
            Operation::Fold => folded(first, second),
            Operation::Looser => looser(first, second),
            Operation::Tighter => looser(second, first),
            Operation::Different => { if first == second { 0 } else { 1 } }
            Operation::Pretended => pretended(first, second),
            Operation::Pair => pair(first, second),
            Operation::NextBit => first.wrapping_mul(2).wrapping_add(second),
        }
    }

    /// Whether the operation makes of two equal numbers this number.
    pub(crate) fn keeps_equals(self) -> bool
        ensures { result ≡ true → (n : ℕ) → merged_of self n n ≡ n }
    {
        match self {
            Operation::Fold => true,
            _ => false,
        }
    }

    /// Whether the operation makes of two equal numbers 0.
    pub(crate) fn cancels_equals(self) -> bool
        ensures { result ≡ true → (n : ℕ) → merged_of self n n ≡ 0 }
    {
        match self {
            Operation::Fold | Operation::NextBit => false,
            Operation::Looser | Operation::Tighter | Operation::Different => true,
            Operation::Pretended | Operation::Pair => true,
        }
    }
}

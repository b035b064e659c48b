//! Questions as bits of four words: question q has bit q % 64 of word q / 64.

ghost use Rattle.std.specs.Prelude.{◌≡◌, ◌<◌, ◌==◌, ℕ, if◌then◌else◌, true, false, IsTrue};
ghost use Rattle.sf_ask.specs.QuestionBits.{bit_of, has_bit};

/// Whether the bit of the question q is set.
pub fn has_bit(bits: &[u64; 4], q: usize) -> bool
    requires { q < 256 }
    ensures { result ≡ has_bit bits.now q }
{
    (bits[q / 64] >> (q % 64)) & 1 == 1
}

/// Sets the bit of the question q.
pub fn set_bit(bits: &mut [u64; 4], q: usize)
    requires { q < 256 }
    ensures { (p : ℕ) → bit_of bits.new p ≡ (if p == q then 1 else bit_of bits.old p) }
{
    bits[q / 64] |= 1 << (q % 64);
}

/// Whether no question has its bit set in both.
pub(crate) fn share_none(first: &[u64; 4], second: &[u64; 4]) -> bool
    ensures { IsTrue result → (q : ℕ) → q < 256 → has_bit second.now q ≡ true
        → has_bit first.now q ≡ false }
{
    for word in 0..4 {
        if first[word] & second[word] != 0 {
            return false;
        }
    }
    true
}

//! Which tests of a node against a number are told: what is known of the node gives the result, and nothing could be
//! learnt from it.

ghost use Rattle.std.specs.Prelude.{◌≡◌, ◌≢◌, ℕ, ◌<◌, ◌≤◌, ◌-◌, ◌↔◌, ◌⊎◌, length, MatchOption, IfSome, IfNone, IsTrue, true, false};
ghost use Rattle.sf_insn.specs.Words.{passes};
ghost use Rattle.sf_dom.specs.Known.{Has, Admits};
ghost use Rattle.sf_dom.specs.Propagation.{TestGives};
ghost use Rattle.sf_dom.specs.Backward.{IsPropagatedBack};
ghost use Rattle.sf_dom.specs.Facts.{excluded_of};
ghost use Rattle.sf_dom.specs.Rules.{IsClosed};
ghost use Rattle.sf_dom.specs.Telling.{IsOpen, IsOpenAt, IsForcedBy, IsForcing};

use crate::assuming::backward;
use crate::exclusions::Excluded;
use crate::known::{Known, is_same};
use crate::nodes::Nodes;
use sf_insn::Test;
use sf_sym::{Node, Pool, constant_operand};

fn tell_equal(known: Known, number: u32) -> Option<bool>
    ensures told { MatchOption result (IsOpen Test.Equal known number)
        (λ b. (x : ℕ) → Admits known x → TestGives Test.Equal x number b) }
    ensures rule { IsClosed known → IfSome result
        (λ b. IsForcedBy IsClosed known Test.Equal number b) }
{
    if number < known.low || known.high < number {
        return Some(false);
    }
    if known.low == known.high {
        return Some(true);
    }
    None
}

#[tactic(auto, using(crate::proofs::Tests::test_steps), unfolding(crate::specs::Rules::assumed))]
fn tell_greater(known: Known, number: u32) -> Option<bool>
    ensures told { MatchOption result (IsOpen Test.Greater known number)
        (λ b. (x : ℕ) → Admits known x → TestGives Test.Greater x number b) }
    ensures rule { IsClosed known → IfSome result
        (λ b. IsForcedBy IsClosed known Test.Greater number b) }
{
    if number < known.low {
        return Some(true);
    }
    if known.high <= number {
        return Some(false);
    }
    None
}

#[tactic(auto, using(crate::proofs::Tests::test_steps), unfolding(crate::specs::Rules::assumed))]
fn tell_at_least(known: Known, number: u32) -> Option<bool>
    ensures told { MatchOption result (IsOpen Test.GreaterOrEqual known number)
        (λ b. (x : ℕ) → Admits known x → TestGives Test.GreaterOrEqual x number b) }
    ensures rule { IsClosed known → IfSome result
        (λ b. IsForcedBy IsClosed known Test.GreaterOrEqual number b) }
{
    if number <= known.low {
        return Some(true);
    }
    if known.high < number {
        return Some(false);
    }
    None
}

fn tell_common(known: Known, number: u32) -> Option<bool>
    ensures told { MatchOption result (IsOpen Test.AnyBit known number)
        (λ b. (x : ℕ) → Admits known x → TestGives Test.AnyBit x number b) }
    ensures rule { IsClosed known → IfSome result
        (λ b. IsForcedBy IsClosed known Test.AnyBit number b) }
{
    if known.ones & number != 0 {
        return Some(true);
    }
    if number & !known.zeros == 0 {
        return Some(false);
    }
    None
}

impl Known {
    /// Whether a word of which this is known passes a test against a number, where what is known gives the result: the
    /// known bits alone for `AnyBit`, and the interval alone for the other tests.
    pub fn tell(&self, test: Test, number: u32) -> Option<bool>
        ensures told { MatchOption result (IsOpen test self.now number)
            (λ b. (x : ℕ) → Admits self.now x → passes test x number ≡ b) }
        ensures rule { IsClosed self.now → IfSome result (λ b.
            IsForcedBy IsClosed self.now test number b) }
    {
        match test {
            Test::Equal => tell_equal(*self, number),
            Test::Greater => tell_greater(*self, number),
            Test::GreaterOrEqual => tell_at_least(*self, number),
            Test::AnyBit => tell_common(*self, number),
        }
    }
}

/// Whether a number is excluded for a node: numbers are excluded only for words of the input.
fn is_excluded(excluded: &Excluded, node: Node, number: u32) -> bool
    requires word { (i : ℕ) → node ≡ Node.Word i → i < 16 }
    ensures { IsTrue result ↔ Has (excluded_of excluded.now node) number }
{
    match node {
        Node::Word(i) => excluded.of_word(i as usize).has(number),
        _ => false,
    }
}

/// Whether `propagate_back` from this node would change nothing.
pub(crate) fn are_propagated_back(nodes: &Nodes, pool: &Pool, from: usize) -> bool
    requires count { length nodes.now.known ≡ length pool.now }
    requires start { from < length pool.now }
    ensures { IsTrue result ↔ ((n : ℕ) → IsPropagatedBack n nodes.now.known pool.now from) }
{
    let mut at = from;
    while let Some((op, x, c)) = constant_operand(pool, at) {
        let operand = nodes.get(x);
        match backward(op, nodes.get(at), c, operand) {
            None => return true,
            Some(gained) => {
                if !is_same(gained, operand) {
                    return false;
                }
            }
        }
        at = x;
    }
    true
}

/// The result of a test of the node at a place against a number, where what is known of the node itself gives it.
fn tell_at(
    nodes: &Nodes,
    excluded: &Excluded,
    pool: &Pool,
    at: usize,
    test: Test,
    number: u32,
) -> Option<bool>
    requires count { length nodes.now.known ≡ length pool.now }
    requires place { at < length pool.now }
    ensures none { IfNone result
        (IsOpenAt nodes.now.known excluded.now pool.now at test number) }
    ensures rule { IsForcing nodes.now.known excluded.now at test number result }
{
    if let Some(sense) = nodes.get(at).tell(test, number) {
        return Some(sense);
    }
    match test {
        Test::Equal => {
            if is_excluded(excluded, pool.node_at(at), number) {
                Some(false)
            } else {
                None
            }
        }
        Test::Greater | Test::GreaterOrEqual | Test::AnyBit => None,
    }
}

/// The result of a test of the node at a place against a number, where the test is told: `tell_at` gives it, and
/// nothing goes back from the node. To learn it would at most exclude the number for the node.
pub(crate) fn tell_node(
    nodes: &Nodes,
    excluded: &Excluded,
    pool: &Pool,
    at: usize,
    test: Test,
    number: u32,
) -> Option<bool>
    requires count { length nodes.now.known ≡ length pool.now }
    requires place { at < length pool.now }
    ensures rule { IsForcing nodes.now.known excluded.now at test number result }
    ensures goes_back { IfSome result (λ b. (n : ℕ)
        → IsPropagatedBack n nodes.now.known pool.now at) }
    ensures none { IfNone result (IsOpenAt nodes.now.known excluded.now pool.now at test number
        ⊎ ¬ ((n : ℕ) → IsPropagatedBack n nodes.now.known pool.now at)) }
{
    let sense = tell_at(nodes, excluded, pool, at, test, number)?;
    if !are_propagated_back(nodes, pool, at) {
        return None;
    }
    Some(sense)
}

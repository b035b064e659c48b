//! Takes a condition into what is known of the nodes of a pool.

ghost use Rattle.std.specs.Prelude.{◌≡◌, ◌≢◌, ℕ, ◌+◌, ◌-◌, ◌*◌, ◌/◌, ◌%◌, ◌<◌, ◌≤◌, ◌^◌, ◌⊎◌, List, length, MatchOption, MatchBool, IfOk, false, Some, None};
ghost use Rattle.sf_sym.specs.Pool.{IsCondBelow};
ghost use Rattle.sf_sym.specs.declared.pool.Node.{Node as ANode};
ghost use Rattle.sf_sym.specs.Operands.{IsSwappable};
ghost use Rattle.sf_dom.specs.Propagation.{AreExcluded, AreClosedWords};
ghost use Rattle.sf_dom.specs.Rules.{assumed, met, ReductionGives};
ghost use Rattle.sf_dom.specs.Passes.{AreClosed, PassGives, AreFixed};
ghost use Rattle.sf_dom.specs.Learning.{AreExcludedBy, AreLeft, with_pair, ConditionGives};
ghost use Rattle.sf_dom.specs.GoingBack.{with_bits as with_bits_of, gained, GoingBackGives};
ghost use Rattle.sf_dom.specs.Facts.{known_at};

use crate::exclusions::Excluded;
use crate::fault::Fault;
use crate::guards::{
    Pair, at_least, at_most, common_bit, less_than, more_than, no_common_bit, other_than,
};
use crate::known::Known;
use crate::nodes::Nodes;
use crate::propagation::{propagate, reduce_at};
use sf_insn::{BinOp, Test};
use sf_sym::{Cond, Node, Pool, constant_operand};
use std::alloc::Global;

/// What is known, with more known bits.
fn with_bits(known: Known, zeros: u32, ones: u32) -> Known
    ensures { result ≡ with_bits_of known zeros ones }
{
    Known {
        zeros: known.zeros | zeros,
        ones: known.ones | ones,
        ..known
    }
}

/// What is known of the operand x of a node `x op c`, of which `operand` was known, once the known bits of the node go
/// back to it. The result isn't reduced: a bit may be known to be both 0 and 1 in it.
pub(crate) fn backward(op: BinOp, node: Known, c: u32, operand: Known) -> Option<Known>
    ensures { MatchOption result (¬ IsSwappable op)
        (λ g. IsSwappable op × (g ≡ gained op c node operand)) }
{
    match op {
        BinOp::And => Some(with_bits(operand, node.zeros & c, node.ones)),
        BinOp::Or => Some(with_bits(operand, node.zeros, node.ones & !c)),
        BinOp::Xor => Some(with_bits(
            operand,
            (node.zeros & !c) | (node.ones & c),
            (node.ones & !c) | (node.zeros & c),
        )),
        _ => None,
    }
}

/// Takes the known bits of the node at `from` back to its operand beside a constant, reduces what is known of this
/// operand, and goes on from there. `false`: an operand is left no number; some operands may be changed.
fn propagate_back(nodes: &mut Nodes, excluded: &Excluded, pool: &Pool, from: usize) -> bool
    requires closed { AreClosed nodes.old.known pool.now }
    requires start { from < length pool.now }
    ensures back { MatchBool result
        (GoingBackGives nodes.old.known excluded.now pool.now from (Some nodes.new.known))
        (GoingBackGives nodes.old.known excluded.now pool.now from None) }
    ensures variables { nodes.new.variables ≡ nodes.old.variables }
{
    // For the prover: the pool is lawful.
    let _count = pool.len();
    let mut at = from;
    while let Some((op, x, c)) = constant_operand(pool, at) {
        match backward(op, nodes.get(at), c, nodes.get(x)) {
            None => return true,
            Some(gained) => match reduce_at(gained, x, excluded) {
                None => return false,
                Some(next) => nodes.set(x, next),
            },
        }
        at = x;
    }
    true
}

/// What is known of two words once the test of the first against the second has the result `sense`. The result isn't
/// reduced.
#[tactic(auto, using(std::proofs::lemmas::Bool::Decides::nat_tests), unfolding(crate::specs::Rules::assumed))]
fn assume_test(v: Known, w: Known, test: Test, sense: bool) -> Pair
    ensures { result ≡ assumed test sense v w }
{
    match (test, sense) {
        (Test::Equal, true) => {
            let both = v.meet(w);
            Pair {
                node: both,
                other: both,
            }
        }
        (Test::Equal, false) => Pair {
            node: match w.decided() {
                Some(number) => other_than(v, number),
                None => v,
            },
            other: match v.decided() {
                Some(number) => other_than(w, number),
                None => w,
            },
        },
        (Test::Greater, true) => Pair {
            node: more_than(v, w.low),
            other: less_than(w, v.high),
        },
        (Test::Greater, false) => Pair {
            node: at_most(v, w.high),
            other: at_least(w, v.low),
        },
        (Test::GreaterOrEqual, true) => Pair {
            node: at_least(v, w.low),
            other: at_most(w, v.high),
        },
        (Test::GreaterOrEqual, false) => Pair {
            node: less_than(v, w.high),
            other: more_than(w, v.low),
        },
        (Test::AnyBit, true) => Pair {
            node: match w.decided() {
                Some(bits) => common_bit(v, bits),
                None => v,
            },
            other: w,
        },
        (Test::AnyBit, false) => Pair {
            node: match w.decided() {
                Some(bits) => no_common_bit(v, bits),
                None => v,
            },
            other: w,
        },
    }
}

/// What is known of the node at a place once `more` is known of it too, reduced.
pub(crate) fn known_left(
    nodes: &Nodes,
    excluded: &Excluded,
    at: usize,
    more: Known,
) -> Option<Known>
    requires { at < length nodes.now.known }
    ensures { ReductionGives excluded.now at (met (known_at nodes.now.known at) more) result }
{
    reduce_at(nodes.get(at).meet(more), at, excluded)
}

/// What is known of a condition's second node, where `node` is left of the first one.
fn known_of_other(nodes: &Nodes, cond: &Cond, node: Known) -> Known
    requires { cond.now.other.0 < length nodes.now.known }
    ensures apart { cond.now.node.0 ≢ cond.now.other.0
        → result ≡ known_at nodes.now.known cond.now.other.0 }
    ensures one { cond.now.node.0 ≡ cond.now.other.0 → result ≡ node }
{
    if cond.node.0 == cond.other.0 {
        node
    } else {
        nodes.get(cond.other.0 as usize)
    }
}

/// What a condition leaves of its two nodes, each reduced. `learn_cond` asks this before it copies the nodes.
pub(crate) fn pair_left(nodes: &Nodes, excluded: &Excluded, cond: &Cond) -> Option<Pair>
    requires { IsCondBelow (length nodes.now.known) cond.now }
    ensures { MatchOption result
        ((pool : List ANode) → ConditionGives nodes.now.known excluded.now pool cond.now None)
        (AreLeft nodes.now.known excluded.now cond.now) }
{
    let v = cond.node.0 as usize;
    let w = cond.other.0 as usize;
    let pair = assume_test(nodes.get(v), nodes.get(w), cond.test, cond.sense);
    let node = known_left(nodes, excluded, v, pair.node)?;
    let own = known_of_other(nodes, cond, node);
    let both = own.meet(pair.other);
    let other = reduce_at(both, w, excluded)?;
    Some(Pair { node, other })
}

/// Writes what the condition leaves of its two nodes, takes known bits back from both, and does a forward pass.
/// `false`: some node is left no number, and what is known may be changed in part.
pub(crate) fn assume_cond(
    nodes: &mut Nodes,
    excluded: &Excluded,
    pool: &Pool,
    cond: &Cond,
    alone: Pair,
) -> bool
    requires closed { AreClosed nodes.old.known pool.now }
    requires below { IsCondBelow (length pool.now) cond.now }
    requires left { AreLeft nodes.old.known excluded.now cond.now alone }
    requires words { AreClosedWords (with_pair nodes.old.known cond.now alone) excluded.now }
    requires fixed { AreFixed nodes.old.variables nodes.old.known pool.now }
    ensures rule { MatchBool result
        (ConditionGives nodes.old.known excluded.now pool.now cond.now (Some nodes.new.known))
        (ConditionGives nodes.old.known excluded.now pool.now cond.now None) }
    ensures variables { MatchBool result (nodes.new.variables ≡ nodes.old.variables)
        (Unit {0}) }
{
    // For the prover: the pool is lawful.
    let _count = pool.len();
    nodes.set(cond.node.0 as usize, alone.node);
    nodes.set(cond.other.0 as usize, alone.other);
    if !propagate_back(nodes, excluded, pool, cond.node.0 as usize) {
        return false;
    }
    if !propagate_back(nodes, excluded, pool, cond.other.0 as usize) {
        return false;
    }
    propagate(nodes, excluded, pool)
}

/// Excludes the number of a decided node for a word that differs from it.
fn exclude(alloc: Global, excluded: &mut Excluded, node: Node, other: Known) -> Result<(), Fault>
    requires word { (i : ℕ) → node ≡ Node.Word i → i < 16 }
    ensures { IfOk result (λ _. AreExcluded excluded.old excluded.new node other) }
{
    if let Node::Word(i) = node
        && let Some(number) = other.decided()
    {
        excluded.add(alloc, i as usize, number)?;
    }
    Ok(())
}

/// Takes in that the two nodes of a condition differ. After a fault one number may be excluded.
pub(crate) fn exclude_each_other(
    alloc: Global,
    excluded: &mut Excluded,
    nodes: &Nodes,
    pool: &Pool,
    cond: &Cond,
) -> Result<(), Fault>
    requires covers { length nodes.now.known ≡ length pool.now }
    requires below { IsCondBelow (length pool.now) cond.now }
    requires differ { (cond.now.test ≡ Test.Equal) × (cond.now.sense ≡ false) }
    ensures { IfOk result (λ _. AreExcludedBy nodes.now.known excluded.old excluded.new
        pool.now cond.now) }
{
    let left = pool.node(cond.node);
    let right = pool.node(cond.other);
    exclude(alloc, excluded, left, nodes.get(cond.other.0 as usize))?;
    exclude(alloc, excluded, right, nodes.get(cond.node.0 as usize))?;
    Ok(())
}

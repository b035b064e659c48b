//! Forward propagation: what is known of each node, met with what follows from its operands.

ghost use Rattle.std.specs.Prelude.{◌≡◌, ℕ, ◌+◌, ◌-◌, ◌*◌, ◌/◌, ◌%◌, ◌<◌, ◌≤◌, ◌↔◌, ◌⊎◌, ◌^◌, List, [], ◌∷◌, ◌++◌, length, slice_index, MatchBool, MatchOption, true, false, IfOk, IsTrue, Some, None};
ghost use Rattle.sf_sym.specs.Pool.{OperandsBelow, node_at};
ghost use Rattle.sf_dom.specs.Known.{is_decided};
ghost use Rattle.sf_dom.specs.Propagation.{AreConsistentOperands, AreClosedWords, AreConsistent};
ghost use Rattle.sf_dom.specs.Passes.{AreClosed, PassGives, are_all_decided, variables_after, AreFixed, AreTakenIn, TakingInFails};
ghost use Rattle.sf_dom.specs.Facts.{known_at};
ghost use Rattle.sf_dom.specs.Rules.{forward_node, ReductionGives};

use crate::exclusions::Excluded;
use crate::fault::Fault;
use crate::forward::{forward, negate};
use crate::known::{Known, reduce_known, reduce_word};
use crate::nodes::{Nodes, WORDS};
use sf_sym::{Node, NodeId, Pool};

/// What is known of the node at a place, reduced. The first sixteen nodes are the words, for which numbers are
/// excluded.
pub(crate) fn reduce_at(known: Known, place: usize, excluded: &Excluded) -> Option<Known>
    ensures { ReductionGives excluded.now place known result }
{
    if place < WORDS {
        reduce_word(known, excluded.of_word(place))
    } else {
        reduce_known(known)
    }
}

/// What follows for a node from what is known of its operands.
fn transfer(nodes: &Nodes, node: Node) -> Known
    requires { OperandsBelow (length nodes.now.known) node }
    ensures { AreConsistentOperands nodes.now.known node
        → result ≡ forward_node nodes.now.known node }
{
    match node {
        Node::Const(c) => Known::of_number(c),
        Node::Word(_) => Known::top(),
        Node::Bin(op, a, b) => forward(op, nodes.get(a.0 as usize), nodes.get(b.0 as usize)),
        Node::Neg(a) => negate(nodes.get(a.0 as usize)),
    }
}

fn is_decided(nodes: &Nodes, at: NodeId) -> bool
    requires { at.0 < length nodes.now.known }
    ensures { result ≡ is_decided (known_at nodes.now.known at.0) }
{
    let known = nodes.get(at.0 as usize);
    known.low == known.high
}

/// Whether no forward pass makes more known of a node once it is taken in: a constant, or an operation on decided
/// operands.
fn is_fixed(nodes: &Nodes, node: Node) -> bool
    requires { OperandsBelow (length nodes.now.known) node }
    ensures { result ≡ are_all_decided nodes.now.known node }
{
    match node {
        Node::Const(_) => true,
        Node::Word(_) => false,
        Node::Bin(_, a, b) => is_decided(nodes, a) && is_decided(nodes, b),
        Node::Neg(a) => is_decided(nodes, a),
    }
}

/// Adds to what is known of each variable what follows from its operands, and reduces it, the oldest variable first.
/// The words, which have no operands, are passed over. `false`: no input agrees, and some nodes may be changed.
pub(crate) fn propagate(nodes: &mut Nodes, excluded: &Excluded, pool: &Pool) -> bool
    requires closed { AreClosed nodes.old.known pool.now }
    requires words { AreClosedWords nodes.old.known excluded.now }
    requires fixed { AreFixed nodes.old.variables nodes.old.known pool.now }
    ensures pass { MatchBool result
        (PassGives nodes.old.known excluded.now pool.now (Some nodes.new.known))
        (PassGives nodes.old.known excluded.now pool.now None) }
    ensures variables { MatchBool result (nodes.new.variables ≡ nodes.old.variables)
        (Unit {0}) }
{
    // For the prover: the pool is lawful.
    let _count = pool.len();
    for rank in WORDS..nodes.variable_count() {
        let here = nodes.variable(rank);
        let node = pool.node_at(here.place as usize);
        let known = here.known.meet(transfer(nodes, node));
        let Some(next) = reduce_at(known, here.place as usize, excluded) else {
            return false;
        };
        nodes.set_variable(rank, next);
    }
    true
}

/// Takes in the new nodes of a pool, those behind the last one in `nodes`. `false`: no input agrees. Then, and after a
/// fault, some of the new nodes may have been taken in.
pub(crate) fn append(nodes: &mut Nodes, excluded: &Excluded, pool: &Pool) -> Result<bool, Fault>
    requires covers { length nodes.old.known ≤ length pool.now }
    ensures variables { IfOk result (λ b. MatchBool b
        (nodes.new.variables ≡ variables_after nodes.old.variables nodes.old.known
        nodes.new.known pool.now) (Unit {0})) }
    ensures rule { IfOk result (λ b. AreConsistent nodes.old.known → MatchBool b
        (AreTakenIn nodes.old.known nodes.new.known excluded.now pool.now)
        (TakingInFails nodes.old.known excluded.now pool.now)) }
{
    for i in nodes.len()..pool.len() {
        let node = pool.node_at(i);
        let known = transfer(nodes, node);
        let fixed = is_fixed(nodes, node);
        match reduce_at(known, i, excluded) {
            None => return Ok(false),
            Some(next) => nodes.push(next, fixed && next.low == next.high)?,
        }
    }
    Ok(true)
}

//! Tests of pools of symbolic words.

ghost use Rattle.std.specs.Prelude.{IsTrue};
ghost use Rattle.sf_sym.specs.Pool.{OperandsBelow};

use sf_insn::{BinOp, Input, Test};
use sf_sym::{Cond, Node, NodeId, Pool, constant_of};
use std::alloc::Global;

const FIRST: NodeId = NodeId(0);

const SECOND: NodeId = NodeId(1);

const SUM: Node = Node::Bin(BinOp::Add, FIRST, SECOND);

/// Whether the operands of a node are among this many nodes.
fn is_lawful(count: usize, node: Node) -> bool
    ensures { IsTrue result → OperandsBelow count node }
{
    match node {
        Node::Const(_) => true,
        Node::Word(i) => i < 16,
        Node::Bin(_, a, b) => (a.0 as usize) < count && (b.0 as usize) < count,
        Node::Neg(a) => (a.0 as usize) < count,
    }
}

/// Pushes a node, and gives its place; `None` where its operands are not in the pool.
fn push(pool: &mut Pool, node: Node) -> Option<NodeId> {
    if is_lawful(pool.len(), node) {
        pool.push(node).ok()
    } else {
        None
    }
}

/// The pool of the sixteen words.
fn new_pool(alloc: Global) -> Option<Pool> {
    Pool::new(alloc).ok()
}

/// The number of a node that is a constant.
fn constant_at(pool: &Pool, id: NodeId) -> Option<u32> {
    if (id.0 as usize) < pool.len() {
        constant_of(pool.node(id))
    } else {
        None
    }
}

/// The constant that an operation on two numbers becomes.
fn fold_constants(alloc: Global, op: BinOp, a: u32, b: u32) -> Option<u32> {
    let mut pool = new_pool(alloc)?;
    let left = push(&mut pool, Node::Const(a))?;
    let right = push(&mut pool, Node::Const(b))?;
    let id = push(&mut pool, Node::Bin(op, left, right))?;
    constant_at(&pool, id)
}

/// The constant that minus a number becomes.
fn negate_constant(alloc: Global, number: u32) -> Option<u32> {
    let mut pool = new_pool(alloc)?;
    let id = push(&mut pool, Node::Const(number))?;
    let minus = push(&mut pool, Node::Neg(id))?;
    constant_at(&pool, minus)
}

/// Operations on two numbers, and their values.
const VALUES: [(BinOp, u32, u32, u32); 6] = [
    (BinOp::Add, 1, 2, 3),
    (BinOp::Sub, 1, 2, u32::MAX),
    (BinOp::Div, 7, 0, 0),
    (BinOp::Div, 7, 2, 3),
    (BinOp::Lsh, 1, 40, 0x100),
    (BinOp::Rsh, 0x100, 40, 1),
];

#[test]
fn an_operation_on_constants_is_the_constant_of_its_value(rt: HostRuntime) {
    for (op, a, b, wanted) in VALUES {
        let found = fold_constants(rt.alloc(), op, a, b);
        assert!(rt; found == Some(wanted), "{op:?} {a} {b}");
    }
    assert!(rt; negate_constant(rt.alloc(), 1) == Some(u32::MAX));
}

/// The places of a sum that is pushed twice and of the sum with its operands swapped, and how many nodes there are
/// then.
fn three_sums(alloc: Global) -> Option<([NodeId; 3], usize)> {
    let mut pool = new_pool(alloc)?;
    let sum = push(&mut pool, SUM)?;
    let again = push(&mut pool, SUM)?;
    let other = push(&mut pool, Node::Bin(BinOp::Add, SECOND, FIRST))?;
    Some(([sum, again, other], pool.len()))
}

#[test]
fn an_equal_node_is_answered_again(rt: HostRuntime) {
    let wanted = [NodeId(16), NodeId(16), NodeId(17)];
    assert_eq!(rt; three_sums(rt.alloc()), Some((wanted, 18)));
}

/// Pushes the constants below a number.
fn push_constants(pool: &mut Pool, count: u32) -> Option<()> {
    for i in 0..count {
        push(pool, Node::Const(i))?;
    }
    Some(())
}

/// How many nodes there are once the constants below a number are pushed twice.
fn push_twice(alloc: Global, count: u32) -> Option<usize> {
    let mut pool = new_pool(alloc)?;
    push_constants(&mut pool, count)?;
    push_constants(&mut pool, count)?;
    Some(pool.len())
}

#[test]
fn constants_are_found_among_many(rt: HostRuntime) {
    assert_eq!(rt; push_twice(rt.alloc(), 600), Some(616));
}

/// A copy of a pool.
fn fork(pool: &Pool) -> Option<Pool> {
    pool.fork().ok()
}

/// A pool has the constants below a number, and a fork of it gets one more. Gives the place of that one, and how many
/// nodes the pool has then.
fn grow_fork(alloc: Global, count: u32, further: u32) -> Option<(NodeId, usize)> {
    let mut pool = new_pool(alloc)?;
    push_constants(&mut pool, count)?;
    let mut copy = fork(&pool)?;
    let id = push(&mut copy, Node::Const(further))?;
    Some((id, pool.len()))
}

#[test]
fn a_fork_grows_alone(rt: HostRuntime) {
    for (count, further, length) in [(100, 1000, 116), (5000, 9000, 5016)] {
        let wanted = Some((NodeId(length), length as usize));
        assert!(rt; grow_fork(rt.alloc(), count, further) == wanted, "{count}");
    }
}

/// Words 100, 7 and then zeros.
const INPUT: Input = Input {
    words: [100, 7, 0, 0, 0, 0, 0, 0, 0, 0, 0, 0, 0, 0, 0, 0],
};

/// The value of a node on the words 100, 7 and then zeros, if its operands are words.
fn value_on_input(alloc: Global, node: Node) -> Option<u32> {
    let mut pool = new_pool(alloc)?;
    let id = push(&mut pool, node)?;
    if (id.0 as usize) < pool.len() {
        pool.value(alloc, id, &INPUT).ok()
    } else {
        None
    }
}

/// Nodes, and their values on this input.
const ON_INPUT: [(Node, u32); 5] = [
    (Node::Word(1), 7),
    (Node::Const(5), 5),
    (Node::Bin(BinOp::Div, FIRST, SECOND), 14),
    (Node::Bin(BinOp::Div, FIRST, NodeId(2)), 0),
    (Node::Neg(SECOND), u32::MAX - 6),
];

#[test]
fn nodes_have_values_on_an_input(rt: HostRuntime) {
    for (node, wanted) in ON_INPUT {
        let found = value_on_input(rt.alloc(), node);
        assert!(rt; found == Some(wanted), "{wanted}");
    }
}

/// Whether the test of 100 against 7 has this sense.
fn holds(alloc: Global, test: Test, sense: bool) -> Option<bool> {
    let pool = new_pool(alloc)?;
    if pool.len() < 2 {
        return None;
    }
    let cond = Cond {
        node: FIRST,
        test,
        other: SECOND,
        sense,
    };
    pool.holds(alloc, &cond, &INPUT).ok()
}

#[test]
fn a_condition_is_met_where_its_test_has_its_sense(rt: HostRuntime) {
    let cases = [
        (Test::Greater, true, true),
        (Test::Greater, false, false),
        (Test::Equal, false, true),
        (Test::AnyBit, true, true),
    ];
    for (test, sense, wanted) in cases {
        let found = holds(rt.alloc(), test, sense);
        assert!(rt; found == Some(wanted), "{test:?} {sense}");
    }
}

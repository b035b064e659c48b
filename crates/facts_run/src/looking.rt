//! Takes the steps of a case, and says what they leave.

ghost use Rattle.std.specs.Prelude.{◌≡◌, All, IsTrue, IfOk, IfSome, length};
ghost use Rattle.sf_sym.specs.Pool.{IsCondBelow, OperandsBelow, Extends};
ghost use Rattle.sf_dom.specs.Facts.{Covers};

use crate::cases::{Case, Step};
use sf_dom::{Facts, Known};
use sf_insn::Test;
use sf_sym::{Cond, Node, NodeId, Pool};
use std::alloc::Global;
use std::test::Fail;

/// Whether the operands of a node are in the pool.
fn is_lawful(pool: &Pool, node: Node) -> bool
    ensures { IsTrue result → OperandsBelow (length pool.now) node }
{
    let count = pool.len();
    match node {
        Node::Const(_) => true,
        Node::Word(i) => i < 16,
        Node::Bin(_, a, b) => (a.0 as usize) < count && (b.0 as usize) < count,
        Node::Neg(a) => (a.0 as usize) < count,
    }
}

/// The pool of the words and these nodes.
pub fn pool_of(alloc: Global, nodes: &[Node]) -> Result<Pool, Fail> {
    let mut pool = Pool::new(alloc)?;
    for node in nodes {
        if !is_lawful(&pool, *node) {
            return Err(Fail::from("a node whose operands aren't older"));
        }
        pool.push(*node)?;
    }
    Ok(pool)
}

/// The condition that the test of two nodes of the pool has this result.
pub fn cond_of(
    pool: &Pool,
    node: usize,
    test: Test,
    other: usize,
    sense: bool,
) -> Result<Cond, Fail>
    ensures { IfOk result (IsCondBelow (length pool.now)) }
{
    if node >= pool.len() || other >= pool.len() {
        return Err(Fail::from("a condition on no node"));
    }
    Ok(Cond {
        node: NodeId(node as u32),
        test,
        other: NodeId(other as u32),
        sense,
    })
}

/// Takes in a condition: `false`: it contradicts. What it leaves of a copy of the facts has to be the same.
fn learn(alloc: Global, facts: &mut Facts, pool: &Pool, cond: &Cond) -> Result<bool, Fail>
    requires covers { Covers facts.old pool.now }
    requires below { IsCondBelow (length pool.now) cond.now }
    ensures { Covers facts.new pool.now }
{
    let copy = facts.with_cond(alloc, pool, cond)?;
    let taken = facts.learn(alloc, pool, cond)?;
    match copy {
        Some(left) if taken && left.is_same(facts) => Ok(true),
        None if !taken => Ok(false),
        _ => Err(Fail::from("a copy learns something else")),
    }
}

/// A pool with one more node.
fn longer(pool: &Pool, node: Node) -> Result<Pool, Fail>
    ensures { IfOk result (Extends pool.now) }
{
    if !is_lawful(pool, node) {
        return Err(Fail::from("a node whose operands aren't older"));
    }
    let mut longer = pool.fork()?;
    longer.push(node)?;
    Ok(longer)
}

/// Takes in one more node of the pool. `false`: nothing is left of it.
pub fn push(alloc: Global, facts: &mut Facts, pool: &mut Pool, node: Node) -> Result<bool, Fail>
    requires { Covers facts.old pool.old }
    ensures { Covers facts.new pool.new }
{
    let longer = longer(pool, node)?;
    if !facts.grow(alloc, &longer)? {
        return Ok(false);
    }
    *pool = longer;
    Ok(true)
}

/// Takes one step. `false`: it contradicts.
pub fn take(alloc: Global, facts: &mut Facts, pool: &mut Pool, step: Step) -> Result<bool, Fail>
    requires { Covers facts.old pool.old }
    ensures { Covers facts.new pool.new }
{
    match step {
        Step::Push(node) => push(alloc, facts, pool, node),
        Step::Learn(node, test, other, sense) => {
            let cond = cond_of(pool, node, test, other, sense)?;
            learn(alloc, facts, pool, &cond)
        }
        Step::Confine(word, low, high) => {
            if word >= 16 {
                return Err(Fail::from("no word"));
            }
            Ok(facts.confine(alloc, pool, word, low, high)?)
        }
        Step::ConfineBits(word, mask, value) => {
            if word >= 16 || value & mask != value {
                return Err(Fail::from("no word, or a value outside the mask"));
            }
            Ok(facts.confine_bits(alloc, pool, word, mask, value)?)
        }
    }
}

/// Takes steps until one contradicts. `false`: one did.
fn take_all(alloc: Global, facts: &mut Facts, pool: &mut Pool, steps: &[Step]) -> Result<bool, Fail>
    requires { Covers facts.old pool.old }
    ensures { Covers facts.new pool.new }
{
    for step in steps {
        if !take(alloc, facts, pool, *step)? {
            return Ok(false);
        }
    }
    Ok(true)
}

/// The conditions of the steps; `None` where other steps are among them.
fn conds_of(alloc: Global, pool: &Pool, steps: &[Step]) -> Result<Option<Vec<Cond>>, Fail>
    ensures { IfOk result (λ o. IfSome o
        (λ conds. All (IsCondBelow (length pool.now)) conds.items)) }
{
    let mut conds = Vec::new(alloc);
    for step in steps {
        let Step::Learn(node, test, other, sense) = *step else {
            return Ok(None);
        };
        conds.push(cond_of(pool, node, test, other, sense)?)?;
    }
    Ok(Some(conds))
}

/// Conditions that are taken in together have to leave what they left one after the other.
fn see_together(
    alloc: Global,
    pool: &Pool,
    steps: &[Step],
    facts: &Facts,
    taken: bool,
) -> Result<(), Fail> {
    let Some(conds) = conds_of(alloc, pool, steps)? else {
        return Ok(());
    };
    match Facts::of(alloc, pool, &conds)? {
        Some(left) if taken && left.is_same(facts) => Ok(()),
        None if !taken => Ok(()),
        _ => Err(Fail::from("together they leave something else")),
    }
}

/// The facts of the pool. Facts of only the words have to become the same when they take in the other nodes, and stay
/// so when they take them in again.
pub fn facts_of(alloc: Global, pool: &Pool) -> Result<Facts, Fail>
    ensures { IfOk result (λ facts. Covers facts pool.now) }
{
    let facts = Facts::new(alloc, pool)?;
    let words = Pool::new(alloc)?;
    let mut grown = Facts::new(alloc, &words)?;
    for _ in 0..2 {
        if !grown.grow(alloc, pool)? || !facts.is_same(&grown) {
            return Err(Fail::from("grown facts are others"));
        }
    }
    Ok(facts)
}

/// What became of the steps: `is_same` says whether the facts are still those of a fork that took none.
fn outcome(steps: &[Step], taken: bool, is_same: bool) -> &'static str {
    if !taken {
        "contradicts"
    } else if is_same && !steps.is_empty() {
        "nothing new"
    } else {
        "taken"
    }
}

/// Writes what is known of a node, and its number, where it has only one.
pub fn write_known(text: &mut String, known: Known, decided: Option<u32>) -> Result<(), Fail> {
    let (low, high, zeros, ones) = (known.low, known.high, known.zeros, known.ones);
    write!(
        text,
        "from {low} to {high}, zeros {zeros:08x}, ones {ones:08x}"
    )?;
    if let Some(number) = decided {
        write!(text, ", decided {number}")?;
    }
    Ok(())
}

/// What is known of the node at the place, as text. The least number of a word has to be the low end.
fn node_text(
    alloc: Global,
    facts: &Facts,
    pool: &Pool,
    at: usize,
    outcome: &str,
) -> Result<String, Fail>
    requires { Covers facts.now pool.now }
{
    if at >= pool.len() {
        return Err(Fail::from("no node is shown"));
    }
    let node = NodeId(at as u32);
    let known = facts.known(node);
    if at < 16 && facts.least(at) != Some(known.low) {
        return Err(Fail::from("another number is the least"));
    }
    let mut text = String::new(alloc);
    write!(&mut text, "{outcome}, ")?;
    write_known(&mut text, known, facts.decided(pool, node))?;
    Ok(text)
}

/// What is known of the node at a place, after the steps of a case. Those after one that contradicts are not taken.
pub fn look(alloc: Global, case: &Case, at: usize) -> Result<String, Fail> {
    let mut pool = pool_of(alloc, &case.nodes)?;
    let mut facts = facts_of(alloc, &pool)?;
    let before = facts.fork()?;
    let taken = take_all(alloc, &mut facts, &mut pool, &case.steps)?;
    see_together(alloc, &pool, &case.steps, &facts, taken)?;
    let outcome = outcome(&case.steps, taken, facts.is_same(&before));
    node_text(alloc, &facts, &pool, at, outcome)
}

//! Takes all steps of a case, also those after one that contradicts, and writes what facts tell after each.

ghost use Rattle.std.specs.Prelude.{◌<◌, length};
ghost use Rattle.sf_dom.specs.Facts.{Covers};

use crate::cases::{Case, Step};
use crate::looking::{cond_of, facts_of, pool_of, push, take, write_known};
use sf_dom::{Facts, Known};
use sf_insn::{BinOp, Test};
use sf_sym::{Node, NodeId, Pool, constant_operand};
use std::alloc::Global;
use std::test::Fail;

/// What facts tell of a node.
#[derive(Clone, Copy, PartialEq, Eq)]
struct Seen {
    /// What is known of it.
    known: Known,
    /// Its number, where it has only one.
    decided: Option<u32>,
    /// The least number of a word; `None` of other nodes.
    least: Option<u32>,
}

/// What is told of the node at a place of which nothing is known.
fn unseen(at: usize) -> Seen {
    Seen {
        known: Known {
            low: 0,
            high: u32::MAX,
            zeros: 0,
            ones: 0,
        },
        decided: None,
        least: if at < 16 { Some(0) } else { None },
    }
}

/// What facts tell of the node at a place.
fn see(facts: &Facts, pool: &Pool, at: usize) -> Seen
    requires covers { Covers facts.now pool.now }
    requires place { at < length pool.now }
{
    // For the prover: the pool is lawful.
    let _count = pool.len();
    let node = NodeId(at as u32);
    Seen {
        known: facts.known(node),
        decided: facts.decided(pool, node),
        least: if at < 16 { facts.least(at) } else { None },
    }
}

/// What facts tell of each node.
fn see_all(alloc: Global, facts: &Facts, pool: &Pool) -> Result<Vec<Seen>, Fail>
    requires { Covers facts.now pool.now }
{
    let mut all = Vec::new(alloc);
    for at in 0..pool.len() {
        all.push(see(facts, pool, at))?;
    }
    Ok(all)
}

/// Writes what facts tell of the node at a place.
fn write_seen(text: &mut String, at: usize, seen: Seen) -> Result<(), Fail> {
    write!(text, "  {at} ")?;
    write_known(text, seen.known, seen.decided)?;
    if let Some(number) = seen.least {
        write!(text, ", least {number}")?;
    }
    write!(text, "\n")?;
    Ok(())
}

/// Writes what facts tell of each node of which they told something else before.
fn write_changes(text: &mut String, before: &[Seen], after: &[Seen]) -> Result<(), Fail> {
    for (at, seen) in after.iter().enumerate() {
        if before.get(at).copied().unwrap_or(unseen(at)) != *seen {
            write_seen(text, at, *seen)?;
        }
    }
    Ok(())
}

/// Whether facts stay the same where they learn that a word isn't the number of a node.
fn learns_nothing(
    alloc: Global,
    facts: &Facts,
    pool: &Pool,
    word: usize,
    node: usize,
) -> Result<bool, Fail>
    requires { Covers facts.now pool.now }
{
    let cond = cond_of(pool, word, Test::Equal, node, false)?;
    Ok(match facts.with_cond(alloc, pool, &cond)? {
        Some(left) => left.is_same(facts),
        None => false,
    })
}

/// Whether known bits go back from the node at a place to an operand.
fn goes_back(pool: &Pool, at: usize) -> bool
    requires { at < length pool.now }
{
    matches!(
        constant_operand(pool, at),
        Some((BinOp::And | BinOp::Or | BinOp::Xor, _, _))
    )
}

/// Writes which of the first words are known not to be the number of the node at a place.
fn write_words(
    alloc: Global,
    facts: &Facts,
    pool: &Pool,
    words: usize,
    node: usize,
    text: &mut String,
) -> Result<(), Fail>
    requires { Covers facts.now pool.now }
{
    for word in 0..words {
        if learns_nothing(alloc, facts, pool, word, node)? {
            write!(text, "  {word} != {node}\n")?;
        }
    }
    Ok(())
}

/// The same for each node that has only one number. Those from which known bits go back are left out: these bits could
/// bring something new.
fn write_excluded(
    alloc: Global,
    facts: &Facts,
    pool: &Pool,
    words: usize,
    text: &mut String,
) -> Result<(), Fail>
    requires { Covers facts.now pool.now }
{
    for node in 0..pool.len() {
        if see(facts, pool, node).decided.is_some() && !goes_back(pool, node) {
            write_words(alloc, facts, pool, words, node, text)?;
        }
    }
    Ok(())
}

/// What became of a step. One that contradicts has to leave all as it was.
fn outcome(is_taken: bool, is_same: bool) -> &'static str {
    match (is_taken, is_same) {
        (true, false) => "taken",
        (true, true) => "nothing new",
        (false, true) => "contradicts",
        (false, false) => "contradicts, but something is new",
    }
}

/// Takes one step, and writes what became of it.
fn follow_step(
    alloc: Global,
    facts: &mut Facts,
    pool: &mut Pool,
    step: Step,
    text: &mut String,
) -> Result<(), Fail>
    requires { Covers facts.old pool.old }
    ensures { Covers facts.new pool.new }
{
    let (before, seen) = (facts.fork()?, see_all(alloc, facts, pool)?);
    let is_taken = take(alloc, facts, pool, step)?;
    let is_same = facts.is_same(&before);
    write!(text, "{}\n", outcome(is_taken, is_same))?;
    write_changes(text, &seen, &see_all(alloc, facts, pool)?)?;
    if !is_same {
        write_excluded(alloc, facts, pool, 4, text)?;
    }
    Ok(())
}

/// Pushes a constant for each number that is the only one of some node: all excluded numbers are among them.
fn push_numbers(alloc: Global, facts: &mut Facts, pool: &mut Pool) -> Result<(), Fail>
    requires { Covers facts.old pool.old }
    ensures { Covers facts.new pool.new }
{
    let seen = see_all(alloc, facts, pool)?;
    for one in &seen {
        if let Some(number) = one.decided {
            if !push(alloc, facts, pool, Node::Const(number))? {
                return Err(Fail::from("nothing is left of a constant"));
            }
        }
    }
    Ok(())
}

/// What facts tell at first, after each step of a case, and in the end.
pub fn follow(alloc: Global, case: &Case) -> Result<String, Fail> {
    let mut text = String::new(alloc);
    let mut pool = pool_of(alloc, &case.nodes)?;
    let mut facts = facts_of(alloc, &pool)?;
    write!(&mut text, "at first\n")?;
    write_changes(&mut text, &[], &see_all(alloc, &facts, &pool)?)?;
    for step in &case.steps {
        follow_step(alloc, &mut facts, &mut pool, *step, &mut text)?;
    }
    push_numbers(alloc, &mut facts, &mut pool)?;
    write!(&mut text, "in the end\n")?;
    write_excluded(alloc, &facts, &pool, 16, &mut text)?;
    Ok(text)
}

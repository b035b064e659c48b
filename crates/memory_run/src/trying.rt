//! Pools and facts of pieces, and what becomes of them where an allocation is refused.

ghost use Rattle.std.specs.Prelude.{◌<◌, length, IfSome};
ghost use Rattle.sf_sym.specs.Pool.{IsCondBelow};
ghost use Rattle.sf_dom.specs.Facts.{Covers};

use crate::refused::{Refused, Score};
use sf_dom::Facts;
use sf_insn::Test;
use sf_piece::Piece;
use sf_sym::{Cond, Node, NodeId, Pool};
use std::alloc::Global;

/// Whether two pools have the same nodes under the same ids.
pub fn are_same(left: &Pool, right: &Pool) -> bool {
    if left.len() != right.len() {
        return false;
    }
    for i in 0..left.len() {
        if i >= right.len() || left.node_at(i) != right.node_at(i) {
            return false;
        }
    }
    true
}

/// Pushes a number to the pool. Where an allocation is refused, the pool has to keep the nodes that it had, which are
/// those of `before`.
fn push(score: &mut Score, pool: &mut Pool, before: &Pool, number: u32) -> Result<NodeId, Refused> {
    match pool.push(Node::Const(number)) {
        Ok(id) => Ok(id),
        Err(fault) => {
            score.refuse(fault.into(), are_same(&*pool, before));
            Ok(pool.push(Node::Const(number))?)
        }
    }
}

/// How many numbers are pushed: more than a block of nodes has room for.
const NUMBERS: u32 = 70;

/// Pushes the same numbers to two forks of the piece's pool, which have to stay the same.
pub fn grow_pools(score: &mut Score, piece: &Piece) -> Result<(), Refused> {
    let mut left = piece.pool().fork()?;
    let mut right = left.fork()?;
    for number in 0..NUMBERS {
        let one = push(score, &mut left, &right, number + 1000)?;
        let before = right.len();
        let other = match right.push(Node::Const(number + 1000)) {
            Ok(id) => id,
            Err(fault) => {
                score.refuse(fault.into(), right.len() == before);
                right.push(Node::Const(number + 1000))?
            }
        };
        score.expect(one == other);
    }
    score.expect(are_same(&left, &right));
    Ok(())
}

/// Learns a condition. False where no input meets it. Then, and where an allocation is refused, the facts have to be as
/// they were.
fn learn(
    alloc: Global,
    score: &mut Score,
    facts: &mut Facts,
    pool: &Pool,
    cond: &Cond,
) -> Result<bool, Refused>
    requires covers { Covers facts.old pool.now }
    requires below { IsCondBelow (length pool.now) cond.now }
    ensures { Covers facts.new pool.now }
{
    let before = facts.fork()?;
    match facts.learn(alloc, pool, cond) {
        Ok(taken) => {
            score.expect(taken || facts.is_same(&before));
            Ok(taken)
        }
        Err(fault) => {
            score.refuse(fault.into(), facts.is_same(&before));
            Ok(facts.learn(alloc, pool, cond)?)
        }
    }
}

/// A limit of word 3, which the facts take in.
#[derive(Clone, Copy)]
enum Limit {
    /// The word is from 0 to 1000.
    Low,
    /// The word is even.
    Even,
}

/// Takes in a limit by one call. False where no input keeps to it.
fn confine_once(
    alloc: Global,
    facts: &mut Facts,
    pool: &Pool,
    limit: Limit,
) -> Result<bool, sf_dom::Fault>
    requires { Covers facts.old pool.now }
    ensures { Covers facts.new pool.now }
{
    match limit {
        Limit::Low => facts.confine(alloc, pool, 3, 0, 1000),
        Limit::Even => facts.confine_bits(alloc, pool, 3, 1, 0),
    }
}

/// Takes in a limit. False where no input keeps to it. Then, and where an allocation is refused, the facts have to be
/// as they were.
fn confine(
    alloc: Global,
    score: &mut Score,
    facts: &mut Facts,
    pool: &Pool,
    limit: Limit,
) -> Result<bool, Refused>
    requires { Covers facts.old pool.now }
    ensures { Covers facts.new pool.now }
{
    let before = facts.fork()?;
    match confine_once(alloc, facts, pool, limit) {
        Ok(taken) => {
            score.expect(taken || facts.is_same(&before));
            Ok(taken)
        }
        Err(fault) => {
            score.refuse(fault.into(), facts.is_same(&before));
            Ok(confine_once(alloc, facts, pool, limit)?)
        }
    }
}

/// Takes in a number that a fork of the piece's pool got. The facts have to differ from the piece's then.
fn grow(alloc: Global, score: &mut Score, piece: &Piece) -> Result<(), Refused> {
    let mut pool = piece.pool().fork()?;
    let before = pool.fork()?;
    let _id = push(score, &mut pool, &before, 2000)?;
    let mut facts = piece.facts().fork()?;
    let grown = match facts.grow(alloc, &pool) {
        Ok(grown) => grown,
        Err(fault) => {
            score.refuse(fault.into(), facts.is_same(piece.facts()));
            facts.grow(alloc, &pool)?
        }
    };
    score.expect(grown && !facts.is_same(piece.facts()));
    Ok(())
}

/// The node of the number 0. The pool of each piece has one.
fn zero_of(pool: &Pool) -> Option<NodeId>
    ensures { IfSome result (λ id. id.0 < length pool.now) }
{
    for i in 0..pool.len() {
        if pool.node_at(i) == Node::Const(0) {
            return Some(NodeId(i as u32));
        }
    }
    None
}

/// Learns on a fork of the piece's facts that word 3 is even, at most 1000 and not 0; 2 has to be the least number that
/// is left. Then says whether word 0 may be above word 1. The piece reads no word 3.
pub fn try_facts(alloc: Global, score: &mut Score, piece: &Piece) -> Result<bool, Refused> {
    grow(alloc, score, piece)?;
    let pool = piece.pool();
    if pool.len() < 17 {
        score.expect(false);
        return Ok(false);
    }
    let Some(zero) = zero_of(pool) else {
        score.expect(false);
        return Ok(false);
    };
    let mut facts = piece.facts().fork()?;
    let is_low = confine(alloc, score, &mut facts, pool, Limit::Low)?;
    let is_even = confine(alloc, score, &mut facts, pool, Limit::Even)?;
    let not_0 = Cond {
        node: NodeId(3),
        test: Test::Equal,
        other: zero,
        sense: false,
    };
    let is_more = learn(alloc, score, &mut facts, pool, &not_0)?;
    score.expect(is_low && is_even && is_more && facts.least(3) == Some(2));
    let above = Cond {
        node: NodeId(0),
        test: Test::Greater,
        other: NodeId(1),
        sense: true,
    };
    learn(alloc, score, &mut facts, pool, &above)
}

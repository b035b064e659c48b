//! What is left of the facts of a pool where a condition is met, or where more is known of a word. The facts that are
//! handed in, `nodes` and `excluded`, stay as they are.

ghost use Rattle.std.specs.Prelude.{◌≡◌, ℕ, ◌<◌, ◌≤◌, List, length, MatchOption, IfOk, IfSome, Some, None};
ghost use Rattle.sf_sym.specs.Pool.{IsCondBelow};
ghost use Rattle.sf_dom.specs.Learning.{AreExcludedBy, ConditionGives, MoreGives};
ghost use Rattle.sf_dom.specs.Passes.{IsAtRest, AreFixed};

use crate::assuming::{assume_cond, exclude_each_other, known_left, pair_left};
use crate::exclusions::Excluded;
use crate::fault::Fault;
use crate::known::Known;
use crate::nodes::Nodes;
use crate::propagation::propagate;
use sf_insn::Test;
use sf_sym::{Cond, Pool};
use std::alloc::Global;

/// A copy of the excluded numbers, with those that the condition excludes: only one by which its nodes differ does.
fn with_excluded_by(
    alloc: Global,
    excluded: &Excluded,
    nodes: &Nodes,
    pool: &Pool,
    cond: &Cond,
) -> Result<Excluded, Fault>
    requires covers { length nodes.now.known ≡ length pool.now }
    requires below { IsCondBelow (length pool.now) cond.now }
    ensures { IfOk result (λ e. AreExcludedBy nodes.now.known excluded.now e
        pool.now cond.now) }
{
    match (cond.test, cond.sense) {
        (Test::Equal, false) => {
            let mut more = excluded.copy()?;
            exclude_each_other(alloc, &mut more, nodes, pool, cond)?;
            Ok(more)
        }
        (Test::Equal, true) | (Test::Greater | Test::GreaterOrEqual | Test::AnyBit, _) => {
            excluded.copy()
        }
    }
}

/// Copies of `nodes` and `excluded` that have taken in a condition; `None` where some node is left no number. The nodes
/// are copied only where `pair_left` leaves both of the condition's nodes a number.
pub(crate) fn learn_cond(
    alloc: Global,
    nodes: &Nodes,
    excluded: &Excluded,
    pool: &Pool,
    cond: &Cond,
) -> Result<Option<(Nodes, Excluded)>, Fault>
    requires count { length nodes.now.known ≡ length pool.now }
    requires rest { (i : ℕ) → i < length pool.now
        → IsAtRest nodes.now.known excluded.now pool.now i }
    requires fixed { AreFixed nodes.now.variables nodes.now.known pool.now }
    requires below { IsCondBelow (length pool.now) cond.now }
    ensures rule { IfOk result (λ o. MatchOption o
        ((ex : List ℕ) × AreExcludedBy nodes.now.known excluded.now ex pool.now cond.now
        × ConditionGives nodes.now.known ex pool.now cond.now None)
        (λ r. AreExcludedBy nodes.now.known excluded.now r.1 pool.now cond.now
        × ConditionGives nodes.now.known r.1 pool.now cond.now
        (Some r.0.known))) }
    ensures variables { IfOk result (λ o. IfSome o (λ r. r.0.variables ≡ nodes.now.variables)) }
{
    // For the prover: the pool is lawful.
    let _count = pool.len();
    let lists = with_excluded_by(alloc, excluded, nodes, pool, cond)?;
    let Some(alone) = pair_left(nodes, &lists, cond) else {
        return Ok(None);
    };
    let mut left = nodes.fork(alloc)?;
    if !assume_cond(&mut left, &lists, pool, cond, alone) {
        return Ok(None);
    }
    Ok(Some((left, lists)))
}

/// A copy of `nodes` in which `more` is known of a word, and what follows from it; `None` where some node is left no
/// number. The nodes are copied only where the word is left one.
pub(crate) fn restrict(
    alloc: Global,
    nodes: &Nodes,
    excluded: &Excluded,
    pool: &Pool,
    word: usize,
    more: Known,
) -> Result<Option<Nodes>, Fault>
    requires count { length nodes.now.known ≡ length pool.now }
    requires rest { (i : ℕ) → i < length pool.now
        → IsAtRest nodes.now.known excluded.now pool.now i }
    requires fixed { AreFixed nodes.now.variables nodes.now.known pool.now }
    requires word { word < 16 }
    ensures rule { IfOk result (λ o. MatchOption o
        (MoreGives nodes.now.known excluded.now pool.now word more None)
        (λ r. MoreGives nodes.now.known excluded.now pool.now word more
        (Some r.known))) }
    ensures variables { IfOk result (λ o. IfSome o (λ r. r.variables ≡ nodes.now.variables)) }
{
    // For the prover: the pool has all words.
    let count = pool.len();
    prove!(word < count);
    let Some(left) = known_left(nodes, excluded, word, more) else {
        return Ok(None);
    };
    let mut next = nodes.fork(alloc)?;
    next.set(word, left);
    if !propagate(&mut next, excluded, pool) {
        return Ok(None);
    }
    Ok(Some(next))
}

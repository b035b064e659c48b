//! The symbolic words that an instruction makes.

ghost use Rattle.std.specs.Prelude.{IfOk, MatchOption, length, option_map};
ghost use Rattle.sf_check.specs.Stacks.{IsPlain};
ghost use Rattle.sf_sym.specs.Pool.{OperandsBelow};
ghost use Rattle.sf_dom.specs.Facts.{IsWordOrConst};
ghost use Rattle.sf_piece.specs.Pieces.{HasNoMember};
ghost use Rattle.sf_piece.specs.SymbolicRun.{IsLawfulPiece};
ghost use Rattle.sf_piece.specs.Execution.{Gets, GetsOperand};
ghost use Rattle.sf_piece.specs.Works.{IsPushed, IsOperand};

use crate::fault::Fault;
use crate::run::Run;
use sf_check::Operand;
use sf_dom::rules_are_sound;
use sf_sym::{Node, NodeId};
use std::alloc::Global;

/// Puts a node in the pool and takes it into the facts. `None` where what is known of it contradicts: the piece has no
/// member then. On `None` and on an error only the pool may have changed.
pub(crate) fn push(alloc: Global, run: &mut Run, node: Node) -> Result<Option<NodeId>, Fault>
    requires lawful { IsLawfulPiece run.old }
    requires below { OperandsBelow (length run.old.pool) node }
    requires plain { IsPlain run.old.stack → IsWordOrConst node }
    ensures pushed { IfOk result (λ o. MatchOption o (HasNoMember run.old)
        (λ id. IsPushed run.old node run.new id)) }
    ensures rule { IfOk result (λ o. Gets run.old node (option_map (λ id. (run.new, id)) o)) }
{
    // For the prover: facts that take in newer nodes by the rules lose no input.
    rules_are_sound();
    let id = run.pool.push(node)?;
    if !run.facts.grow(alloc, &run.pool)? {
        return Ok(None);
    }
    Ok(Some(id))
}

/// The node of the second word of an operation or a test, as `push` gives it.
pub(crate) fn operand(alloc: Global, run: &mut Run, other: Operand) -> Result<Option<NodeId>, Fault>
    requires { IsLawfulPiece run.old }
    ensures made { IfOk result (λ o. MatchOption o (HasNoMember run.old)
        (λ id. IsOperand run.old other run.new id)) }
    ensures rule { IfOk result (λ o.
        GetsOperand run.old other (option_map (λ id. (run.new, id)) o)) }
{
    match other {
        Operand::Constant(k) => push(alloc, run, Node::Const(k)),
        Operand::X => Ok(Some(run.machine.x)),
    }
}

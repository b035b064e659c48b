//! Laws of the rules of symbolic execution.

ghost use Rattle.sf_piece.specs.OneExecution.{IsExecutionOne};
ghost use Rattle.sf_piece.specs.Sizes.{PiecesAreSmall};

use sf_dom::rules_have_one_result;

/// For the prover: by the rules a piece has at most one step, and no two pieces of a stack's tree have the same name.
pub fn execution_has_one_result()
    ensures { IsExecutionOne }
{
    rules_have_one_result();
}

/// Pieces stay small, also while they are worked: no list or name of theirs gets too long. So `advance` is refused only
/// for an allocation, or for something that has too many owners.
pub fn pieces_are_small()
    ensures { PiecesAreSmall }
{}

//! Members of pieces, looked for where no question is asked.

ghost use Rattle.std.specs.Prelude.{◌≡◌, IfOk, IfErr, IfNone};
ghost use Rattle.sf_check.specs.Stacks.{IsPlain};
ghost use Rattle.sf_question.specs.declared.fault.Fault.TheVariants.{Memory};
ghost use Rattle.sf_ask.specs.Members.{FindsMember};

use crate::judging::{is_member_of, least_input};
use sf_insn::Input;
use sf_piece::Piece;
use sf_question::Fault;
use std::alloc::Global;

/// The input that has in each word the least number that the piece's facts leave, if it is a member. On a plain stack
/// it always is. On others `None` leaves open whether the piece has a member.
pub fn find_member(alloc: Global, piece: &Piece) -> Result<Option<Input>, Fault>
    ensures rule { IfOk result (FindsMember piece.now) }
    ensures plain { IsPlain piece.now.stack → IfOk result (λ o. IfNone o ⊥) }
    ensures err { IfErr result (λ f. f ≡ Memory) }
{
    let Some(least) = least_input(piece.facts()) else {
        return Ok(None);
    };
    if !is_member_of(alloc, piece, &least)? {
        return Ok(None);
    }
    Ok(Some(least))
}

//! Laws of the rules of verdicts and of replies.

ghost use Rattle.sf_ask.specs.OneResult.{HaveOneVerdict, HaveOneReply};

use sf_book::laws::explorations_have_one_result;
use sf_dom::rules_have_one_result;
use sf_piece::laws::execution_has_one_result;

/// For the prover: by the rules a question has one verdict on a region.
pub fn verdicts_have_one_result()
    ensures { HaveOneVerdict }
{
    rules_have_one_result();
}

/// For the prover: by the rules a question has one reply on a stack whose exploration ended with nothing outstanding,
/// whatever the budget was, and in whatever order the works came.
pub fn replies_have_one_result()
    ensures { HaveOneReply }
{
    explorations_have_one_result();
    execution_has_one_result();
    verdicts_have_one_result();
}

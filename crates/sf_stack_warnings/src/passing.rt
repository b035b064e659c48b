//! Whether any call gets through a stack.

ghost use Rattle.std.specs.Prelude.{◌≡◌, not, IsTrue};
ghost use Rattle.std.specs.List.{list_all};
ghost use Rattle.sf_stack_warnings.specs.Passing.{LetsNoneThrough, lets_none_through, may_let_through};

use sf_book::Settled;
use sf_run::Action;

/// Whether a call may get through by an action: by ALLOW and LOG it does, and by TRACE and USER_NOTIF another process
/// decides.
pub fn may_let_through(action: Action) -> bool
    ensures { result ≡ may_let_through action }
{
    matches!(
        action,
        Action::Allow | Action::Log | Action::Trace | Action::UserNotif
    )
}

#[tactic(auto, using(crate::proofs::passing::PassingLemmas::one_more, crate::proofs::passing::PassingLemmas::one_passes))]
fn each_refuses(settled: &Settled) -> bool
    ensures { result ≡ list_all (λ r. not (may_let_through r.answer.action)) settled.now.regions }
{
    for place in 0..settled.region_count() {
        if may_let_through(settled.region(place).answer().action) {
            return false;
        }
    }
    true
}

/// Whether an exploration found that a stack lets no call through. `false` doesn't say that a call gets through: a
/// piece may be outstanding, the region with such an answer may have no member, or another process may decide.
pub fn lets_none_through(settled: &Settled) -> bool
    ensures found { result ≡ lets_none_through settled.now }
    ensures none { IsTrue result → LetsNoneThrough settled.now.stack }
{
    settled.outstanding_count() == 0 && each_refuses(settled)
}

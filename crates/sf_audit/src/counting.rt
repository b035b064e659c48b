//! Replies, counted.

ghost use Rattle.std.specs.Prelude.{◌≡◌, count_by};
ghost use Rattle.sf_audit.specs.Reports.{is_never, is_allowed, is_unsettled};

use sf_ask::Reply;

pub(crate) fn is_allowed(reply: &Reply) -> bool
    ensures { result ≡ is_allowed reply.now }
{
    matches!(reply, Reply::Allowed(_))
}

/// How many replies say that no input breaks their question.
pub fn count_never(replies: &[Reply]) -> usize
    ensures { result ≡ count_by is_never replies.now }
{
    replies
        .iter()
        .filter(|reply| matches!(reply, Reply::Never))
        .count()
}

/// How many replies say that their question is allowed. Each of these replies has an example.
pub fn count_allowed(replies: &[Reply]) -> usize
    ensures { result ≡ count_by is_allowed replies.now }
{
    replies
        .iter()
        .filter(|reply| matches!(reply, Reply::Allowed(_)))
        .count()
}

/// How many replies are unsettled: they leave it open whether an input breaks the question.
pub fn count_unsettled(replies: &[Reply]) -> usize
    ensures { result ≡ count_by is_unsettled replies.now }
{
    replies
        .iter()
        .filter(|reply| matches!(reply, Reply::Unsettled))
        .count()
}

//! How large a profile may be.

ghost use Rattle.std.specs.Prelude.{◌≡◌, ◌+◌};
ghost use Rattle.serde_json.specs.View.{view};
ghost use Rattle.sf_profile.specs.Limits.{calls_left, has_few_parts, size_of_rule};

use crate::rules::Rule;
use crate::tree::items_at;
use serde_json::Value;

/// How many names a rule may have. A file of names has some 460 calls in its largest set.
pub(crate) const MOST_NAMES: usize = 1024;

/// How many comparisons a rule may have. A call has six arguments.
pub(crate) const MOST_COMPARISONS: usize = 64;

/// How many calls the rules of a set may have. A call takes two instructions and more, and a filter has 4,096 at most.
pub(crate) const MOST_CALLS: usize = 2048;

/// What all rules of a profile may count for, as `size_of_rule` counts. The usual profiles of containers count for 500.
pub(crate) const MOST_IN_ALL: usize = 8192;

/// What a rule counts for: one, and one for each name at its key `names`.
pub(crate) fn size_of_rule(value: &Value) -> usize
    ensures { result ≡ size_of_rule (view value.now) }
{
    items_at(value, "names").len() + 1
}

/// Whether a rule has at most 1,024 names and 64 comparisons, and counts for no more than `left`.
pub(crate) fn has_few_parts(left: usize, value: &Value) -> bool
    ensures { result ≡ has_few_parts left (view value.now) }
{
    items_at(value, "names").len() <= MOST_NAMES
        && items_at(value, "args").len() <= MOST_COMPARISONS
        && size_of_rule(value) <= left
}

/// How many calls are left of `most` without those of the rules.
#[tactic(auto, using(crate::proofs::limits::LimitLemmas::next_left))]
pub(crate) fn calls_left(most: usize, rules: &[Rule]) -> Option<usize>
    ensures { result ≡ calls_left most rules.now }
{
    let mut left = most;
    for rule in rules {
        let count = rule.calls.len();
        if left < count {
            return None;
        }
        left -= count;
    }
    Some(left)
}

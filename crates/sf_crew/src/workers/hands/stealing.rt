//! How leases are stolen.
ghost use Rattle.std.specs.Prelude.{◌<◌, length};
ghost use Rattle.sf_crew.specs.Workers.{thief_views, Steals};

use crate::benches::Thief;
use crate::workers::hands::Held;
use crate::workers::naming::{NamedLease, Naming};
use crossbeam_deque::Steal;

fn steal_at<N: Naming>(others: &mut [Thief<NamedLease<N>>], place: usize) -> Option<Held<N>>
    requires { place < length others.old }
    ensures { Steals (thief_views others.old) result (thief_views others.new) }
{
    match others[place].steal() {
        Steal::Success(lease) => Some(Held { lease }),
        Steal::Empty | Steal::Retry => None,
    }
}

/// Tries the bench of each thief once, in order, and returns the first lease that it gets.
pub(crate) fn steal_from<N: Naming>(others: &mut [Thief<NamedLease<N>>]) -> Option<Held<N>>
    ensures { Steals (thief_views others.old) result (thief_views others.new) }
{
    for place in 0..others.len() {
        if let Some(held) = steal_at(others, place) {
            return Some(held);
        }
    }
    None
}

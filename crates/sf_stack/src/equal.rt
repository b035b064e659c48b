//! Filters that are there twice.

ghost use Rattle.std.specs.Prelude.{ℕ, ◌<◌, length, IfSome, IfNone};
ghost use Rattle.sf_stack.specs.Equal.{AreDifferent, AreSame, AreFirstSame};

use sf_check::Program;

/// The first place before `later` of a filter with the same instructions as the one at `later`. Places count from 0.
fn same_before(programs: &[Program], later: usize) -> Option<usize>
    requires { later < length programs.now }
    ensures same { IfSome result (λ earlier. AreSame programs.now earlier later) }
    ensures first { IfSome result (λ earlier. (i : ℕ) → i < earlier
        → ¬ AreSame programs.now i later) }
    ensures apart { IfNone result ((earlier : ℕ) → ¬ AreSame programs.now earlier later) }
{
    for earlier in 0..later {
        if programs[earlier].is_same(&programs[later]) {
            return Some(earlier);
        }
    }
    None
}

/// The places, from 0, of two filters with the same instructions, the lower place first.
pub fn first_same(programs: &[Program]) -> Option<(usize, usize)>
    ensures same { IfSome result (λ r. AreFirstSame programs.now r.0 r.1) }
    ensures apart { IfNone result (AreDifferent programs.now) }
{
    for later in 0..programs.len() {
        if let Some(earlier) = same_before(programs, later) {
            return Some((earlier, later));
        }
    }
    None
}

//! Laws of benches, for the reader.

ghost use Rattle.std.specs.Prelude.{List};
ghost use Rattle.sf_crew.specs.declared.benches.history.Event.{Event};
ghost use Rattle.sf_crew.specs.declared.benches.history.HandleView.{HandleView};
ghost use Rattle.sf_crew.specs.History.{HasHistory, IsWhole};
ghost use Rattle.sf_crew.specs.Gets.{IsSharedOut, IsAllKnown};

/// For the prover: handles of a bench that are joined share out what was put, by each history that fits what they know.
pub fn handles_share_what_was_put<T>()
    ensures { (v : HandleView T) (h : List (Event T)) → HasHistory v h → IsSharedOut v h }
{}

/// For the prover: where all handles of a bench are joined, what they know fits just one history.
pub fn joined_handles_know_all<T>()
    ensures { (v : HandleView T) (h : List (Event T)) → IsWhole v → HasHistory v h
        → IsAllKnown v h }
{}

//! The atomic steps of a board. Each keeps the board's rule, and shows its seat something of the board.
use crate::board::view::{BoardKey, View};
use atomic_table::{Join, Play, Split, TableRule};

// The words of a board: the next job; how many sheets were entered; four words of doubts, where question q has bit
// q % 64 of the word q / 64; and the least place of each question.
pub(crate) const NEXT: usize = 0;

pub(crate) const ENTERED: usize = 1;

pub(crate) const DOUBTS: usize = 2;

pub(crate) const LEAST: usize = 6;
/// How many questions one word of doubts has bits for.
pub(crate) const BITS: usize = 64;

pub(crate) struct WholeBoard;

impl TableRule<u8, View, BoardKey> for WholeBoard {
    ghost use Rattle.sf_crew.specs.BoardRule.{BoardKept};
    ghost use Rattle.sf_crew.specs.BoardSteps.{first_view};

    ghost holds = { BoardKept };

    ghost first = { first_view };
}

pub(crate) struct Draw;

impl Play<u8, View> for Draw {
    ghost use Rattle.std.specs.Prelude.{◌≡◌};
    ghost use Rattle.sf_crew.specs.BoardSteps.{Draws};

    ghost then = { λ st m n w. Draws m.0 n w.0 × (w.1 ≡ m.1) };
}

pub(crate) struct Look;

impl Play<u8, View> for Look {
    ghost use Rattle.std.specs.Prelude.{◌≡◌, ◌-◌};
    ghost use Rattle.sf_crew.specs.BoardSteps.{Looks};

    ghost then = { λ st m n w. Looks m.0 (st.word - 6) n w.0 × (w.1 ≡ m.1) };
}

pub(crate) struct Hits;

impl Play<u8, View> for Hits {
    ghost use Rattle.std.specs.Prelude.{◌≡◌, ◌-◌};
    ghost use Rattle.sf_crew.specs.BoardSteps.{view_with_note};

    ghost then = { λ st m n w. (w.0 ≡ view_with_note m.0 (st.word - 6) st.first)
        × (w.1 ≡ m.1) };
}

pub(crate) struct Mark;

impl Play<u8, View> for Mark {
    ghost use Rattle.std.specs.Prelude.{◌≡◌, ℕ, ◌+◌, ◌*◌, ◌/◌, ◌%◌, ◌^◌};
    ghost use Rattle.sf_crew.specs.BoardSteps.{view_with_mark};

    ghost then = { λ st m n w. ((q : ℕ) → st.word ≡ q / 64 + 2
        → st.first ≡ 1 * 2 ^ (q % 64) % 2 ^ 64 → w.0 ≡ view_with_mark m.0 q)
        × (w.1 ≡ m.1) };
}

pub(crate) struct Enter;

impl Play<u8, View> for Enter {
    ghost use Rattle.std.specs.Prelude.{◌≡◌, ℕ, Some};
    ghost use Rattle.sf_crew.specs.BoardSteps.{view_with_sheet};

    ghost then = { λ st m n w. ((j : ℕ) → m.0.owes ≡ Some j
        → w.0 ≡ view_with_sheet m.0 j) × (w.1 ≡ m.1) };
}

/// For the prover: the step of a seat that changes nothing, and tells what it knows of its jobs.
pub(crate) struct Glance;

impl Play<u8, View> for Glance {
    ghost use Rattle.std.specs.Prelude.{◌≡◌};
    ghost use Rattle.sf_crew.specs.BoardSteps.{Knows};

    ghost then = { λ st m n w. (w ≡ m) × Knows m.0 };
}

pub(crate) struct Deal;

impl Split<View> for Deal {
    ghost use Rattle.sf_crew.specs.BoardSteps.{kept_view, shared_view};

    ghost left = { kept_view };

    ghost right = { shared_view };
}

pub(crate) struct Merge;

impl Join<View> for Merge {
    ghost use Rattle.sf_crew.specs.BoardSteps.{joined_view, idle_view};

    ghost both = { joined_view };

    ghost spent = { idle_view };
}

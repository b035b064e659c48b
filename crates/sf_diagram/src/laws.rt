//! Laws of trees, each the contract of a function that does nothing.

ghost use Rattle.std.specs.Prelude.{◌≡◌, ◌≢◌, ◌<◌, ◌/◌, ◌%◌, ◌^◌, ℕ, List, length};
ghost use Rattle.sf_diagram.specs.Trees.{Tree, Bits, value, IsOrderedTree, IsReducedTree};
ghost use Rattle.sf_diagram.specs.Stores.{tree_at, AreCanonical};
ghost use Rattle.sf_diagram.specs.Operations.{pair_of};

/// Two ordered reduced trees that have one value on each input are one tree.
pub fn equal_values_make_equal_trees()
    ensures { (s t : Tree) → IsOrderedTree s → IsReducedTree s → IsOrderedTree t
        → IsReducedTree t
        → ((bits : Bits) → value s bits ≡ value t bits) → s ≡ t }
{}

/// Two ids of a store whose trees have one value on each input are one id.
pub fn equal_values_make_equal_ids()
    ensures { (ts : List Tree) (i j : ℕ) → AreCanonical ts → i < length ts → j < length ts
        → ((bits : Bits) → value (tree_at ts i) bits ≡ value (tree_at ts j) bits)
        → i ≡ j }
{}

/// The number that stands for two different numbers below 2^32 isn't 0, and gives them back.
pub fn pairs_give_both_back()
    ensures { (a b : ℕ) → a < 2 ^ 32 → b < 2 ^ 32 → a ≢ b → (pair_of a b ≢ 0)
        × (pair_of a b / 2 ^ 32 ≡ a) × (pair_of a b % 2 ^ 32 ≡ b) }
{}

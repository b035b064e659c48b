//! Laws of rows, each the contract of a function that does nothing.

ghost use Rattle.std.specs.Prelude.{◌≡◌, ◌+◌, ◌*◌, ◌==◌, ◌<◌, ◌^◌, ◌&&◌, [], ℕ, Bool, true, All, count_by, not, if◌then◌else◌};
ghost use Rattle.sf_diagram.specs.Trees.{Tree, Bits, value, IsOrderedFrom};
ghost use Rattle.sf_parts.specs.Words.{behind, word_number, EndsBefore};
ghost use Rattle.sf_parts.specs.Parts.{form_has, parts_in};
ghost use Rattle.sf_parts.specs.Rows.{is_in_row, rows_under};

/// Of the parts of a word exactly one has a number; no earlier word is tested.
pub fn each_number_has_one_part()
    ensures { (word : ℕ) (apart : Bool) (t : Tree) (n : ℕ) → IsOrderedFrom (32 * word) t
        → count_by (λ p. form_has p.form n) (parts_in word apart t) ≡ 1 }
{}

/// Each part of a word has a number, and behind its numbers comes what the part says: the value of a tree on an input
/// is the value of what comes behind the number that the input has in the word.
pub fn parts_lead_on()
    ensures some { (word : ℕ) (apart : Bool) (t : Tree) → IsOrderedFrom (32 * word) t
        → All (λ p. (n : ℕ) × (n < 2 ^ 32) × (form_has p.form n ≡ true))
        (parts_in word apart t) }
    ensures leads { (word : ℕ) (apart : Bool) (t : Tree) (n : ℕ) → IsOrderedFrom (32 * word) t
        → All (λ p. form_has p.form n ≡ true → p.behind ≡ behind word t n)
        (parts_in word apart t) }
    ensures value { (word : ℕ) (t : Tree) (bits : Bits)
        → value t bits ≡ value (behind word t (word_number word bits)) bits }
{}

/// Of the rows of a tree that tests only these n words, exactly one has an input, or none if its value is hidden.
pub fn each_input_is_in_one_row()
    ensures { (apart hidden n word : ℕ) (t : Tree) (bits : Bits) → IsOrderedFrom (32 * word) t
        → EndsBefore (32 * (word + n)) t
        → count_by (is_in_row bits) (rows_under apart hidden n word t [])
        ≡ (if value t bits == hidden then 0 else 1) }
{}

/// No row that has an input has another number than the tree has on it.
pub fn rows_have_the_number()
    ensures { (apart hidden n word : ℕ) (t : Tree) (bits : Bits) → IsOrderedFrom (32 * word) t
        → EndsBefore (32 * (word + n)) t
        → count_by (λ r. is_in_row bits r && not (r.number == value t bits))
        (rows_under apart hidden n word t []) ≡ 0 }
{}

/// Each row has an input.
pub fn each_row_has_an_input()
    ensures { (apart hidden n word : ℕ) (t : Tree) → IsOrderedFrom (32 * word) t
        → All (λ r. (bits : Bits) × (is_in_row bits r ≡ true))
        (rows_under apart hidden n word t []) }
{}

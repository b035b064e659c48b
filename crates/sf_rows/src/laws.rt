//! Laws of rows, each the contract of a function that does nothing, or only calls other laws.

ghost use Rattle.std.specs.Prelude.{◌≡◌, ◌≢◌, ◌↔◌, ◌==◌, ℕ, List, Contains, Option, count_by, if◌then◌else◌, true};
ghost use Rattle.sf_insn.specs.declared.input.Input.{Input};
ghost use Rattle.sf_insn.specs.Inputs.{IsInput};
ghost use Rattle.sf_check.specs.declared.insn.Insn.{Insn};
ghost use Rattle.sf_run.specs.declared.action.Answer.{Answer};
ghost use Rattle.sf_run.specs.Answers.{Answers};
ghost use Rattle.sf_diagram.specs.Trees.{Bits, Tree, value};
ghost use Rattle.sf_behaviour.specs.Answering.{answer_with};
ghost use Rattle.sf_behaviour.specs.InputBits.{input_bits};
ghost use Rattle.sf_parts.specs.Rows.{RowData};
ghost use Rattle.sf_names.specs.Names.{CallData, NamesData};
ghost use Rattle.sf_relations.specs.declared.relation.Relation.{Relation};
ghost use Rattle.sf_rows.specs.declared.subject.Subject.{Subject};
ghost use Rattle.sf_rows.specs.declared.subject.Subject.TheVariants as subject;
ghost use Rattle.sf_rows.specs.Trees.{AreAskedFor, IsAnswersTree, IsInputTree, IsTreeOf, change_number, is_named_call, unnamed_number};
ghost use Rattle.sf_rows.specs.Rows.{IsOfCall, after_of, before_of, lies_in, rows_of, rows_of_call, hidden_number, tree_word};
ghost use Rattle.sf_rows.specs.Shown.{IsShown, ShownData};

use sf_behaviour::each_input_has_variables;
use sf_diagram::{equal_values_make_equal_trees, pairs_give_both_back};
use sf_parts::{each_input_is_in_one_row, parts_lead_on, rows_have_the_number};

/// An input lies in exactly one row of a tree, which has the tree's number on it, or in none where no row shows that
/// number.
pub fn each_input_lies_in_its_row()
    ensures one { (s : Subject) (t : Tree) (d : Input) → IsInputTree t → IsInput d
        → count_by (lies_in d) (rows_of s t)
        ≡ (if value t (input_bits d) == hidden_number s then 0 else 1) }
    ensures number { (s : Subject) (t : Tree) (d : Input) (r : RowData) → IsInputTree t
        → IsInput d → Contains (rows_of s t) r → lies_in d r ≡ true
        → r.number ≡ value t (input_bits d) }
{
    each_input_is_in_one_row();
    rows_have_the_number();
}

/// The same of an input of a call, and the rows of that call.
pub fn each_input_of_a_call_lies_in_its_row()
    ensures one { (s : Subject) (t : Tree) (n : NamesData) (c : CallData) (d : Input)
        → IsInputTree t → IsInput d → IsOfCall n c d
        → count_by (lies_in d) (rows_of_call s t n.arch c.number)
        ≡ (if value t (input_bits d) == hidden_number s then 0 else 1) }
    ensures number { (s : Subject) (t : Tree) (n : NamesData) (c : CallData) (d : Input)
        (r : RowData) → IsInputTree t → IsInput d → IsOfCall n c d
        → Contains (rows_of_call s t n.arch c.number) r → lies_in d r ≡ true
        → r.number ≡ value t (input_bits d) }
{
    each_input_is_in_one_row();
    rows_have_the_number();
    parts_lead_on();
}

/// The tree of a stack's answers has on each input the number of the stack's answer, which a row shows.
pub fn trees_have_the_answers()
    ensures answer { (programs : List (List Insn)) (t : Tree) (d : Input) (a : Answer)
        → IsAnswersTree programs t → IsInput d → Answers programs d a
        → (answer_with (value t (input_bits d)) ≡ a)
        × (value t (input_bits d) ≢ hidden_number subject.Stack) }
    ensures input { (programs : List (List Insn)) (t : Tree) → IsAnswersTree programs t
        → IsInputTree t }
{
    each_input_has_variables();
    equal_values_make_equal_trees();
}

/// The tree of what changes has the number that gives both answers back on each input whose answers are asked for, and
/// on each other input the number that no row shows.
pub fn trees_have_the_changes()
    ensures unasked { (only : Option Relation) (old new : List (List Insn)) (s t u : Tree)
        (d : Input) (a b : Answer) → IsAnswersTree old s → IsAnswersTree new t
        → IsTreeOf (λ bits. change_number only (value s bits) (value t bits)) u → IsInput d
        → Answers old d a → Answers new d b → (AreAskedFor only a b → ⊥)
        → value u (input_bits d) ≡ hidden_number subject.Change }
    ensures asked { (only : Option Relation) (old new : List (List Insn)) (s t u : Tree)
        (d : Input) (a b : Answer) → IsAnswersTree old s → IsAnswersTree new t
        → IsTreeOf (λ bits. change_number only (value s bits) (value t bits)) u → IsInput d
        → Answers old d a → Answers new d b → AreAskedFor only a b
        → (value u (input_bits d) ≢ hidden_number subject.Change)
        × (before_of (value u (input_bits d)) ≡ a) × (after_of (value u (input_bits d)) ≡ b) }
    ensures input { (only : Option Relation) (s t u : Tree) → IsInputTree s → IsInputTree t
        → IsTreeOf (λ bits. change_number only (value s bits) (value t bits)) u
        → IsInputTree u }
{
    each_input_has_variables();
    equal_values_make_equal_trees();
    pairs_give_both_back();
}

/// Where all calls are shown, the other rows have each input of a call without a name, and no input of a named call.
pub fn each_other_input_lies_in_its_row()
    ensures one { (s : Subject) (t rest : Tree) (sets : List NamesData) (d : Input)
        → IsInputTree t → IsTreeOf (unnamed_number sets (hidden_number s) t) rest → IsInput d
        → count_by (lies_in d) (rows_of s rest)
        ≡ (if is_named_call sets (tree_word d 18) (tree_word d 19) then 0
        else if value t (input_bits d) == hidden_number s then 0 else 1) }
    ensures number { (s : Subject) (t rest : Tree) (sets : List NamesData) (d : Input) (r : RowData)
        → IsInputTree t → IsTreeOf (unnamed_number sets (hidden_number s) t) rest → IsInput d
        → Contains (rows_of s rest) r → lies_in d r ≡ true
        → r.number ≡ value t (input_bits d) }
{
    each_input_lies_in_its_row();
    equal_values_make_equal_trees();
}

/// Two stacks that answer alike on each input have one tree, and so the same rows.
pub fn equal_answers_are_shown_alike()
    ensures tree { (p q : List (List Insn)) (s t : Tree) → IsAnswersTree p s → IsAnswersTree q t
        → ((d : Input) (a : Answer) → IsInput d → Answers p d a
        → Answers q d a) → s ≡ t }
    ensures shown { (calls : Option (List (List ℕ))) (s : Subject) (t : Tree)
        (sets : List NamesData) (x y : ShownData)
        → IsShown calls s t sets x → IsShown calls s t sets y → x ≡ y }
{
    each_input_has_variables();
    equal_values_make_equal_trees();
}

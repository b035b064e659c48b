//! Laws of listings and of changes, each the contract of a function that does nothing, or only calls other laws.

ghost use Rattle.std.specs.Prelude.{◌≡◌, ℕ, List, [], Option, Some, None, Contains, count_by, if◌then◌else◌, true};
ghost use Rattle.sf_insn.specs.declared.input.Input.{Input};
ghost use Rattle.sf_insn.specs.Inputs.{IsInput};
ghost use Rattle.sf_check.specs.declared.insn.Insn.{Insn};
ghost use Rattle.sf_run.specs.declared.action.Answer.{Answer};
ghost use Rattle.sf_run.specs.Answers.{Answers};
ghost use Rattle.sf_behaviour.specs.Answering.{answer_with};
ghost use Rattle.sf_parts.specs.Rows.{RowData};
ghost use Rattle.sf_names.specs.Names.{CallData, NamesData};
ghost use Rattle.sf_rows.specs.declared.subject.Subject.TheVariants as subject;
ghost use Rattle.sf_rows.specs.Trees.{AreAskedFor, is_named_call};
ghost use Rattle.sf_rows.specs.Rows.{IsOfCall, after_of, before_of, lies_in, rows_of_call, tree_word};
ghost use Rattle.sf_stack.specs.Texts.{filters_line};
ghost use Rattle.sf_list.specs.Listings.{IsListing, Listed, digest_line, listing_text};
ghost use Rattle.sf_list.specs.Changes.{AreChanges, ChangedData};

use sf_rows::laws::{
    each_input_lies_in_its_row, each_input_of_a_call_lies_in_its_row,
    each_other_input_lies_in_its_row, equal_answers_are_shown_alike, trees_have_the_answers,
    trees_have_the_changes,
};

/// Where each row stands by itself, each input lies in exactly one row, and this has the stack's answer to it.
pub fn each_input_is_listed()
    ensures one { (sets : List NamesData) (l : Listed)
        (d : Input) (a : Answer) → IsListing sets None l → IsInput d
        → Answers l.programs d a → count_by (lies_in d) l.shown.rows ≡ 1 }
    ensures answer { (sets : List NamesData) (l : Listed)
        (d : Input) (a : Answer) (r : RowData) → IsListing sets None l → IsInput d
        → Answers l.programs d a → Contains l.shown.rows r → lies_in d r ≡ true
        → answer_with r.number ≡ a }
{
    each_input_lies_in_its_row();
    trees_have_the_answers();
}

/// Where rows stand call by call, each input of a call lies in exactly one row of the call, and this has the stack's
/// answer to it.
pub fn each_input_of_a_call_is_listed()
    ensures one { (sets : List NamesData)
        (calls : Option (List (List ℕ))) (l : Listed) (n : NamesData) (c : CallData) (d : Input)
        (a : Answer) → (h : IsListing sets calls l) → IsInput d → IsOfCall n c d
        → Answers l.programs d a
        → count_by (lies_in d) (rows_of_call subject.Stack h.tree n.arch c.number) ≡ 1 }
    ensures answer { (sets : List NamesData)
        (calls : Option (List (List ℕ))) (l : Listed) (n : NamesData) (c : CallData) (d : Input)
        (a : Answer) (r : RowData) → (h : IsListing sets calls l) → IsInput d
        → IsOfCall n c d → Answers l.programs d a
        → Contains (rows_of_call subject.Stack h.tree n.arch c.number) r → lies_in d r ≡ true
        → answer_with r.number ≡ a }
{
    each_input_of_a_call_lies_in_its_row();
    trees_have_the_answers();
}

/// Where the rows of all calls are shown, each input of a call without a name lies in exactly one of the other rows,
/// and this has the stack's answer to it; an input of a named call lies in none of them.
pub fn each_other_input_is_listed()
    ensures one { (sets : List NamesData) (l : Listed)
        (d : Input) (a : Answer) → IsListing sets (Some []) l → IsInput d
        → Answers l.programs d a → count_by (lies_in d) l.shown.rows
        ≡ (if is_named_call sets (tree_word d 18) (tree_word d 19) then 0 else 1) }
    ensures answer { (sets : List NamesData) (l : Listed)
        (d : Input) (a : Answer) (r : RowData) → IsListing sets (Some []) l
        → IsInput d → Answers l.programs d a → Contains l.shown.rows r
        → lies_in d r ≡ true
        → answer_with r.number ≡ a }
{
    each_other_input_lies_in_its_row();
    trees_have_the_answers();
}

/// Where what changes is shown, each row by itself, an input whose two answers are asked for lies in exactly one row,
/// and this has both; any other input lies in none. Without a relation answers are asked for that differ.
pub fn each_change_is_listed()
    ensures none { (old new : List (List Insn)) (sets : List NamesData) (x : ChangedData)
        (d : Input) (a b : Answer) → AreChanges old new sets None x → IsInput d
        → Answers old d a → Answers new d b → (AreAskedFor x.only a b → ⊥)
        → count_by (lies_in d) x.shown.rows ≡ 0 }
    ensures one { (old new : List (List Insn)) (sets : List NamesData) (x : ChangedData)
        (d : Input) (a b : Answer) → AreChanges old new sets None x → IsInput d
        → Answers old d a → Answers new d b → AreAskedFor x.only a b
        → count_by (lies_in d) x.shown.rows ≡ 1 }
    ensures answers { (old new : List (List Insn)) (sets : List NamesData) (x : ChangedData)
        (d : Input) (a b : Answer) (r : RowData) → AreChanges old new sets None x → IsInput d
        → Answers old d a → Answers new d b → AreAskedFor x.only a b
        → Contains x.shown.rows r → lies_in d r ≡ true
        → (before_of r.number ≡ a) × (after_of r.number ≡ b) }
{
    each_input_lies_in_its_row();
    trees_have_the_answers();
    trees_have_the_changes();
}

/// Listings of two stacks that answer alike, with the same `sets` and `calls`, show the same rows. Where the stacks
/// have the same size too, the two listings are one text. Without calls they have one digest, with any sets.
pub fn equal_answers_are_listed_alike()
    ensures shown { (sets : List NamesData)
        (calls : Option (List (List ℕ))) (k l : Listed) → IsListing sets calls k
        → IsListing sets calls l
        → ((d : Input) (a : Answer) → IsInput d → Answers k.programs d a
        → Answers l.programs d a)
        → k.shown ≡ l.shown }
    ensures text { (sets : List NamesData)
        (calls : Option (List (List ℕ))) (k l : Listed) → IsListing sets calls k
        → IsListing sets calls l
        → ((d : Input) (a : Answer) → IsInput d → Answers k.programs d a
        → Answers l.programs d a)
        → filters_line k.programs ≡ filters_line l.programs
        → listing_text sets k ≡ listing_text sets l }
    ensures digest { (sets more : List NamesData) (k l : Listed)
        → IsListing sets None k → IsListing more None l
        → ((d : Input) (a : Answer) → IsInput d → Answers k.programs d a
        → Answers l.programs d a)
        → digest_line k ≡ digest_line l }
{
    equal_answers_are_shown_alike();
}

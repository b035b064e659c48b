//! Laws of the definitions, each the contract of a function that does nothing.

ghost use Rattle.std.specs.Prelude.{◌≡◌, ℕ, List, Option, length};
ghost use Rattle.sf_check.specs.declared.insn.Insn.{Insn};
ghost use Rattle.sf_relations.specs.declared.relation.Relation.{Relation};
ghost use Rattle.sf_relations.specs.declared.examples.Example.{Example};
ghost use Rattle.sf_relations.specs.Changes.{IsFinding};
ghost use Rattle.sf_relations.specs.Needs.{AnswerTheSame, AreKeptUpTo, filters_at};

/// Two stacks have one finding of a relation: the same example, or none.
pub fn one_finding()
    ensures { (old new : List (List Insn)) (relation : Relation) (a b : Option Example)
        → IsFinding old new relation a → IsFinding old new relation b → a ≡ b }
{}

/// The filters that are kept answer each input as the whole stack does.
pub fn kept_filters_answer_alike()
    ensures { (programs : List (List Insn)) (kept : List ℕ)
        → AreKeptUpTo programs (length programs) kept
        → AnswerTheSame programs (filters_at programs kept) }
{}

/// A stack has one list of filters that are kept.
pub fn one_list_of_kept_filters()
    ensures { (programs : List (List Insn)) (a b : List ℕ)
        → AreKeptUpTo programs (length programs) a → AreKeptUpTo programs (length programs) b
        → a ≡ b }
{}

ghost use Rattle.std.specs.Prelude.{◌≡◌};
ghost use Rattle.sf_relations.specs.Numbers.{operation_of};

use sf_diagram::Operation;

/// How the answer of the new stack to an input is related to that of the old one. All other relations are cases of
/// `Different`.
#[derive(Clone, Copy, Debug, PartialEq, Eq)]
pub enum Relation {
    /// The call gets further than before.
    Looser,
    /// The call gets less far than before.
    Tighter,
    /// The action is another one, or its data are.
    Different,
    /// The call is reported as done and isn't made, by ERRNO 0, and wasn't answered so before.
    Pretended,
}

/// The operation on two answers that gives 0 unless they have the relation.
pub fn operation_of(relation: Relation) -> Operation
    ensures { result ≡ operation_of relation }
{
    match relation {
        Relation::Looser => Operation::Looser,
        Relation::Tighter => Operation::Tighter,
        Relation::Different => Operation::Different,
        Relation::Pretended => Operation::Pretended,
    }
}

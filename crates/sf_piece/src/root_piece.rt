//! The first piece of a stack.

ghost use Rattle.std.specs.Prelude.{IfOk};
ghost use Rattle.std.specs.Arc.{arc_value};
ghost use Rattle.sf_piece.specs.Execution.{IsFirst};
ghost use Rattle.sf_piece.specs.Pieces.{IsRoot};

use crate::fault::Fault;
use crate::machine::SymbolicMachine;
use crate::name::Name;
use crate::piece::Piece;
use crate::run::{Conditions, Run};
use sf_check::Stack;
use sf_dom::Facts;
use sf_run::{Action, Answer};
use sf_sym::{Node, Pool};
use std::alloc::Global;
use std::sync::Arc;

/// The piece of all inputs of a stack: its name is empty, and nothing has run.
pub fn root(alloc: Global, stack: &Arc<Stack>) -> Result<Arc<Piece>, Fault>
    ensures root { IfOk result (λ p. IsRoot (arc_value stack.now) (arc_value p)) }
    ensures rule { IfOk result (λ p. IsFirst (arc_value stack.now) (arc_value p)) }
{
    // For the prover: the stack is lawful.
    let _programs = stack.programs();
    let mut pool = Pool::new(alloc)?;
    let zero = pool.push(Node::Const(0))?;
    let facts = Facts::new(alloc, &pool)?;
    let conditions = Conditions::new(alloc)?;
    let machine = SymbolicMachine {
        program: 0,
        place: 0,
        a: zero,
        x: zero,
        scratch: [None; 16],
        zero,
        taken: 0,
        value: 0,
        so_far: Answer {
            action: Action::Allow,
            info: 0,
        },
    };
    let run = Run {
        stack: Arc::try_clone(stack)?,
        name: Name::new(alloc)?,
        pool,
        conditions,
        machine,
        facts,
    };
    Ok(Arc::new(alloc, Piece { run })?)
}

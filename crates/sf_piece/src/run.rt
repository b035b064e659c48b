//! The symbolic run of a piece.

ghost use Rattle.std.specs.Prelude.{◌≡◌, ◌<◌, ◌≤◌, IfOk, MatchOption, length};

use crate::fault::Fault;
use crate::machine::SymbolicMachine;
use crate::name::Name;
use sf_blocks::shared::SharedList;
use sf_check::{Insn, Program, Stack};
use sf_dom::Facts;
use sf_run::Answer;
use sf_sym::{Cond, Pool};
use std::marker::Model;
use std::sync::Arc;

/// Path conditions, the oldest first; full blocks of 16 are shared with the pieces that come of this one.
pub(crate) type Conditions = SharedList<Cond, 1>;

/// The run behind a piece. Its type doesn't say that its parts are right together: functions ask for that.
#[derive(Drop)]
pub struct Run {
    pub(crate) stack: Arc<Stack>,
    pub(crate) name: Name,
    // The symbolic words, among them those of the machine and of the conditions.
    pub(crate) pool: Pool,
    pub(crate) conditions: Conditions,
    pub(crate) machine: SymbolicMachine,
    // What is known of the pool's nodes on every member.
    pub(crate) facts: Facts,
}

impl Model for Run {
    ghost use Rattle.sf_piece.specs.Pieces.{PieceData};

    ghost Value = { PieceData };

    ghost view = { λ r. record {
      stack = r.stack.value;
      name = r.name;
      pool = r.pool;
      conditions = r.conditions;
      machine = r.machine;
      facts = r.facts;
    } };
}

impl Run {
    ghost use Rattle.sf_piece.specs.Execution.{IsAtHand};
    ghost use Rattle.sf_piece.specs.Pieces.{IsRightAnswer};
    ghost use Rattle.sf_piece.specs.SymbolicRun.{IsLawfulPiece};
    ghost use Rattle.sf_piece.specs.Works.{HasAtHand, IsCodeAtHand};

    /// A copy of the run.
    pub(crate) fn fork(&self) -> Result<Run, Fault>
        ensures { IfOk result (λ r. r ≡ self.now) }
    {
        Ok(Run {
            stack: Arc::try_clone(&self.stack)?,
            name: self.name.fork()?,
            pool: self.pool.fork()?,
            conditions: self.conditions.fork()?,
            machine: self.machine,
            facts: self.facts.fork()?,
        })
    }

    /// The program that runs now; `None` where the last one has returned.
    pub(crate) fn program(&self) -> Option<&Program>
        requires { IsLawfulPiece self.now }
        ensures { MatchOption result (length self.now.stack ≤ self.now.machine.program)
            (λ program. IsCodeAtHand self.now program.now) }
    {
        let programs = self.stack.programs();
        if self.machine.program < programs.len() {
            // The newest program is the last one, and runs first.
            let program = &programs[programs.len() - 1 - self.machine.program];
            Some(program)
        } else {
            None
        }
    }

    /// The instruction that comes next; `None` where the last program has returned.
    pub(crate) fn insn(&self) -> Option<Insn>
        requires { IsLawfulPiece self.now }
        ensures right { MatchOption result (IsRightAnswer self.now self.now.name
            self.now.machine.so_far) (λ i. HasAtHand self.now i) }
        ensures rule { MatchOption result (length self.now.stack ≤ self.now.machine.program)
            (λ i. IsAtHand self.now i) }
    {
        let Some(program) = self.program() else {
            return None;
        };
        let code = program.insns();
        Some(code[self.machine.place])
    }

    /// The name, and the answer of the programs that have returned; ALLOW where none has.
    pub(crate) fn into_parts(self) -> (Name, Answer)
        ensures name { result.0 ≡ self.name }
        ensures answer { result.1 ≡ self.machine.so_far }
    {
        let Run {
            stack: _,
            name,
            pool: _,
            conditions: _,
            machine,
            facts: _,
        } = self;
        (name, machine.so_far)
    }
}

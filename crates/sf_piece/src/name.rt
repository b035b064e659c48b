//! Names: lists of truth values, which are kept as their runs of false.

ghost use Rattle.std.specs.Prelude.{◌≡◌, ◌+◌, ◌^◌, ◌<◌, [], ◌∷◌, ◌++◌, length, replicate, true, false, IfOk, OnOk, OnErr};
ghost use Rattle.std.specs.Ordering.{bool_cmp};
ghost use Rattle.std.specs.Cmp.Lexicographic.{slice_cmp};
ghost use Rattle.sf_piece.specs.Names.{spelled};

use sf_blocks::shared::SharedList;
use std::alloc::{AllocError, Global};
use std::cmp::{Ordering, Reverse};
use std::marker::Model;

/// For each true of a name, how many falses are right before it. False comes before true, so the longer run comes
/// first: these numbers are compared in reverse. Names that go on from one name share its full blocks of 16.
type Runs = SharedList<Reverse<u32>, 2>;

/// A list of truth values. A path meets false far more often than true, so a run of falses is kept as its length.
#[derive(Drop)]
pub struct Name {
    runs: Runs,
    // How many falses are at the end.
    rest: u32,
}

impl Model for Name {
    ghost use Rattle.std.specs.Prelude.{List, Bool};
    ghost use Rattle.sf_piece.specs.Names.{spelled};

    ghost Value = { List Bool };

    ghost view = { λ n. spelled n.runs n.rest };
}

impl Name {
    /// The name of no truth values.
    pub(crate) fn new(alloc: Global) -> Result<Name, AllocError>
        ensures { IfOk result (λ n. n ≡ []) }
    {
        let runs = Runs::new(alloc)?;
        Ok(Name { runs, rest: 0 })
    }

    /// The truth values, the first one first.
    pub fn values(&self, alloc: Global) -> Result<Vec<bool>, AllocError>
        ensures { IfOk result (λ values. values.items ≡ self.now) }
    {
        let mut values = Vec::new(alloc);
        add_runs(&mut values, &self.runs)?;
        add_falses(&mut values, self.rest)?;
        Ok(values)
    }

    /// How two names compare: at the first truth value in which they differ, false comes before true, and a name comes
    /// before longer ones that begin with it.
    pub fn order(&self, other: &Name) -> Ordering
        ensures { result ≡ slice_cmp bool_cmp self.now other.now }
    {
        // At the first run that differs, the name with the longer one has a false where the other has a true. Where one
        // name has further runs, the other has a false, or has ended, at its next true.
        self.runs
            .order(&other.runs)
            .then(self.rest.cmp(&other.rest))
    }

    /// A copy of the name, which shares the full blocks of runs.
    pub(crate) fn fork(&self) -> Result<Name, AllocError>
        ensures { IfOk result (λ n. n ≡ self.now) }
    {
        Ok(Name {
            runs: self.runs.fork()?,
            rest: self.rest,
        })
    }

    /// Adds a truth value at the end.
    pub(crate) fn push(&mut self, value: bool) -> Result<(), AllocError>
        requires { length self.old < 2 ^ 31 }
        ensures ok { OnOk result (self.new ≡ self.old ++ value ∷ []) }
        ensures err { OnErr result (self.new ≡ self.old) }
    {
        if value {
            return self.push_true();
        }
        self.push_falses(1);
        Ok(())
    }

    /// Adds a true at the end, which ends the last run.
    fn push_true(&mut self) -> Result<(), AllocError>
        ensures ok { OnOk result (self.new ≡ self.old ++ true ∷ []) }
        ensures err { OnErr result (self.new ≡ self.old) }
    {
        self.runs.push(Reverse(self.rest))?;
        self.rest = 0;
        Ok(())
    }

    /// Adds this many falses at the end.
    pub(crate) fn push_falses(&mut self, count: usize)
        requires { length self.old + count < 2 ^ 32 }
        ensures { self.new ≡ self.old ++ replicate count false }
    {
        self.rest += count as u32;
    }
}

/// Adds this many falses at the end.
fn add_falses(values: &mut Vec<bool>, count: u32) -> Result<(), AllocError>
    ensures { OnOk result (values.new.items ≡ values.old.items ++ replicate count false) }
{
    let before = values.len();
    values.resize(before + count as usize, false)?;
    Ok(())
}

/// Adds the falses of each run and the true that ends it.
fn add_runs(values: &mut Vec<bool>, runs: &Runs) -> Result<(), AllocError>
    ensures { OnOk result (values.new.items ≡ values.old.items ++ spelled runs.now 0) }
{
    for place in 0..runs.len() {
        add_falses(values, runs.get(place).0)?;
        values.push(true)?;
    }
    Ok(())
}

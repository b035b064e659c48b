//! Explorations of small stacks without a book: piece after piece, the first name first.
use sf_check::Stack;
use sf_piece::{Piece, Step, advance, root};
use sf_run::Answer;
use std::alloc::{AllocError, Global};
use std::sync::Arc;
use std::test::Fail;

/// An exploration.
#[derive(Drop)]
pub(crate) struct Exploration {
    // The pieces that aren't worked yet, the first name last.
    open: Vec<Arc<Piece>>,
    /// The pieces that were worked, in this order: each comes before its children, and on false before on true.
    pub(crate) pieces: Vec<Arc<Piece>>,
    /// The whole names and the answers of the regions, in name order.
    pub(crate) regions: Vec<(Vec<bool>, Answer)>,
}

impl Exploration {
    /// Takes a region in.
    fn settle(&mut self, name: Vec<bool>, answer: Answer) -> Result<(), Fail> {
        Ok(self.regions.push((name, answer))?)
    }

    /// Takes two children in.
    fn split(&mut self, on_false: Arc<Piece>, on_true: Arc<Piece>) -> Result<(), Fail> {
        self.open.push(on_true)?;
        Ok(self.open.push(on_false)?)
    }

    /// Takes in what became of a piece.
    fn take(&mut self, alloc: Global, step: Step) -> Result<(), Fail> {
        match step {
            Step::Settled(name, answer) => self.settle(name.values(alloc)?, answer),
            Step::Split(on_false, on_true) => self.split(on_false, on_true),
            Step::Empty => Ok(()),
        }
    }

    /// Works a piece.
    fn work(&mut self, alloc: Global, piece: &Arc<Piece>) -> Result<(), Fail> {
        let (piece, step) = advance(alloc, piece)?.into_parts();
        self.take(alloc, step)?;
        Ok(self.pieces.push(piece)?)
    }
}

/// Works the pieces of a stack until none is left, or 1000 were worked.
pub(crate) fn explore_stack(alloc: Global, stack: &Arc<Stack>) -> Result<Exploration, Fail> {
    let mut seen = Exploration {
        open: Vec::new(alloc),
        pieces: Vec::new(alloc),
        regions: Vec::new(alloc),
    };
    seen.open.push(root(alloc, stack)?)?;
    for _ in 0..1000 {
        let Some(piece) = seen.open.pop() else {
            break;
        };
        seen.work(alloc, &piece)?;
    }
    Ok(seen)
}

/// Adds truth values to a text, as a report shows them.
pub(crate) fn push_name(text: &mut String, values: &[bool]) -> Result<(), AllocError> {
    for value in values {
        text.push(if *value { 'T' } else { 'F' })?;
    }
    Ok(())
}

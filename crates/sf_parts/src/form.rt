ghost use Rattle.std.specs.Prelude.{◌≡◌, IfOk};

use std::alloc::{AllocError, Global};
use std::marker::Model;

/// Numbers in a row.
#[derive(Clone, Copy, Debug, PartialEq, Eq)]
pub struct Span {
    pub first: u32,
    pub last: u32,
}

/// Numbers of a word: those that under the mask are in one of the spans, or, if these are what is left out, in none of
/// them.
#[derive(Drop)]
pub struct Form {
    /// The bits that count.
    pub mask: u32,
    /// Whether the spans are left out.
    pub without: bool,
    /// The spans, in rising order.
    pub spans: Vec<Span>,
}

impl Model for Form {
    ghost use Rattle.sf_parts.specs.Parts.{FormData};

    ghost Value = { FormData };

    ghost view = { λ f. record { mask = f.mask; without = f.without; spans = f.spans.items } };
}

fn copy_of(alloc: Global, spans: &[Span]) -> Result<Vec<Span>, AllocError>
    ensures { IfOk result (λ v. v.items ≡ spans.now) }
{
    let copy: Vec<Span> = spans.iter().copied().collect(alloc)?;
    Ok(copy)
}

impl Form {
    pub(crate) fn try_clone(&self, alloc: Global) -> Result<Form, AllocError>
        ensures { IfOk result (λ f. f ≡ self.now) }
    {
        let spans = copy_of(alloc, &self.spans)?;
        Ok(Form {
            mask: self.mask,
            without: self.without,
            spans,
        })
    }
}

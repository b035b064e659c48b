//! The text of a listing. After an error a part of what was to be added may stand in the text; `text_of` drops it.

ghost use Rattle.std.specs.Prelude.{◌≡◌, ◌⊎◌, ◌++◌, IfErr, IfOk, OnErr, OnOk, option_map, string_bytes};
ghost use Rattle.std.specs.Io.KnownBytes.{Appends};
ghost use Rattle.sf_stack.specs.Texts.{AppendsFront};
ghost use Rattle.sf_stack.specs.declared.fault.Fault.TheVariants.{Memory as MemoryFault, Write as WriteFault};
ghost use Rattle.sf_list.specs.Listings.{counted_words, listing_text, listing_title, rows_total_line};

use crate::listing::Listing;
use sf_names::Names;
use sf_rows::{CallRow, Shown, Subject, push_lines, shown_count};
use sf_stack::{Fault, push_size, write_bytes};
use std::alloc::{AllocError, Global};
use std::io::Write;

fn title_of(calls: &Option<Vec<CallRow<'_>>>) -> &'static str
    ensures { result.now ≡ listing_title (option_map (λ v. v.items) calls.now) }
{
    if calls.is_some() {
        "seccomp_audit calls 2\n"
    } else {
        "seccomp_audit list 2\n"
    }
}

fn counted_of(calls: &Option<Vec<CallRow<'_>>>) -> &'static str
    ensures { result.now ≡ counted_words (option_map (λ v. v.items) calls.now) }
{
    if calls.is_some() { "lines" } else { "rows" }
}

fn push_total(text: &mut String, shown: &Shown<'_>) -> Result<(), AllocError>
    ensures { OnOk result (string_bytes text.new ≡ string_bytes text.old
        ++ rows_total_line shown.now) }
{
    let counted = counted_of(shown.calls());
    let count = shown_count(shown);
    write!(text, "total {counted} {count}\n")
}

fn text_of(alloc: Global, listing: &Listing<'_>, sets: &[Names]) -> Result<String, AllocError>
    ensures { IfOk result (λ text. string_bytes text ≡ listing_text sets.now listing.now) }
{
    let mut text = String::new(alloc);
    text.push_str(title_of(listing.shown().calls()))?;
    push_size(&mut text, listing.stack().programs())?;
    push_lines(alloc, &mut text, Subject::Stack, sets, listing.shown())?;
    push_total(&mut text, listing.shown())?;
    Ok(text)
}

/// Writes the text of a listing, with the names of calls from these sets.
pub fn write_listing<W: Write>(
    alloc: Global,
    listing: &Listing<'_>,
    sets: &[Names],
    out: &mut W,
) -> Result<(), Fault>
    ensures written { OnOk result (Appends (W.contents out.old) (W.contents out.new)
        (listing_text sets.now listing.now)) }
    ensures begun { OnErr result (AppendsFront (W.contents out.old) (W.contents out.new)
        (listing_text sets.now listing.now)) }
    ensures refused { IfErr result (λ e. (e ≡ WriteFault)
        ⊎ ((e ≡ MemoryFault) × (out.new ≡ out.old))) }
{
    let text = text_of(alloc, listing, sets)?;
    write_bytes(text.as_bytes(), out)
}

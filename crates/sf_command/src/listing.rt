//! The subcommand `list`: reads a stack, and writes the rows of its answers, or a digest of them.

ghost use Rattle.std.specs.Prelude.{◌≡◌, ◌⊎◌, IfErr, OnOk, map, option_map};
ghost use Rattle.std.specs.Io.KnownBytes.{Appends};
ghost use Rattle.serde_json.specs.View.{view};
ghost use Rattle.sf_stack.specs.declared.fault.Fault.TheVariants.{Memory as MemoryFault, Write as WriteFault};
ghost use Rattle.sf_list.specs.Listings.{IsListing, Listed};
ghost use Rattle.sf_command.specs.Diagrams.{FailsByRows, RefusesList};
ghost use Rattle.sf_command.specs.Listings.{ListsFiles, is_digest, is_json, listing_output};

use crate::warnings::warnings_of_listing;
use sf_check::Stack;
use sf_evaluate::{Files, Identity, Notes, identified, print, read_stack};
use sf_json::{Document, write_document};
use sf_list::{Listing, digest_of, listing_document, write_listing};
use sf_names::Names;
use sf_stack::Fault;
use std::alloc::Global;
use std::io::Write;

/// In which form a stack is listed.
#[derive(Clone, Copy, Debug, PartialEq, Eq)]
pub enum ListingForm {
    Text,
    Json,
    /// As one line with a digest of all rows. Sets and names of calls don't matter then.
    Digest,
}

impl ListingForm {
    fn is_digest(self) -> bool
        ensures { result ≡ is_digest self }
    {
        matches!(self, ListingForm::Digest)
    }

    fn is_json(self) -> bool
        ensures { result ≡ is_json self }
    {
        matches!(self, ListingForm::Json)
    }
}

/// What a listing is asked for.
#[derive(Drop)]
pub struct ListingTask<'t, 'm, 'a> {
    /// The paths of the filter files, in order of installation.
    pub paths: &'m [&'a str],
    pub sets: &'t [Names],
    /// The names of the calls whose rows are written, call by call. An empty list stands for all calls; the rows of the
    /// inputs that belong to no call with a name then come after these. `None`: each row is written by itself.
    pub calls: &'t Option<Vec<&'a str>>,
    pub form: ListingForm,
    /// The line of the program's version, which a JSON document shows.
    pub version: &'t str,
    /// The most nodes that the decision diagrams may have, 1 to 16,000,000.
    pub nodes: u32,
}

fn write_listed<O: Write>(
    alloc: Global,
    listing: &Listing<'_>,
    sets: &[Names],
    form: ListingForm,
    identity: Identity<'_>,
    out: &mut O,
) -> Result<(), Fault>
    ensures written { OnOk result (Appends (O.contents out.old) (O.contents out.new)
        (listing_output form identity.entry.version.now (map view identity.entry.files.items)
        sets.now listing.now)) }
    ensures refused { IfErr result (λ e. (e ≡ WriteFault)
        ⊎ ((e ≡ MemoryFault) × (out.new ≡ out.old))) }
{
    match form {
        ListingForm::Text => write_listing(alloc, listing, sets, out),
        ListingForm::Json => {
            let document = listing_document(alloc, listing, sets)?;
            let document = identified(alloc, document, identity)?;
            write_document(alloc, &document, out)
        }
        ListingForm::Digest => {
            let line = digest_of(alloc, listing)?;
            print(&line, out)
        }
    }
}

/// Lists a stack, with these calls in place of those of the task. The notes get the warnings.
#[tactic(auto, using(sf_evaluate::specs::laws::FilesLaws::handed_on))]
fn list_stack<O: Write>(
    alloc: Global,
    stack: Stack,
    task: &ListingTask<'_, '_, '_>,
    calls: &Option<Vec<&str>>,
    documents: Vec<Document>,
    notes: &mut Notes,
    out: &mut O,
) -> Result<(), Fault>
    ensures written { OnOk result ((found : Listed) × (found.programs ≡ stack)
        × IsListing task.now.sets.now (option_map (λ v. map (λ t. t.now) v.items) calls.now) found
        × Appends (O.contents out.old) (O.contents out.new)
        (listing_output task.now.form task.now.version.now (map view documents.items)
        task.now.sets.now found)) }
    ensures refused { IfErr result (FailsByRows task.now.nodes) }
    ensures quiet { IfErr result (λ e. (e ≡ WriteFault) ⊎ (out.new ≡ out.old)) }
{
    let listing = sf_list::list(alloc, task.nodes, stack, task.sets, calls)?;
    notes.warnings = warnings_of_listing(alloc, &listing, calls);
    let identity = Identity {
        version: task.version,
        files: documents,
    };
    write_listed(alloc, &listing, task.sets, task.form, identity, out)
}

/// Reads a stack, and writes the rows of its answers, or a digest of them. The notes get the warnings.
#[tactic(auto, using(sf_evaluate::specs::laws::FilesLaws::handed_on))]
pub fn list<F: Files, O: Write>(
    alloc: Global,
    task: &ListingTask<'_, '_, '_>,
    files: &mut F,
    notes: &mut Notes,
    out: &mut O,
) -> Result<(), Fault>
    ensures written { OnOk result (ListsFiles task.now.version.now (F.holds files.old)
        task.now.paths.now task.now.sets.now
        (option_map (λ v. map (λ t. t.now) v.items) task.now.calls.now)
        task.now.form (O.contents out.old) (O.contents out.new)) }
    ensures refused { IfErr result (RefusesList (F.holds files.old) task.now.paths.now
        task.now.nodes) }
    ensures quiet { IfErr result (λ e. (e ≡ WriteFault) ⊎ (out.new ≡ out.old)) }
{
    let json = task.form.is_json();
    let (stack, documents) = read_stack(alloc, task.paths, json, files, notes)?;
    if task.form.is_digest() {
        return list_stack(alloc, stack, task, &None, documents, notes, out);
    }
    list_stack(alloc, stack, task, task.calls, documents, notes, out)
}

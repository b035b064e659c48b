//! The subcommand `needed`: reads a stack, finds which of its filters are needed and writes that.

ghost use Rattle.std.specs.Prelude.{◌≡◌, ◌≤◌, ◌⊎◌, map, IfOk, IfErr, OnOk};
ghost use Rattle.std.specs.Io.KnownBytes.{Appends};
ghost use Rattle.serde_json.specs.View.{view};
ghost use Rattle.sf_stack.specs.declared.fault.Fault.TheVariants.{Memory as MemoryFault, Write as WriteFault};
ghost use Rattle.sf_command.specs.Diagrams.{RefusesStack};
ghost use Rattle.sf_command.specs.Needs.{TellsNeeds, needs_output};

use crate::status::status_of_needs;
use sf_evaluate::{Files, Identity, Notes, identified, read_stack};
use sf_json::write_document;
use sf_needed::{NeededFilters, needs_document, write_needed};
use sf_stack::Fault;
use std::alloc::Global;
use std::io::Write;

/// What `needed` is asked for.
#[derive(Drop)]
pub struct NeededTask<'t, 'm, 'a> {
    /// The paths of the filter files, in order of installation.
    pub paths: &'m [&'a str],
    pub json: bool,
    /// The line of the program's version, which a JSON document shows.
    pub version: &'t str,
    /// The most nodes that the decision diagrams may have, 1 to 16,000,000.
    pub nodes: u32,
}

fn write_needs<O: Write>(
    alloc: Global,
    needs: &NeededFilters,
    json: bool,
    identity: Identity<'_>,
    out: &mut O,
) -> Result<(), Fault>
    ensures written { OnOk result (Appends (O.contents out.old) (O.contents out.new)
        (needs_output json identity.entry.version.now (map view identity.entry.files.items) needs.now)) }
    ensures refused { IfErr result (λ e. (e ≡ WriteFault)
        ⊎ ((e ≡ MemoryFault) × (out.new ≡ out.old))) }
{
    if !json {
        return write_needed(alloc, needs, out);
    }
    let document = needs_document(alloc, needs)?;
    let document = identified(alloc, document, identity)?;
    write_document(alloc, &document, out)
}

/// Finds which filters of a stack are needed, and gives the exit status.
#[tactic(auto, using(sf_evaluate::specs::laws::FilesLaws::handed_on))]
pub fn needed<F: Files, O: Write>(
    alloc: Global,
    task: &NeededTask<'_, '_, '_>,
    files: &mut F,
    notes: &mut Notes,
    out: &mut O,
) -> Result<u8, Fault>
    ensures written { IfOk result (λ s. TellsNeeds task.now.version.now (F.holds files.old)
        task.now.paths.now task.now.json s (O.contents out.old) (O.contents out.new)) }
    ensures status { IfOk result (λ s. s ≤ 1) }
    ensures refused { IfErr result (RefusesStack (F.holds files.old) task.now.paths.now
        task.now.nodes) }
    ensures quiet { IfErr result (λ e. (e ≡ WriteFault) ⊎ (out.new ≡ out.old)) }
{
    let (stack, documents) = read_stack(alloc, task.paths, task.json, files, notes)?;
    let needs = sf_needed::needed(alloc, task.nodes, stack)?;
    let identity = Identity {
        version: task.version,
        files: documents,
    };
    write_needs(alloc, &needs, task.json, identity, out)?;
    Ok(status_of_needs(&needs))
}

//! The subcommand `audit`: reads the files that ask and the stack, audits it and writes the report.

ghost use Rattle.std.specs.Prelude.{◌≡◌, ◌<◌, ◌≤◌, ◌⊎◌, ℕ, List, IfOk, IfErr, OnOk, length, map, string_bytes};
ghost use Rattle.std.specs.Io.KnownBytes.{Appends};
ghost use Rattle.sf_audit.specs.Documents.{telling_data};
ghost use Rattle.serde_json.specs.View.{view};
ghost use Rattle.sf_crew.specs.Sweeps.{AreRightReplies};
ghost use Rattle.sf_evaluate.specs.Identity.{HasFiles};
ghost use Rattle.sf_evaluate.specs.Origins.{HasOrigins};
ghost use Rattle.sf_evaluate.specs.declared.files.identity.FileRole.TheVariants.{Policy};
ghost use Rattle.sf_stack.specs.declared.fault.Fault.TheVariants.{Count as CountFault, Memory as MemoryFault, Write as WriteFault};
ghost use Rattle.sf_command.specs.Audits.{AreRemarks, AuditsFiles, HasRemarks, IsAskedBy, IsFoundFor, IsRefusedFor, IsRemark, RefusesAsked, RefusesAudit, are_placed, asked_data, audit_output, behind_text, is_expecting, read_data, report_output, sources_text, summary_output, text_output};
ghost use Rattle.sf_command.specs.Told.{told_data};

use crate::means::Means;
use crate::sources::{push_control, push_sources};
use crate::status::status_of_audit;
use sf_ask::{Question, Reply};
use sf_audit::{
    Expected, Outcome, Summary, Telling, audit_document, audit_stack, reply_to, text_of_expected,
    write_report, write_summary,
};
use sf_book::Settled;
use sf_check::Stack;
use sf_crew::Gate;
use sf_evaluate::{
    Files, Identity, Notes, Policies, accepted_in, all_questions_in, control_in, groups_in,
    identified, join_documents, read_stack,
};
use sf_json::{Document, write_document};
use sf_names::Names;
use sf_policy::Group;
use sf_stack::Fault;
use sf_stack_warnings::warnings_of_stack;
use sf_trace::why_text;
use std::alloc::{AllocError, Global};
use std::io::Write;
use std::sync::Wait;
use std::thread::Threads;

/// How an audit is written as a text.
#[derive(Clone, Copy)]
pub enum TextForm {
    Report,
    Summary,
    /// A summary with the call of each example, and the comment above its question.
    SummaryOfAll,
}

/// How an audit is done, and what its report lists.
#[derive(Clone, Copy)]
pub struct AuditTerms {
    /// The most works that are committed, 1 to 1,000,000.
    pub budget: u32,
    /// The number of workers, 1 to 64.
    pub workers: u8,
    pub regions: bool,
    /// Whether the report says for each example why the stack answers so.
    pub why: bool,
    /// How it is written where `json` is false.
    pub text: TextForm,
    pub json: bool,
}

/// Whether it is told where questions stand: in JSON, and with the comments above questions.
fn are_placed(terms: AuditTerms) -> bool
    ensures { result ≡ are_placed terms.json terms.text }
{
    terms.json || matches!(terms.text, TextForm::SummaryOfAll)
}

/// The paths of the files that say what an audit is to ask, and which replies are expected.
#[derive(Drop)]
pub struct Asked<'m, 'n, 'a> {
    pub policies: &'m [&'a str],
    pub control: Option<&'a str>,
    /// The file with the names of the questions that may be allowed.
    pub accept: Option<&'a str>,
    /// The file of groups by which a summary puts questions in order; none where no summary is asked for.
    pub groups: Option<&'a str>,
    /// Whether the command line gives this file.
    pub has_groups: bool,
    /// The files of names that are given.
    pub names: &'n [&'a str],
}

impl Asked<'_, '_, '_> {
    fn is_expecting(&self) -> bool
        ensures { result ≡ is_expecting (asked_data self.now) }
    {
        self.control.is_some() || self.accept.is_some()
    }

    fn sources(&self, alloc: Global) -> Result<String, AllocError>
        ensures { IfOk result (λ text. string_bytes text ≡ sources_text (asked_data self.now)) }
    {
        let mut text = String::new(alloc);
        push_sources(&mut text, "policy", self.policies)?;
        push_control(&mut text, self.control)?;
        push_sources(&mut text, "names", self.names)?;
        Ok(text)
    }
}

/// What an audit is asked for.
#[derive(Drop)]
pub struct AuditTask<'t, 'p, 'm, 'n, 'a> {
    pub asked: &'t Asked<'m, 'n, 'a>,
    /// The paths of the filter files, in order of installation.
    pub paths: &'p [&'a str],
    pub names: &'t [Names],
    /// The line of the program's version, which a JSON document shows.
    pub version: &'t str,
    pub terms: AuditTerms,
}

/// What the files of an `Asked` hold.
#[derive(Drop)]
struct AskedContents {
    questions: Vec<Question>,
    /// None where no control is given.
    control: Vec<Question>,
    accepted: Vec<String>,
}

/// Reads the policy files, then that of the control, and then the file of the questions that may be allowed.
fn read_questions<F: Files>(
    alloc: Global,
    asked: &Asked<'_, '_, '_>,
    with_origins: bool,
    with_documents: bool,
    files: &mut F,
    notes: &mut Notes,
) -> Result<(AskedContents, Vec<Document>, Vec<Document>), Fault>
    ensures read { IfOk result (λ r. IsAskedBy (F.holds files.old) (asked_data asked.now)
        (read_data r.0)) }
    ensures placed { IfOk result (λ r. HasOrigins with_origins (F.holds files.old)
        asked.now.policies.now r.0.questions.items (map view r.1.items)) }
    ensures told { IfOk result (λ r. HasFiles with_documents (F.holds files.old) Policy
        asked.now.policies.now (map view r.2.items)) }
    ensures refused { IfErr result (RefusesAsked (F.holds files.old) (asked_data asked.now)) }
    ensures same { (p : List ℕ) → F.holds files.new p ≡ F.holds files.old p }
{
    let policies = all_questions_in(
        alloc,
        asked.policies,
        with_origins,
        with_documents,
        files,
        notes,
    )?;
    let Policies {
        questions,
        origins,
        files: documents,
    } = policies;
    let control = control_in(alloc, asked.control, files, notes)?;
    let accepted = accepted_in(alloc, asked.accept, &questions, files, notes)?;
    let read = AskedContents {
        questions,
        control,
        accepted,
    };
    Ok((read, origins, documents))
}

fn replies_to<R: Threads + Wait + Sync, G: Gate>(
    means: &Means<'_, '_, R, G>,
    settled: &Settled,
    control: &[Question],
    workers: usize,
) -> Result<Vec<Reply>, Fault>
    requires workers { (0 < workers) × (workers ≤ 64) }
    ensures right { IfOk result (λ v. AreRightReplies settled.now control.now v.items) }
    ensures refused { IfErr result (λ e. (e ≡ MemoryFault)
        ⊎ ((e ≡ CountFault) × (256 < length control.now))) }
{
    if control.is_empty() {
        return Ok(Vec::new(means.alloc));
    }
    reply_to(means.rt, means.alloc, settled, control, workers, means.gate)
}

/// Audits a stack with the questions that were read, and finds the replies to the control by the same exploration.
fn audit_filters<R: Threads + Wait + Sync, G: Gate>(
    means: &Means<'_, '_, R, G>,
    stack: Stack,
    read: AskedContents,
    terms: AuditTerms,
) -> Result<(Outcome, Expected), Fault>
    requires workers { (0 < terms.workers) × (terms.workers ≤ 64) }
    ensures found { IfOk result (λ r. IsFoundFor stack (read_data read) terms.budget r.0 r.1) }
    ensures refused { IfErr result (λ e. (e ≡ MemoryFault) ⊎ IsRefusedFor (read_data read) e) }
{
    let AskedContents {
        questions,
        control,
        accepted,
    } = read;
    let (rt, alloc, gate) = (means.rt, means.alloc, means.gate);
    let workers = usize::from(terms.workers);
    let outcome = audit_stack(rt, alloc, stack, questions, terms.budget, workers, gate)?;
    let held = replies_to(means, outcome.settled(), &control, workers)?;
    let expected = Expected::of(control, held, accepted);
    Ok((outcome, expected))
}

fn lines_behind(
    alloc: Global,
    telling: &Telling<'_>,
    expected: &Expected,
    outcome: &Outcome,
) -> Result<String, AllocError>
    ensures { IfOk result (λ text. string_bytes text
        ≡ behind_text (telling_data telling.now) expected.now outcome.now) }
{
    if telling.is_expecting {
        text_of_expected(alloc, expected, outcome)
    } else {
        Ok(String::new(alloc))
    }
}

fn remark_of(alloc: Global, names: &[Names], stack: &Stack, reply: Reply) -> Result<String, Fault>
    ensures shown { IfOk result (λ text. IsRemark names.now stack.now reply
        (string_bytes text)) }
    ensures refused { IfErr result (λ e. e ≡ MemoryFault) }
{
    match reply {
        Reply::Allowed(input) => why_text(alloc, names, stack, &input),
        Reply::Never | Reply::Unsettled => Ok(String::new(alloc)),
    }
}

fn remarks_of(
    alloc: Global,
    names: &[Names],
    stack: &Stack,
    replies: &[Reply],
) -> Result<Vec<String>, Fault>
    ensures shown { IfOk result (λ v. AreRemarks names.now stack.now replies.now
        (map string_bytes v.items)) }
    ensures refused { IfErr result (λ e. e ≡ MemoryFault) }
{
    let mut remarks = Vec::new(alloc);
    for reply in replies {
        let remark = remark_of(alloc, names, stack, *reply)?;
        remarks.push(remark)?;
    }
    Ok(remarks)
}

fn remarks_if_asked(
    alloc: Global,
    why: bool,
    names: &[Names],
    outcome: &Outcome,
) -> Result<Vec<String>, Fault>
    ensures shown { IfOk result (λ v. HasRemarks why names.now outcome.now
        (map string_bytes v.items)) }
    ensures refused { IfErr result (λ e. e ≡ MemoryFault) }
{
    if !why {
        return Ok(Vec::new(alloc));
    }
    remarks_of(alloc, names, outcome.settled().stack(), outcome.replies())
}

fn write_whole_report<O: Write>(
    alloc: Global,
    telling: &Telling<'_>,
    expected: &Expected,
    outcome: &Outcome,
    out: &mut O,
) -> Result<(), Fault>
    ensures written { OnOk result (Appends (O.contents out.old) (O.contents out.new)
        (report_output (telling_data telling.now) expected.now outcome.now)) }
    ensures refused { IfErr result (λ e. (e ≡ WriteFault)
        ⊎ ((e ≡ MemoryFault) × (out.new ≡ out.old))) }
{
    let behind = lines_behind(alloc, telling, expected, outcome)?;
    write_report(
        alloc,
        outcome,
        telling.regions,
        telling.remarks,
        &behind,
        out,
    )
}

/// What is written of an audit.
#[derive(Clone, Copy)]
struct Told<'t, 'm, 'n, 'a> {
    asked: &'t Asked<'m, 'n, 'a>,
    terms: AuditTerms,
    groups: &'t [Group],
    telling: &'t Telling<'t>,
    expected: &'t Expected,
    outcome: &'t Outcome,
}

fn write_summary_of<O: Write>(
    alloc: Global,
    told: &Told<'_, '_, '_, '_>,
    all: bool,
    out: &mut O,
) -> Result<(), Fault>
    ensures written { OnOk result (Appends (O.contents out.old) (O.contents out.new)
        (summary_output all (told_data told.now))) }
    ensures refused { IfErr result (λ e. (e ≡ WriteFault)
        ⊎ ((e ≡ MemoryFault) × (out.new ≡ out.old))) }
{
    let head = told.asked.sources(alloc)?;
    let summary = Summary {
        head: &head,
        all,
        names: told.telling.names,
        groups: told.groups,
        origins: told.telling.origins,
    };
    write_summary(alloc, told.outcome, told.expected, &summary, out)
}

fn write_text<O: Write>(
    alloc: Global,
    told: &Told<'_, '_, '_, '_>,
    out: &mut O,
) -> Result<(), Fault>
    ensures written { OnOk result (Appends (O.contents out.old) (O.contents out.new)
        (text_output told.now.terms.text (told_data told.now))) }
    ensures refused { IfErr result (λ e. (e ≡ WriteFault)
        ⊎ ((e ≡ MemoryFault) × (out.new ≡ out.old))) }
{
    match told.terms.text {
        TextForm::Report => {
            write_whole_report(alloc, told.telling, told.expected, told.outcome, out)
        }
        TextForm::Summary => write_summary_of(alloc, told, false, out),
        TextForm::SummaryOfAll => write_summary_of(alloc, told, true, out),
    }
}

fn write_audit<O: Write>(
    alloc: Global,
    told: &Told<'_, '_, '_, '_>,
    identity: Identity<'_>,
    out: &mut O,
) -> Result<(), Fault>
    ensures written { OnOk result (Appends (O.contents out.old) (O.contents out.new)
        (audit_output told.now.terms.json told.now.terms.text identity.entry.version.now
        (map view identity.entry.files.items) (told_data told.now))) }
    ensures refused { IfErr result (λ e. (e ≡ WriteFault)
        ⊎ ((e ≡ MemoryFault) × (out.new ≡ out.old))) }
{
    if told.terms.json {
        let document = audit_document(alloc, told.outcome, told.expected, told.telling)?;
        let document = identified(alloc, document, identity)?;
        return write_document(alloc, &document, out);
    }
    write_text(alloc, told, out)
}

/// Reads the files that ask and then the stack, audits it, writes what is found, and gives the exit status. The notes
/// get the warnings, and at the end `files` takes over the outcome.
pub fn audit<R: Threads + Wait + Sync, F: Files, G: Gate, O: Write>(
    means: &Means<'_, '_, R, G>,
    task: &AuditTask<'_, '_, '_, '_, '_>,
    files: &mut F,
    notes: &mut Notes,
    out: &mut O,
) -> Result<u8, Fault>
    requires workers { (0 < task.now.terms.workers) × (task.now.terms.workers ≤ 64) }
    ensures written { IfOk result (λ s. AuditsFiles task.now.version.now (F.holds files.old)
        (asked_data task.now.asked.now) task.now.paths.now task.now.names.now task.now.terms.budget
        task.now.terms.regions task.now.terms.why task.now.terms.text task.now.terms.json s
        (O.contents out.old) (O.contents out.new)) }
    ensures status { IfOk result (λ s. s ≤ 2) }
    ensures refused { IfErr result (RefusesAudit (F.holds files.old)
        (asked_data task.now.asked.now) task.now.paths.now) }
    ensures quiet { IfErr result (λ e. (e ≡ WriteFault) ⊎ (out.new ≡ out.old)) }
{
    let (alloc, terms, names) = (means.alloc, task.terms, task.names);
    let placed = are_placed(terms);
    let asked = task.asked;
    let (read, origins, policies) = read_questions(alloc, asked, placed, terms.json, files, notes)?;
    let groups = groups_in(alloc, asked.groups, asked.has_groups, files, notes)?;
    let (stack, filters) = read_stack(alloc, task.paths, terms.json, files, notes)?;
    let documents = join_documents(policies, filters)?;
    let (outcome, expected) = audit_filters(means, stack, read, terms)?;
    notes.warnings = warnings_of_stack(alloc, outcome.settled());
    notes.warn_of_questions(outcome.questions(), names);
    let remarks = remarks_if_asked(alloc, terms.why, names, &outcome)?;
    let telling = Telling {
        regions: terms.regions,
        is_expecting: asked.is_expecting(),
        names,
        origins: &origins,
        remarks: &remarks,
    };
    let identity = Identity {
        version: task.version,
        files: documents,
    };
    let told = Told {
        asked,
        terms,
        groups: &groups,
        telling: &telling,
        expected: &expected,
        outcome: &outcome,
    };
    write_audit(alloc, &told, identity, out)?;
    let status = status_of_audit(&expected, &outcome);
    files.take_over(outcome);
    Ok(status)
}

//! Laws of the definitions, each the contract of a function that does nothing, or only calls other laws.

ghost use Rattle.std.specs.Prelude.{◌≡◌, ℕ, Bool, List};
ghost use Rattle.sf_question.specs.QuestionData.{QuestionData};
ghost use Rattle.sf_stack.specs.declared.fault.Fault.{Fault};
ghost use Rattle.sf_audit.specs.Audits.{IsAudit, IsAuditRefusal, OfTwoAudits};
ghost use Rattle.sf_audit.specs.Documents.{TellingData, audit_document};
ghost use Rattle.sf_audit.specs.Expectations.{ExpectedData};
ghost use Rattle.sf_audit.specs.Outcomes.{Found};
ghost use Rattle.sf_audit.specs.Reports.{report_text};
ghost use Rattle.sf_audit.specs.Summaries.{SummaryData, summary_text};

use sf_ask::laws::replies_have_one_result;
use sf_book::laws::explorations_have_one_result;
use sf_stack::laws::a_refusal_spells_no_stack;

/// A law for the prover: where there is an audit, nothing is refused. The files have no refusal then, and there are 1
/// to 256 questions. So `audit` refuses exactly what `IsAuditRefusal` says, unless memory is refused.
pub fn an_audit_is_not_refused()
    ensures { (files : List (List ℕ)) (questions : List QuestionData) (budget : ℕ)
        (o : Found) (e : Fault) →
        IsAudit files questions budget o → IsAuditRefusal files questions e → ⊥ }
{
    a_refusal_spells_no_stack();
}

/// A law for the prover: two audits with the same questions have the same report, where their files spell one stack,
/// both leave nothing outstanding, and both reports have the same remarks and both or neither list the regions. So the
/// report is the same for any two budgets, and for any workers in any order. It is the same too where the files differ
/// only in fields that no instruction uses.
pub fn one_report()
    ensures { OfTwoAudits (λ o p. (shown : Bool) (remarks : List (List ℕ)) →
        report_text o shown remarks ≡ report_text p shown remarks) }
{
    explorations_have_one_result();
    replies_have_one_result();
}

/// A law for the prover: two audits as in `one_report` have the same summary too, where the summaries are made with the
/// same `summary` and the same `expected`.
pub fn one_summary()
    ensures { OfTwoAudits (λ o p. (summary : SummaryData) (expected : ExpectedData) →
        summary_text summary expected o ≡ summary_text summary expected p) }
{
    explorations_have_one_result();
    replies_have_one_result();
}

/// A law for the prover: two audits as in `one_report` have the same JSON document too, where the documents are made
/// with the same `telling` and the same `expected`.
pub fn one_document()
    ensures { OfTwoAudits (λ o p. (telling : TellingData) (expected : ExpectedData) →
        audit_document telling expected o ≡ audit_document telling expected p) }
{
    explorations_have_one_result();
    replies_have_one_result();
}

//! The laws of what is written: it is determined by the bytes of the document.
ghost use Rattle.std.specs.Prelude.{Bool, List, ℕ};
ghost use Rattle.ordtx.specs.Answers.{IsAuditOf, IsCarriedIntoOf, IsCarriedOf, IsCarryFaultOf, IsCarryIntoFaultOf, IsCheckOf, IsExplainedOf, IsFaultOf, IsPlainReportOf, IsReportOf};
ghost use Rattle.ordtx.specs.Laws.{FaultlessLaw, OneFaultLaw, OneTextLaw};

/// The same bytes have at most one report, one report with run counts, each of these with what ended
/// the rounds, one report without rounds, one document of the objects at the end, one that carries the
/// objects of given bytes into them, and one line of how much they have. The lines of a fault aren't
/// among them: their definition leaves open which line and column it has, and the name in a hint.
pub fn answers_are_determined()
    ensures reports { OneTextLaw IsReportOf }
    ensures audits { OneTextLaw IsAuditOf }
    ensures explained { (audit : Bool) → OneTextLaw (IsExplainedOf audit) }
    ensures plain { OneTextLaw IsPlainReportOf }
    ensures carried { OneTextLaw IsCarriedOf }
    ensures into { (first : List ℕ) → OneTextLaw (IsCarriedIntoOf first) }
    ensures checks { OneTextLaw IsCheckOf }
{}

/// The same bytes have at most one first fault, and none where they have a report of any kind or a
/// line of how much they have. Of their objects at the end, too, they have a document or one fault.
/// So it is where the objects of given bytes are carried into them.
pub fn faults_are_determined()
    ensures faults { OneFaultLaw IsFaultOf }
    ensures reports { FaultlessLaw IsReportOf IsFaultOf }
    ensures audits { FaultlessLaw IsAuditOf IsFaultOf }
    ensures explained { (audit : Bool) → FaultlessLaw (IsExplainedOf audit) IsFaultOf }
    ensures plain { FaultlessLaw IsPlainReportOf IsFaultOf }
    ensures checks { FaultlessLaw IsCheckOf IsFaultOf }
    ensures carry_faults { OneFaultLaw IsCarryFaultOf }
    ensures carried { FaultlessLaw IsCarriedOf IsCarryFaultOf }
    ensures into_faults { (first : List ℕ) → OneFaultLaw (IsCarryIntoFaultOf first) }
    ensures into { (first : List ℕ) → FaultlessLaw (IsCarriedIntoOf first)
        (IsCarryIntoFaultOf first) }
{}

//! Laws: reports that keep to the clause of verdicts keep to that of counts. These functions do
//! nothing: each contract is a fact that holds.

ghost use Rattle.std.specs.Prelude.{ℕ, List, All};
ghost use Rattle.sip_vector.specs.declared.update.Update.{Update};
ghost use Rattle.sip_vector.specs.Answers.{Answer, Fits};
ghost use Rattle.sip_vector.specs.Streams.{IsLegal};
ghost use Rattle.sip_wire.specs.declared.version.Version.{Version};
ghost use Rattle.sip_verifier.specs.declared.status.Status.{Status};
ghost use Rattle.sip_verifier.specs.CountClause.{CountsFor, CountClause};
ghost use Rattle.sip_verifier.specs.Exchanges.{Exchange};
ghost use Rattle.sip_verifier.specs.Inquiries.{Inquiry};
ghost use Rattle.sip_verifier.specs.Statuses.{IsListed};
ghost use Rattle.sip_verifier.specs.Tasks.{CanBeAsked};
ghost use Rattle.sip_verifier.specs.Questions.{Question, Accepts, updates};
ghost use Rattle.sip_verifier.specs.VerdictClause.{VerdictClause};

/// What is read of a stream is a legal stream.
pub fn records_are_legal()
    ensures { (i : Inquiry) (x : Exchange) → IsLegal i.depth (updates i x) }
{}

/// Where a question's replies are accepted and state an answer, that answer is counted.
pub fn accepted_questions_are_counted()
    ensures { (version : Version) (depth : ℕ) (stream : List Update) (q : Question)
        (answer : Answer) → Fits depth q.query → IsLegal depth stream
        → Accepts version depth stream q answer → CountsFor version depth stream q answer }
{}

/// Each report of a verifying command is counted, where its queries can be asked.
pub fn reports_are_counted()
    ensures { (i : Inquiry) (x : Exchange) (status : Status)
        → All (CanBeAsked i.depth) i.queries → VerdictClause i x status
        → IsListed status → CountClause i x }
{}

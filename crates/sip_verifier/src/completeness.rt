//! Laws: with an honest helper, ports that do not fail and ample memory, each query is accepted,
//! and the report has the stream's own answers. These functions do nothing: each contract is a fact
//! that holds.
#![tactic(auto, unfolding(sip_subvec::specs::Honest::honest_messages, sip_wire::specs::Spelling::spelling, sip_wire::specs::Spelling::in_bytes, sip_wire::specs::Spelling::spelled))]

ghost use Rattle.std.specs.Prelude.{◌≡◌, ◌≤◌, [], ◌∷◌, ◌++◌, codes, All};
ghost use Rattle.sip_vector.specs.declared.query.Query.TheVariants as queries;
ghost use Rattle.sip_vector.specs.Examples.{stream};
ghost use Rattle.sip_subvec.specs.Examples.{reply_0, reply_1};
ghost use Rattle.sip_vector.specs.Answers.{Fits};
ghost use Rattle.sip_vector.specs.Limits.{most_depth};
ghost use Rattle.sip_wire.specs.declared.version.Version.TheVariants.{One};
ghost use Rattle.sip_verifier.specs.declared.status.Status.{Status};
ghost use Rattle.sip_verifier.specs.declared.task.Task.{Task};
ghost use Rattle.sip_verifier.specs.CauseClause.{CauseClause};
ghost use Rattle.sip_verifier.specs.CompletenessClause.{honest_bytes, CompletenessClause};
ghost use Rattle.sip_verifier.specs.Exchanges.{Exchange};
ghost use Rattle.sip_verifier.specs.Inquiries.{inquiry_of};
ghost use Rattle.sip_verifier.specs.Snapshots.{Counts};
ghost use Rattle.sip_verifier.specs.Reports.{report_of};
ghost use Rattle.sip_verifier.specs.Statuses.{IsListed};
ghost use Rattle.sip_verifier.specs.VerdictClause.{VerdictClause};

/// Each call that keeps to the clauses of verdicts and of causes keeps to that of completeness,
/// where its queries fit the depth.
pub fn honest_helpers_are_accepted()
    ensures { (task : Task) (x : Exchange) (before now : Counts) (status : Status) → 1 ≤ task.depth
        → task.depth ≤ most_depth → All (Fits task.depth) task.queries.items
        → VerdictClause (inquiry_of task x) x status
        → CauseClause (inquiry_of task x) x before now status → IsListed status
        → CompletenessClause task x before now status }
{}

/// What is heard of an honest helper about the entries 1 to 2 of (3, 0, 5, 1), and what is
/// reported.
pub fn honest_run_by_hand()
    ensures heard { honest_bytes One 2 stream (queries.Sub 1 2, 2 ∷ 10 ∷ [])
        ≡ reply_0 One ++ reply_1 }
    ensures report { report_of 2 stream (queries.Sub 1 2 ∷ []) ≡ codes "sub:1:2 2:5" ++ 10 ∷ [] }
{}

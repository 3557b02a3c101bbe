//! Laws. These functions do nothing: each contract is a fact that holds.

ghost use Rattle.std.specs.Prelude.{◌≤◌, length};
ghost use Rattle.sip_vector.specs.Limits.{most_depth};
ghost use Rattle.sip_wire.specs.Table.{most_queries};
ghost use Rattle.sip_verifier.specs.declared.status.Status.{Status as AnyStatus};
ghost use Rattle.sip_verifier.specs.declared.task.Task.{Task as AnyTask};
ghost use Rattle.sip_verifier.specs.CauseClause.{CauseClause};
ghost use Rattle.sip_verifier.specs.Exchanges.{Exchange as AnyExchange};
ghost use Rattle.sip_verifier.specs.Inquiries.{inquiry_of};
ghost use Rattle.sip_verifier.specs.Snapshots.{Counts as AnyCounts};
ghost use Rattle.sip_verifier.specs.Statuses.{IsListed};
ghost use Rattle.sip_verifier.specs.Tasks.{CanBeDone};
ghost use Rattle.sip_verifier.specs.VerdictClause.{VerdictClause};
ghost use Rattle.sip_duel.specs.Accepting.{DuelAccepts};
ghost use Rattle.sip_duel.specs.Story.{IsHonestTalk};

/// Each call that keeps to the clauses of verdicts and of causes over the talk of a link with an
/// honest helper that had heard nothing is accepted with the stream's own answers, unless memory
/// ran out at one of the two ends.
pub fn honest_talks_are_accepted()
    ensures { (task : AnyTask) (x : AnyExchange) (before now : AnyCounts) (status : AnyStatus)
        → 1 ≤ task.depth → task.depth ≤ most_depth → length task.queries.items ≤ most_queries
        → CanBeDone task → IsHonestTalk x.talk
        → VerdictClause (inquiry_of task x) x status
        → CauseClause (inquiry_of task x) x before now status → IsListed status
        → DuelAccepts task x before now status }
{}

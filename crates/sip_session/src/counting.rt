//! How many vectors of all challenges of a run a helper can win by. These functions do nothing:
//! each contract is a fact that holds.

ghost use Rattle.std.specs.Prelude.{◌≡◌, ℕ, ◌*◌, ◌-◌, ◌^◌, ◌<◌, ◌≤◌, true, pos, List, [], length};
ghost use Rattle.std.specs.Prelude.{map, All, IsTrue};
ghost use Rattle.sip_field.specs.Moduli.{m61_modulus};
ghost use Rattle.sip_field.specs.Prime.{IsPrime};
ghost use Rattle.sip_vector.specs.declared.query.Query.{Query as AnyQuery};
ghost use Rattle.sip_vector.specs.declared.query.Query.TheVariants.{Heavy, Share};
ghost use Rattle.sip_vector.specs.declared.update.Side.{Side as AnySide};
ghost use Rattle.sip_vector.specs.declared.update.Update.{Update as AnyUpdate};
ghost use Rattle.sip_vector.specs.Answers.{Fits, answer, pairs};
ghost use Rattle.sip_vector.specs.Built.{is_built};
ghost use Rattle.sip_vector.specs.Streams.{int_sum, vector, IsLegal, IsStrict};
ghost use Rattle.sip_vector.specs.Thresholds.{share_of};
ghost use Rattle.sip_counts.specs.Joint.{bounds};
ghost use Rattle.sip_counts.specs.Strategies.{Strategy, IsOfBytes};
ghost use Rattle.sip_heavy.specs.Counting.{accepts_heavy, is_right, said};
ghost use Rattle.sip_wire.specs.declared.version.Version.{Version as AnyVersion};
ghost use Rattle.sip_verifier.specs.declared.status.Status.{Status as AnyStatus};
ghost use Rattle.sip_verifier.specs.declared.task.Task.{Task as AnyTask};
ghost use Rattle.sip_verifier.specs.CountClause.{CountClause};
ghost use Rattle.sip_verifier.specs.Exchanges.{Exchange};
ghost use Rattle.sip_verifier.specs.Inquiries.{inquiry_of};
ghost use Rattle.sip_verifier.specs.JointClause.{JointClause, RepliesSo};
ghost use Rattle.sip_verifier.specs.Kinds.{kind_row_over, Holds};
ghost use Rattle.sip_verifier.specs.Questions.{Question};
ghost use Rattle.sip_verifier.specs.Statuses.{IsListed};
ghost use Rattle.sip_verifier.specs.Tasks.{CanBeDone};
ghost use Rattle.sip_verifier.specs.VerdictClause.{VerdictClause};
ghost use Rattle.sip_session.specs.JointCounts.{asked_over, misled_over, CanBeCountedOver, HasRoom};
ghost use Rattle.sip_session.specs.PanelCounts.{JointCountOnPanel};
ghost use Rattle.sip_session.specs.PanelExchanges.{PanelExchange};
ghost use Rattle.sip_session.specs.Panels.{Attempt, AreAttempts};

/// The joint bound. Over every prime modulus, for queries of any kinds in any order, a joint
/// strategy has a wrong answer to some query accepted at no more than B·p^(N - 1) of the p^N
/// vectors, N being the number of all challenges and B the sum of what the queries have one by one.
pub fn few_joint_vectors_mislead()
    ensures { (version : AnyVersion) (p depth : ℕ) (stream : List AnyUpdate)
        (queries : List AnyQuery) (strategy : Strategy) → IsPrime p → 0 < depth
        → All (CanBeCountedOver version p depth stream) queries → IsOfBytes strategy
        → misled_over version p depth stream queries strategy
        ≤ bounds (asked_over version p depth stream queries)
        * p ^ (length queries * depth - 1) }
{}

/// Modulo 2^61 - 1 every legal stream is as the bound asks of a query of a kind that is built, but
/// that a side that is asked for heavy entries may have a negative one.
pub fn legal_streams_are_small()
    ensures { (version : AnyVersion) (depth : ℕ) (stream : List AnyUpdate) (query : AnyQuery)
        → IsTrue (is_built query) → IsLegal depth stream
        → Holds (λ kind. kind.AreSmall) (kind_row_over version m61_modulus depth stream query) }
{}

/// Where the entries of a side without a negative one add up to less than is asked for, nothing is
/// asked, and what no reply says is accepted: no entry, as there is none.
pub fn nothing_is_said_where_nothing_is_asked()
    ensures heavy { (version : AnyVersion) (p depth n t : ℕ) (stream : List AnyUpdate)
        (side : AnySide) (block : List ℕ)
        → IsStrict depth stream side → int_sum (vector depth stream side) ≡ pos n → n < t
        → (accepts_heavy version p depth t (vector depth stream side) block [] ≡ true)
        × (said version p depth t (vector depth stream side) [] ≡ [])
        × (answer depth stream (Heavy side t) ≡ pairs []) }
    ensures share { (depth n num den : ℕ) (stream : List AnyUpdate) (side : AnySide)
        → IsLegal depth stream → IsStrict depth stream side → 1 ≤ den
        → int_sum (vector depth stream side) ≡ pos n → n < share_of num den (pos n)
        → answer depth stream (Share side num den) ≡ pairs [] }
{}

/// The joint count on a run. A report that keeps to the clause of verdicts keeps to that of counts,
/// and, with the same lines, to that of joint counts: where a line has a wrong answer, the run's
/// challenges are among the vectors that are counted, for every joint strategy that replies at the
/// run's keys as the talk shows.
pub fn runs_are_counted_jointly()
    ensures { (task : AnyTask) (x : Exchange) (status : AnyStatus)
        → CanBeDone task → 1 ≤ task.depth → VerdictClause (inquiry_of task x) x status
        → IsListed status
        → (count : CountClause (inquiry_of task x) x)
        × JointClause (inquiry_of task x) x count.lines }
{}

/// The joint count on a panel. Attempts that were made in turn, each at its own seat, and were
/// judged by their replies keep to the joint count of all seats: where the line of one has a wrong
/// answer, the challenges are among the vectors that are counted, whichever helper brought it
/// about.
pub fn panels_are_counted_jointly()
    ensures { (helpers : ℕ) (task : AnyTask) (x : PanelExchange) (attempts : List Attempt)
        → 0 < helpers → CanBeDone task → 1 ≤ task.depth
        → AreAttempts helpers task x.seed x.stream attempts
        → JointCountOnPanel helpers task x attempts }
{}

/// Each talk is some joint strategy's, so a promise about every joint strategy that replies at a
/// run's keys as the talk shows speaks of each run.
pub fn each_talk_is_a_joint_strategys()
    ensures { (questions : List Question) → All HasRoom questions
        → (strategy : Strategy) × IsOfBytes strategy × RepliesSo strategy [] questions }
{}

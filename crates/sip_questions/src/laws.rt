//! Laws of runs of questions. These functions do nothing: each contract is a fact that holds.

ghost use Rattle.std.specs.Prelude.{◌≡◌, ◌<◌, ◌^◌, ℕ, All, List, map};
ghost use Rattle.sip_vector.specs.declared.update.Update.{Update as AnyUpdate};
ghost use Rattle.sip_verifier.specs.declared.status.Status.{Status};
ghost use Rattle.sip_verifier.specs.declared.weights.Weights.{Weights};
ghost use Rattle.sip_verifier.specs.Exchanges.{Exchange};
ghost use Rattle.sip_verifier.specs.runs.Concluding.{Ended};
ghost use Rattle.sip_verifier.specs.runs.Runs.{Run};
ghost use Rattle.sip_verifier.specs.Snapshots.{Counts};
ghost use Rattle.sip_verifier.specs.Weights.{AreWeights, weight_in};
ghost use Rattle.sip_questions.specs.declared.question.Question.{Question};
ghost use Rattle.sip_questions.specs.declared.seat.QuestionSeat.{QuestionSeat};
ghost use Rattle.sip_questions.specs.Promises.{CanRun, QuestionClauses};
ghost use Rattle.sip_questions.specs.Questions.{asking, first_by, first_refusal};
ghost use Rattle.sip_questions.specs.Sittings.{StandsAt, question_at, refusal_at};

/// A run of questions that keeps to the clauses of verdicts, of the talk and of causes, as
/// `conclude_run` does over a [`QuestionAsker`](crate::QuestionAsker), keeps to all five: no helper
/// has a wrong line written but at few challenges, and an honest one is accepted.
pub fn runs_keep_their_promises()
    ensures { (r : Run Question) (x : Exchange) (before now : Counts) (status : Status)
        → CanRun r x → Ended asking r x before now status
        → QuestionClauses r x before now status }
{}

/// What seats refuse that stand for a stream of these weights is what the stream refuses: the first
/// question in order, by its number among all.
pub fn seats_refuse_what_the_stream_does()
    ensures { (depth : ℕ) (stream : List AnyUpdate) (weights : Weights)
        (seats : List QuestionSeat) → All (λ u. u.item < 2 ^ depth) stream
        → AreWeights stream weights → All (StandsAt depth stream) seats
        → first_by (refusal_at (weight_in weights)) 1 seats
        ≡ first_refusal stream 1 (map question_at seats) }
{}

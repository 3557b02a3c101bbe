//! What holds of a run without a link. This function does nothing: its contract is a fact that
//! holds.

ghost use Rattle.std.specs.Prelude.{◌≡◌, ◌++◌, List, true, flat_map};
ghost use Rattle.sip_ports.specs.declared.port.TalkEvent.{TalkEvent as AnyEvent};
ghost use Rattle.sip_replies.specs.Talks.{IsPrefix};
ghost use Rattle.sip_vector.specs.declared.update.Update.{Update as AnyUpdate};
ghost use Rattle.sip_verifier.specs.Exchanges.{Exchange};
ghost use Rattle.sip_verifier.specs.Talks.{stream_sent};
ghost use Rattle.sip_verifier.specs.runs.Manners.{Question as AnyAsked};
ghost use Rattle.sip_verifier.specs.runs.Runs.{AreQuestions, IsLegalToEnd, Reached, Run, manner};
ghost use Rattle.sip_verifier.specs.runs.Runs.{updates};
ghost use Rattle.sip_questions.specs.declared.question.Question.{Question as AnyQuestion};
ghost use Rattle.sip_questions.specs.Questions.{asking};
ghost use Rattle.sip_runs.specs.declared.following.Following.{Following as AnyFollowing};
ghost use Rattle.sip_runs.specs.Plans.{Plan};
ghost use Rattle.sip_runs.specs.Runs.{IsFollowed, is_ended};

/// Whatever the pieces, what was said so far is a front of what a run says of the stream before its
/// first question, and at the end it is all of that. So where the questions are asked behind it, in
/// order and each at its block, the whole is the talk of a run of this stream: it has reached these
/// questions, and is judged as a run over a link is.
pub fn steps_are_run()
    ensures front { (p : Plan) (stream : List AnyUpdate) (events : List AnyEvent)
        (f : AnyFollowing) → IsFollowed p stream events f
        → IsPrefix events (stream_sent p.version p.depth stream) }
    ensures all { (p : Plan) (stream : List AnyUpdate) (events : List AnyEvent)
        (f : AnyFollowing) → IsFollowed p stream events f → is_ended f.step ≡ true
        → events ≡ stream_sent p.version p.depth stream }
    ensures run { (p : Plan) (stream : List AnyUpdate) (events rest : List AnyEvent)
        (f : AnyFollowing) (r : Run AnyQuestion) (x : Exchange)
        (questions : List (AnyAsked AnyQuestion)) → IsFollowed p stream events f
        → is_ended f.step ≡ true → r.version ≡ p.version → r.depth ≡ p.depth
        → updates r x ≡ stream → IsLegalToEnd r x → AreQuestions r x questions
        → x.talk ≡ events ++ flat_map (manner asking r x).said_for questions ++ rest
        → Reached asking r x questions rest }
{}

//! How far a sketch is that is asked.

use sip_ask::AskStatus;
use sip_questions::QuestionGiven;
use sip_steps::QuestionAsking;

/// How far a sketch is that is asked.
#[derive(Drop)]
pub(crate) enum Step {
    /// What a talk begins with is to be sent.
    Opening,
    /// What the other end holds is to come.
    Hearing,
    /// The file with the seat of this question used is to be stored.
    Storing {
        asking: QuestionAsking,
    },
    /// It was stored, and the question is asked.
    Asking {
        asking: QuestionAsking,
    },
    /// The question was answered.
    Answered {
        given: QuestionGiven,
        asking: QuestionAsking,
    },
    /// It was answered without being asked.
    Idle {
        given: QuestionGiven,
    },
    /// All were answered, and the farewell is to be sent.
    Leaving,
    /// It ended so.
    Ended(AskStatus),
}

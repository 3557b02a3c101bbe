//! The turn of a question.

use sip_questions::QuestionGiven;
use sip_steps::QuestionAsking;

/// The turn of a question that is left.
#[derive(Drop)]
pub(crate) enum Turn {
    /// It asks for entries that are larger than all of a side together: there is none.
    Idle {
        given: QuestionGiven,
    },
    /// It takes the seat at this place.
    Takes {
        place: usize,
        asking: QuestionAsking,
    },
}

//! What a sketch that is asked without a link wants.

use sip_ask::AskStatus;

/// What is wanted before anything goes on.
#[derive(Clone, Copy, Debug, PartialEq, Eq)]
pub enum Wants {
    /// Bytes are to be sent.
    Due,
    /// Bytes are to come.
    Waits,
    /// A file is to be stored.
    Stores,
    /// A question was answered: the answer is to be read.
    Answers,
    /// Nothing: it ended so.
    Ended(AskStatus),
}

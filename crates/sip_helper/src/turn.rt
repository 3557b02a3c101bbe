//! What is not allowed.

/// The message may not come here. The helper is as it was.
#[derive(Clone, Copy, Debug, PartialEq, Eq)]
pub struct OutOfTurn;

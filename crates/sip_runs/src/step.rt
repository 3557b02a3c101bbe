//! How far a stream is on its way.

ghost use Rattle.std.specs.Prelude.{◌≡◌};
ghost use Rattle.sip_runs.specs.Runs.{is_due, is_ended, is_taking, step_after};

/// How far a stream is on its way to the helper.
#[derive(Clone, Copy, Debug, PartialEq, Eq)]
pub(crate) enum Step {
    /// The opening is to be sent.
    Opening,
    /// Updates are taken, until they fill a frame.
    Taking,
    /// A frame is full, and is to be sent.
    Full,
    /// The stream ended, and the rest of it is to be sent.
    Ending,
    /// All of it was sent.
    Ended,
}

impl Step {
    /// Whether bytes are to be sent.
    pub(crate) fn is_due(self) -> bool
        ensures { result ≡ is_due self }
    {
        matches!(self, Step::Opening | Step::Full | Step::Ending)
    }

    /// Whether updates are taken.
    pub(crate) fn is_taking(self) -> bool
        ensures { result ≡ is_taking self }
    {
        matches!(self, Step::Taking)
    }

    /// What comes once that is sent which is due.
    pub(crate) fn after(self) -> Step
        ensures { result ≡ step_after self }
    {
        match self {
            Step::Ending => Step::Ended,
            _ => Step::Taking,
        }
    }

    /// Whether the stream was sent to its end.
    pub(crate) fn is_ended(self) -> bool
        ensures { result ≡ is_ended self }
    {
        matches!(self, Step::Ended)
    }
}

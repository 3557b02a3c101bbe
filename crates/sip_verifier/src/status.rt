//! How a run ends.

use sip_stream::Why;
use sip_wire::Reason;

/// A port of a run, but for its link.
#[derive(Clone, Copy, Debug, PartialEq, Eq)]
pub enum Port {
    /// The stream.
    First,
    /// The seed, or a stored transcript.
    Second,
    /// The report.
    Report,
    /// The record of the talk.
    Keep,
}

/// How a run ended. Queries are numbered from 1; the other numbers begin at 0.
#[derive(Clone, Copy, Debug, PartialEq, Eq)]
pub enum Status {
    /// Every query was accepted, and its line was written.
    Accepted,
    /// The other end said farewell to a helper.
    Served,
    /// All was read to its end and written.
    Wrote,
    /// The replies to this query have this first fault; `round` is the number of the reply, or the
    /// depth for the tests after the last one.
    Rejected {
        query: u8,
        round: u8,
        reason: Reason,
    },
    /// The words are no command; `word` is the number of the first word that is none.
    Usage {
        word: u32,
    },
    /// Record `at` of the stream is the first that is not legal.
    BadStream {
        at: u64,
        why: Why,
    },
    /// The seed has fewer than 32 bytes.
    BadSeed,
    /// Eight words of the seed in turn gave no challenge.
    SeedSpent,
    /// The transcript is none from this byte on.
    BadTranscript {
        offset: u64,
    },
    /// The frame at this byte has no spelling, is a query that the helper does not answer, or is
    /// out of turn.
    BadFrame {
        offset: u64,
    },
    /// The answer of this query may have too many entries.
    TooWide {
        query: u8,
    },
    /// The side of this question's moment may have a moment that is too high for a claim.
    TooHigh {
        query: u8,
    },
    /// Reading this port failed.
    ReadFault {
        port: Port,
    },
    /// Writing this port failed.
    WriteFault {
        port: Port,
    },
    /// The link failed.
    PeerFault,
    /// The link ended before a farewell.
    PeerClosed,
    /// Memory ran out.
    OutOfMemory,
}

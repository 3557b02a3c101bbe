//! How an ask ends.

use sip_wire::{Held, Reason};

/// What an ask writes to, but for its link.
#[derive(Clone, Copy, Debug, PartialEq, Eq)]
pub enum AskPort {
    /// The file of the sketch.
    Sketch,
    /// The report.
    Report,
}

/// How an ask ended. Questions are numbered from 1; the other numbers begin at 0.
#[derive(Clone, Copy, Debug, PartialEq, Eq)]
pub enum AskStatus {
    /// Every question was accepted, and its line was written.
    Accepted,
    /// The replies to this question have this first fault; `round` is the number of the reply, or
    /// the depth for the tests after the last one.
    Rejected {
        query: u8,
        round: u8,
        reason: Reason,
    },
    /// The file is no sketch from this byte on, or ends there; a missing one at 0.
    BadSketch {
        offset: u64,
    },
    /// Another process has the sketch.
    Busy,
    /// Not all parts of the stream are in.
    NotWhole,
    /// The question does not fit the depth of the sketch.
    Unfit {
        query: u8,
    },
    /// The question is for large entries of a side that had a delta below 0.
    Signed {
        query: u8,
    },
    /// No seat is left that serves the question.
    NoSeat {
        query: u8,
    },
    /// The answer of this question may have too many entries.
    TooWide {
        query: u8,
    },
    /// The side of this question's moment may have a moment that is too high for a claim.
    TooHigh {
        query: u8,
    },
    /// The other end holds another stream than the one that the sketch is of.
    OutOfStep {
        held: Held,
        kept: Held,
    },
    /// The first frame that came does not say what the other end holds.
    BadFrame,
    /// The link ended in that frame.
    PeerClosed,
    /// The link failed.
    PeerFault,
    /// Reading the file of the sketch failed.
    ReadFault,
    /// Writing this port failed.
    WriteFault {
        port: AskPort,
    },
    /// Memory ran out.
    OutOfMemory,
}

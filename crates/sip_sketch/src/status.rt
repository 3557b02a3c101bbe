//! How a call over files ends.

use crate::Unlike;
use sip_stream::Why;

/// A port of such a call.
#[derive(Clone, Copy, Debug, PartialEq, Eq)]
pub enum SketchPort {
    /// The stream.
    First,
    /// The seed.
    Second,
    /// The file of the sketch.
    Sketch,
    /// The file of the part of this number, from 1.
    Part(u32),
    /// The report.
    Report,
}

/// How a call over files ended. Parts are numbered from 1, and part 0 is the sketch; the other
/// numbers begin at 0.
#[derive(Clone, Copy, Debug, PartialEq, Eq)]
pub enum SketchStatus {
    /// All was done, and written or stored.
    Wrote,
    /// There is a file already, and be it an empty one.
    Exists,
    /// The file of this part is no sketch from this byte on, or ends there; a missing one at 0.
    BadSketch { part: u32, offset: u64 },
    /// The seed has fewer than 32 bytes.
    BadSeed,
    /// Eight words of the seed in turn gave no challenge.
    SeedSpent,
    /// Another process has the sketch.
    Busy,
    /// Record `at`, by the sketch's own count, is the first that is not legal.
    BadStream { at: u64, why: Why },
    /// The stream cannot begin at this record of the sketch: it has `records`, or it is the sum of
    /// several parts.
    BadStart { records: u64, is_sum: bool },
    /// The stream ends at this record, by the sketch's own count, before the first one that the
    /// sketch has not yet.
    Behind { at: u64 },
    /// This part is not added to those before it, or the sum is not stored.
    Unlike { part: u32, why: Unlike },
    /// Reading this port failed.
    ReadFault { port: SketchPort },
    /// Writing this port failed.
    WriteFault { port: SketchPort },
    /// Memory ran out.
    OutOfMemory,
}

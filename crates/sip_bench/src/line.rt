//! What one part of the program reports.

use sip_vector::Depth;
use std::fmt::{self, Display, Formatter, Write};
use std::time::Duration;

/// What is timed, or stands beside it.
#[derive(Clone, Copy)]
pub(crate) enum Part {
    Updates,
    Root,
    Point,
    AugRoot,
    Roots16,
    Roots64,
    Points16,
    Points64,
    AugRoots16,
    AugRoots64,
    RecordBytes,
    Records,
    TextBytes,
    Text,
    Vector,
    Siblings,
    Moment3,
    Moment8,
    Pieces1,
    Pieces7,
    Whole,
}

impl Part {
    fn name(self) -> &'static str {
        match self {
            Part::Updates => "updates",
            Part::Root => "root",
            Part::Point => "point",
            Part::AugRoot => "augroot",
            Part::Roots16 => "root16",
            Part::Roots64 => "root64",
            Part::Points16 => "point16",
            Part::Points64 => "point64",
            Part::AugRoots16 => "augroot16",
            Part::AugRoots64 => "augroot64",
            Part::RecordBytes => "recordbytes",
            Part::Records => "records",
            Part::TextBytes => "textbytes",
            Part::Text => "text",
            Part::Vector => "vector",
            Part::Siblings => "siblings",
            Part::Moment3 => "moment3",
            Part::Moment8 => "moment8",
            Part::Pieces1 => "pieces1",
            Part::Pieces7 => "pieces7",
            Part::Whole => "whole",
        }
    }
}

/// How long a part took, and a number that shows what it computed.
#[derive(Clone, Copy)]
pub(crate) struct Line {
    pub(crate) part: Part,
    pub(crate) depth: Depth,
    /// How many updates or records were taken in that time, or how many entries a vector has that
    /// are not 0.
    pub(crate) count: u64,
    /// The least time of all turns.
    pub(crate) time: Duration,
    pub(crate) checksum: u64,
}

/// The lesser of two times.
pub(crate) fn lesser(one: Duration, other: Duration) -> Duration {
    if other.as_nanos() < one.as_nanos() {
        other
    } else {
        one
    }
}

/// `NAME DEPTH COUNT NANOSECONDS CHECKSUM`.
impl Display for Line {
    fn fmt<W: Write>(&self, f: &mut Formatter<W>) -> fmt::Result {
        let name = self.part.name();
        let depth = self.depth.get();
        let time = self.time.as_nanos();
        write!(f, "{name} {depth} {} {time} {}", self.count, self.checksum)
    }
}

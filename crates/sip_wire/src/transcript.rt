//! The two parts of a transcript's head.

ghost use Rattle.std.specs.Prelude.{◌≤◌, length};
ghost use Rattle.sip_ports.specs.Ports.{HasCause, SendsWhole};
ghost use Rattle.sip_vector.specs.Answers.{Fits};
ghost use Rattle.sip_wire.specs.Table.{most_queries};
ghost use Rattle.sip_wire.specs.Versions.{Speaks, deepest};
ghost use Rattle.sip_wire.specs.Transcript.{head_bytes, ask_bytes};

use crate::Version;
use crate::encoding::put_query_frame;
use crate::numbers::{AskBytes, put_u64};
use arrayvec::ArrayVec;
use sip_field::{Field, M61, Seat};
use sip_ports::{PortStop, Sink, write_whole};
use sip_vector::{CAP, Depth, Query};

/// Writes what a transcript begins with: that it is one, the version of its frames, the depth and
/// the number of queries, from 1 to 16. After an `Err` a part of it was written, and not all.
pub fn put_head<K: Sink>(
    version: Version,
    depth: Depth,
    queries: u8,
    sink: &mut K,
) -> Result<(), PortStop>
    requires some { 1 ≤ queries }
    requires most { queries ≤ most_queries }
    requires shallow { depth ≤ deepest version }
    ensures talk { SendsWhole (K.talk sink.old)
        (K.talk sink.new) result (head_bytes version depth queries) }
    ensures cause { HasCause K.faults K.wants K.is_sure sink.old sink.new result }
{
    let head = [
        b'S',
        b'I',
        b'P',
        b'T',
        version.number(),
        depth.get(),
        queries,
    ];
    write_whole(sink, &head)
}

/// Writes a query that was asked, and its challenges, at once. After an `Err` a part of it was
/// written, and not all.
pub fn put_ask<K: Sink>(
    version: Version,
    query: &Query,
    seat: &Seat<M61, CAP>,
    sink: &mut K,
) -> Result<(), PortStop>
    requires fits { Fits (length seat.now) query.now }
    requires speaks { Speaks version (length seat.now) query.now }
    ensures talk { SendsWhole (K.talk sink.old)
        (K.talk sink.new) result (ask_bytes version query.now seat.now) }
    ensures cause { HasCause K.faults K.wants K.is_sure sink.old sink.new result }
{
    let depth = seat.depth();
    let mut out: AskBytes = ArrayVec::new();
    put_query_frame(version, *query, &mut out);
    for level in 0..depth {
        put_u64(&mut out, seat.at(level + 1).number());
    }
    write_whole(sink, &out)
}

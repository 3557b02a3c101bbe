//! Listing a transcript, and writing it in version 2.

ghost use Rattle.std.specs.Prelude.{◌≡◌, ◌<◌, List, ℕ, Some, IsSome, IfOk, IfSome};
ghost use Rattle.std.specs.declared.option.Option.{Option};
ghost use Rattle.sip_ports.specs.declared.port.TalkEvent.{TalkEvent};
ghost use Rattle.sip_ports.specs.Ports.{GoesOn, Lasts, outs};
ghost use Rattle.sip_verifier.specs.Snapshots.{counts};
ghost use Rattle.sip_verifier.specs.Statuses.{FaultClause, Stops};
ghost use Rattle.sip_transcript.specs.Conversions.{in_version_2};
ghost use Rattle.sip_transcript.specs.Listings.{listing};
ghost use Rattle.sip_transcript.specs.Renderings.{rendered};
ghost use Rattle.sip_transcript.specs.Underway.{Begins, IsUnderway, KeepsPorts, PassesReply};
ghost use Rattle.sip_transcript.specs.Underway.{status_of};
ghost use Rattle.sip_transcript.specs.Writing.{EndsWriting, Writes, stops_writing};

use crate::frames::{Reply, take_reply};
use crate::rendering::Rendering;
use crate::stopping::{status_of_head, status_of_sink, status_of_source};
use crate::{Head, TranscriptReader};
use sip_ports::{Sink, Source};
use sip_verifier::Status;
use sip_wire::{Frame, Version};
use std::alloc::Global;

/// Reads the head, and then writes what there is of it.
fn begin<B: Source, K: Sink>(to: Rendering, second: &mut B, report: &mut K) -> Result<Head, Status>
    ensures begins { (bytes : List ℕ) → B.left second.old ≡ Some bytes
        → Begins to bytes (B.left second.new) (K.talk report.old) (K.talk report.new) result }
    ensures ports { KeepsPorts B.left B.faults B.wants B.is_sure K.faults K.wants K.is_sure
        second.old second.new report.old report.new
        (λ before now. Stops stops_writing before now result) }
{
    let head = match TranscriptReader::head(second) {
        Ok(head) => head,
        Err(fault) => return Err(status_of_head(fault)),
    };
    match to.write_head(&head, report) {
        Ok(()) => Ok(head),
        Err(stop) => Err(status_of_sink(stop)),
    }
}

/// Reads the next message, which begins at this place, and writes what there is of it. It answers
/// the place behind it, and `None` at the end.
fn pass_reply<B: Source, K: Sink>(
    to: Rendering,
    version: Version,
    place: u64,
    frame: &mut Frame,
    second: &mut B,
    report: &mut K,
) -> Result<Option<u64>, Status>
    ensures passes { (bytes : List ℕ) (start : Option (List TalkEvent))
        → IsUnderway to bytes (B.left second.old) start (K.talk report.old) version place
        → PassesReply to bytes (B.left second.new) start (K.talk report.new) version result }
    ensures further { IfOk result (λ next. IfSome next (λ after. place < after)) }
    ensures ports { KeepsPorts B.left B.faults B.wants B.is_sure K.faults K.wants K.is_sure
        second.old second.new report.old report.new
        (λ before now. Stops stops_writing before now result) }
{
    let reply = match take_reply(second, version, frame) {
        Ok(reply) => reply,
        Err(stop) => return Err(status_of_source(stop)),
    };
    match reply {
        Reply::End => return Ok(None),
        Reply::Faulty => return Err(Status::BadTranscript { offset: place }),
        Reply::Said => {}
    }
    let bytes = frame.bytes();
    if let Err(stop) = to.write_reply(frame.message(), bytes, report) {
        return Err(status_of_sink(stop));
    }
    match place.checked_add(bytes.len() as u64) {
        Some(after) => Ok(Some(after)),
        None => Err(Status::OutOfMemory),
    }
}

/// Writes what there is of the transcript of `second`, up to the first stop.
fn write_all<B: Source, K: Sink>(
    to: Rendering,
    frame: &mut Frame,
    second: &mut B,
    report: &mut K,
) -> Result<(), Status>
    ensures writes { (bytes : List ℕ) → B.left second.old ≡ Some bytes
        → Writes (rendered to) bytes (B.left second.new) (K.talk report.old) (K.talk report.new)
        (status_of result) }
    ensures ports { KeepsPorts B.left B.faults B.wants B.is_sure K.faults K.wants K.is_sure
        second.old second.new report.old report.new
        (λ before now. Stops stops_writing before now result) }
{
    let head = begin(to, second, report)?;
    let mut place = head.length;
    while let Some(after) = pass_reply(to, head.version, place, frame, second, report)? {
        place = after;
    }
    Ok(())
}

/// The same, with room for a frame.
fn render<B: Source, K: Sink>(
    alloc: Global,
    to: Rendering,
    second: &mut B,
    report: &mut K,
) -> Status
    ensures writes { (bytes : List ℕ) → B.left second.old ≡ Some bytes
        → Writes (rendered to) bytes (B.left second.new) (K.talk report.old) (K.talk report.new)
        result }
    ensures listed { EndsWriting result }
    ensures ports { KeepsPorts B.left B.faults B.wants B.is_sure K.faults K.wants K.is_sure
        second.old second.new report.old report.new
        (λ before now. FaultClause before now result) }
{
    let Ok(mut frame) = Frame::new(alloc) else {
        return Status::OutOfMemory;
    };
    match write_all(to, &mut frame, second, report) {
        Ok(()) => Status::Wrote,
        Err(status) => status,
    }
}

/// Lists the transcript of `second`: a line for the depth, one for each query with its challenges,
/// and one for each frame of the replies. Nothing is written before the whole head was read. The
/// memory is that of one frame with its messages.
///
/// `Wrote` comes exactly where the source has a transcript to its end, and then it was listed;
/// `BadTranscript` exactly where it has not, with the place where it stops being one, up to which
/// it was listed. `ReadFault` and `WriteFault` come only where the count of faults of that port
/// rose; what was written is then, as where memory ran out, a front of this.
pub fn show<B: Source, K: Sink>(alloc: Global, second: &mut B, report: &mut K) -> Status
    ensures writes { (bytes : List ℕ) → B.left second.old ≡ Some bytes
        → Writes listing bytes (B.left second.new) (K.talk report.old) (K.talk report.new)
        result }
    ensures told { IsSome (B.left second.old) → IsSome (B.left second.new) }
    ensures wrote { IsSome (B.left second.old) → (bytes : List ℕ)
        × GoesOn (K.talk report.old) (K.talk report.new) (outs bytes) }
    ensures fault { (first firsts peer peers keep keeps : ℕ) → FaultClause
        (counts first (B.faults second.old) peer (K.faults report.old) keep)
        (counts firsts (B.faults second.new) peers (K.faults report.new) keeps) result }
    ensures listed { EndsWriting result }
    ensures second { Lasts B.faults B.wants B.is_sure second.old second.new }
    ensures report { Lasts K.faults K.wants K.is_sure report.old report.new }
{
    render(alloc, Rendering::Listing, second, report)
}

/// Writes the transcript of `second` in version 2: the same depth, queries, challenges and messages
/// in frames with wide items. One of version 2 is copied. Nothing is written before the whole head
/// was read. The memory is that of one frame with its messages.
///
/// The answers are those of [`show`], with the transcript in version 2 in place of the listing.
pub fn convert<B: Source, K: Sink>(alloc: Global, second: &mut B, report: &mut K) -> Status
    ensures writes { (bytes : List ℕ) → B.left second.old ≡ Some bytes
        → Writes in_version_2 bytes (B.left second.new) (K.talk report.old) (K.talk report.new)
        result }
    ensures told { IsSome (B.left second.old) → IsSome (B.left second.new) }
    ensures wrote { IsSome (B.left second.old) → (bytes : List ℕ)
        × GoesOn (K.talk report.old) (K.talk report.new) (outs bytes) }
    ensures fault { (first firsts peer peers keep keeps : ℕ) → FaultClause
        (counts first (B.faults second.old) peer (K.faults report.old) keep)
        (counts firsts (B.faults second.new) peers (K.faults report.new) keeps) result }
    ensures listed { EndsWriting result }
    ensures second { Lasts B.faults B.wants B.is_sure second.old second.new }
    ensures report { Lasts K.faults K.wants K.is_sure report.old report.new }
{
    render(alloc, Rendering::Wide, second, report)
}

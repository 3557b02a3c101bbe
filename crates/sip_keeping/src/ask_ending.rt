//! How the command that asks a sketch ends: its exit code, and the line of its status.

ghost use Rattle.std.specs.Prelude.{◌≡◌, ◌+◌, ◌≤◌, ◌++◌, None};
ghost use Rattle.arrayvec.specs.ArrayVec.{array_vec_len};
ghost use Rattle.sip_ports.specs.Ports.{HasCause, SendsWhole};
ghost use Rattle.sip_keeping.specs.AskEndings.{as_kept, as_run, ask_line, code_of_ask, held_text};
ghost use Rattle.sip_keeping.specs.AskEndings.{line_of_ask};

use crate::ending::finish_sketch;
use arrayvec::ArrayVec;
use sip_advice::{Ending, STATUS_ROOM, finish, numbered_line, plain_line};
use sip_ask::{AskPort, AskStatus};
use sip_ports::{Sink, write_whole};
use sip_sketch::{SketchPort, SketchStatus};
use sip_stream::text::{put, put_number};
use sip_verifier::{Port, Status};
use sip_wire::Held;

/// The status of a command without a sketch that says the same, where there is one.
pub fn run_status(status: &AskStatus) -> Option<Status>
    ensures { result ≡ as_run status.now }
{
    match *status {
        AskStatus::Accepted => Some(Status::Accepted),
        AskStatus::Rejected {
            query,
            round,
            reason,
        } => Some(Status::Rejected {
            query,
            round,
            reason,
        }),
        AskStatus::TooWide { query } => Some(Status::TooWide { query }),
        AskStatus::TooHigh { query } => Some(Status::TooHigh { query }),
        AskStatus::BadFrame => Some(Status::BadFrame { offset: 0 }),
        AskStatus::PeerClosed => Some(Status::PeerClosed),
        AskStatus::PeerFault => Some(Status::PeerFault),
        AskStatus::WriteFault {
            port: AskPort::Report,
        } => Some(Status::WriteFault { port: Port::Report }),
        AskStatus::OutOfMemory => Some(Status::OutOfMemory),
        _ => None,
    }
}

/// That of a command which keeps a sketch.
pub fn kept_status(status: &AskStatus) -> Option<SketchStatus>
    ensures { result ≡ as_kept status.now }
{
    match *status {
        AskStatus::BadSketch { offset } => Some(SketchStatus::BadSketch { part: 0, offset }),
        AskStatus::Busy => Some(SketchStatus::Busy),
        AskStatus::ReadFault => Some(SketchStatus::ReadFault {
            port: SketchPort::Sketch,
        }),
        AskStatus::WriteFault {
            port: AskPort::Sketch,
        } => Some(SketchStatus::WriteFault {
            port: SketchPort::Sketch,
        }),
        _ => None,
    }
}

// Adds what is held of a stream.
fn put_held(gathered: &mut ArrayVec<u8, STATUS_ROOM>, held: &Held)
    requires { array_vec_len gathered.old + 79 ≤ STATUS_ROOM }
    ensures items { gathered.new.items ≡ gathered.old.items ++ held_text held.now }
    ensures len { array_vec_len gathered.new ≤ array_vec_len gathered.old + 79 }
{
    let mut digits = [0; 16];
    let written = hex::encode_to_slice(held.fingerprint.to_be_bytes(), &mut digits).is_ok();
    prove!(written);
    put_number(gathered, held.records);
    put(gathered, b" ");
    put_number(gathered, held.first);
    put(gathered, b" ");
    put_number(gathered, held.second);
    put(gathered, b" ");
    put(gathered, &digits);
}

// The line of a helper that holds another stream.
fn out_of_step(held: &Held, kept: &Held) -> ArrayVec<u8, STATUS_ROOM>
    ensures { result.items ≡ ask_line (AskStatus.OutOfStep held.now kept.now) }
{
    let mut gathered = ArrayVec::new();
    put(&mut gathered, b"sip: helper holds ");
    put_held(&mut gathered, held);
    put(&mut gathered, b", sketch ");
    put_held(&mut gathered, kept);
    put(&mut gathered, b"\n");
    gathered
}

// The line of a status that no other command has.
fn line_of(status: &AskStatus) -> ArrayVec<u8, STATUS_ROOM>
    ensures { result.items ≡ ask_line status.now }
{
    match status {
        AskStatus::NotWhole => plain_line(b"sip: sketch is not whole"),
        AskStatus::Unfit { query } => numbered_line(
            b"sip: query ",
            *query as u64,
            b" does not fit",
        ),
        AskStatus::Signed { query } => {
            numbered_line(b"sip: query ", *query as u64, b" on a side with negatives")
        }
        AskStatus::NoSeat { query } => numbered_line(
            b"sip: no seat for query ",
            *query as u64,
            b"",
        ),
        AskStatus::OutOfStep { held, kept } => out_of_step(held, kept),
        AskStatus::Accepted
        | AskStatus::Rejected { .. }
        | AskStatus::BadSketch { .. }
        | AskStatus::Busy
        | AskStatus::TooWide { .. }
        | AskStatus::TooHigh { .. }
        | AskStatus::BadFrame
        | AskStatus::PeerClosed
        | AskStatus::PeerFault
        | AskStatus::ReadFault
        | AskStatus::WriteFault { .. }
        | AskStatus::OutOfMemory => ArrayVec::new(),
    }
}

/// Ends a run that asked a sketch: writes the line of its status in one piece, if it has one, and
/// answers the code that the program ends with: 0 all was accepted, 1 a reply was rejected, 3 bad
/// input, 4 a port failed, 5 out of memory. It takes no memory beyond a fixed buffer.
pub fn finish_ask<K: Sink>(status: &AskStatus, errors: &mut K) -> Ending
    ensures code { result.code ≡ code_of_ask status.now }
    ensures line { SendsWhole (K.talk errors.old)
        (K.talk errors.new) result.line (line_of_ask status.now) }
    ensures cause { HasCause K.faults K.wants K.is_sure errors.old errors.new result.line }
{
    if let Some(same) = run_status(status) {
        return finish(&same, errors);
    }
    if let Some(same) = kept_status(status) {
        return finish_sketch(&same, errors);
    }
    Ending {
        code: 3,
        line: write_whole(errors, line_of(status).as_slice()),
    }
}

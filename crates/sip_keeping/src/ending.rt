//! How a command that keeps a sketch ends: its exit code, and the line of its status.

ghost use Rattle.std.specs.Prelude.{◌≡◌, ◌+◌, ◌≤◌, ◌++◌, ◌∷◌, [], length};
ghost use Rattle.arrayvec.specs.ArrayVec.{array_vec_len};
ghost use Rattle.sip_ports.specs.Ports.{HasCause, SendsWhole};
ghost use Rattle.sip_keeping.specs.Endings.{bad_file, bad_start, code_of_sketch, line_of_sketch};
ghost use Rattle.sip_keeping.specs.Endings.{own_code, own_line, port_name, shared, unlike_name};

use arrayvec::ArrayVec;
use sip_advice::{Ending, STATUS_ROOM, finish, numbered_line, plain_line};
use sip_ports::{Sink, write_whole};
use sip_sketch::{SketchPort, SketchStatus, Unlike};
use sip_stream::text::{put, put_number};
use sip_vector::Side;
use sip_verifier::{Port, Status};

/// The status of a command without a sketch that says the same, where there is one.
pub fn shared_status(status: &SketchStatus) -> Option<Status>
    ensures { result ≡ shared status.now }
{
    match *status {
        SketchStatus::Wrote => Some(Status::Wrote),
        SketchStatus::BadSeed => Some(Status::BadSeed),
        SketchStatus::SeedSpent => Some(Status::SeedSpent),
        SketchStatus::BadStream { at, why } => Some(Status::BadStream { at, why }),
        SketchStatus::ReadFault {
            port: SketchPort::First,
        } => Some(Status::ReadFault { port: Port::First }),
        SketchStatus::ReadFault {
            port: SketchPort::Second,
        } => Some(Status::ReadFault { port: Port::Second }),
        SketchStatus::WriteFault {
            port: SketchPort::Report,
        } => Some(Status::WriteFault { port: Port::Report }),
        SketchStatus::OutOfMemory => Some(Status::OutOfMemory),
        _ => None,
    }
}

// Adds the name of why a part is not added.
fn put_unlike(gathered: &mut ArrayVec<u8, STATUS_ROOM>, why: Unlike)
    requires { array_vec_len gathered.old + 16 ≤ STATUS_ROOM }
    ensures items { gathered.new.items ≡ gathered.old.items ++ unlike_name why }
    ensures len { array_vec_len gathered.new ≤ array_vec_len gathered.old + 16 }
{
    match why {
        Unlike::Shape => put(gathered, b"Shape"),
        Unlike::Whole => put(gathered, b"Whole"),
        Unlike::UsedSeat => put(gathered, b"UsedSeat"),
        Unlike::NotNext => put(gathered, b"NotNext"),
        Unlike::Heavy(Side::First) => put(gathered, b"Heavy(0)"),
        Unlike::Heavy(Side::Second) => put(gathered, b"Heavy(1)"),
        Unlike::Missing => put(gathered, b"Missing"),
        Unlike::Fewer => put(gathered, b"Fewer"),
    }
}

// Adds the name of a part.
fn put_part(gathered: &mut ArrayVec<u8, STATUS_ROOM>, part: u32)
    requires { array_vec_len gathered.old + 32 ≤ STATUS_ROOM }
    ensures items { gathered.new.items ≡ gathered.old.items ++ port_name (SketchPort.Part part) }
    ensures len { array_vec_len gathered.new ≤ array_vec_len gathered.old + 32 }
{
    put(gathered, b"part ");
    put_number(gathered, part as u64);
}

// Adds the name of a port.
fn put_port(gathered: &mut ArrayVec<u8, STATUS_ROOM>, port: SketchPort)
    requires { array_vec_len gathered.old + 32 ≤ STATUS_ROOM }
    ensures items { gathered.new.items ≡ gathered.old.items ++ port_name port }
    ensures len { array_vec_len gathered.new ≤ array_vec_len gathered.old + 32 }
{
    match port {
        SketchPort::First => put(gathered, b"first"),
        SketchPort::Second => put(gathered, b"second"),
        SketchPort::Sketch => put(gathered, b"sketch"),
        SketchPort::Part(part) => put_part(gathered, part),
        SketchPort::Report => put(gathered, b"report"),
    }
}

// A line of a text and the name of a port.
fn on_port(text: &[u8], port: SketchPort) -> ArrayVec<u8, STATUS_ROOM>
    requires { length text.now ≤ 40 }
    ensures { result.items ≡ text.now ++ port_name port ++ 10 ∷ [] }
{
    let mut gathered = ArrayVec::new();
    put(&mut gathered, text);
    put_port(&mut gathered, port);
    put(&mut gathered, b"\n");
    gathered
}

// Adds which file is no sketch.
fn put_bad_file(gathered: &mut ArrayVec<u8, STATUS_ROOM>, part: u32)
    requires { array_vec_len gathered.old + 40 ≤ STATUS_ROOM }
    ensures items { gathered.new.items ≡ gathered.old.items ++ bad_file part }
    ensures len { array_vec_len gathered.new ≤ array_vec_len gathered.old + 40 }
{
    if part == 0 {
        put(gathered, b"sip: bad sketch");
    } else {
        put(gathered, b"sip: bad part ");
        put_number(gathered, part as u64);
    }
}

// The line of a file that is no sketch.
fn bad_sketch(part: u32, offset: u64) -> ArrayVec<u8, STATUS_ROOM>
    ensures { result.items ≡ own_line (SketchStatus.BadSketch part offset) }
{
    let mut gathered = ArrayVec::new();
    put_bad_file(&mut gathered, part);
    put(&mut gathered, b" at offset ");
    put_number(&mut gathered, offset);
    put(&mut gathered, b"\n");
    gathered
}

// The line of a stream that cannot begin where it was to.
fn bad_start_line(records: u64, is_sum: bool) -> ArrayVec<u8, STATUS_ROOM>
    ensures { result.items ≡ bad_start records is_sum }
{
    if is_sum {
        plain_line(b"sip: bad start, sketch is a sum")
    } else {
        numbered_line(b"sip: bad start, sketch has ", records, b" records")
    }
}

// The line of a part that is not added.
fn unlike_line(part: u32, why: Unlike) -> ArrayVec<u8, STATUS_ROOM>
    ensures { result.items ≡ own_line (SketchStatus.Unlike part why) }
{
    let mut gathered = ArrayVec::new();
    put(&mut gathered, b"sip: part ");
    put_number(&mut gathered, part as u64);
    put(&mut gathered, b": ");
    put_unlike(&mut gathered, why);
    put(&mut gathered, b"\n");
    gathered
}

// The line of a status that no other command has.
fn line_of(status: &SketchStatus) -> ArrayVec<u8, STATUS_ROOM>
    ensures { result.items ≡ own_line status.now }
{
    match *status {
        SketchStatus::Exists => plain_line(b"sip: sketch exists"),
        SketchStatus::BadSketch { part, offset } => bad_sketch(part, offset),
        SketchStatus::Busy => plain_line(b"sip: sketch is busy"),
        SketchStatus::BadStart { records, is_sum } => bad_start_line(records, is_sum),
        SketchStatus::Behind { at } => numbered_line(b"sip: stream ends at record ", at, b""),
        SketchStatus::Unlike { part, why } => unlike_line(part, why),
        SketchStatus::ReadFault { port } => on_port(b"sip: read fault on ", port),
        SketchStatus::WriteFault { port } => on_port(b"sip: write fault on ", port),
        SketchStatus::Wrote
        | SketchStatus::BadSeed
        | SketchStatus::SeedSpent
        | SketchStatus::BadStream { .. }
        | SketchStatus::OutOfMemory => ArrayVec::new(),
    }
}

// The code of such a status.
fn code_of(status: &SketchStatus) -> u8
    ensures { result ≡ own_code status.now }
{
    match *status {
        SketchStatus::ReadFault { .. } | SketchStatus::WriteFault { .. } => 4,
        _ => 3,
    }
}

// Ends a run at a status that no other command has.
fn finish_own<K: Sink>(status: &SketchStatus, errors: &mut K) -> Ending
    ensures code { result.code ≡ own_code status.now }
    ensures line { SendsWhole (K.talk errors.old)
        (K.talk errors.new) result.line (own_line status.now) }
    ensures cause { HasCause K.faults K.wants K.is_sure errors.old errors.new result.line }
{
    Ending {
        code: code_of(status),
        line: write_whole(errors, line_of(status).as_slice()),
    }
}

/// Ends a run: writes the line of its status in one piece, if it has one, and answers the code that
/// the program ends with: 0 all went well, 3 bad input, 4 a port failed, 5 out of memory. It takes
/// no memory beyond a fixed buffer.
pub fn finish_sketch<K: Sink>(status: &SketchStatus, errors: &mut K) -> Ending
    ensures code { result.code ≡ code_of_sketch status.now }
    ensures line { SendsWhole (K.talk errors.old)
        (K.talk errors.new) result.line (line_of_sketch status.now) }
    ensures cause { HasCause K.faults K.wants K.is_sure errors.old errors.new result.line }
{
    match shared_status(status) {
        Some(same) => finish(&same, errors),
        None => finish_own(status, errors),
    }
}

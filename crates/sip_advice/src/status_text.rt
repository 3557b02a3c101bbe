//! The line of a status, for standard error.

ghost use Rattle.std.specs.Prelude.{◌≡◌, ◌+◌, ◌≤◌, ◌++◌, ◌∷◌, [], length, decimal};
ghost use Rattle.arrayvec.specs.ArrayVec.{array_vec_len};
ghost use Rattle.sip_ports.specs.Ports.{HasCause, SendsWhole};
ghost use Rattle.sip_advice.specs.StatusLine.{line_of_status, port_name, why_name};

use arrayvec::ArrayVec;
use sip_ports::{PortStop, Sink, write_whole};
use sip_stream::Why;
use sip_stream::text::{put, put_number};
use sip_vector::Side;
use sip_verifier::{Port, Status};

/// No line of a status is longer.
pub const STATUS_ROOM: usize = 256;

// Adds the name of why a record is not legal.
fn put_why(gathered: &mut ArrayVec<u8, STATUS_ROOM>, why: Why)
    requires { array_vec_len gathered.old + 16 ≤ STATUS_ROOM }
    ensures items { gathered.new.items ≡ gathered.old.items ++ why_name why }
    ensures len { array_vec_len gathered.new ≤ array_vec_len gathered.old + 16 }
{
    match why {
        Why::Truncated => put(gathered, b"Truncated"),
        Why::BadLine => put(gathered, b"BadLine"),
        Why::BadSide => put(gathered, b"BadSide"),
        Why::BadItem => put(gathered, b"BadItem"),
        Why::ZeroDelta => put(gathered, b"ZeroDelta"),
        Why::TooHeavy(Side::First) => put(gathered, b"TooHeavy(0)"),
        Why::TooHeavy(Side::Second) => put(gathered, b"TooHeavy(1)"),
    }
}

// Adds the name of a port.
fn put_port(gathered: &mut ArrayVec<u8, STATUS_ROOM>, port: Port)
    requires { array_vec_len gathered.old + 16 ≤ STATUS_ROOM }
    ensures items { gathered.new.items ≡ gathered.old.items ++ port_name port }
    ensures len { array_vec_len gathered.new ≤ array_vec_len gathered.old + 16 }
{
    match port {
        Port::First => put(gathered, b"first"),
        Port::Second => put(gathered, b"second"),
        Port::Report => put(gathered, b"report"),
        Port::Keep => put(gathered, b"record"),
    }
}

/// A line of a text.
pub fn plain_line(text: &[u8]) -> ArrayVec<u8, STATUS_ROOM>
    requires { length text.now ≤ 100 }
    ensures { result.items ≡ text.now ++ 10 ∷ [] }
{
    let mut gathered = ArrayVec::new();
    put(&mut gathered, text);
    put(&mut gathered, b"\n");
    gathered
}

/// A line of a text, a number and another text.
pub fn numbered_line(text: &[u8], number: u64, rest: &[u8]) -> ArrayVec<u8, STATUS_ROOM>
    requires first { length text.now ≤ 100 }
    requires last { length rest.now ≤ 100 }
    ensures { result.items ≡ text.now ++ decimal number ++ rest.now ++ 10 ∷ [] }
{
    let mut gathered = ArrayVec::new();
    put(&mut gathered, text);
    put_number(&mut gathered, number);
    put(&mut gathered, rest);
    put(&mut gathered, b"\n");
    gathered
}

// A line of a text and the name of a port.
fn on_port(text: &[u8], port: Port) -> ArrayVec<u8, STATUS_ROOM>
    requires { length text.now ≤ 100 }
    ensures { result.items ≡ text.now ++ port_name port ++ 10 ∷ [] }
{
    let mut gathered = ArrayVec::new();
    put(&mut gathered, text);
    put_port(&mut gathered, port);
    put(&mut gathered, b"\n");
    gathered
}

// The line of a bad stream.
fn bad_stream(at: u64, why: Why) -> ArrayVec<u8, STATUS_ROOM>
    ensures { result.items ≡ line_of_status (Status.BadStream at why) }
{
    let mut gathered = ArrayVec::new();
    put(&mut gathered, b"sip: bad stream at record ");
    put_number(&mut gathered, at);
    put(&mut gathered, b": ");
    put_why(&mut gathered, why);
    put(&mut gathered, b"\n");
    gathered
}

// The line of a status.
fn line_of(status: &Status) -> ArrayVec<u8, STATUS_ROOM>
    ensures { result.items ≡ line_of_status status.now }
{
    match status {
        Status::Accepted | Status::Served | Status::Wrote | Status::Rejected { .. } => {
            ArrayVec::new()
        }
        Status::Usage { word } => numbered_line(b"sip: usage at word ", *word as u64, b""),
        Status::BadStream { at, why } => bad_stream(*at, *why),
        Status::BadSeed => plain_line(b"sip: seed too short"),
        Status::SeedSpent => plain_line(b"sip: seed spent"),
        Status::BadTranscript { offset } => {
            numbered_line(b"sip: bad transcript at offset ", *offset, b"")
        }
        Status::BadFrame { offset } => numbered_line(b"sip: bad frame at offset ", *offset, b""),
        Status::TooWide { query } => numbered_line(b"sip: query ", *query as u64, b" too wide"),
        Status::TooHigh { query } => numbered_line(b"sip: query ", *query as u64, b" too high"),
        Status::ReadFault { port } => on_port(b"sip: read fault on ", *port),
        Status::WriteFault { port } => on_port(b"sip: write fault on ", *port),
        Status::PeerFault => plain_line(b"sip: peer fault"),
        Status::PeerClosed => plain_line(b"sip: peer closed"),
        Status::OutOfMemory => plain_line(b"sip: out of memory"),
    }
}

/// Writes the line of a status in one piece: what went wrong, and where. Nothing is written where
/// all went well, nor for a rejection, whose line the report has. It takes no memory beyond a fixed
/// buffer.
///
/// # Errors
///
/// Those of the sink, which a front of the line has then reached that is shorter than it.
pub fn status_line<K: Sink>(status: &Status, sink: &mut K) -> Result<(), PortStop>
    ensures talk { SendsWhole (K.talk sink.old)
        (K.talk sink.new) result (line_of_status status.now) }
    ensures cause { HasCause K.faults K.wants K.is_sure sink.old sink.new result }
{
    write_whole(sink, line_of(status).as_slice())
}

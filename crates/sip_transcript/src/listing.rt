//! The lines of a listing.

ghost use Rattle.std.specs.Prelude.{◌≡◌, ◌+◌, ◌*◌, ◌≤◌, ◌++◌, ◌∷◌, [], IsTrue, codes, length};
ghost use Rattle.arrayvec.specs.ArrayVec.{array_vec_len};
ghost use Rattle.hex.specs.Hex.{encode_lower};
ghost use Rattle.sip_ports.specs.Ports.{HasCause, SendsWhole};
ghost use Rattle.sip_wire.specs.Frames.{frame_bytes};
ghost use Rattle.sip_wire.specs.Spelling.{fits, spelling};
ghost use Rattle.sip_wire.specs.declared.version.Version.{Version as AnyVersion};
ghost use Rattle.sip_transcript.specs.Listings.{body_text, challenge_text, depth_line, frame_line};
ghost use Rattle.sip_transcript.specs.Listings.{message_name, query_front, query_line};

use arrayvec::ArrayVec;
use sip_ports::{PortStop, Sink, write_whole};
use sip_stream::text::{put, put_number};
use sip_vector::{CAP, Depth, Query};
use sip_verifier::query_word;
use sip_wire::{Frame, Message};

/// How many bytes of a line are gathered before they are written. Only the line of a frame may be
/// longer, and is written in parts.
const LINE: usize = 1024;

/// How many bytes of a body are gathered at once.
const BLOCK: usize = 480;

/// How many bytes stand before the body of a frame.
const FRAME_HEAD: usize = 3;

/// Adds bytes in hexadecimal, with two digits each.
fn put_hex<const ROOM: usize>(gathered: &mut ArrayVec<u8, ROOM>, bytes: &[u8])
    requires few { length bytes.now ≤ BLOCK }
    requires room { array_vec_len gathered.old + 2 * length bytes.now ≤ ROOM }
    ensures items { gathered.new.items ≡ gathered.old.items ++ encode_lower bytes.now }
    ensures len { array_vec_len gathered.new ≡ array_vec_len gathered.old + 2 * length bytes.now }
{
    let mut digits = [0; 2 * BLOCK];
    let text = &mut digits[..2 * bytes.len()];
    let fits = hex::encode_to_slice(bytes, text).is_ok();
    prove!(fits);
    put(gathered, text);
}

/// The line of a depth.
pub(crate) fn depth_line(depth: Depth) -> ArrayVec<u8, LINE>
    ensures { result.items ≡ depth_line depth }
{
    let mut line = ArrayVec::new();
    put(&mut line, b"depth ");
    put_number(&mut line, depth.get() as u64);
    put(&mut line, b"\n");
    line
}

/// What the line of a query with this number begins with, up to its challenges.
fn begin_query(number: u8, query: &Query) -> ArrayVec<u8, LINE>
    ensures items { result.items ≡ query_front number query.now }
    ensures len { array_vec_len result ≤ 98 }
{
    let word = query_word(query);
    let mut line = ArrayVec::new();
    put(&mut line, b"query ");
    put_number(&mut line, number as u64);
    put(&mut line, b" ");
    put(&mut line, word.as_slice());
    put(&mut line, b" challenges");
    line
}

/// Adds a challenge behind a space, in 16 digits.
fn put_challenge(line: &mut ArrayVec<u8, LINE>, challenge: u64)
    requires { array_vec_len line.old + 17 ≤ LINE }
    ensures items { line.new.items ≡ line.old.items ++ challenge_text challenge }
    ensures len { array_vec_len line.new ≡ array_vec_len line.old + 17 }
{
    let bytes = challenge.to_be_bytes();
    put(line, b" ");
    put_hex(line, &bytes);
}

/// The line of the query with this number, and of its challenges.
pub(crate) fn query_line(number: u8, query: &Query, block: &[u64]) -> ArrayVec<u8, LINE>
    requires { length block.now ≤ CAP }
    ensures { result.items ≡ query_line number (query.now, block.now) }
{
    let mut line = begin_query(number, query);
    for challenge in block {
        put_challenge(&mut line, *challenge);
    }
    put(&mut line, b"\n");
    line
}

/// The name of a message.
fn name(message: &Message) -> &'static str
    ensures name { result.now ≡ message_name message.now }
    ensures short { length result.now ≤ 9 }
{
    match message {
        Message::Open { .. } => "Open",
        Message::Updates(_) => "Updates",
        Message::EndStream => "EndStream",
        Message::Query(_) => "Query",
        Message::Reveal { .. } => "Reveal",
        Message::Bye => "Bye",
        Message::Claim { .. } => "Claim",
        Message::Poly { .. } => "Poly",
        Message::Entries(_) => "Entries",
        Message::Siblings { .. } => "Siblings",
        Message::Leaves(_) => "Leaves",
        Message::Nodes(_) => "Nodes",
        Message::LevelEnd => "LevelEnd",
        Message::Refuse { .. } => "Refuse",
        Message::AskLook { .. } => "AskLook",
        Message::Found { .. } => "Found",
        Message::End => "End",
        Message::AskMoment { .. } => "AskMoment",
        Message::Power(_) => "Power",
        Message::Held(_) => "Held",
        Message::Recall { .. } => "Recall",
        Message::Marks(_) => "Marks",
    }
}

/// What stands in the line of a frame before the digits of this body: its message's name, and a
/// dash where the body is empty.
fn begin(message: &Message, body: &[u8]) -> ArrayVec<u8, LINE>
    ensures items { result.items ++ encode_lower body.now
        ≡ codes "frame " ++ message_name message.now ++ codes " " ++ body_text body.now }
    ensures len { array_vec_len result ≤ 17 }
{
    let mut line = ArrayVec::new();
    put(&mut line, b"frame ");
    put(&mut line, name(message).as_bytes());
    put(&mut line, b" ");
    if body.is_empty() {
        put(&mut line, b"-");
    }
    line
}

/// Writes what is gathered, the digits of a body behind it, and a line feed; a long body in parts.
fn write_digits<K: Sink>(
    gathered: ArrayVec<u8, LINE>,
    body: &[u8],
    sink: &mut K,
) -> Result<(), PortStop>
    requires { array_vec_len gathered ≤ 17 }
    ensures talk { SendsWhole (K.talk sink.old) (K.talk sink.new) result
        (gathered.items ++ encode_lower body.now ++ 10 ∷ []) }
    ensures cause { HasCause K.faults K.wants K.is_sure sink.old sink.new result }
{
    let mut line = gathered;
    let mut left = body;
    while left.len() > BLOCK {
        let (part, rest) = left.split_at(BLOCK);
        put_hex(&mut line, part);
        write_whole(sink, line.as_slice())?;
        line.clear();
        left = rest;
    }
    put_hex(&mut line, left);
    put(&mut line, b"\n");
    write_whole(sink, line.as_slice())
}

/// Writes the line of a frame that is at hand.
pub(crate) fn write_line<K: Sink>(
    message: &Message,
    frame: &[u8],
    sink: &mut K,
) -> Result<(), PortStop>
    requires { FRAME_HEAD ≤ length frame.now }
    ensures talk { SendsWhole (K.talk sink.old) (K.talk sink.new) result
        (frame_line message.now frame.now) }
    ensures cause { HasCause K.faults K.wants K.is_sure sink.old sink.new result }
{
    let body = &frame[FRAME_HEAD..];
    write_digits(begin(message, body), body, sink)
}

/// Writes the line of a frame: its message's name, and its body in hexadecimal, or a dash where it
/// is empty. The frame has the message's spelling in some version. It takes no memory.
///
/// # Errors
///
/// Those of the sink, which a front of the line has then reached that is shorter than it.
pub fn show_line<K: Sink>(message: &Message, frame: &Frame, sink: &mut K) -> Result<(), PortStop>
    requires { (version : AnyVersion) × IsTrue (fits version message.now)
        × (frame_bytes frame.now ≡ spelling version message.now) }
    ensures talk { SendsWhole (K.talk sink.old) (K.talk sink.new) result
        (frame_line message.now (frame_bytes frame.now)) }
    ensures cause { HasCause K.faults K.wants K.is_sure sink.old sink.new result }
{
    write_line(message, frame.bytes(), sink)
}

//! One frame from bytes that are at hand.

ghost use Rattle.std.specs.Prelude.{◌≡◌, ◌≤◌, ◌<◌, Err, length};
ghost use Rattle.sip_wire.specs.Spelling.{asked};
ghost use Rattle.sip_wire.specs.AtHand.{Reads};

use crate::Version;
use crate::decoding::{head_of, read_message};
use crate::frame::HEAD;
use crate::kind::Place;
use crate::message::{Message, WireFault};

/// How many bytes a frame of a version has that begins with these three: they and its body, or they
/// alone where no frame may begin so.
pub fn frame_length(place: Place, version: Version, bytes: &[u8]) -> usize
    requires { 3 ≤ length bytes.now }
    ensures { result ≡ asked version place bytes.now }
{
    match head_of(version, place, bytes) {
        Ok((_, len)) => HEAD + len,
        Err(_) => HEAD,
    }
}

/// The message of a frame of a version whose bytes are at hand, and nothing behind them.
///
/// It is [`decode`](crate::decode) without a link: the faults are tested in the same order.
/// `Closed` says that the frame is not whole yet, and comes exactly where it has more bytes than
/// these ([`frame_length`]). No memory is taken.
pub fn read(place: Place, version: Version, bytes: &[u8]) -> Result<Message, WireFault>
    requires { length bytes.now ≤ asked version place bytes.now }
    ensures answer { Reads version place bytes.now result }
    ensures closed { result ≡ Err WireFault.Closed
        → length bytes.now < asked version place bytes.now }
{
    if bytes.len() < HEAD {
        return Err(WireFault::Closed);
    }
    let (kind, len) = head_of(version, place, bytes)?;
    if bytes.len() < HEAD + len {
        return Err(WireFault::Closed);
    }
    let mut message = Message::Bye;
    match read_message(version, kind, bytes, &mut message) {
        Ok(()) => Ok(message),
        Err(fault) => Err(fault),
    }
}

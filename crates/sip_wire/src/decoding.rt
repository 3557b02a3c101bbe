//! One frame off a link.

ghost use Rattle.std.specs.Prelude.{◌≡◌, ◌≤◌, Err, ◌-◌, IsTrue, drop, length};
ghost use Rattle.sip_ports.specs.Ports.{Lasts, Rose};
ghost use Rattle.sip_wire.specs.Frames.{frame_bytes, frame_message};
ghost use Rattle.sip_wire.specs.Spelling.{ReadsBody};
ghost use Rattle.sip_wire.specs.Table.{shape};
ghost use Rattle.sip_wire.specs.Filling.{filled};
ghost use Rattle.sip_wire.specs.Decoding.{FindsHead, IsBytes, Decodes};

use crate::Version;
use crate::frame::{Frame, HEAD};
use crate::kind::{Kind, Place};
use crate::message::{Message, WireFault};
use crate::numbers::take_u16;
use crate::reading::read_body;
use sip_ports::Link;

/// The kind and the length of the body, where a frame may begin with these three bytes.
#[tactic(auto, unfolding(crate::specs::Spelling::frame_fault, crate::specs::Spelling::kind_fault, crate::specs::Spelling::asked))]
pub(crate) fn head_of(
    version: Version,
    place: Place,
    bytes: &[u8],
) -> Result<(Kind, usize), WireFault>
    requires { 3 ≤ length bytes.now }
    ensures { FindsHead version place bytes.now result }
{
    let Some(kind) = Kind::of(place, bytes[0]) else {
        return Err(WireFault::BadKind);
    };
    if !place.allows(kind) || !kind.stands_in(version) {
        return Err(WireFault::BadKind);
    }
    let (len, _) = take_u16(&bytes[1..]);
    let len = len as usize;
    if !kind.has_length(version, len) {
        return Err(WireFault::BadLength);
    }
    Ok((kind, len))
}

/// Reads the message of a frame whose body is as long as its kind has it.
pub(crate) fn read_message(
    version: Version,
    kind: Kind,
    bytes: &[u8],
    message: &mut Message,
) -> Result<(), WireFault>
    requires head { 3 ≤ length bytes.now }
    requires body { IsTrue ((shape version kind).has_length (length bytes.now - 3)) }
    ensures fits { IsBytes bytes.now }
    ensures read { ReadsBody version kind (drop 3 bytes.now) (filled message.new result) }
{
    read_body(version, kind, &bytes[HEAD..], message)
}

/// Receives exactly one frame of a version into `frame`, and reads its message, which `frame` has
/// after an `Ok` ([`Frame::message`]).
///
/// It receives three bytes, and then a body of the stated length if the place allows the kind and
/// the kind has the length. The faults of the bytes are tested in the order of [`WireFault`], the
/// count before the numbers. `Closed` comes exactly where the link ended inside the frame,
/// `PeerFault` only where the count of its faults rose, and `OutOfMemory` only where the count of
/// its wants did; at these two the frame was not received whole. Whatever the answer, `frame` shows
/// what was received, and what follows is still on the link. No memory is taken. After an `Err` the
/// message of `frame` is any.
pub fn decode_within<L: Link>(
    link: &mut L,
    place: Place,
    version: Version,
    frame: &mut Frame,
) -> Result<(), WireFault>
    ensures did { Decodes version place (L.talk link.old) (L.talk link.new) (L.faults link.old)
        (L.faults link.new) (frame_bytes frame.new) (filled (frame_message frame.new) result) }
    ensures memory { result ≡ Err WireFault.OutOfMemory
        → Rose (L.wants link.old) (L.wants link.new) }
    ensures lasts { Lasts L.faults L.wants L.is_sure link.old link.new }
{
    frame.clear();
    frame.receive(link, HEAD)?;
    let (kind, len) = head_of(version, place, frame.bytes())?;
    frame.receive(link, HEAD + len)?;
    frame.read(version, kind)
}

/// Receives exactly one frame of a version into `frame`, as [`decode_within`], and answers its
/// message, which is moved.
pub fn decode<L: Link>(
    link: &mut L,
    place: Place,
    version: Version,
    frame: &mut Frame,
) -> Result<Message, WireFault>
    ensures did { Decodes version place (L.talk link.old) (L.talk link.new) (L.faults link.old)
        (L.faults link.new) (frame_bytes frame.new) result }
    ensures memory { result ≡ Err WireFault.OutOfMemory
        → Rose (L.wants link.old) (L.wants link.new) }
    ensures lasts { Lasts L.faults L.wants L.is_sure link.old link.new }
{
    match decode_within(link, place, version, frame) {
        Ok(()) => Ok(frame.take_message()),
        Err(fault) => Err(fault),
    }
}

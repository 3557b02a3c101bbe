//! The line of an accepted moment.

ghost use Rattle.std.specs.Prelude.{◌≡◌};
ghost use Rattle.sip_ports.specs.Ports.{HasCause, SendsWhole};
ghost use Rattle.sip_moments.specs.Manner.{line};

use crate::moment::Moment;
use arrayvec::ArrayVec;
use itoa::Buffer;
use sip_ports::{PortStop, Sink, write_whole};
use sip_stream::text::{put, put_number};
use sip_vector::Side;

/// The most bytes of a line: its word has 10, and a number at most 20, with a space and a line
/// feed.
const ROOM: usize = 64;

// The line of an accepted moment.
fn line_of(moment: Moment, value: i64) -> ArrayVec<u8, ROOM>
    ensures { result.items ≡ line moment value }
{
    let mut digits = Buffer::new();
    let mut gathered = ArrayVec::new();
    put(&mut gathered, b"moment:");
    match moment.side {
        Side::First => put(&mut gathered, b"0:"),
        Side::Second => put(&mut gathered, b"1:"),
    }
    put_number(&mut gathered, moment.degree as u64);
    put(&mut gathered, b" ");
    put(&mut gathered, digits.format(value).as_bytes());
    put(&mut gathered, b"\n");
    gathered
}

/// Writes the line of an accepted moment: its word, and the number that was stated.
///
/// # Errors
///
/// Those of the sink, which a front of the line has then reached that is shorter than it.
pub fn write_moment<K: Sink>(sink: &mut K, moment: Moment, value: i64) -> Result<(), PortStop>
    ensures talk { SendsWhole (K.talk sink.old) (K.talk sink.new) result (line moment value) }
    ensures cause { HasCause K.faults K.wants K.is_sure sink.old sink.new result }
{
    write_whole(sink, line_of(moment, value).as_slice())
}

//! An update as a line of text.

ghost use Rattle.std.specs.Prelude.{◌≡◌, ◌≢◌, ◌<◌, ◌≤◌, ◌+◌, ◌^◌, ◌++◌, pos};
ghost use Rattle.arrayvec.specs.ArrayVec.{array_vec_len};
ghost use Rattle.sip_ports.specs.Ports.{HasCause, SendsWhole};
ghost use Rattle.sip_vector.specs.Limits.{most_depth};
ghost use Rattle.sip_stream.specs.Spellings.{line_bytes};

use crate::record_bytes::number_of;
use crate::text::put;
use arrayvec::ArrayVec;
use itoa::Buffer;
use sip_ports::{PortStop, Sink, write_whole};
use sip_vector::Update;

/// Room for the line of any update.
pub(crate) const LINE_ROOM: usize = 46;

/// Adds the line of an update at the end: at most 39 bytes, where its item is below 2^48. There is
/// room for it.
pub(crate) fn put_line_bytes<const ROOM: usize>(update: &Update, gathered: &mut ArrayVec<u8, ROOM>)
    requires { array_vec_len gathered.old + LINE_ROOM ≤ ROOM }
    ensures { gathered.new.items ≡ gathered.old.items ++ line_bytes update.now }
{
    let mut digits = Buffer::new();
    put(gathered, &[b'0' + number_of(update.side), b' ']);
    put(gathered, digits.format(update.item).as_bytes());
    put(gathered, b" ");
    put(gathered, digits.format(update.delta).as_bytes());
    put(gathered, b"\n");
}

/// The line of an update.
fn line_of(update: &Update) -> ArrayVec<u8, LINE_ROOM>
    ensures { result.items ≡ line_bytes update.now }
{
    let mut line = ArrayVec::new();
    put_line_bytes(update, &mut line);
    line
}

/// Writes an update as one line of text, `SIDE ITEM DELTA` and a line feed, at once and without
/// memory.
///
/// # Errors
///
/// Those of the sink, which a front of the line has then reached that is shorter than it.
pub fn put_line<K: Sink>(update: &Update, sink: &mut K) -> Result<(), PortStop>
    requires item { update.now.item < 2 ^ most_depth }
    requires delta { update.now.delta ≢ pos 0 }
    ensures talk { SendsWhole (K.talk sink.old) (K.talk sink.new) result (line_bytes update.now) }
    ensures cause { HasCause K.faults K.wants K.is_sure sink.old sink.new result }
{
    write_whole(sink, line_of(update).as_slice())
}

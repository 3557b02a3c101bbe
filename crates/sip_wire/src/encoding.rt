//! From a message to its frame.

ghost use Rattle.std.specs.Prelude.{◌≡◌, ◌≤◌, [], IsTrue, length};
ghost use Rattle.sip_ports.specs.Ports.{HasCause, SendsWhole};
ghost use Rattle.sip_wire.specs.Table.{most_rows};
ghost use Rattle.sip_wire.specs.declared.message.Message.TheVariants as messages;
ghost use Rattle.sip_wire.specs.Spelling.{fits, spelling};

use crate::Version;
use crate::frame::REVEAL_FRAME;
use crate::kind::Kind;
use crate::message::Message;
use crate::numbers::{AskBytes, Bytes, put_u16, put_u64};
use crate::writing::{body_len, put_body, put_query, put_updates_body, query_len, updates_len};
use arrayvec::ArrayVec;
use sip_ports::{PortStop, Sink, write_whole};
use sip_vector::{Query, Update};

/// Appends the frame of a message to no bytes, in a version.
pub fn put_frame(version: Version, message: &Message, out: &mut Bytes)
    requires fits { IsTrue (fits version message.now) }
    requires empty { out.old.items ≡ [] }
    ensures { out.new.items ≡ spelling version message.now }
{
    out.push(message.kind().byte());
    put_u16(out, body_len(version, message) as u16);
    put_body(version, message, out);
}

/// Appends the frame of updates to no bytes, in a version.
fn put_updates(version: Version, updates: &[Update], out: &mut Bytes)
    requires fits { IsTrue (fits version (messages.Updates (record { items = updates.now }))) }
    requires few { length updates.now ≤ most_rows }
    requires empty { out.old.items ≡ [] }
    ensures { out.new.items
        ≡ spelling version (messages.Updates (record { items = updates.now })) }
{
    out.push(Kind::Updates.byte());
    put_u16(out, updates_len(version, updates) as u16);
    put_updates_body(version, updates, out);
}

/// Writes the frame of updates that lie anywhere, as [`encode`] writes that of a message of them,
/// which would be made for it.
pub fn encode_updates<K: Sink>(
    updates: &[Update],
    version: Version,
    sink: &mut K,
) -> Result<(), PortStop>
    requires fits { IsTrue (fits version (messages.Updates (record { items = updates.now }))) }
    requires few { length updates.now ≤ most_rows }
    ensures talk { SendsWhole (K.talk sink.old) (K.talk sink.new) result
        (spelling version (messages.Updates (record { items = updates.now }))) }
    ensures cause { HasCause K.faults K.wants K.is_sure sink.old sink.new result }
{
    let mut out = ArrayVec::new();
    put_updates(version, updates, &mut out);
    write_whole(sink, &out)
}

/// Appends the frame of a query to no bytes, in a version.
pub fn put_query_frame(version: Version, query: Query, out: &mut AskBytes)
    requires fits { IsTrue (fits version (messages.Query query)) }
    requires empty { out.old.items ≡ [] }
    ensures { out.new.items ≡ spelling version (messages.Query query) }
{
    out.push(Kind::Query.byte());
    put_u16(out, query_len(version, query) as u16);
    put_query(version, query, out);
}

/// Writes the frame of a query, as [`encode`] writes that of a message of it, which is as large as
/// any.
pub fn encode_query<K: Sink>(query: Query, version: Version, sink: &mut K) -> Result<(), PortStop>
    requires { IsTrue (fits version (messages.Query query)) }
    ensures talk { SendsWhole (K.talk sink.old) (K.talk sink.new) result
        (spelling version (messages.Query query)) }
    ensures cause { HasCause K.faults K.wants K.is_sure sink.old sink.new result }
{
    let mut out: AskBytes = ArrayVec::new();
    put_query_frame(version, query, &mut out);
    write_whole(sink, &out)
}

/// Writes the frame of a challenge, as [`encode`] writes that of a message of it, which is as large
/// as any.
pub fn encode_reveal<K: Sink>(
    challenge: u64,
    version: Version,
    sink: &mut K,
) -> Result<(), PortStop>
    requires { IsTrue (fits version (messages.Reveal challenge)) }
    ensures talk { SendsWhole (K.talk sink.old) (K.talk sink.new) result
        (spelling version (messages.Reveal challenge)) }
    ensures cause { HasCause K.faults K.wants K.is_sure sink.old sink.new result }
{
    let mut out: ArrayVec<u8, REVEAL_FRAME> = ArrayVec::new();
    out.push(Kind::Reveal.byte());
    put_u16(&mut out, 8);
    put_u64(&mut out, challenge);
    write_whole(sink, &out)
}

/// Writes the one spelling of the message in a version, the whole frame at once. After an `Err` a
/// part of it was written, and not all. It takes no memory.
///
/// It has a buffer for the longest frame on the stack. That is not to be there beside what its
/// caller calls next, so it stays a call of its own.
#[inline(never)]
pub fn encode<K: Sink>(message: &Message, version: Version, sink: &mut K) -> Result<(), PortStop>
    requires { IsTrue (fits version message.now) }
    ensures talk { SendsWhole (K.talk sink.old) (K.talk sink.new) result
        (spelling version message.now) }
    ensures cause { HasCause K.faults K.wants K.is_sure sink.old sink.new result }
{
    let mut out = ArrayVec::new();
    put_frame(version, message, &mut out);
    write_whole(sink, &out)
}

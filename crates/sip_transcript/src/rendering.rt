//! What is written of a transcript: its listing, or the transcript in version 2.

ghost use Rattle.std.specs.Prelude.{◌≡◌, ◌+◌, ◌≤◌, ◌++◌, IsTrue, List, ℕ, length};
ghost use Rattle.std.specs.List.{flat_map};
ghost use Rattle.arrayvec.specs.ArrayVec.{array_vec_len};
ghost use Rattle.sip_ports.specs.Ports.{HasCause, SendsWhole};
ghost use Rattle.sip_vector.specs.Answers.{Fits};
ghost use Rattle.sip_wire.specs.declared.kind.Place.TheVariants.{ToVerifier};
ghost use Rattle.sip_wire.specs.declared.message.Message.TheVariants as messages;
ghost use Rattle.sip_wire.specs.declared.version.Version.{Version as AnyVersion};
ghost use Rattle.sip_wire.specs.declared.version.Version.TheVariants.{Two};
ghost use Rattle.sip_wire.specs.Decoding.{Took};
ghost use Rattle.sip_wire.specs.Spelling.{fits, in_bytes};
ghost use Rattle.sip_wire.specs.Table.{most_queries};
ghost use Rattle.sip_wire.specs.Transcript.{ask_bytes};
ghost use Rattle.sip_transcript.specs.Heads.{Ask, Says};
ghost use Rattle.sip_transcript.specs.Renderings.{ask_text, front_text, head_text, reply_text};

use crate::Head;
use crate::listing::{depth_line, query_line, write_line};
use arrayvec::ArrayVec;
use sip_ports::{PortStop, Sink, write_whole};
use sip_stream::text::put;
use sip_vector::{CAP, Depth, Query};
use sip_wire::{Message, Version, encode, encode_query, put_head};

/// How many bytes the challenges of one query have at most.
const BLOCK: usize = 8 * CAP;

/// What is written of a transcript.
#[derive(Clone, Copy)]
pub(crate) enum Rendering {
    /// Its listing.
    Listing,
    /// The transcript in version 2.
    Wide,
}

/// Adds a challenge, in eight bytes.
fn put_challenge(bytes: &mut ArrayVec<u8, BLOCK>, challenge: u64)
    requires { array_vec_len bytes.old + 8 ≤ BLOCK }
    ensures items { bytes.new.items ≡ bytes.old.items ++ in_bytes 8 challenge }
    ensures len { array_vec_len bytes.new ≡ array_vec_len bytes.old + 8 }
{
    put(bytes, &challenge.to_be_bytes());
}

/// The challenges of a query, in eight bytes each.
fn block_bytes(block: &[u64]) -> ArrayVec<u8, BLOCK>
    requires { length block.now ≤ CAP }
    ensures { result.items ≡ flat_map (in_bytes 8) block.now }
{
    let mut bytes = ArrayVec::new();
    for challenge in block {
        put_challenge(&mut bytes, *challenge);
    }
    bytes
}

/// Writes a query in version 2, and its challenges.
fn write_wide_ask<K: Sink>(query: &Query, block: &[u64], sink: &mut K) -> Result<(), PortStop>
    requires fits { IsTrue (fits Two (messages.Query query.now)) }
    requires few { length block.now ≤ CAP }
    ensures talk { SendsWhole (K.talk sink.old) (K.talk sink.new) result
        (ask_bytes Two query.now block.now) }
    ensures cause { HasCause K.faults K.wants K.is_sure sink.old sink.new result }
{
    encode_query(*query, Version::Two, sink)?;
    write_whole(sink, block_bytes(block).as_slice())
}

impl Rendering {
    /// Writes what is written of a depth and of how many queries there are.
    fn write_front<K: Sink>(self, depth: Depth, count: u8, sink: &mut K) -> Result<(), PortStop>
        requires some { 1 ≤ count }
        requires most { count ≤ most_queries }
        ensures talk { SendsWhole (K.talk sink.old) (K.talk sink.new) result
            (front_text self depth count) }
        ensures cause { HasCause K.faults K.wants K.is_sure sink.old sink.new result }
    {
        match self {
            Rendering::Listing => write_whole(sink, depth_line(depth).as_slice()),
            Rendering::Wide => put_head(Version::Two, depth, count, sink),
        }
    }

    /// Writes what is written of the query with this number, and of its challenges.
    fn write_ask<K: Sink>(
        self,
        number: u8,
        query: &Query,
        block: &[u64],
        sink: &mut K,
    ) -> Result<(), PortStop>
        requires fits { IsTrue (fits Two (messages.Query query.now)) }
        requires few { length block.now ≤ CAP }
        ensures talk { SendsWhole (K.talk sink.old) (K.talk sink.new) result
            (ask_text self number (query.now, block.now)) }
        ensures cause { HasCause K.faults K.wants K.is_sure sink.old sink.new result }
    {
        match self {
            Rendering::Listing => write_whole(sink, query_line(number, query, block).as_slice()),
            Rendering::Wide => write_wide_ask(query, block, sink),
        }
    }

    /// Writes what is written of a head.
    pub(crate) fn write_head<K: Sink>(self, head: &Head, sink: &mut K) -> Result<(), PortStop>
        requires { (asks : List Ask) × Says head.now asks }
        ensures talk { (asks : List Ask) → Says head.now asks
            → SendsWhole (K.talk sink.old) (K.talk sink.new) result
            (head_text self head.now.depth asks) }
        ensures cause { HasCause K.faults K.wants K.is_sure sink.old sink.new result }
    {
        self.write_front(head.depth, head.queries.len() as u8, sink)?;
        let mut number = 0;
        for query in head.queries.as_slice() {
            let block = head.block(number as usize);
            number += 1;
            self.write_ask(number, query, block, sink)?;
        }
        Ok(())
    }

    /// Writes what is written of a message to a verifier, whose frame is at hand.
    pub(crate) fn write_reply<K: Sink>(
        self,
        message: &Message,
        frame: &[u8],
        sink: &mut K,
    ) -> Result<(), PortStop>
        requires { (version : AnyVersion) × Took version ToVerifier frame.now message.now }
        ensures talk { (version : AnyVersion) → Took version ToVerifier frame.now message.now
            → SendsWhole (K.talk sink.old) (K.talk sink.new) result
            (reply_text self version message.now) }
        ensures cause { HasCause K.faults K.wants K.is_sure sink.old sink.new result }
    {
        match self {
            Rendering::Listing => write_line(message, frame, sink),
            Rendering::Wide => encode(message, Version::Two, sink),
        }
    }
}

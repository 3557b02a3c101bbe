//! Both ends of one query in memory: a first program over the crates of this repository.
#![tactic(auto)]

use arrayvec::ArrayVec;
use sip_helper::HelperCore;
use sip_ports::{MemoryLink, MemorySink, MemorySource, NullSink};
use sip_stream::Form;
use sip_vector::{Depth, Negatives, Query, Side, Update};
use sip_verifier::{Task, check_stream};
use sip_wire::{Message, Version};
use std::{io, str};

/// A stream as lines of text. Behind it side 0 is (3, 5).
const LINES: &[u8] = b"0 0 3\n0 1 5\n";

/// An update of side 0, which is what a line says.
fn update(item: u64, delta: i64) -> Update {
    let side = Side::First;
    Update { side, item, delta }
}

/// Tells a helper a message, and answers whether it may come.
fn tell(helper: &mut HelperCore, message: &Message) -> bool {
    !helper.spent() && message.fits(Version::Two) && helper.hear(message).is_ok()
}

fn main(rt: HostRuntime) -> io::Result<()> {
    let alloc = rt.alloc();
    let (version, depth, side) = (1, 1, Side::First);
    let query = Query::F2 { side };

    // The helper hears the stream and the query. At depth 1 it owes one reply, and no challenge
    // leaves the verifier.
    let mut updates = ArrayVec::new();
    updates.push(update(0, 3));
    updates.push(update(1, 5));
    let talk = [
        Message::Open { version, depth },
        Message::Updates(updates),
        Message::EndStream,
        Message::Query(query),
    ];
    let mut helper = HelperCore::new(alloc);
    let mut reply = MemorySink::new(alloc, 64, Vec::new(alloc));
    let is_heard = talk.iter().all(|message| tell(&mut helper, message));
    if is_heard && helper.owes() && !helper.spent() {
        let _ = helper.answer(&mut reply);
    }

    // The verifier draws its challenge, reads the same stream, and judges the reply.
    let mut queries = ArrayVec::new();
    queries.push(query);
    let (depth, form) = (Depth::default(), Form::Text);
    let task = Task {
        depth,
        form,
        queries,
    };
    let mut stream = MemorySource::new(LINES.to_vec(alloc)?, 64, Vec::new(alloc));
    let mut seed = MemorySource::new(vec![in alloc; 7; 32]?, 64, Vec::new(alloc));
    let mut link = MemoryLink::new(alloc, reply.bytes().to_vec(alloc)?, 64, Vec::new(alloc));
    let mut report = MemorySink::new(alloc, 64, Vec::new(alloc));
    let keep = &mut NullSink::new();
    let negatives = &mut Negatives::default();
    let status = check_stream(
        alloc,
        &task,
        &mut stream,
        &mut seed,
        &mut link,
        &mut report,
        keep,
        negatives,
    );
    let line = str::from_utf8(report.bytes()).unwrap_or_default();
    print!(rt; "{status:?}: {line}")
}

//! What was said on a link, part by part.

use sip_field::OutOfMemory;
use sip_ports::{MemoryLink, MemorySink, TalkEvent};
use std::alloc::Global;

/// These bytes, one part after another, as events: those that were sent, and those received. It
/// takes memory for each.
pub fn events(alloc: Global, parts: &[(bool, &[u8])]) -> Result<Vec<TalkEvent>, OutOfMemory> {
    let mut events = Vec::new(alloc);
    for (sent, bytes) in parts {
        for byte in *bytes {
            let event = if *sent {
                TalkEvent::Out(*byte)
            } else {
                TalkEvent::In(*byte)
            };
            events.push(event)?;
        }
    }
    Ok(events)
}

/// The bytes that were sent. It takes memory for each.
pub fn sent_in(alloc: Global, talk: &[TalkEvent]) -> Result<Vec<u8>, OutOfMemory> {
    let mut sent = Vec::new(alloc);
    for event in talk {
        if let TalkEvent::Out(byte) = event {
            sent.push(*byte)?;
        }
    }
    Ok(sent)
}

/// A link that brings these bytes, seven in a call, and a keeper that takes five in a call.
pub fn ports_of(alloc: Global, incoming: &[u8]) -> Result<(MemoryLink, MemorySink), OutOfMemory> {
    let link = MemoryLink::new(alloc, incoming.to_vec(alloc)?, 7, Vec::new(alloc));
    Ok((link, MemorySink::new(alloc, 5, Vec::new(alloc))))
}

/// Whether these parts are what happened on a link, and those what was kept. It takes memory for
/// each byte.
pub fn happened(
    alloc: Global,
    (link, talk): (&MemoryLink, &[(bool, &[u8])]),
    (keep, kept): (&MemorySink, &[&[u8]]),
) -> Result<[bool; 2], OutOfMemory> {
    let (talk, kept) = (events(alloc, talk)?, kept.concat(alloc)?);
    Ok([
        link.talk() == talk.as_slice(),
        keep.bytes() == kept.as_slice(),
    ])
}

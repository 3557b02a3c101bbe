//! What a test of a session or a duel expects of a row.

use sip_ports::{MemoryLink, TalkEvent};
use std::process::Abort;

// Ends the test where a fact does not hold, with its number and the row's name. A list of facts
// costs the prover less than as many assertions.
pub(crate) fn expect(rt: &impl Abort, row: &str, facts: &[bool]) {
    for (number, holds) in facts.iter().enumerate() {
        assert!(rt; *holds, "{row}: fact {number}");
    }
}

// What was sent is the bytes, and nothing was received.
pub(crate) fn was_sent(link: &MemoryLink, bytes: &[u8]) -> bool {
    link.talk().len() == bytes.len()
        && link
            .talk()
            .iter()
            .zip(bytes)
            .all(|(event, byte)| *event == TalkEvent::Out(*byte))
}

// A question and a helper that pass each other their bytes in pieces of many sizes.
use crate::asking::begun;
use crate::facts::expect;
use sip_check_tests::events::sent_in;
use sip_check_tests::frames::STREAM;
use sip_check_tests::sizes::{Sizes, piece_of};
use sip_helper::HelperCore;
use sip_ports::{MemoryLink, MemorySink};
use sip_replies::Said;
use sip_steps::Serving;
use sip_vector::Entry;
use std::alloc::Global;
use std::test::Fail;

// Whether the question has its answer behind so many turns of both, with pieces by this seed.
fn is_answered(alloc: Global, seed: u64) -> Result<[bool; 2], Fail> {
    let mut sizes = Sizes::Any(seed);
    let mut serving = Serving::begin(alloc, HelperCore::new(alloc))?;
    let mut replies = MemorySink::new(alloc, 100, Vec::new(alloc));
    serving.feed(&STREAM, &mut replies);
    let mut asking = begun(alloc)?;
    let mut link = MemoryLink::new(alloc, Vec::new(alloc), 100, Vec::new(alloc));
    let mut passed = 0usize;
    let mut heard = 0usize;
    for _step in 0..400 {
        asking.due(&mut link)?;
        let said = sent_in(alloc, link.talk())?;
        let count = serving.feed(piece_of(&said, passed, sizes.next()), &mut replies);
        passed = passed.saturating_add(count);
        let count = asking.feed(piece_of(replies.bytes(), heard, sizes.next()));
        heard = heard.saturating_add(count);
    }
    Ok([
        asking.verdict() == Some(Ok(Said::Pairs(1))),
        asking.pairs() == [Entry { index: 2, value: 5 }].as_slice(),
    ])
}

#[test]
fn both_ends_pass_their_bytes_in_any_pieces(rt: HostRuntime) -> Result<(), Fail> {
    for seed in 0..100 {
        expect(&rt, "seed", &is_answered(rt.alloc(), seed)?);
    }
    Ok(())
}

// A helper that is driven by hand.
ghost use Rattle.sip_steps.specs.Served.{HasBegun};

use sip_helper::{HelpStatus, HelperCore, Helps};
use sip_ports::MemorySink;
use sip_steps::Serving;
use std::alloc::Global;
use std::test::Fail;

// What came of a helper's talk: how it ended, how many bytes were taken, and what was sent.
#[derive(Drop)]
pub(crate) struct Talked {
    pub(crate) status: Option<HelpStatus>,
    pub(crate) taken: usize,
    pub(crate) sent: Vec<u8>,
}

// A helper of queries to which the other end says these pieces, and then closes or not. The calls
// of the sink of these numbers fail.
pub(crate) fn served(
    alloc: Global,
    pieces: &[&[u8]],
    closes: bool,
    fails: &[u64],
) -> Result<Talked, Fail> {
    let mut serving = Serving::begin(alloc, HelperCore::new(alloc))?;
    let mut sink = MemorySink::new(alloc, 5, fails.to_vec(alloc)?);
    let mut taken = 0usize;
    for piece in pieces {
        taken = taken.saturating_add(serving.feed(piece, &mut sink));
    }
    if closes {
        serving.close();
    }
    Ok(Talked {
        status: serving.status(),
        taken,
        sent: sink.bytes().to_vec(alloc)?,
    })
}

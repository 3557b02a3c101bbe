//! A run of `play` over ports in memory.

use crate::frames::ZERO_SEED;
use crate::row::words_of;
use sip_cli::play;
use sip_ports::{MemorySink, MemorySource};
use sip_vector::Negatives;
use sip_verifier::Status;
use sip_words::read_words;
use std::alloc::Global;
use std::test::Fail;

/// Side 0 is (3, 0, 5, 1) and side 1 is (2, 7, 1, 0).
pub const BOTH_SIDES: &[u8] = b"0 0 3\n0 2 5\n0 3 1\n1 0 2\n1 1 7\n1 2 1\n";

/// What a run showed: how it ended, if its words are those of `play`, its lines, what it kept, and
/// which sides had credits.
#[derive(Drop)]
pub struct Played {
    pub ended: Option<Status>,
    pub report: MemorySink,
    pub keep: MemorySink,
    pub negatives: Negatives,
}

/// Runs these words over both sides.
pub fn run_play(alloc: Global, text: &str) -> Result<Played, Fail> {
    run_play_over(alloc, BOTH_SIDES, text)
}

/// Runs these words over the lines of a stream.
pub fn run_play_over(alloc: Global, stream: &[u8], text: &str) -> Result<Played, Fail> {
    let words = words_of(alloc, text)?;
    let mut first = MemorySource::new(stream.to_vec(alloc)?, 7, Vec::new(alloc));
    let mut second = MemorySource::new(ZERO_SEED.to_vec(alloc)?, 5, Vec::new(alloc));
    let mut report = MemorySink::new(alloc, 10_000, Vec::new(alloc));
    let mut keep = MemorySink::new(alloc, 10_000, Vec::new(alloc));
    let mut negatives = Negatives::default();
    let ended = match read_words(&words) {
        Ok(command) => play(
            alloc,
            &command,
            &mut first,
            &mut second,
            &mut report,
            &mut keep,
            &mut negatives,
        ),
        Err(_) => None,
    };
    Ok(Played {
        ended,
        report,
        keep,
        negatives,
    })
}

//! Runs by both ends, in memory.

use sip_check_tests::sizes::Sizes;
use sip_run_tests::whole_run::is_answered;
use std::test::Fail;

// The seed of a run's challenges.
fn seed_of(number: u64) -> [u8; 32] {
    let mut seed = [0; 32];
    seed[..8].copy_from_slice(&number.to_be_bytes());
    seed
}

// How many there are to be: a decimal number.
fn count_of(word: Option<&str>) -> u64 {
    match word {
        Some(word) => word.parse::<u64>().unwrap_or(0),
        None => 0,
    }
}

/// Does as many runs as a word says, in pieces by this number and those behind it. The exit code.
pub(crate) fn runs(rt: &HostRuntime, count: Option<&str>, first: u64) -> Result<u8, Fail> {
    for more in 0..count_of(count) {
        let number = first.wrapping_add(more);
        let facts = is_answered(rt.alloc(), &seed_of(number), Sizes::Any(number))?;
        if facts != [true, true] {
            println!(rt; "run {number} has not all its answers")?;
            return Ok(1);
        }
    }
    Ok(0)
}

//! The stream that the running numbers are fed with, block by block.
ghost use Rattle.std.specs.Prelude.{◌≡◌, ◌^◌, ◌<◌, ◌≤◌, nat_abs, length, All};

use crate::line::{Line, Part};
use crate::stream::Generator;
use sip_vector::{Depth, Side, Update};
use std::time::Duration;

/// How many updates a block has: those of a full frame.
pub(crate) const BLOCK: usize = 512;
/// How many blocks a number gets that is fed alone.
pub(crate) const BLOCKS: u64 = 1000;

/// An update that changes nothing.
const NOTHING: Update = Update {
    side: Side::First,
    item: 0,
    delta: 0,
};

/// The next block of the stream.
pub(crate) fn next_block(stream: &mut Generator, depth: Depth) -> [Update; BLOCK]
    ensures long { length result ≡ 512 }
    ensures items { All (λ u. u.item < 2 ^ depth) result }
    ensures deltas { All (λ u. nat_abs u.delta ≤ 8) result }
{
    let mut block = [NOTHING; BLOCK];
    for at in 0..BLOCK {
        block[at] = stream.next_update(depth);
    }
    block
}

/// The blocks alone, which are no number's: what they cost in the parts below.
pub(crate) fn updates(depth: Depth) -> Line {
    let mut stream = Generator::of_stream();
    let mut checksum = 0u64;
    for _ in 0..BLOCKS {
        let block = next_block(&mut stream, depth);
        for update in &block {
            checksum = checksum.wrapping_add(update.item);
        }
    }
    Line {
        part: Part::Updates,
        depth,
        count: BLOCK as u64,
        time: Duration::ZERO,
        checksum,
    }
}

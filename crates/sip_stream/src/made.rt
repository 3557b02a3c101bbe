//! A source of a stream that is made from a number.

ghost use Rattle.std.specs.Prelude.{◌≡◌, ◌≤◌, ◌<◌, ◌+◌, ◌^◌, ◌++◌, [], length, nat_le, take};
ghost use Rattle.sip_stream.specs.Layouts.{layout_of, made_form, of_bytes};

use crate::generator::{next_state, update_at};
use crate::record_bytes::{NARROW, WIDE, put_at, size_of};
use sip_ports::{PortStop, Source};
use sip_vector::Depth;

/// How many bytes are made at once.
const BLOCK: usize = 4096;

/// A source of the records that a generator makes from a number: about a quarter of them are of the
/// items 0 and 1, the others of items from everywhere. They have the form `Form::made` of the
/// depth. It tells the bytes to come, never fails and takes no memory. A read fills the buffer as
/// far as there are bytes. After a call it holds records: they are made by the block.
#[derive(Drop)]
pub struct MadeSource {
    depth: Depth,
    // the state of the last record that was made, and how many records come after it
    state: u64,
    more: u64,
    // the records that were made last, how many bytes they have, and how many of these were read
    block: [u8; BLOCK],
    end: usize,
    at: usize,
    ghost within: { (at ≤ end) × (end ≤ length block) × (length block ≡ 4096) },
}

impl MadeSource {
    ghost use Rattle.sip_stream.specs.Made.{made_bytes, most_made};
    ghost use Rattle.sip_stream.specs.MadeSources.{made_left};

    /// The most records of a made stream. Their deltas are at most 8, so no side is too heavy.
    pub const MOST: u64 = 10_000_000;

    /// Whether a made stream may have so many records.
    pub fn allows(count: u64) -> bool
        ensures { result ≡ nat_le count most_made }
    {
        count <= Self::MOST
    }

    /// The first records, so many, that the generator makes from the number, with items below
    /// 2^depth.
    pub fn new(number: u64, count: u64, depth: Depth) -> MadeSource
        requires { count ≤ most_made }
        ensures { made_left result ≡ made_bytes number count depth }
    {
        MadeSource {
            depth,
            state: number,
            more: count,
            block: [0; BLOCK],
            end: 0,
            at: 0,
        }
    }

    // Makes the next records, as many as there is room for, whose item has so many bytes, over
    // those that were made before and were read.
    fn make<const WIDTH: usize>(&mut self)
        requires some { 1 ≤ WIDTH }
        requires most { WIDTH ≤ 8 }
        requires form { layout_of (made_form self.old.depth) ≡ of_bytes WIDTH }
        requires room { 2 ^ self.old.depth ≤ 256 ^ WIDTH }
        requires read { self.old.end ≤ self.old.at }
        ensures same { made_left self.new ≡ made_left self.old }
        ensures under_way { self.new.at ≡ self.new.end → made_left self.new ≡ [] }
    {
        let size = size_of(WIDTH);
        let depth = self.depth;
        let mut state = self.state;
        let mut more = self.more;
        let mut end = 0;
        while more > 0 && BLOCK - end >= size {
            state = next_state(state);
            more -= 1;
            put_at::<WIDTH>(&update_at(depth, state), &mut self.block, end);
            end += size;
        }
        self.state = state;
        self.more = more;
        self.end = end;
        self.at = 0;
    }

    // Makes the next records where those that were made were read.
    #[inline(never)]
    fn go_on(&mut self)
        ensures same { made_left self.new ≡ made_left self.old }
        ensures under_way { self.new.at ≡ self.new.end → made_left self.new ≡ [] }
    {
        if self.at < self.end {
            return;
        }
        if self.depth.get() <= Depth::MOST_NARROW {
            self.make::<NARROW>();
        } else {
            self.make::<WIDE>();
        }
    }

    // Moves bytes of the records that were made to the buffer, behind those that it has.
    fn fill(&mut self, buf: &mut [u8], filled: usize) -> usize
        requires { filled ≤ length buf.old }
        ensures bound { filled + result ≤ length buf.old }
        ensures bytes { take filled buf.old ++ made_left self.old
            ≡ take (filled + result) buf.new ++ made_left self.new }
        ensures end { result ≡ 0 → filled < length buf.old → made_left self.old ≡ [] }
    {
        self.go_on();
        let ahead = self.held();
        let count = ahead.len().min(buf.len() - filled);
        buf[filled..filled + count].copy_from_slice(&ahead[..count]);
        self.at += count;
        count
    }
}

impl Source for MadeSource {
    ghost use Rattle.std.specs.Prelude.{◌≡◌, ◌≤◌, ◌++◌, min, length, take, Some, refl};
    ghost use Rattle.std.specs.Io.{ReadsAtMost};
    ghost use Rattle.std.specs.Io.KnownBytes.{ReadConsumes};
    ghost use Rattle.std.proofs.Common.{rules};
    ghost use Rattle.sip_stream.specs.MadeSources.{made_ahead, made_left};

    ghost left = { λ source. Some (made_left source) };

    ghost ahead = { made_ahead };

    ghost faults = { λ _. 0 };

    ghost wants = { λ _. 0 };

    ghost is_sure = { λ _. Unit {0} };

    ghost faults_fit = { λ _. Prim.search rules };

    ghost wants_fit = { λ _. Prim.search rules };

    ghost sure_counts = { λ _ _. refl };

    fn read(&mut self, buf: &mut [u8]) -> Result<usize, PortStop>
        ensures bound { ReadsAtMost result buf.new }
        ensures bytes { ReadConsumes (Some (made_left self.old))
            (Some (made_left self.new)) result buf.new }
        ensures count { result ≡ Ok (min (length buf.old) (length (made_left self.old))) }
    {
        let mut filled = 0;
        while filled < buf.len() {
            let count = self.fill(buf, filled);
            if count == 0 {
                break;
            }
            filled += count;
        }
        self.go_on();
        Ok(filled)
    }

    fn held(&self) -> &[u8]
        ensures bytes { result.now ≡ made_ahead self.now }
    {
        &self.block[self.at..self.end]
    }

    fn skip(&mut self, count: usize)
        requires held { count ≤ length (made_ahead self.old) }
        ensures bytes { made_left self.old
            ≡ take count (made_ahead self.old) ++ made_left self.new }
    {
        prove!(count <= self.end - self.at);
        self.at += count;
        self.go_on();
    }
}

//! Writes the file of a sketch.

ghost use Rattle.std.specs.Prelude.{◌≡◌, ◌≤◌, ◌+◌, ◌*◌, ◌++◌, ℕ, [], All, IfOk, IsOk, OnErr};
ghost use Rattle.std.specs.Prelude.{flat_map, length, vec_capacity, vec_len};
ghost use Rattle.sip_vector.specs.declared.tally.Tally.{Tally as AnyTally};
ghost use Rattle.sip_sketch.specs.Fields.{Fields, digest};
ghost use Rattle.sip_sketch.specs.Sketches.{bits_of, elements, most_seats, parts_fields};
ghost use Rattle.sip_sketch.specs.Sketches.{parts_numbers, seat_fields, seat_numbers, second_of};
ghost use Rattle.sip_sketch.specs.Sketches.{seats_fields, size_of, sketch_file, spelled_file};
ghost use Rattle.sip_sketch.specs.Sketches.{tally_fields, tally_numbers};
ghost use Rattle.sip_sketch.specs.inside.Heads.{head_numbers};
ghost use Rattle.sip_sketch.specs.inside.Spelling.{Puts};

use crate::reading::{DIGEST, Head, MAGIC};
use crate::{Parts, Sketch, SketchSeat};
use sha2::{Digest, Sha256};
use sip_field::{Field, M61, Seat};
use sip_vector::{CAP, Depth, Negatives, Tally};
use std::alloc::AllocError;

/// How many bytes the head takes.
const HEAD: usize = 52;

/// How many bytes a seat takes beside its challenges.
const SEAT: usize = 18;

// Puts bytes behind those that are there, for which there is room.
fn put(out: &mut Vec<u8>, bytes: &[u8])
    requires { vec_len out.old + length bytes.now ≤ vec_capacity out.old }
    ensures items { out.new.items ≡ out.old.items ++ bytes.now }
    ensures len { vec_len out.new ≡ vec_len out.old + length bytes.now }
    ensures capacity { vec_capacity out.old ≤ vec_capacity out.new }
{
    let Ok(()) = out.extend_from_slice(bytes) else {
        unreachable!()
    };
}

// Puts which parts are in.
fn put_parts(out: &mut Vec<u8>, parts: &Parts)
    requires { vec_len out.old + 12 ≤ vec_capacity out.old }
    ensures puts { (behind : Fields) → Puts out.old.items out.new.items
        (parts_fields behind) behind (parts_numbers parts.now) }
    ensures len { vec_len out.new ≡ vec_len out.old + 12 }
    ensures capacity { vec_capacity out.old ≤ vec_capacity out.new }
{
    put(out, &parts.count.to_be_bytes());
    put(out, &parts.first.to_be_bytes());
    put(out, &parts.last.to_be_bytes());
}

// Which sides had a delta below 0: 1 for side 0, and 2 for side 1.
fn bits(negatives: Negatives) -> u8
    ensures { result ≡ bits_of negatives }
{
    u8::from(negatives.first) + 2 * u8::from(negatives.second)
}

// Puts what is told of the stream.
fn put_tally(out: &mut Vec<u8>, tally: &Tally)
    requires { vec_len out.old + 33 ≤ vec_capacity out.old }
    ensures puts { (behind : ℕ → ℕ → ℕ → Fields)
        → Puts out.old.items out.new.items (tally_fields behind)
        (behind tally.now.first tally.now.second (bits_of tally.now.negatives))
        (tally_numbers tally.now) }
    ensures len { vec_len out.new ≡ vec_len out.old + 33 }
    ensures capacity { vec_capacity out.old ≤ vec_capacity out.new }
{
    put(out, &tally.first.to_be_bytes());
    put(out, &tally.second.to_be_bytes());
    put(out, &tally.count.to_be_bytes());
    put(out, &bits(tally.negatives).to_be_bytes());
    put(out, &tally.fingerprint.get().to_be_bytes());
}

// Puts the head.
fn put_head(out: &mut Vec<u8>, head: &Head)
    requires few { head.now.count ≤ most_seats }
    requires room { vec_len out.old + HEAD ≤ vec_capacity out.old }
    ensures puts { Puts out.old.items out.new.items sketch_file
        (seats_fields head.now.depth (second_of head.now.tally) head.now.count)
        (head_numbers head.now) }
    ensures len { vec_len out.new ≡ vec_len out.old + HEAD }
    ensures capacity { vec_capacity out.old ≤ vec_capacity out.new }
{
    put(out, &MAGIC);
    put(out, &head.depth.get().to_be_bytes());
    put_parts(out, &head.parts);
    put_tally(out, &head.tally);
    put(out, &(head.count as u8).to_be_bytes());
}

// Puts the challenges of a seat.
fn put_block(out: &mut Vec<u8>, block: &Seat<M61, CAP>)
    requires { vec_len out.old + 8 * length block.now ≤ vec_capacity out.old }
    ensures puts { (behind : Fields) → Puts out.old.items out.new.items
        (elements (length block.now) behind) behind block.now }
    ensures len { vec_len out.new ≡ vec_len out.old + 8 * length block.now }
    ensures capacity { vec_capacity out.old ≤ vec_capacity out.new }
{
    for level in 0..block.depth() {
        put(out, &block.at(level + 1).number().to_be_bytes());
    }
}

// Puts a seat.
fn put_seat(out: &mut Vec<u8>, seat: &SketchSeat)
    requires { vec_len out.old + (SEAT + 8 * length seat.now.block) ≤ vec_capacity out.old }
    ensures puts { (tally : AnyTally) (behind : Fields) → Puts out.old.items out.new.items
        (seat_fields (length seat.now.block) (second_of tally) behind) behind
        (seat_numbers seat.now) }
    ensures len { vec_len out.new ≡ vec_len out.old + (SEAT + 8 * length seat.now.block) }
    ensures capacity { vec_capacity out.old ≤ vec_capacity out.new }
{
    put(out, &seat.kind.code().to_be_bytes());
    put(out, &u8::from(seat.is_used).to_be_bytes());
    put_block(out, seat.block());
    put(out, &seat.first().to_be_bytes());
    put(out, &seat.second().to_be_bytes());
}

// Puts seats, which are the last.
fn put_seats(out: &mut Vec<u8>, depth: Depth, seats: &[SketchSeat])
    requires blocks { All (λ seat. length seat.block ≡ depth) seats.now }
    requires room { vec_len out.old + length seats.now * (SEAT + 8 * depth) ≤ vec_capacity out.old }
    ensures puts { (tally : AnyTally) → Puts out.old.items out.new.items
        (seats_fields depth (second_of tally) (length seats.now)) digest
        (flat_map seat_numbers seats.now) }
    ensures len { vec_len out.new ≡ vec_len out.old + length seats.now * (SEAT + 8 * depth) }
    ensures capacity { vec_capacity out.old ≤ vec_capacity out.new }
{
    for seat in seats {
        put_seat(out, seat);
    }
}

impl Sketch {
    /// How many bytes the file of the sketch has: 84, and for each seat 18 and 8 for each level. So
    /// a sketch with 64 seats at depth 48 has 25,812, and none has more.
    pub fn size(&self) -> usize
        ensures { result ≡ size_of self.now }
    {
        HEAD + self.seats.len() * (SEAT + 8 * self.depth.get() as usize) + DIGEST
    }

    /// Writes the file of the sketch in place of what the buffer has. It takes memory only where
    /// the buffer has less room than the file has bytes ([`Sketch::size`]).
    ///
    /// # Errors
    ///
    /// The buffer is empty then.
    pub fn write(&self, out: &mut Vec<u8>) -> Result<(), AllocError>
        ensures written { IfOk result (λ _. out.new.items ≡ spelled_file self.now) }
        ensures size { IfOk result (λ _. vec_len out.new ≡ size_of self.now) }
        ensures room { size_of self.now ≤ vec_capacity out.old → IsOk result }
        ensures refused { OnErr result (out.new.items ≡ []) }
    {
        out.clear();
        out.reserve(self.size())?;
        let head = Head {
            depth: self.depth,
            parts: self.parts,
            tally: self.tally,
            count: self.seats.len() as u64,
        };
        put_head(out, &head);
        put_seats(out, self.depth, &self.seats);
        let digest = Sha256::digest(out.as_slice());
        put(out, &digest);
        Ok(())
    }
}

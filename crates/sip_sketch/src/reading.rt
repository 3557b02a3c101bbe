//! Reads a sketch off its file.

ghost use Rattle.std.specs.Prelude.{◌≡◌, ◌≤◌, ◌*◌, ℕ, List, length, All, IfOk, IfErr, Ok, flat_map};
ghost use Rattle.sip_vector.specs.Streams.{most_weight};
ghost use Rattle.sip_sketch.specs.Fields.{Fields, closed, digest, read};
ghost use Rattle.sip_sketch.specs.Reading.{Gives, IsFaultOf, IsReadAs, Takes};
ghost use Rattle.sip_sketch.specs.Seats.{IsSecond};
ghost use Rattle.sip_sketch.specs.Sketches.{IsSketch, bits_of, elements, fixed, magic};
ghost use Rattle.sip_sketch.specs.Sketches.{spelled_file};
ghost use Rattle.sip_sketch.specs.Sketches.{parts_fields, parts_numbers, seat_fields, seat_numbers};
ghost use Rattle.sip_sketch.specs.Sketches.{seats_fields, sketch_file, tally_fields};
ghost use Rattle.sip_sketch.specs.Sketches.{code_of, most_seats, ranged, second_of, tally_numbers};
ghost use Rattle.sip_sketch.specs.Sketches.{SketchValues, total_field};
ghost use Rattle.sip_sketch.specs.inside.Heads.{head_numbers};
ghost use Rattle.sip_sketch.specs.declared.cursor.Size.TheVariants.{Long};
ghost use Rattle.std.specs.Int.{from_bool};

use crate::cursor::{Cursor, Size};
use crate::{Parts, SeatKind, Sketch, SketchFault, SketchSeat};
use arrayvec::ArrayVec;
use sha2::{Digest, Sha256};
use sip_field::{Field, M61, Seat};
use sip_vector::{CAP, Depth, Fingerprint, Negatives, Side, Tally};
use std::alloc::Global;

/// SIPK, and the version.
pub(crate) const MAGIC: [u8; 5] = *b"SIPK\x01";

/// The greatest weight of a side.
pub(crate) const MOST_WEIGHT: u64 = (1 << 30) - 1;

/// The greatest element.
const MOST_ELEMENT: u64 = M61::MODULUS - 1;

/// The greatest depth.
const MOST_LEVELS: u64 = Depth::MOST as u64;

/// The most parts of a stream.
const MOST_PARTS: u64 = (1 << 32) - 1;

/// How many bytes a digest takes.
pub(crate) const DIGEST: usize = 32;

/// The most seats of a sketch.
pub(crate) const MOST_SEATS: u64 = 64;

// The head that every sketch has.
fn take_magic(cursor: &mut Cursor) -> Result<(), SketchFault>
    ensures { (behind : Fields) → Takes cursor.old cursor.new
        (fixed magic behind) (λ _. magic) (λ _. behind) result }
{
    for byte in MAGIC {
        let byte = u64::from(byte);
        cursor.number(Size::Byte, byte, byte)?;
    }
    Ok(())
}

// Which parts are in.
fn take_parts(cursor: &mut Cursor) -> Result<Parts, SketchFault>
    ensures { (behind : Fields) → Takes cursor.old cursor.new
        (parts_fields behind) parts_numbers (λ _. behind) result }
{
    let count = cursor.number(Size::Word, 1, MOST_PARTS)?;
    let first = cursor.number(Size::Word, 1, count)?;
    let last = cursor.number(Size::Word, first, count)?;
    Ok(Parts {
        count: count as u32,
        first: first as u32,
        last: last as u32,
    })
}

// What is told of the stream.
fn take_tally(cursor: &mut Cursor) -> Result<Tally, SketchFault>
    ensures takes { (behind : ℕ → ℕ → ℕ → Fields)
        → Takes cursor.old cursor.new (tally_fields behind)
        tally_numbers (λ t. behind t.first t.second (bits_of t.negatives)) result }
    ensures first { IfOk result (λ t. t.first ≤ most_weight) }
    ensures second { IfOk result (λ t. t.second ≤ most_weight) }
{
    let first = cursor.number(Size::Long, 0, MOST_WEIGHT)?;
    let second = cursor.number(Size::Long, 0, MOST_WEIGHT)?;
    let count = cursor.number(Size::Long, 0, first + second)?;
    let bits = cursor.negatives(first, second)?;
    let fingerprint = cursor.number(Size::Long, 0, u64::MAX)?;
    Ok(Tally {
        count,
        first,
        second,
        negatives: Negatives {
            first: bits % 2 == 1,
            second: bits / 2 == 1,
        },
        fingerprint: Fingerprint::of(fingerprint),
    })
}

/// The numbers in front of the seats: the depth, the parts, what is told of the stream, and how
/// many seats there are.
#[derive(Clone, Copy)]
pub(crate) struct Head {
    pub(crate) depth: Depth,
    pub(crate) parts: Parts,
    pub(crate) tally: Tally,
    pub(crate) count: u64,
}

// The head.
fn take_head(cursor: &mut Cursor) -> Result<Head, SketchFault>
    ensures takes { Takes cursor.old cursor.new sketch_file head_numbers
        (λ h. seats_fields h.depth (second_of h.tally) h.count) result }
    ensures first { IfOk result (λ h. h.tally.first ≤ most_weight) }
    ensures second { IfOk result (λ h. h.tally.second ≤ most_weight) }
    ensures count { IfOk result (λ h. h.count ≤ most_seats) }
{
    take_magic(cursor)?;
    let levels = cursor.number(Size::Byte, 1, MOST_LEVELS)?;
    let parts = take_parts(cursor)?;
    let tally = take_tally(cursor)?;
    let count = cursor.number(Size::Byte, 1, MOST_SEATS)?;
    let Some(depth) = Depth::new(levels as u8) else {
        unreachable!()
    };
    Ok(Head {
        depth,
        parts,
        tally,
        count,
    })
}

// The challenges of a seat.
fn take_block(cursor: &mut Cursor, depth: Depth) -> Result<Seat<M61, CAP>, SketchFault>
    ensures takes { (behind : Fields) → Takes cursor.old cursor.new (elements depth behind)
        (λ block. block) (λ _. behind) result }
    ensures length { IfOk result (λ block. length block ≡ depth) }
{
    let mut challenges = ArrayVec::<M61, CAP>::new();
    for _ in 0..depth.get() {
        let challenge = cursor.number(Size::Long, 0, MOST_ELEMENT)?;
        challenges.push(M61::of_number(challenge));
    }
    let Some(block) = Seat::of(&challenges) else {
        unreachable!()
    };
    Ok(block)
}

// The least and the greatest total, each with the greatest weight, of a side of this weight.
fn totals(weight: u64, is_open: bool) -> (u64, u64)
    requires { weight ≤ most_weight }
    ensures field { ranged Long result.0 result.1 ≡ total_field weight is_open }
    ensures most { result.1 ≤ 2 * most_weight }
{
    let most = MOST_WEIGHT + weight;
    if is_open {
        (MOST_WEIGHT - weight, most)
    } else {
        (most, most)
    }
}

// The least and the greatest second number of a seat.
fn seconds(kind: SeatKind, is_used: bool, tally: &Tally) -> (u64, u64)
    requires first { tally.now.first ≤ most_weight }
    requires second { tally.now.second ≤ most_weight }
    ensures field { ranged Long result.0 result.1
        ≡ second_of tally.now (code_of kind) (from_bool is_used) }
    ensures each { (x : ℕ) → result.0 ≤ x → x ≤ result.1 → IsSecond kind x }
{
    match kind {
        SeatKind::Entries | SeatKind::Sums(_) | SeatKind::Above(_) => (0, 0),
        SeatKind::Products => (0, MOST_ELEMENT),
        SeatKind::Heavy(Side::First) => totals(tally.first, is_used || tally.negatives.first),
        SeatKind::Heavy(Side::Second) => totals(tally.second, is_used || tally.negatives.second),
    }
}

// A seat.
fn take_seat(cursor: &mut Cursor, depth: Depth, tally: &Tally) -> Result<SketchSeat, SketchFault>
    requires first { tally.now.first ≤ most_weight }
    requires second { tally.now.second ≤ most_weight }
    ensures takes { (behind : Fields) → Takes cursor.old cursor.new
        (seat_fields depth (second_of tally.now) behind) seat_numbers (λ _. behind) result }
    ensures block { IfOk result (λ seat. length seat.block ≡ depth) }
{
    let code = cursor.number(Size::Byte, 1, 8)?;
    let used = cursor.number(Size::Byte, 0, 1)?;
    let block = take_block(cursor, depth)?;
    let first = cursor.number(Size::Long, 0, MOST_ELEMENT)?;
    let kind = SeatKind::of_code(code);
    let is_used = used == 1;
    let (least, most) = seconds(kind, is_used, tally);
    let second = cursor.number(Size::Long, least, most)?;
    Ok(SketchSeat::of(kind, is_used, block, first, second))
}

// So many seats.
fn take_seats(
    alloc: Global,
    cursor: &mut Cursor,
    depth: Depth,
    tally: &Tally,
    count: u64,
) -> Result<Vec<SketchSeat>, SketchFault>
    requires first { tally.now.first ≤ most_weight }
    requires second { tally.now.second ≤ most_weight }
    requires count { count ≤ most_seats }
    ensures takes { Takes cursor.old cursor.new (seats_fields depth (second_of tally.now) count)
        (λ seats. flat_map seat_numbers seats.items) (λ _. digest) result }
    ensures length { IfOk result (λ seats. length seats.items ≡ count) }
    ensures each { IfOk result (λ seats. All (λ seat. length seat.block ≡ depth) seats.items) }
{
    let mut seats = Vec::with_capacity(alloc, count as usize)?;
    for _ in 0..count {
        let seat = take_seat(cursor, depth, tally)?;
        seats.push(seat)?;
    }
    Ok(seats)
}

// The digest of all that was read, with nothing behind it.
fn take_digest(cursor: &Cursor) -> Result<(), SketchFault>
    ensures found { IfOk result (λ _. (values : List ℕ)
        → closed cursor.now.bytes.now values cursor.now.at ≡ Ok values) }
    ensures fault { IfErr result (λ e. (values : List ℕ)
        → IsFaultOf (closed cursor.now.bytes.now values cursor.now.at) e) }
{
    let end = cursor.at;
    let digest = Sha256::digest(&cursor.bytes[..end]);
    let behind = &cursor.bytes[end..];
    if behind.len() < DIGEST || behind[..DIGEST] != digest[..] {
        return Err(SketchFault::Bad { offset: end });
    }
    if behind.len() > DIGEST {
        return Err(SketchFault::Bad {
            offset: end + DIGEST,
        });
    }
    Ok(())
}

impl Sketch {
    /// The sketch whose file these bytes are. It takes memory for its seats.
    ///
    /// # Errors
    ///
    /// `Bad` with the first place where a field has none of its values.
    pub fn read(alloc: Global, bytes: &[u8]) -> Result<Sketch, SketchFault>
        ensures exact { Gives (read sketch_file bytes.now) result }
        ensures found { IfOk result (λ s. IsSketch s × (bytes.now ≡ spelled_file s)) }
        ensures only { (sketch : SketchValues) → IsSketch sketch
            → bytes.now ≡ spelled_file sketch → IsReadAs sketch result }
    {
        let mut cursor = Cursor::new(bytes);
        let head = take_head(&mut cursor)?;
        let seats = take_seats(alloc, &mut cursor, head.depth, &head.tally, head.count)?;
        take_digest(&cursor)?;
        Ok(Sketch {
            depth: head.depth,
            parts: head.parts,
            tally: head.tally,
            seats,
        })
    }
}

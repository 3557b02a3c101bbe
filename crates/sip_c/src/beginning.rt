//! Begins a sketch behind a handle.

ghost use Rattle.std.specs.Prelude.{◌≡◌, ◌≤◌, ◌<◌, All, IfErr, IfNone, IfOk, IfSome, Some, length};
ghost use Rattle.std.specs.Prelude.{map, take};
ghost use Rattle.arrayvec.specs.ArrayVec.{array_vec_len};
ghost use Rattle.sip_sketch.specs.Sketches.{code_of, most_seats};
ghost use Rattle.sip_c.specs.Beginning.{Begun, CanBegin, IsKind, StandsAgainst};

use crate::refusal::Refusal;
use arrayvec::ArrayVec;
use sip_sketch::{BeginFault, SeatKind, Sketch};
use sip_vector::{Depth, Side};
use std::alloc::Global;

/// How many bytes a seed has.
pub(crate) const SEED: usize = 32;

/// The most seats of a sketch.
const MOST_SEATS: usize = 64;

// The kind of seat that has this code.
fn kind_of(code: u8) -> Option<SeatKind>
    ensures kind { IfSome result (λ kind. code_of kind ≡ code) }
    ensures code { IfSome result (λ _. IsKind code) }
    ensures none { IfNone result (¬ IsKind code) }
{
    match code {
        1 => Some(SeatKind::Entries),
        2 => Some(SeatKind::Sums(Side::First)),
        3 => Some(SeatKind::Sums(Side::Second)),
        4 => Some(SeatKind::Products),
        5 => Some(SeatKind::Heavy(Side::First)),
        6 => Some(SeatKind::Heavy(Side::Second)),
        7 => Some(SeatKind::Above(Side::First)),
        8 => Some(SeatKind::Above(Side::Second)),
        _ => None,
    }
}

// The kinds of seats that have these codes.
fn kinds_of(codes: &[u8]) -> Option<ArrayVec<SeatKind, MOST_SEATS>>
    requires { length codes.now ≤ most_seats }
    ensures kinds { IfSome result (λ kinds. map code_of kinds.items ≡ codes.now) }
    ensures codes { IfSome result (λ _. All IsKind codes.now) }
    ensures none { IfNone result (¬ All IsKind codes.now) }
{
    let mut kinds = ArrayVec::new();
    for code in codes {
        kinds.push(kind_of(*code)?);
    }
    Some(kinds)
}

/// The bytes of a seed.
pub(crate) fn seed_of(bytes: &[u8]) -> [u8; SEED]
    requires { length bytes.now ≡ SEED }
    ensures { result ≡ bytes.now }
{
    let mut seed = [0; SEED];
    seed.copy_from_slice(bytes);
    seed
}

/// The sketch of the empty stream, as it is asked for by numbers.
pub(crate) fn begin(
    alloc: Global,
    seed: &[u8],
    depth: u8,
    part: u32,
    parts: u32,
    codes: &[u8],
) -> Result<Sketch, Refusal>
    ensures begun { IfOk result (Begun (record {
      seed = seed.now;
      depth = depth;
      part = part;
      parts = parts;
      codes = codes.now;
    })) }
    ensures can { IfOk result (λ _. CanBegin (record {
      seed = seed.now;
      depth = depth;
      part = part;
      parts = parts;
      codes = codes.now;
    })) }
    ensures why { IfErr result (StandsAgainst (record {
      seed = seed.now;
      depth = depth;
      part = part;
      parts = parts;
      codes = codes.now;
    })) }
{
    if seed.len() != SEED || codes.is_empty() || codes.len() > MOST_SEATS {
        return Err(Refusal::BadLength);
    }
    let Some(depth) = Depth::new(depth) else {
        return Err(Refusal::BadDepth);
    };
    if part == 0 || part > parts {
        return Err(Refusal::BadPart);
    }
    let Some(kinds) = kinds_of(codes) else {
        return Err(Refusal::BadCode);
    };
    match Sketch::begin(alloc, &seed_of(seed), depth, part, parts, &kinds) {
        Ok(sketch) => Ok(sketch),
        Err(BeginFault::SeedSpent) => Err(Refusal::SeedSpent),
        Err(BeginFault::OutOfMemory) => Err(Refusal::NoMemory),
    }
}

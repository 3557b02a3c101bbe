//! Begins a sketch.

ghost use Rattle.std.specs.Prelude.{◌≡◌, ◌*◌, ◌<◌, ◌≤◌, ◌↔◌, length, IfOk, IfErr, IsErrOf, []};
ghost use Rattle.std.specs.Prelude.{None, Some, IsErr};
ghost use Rattle.sip_field.specs.Draw.{draw_list, words_after};
ghost use Rattle.sip_vector.specs.Tallies.{tally};
ghost use Rattle.sip_verifier.specs.Draws.{challenges_of};
ghost use Rattle.sip_sketch.specs.Sketches.{most_seats};
ghost use Rattle.sip_sketch.specs.Standing.{IsBegun};
ghost use Rattle.sip_sketch.specs.declared.beginning.BeginFault.TheVariants.{OutOfMemory};
ghost use Rattle.sip_sketch.specs.inside.Beginning.{AreBegun, BeginsAt};
ghost use Rattle.sip_sketch.specs.declared.beginning.BeginFault.TheVariants as faults;

use crate::{Parts, SeatKind, Sketch, SketchSeat};
use rand_chacha::ChaCha20Rng;
use rand_core::{Rng, SeedableRng};
use sip_field::{Seat, SeedSpent, draw_next, draw_one};
use sip_vector::{CAP, Depth, Tally};
use std::alloc::{AllocError, AllocFailed, Global};
use thiserror::Error;

/// Why a sketch was not begun.
#[derive(Clone, Copy, Debug, PartialEq, Eq, Error)]
pub enum BeginFault {
    /// Eight words of the seed's generator in turn give no challenge.
    #[error("seed spent")]
    SeedSpent,
    /// Memory was refused.
    #[error("out of memory")]
    OutOfMemory,
}

impl From<SeedSpent> for BeginFault {
    ghost from_gives = { λ _ fault. fault ≡ faults.SeedSpent };

    fn from(_: SeedSpent) -> BeginFault {
        BeginFault::SeedSpent
    }
}

impl From<AllocError> for BeginFault {
    ghost from_gives = { λ _ fault. fault ≡ OutOfMemory };

    fn from(_: AllocError) -> BeginFault {
        BeginFault::OutOfMemory
    }
}

impl<T: Drop> From<AllocFailed<T>> for BeginFault {
    ghost from_gives = { λ _ fault. fault ≡ OutOfMemory };

    fn from(_: AllocFailed<T>) -> BeginFault {
        BeginFault::OutOfMemory
    }
}

// A seat of this kind, with the next challenges of a generator.
fn next_seat<R: Rng>(rng: &mut R, levels: usize, kind: SeatKind) -> Result<SketchSeat, SeedSpent>
    requires some { 1 ≤ levels }
    requires most { levels ≤ CAP }
    ensures kind { IfOk result (λ seat. seat.kind ≡ kind) }
    ensures begins { IfOk result (BeginsAt levels) }
    ensures drawn { IfOk result (λ seat. draw_list levels (R.stream rng.old) ≡ Some seat.block) }
    ensures left { IfOk result (λ _. R.stream rng.new ≡ words_after levels (R.stream rng.old)) }
    ensures spent { IfErr result (λ _. draw_list levels (R.stream rng.old) ≡ None) }
{
    let challenges = draw_next::<R, CAP>(rng, levels)?;
    let Some(block) = Seat::of(&challenges) else {
        unreachable!()
    };
    Ok(SketchSeat::begin(kind, block))
}

// Draws so many challenges of a generator, and keeps none.
fn pass<R: Rng>(rng: &mut R, count: usize) -> Result<(), SeedSpent>
    ensures { IsErr result ↔ (draw_list count (R.stream rng.old) ≡ None) }
{
    for _ in 0..count {
        draw_one(rng)?;
    }
    Ok(())
}

// A seat of each kind in order, each with the next challenges of a generator, so many of them.
fn seats_at<R: Rng>(
    alloc: Global,
    rng: &mut R,
    levels: usize,
    kinds: &[SeatKind],
) -> Result<Vec<SketchSeat>, BeginFault>
    requires some { 1 ≤ levels }
    requires most { levels ≤ CAP }
    requires few { length kinds.now ≤ most_seats }
    ensures begun { IfOk result (λ seats.
        AreBegun levels kinds.now (R.stream rng.old) seats.items) }
    ensures spent { IsErrOf result BeginFault.SeedSpent
        ↔ (draw_list (levels * length kinds.now) (R.stream rng.old) ≡ None) }
{
    let Ok(mut seats) = Vec::with_capacity(alloc, kinds.len()) else {
        // A seed that is spent is named before memory that is refused.
        pass(rng, levels * kinds.len())?;
        return Err(BeginFault::OutOfMemory);
    };
    for kind in kinds {
        seats.push(next_seat(rng, levels, *kind)?).unwrap();
    }
    Ok(seats)
}

// What is told of the empty stream.
fn nothing_told() -> Tally
    ensures { result ≡ tally [] }
{
    Tally::default()
}

impl Sketch {
    /// The sketch of the empty stream, with a seat of each of these kinds in order, none of them
    /// used, and with one part in. Each seat has the next `depth` challenges that
    /// `ChaCha20Rng::from_seed(seed)` gives. It takes memory for the seats.
    ///
    /// # Errors
    ///
    /// `SeedSpent` exactly where eight words of the generator in turn give no challenge.
    pub fn begin(
        alloc: Global,
        seed: &[u8; 32],
        depth: Depth,
        part: u32,
        parts: u32,
        kinds: &[SeatKind],
    ) -> Result<Sketch, BeginFault>
        requires first_part { 1 ≤ part }
        requires last_part { part ≤ parts }
        requires some { 0 < length kinds.now }
        requires most { length kinds.now ≤ most_seats }
        ensures begun { IfOk result
            (IsBegun seed.now depth (record { count = parts; first = part; last = part })
            kinds.now) }
        ensures spent { IsErrOf result BeginFault.SeedSpent
            ↔ (challenges_of (depth * length kinds.now) seed.now ≡ None) }
    {
        let levels = depth.get() as usize;
        let seats = seats_at(alloc, &mut ChaCha20Rng::from_seed(*seed), levels, kinds)?;
        Ok(Sketch {
            depth,
            parts: Parts {
                count: parts,
                first: part,
                last: part,
            },
            tally: nothing_told(),
            seats,
        })
    }
}

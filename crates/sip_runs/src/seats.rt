//! The seats of a run, one for each question.

ghost use Rattle.std.specs.Prelude.{◌≡◌, ◌≤◌, ◌*◌, ℕ, [], List, All, IfOk, length, map};
ghost use Rattle.std.specs.Prelude.{◌++◌};
ghost use Rattle.sip_field.specs.Elements.{m61_number};
ghost use Rattle.sip_vector.specs.declared.update.Update.{Update as AnyUpdate};
ghost use Rattle.sip_vector.specs.Limits.{most_depth};
ghost use Rattle.sip_vector.specs.Pieces.{cut};
ghost use Rattle.sip_vector.specs.Streams.{IsLegal};
ghost use Rattle.sip_wire.specs.Table.{most_queries, most_rows};
ghost use Rattle.sip_wire.specs.declared.version.Version.{Version as AnyVersion};
ghost use Rattle.sip_verifier.specs.Weights.{weight_in};
ghost use Rattle.sip_questions.specs.Promises.{CanPose};
ghost use Rattle.sip_questions.specs.Questions.{first_by};
ghost use Rattle.sip_runs.specs.Seats.{IsSeated, blocks_of, questions_of, refusal_at};

use crate::seat::RunSeat;
use sip_field::{M61, OutOfMemory, Seat};
use sip_questions::Question;
use sip_vector::{Depth, Side, Update, take_side};
use sip_verifier::{Status, Weights};
use sip_wire::MOST_ROWS;
use std::alloc::Global;

/// The seats of these questions with these challenges, `depth` for each in order, before any
/// update. Each keeps the tables of its challenges, where there is memory for them: 2 KiB for eight
/// levels, and 4 where large entries are asked for.
pub(crate) fn begin_seats(
    alloc: Global,
    depth: Depth,
    questions: &[Question],
    challenges: &[M61],
) -> Result<Vec<RunSeat>, OutOfMemory>
    requires most { length questions.now ≤ most_queries }
    requires count { length challenges.now ≡ depth * length questions.now }
    ensures questions { IfOk result (λ seats. questions_of seats.items ≡ questions.now) }
    ensures blocks { IfOk result
        (λ seats. blocks_of seats.items ≡ cut depth (map m61_number challenges.now)) }
    ensures seated { (version : AnyVersion) → All (CanPose version depth) questions.now
        → IfOk result (λ seats. All (IsSeated version depth []) seats.items) }
{
    let levels = depth.get() as usize;
    let Ok(mut seats) = Vec::with_capacity(alloc, questions.len()) else {
        return Err(OutOfMemory);
    };
    for (index, question) in questions.iter().enumerate() {
        let first = index * levels;
        let Some(block) = Seat::of(&challenges[first..first + levels]) else {
            unreachable!()
        };
        let Ok(()) = seats.push(RunSeat::begin(alloc, *question, block)) else {
            return Err(OutOfMemory);
        };
    }
    Ok(seats)
}

// Adds updates of one side to each seat that they concern.
fn raise(seats: &mut [RunSeat], side: Side, updates: &[Update])
    requires sides { All (λ u. u.side ≡ side) updates.now }
    requires legal { (version : AnyVersion) × (depth : ℕ) × (stream : List AnyUpdate)
        × (depth ≤ most_depth) × All (IsSeated version depth stream) seats.old
        × IsLegal depth (stream ++ updates.now) }
    ensures questions { questions_of seats.new ≡ questions_of seats.old }
    ensures blocks { blocks_of seats.new ≡ blocks_of seats.old }
    ensures seated { (version : AnyVersion) (depth : ℕ) (stream : List AnyUpdate)
        → All (IsSeated version depth stream) seats.old
        → All (IsSeated version depth (stream ++ updates.now)) seats.new }
{
    for seat in seats.iter_mut() {
        seat.update_all(side, updates);
    }
}

/// Adds updates to each seat that they concern.
///
/// They are split by side once. Then an update takes, for each seat that it concerns, one look-up
/// and one multiplication for each eight levels, by the tables that the seat keeps. No memory.
#[inline(never)]
pub(crate) fn raise_all(seats: &mut [RunSeat], updates: &[Update])
    requires most { length updates.now ≤ most_rows }
    requires legal { (version : AnyVersion) × (depth : ℕ) × (stream : List AnyUpdate)
        × (depth ≤ most_depth) × All (IsSeated version depth stream) seats.old
        × IsLegal depth (stream ++ updates.now) }
    ensures questions { questions_of seats.new ≡ questions_of seats.old }
    ensures blocks { blocks_of seats.new ≡ blocks_of seats.old }
    ensures seated { (version : AnyVersion) (depth : ℕ) (stream : List AnyUpdate)
        → All (IsSeated version depth stream) seats.old
        → All (IsSeated version depth (stream ++ updates.now)) seats.new }
{
    // One buffer for both sides: it has room for a whole frame.
    let mut taken = [Update::default(); MOST_ROWS];
    let firsts = take_side(updates, Side::First, &mut taken);
    raise(seats, Side::First, &taken[..firsts]);
    let seconds = take_side(updates, Side::Second, &mut taken);
    raise(seats, Side::Second, &taken[..seconds]);
}

/// The first of these questions that may not be asked, where they are counted from 1.
pub(crate) fn first_refusal(seats: &[RunSeat], weights: &Weights) -> Option<Status>
    requires most { length seats.now ≤ most_queries }
    requires seated { (version : AnyVersion) × (depth : ℕ) × (stream : List AnyUpdate)
        × All (IsSeated version depth stream) seats.now }
    ensures { result ≡ first_by (refusal_at (weight_in weights.now)) 1 seats.now }
{
    for (index, seat) in seats.iter().enumerate() {
        if let Some(status) = seat.refusal(index as u8 + 1, weights) {
            return Some(status);
        }
    }
    None
}

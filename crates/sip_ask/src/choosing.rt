//! Which seat of a sketch each question takes, and why nothing is asked of it.

ghost use Rattle.std.specs.Prelude.{◌≡◌, ◌<◌, ◌≤◌, ℕ, [], IfSome, IsTrue, MatchResult, Ok, Err};
ghost use Rattle.std.specs.Prelude.{length};
ghost use Rattle.std.specs.List.{list_any};
ghost use Rattle.sip_vector.specs.Tallies.{IsSound};
ghost use Rattle.sip_wire.specs.Table.{most_queries};
ghost use Rattle.sip_sketch.specs.Sketches.{IsSketch};
ghost use Rattle.sip_ask.specs.Choosing.{all_pass, choice, fits, fits_at, free_from, is_free};
ghost use Rattle.sip_ask.specs.Choosing.{is_place, is_signed, kind_for, kind_of, large};
ghost use Rattle.sip_ask.specs.Choosing.{negative_told};
ghost use Rattle.sip_ask.specs.Choosing.{seat_for, seats_for, small_at, weight_told};

use crate::AskStatus;
use arrayvec::ArrayVec;
use sip_moments::is_too_high;
use sip_questions::Question;
use sip_sketch::{SeatKind, Sketch, SketchSeat};
use sip_vector::{Depth, Query, Side, Tally, is_wide, share_of};
use sip_wire::{MOST_QUERIES, Version};

/// The place of the seat that each question takes; `None` for one that is answered without being
/// asked.
pub type Places = ArrayVec<Option<usize>, MOST_QUERIES>;

/// The weight of a side, as it is told of the stream.
pub fn weight_of(tally: &Tally, side: Side) -> u64
    ensures { result ≡ weight_told tally.now side }
{
    match side {
        Side::First => tally.first,
        Side::Second => tally.second,
    }
}

// Whether a side had a delta below 0.
fn had_negative(tally: &Tally, side: Side) -> bool
    ensures { result ≡ negative_told tally.now side }
{
    match side {
        Side::First => tally.negatives.first,
        Side::Second => tally.negatives.second,
    }
}

// The kind of seat that serves a query.
fn kind_of(query: &Query) -> SeatKind
    ensures { result ≡ kind_of query.now }
{
    match query {
        Query::Sub { .. } => SeatKind::Entries,
        Query::Range { side, .. } | Query::F2 { side } => SeatKind::Sums(*side),
        Query::Inner => SeatKind::Products,
        Query::Heavy { side, .. } | Query::Share { side, .. } => SeatKind::Heavy(*side),
        Query::Above { side, .. } => SeatKind::Above(*side),
    }
}

// Whether a question can be asked at a depth, in some version.
fn fits(depth: Depth, question: &Question) -> bool
    ensures { result ≡ fits depth question.now }
{
    question.can_pose(Version::Two, depth)
}

// The side whose large entries a question asks for, and how large they are at least.
fn large(tally: &Tally, question: &Question) -> Option<(Side, u64)>
    requires sound { IsSound tally.now }
    requires fits { (depth : ℕ) × IsTrue (fits depth question.now) }
    ensures large { result ≡ large tally.now question.now }
    ensures some { IfSome result (λ x. 1 ≤ x.1) }
{
    match question {
        Question::Query(Query::Heavy { side, at_least }) => Some((*side, *at_least)),
        Question::Query(Query::Share { side, num, den }) => {
            let total = weight_of(tally, *side) as i64;
            Some((*side, share_of(total, *num, *den)))
        }
        Question::Large(large) => Some((large.side, large.at_least)),
        _ => None,
    }
}

// Whether a question asks for heavy hitters of a side that had a delta below 0.
fn is_signed(tally: &Tally, question: &Question) -> bool
    ensures { result ≡ is_signed tally.now question.now }
{
    match question {
        Question::Query(Query::Heavy { side, .. } | Query::Share { side, .. }) => {
            had_negative(tally, *side)
        }
        _ => false,
    }
}

// Whether this is the place of a seat that is taken.
fn is_place(place: usize, taken: &Option<usize>) -> bool
    ensures { result ≡ is_place place taken.now }
{
    *taken == Some(place)
}

// Whether this is the place of one of them.
fn is_taken(place: usize, taken: &[Option<usize>]) -> bool
    ensures { result ≡ list_any (is_place place) taken.now }
{
    taken.iter().any(|one| is_place(place, one))
}

// Whether a seat serves this kind, and no question has used it or takes it.
fn is_free(kind: SeatKind, taken: &[Option<usize>], place: usize, seat: &SketchSeat) -> bool
    ensures { result ≡ is_free kind taken.now place seat.now }
{
    seat.kind().code() == kind.code() && !seat.is_used() && !is_taken(place, taken)
}

// The place of the first such seat.
fn free_place(kind: SeatKind, taken: &[Option<usize>], seats: &[SketchSeat]) -> Option<usize>
    ensures { result ≡ free_from kind taken.now 0 seats.now }
{
    for (place, seat) in seats.iter().enumerate() {
        if is_free(kind, taken, place, seat) {
            return Some(place);
        }
    }
    None
}

// The place of the seat that a question takes, where those before it take these.
fn seat_for(
    sketch: &Sketch,
    taken: &[Option<usize>],
    question: &Question,
) -> Result<Option<usize>, AskStatus>
    requires is { IsSketch sketch.now }
    requires few { length taken.now < most_queries }
    requires fits { IsTrue (fits sketch.now.depth question.now) }
    ensures { result ≡ seat_for sketch.now taken.now question.now }
{
    let number = taken.len() as u8 + 1;
    let tally = sketch.tally();
    if is_signed(&tally, question) {
        return Err(AskStatus::Signed { query: number });
    }
    if let Some((side, at_least)) = large(&tally, question) {
        if weight_of(&tally, side) < at_least {
            return Ok(None);
        }
    }
    match free_place(kind_of(&question.query_like()), taken, sketch.seats()) {
        Some(place) => Ok(Some(place)),
        None => Err(AskStatus::NoSeat { query: number }),
    }
}

// Whether each question fits the depth.
fn all_fit(depth: Depth, questions: &[Question]) -> Result<(), AskStatus>
    requires { length questions.now ≤ most_queries }
    ensures { result ≡ all_pass (fits_at depth) 1 questions.now }
{
    for (index, question) in questions.iter().enumerate() {
        if !fits(depth, question) {
            return Err(AskStatus::Unfit {
                query: index as u8 + 1,
            });
        }
    }
    Ok(())
}

// Whether the answer of a question, which has this number, has room.
fn is_small(tally: &Tally, number: u8, question: &Question) -> Result<(), AskStatus>
    requires sound { IsSound tally.now }
    requires fits { (depth : ℕ) × IsTrue (fits depth question.now) }
    ensures { result ≡ small_at tally.now number question.now }
{
    if let Some((side, at_least)) = large(tally, question) {
        if is_wide(weight_of(tally, side) as i64, at_least) {
            return Err(AskStatus::TooWide { query: number });
        }
    }
    match question {
        Question::Moment(moment) if is_too_high(weight_of(tally, moment.side), moment.degree) => {
            Err(AskStatus::TooHigh { query: number })
        }
        _ => Ok(()),
    }
}

// Whether that of each has.
fn all_small(tally: &Tally, depth: Depth, questions: &[Question]) -> Result<(), AskStatus>
    requires sound { IsSound tally.now }
    requires most { length questions.now ≤ most_queries }
    requires fit { all_pass (fits_at depth) 1 questions.now ≡ Ok tt }
    ensures { result ≡ all_pass (small_at tally.now) 1 questions.now }
{
    for (index, question) in questions.iter().enumerate() {
        is_small(tally, index as u8 + 1, question)?;
    }
    Ok(())
}

// The place of the seat that each question takes.
fn take_seats(sketch: &Sketch, questions: &[Question]) -> Result<Places, AskStatus>
    requires is { IsSketch sketch.now }
    requires most { length questions.now ≤ most_queries }
    requires fit { all_pass (fits_at sketch.now.depth) 1 questions.now ≡ Ok tt }
    ensures { MatchResult result
        (λ places. seats_for sketch.now [] questions.now ≡ Ok places.items)
        (λ status. seats_for sketch.now [] questions.now ≡ Err status) }
{
    let mut places = Places::new();
    for question in questions {
        places.push(seat_for(sketch, &places, question)?);
    }
    Ok(places)
}

/// Which seat each of these questions takes. No seat is used by that.
///
/// # Errors
///
/// The first of these: `NotWhole`; `Unfit` of the first question that does not fit the depth; of
/// the first question for which one comes, `Signed` or `NoSeat`; of the first question, `TooWide`
/// or `TooHigh`.
pub fn choose(sketch: &Sketch, questions: &[Question]) -> Result<Places, AskStatus>
    requires is { IsSketch sketch.now }
    requires most { length questions.now ≤ most_queries }
    ensures { MatchResult result
        (λ places. choice sketch.now questions.now ≡ Ok places.items)
        (λ status. choice sketch.now questions.now ≡ Err status) }
{
    let parts = sketch.parts();
    if parts.first != 1 || parts.last != parts.count {
        return Err(AskStatus::NotWhole);
    }
    all_fit(sketch.depth(), questions)?;
    let places = take_seats(sketch, questions)?;
    all_small(&sketch.tally(), sketch.depth(), questions)?;
    Ok(places)
}

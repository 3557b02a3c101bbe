//! Asks questions of the sketch of a desk.

ghost use Rattle.std.specs.Prelude.{◌≡◌, ◌≢◌, ◌≤◌, ℕ, List, [], Ok, Err, None, All, IfErr, IfOk};
ghost use Rattle.std.specs.Prelude.{IsErrOf, IsTrue, length, map};
ghost use Rattle.sip_ports.specs.Ports.{GoesOn, Lasts, Rose};
ghost use Rattle.sip_vector.specs.declared.update.Update.{Update as AnyUpdate};
ghost use Rattle.sip_wire.specs.Table.{most_queries};
ghost use Rattle.sip_wire.specs.declared.version.Version.{Version as AnyVersion};
ghost use Rattle.sip_verifier.specs.declared.status.Status.TheVariants as runs;
ghost use Rattle.sip_questions.specs.Promises.{CanPose};
ghost use Rattle.sip_questions.specs.Questions.{first_by, version_for};
ghost use Rattle.sip_questions.specs.Sittings.{CanAsk, StandsAt, StandsOn, ask_at, refusal_at};
ghost use Rattle.sip_sketch.specs.Sketches.{IsSketch};
ghost use Rattle.sip_sketch.specs.Standing.{Stands};
ghost use Rattle.sip_ask.specs.Asking.{Asks};
ghost use Rattle.sip_ask.specs.Causes.{HasRisen};
ghost use Rattle.sip_ask.specs.Choosing.{choice, fits, weight_told};
ghost use Rattle.sip_ask.specs.Completeness.{AskCompletes};
ghost use Rattle.sip_ask.specs.SketchCounts.{CountOnSketches};
ghost use Rattle.sip_ask.specs.Turns.{block_at};
ghost use Rattle.sip_ask.specs.inside.Seating.{IsTested, Serves};
ghost use Rattle.sip_ask.specs.inside.Steps.{LoadsSketch, StandsReady, asks_at, status_of};
ghost use Rattle.sip_ask.specs.declared.status.AskStatus.TheVariants as statuses;

use crate::AskStatus;
use crate::asking::Asking;
use crate::choosing::{Places, choose, weight_of};
use crate::opening::open;
use arrayvec::ArrayVec;
use sip_ports::{Desk, DeskStop, Sink};
use sip_questions::{Question, QuestionAsker, QuestionSeat};
use sip_sketch::{Sketch, SketchFault};
use sip_vector::Query;
use sip_verifier::{Status, Weights};
use sip_wire::{Frame, MOST_QUERIES, Version};
use std::alloc::{AllocError, Global};

// The sketch of the desk, from here on another's no more.
fn load<D: Desk>(alloc: Global, desk: &mut D) -> Result<Sketch, AskStatus>
    ensures loads { LoadsSketch (D.start desk.old) (D.talk desk.old) result }
    ensures cause { result ≡ Err statuses.ReadFault → Rose (D.faults desk.old) (D.faults desk.new) }
    ensures free { D.is_sure desk.old → ¬ IsErrOf result statuses.Busy }
    ensures talk { GoesOn (D.talk desk.old) (D.talk desk.new) [] }
    ensures desk { Lasts D.faults D.wants D.is_sure desk.old desk.new }
{
    let file = match desk.load(alloc) {
        Ok(Some(file)) => file,
        Ok(None) => return Err(AskStatus::BadSketch { offset: 0 }),
        Err(DeskStop::Failed) => return Err(AskStatus::ReadFault),
        Err(DeskStop::OutOfMemory) => return Err(AskStatus::OutOfMemory),
        Err(DeskStop::Busy) => return Err(AskStatus::Busy),
    };
    match Sketch::read(alloc, &file) {
        Ok(sketch) => Ok(sketch),
        Err(SketchFault::Bad { offset }) => Err(AskStatus::BadSketch {
            offset: offset as u64,
        }),
        Err(SketchFault::OutOfMemory) => Err(AskStatus::OutOfMemory),
    }
}

/// The version of the talk: the least one in which the questions can be asked at the depth.
pub fn version_for(sketch: &Sketch, questions: &[Question]) -> Version
    requires { length questions.now ≤ most_queries }
    ensures { result ≡ version_for sketch.now.depth questions.now }
{
    let mut queries: ArrayVec<Query, MOST_QUERIES> = ArrayVec::new();
    for question in questions {
        match question {
            Question::Query(query) => queries.push(*query),
            Question::Large(large) => queries.push(large.query()),
            _ => {}
        }
    }
    Version::needed(sketch.depth(), &queries)
}

// A question, with a copy of what the seat at a place keeps that serves it.
fn seat_of(sketch: &Sketch, question: Question, place: usize) -> QuestionSeat
    requires is { IsSketch sketch.now }
    requires serves { Serves sketch.now question place }
    requires fits { IsTrue (fits sketch.now.depth question) }
    requires tested { IsTested sketch.now.tally question }
    ensures asks { ask_at result ≡ (question, block_at place sketch.now.seats) }
    ensures can { (version : AnyVersion) → CanPose version sketch.now.depth question
        → CanAsk version sketch.now.depth result }
    ensures stands { (stream : List AnyUpdate) → Stands stream sketch.now
        → StandsAt sketch.now.depth stream result }
    ensures free { (number : ℕ)
        → refusal_at (weight_told sketch.now.tally) number result ≡ None }
{
    let seat = &sketch.seats()[place];
    let weight = weight_of(&sketch.tally(), seat.kind().side());
    QuestionSeat::of(question, seat.running(weight))
}

// The same of each question that takes a seat.
fn seated(
    alloc: Global,
    sketch: &Sketch,
    questions: &[Question],
    places: &Places,
) -> Result<Vec<QuestionSeat>, AllocError>
    requires is { IsSketch sketch.now }
    requires chosen { choice sketch.now questions.now ≡ Ok places.now.items }
    ensures asks { IfOk result (λ seats. map ask_at seats.items
        ≡ asks_at sketch.now questions.now places.now.items) }
    ensures can { IfOk result (λ seats. All (CanAsk (version_for sketch.now.depth questions.now)
        sketch.now.depth) seats.items) }
    ensures stands { IfOk result (λ seats. (stream : List AnyUpdate) → Stands stream sketch.now
        → All (StandsAt sketch.now.depth stream) seats.items) }
    ensures free { IfOk result (λ seats.
        first_by (refusal_at (weight_told sketch.now.tally)) 1 seats.items ≡ None) }
{
    let mut seats = Vec::with_capacity(alloc, places.len())?;
    for (index, place) in places.iter().enumerate() {
        if let Some(place) = place {
            seats.push(seat_of(sketch, questions[index], *place))?;
        }
    }
    Ok(seats)
}

// Why there is nothing that asks, where what a seat refuses was tested: memory was refused.
fn wanting(status: Status) -> AskStatus
    requires { status ≡ runs.OutOfMemory }
    ensures { result ≡ statuses.OutOfMemory }
{
    match status {
        Status::OutOfMemory => AskStatus::OutOfMemory,
        _ => unreachable!(),
    }
}

// All memory that asking takes.
fn ready(
    alloc: Global,
    version: Version,
    sketch: Sketch,
    questions: &[Question],
    places: &Places,
) -> Result<Asking, AskStatus>
    requires is { IsSketch sketch }
    requires most { length questions.now ≤ most_queries }
    requires chosen { choice sketch questions.now ≡ Ok places.now.items }
    requires version { version ≡ version_for sketch.depth questions.now }
    ensures sketch { IfOk result (λ a. a.sketch ≡ sketch) }
    ensures ready { IfOk result (StandsReady questions.now places.now.items) }
    ensures stands { IfOk result (λ a. (stream : List AnyUpdate) → Stands stream sketch
        → StandsOn stream a.asker) }
    ensures refused { IfErr result (λ status. status ≡ statuses.OutOfMemory) }
{
    let Ok(seats) = seated(alloc, &sketch, questions, places) else {
        return Err(AskStatus::OutOfMemory);
    };
    let tally = sketch.tally();
    let weights = Weights {
        first: tally.first,
        second: tally.second,
    };
    let asker = match QuestionAsker::new(alloc, version, sketch.depth(), seats, &weights) {
        Ok(asker) => asker,
        Err(status) => return Err(wanting(status)),
    };
    let Ok(file) = Vec::with_capacity(alloc, sketch.size()) else {
        return Err(AskStatus::OutOfMemory);
    };
    Ok(Asking {
        sketch,
        file,
        asker,
    })
}

// All steps, of which each may be the last.
fn take_steps<D: Desk, K: Sink>(
    alloc: Global,
    questions: &[Question],
    desk: &mut D,
    report: &mut K,
) -> Result<(), AskStatus>
    requires some { 1 ≤ length questions.now }
    requires most { length questions.now ≤ most_queries }
    ensures asks { Asks questions.now (D.start desk.old) (D.talk desk.old) (D.talk desk.new)
        (K.talk report.old) (K.talk report.new) (status_of result) }
    ensures cause { IfErr result (HasRisen (D.faults desk.old) (D.faults desk.new)
        (K.faults report.old) (K.faults report.new)) }
    ensures free { D.is_sure desk.old → ¬ IsErrOf result statuses.Busy }
    ensures desk { Lasts D.faults D.wants D.is_sure desk.old desk.new }
    ensures report { Lasts K.faults K.wants K.is_sure report.old report.new }
{
    let sketch = load(alloc, desk)?;
    let places = choose(&sketch, questions)?;
    let version = version_for(&sketch, questions);
    let (depth, tally) = (sketch.depth(), sketch.tally());
    let mut asking = ready(alloc, version, sketch, questions, &places)?;
    let Ok(mut frame) = Frame::new(alloc) else {
        return Err(AskStatus::OutOfMemory);
    };
    open(version, depth, &tally, desk, &mut frame)?;
    asking.ask_all(questions, &places, desk, report)
}

/// Asks questions of the sketch of a desk, over its link to where the stream is kept, and writes
/// the line of each verdict to `report`.
///
/// The sketch is loaded, and each question takes a seat of it ([`choose`]). The other end is told
/// how many records the sketch is of, and says what it holds: nothing that is sent up to there
/// depends on a challenge, and no seat is lost. Then for each question in order its seat is marked
/// used and the file is replaced; then it is asked, and then its line is written. So whenever a
/// crash comes, each content that the file may have has used the seat of each question of which a
/// byte was sent. A question for entries larger than all of a side takes no seat: its line says
/// that there is none.
///
/// Memory is taken before anything is sent, and none after: that of [`QuestionAsker::new`], a frame
/// more, and the file. Nothing limits how long the other end may take.
///
/// The first of these endings: `ReadFault` or `Busy`; `BadSketch`, at 0 where there is no file;
/// those of [`choose`]; `PeerFault`, `PeerClosed` or `BadFrame` before what the other end holds was
/// said, and `OutOfStep`; for each question in order `WriteFault` of the sketch, `PeerFault`,
/// `Rejected`, `WriteFault` of the report; `Accepted`. `OutOfMemory` may come where memory is
/// taken, and where the desk or the report is refused some. Behind a rejection nothing more is
/// sent, and the seats of the questions behind it are as they were.
pub fn ask<D: Desk, K: Sink>(
    alloc: Global,
    questions: &[Question],
    desk: &mut D,
    report: &mut K,
) -> AskStatus
    requires some { 1 ≤ length questions.now }
    requires most { length questions.now ≤ most_queries }
    ensures asks { Asks questions.now (D.start desk.old) (D.talk desk.old) (D.talk desk.new)
        (K.talk report.old) (K.talk report.new) result }
    ensures cause { HasRisen (D.faults desk.old) (D.faults desk.new) (K.faults report.old)
        (K.faults report.new) result }
    // What an honest helper sends is accepted.
    ensures completes { AskCompletes questions.now (D.start desk.old) (D.talk desk.old)
        (D.talk desk.new) (K.talk report.old) (K.talk report.new) (D.faults desk.old)
        (D.faults desk.new) (K.faults report.old) (K.faults report.new) result }
    // A helper that lies wins at few challenges of all seats together.
    ensures counts { CountOnSketches questions.now (D.start desk.old) (D.talk desk.old)
        (D.talk desk.new) (K.talk report.old) (K.talk report.new) result }
    ensures free { D.is_sure desk.old → result ≢ statuses.Busy }
    ensures desk { Lasts D.faults D.wants D.is_sure desk.old desk.new }
    ensures report { Lasts K.faults K.wants K.is_sure report.old report.new }
{
    match take_steps(alloc, questions, desk, report) {
        Ok(()) => AskStatus::Accepted,
        Err(status) => status,
    }
}

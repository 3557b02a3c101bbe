//! The questions of a run, asked one after another.

ghost use Rattle.std.specs.Prelude.{◌≡◌, ◌≤◌, ℕ, All, length};
ghost use Rattle.std.specs.Prelude.{vec_capacity};
ghost use Rattle.std.proofs.Props.{props};
ghost use Rattle.sip_wire.specs.declared.version.Version.{Version as AnyVersion};
ghost use Rattle.sip_wire.specs.Table.{most_queries};
ghost use Rattle.sip_wire.specs.Versions.{deepest};
ghost use Rattle.sip_verifier.specs.Weights.{weight_in};
ghost use Rattle.sip_questions.specs.Questions.{first_by};
ghost use Rattle.sip_questions.specs.Sittings.{CanAsk, LendsEnough, Starts, nodes_at, places_at};
ghost use Rattle.sip_questions.specs.Sittings.{refusal_at};

use crate::asking::ask_question;
use crate::seat::QuestionSeat;
use sip_above::Large;
use sip_heavy::HeavySpace;
use sip_lookup::{LookAnswer, Lookup, write_look};
use sip_moments::{Moment, write_moment};
use sip_ports::{Link, PortStop, Sink};
use sip_vector::{Depth, Entry, Query};
use sip_verifier::{Asker, Status, Unanswered, Weights, has_failed, write_number, write_pairs};
use sip_wire::{Frame, Message, Version, encode};
use std::alloc::Global;
use std::marker::Model;

/// An answer that was accepted, with its question.
#[derive(Clone, Copy, Debug)]
pub enum QuestionGiven {
    /// The number that a query asks for.
    Number { query: Query, value: i64 },
    /// The pairs that a query asks for: those that the asker shows.
    Pairs { query: Query },
    /// What a lookup found.
    Lookup { lookup: Lookup, answer: LookAnswer },
    /// A moment.
    Moment { moment: Moment, value: i64 },
    /// Large entries: the pairs that the asker shows.
    Large { large: Large },
}

/// The questions of a run after the stream was sent, or after it was watched. All memory is taken
/// when it is made: a frame, and room for the entries of the widest answer.
#[derive(Drop)]
pub struct QuestionAsker {
    version: Version,
    depth: Depth,
    seats: Vec<QuestionSeat>,
    // The number of questions that were asked.
    asked: usize,
    frame: Frame,
    // The entries of the last answer of pairs.
    entries: Vec<Entry>,
    // Room for the nodes of the replies on heavy hitters, which is lent from query to query.
    space: Option<HeavySpace>,
    is_spent: bool,
    ghost within: { asked ≤ length seats.items },
    ghost shallow: { depth ≤ deepest version },
    ghost can: { ∥ All (CanAsk version depth) seats.items ∥₁ },
    ghost places: { All (λ s. places_at s ≤ vec_capacity entries) seats.items },
    ghost nodes: { LendsEnough space seats.items } by { Prim.hlevel props },
}

impl Model for QuestionAsker {
    ghost use Rattle.std.specs.Prelude.{drop};
    ghost use Rattle.sip_questions.specs.Sittings.{QuestionSitting};

    ghost Value = { QuestionSitting };

    ghost view = { λ s. record {
      version = s.version;
      depth = s.depth;
      left = drop s.asked s.seats.items;
      entries = s.entries.items;
      spent = s.is_spent;
    } };
}

/// The greater of two numbers.
fn greater(one: usize, other: usize) -> usize
    ensures one { one ≤ result }
    ensures other { other ≤ result }
{
    if one < other { other } else { one }
}

/// How many places the widest answer at these seats needs, and how many nodes a level of the
/// replies to one may have.
fn rooms(seats: &[QuestionSeat]) -> (usize, usize)
    requires { (version : AnyVersion) × (depth : ℕ) × All (CanAsk version depth) seats.now }
    ensures places { All (λ s. places_at s ≤ result.0) seats.now }
    ensures nodes { All (λ s. nodes_at s ≤ result.1) seats.now }
{
    let mut places = 0;
    let mut nodes = 0;
    for seat in seats.iter() {
        places = greater(places, seat.places());
        nodes = greater(nodes, seat.nodes());
    }
    (places, nodes)
}

/// The first of these questions that may not be asked, where they are counted from 1.
fn first_refusal(seats: &[QuestionSeat], weights: &Weights) -> Option<Status>
    requires most { length seats.now ≤ most_queries }
    requires can { (version : AnyVersion) × (depth : ℕ) × All (CanAsk version depth) seats.now }
    ensures { result ≡ first_by (refusal_at (weight_in weights.now)) 1 seats.now }
{
    for (index, seat) in seats.iter().enumerate() {
        if let Some(status) = seat.refusal(index as u8 + 1, weights) {
            return Some(status);
        }
    }
    None
}

impl QuestionAsker {
    /// Asks the questions of these seats in order, in a version in which each can be asked.
    /// `weights` are those of the stream that the seats stand for.
    ///
    /// Takes a frame of 8,709 bytes, and 16 bytes for each entry that the widest answer may have:
    /// 65,536 where a lookup is asked, one for each item of a sub-vector, up to as many, and
    /// 2 * floor(n / T) where heavy hitters or large entries are asked for, which takes 64 bytes
    /// more for each.
    /// After that no call takes memory.
    ///
    /// # Errors
    ///
    /// `TooWide` and `TooHigh` exactly for the first question that a helper may have no room to
    /// answer, by its number; else `OutOfMemory`. The seats are then dropped.
    #[inline(never)]
    pub fn new(
        alloc: Global,
        version: Version,
        depth: Depth,
        seats: Vec<QuestionSeat>,
        weights: &Weights,
    ) -> Result<QuestionAsker, Status>
        requires most { length seats.items ≤ most_queries }
        requires shallow { depth ≤ deepest version }
        requires can { All (CanAsk version depth) seats.items }
        ensures { Starts version depth (weight_in weights.now) seats.items result }
    {
        if let Some(status) = first_refusal(&seats, weights) {
            return Err(status);
        }
        let Ok(frame) = Frame::new(alloc) else {
            return Err(Status::OutOfMemory);
        };
        let (places, nodes) = rooms(&seats);
        let Ok(entries) = Vec::with_capacity(alloc, places) else {
            return Err(Status::OutOfMemory);
        };
        let Ok(space) = HeavySpace::reserve(alloc, nodes) else {
            return Err(Status::OutOfMemory);
        };
        Ok(QuestionAsker {
            version,
            depth,
            seats,
            asked: 0,
            frame,
            entries,
            space: Some(space),
            is_spent: false,
        })
    }

    /// The pairs of the last answer of pairs, rising.
    pub fn entries(&self) -> &[Entry]
        ensures { result.now ≡ self.now.entries }
    {
        &self.entries
    }
}

impl Asker for QuestionAsker {
    ghost use Rattle.sip_questions.specs.declared.question.Question.{Question as AnyQuestion};
    ghost use Rattle.sip_questions.specs.LawProofs.Waiting.{waits_lawful};
    ghost use Rattle.sip_questions.specs.Questions.{Answered, asking as asking_questions};
    ghost use Rattle.sip_questions.specs.Sittings.{StandsOn, States, remaining_of};

    type Given = QuestionGiven;

    ghost Query = { AnyQuestion };

    ghost Answer = { Answered };

    ghost asking = { asking_questions };

    ghost remaining = { remaining_of };

    ghost stands = { StandsOn };

    ghost states = { States };

    ghost lawful = { waits_lawful };

    fn left(&self) -> usize {
        self.seats.len() - self.asked
    }

    fn ask_next<L: Link, C: Sink>(
        &mut self,
        link: &mut L,
        keep: &mut C,
    ) -> Result<QuestionGiven, Unanswered> {
        let seats = &self.seats;
        let seat = &seats[self.asked];
        let asked = ask_question(
            self.version,
            self.depth,
            seat,
            link,
            keep,
            &mut self.frame,
            &mut self.entries,
            &mut self.space,
        );
        self.asked += 1;
        self.is_spent = has_failed(&asked);
        asked
    }

    fn write_line<K: Sink>(&self, given: &QuestionGiven, report: &mut K) -> Result<(), PortStop> {
        match given {
            QuestionGiven::Number { query, value } => write_number(report, query, *value),
            QuestionGiven::Pairs { query } => write_pairs(report, query, &self.entries),
            QuestionGiven::Lookup { lookup, answer } => write_look(report, *lookup, *answer),
            QuestionGiven::Moment { moment, value } => write_moment(report, *moment, *value),
            QuestionGiven::Large { large } => write_pairs(report, &large.query(), &self.entries),
        }
    }

    #[inline(never)]
    fn say_farewell<L: Link>(&self, link: &mut L) -> Result<(), PortStop> {
        encode(&Message::Bye, self.version, link)
    }
}

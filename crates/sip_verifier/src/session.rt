//! The queries of a run, asked one after another.

ghost use Rattle.std.specs.Prelude.{◌≡◌, ◌≢◌, ◌⊎◌, ◌<◌, ◌≤◌, ◌^◌, All, ℕ, List, [], ◌∷◌, true};
ghost use Rattle.std.specs.Prelude.{false, length, drop, vec_len, IsTrue, MatchResult, Ok, Err};
ghost use Rattle.std.specs.Prelude.{is_err};
ghost use Rattle.std.specs.List.{list_all};
ghost use Rattle.sip_ports.specs.Ports.{Lasts};
ghost use Rattle.sip_vector.specs.declared.query.Query.{Query as AnyQuery};
ghost use Rattle.sip_vector.specs.declared.update.Update.{Update as AnyUpdate};
ghost use Rattle.sip_vector.specs.Streams.{IsLegal};
ghost use Rattle.sip_wire.specs.Versions.{Speaks, deepest, speaks};
ghost use Rattle.sip_verifier.specs.AskClause.{AskClause, came_of};
ghost use Rattle.sip_verifier.specs.Asking.{AnswersCount, Asks};
ghost use Rattle.sip_verifier.specs.inside.Judging.{are_enough, lends_enough};
ghost use Rattle.sip_verifier.specs.NextSeat.{IsNext};
ghost use Rattle.sip_verifier.specs.QuerySeats.{Seated, is_seat};
ghost use Rattle.sip_verifier.specs.ReplyBound.{ReplyBound};
ghost use Rattle.sip_verifier.specs.Rooms.{most_nodes, most_places};
ghost use Rattle.sip_verifier.specs.Snapshots.{span};
ghost use Rattle.sip_verifier.specs.Widths.{first_wide_seat};
ghost use Rattle.sip_wire.specs.Table.{most_queries};
ghost use Rattle.sip_verifier.specs.Sittings.{Starts};

use crate::Seats;
use crate::seat::QuerySeat;
use crate::seat_asking::{ask_by_kind, found_in, verdict_of};
use sip_field::OutOfMemory;
use sip_heavy::HeavySpace;
use sip_ports::{Link, Sink};
use sip_vector::{Entry, Query};
use sip_wire::{Frame, Reason, Version};
use std::alloc::Global;
use std::marker::Model;

/// Why there is no session.
#[derive(Clone, Copy, Debug, PartialEq, Eq)]
pub enum SessionStart {
    /// The answer of this query, counted from 1, may have too many entries.
    TooWide { query: u8 },
    /// Memory ran out.
    OutOfMemory,
}

/// What came of a query.
#[derive(Clone, Copy, Debug, PartialEq, Eq)]
pub enum Verdict {
    /// Its replies were accepted, and this number is the answer.
    Number(i64),
    /// Its replies were accepted, and the pairs of [`Session::entries`] are the answer.
    Pairs,
    /// Its replies have this first fault; `round` is the number of the reply, or the depth for the
    /// tests after the last one.
    Rejected { round: u8, reason: Reason },
}

/// Why a query has no verdict.
#[derive(Clone, Copy, Debug, PartialEq, Eq)]
pub enum SessionFault {
    /// A call of the link failed.
    PeerFault,
    /// A call of the sink that keeps the talk failed.
    KeepFault,
    /// A port ran out of memory.
    OutOfMemory,
}

/// The queries of a run after the stream was sent. All memory is taken when it is made: a frame,
/// and room for the entries of the longest answer.
#[derive(Drop)]
pub struct Session {
    seats: Seats,
    version: Version,
    // The number of queries that were asked or passed over.
    asked: usize,
    frame: Frame,
    // Room for the entries of an answer, of which the first `found` are those of the last one.
    entries: Vec<Entry>,
    found: usize,
    // Room for the nodes of the replies on heavy hitters, which is lent from query to query.
    space: Option<HeavySpace>,
    is_spent: bool,
    ghost within: { asked ≤ length seats.seats },
    ghost shallow: { seats.depth ≤ deepest version },
    ghost spoken: { IsTrue (list_all (λ s. speaks version s.query) seats.seats) },
    ghost shown: { found ≤ vec_len entries },
    ghost room: { IsTrue (are_enough most_places (vec_len entries) seats.seats) },
    ghost lent: { IsTrue (lends_enough space seats.seats) },
}

impl Model for Session {
    ghost use Rattle.std.specs.Prelude.{drop, take};
    ghost use Rattle.sip_verifier.specs.Sittings.{Sitting};

    ghost Value = { Sitting };

    ghost view = { λ s. record {
      version = s.version;
      depth = s.seats.depth;
      left = drop s.asked s.seats.seats;
      entries = take s.found s.entries.items;
      spent = s.is_spent;
    } };
}

/// The greater of two numbers.
fn greater(one: usize, other: usize) -> usize
    ensures one { one ≤ result }
    ensures other { other ≤ result }
{
    if one < other { other } else { one }
}

/// How many places the longest answer of these seats needs, and how many nodes a level of the
/// replies to one may have.
fn rooms(seats: &[QuerySeat]) -> (usize, usize)
    requires each { (depth : ℕ) × IsTrue (list_all (is_seat depth) seats.now) }
    ensures places { IsTrue (are_enough most_places result.0 seats.now) }
    ensures nodes { IsTrue (are_enough most_nodes result.1 seats.now) }
{
    let mut places = 0;
    let mut nodes = 0;
    for seat in seats.iter() {
        places = greater(places, seat.most_places());
        nodes = greater(nodes, seat.most_nodes());
    }
    (places, nodes)
}

/// The number of the first of these seats, counted from 1, whose answer may be too wide.
fn first_wide(seats: &[QuerySeat]) -> Option<u8>
    requires most { length seats.now ≤ most_queries }
    requires each { (depth : ℕ) × IsTrue (list_all (is_seat depth) seats.now) }
    ensures { result ≡ first_wide_seat seats.now }
{
    for (index, seat) in seats.iter().enumerate() {
        if seat.is_wide() {
            return Some(index as u8 + 1);
        }
    }
    None
}

impl Session {
    /// A session that asks the queries of these seats in order, in a version in which each can be
    /// asked.
    ///
    /// Takes a frame of 8,709 bytes, and 16 bytes for each entry that the longest answer may have:
    /// at most 65,536 of a sub-vector, and 2 * floor(n / T) where heavy hitters are asked for,
    /// which takes 64 bytes more for each. After that no call takes memory.
    ///
    /// # Errors
    ///
    /// `TooWide` exactly for the first query for heavy hitters whose total n reaches its threshold
    /// T with more than 65,536 for floor(n / T); else `OutOfMemory`. The seats are then dropped.
    #[inline(never)]
    pub fn new(alloc: Global, version: Version, seats: Seats) -> Result<Session, SessionStart>
        requires { All (λ s. Speaks version seats.depth s.query) seats.seats }
        ensures { Starts version seats result }
    {
        let frame = Frame::new(alloc);
        Session::over(alloc, version, seats, frame)
    }

    // The same over a frame that was made before, where there was memory for one.
    #[inline(always)]
    fn over(
        alloc: Global,
        version: Version,
        seats: Seats,
        frame: Result<Frame, OutOfMemory>,
    ) -> Result<Session, SessionStart>
        requires { All (λ s. Speaks version seats.depth s.query) seats.seats }
        ensures { Starts version seats result }
    {
        if let Some(query) = first_wide(seats.all()) {
            return Err(SessionStart::TooWide { query });
        }
        let Ok(frame) = frame else {
            return Err(SessionStart::OutOfMemory);
        };
        let (places, nodes) = rooms(seats.all());
        let Ok(entries) = vec![in alloc; Entry { index: 0, value: 0 }; places] else {
            return Err(SessionStart::OutOfMemory);
        };
        let Ok(space) = HeavySpace::reserve(alloc, nodes) else {
            return Err(SessionStart::OutOfMemory);
        };
        Ok(Session {
            seats,
            version,
            asked: 0,
            frame,
            entries,
            found: 0,
            space: Some(space),
            is_spent: false,
        })
    }

    /// [`Session::new`] on the heap: a session is large, since it has the seats of 16 queries.
    ///
    /// # Errors
    ///
    /// Those of [`Session::new`]; `OutOfMemory` also where there is no room for the session itself.
    pub fn boxed(
        alloc: Global,
        version: Version,
        seats: Seats,
    ) -> Result<Box<Session>, SessionStart>
        requires { All (λ s. Speaks version seats.depth s.query) seats.seats }
        ensures { MatchResult result (λ session. Starts version seats (Ok session.value))
            (λ start. Starts version seats (Err start)) }
    {
        let frame = Frame::new(alloc);
        Session::boxed_over(alloc, version, seats, frame)
    }

    /// [`Session::boxed`] over a frame that was made before, where there was memory for one: to
    /// make a frame takes 12 KiB of the stack, and to move the seats of a session not much less.
    #[inline(never)]
    pub(crate) fn boxed_over(
        alloc: Global,
        version: Version,
        seats: Seats,
        frame: Result<Frame, OutOfMemory>,
    ) -> Result<Box<Session>, SessionStart>
        requires { All (λ s. Speaks version seats.depth s.query) seats.seats }
        ensures { MatchResult result (λ session. Starts version seats (Ok session.value))
            (λ start. Starts version seats (Err start)) }
    {
        let session = Session::over(alloc, version, seats, frame)?;
        match Box::new(alloc, session) {
            Ok(session) => Ok(session),
            Err(_) => Err(SessionStart::OutOfMemory),
        }
    }

    /// The version of its talk.
    pub(crate) fn version(&self) -> Version
        ensures { result ≡ self.now.version }
    {
        self.version
    }

    /// The query that is asked next.
    pub(crate) fn next_query(&self) -> Query
        requires { 0 < length self.now.left }
        ensures { (seat : Seated) (more : List Seated) → self.now.left ≡ seat ∷ more
            → result ≡ seat.query }
    {
        let seats = self.seats.all();
        let seat = &seats[self.asked];
        seat.query
    }

    /// How many queries were neither asked nor passed over yet.
    pub fn left(&self) -> usize
        ensures { result ≡ length self.now.left }
    {
        self.seats.all().len() - self.asked
    }

    /// The pairs of the last verdict, rising. There are none before the first, and none where it
    /// was no verdict of pairs.
    pub fn entries(&self) -> &[Entry]
        ensures { result.now ≡ self.now.entries }
    {
        &self.entries[..self.found]
    }

    /// Asks the next query, takes the replies and judges them.
    ///
    /// A challenge leaves only after the reply before it was taken and passed its tests, and the
    /// last challenge never leaves. No byte is received behind the one that shows the verdict.
    /// Takes no memory; the time is linear in the replies. These have no more bytes than
    /// `ReplyBound` says, whatever the other end sends and however it is cut.
    ///
    /// `keep` gets each frame's bytes as soon as they came, before they are judged; of a frame that
    /// the link's failure cut, it gets none.
    ///
    /// # Errors
    ///
    /// `PeerFault`: a reply is then missing or not whole, and those before it have no fault.
    /// `KeepFault`: what came of the last reply was not judged. `OutOfMemory` is the one or the
    /// other. Each comes only where that port's own count of them rose. After an error the session
    /// is spent; after a rejection the next query may be asked.
    pub fn ask<L: Link, C: Sink>(
        &mut self,
        link: &mut L,
        keep: &mut C,
    ) -> Result<Verdict, SessionFault>
        requires left { 0 < length self.old.left }
        requires live { self.old.spent ≡ false }
        ensures asks { (stream : List AnyUpdate) (query : AnyQuery) (seat : Seated)
            → IsNext self.old.depth stream self.old.left query seat
            → Asks self.old.version self.old.depth stream query seat.block (L.talk link.old)
            (L.talk link.new) self.new.entries result }
        ensures count { (stream : List AnyUpdate) (query : AnyQuery) (seat : Seated)
            → IsNext self.old.depth stream self.old.left query seat
            → IsLegal self.old.depth stream
            → AnswersCount self.old.version self.old.depth stream query seat.block (L.talk link.old)
            (L.talk link.new) self.new.entries result }
        ensures bound { (stream : List AnyUpdate) (query : AnyQuery) (seat : Seated)
            → IsNext self.old.depth stream self.old.left query seat
            → ReplyBound self.old.version self.old.depth stream query (L.talk link.old)
            (L.talk link.new) }
        ensures next { self.new.left ≡ drop 1 self.old.left }
        ensures version { self.new.version ≡ self.old.version }
        ensures depth { self.new.depth ≡ self.old.depth }
        ensures spent { self.new.spent ≡ is_err result }
        ensures cleared { result ≢ Ok Verdict.Pairs → self.new.entries ≡ [] }
        ensures keeps { AskClause self.old.version
            (span L.talk L.faults L.wants link.old link.new)
            (span C.talk C.faults C.wants keep.old keep.new) (came_of result) }
        ensures link { Lasts L.faults L.wants L.is_sure link.old link.new }
        ensures keep { Lasts C.faults C.wants C.is_sure keep.old keep.new }
    {
        let seats = self.seats.all();
        let seat = &seats[self.asked];
        let asked = ask_by_kind(
            self.version,
            seat,
            &mut self.entries,
            &mut self.frame,
            &mut self.space,
            link,
            keep,
        );
        self.asked += 1;
        self.found = found_in(self.entries.len(), &asked);
        let verdict = verdict_of(asked);
        self.is_spent = verdict.is_err();
        verdict
    }

    /// Passes over the next query: nothing is said for it, and its challenges stay unused.
    pub fn skip(&mut self)
        requires left { 0 < length self.old.left }
        ensures next { self.new.left ≡ drop 1 self.old.left }
        ensures version { self.new.version ≡ self.old.version }
        ensures depth { self.new.depth ≡ self.old.depth }
        ensures entries { self.new.entries ≡ self.old.entries }
        ensures spent { self.new.spent ≡ self.old.spent }
    {
        let count = self.seats.all().len();
        prove!(self.asked < count);
        self.asked += 1;
    }
}

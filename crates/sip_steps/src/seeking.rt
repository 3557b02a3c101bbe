//! How a lookup that is asked without a link goes on.

ghost use Rattle.std.specs.Prelude.{◌≡◌, ◌≤◌, ◌<◌, ◌^◌, ◌++◌, [], List, false, true};
ghost use Rattle.std.specs.Prelude.{IfOk, OnErr, OnOk, None, Ok, length, take};
ghost use Rattle.sip_ports.specs.declared.port.TalkEvent.{TalkEvent as AnyEvent};
ghost use Rattle.sip_ports.specs.Ports.{HasCause, SendsWhole, ins, outs};
ghost use Rattle.sip_wire.specs.Frames.{frame_bytes};
ghost use Rattle.sip_wire.specs.Spelling.{spelling};
ghost use Rattle.sip_wire.specs.Versions.{deepest};
ghost use Rattle.sip_lookup.specs.Frames.{ask_message};
ghost use Rattle.sip_lookup.specs.Lookups.{item_of, range_of};
ghost use Rattle.sip_lookup.specs.Sittings.{looked_of};
ghost use Rattle.sip_steps.specs.Looked.{AsksFor, AsksSame, HasLooked, HasPlaces, IsLooked};
ghost use Rattle.sip_steps.specs.Looked.{IsLookedBy};
ghost use Rattle.sip_steps.specs.Looked.{IsSeeking, IsShown, SaysFound, SaysLooked, asked_for};
ghost use Rattle.sip_steps.specs.Looked.{due_of, end_at, is_due_at, is_hearing_at, looked_by};
ghost use Rattle.sip_steps.specs.Looked.{result_map};

use crate::asking::Asking;
use crate::beginning::{most_pairs, places_for};
use crate::found::take_found;
use crate::looking::{LookStep, Looking, Room};
use crate::opening::Opening;
use sip_field::{M61, OutOfMemory};
use sip_lookup::{LookAnswer, Lookup};
use sip_ports::{Link, PortStop};
use sip_replies::{AskStop, Said};
use sip_subvec::SubAsking;
use sip_tree::Root;
use sip_vector::{CAP, Depth, Entry, Query};
use sip_verifier::Unanswered;
use sip_wire::{Frame, Message, Reason, Version, encode};
use std::alloc::Global;
use std::mem;

// The widest interval that may prove a place.
fn widest(lookup: Lookup, depth: Depth) -> (u64, u64)
    requires item { item_of lookup < 2 ^ depth }
    ensures same { result ≡ range_of depth lookup None }
    ensures order { result.0 ≤ result.1 }
{
    match lookup {
        Lookup::Index(item) => (item, item),
        Lookup::Pred(item) => (0, item),
        Lookup::Succ(item) => (item, (1 << depth.get()) - 1),
    }
}

// Sends an Ask.
fn send_ask<L: Link>(lookup: Lookup, version: Version, out: &mut L) -> Result<(), PortStop>
    ensures talk { SendsWhole (L.talk out.old) (L.talk out.new) result
        (spelling version (ask_message lookup)) }
    ensures cause { HasCause L.faults L.wants L.is_sure out.old out.new result }
{
    let ask = Message::AskLook {
        code: lookup.code(),
        item: lookup.item(),
    };
    encode(&ask, version, out)
}

impl Looking {
    /// Before anything was said, by the root of side 0. It serves this lookup alone: the other end
    /// knows all but one of its challenges from then on.
    ///
    /// Takes a frame of 8,709 bytes, and 16 bytes for each entry that the answer may have: one at
    /// an item, and else one for each item on its side, up to 65,536.
    ///
    /// # Errors
    ///
    /// `OutOfMemory` where there is none for these.
    pub fn begin(
        alloc: Global,
        version: Version,
        depth: Depth,
        lookup: Lookup,
        root: Root<M61, CAP>,
    ) -> Result<Looking, OutOfMemory>
        requires levels { length root.seat ≡ depth }
        requires shallow { depth ≤ deepest version }
        requires item { item_of lookup < 2 ^ depth }
        ensures begun { IfOk result HasLooked }
        ensures asks { IfOk result (AsksFor version depth lookup root.seat root.value) }
        ensures looked { IfOk result (IsLooked root.seat root.value []) }
    {
        let frame = Frame::new(alloc)?;
        let (lo, hi) = widest(lookup, depth);
        let places = places_for(alloc, most_pairs(lo, hi))?;
        let step = LookStep::Place {
            room: Room { frame, places },
            is_asked: false,
        };
        Ok(Looking {
            version,
            depth,
            lookup,
            root,
            step,
        })
    }

    /// Bytes are to be sent.
    pub fn is_due(&self) -> bool
        ensures { result ≡ is_due_at self.now.step }
    {
        match &self.step {
            LookStep::Place { is_asked, .. } => !*is_asked,
            LookStep::Refused(_) => false,
            LookStep::Proves { asking, .. } => asking.is_due(),
        }
    }

    /// Bytes are to come.
    pub fn is_waiting(&self) -> bool
        ensures { result ≡ is_hearing_at self.now.step }
    {
        match &self.step {
            LookStep::Place { is_asked, .. } => *is_asked,
            LookStep::Refused(_) => false,
            LookStep::Proves { asking, .. } => asking.is_waiting(),
        }
    }

    /// Sends what is due, each byte once, and nothing where nothing is due.
    ///
    /// # Errors
    ///
    /// Those of the link, which a front of what is due has then reached that is shorter than it.
    /// All of it is due as before.
    pub fn due<L: Link>(&mut self, out: &mut L) -> Result<(), PortStop>
        requires begun { HasLooked self.old }
        ensures begun { HasLooked self.new }
        ensures asks { AsksSame self.old self.new }
        ensures talk { SendsWhole (L.talk out.old) (L.talk out.new) result
            (due_of self.old.version self.old.lookup self.old.step) }
        ensures looked { (events : List AnyEvent)
            → IsLooked self.old.root.seat self.old.root.value events self.old
            → OnOk result (IsLooked self.old.root.seat self.old.root.value
            (events ++ outs (due_of self.old.version self.old.lookup self.old.step)) self.new) }
        ensures once { OnOk result (is_due_at self.new.step ≡ false) }
        ensures same { OnErr result (self.new ≡ self.old) }
        ensures cause { HasCause L.faults L.wants L.is_sure out.old out.new result }
    {
        let version = self.version;
        let lookup = self.lookup;
        match &mut self.step {
            LookStep::Place { is_asked, .. } => {
                if *is_asked {
                    return Ok(());
                }
                send_ask(lookup, version, out)?;
                *is_asked = true;
                Ok(())
            }
            LookStep::Refused(_) => Ok(()),
            LookStep::Proves { asking, .. } => asking.due(out),
        }
    }

    // The step behind a place that was told, whose bytes are in the frame of this room. Where it
    // may be found, the entries that prove it are asked for.
    fn told(&self, mut room: Room, found: Option<u64>) -> LookStep
        requires shown { IsShown self.now.version (frame_bytes room.frame) (Ok found) }
        requires places { HasPlaces self.now.depth self.now.lookup room.places.items }
        ensures silent { is_hearing_at result ≡ false }
        ensures looked { IsLookedBy self.now.version self.now.depth self.now.lookup
            self.now.root.seat self.now.root.value
            (asked_for self.now.version self.now.lookup ++ ins (frame_bytes room.frame)) result }
    {
        if !self.lookup.is_possible(self.depth, found) {
            return LookStep::Refused(Reason::BadFound);
        }
        let (lo, hi) = self.lookup.interval(self.depth, found);
        let check = SubAsking::start(&self.root, lo, hi);
        let opening = Opening::Query(Query::Sub { lo, hi });
        room.frame.clear();
        let asking = Asking::over(check, self.version, opening, room.places, room.frame);
        LookStep::Proves { found, asking }
    }

    // The step behind bytes of the Found, which are in the frame of this room and say this.
    fn heard(&self, room: Room, said: Option<Result<Option<u64>, Reason>>) -> LookStep
        requires says { SaysFound self.now.version (frame_bytes room.frame) said }
        requires places { HasPlaces self.now.depth self.now.lookup room.places.items }
        ensures part { is_hearing_at result ≡ true → said ≡ None }
        ensures looked { IsLookedBy self.now.version self.now.depth self.now.lookup
            self.now.root.seat self.now.root.value
            (asked_for self.now.version self.now.lookup ++ ins (frame_bytes room.frame)) result }
    {
        match said {
            None => LookStep::Place {
                room,
                is_asked: true,
            },
            Some(Err(reason)) => LookStep::Refused(reason),
            Some(Ok(found)) => self.told(room, found),
        }
    }

    // Takes bytes of the Found.
    fn seek(&mut self, bytes: &[u8]) -> usize
        requires seeks { IsSeeking self.old.version self.old.depth self.old.lookup self.old.step }
        ensures asks { AsksSame self.old self.new }
        ensures most { result ≤ length bytes.now }
        ensures all { is_hearing_at self.new.step ≡ true → result ≡ length bytes.now }
        ensures looked { (events : List AnyEvent)
            → IsLooked self.old.root.seat self.old.root.value events self.old
            → IsLooked self.old.root.seat self.old.root.value
            (events ++ ins (take result bytes.now)) self.new }
    {
        let before = mem::replace(&mut self.step, LookStep::Refused(Reason::Closed));
        let LookStep::Place { mut room, .. } = before else {
            unreachable!()
        };
        let (taken, said) = take_found(self.version, &mut room.frame, bytes);
        self.step = self.heard(room, said);
        taken
    }

    /// Takes bytes that came, in any pieces, and answers how many. It takes all of them while it
    /// waits, and none behind a verdict, or behind a whole reply where bytes are due: those stay
    /// with the caller.
    pub fn feed(&mut self, bytes: &[u8]) -> usize
        requires begun { HasLooked self.old }
        ensures begun { HasLooked self.new }
        ensures asks { AsksSame self.old self.new }
        ensures most { result ≤ length bytes.now }
        ensures all { is_hearing_at self.new.step ≡ true → result ≡ length bytes.now }
        ensures none { is_hearing_at self.old.step ≡ false → result ≡ 0 }
        ensures looked { (events : List AnyEvent)
            → IsLooked self.old.root.seat self.old.root.value events self.old
            → IsLooked self.old.root.seat self.old.root.value
            (events ++ ins (take result bytes.now)) self.new }
    {
        if !self.is_waiting() {
            return 0;
        }
        match &mut self.step {
            LookStep::Proves { asking, .. } => asking.feed(bytes),
            _ => self.seek(bytes),
        }
    }

    /// The other end closed: where bytes were to come, the lookup is rejected for that.
    pub fn close(&mut self)
        requires begun { HasLooked self.old }
        ensures begun { HasLooked self.new }
        ensures asks { AsksSame self.old self.new }
        ensures closed { is_hearing_at self.new.step ≡ false }
        ensures looked { (events : List AnyEvent)
            → IsLooked self.old.root.seat self.old.root.value events self.old
            → IsLooked self.old.root.seat self.old.root.value (events ++ end_at self.old.step)
            self.new }
    {
        if !self.is_waiting() {
            return;
        }
        match &mut self.step {
            LookStep::Proves { asking, .. } => asking.close(),
            _ => self.step = LookStep::Refused(Reason::Closed),
        }
    }

    /// What came of the lookup, once all is known: its answer, or the first fault of the replies.
    pub fn verdict(&self) -> Option<Result<LookAnswer, Unanswered>>
        ensures { SaysLooked self.now.depth self.now.lookup self.now.step result }
    {
        match &self.step {
            LookStep::Place { .. } => None,
            LookStep::Refused(reason) => Some(Err(Unanswered::Rejected {
                round: 0,
                reason: *reason,
            })),
            LookStep::Proves { found, asking } => {
                let asked = asking.verdict()?;
                Some(judged(self.depth, self.lookup, *found, asking.pairs(), asked))
            }
        }
    }
}

// The answer that the entries of the interval state, where they stand alone.
fn judged(
    depth: Depth,
    lookup: Lookup,
    found: Option<u64>,
    entries: &[Entry],
    asked: Result<Said, AskStop>,
) -> Result<LookAnswer, Unanswered>
    ensures { result_map looked_of result ≡ looked_by depth lookup found entries.now asked }
{
    match asked {
        Ok(Said::Pairs(_)) if lookup.is_alone(found, entries) => Ok(lookup.answer(entries)),
        // A sub-vector's answer is no number, which would not be its entries alone.
        Ok(_) => Err(Unanswered::Rejected {
            round: depth.get(),
            reason: Reason::NotAlone,
        }),
        Err(stop) => Err(Unanswered::from(stop)),
    }
}

//! The lookups of a run, asked one after another.

ghost use Rattle.std.specs.Prelude.{◌≡◌, ◌≤◌, ◌^◌, ℕ, All, IsTrue, List, false};
ghost use Rattle.std.specs.Prelude.{length, nat_lt, vec_capacity};
ghost use Rattle.std.specs.List.{list_all, zip};
ghost use Rattle.sip_subvec.specs.Replies.{most_entries};
ghost use Rattle.sip_wire.specs.Versions.{deepest};
ghost use Rattle.sip_verifier.specs.SeatNumbers.{has_root, queries_of};
ghost use Rattle.sip_lookup.specs.Lookups.{CanLook, item_of};

use crate::answer::{LookAnswer, write_look};
use crate::look_asking::ask_look;
use crate::lookup::Lookup;
use crate::task::LookTask;
use arrayvec::ArrayVec;
use sip_ports::{Link, PortStop, Sink};
use sip_vector::{Depth, Entry};
use sip_verifier::{Asker, Seats, Unanswered, has_failed};
use sip_wire::{Frame, MOST_QUERIES, Message, Version, encode};
use std::marker::Model;

/// An answer that was accepted.
#[derive(Clone, Copy, Debug)]
pub struct LookGiven {
    /// The lookup that was answered.
    lookup: Lookup,
    /// Its answer.
    answer: LookAnswer,
}

/// The lookups of a run after the stream was sent, each with its own root of side 0. All memory is
/// taken when it is made: a frame, and room for the entries of the longest answer.
#[derive(Drop)]
pub(crate) struct Looker {
    // A seat for each lookup.
    seats: Seats,
    depth: Depth,
    version: Version,
    lookups: ArrayVec<Lookup, MOST_QUERIES>,
    // The number of lookups that were asked.
    asked: usize,
    frame: Frame,
    entries: Vec<Entry>,
    is_spent: bool,
    ghost levels: { seats.depth ≡ depth },
    ghost each: { length seats.seats ≡ length lookups.items },
    ghost rooted: { IsTrue (list_all (λ s. has_root s.query) seats.seats) },
    ghost within: { asked ≤ length lookups.items },
    ghost items: { IsTrue (list_all (λ l. nat_lt (item_of l) (2 ^ depth)) lookups.items) },
    ghost shallow: { depth ≤ deepest version },
    ghost room: { most_entries ≤ vec_capacity entries },
}

impl Model for Looker {
    ghost use Rattle.std.specs.Prelude.{drop};
    ghost use Rattle.std.specs.List.{zip};
    ghost use Rattle.sip_lookup.specs.Sittings.{LookSitting};

    ghost Value = { LookSitting };

    ghost view = { λ s. record {
      version = s.version;
      depth = s.depth;
      left = drop s.asked (zip s.lookups.items s.seats.seats);
      spent = s.is_spent;
    } };
}

impl Looker {
    ghost use Rattle.sip_lookup.specs.Tasks.{CanLookUp, version_of};

    /// The lookups of a task, over seats that were gathered for it, with a frame and room for the
    /// entries of the longest answer. It is made within its caller, which spares the stack copies
    /// of the seats.
    #[inline(always)]
    pub(crate) fn new(task: &LookTask, seats: Seats, frame: Frame, entries: Vec<Entry>) -> Looker
        requires can { CanLookUp task.now }
        requires levels { seats.depth ≡ task.now.depth }
        requires each { length seats.seats ≡ length task.now.lookups.items }
        requires rooted { IsTrue (list_all (λ s. has_root s.query) seats.seats) }
        requires room { most_entries ≤ vec_capacity entries }
        ensures { result ≡ record {
          version = version_of task.now;
          depth = task.now.depth;
          left = zip task.now.lookups.items seats.seats;
          spent = false;
        } }
    {
        let levels = task.depth.get();
        prove!(levels <= Depth::MOST);
        let mut lookups = ArrayVec::new();
        let copied = lookups.try_extend_from_slice(&task.lookups).is_ok();
        prove!(copied);
        Looker {
            seats,
            depth: task.depth,
            version: task.version(),
            lookups,
            asked: 0,
            frame,
            entries,
            is_spent: false,
        }
    }
}

impl Asker for Looker {
    ghost use Rattle.sip_lookup.specs.declared.lookup.Lookup.{Lookup as AnyLookup};
    ghost use Rattle.sip_lookup.specs.Lookups.{Looked};
    ghost use Rattle.sip_lookup.specs.Questions.{looking};
    ghost use Rattle.sip_lookup.specs.LawProofs.Waiting.{waits_lawful};
    ghost use Rattle.sip_lookup.specs.Sittings.{IsGiven, StandsOn, remaining_of};

    type Given = LookGiven;

    ghost Query = { AnyLookup };

    ghost Answer = { Looked };

    ghost asking = { looking };

    ghost remaining = { remaining_of };

    ghost stands = { StandsOn };

    ghost states = { λ s. IsGiven };

    ghost lawful = { waits_lawful };

    fn left(&self) -> usize {
        self.lookups.len() - self.asked
    }

    fn ask_next<L: Link, C: Sink>(
        &mut self,
        link: &mut L,
        keep: &mut C,
    ) -> Result<LookGiven, Unanswered> {
        let lookup = self.lookups[self.asked];
        let seats = &self.seats;
        let Some(root) = seats.root(self.asked) else {
            unreachable!()
        };
        let asked = ask_look(
            self.version,
            root,
            self.depth,
            lookup,
            link,
            keep,
            &mut self.frame,
            &mut self.entries,
        );
        self.asked += 1;
        self.is_spent = has_failed(&asked);
        let answer = match asked {
            Ok(answer) => answer,
            Err(why) => return Err(why),
        };
        Ok(LookGiven { lookup, answer })
    }

    fn write_line<K: Sink>(&self, given: &LookGiven, report: &mut K) -> Result<(), PortStop> {
        write_look(report, given.lookup, given.answer)
    }

    #[inline(never)]
    fn say_farewell<L: Link>(&self, link: &mut L) -> Result<(), PortStop> {
        encode(&Message::End, self.version, link)
    }
}

//! What is done with a sketch that is asked without a link.

ghost use Rattle.std.specs.Prelude.{◌≡◌, ◌≢◌, ◌≤◌, ◌++◌, List, length, take, false, true};
ghost use Rattle.std.specs.Prelude.{OnErr, OnOk};
ghost use Rattle.sip_ports.specs.Ports.{HasCause, SendsWhole, ins, outs};
ghost use Rattle.sip_ports.specs.declared.port.TalkEvent.{TalkEvent as AnyEvent};
ghost use Rattle.sip_wire.specs.declared.message.Held.{Held as AnyHeld};
ghost use Rattle.sip_ask_steps.specs.Plans.{Plan};
ghost use Rattle.sip_ask_steps.specs.Steps.{Compares, HasBegun, IsDone, due_of, end_at};
ghost use Rattle.sip_ask_steps.specs.Steps.{is_hearing_at, stored_at, wants_at, wants_of};
ghost use Rattle.sip_ask_steps.specs.declared.step.Step.TheVariants as steps;
ghost use Rattle.sip_ask_steps.specs.declared.wants.Wants.TheVariants as wants;

use crate::hearing::{Says, take_held};
use crate::machine::SketchAsking;
use crate::step::Step;
use sip_ask::{AskStatus, held_by, recall};
use sip_ports::{Link, PortStop};
use sip_wire::{Held, Message, encode};
use std::mem;

// Whether the one is not the other.
fn is_other(held: &Held, kept: &Held) -> bool
    ensures other { result ≡ true → held.now ≢ kept.now }
    ensures same { result ≡ false → held.now ≡ kept.now }
{
    held != kept
}

impl SketchAsking {
    /// Sends what is due, each byte once, and nothing where nothing is due.
    ///
    /// # Errors
    ///
    /// Those of the link, which a front of what is due has then reached that is shorter than it.
    /// All of it is due as before.
    pub fn due<L: Link>(&mut self, out: &mut L) -> Result<(), PortStop>
        requires begun { HasBegun self.old }
        ensures begun { HasBegun self.new }
        ensures talk { SendsWhole (L.talk out.old) (L.talk out.new) result (due_of self.old) }
        ensures done { (p : Plan) (events : List AnyEvent) → IsDone p events self.old
            → OnOk result (IsDone p (events ++ outs (due_of self.old)) self.new) }
        ensures once { OnOk result (wants_at self.new.step ≢ wants.Due) }
        ensures same { OnErr result (self.new ≡ self.old) }
        ensures cause { HasCause L.faults L.wants L.is_sure out.old out.new result }
    {
        match &mut self.step {
            Step::Opening => {
                let depth = self.sketch.depth();
                let count = self.sketch.tally().count;
                recall(self.version, depth, count, out)?;
                self.go(Step::Hearing);
            }
            Step::Asking { asking } => {
                asking.due(out)?;
                self.settle();
            }
            Step::Leaving => {
                encode(&Message::Bye, self.version, out)?;
                self.go(Step::Ended(AskStatus::Accepted));
            }
            _ => {}
        }
        Ok(())
    }

    // The other end holds this. Where it is what the sketch is of, the first question has its turn.
    fn compare(&mut self, held: Held)
        requires heard { (p : Plan) × (events : List AnyEvent) × Compares p events held self.old }
        ensures done { (p : Plan) (events : List AnyEvent) → Compares p events held self.old
            → IsDone p events self.new }
        ensures silent { is_hearing_at self.new.step ≡ false }
    {
        let kept = held_by(&self.sketch.tally());
        if is_other(&held, &kept) {
            self.go(Step::Ended(AskStatus::OutOfStep { held, kept }));
            return;
        }
        self.turn();
    }

    // Takes bytes of what the other end holds.
    fn hear(&mut self, bytes: &[u8]) -> usize
        requires begun { HasBegun self.old }
        requires hears { self.old.step ≡ steps.Hearing }
        ensures most { result ≤ length bytes.now }
        ensures all { is_hearing_at self.new.step ≡ true → result ≡ length bytes.now }
        ensures done { (p : Plan) (events : List AnyEvent) → IsDone p events self.old
            → IsDone p (events ++ ins (take result bytes.now)) self.new }
    {
        let (taken, says) = take_held(self.version, &mut self.frame, bytes);
        match says {
            Says::Nothing => {}
            Says::Holds(held) => self.compare(held),
            Says::Other => self.go(Step::Ended(AskStatus::BadFrame)),
        }
        taken
    }

    /// Takes bytes that came, in any pieces, and answers how many. It takes all of them while it
    /// waits, and none behind the last byte that is awaited: those stay with the caller.
    pub fn feed(&mut self, bytes: &[u8]) -> usize
        requires begun { HasBegun self.old }
        ensures begun { HasBegun self.new }
        ensures most { result ≤ length bytes.now }
        ensures all { is_hearing_at self.new.step ≡ true → result ≡ length bytes.now }
        ensures none { is_hearing_at self.old.step ≡ false → result ≡ 0 }
        ensures done { (p : Plan) (events : List AnyEvent) → IsDone p events self.old
            → IsDone p (events ++ ins (take result bytes.now)) self.new }
    {
        match &mut self.step {
            Step::Hearing => self.hear(bytes),
            Step::Asking { asking } => {
                let taken = asking.feed(bytes);
                self.settle();
                taken
            }
            _ => 0,
        }
    }

    /// The other end closed: where bytes were to come, it ended for that.
    pub fn close(&mut self)
        requires begun { HasBegun self.old }
        ensures begun { HasBegun self.new }
        ensures closed { is_hearing_at self.new.step ≡ false }
        ensures done { (p : Plan) (events : List AnyEvent) → IsDone p events self.old
            → IsDone p (events ++ end_at self.old.step) self.new }
    {
        match &mut self.step {
            Step::Hearing => self.go(Step::Ended(AskStatus::PeerClosed)),
            Step::Asking { asking } => {
                asking.close();
                self.settle();
            }
            _ => {}
        }
    }

    /// The file that was to be stored is stored, so that no crash can undo it: only from here on
    /// bytes of the question are due, and its seat is used.
    pub fn stored(&mut self)
        requires begun { HasBegun self.old }
        ensures begun { HasBegun self.new }
        ensures on { wants_at self.new.step ≢ wants.Stores }
        ensures done { (p : Plan) (events : List AnyEvent) → IsDone p events self.old
            → IsDone p (events ++ stored_at self.old self.old.step) self.new }
    {
        match mem::replace(&mut self.step, Step::Leaving) {
            Step::Storing { asking } => {
                self.go(Step::Asking { asking });
                self.settle();
            }
            other => self.go(other),
        }
    }

    /// The answer was read: the next question has its turn, or the farewell behind the last one.
    pub fn next(&mut self)
        requires begun { HasBegun self.old }
        ensures begun { HasBegun self.new }
        ensures on { wants_at self.old.step ≡ wants.Answers
            → wants_at self.new.step ≡ wants_of self.old.left.items }
        ensures done { (p : Plan) (events : List AnyEvent) → IsDone p events self.old
            → IsDone p events self.new }
    {
        if self.answer().is_some() {
            self.turn();
        }
    }
}

//! A turn whose bytes come in any pieces, without a link: no call waits.
ghost use Rattle.std.specs.Prelude.{◌≡◌, ◌<◌, ◌≤◌, ◌++◌, ◌∷◌, [], ℕ, List, None, Some, true, false};
ghost use Rattle.std.specs.Prelude.{length, min, take};
ghost use Rattle.sip_ports.specs.declared.port.TalkEvent.{TalkEvent as AnyEvent};
ghost use Rattle.sip_ports.specs.declared.port.TalkEvent.TheVariants.{Ended};
ghost use Rattle.sip_ports.specs.Ports.{ins};
ghost use Rattle.sip_wire.specs.declared.message.Message.{Message as AnyMessage};
ghost use Rattle.sip_wire.specs.declared.message.Reason.TheVariants.{Closed};
ghost use Rattle.sip_wire.specs.Frames.{frame_bytes};
ghost use Rattle.sip_wire.specs.Spelling.{asked as asked_length};
ghost use Rattle.sip_replies.specs.Feeding.{IsFed};
ghost use Rattle.sip_replies.specs.Following.{Follows, IsAt, is_hearing, is_open};
ghost use Rattle.sip_replies.specs.Replies.{reason_of};
ghost use Rattle.sip_replies.specs.declared.turn.Stage.TheVariants as stages;

use crate::check::Check;
use crate::turn::Turn;
use sip_vector::Entry;
use sip_wire::{Frame, Place, Reason, Taken, WireFault};

// The fault of a frame, as the reason that it is.
fn reason_for(fault: WireFault) -> Reason
    ensures { result ≡ reason_of fault }
{
    match fault {
        WireFault::BadKind => Reason::BadKind,
        WireFault::BadLength => Reason::BadLength,
        WireFault::BadCount => Reason::BadCount,
        WireFault::BadNumber => Reason::BadNumber,
        WireFault::Closed | WireFault::PeerFault | WireFault::OutOfMemory => Reason::Closed,
    }
}

// The lesser of two numbers.
fn lesser(one: usize, other: usize) -> usize
    ensures one { result ≤ one }
    ensures other { result ≤ other }
    ensures some { 0 < one → 0 < other → 0 < result }
{
    if one < other { one } else { other }
}

impl Turn {
    // Looks at what came of a frame: a part, a message, which the check takes, or a fault.
    fn look<C: Check>(
        &mut self,
        check: &mut C,
        places: &mut [Entry],
        frame: &mut Frame,
        place: Place,
    )
        requires hears { self.old.stage ≡ stages.Hears }
        requires at { IsAt self.old (C.phase check.old) }
        requires stood { (asked : C.Asked) × (s : C.State)
            × C.stands asked s check.old places.old }
        requires most { length (frame_bytes frame.old)
            ≤ asked_length self.old.version place (frame_bytes frame.old) }
        ensures version { self.new.version ≡ self.old.version }
        ensures at { is_open self.new.stage ≡ true → IsAt self.new (C.phase check.new) }
        ensures block { is_open self.new.stage ≡ true
            → (C.phase check.new).block ≡ (C.phase check.old).block }
        ensures lent { C.lent check.new ≡ C.lent check.old }
        ensures places { length places.new ≡ length places.old }
        ensures stands { (asked : C.Asked) (s : C.State) → C.stands asked s check.old places.old
            → place ≡ (C.protocol asked).rules.place s → is_open self.new.stage ≡ true
            → (t : C.State) × C.stands asked t check.new places.new
            × (length (frame_bytes frame.new) < asked_length self.new.version
            ((C.protocol asked).rules.place t) (frame_bytes frame.new)) }
        ensures fed { (asked : C.Asked) (request : AnyMessage) (block : List ℕ)
            (before : List AnyEvent) → (C.phase check.old).block ≡ block
            → ((s : C.State) → C.stands asked s check.old places.old
            → place ≡ (C.protocol asked).rules.place s)
            → Follows (C.protocol asked) request block (Some []) (Some before) None None
            (λ s. C.stands asked s check.old places.old) places.old self.old
            → IsFed (C.protocol asked) request block (before ++ ins (frame_bytes frame.old))
            (λ s. C.stands asked s check.new places.new) places.new self.new
            (frame_bytes frame.new) }
    {
        match frame.judge(place, self.version()) {
            Taken::Part => {}
            Taken::Whole => {
                self.took(check, places, frame.message());
                frame.clear();
            }
            Taken::NoFrame(fault) => {
                self.refused(reason_for(fault));
                frame.clear();
            }
        }
    }

    // Takes bytes of the frame that is coming: at least one, and none behind it.
    fn piece<C: Check>(
        &mut self,
        check: &mut C,
        places: &mut [Entry],
        frame: &mut Frame,
        bytes: &[u8],
    ) -> usize
        requires some { 0 < length bytes.now }
        requires hears { self.old.stage ≡ stages.Hears }
        requires at { IsAt self.old (C.phase check.old) }
        requires stood { (asked : C.Asked) × (s : C.State) × C.stands asked s check.old places.old
            × (length (frame_bytes frame.old) < asked_length self.old.version
            ((C.protocol asked).rules.place s) (frame_bytes frame.old)) }
        ensures some { 0 < result }
        ensures most { result ≤ length bytes.now }
        ensures version { self.new.version ≡ self.old.version }
        ensures at { is_open self.new.stage ≡ true → IsAt self.new (C.phase check.new) }
        ensures block { is_open self.new.stage ≡ true
            → (C.phase check.new).block ≡ (C.phase check.old).block }
        ensures lent { C.lent check.new ≡ C.lent check.old }
        ensures places { length places.new ≡ length places.old }
        ensures stands { (asked : C.Asked) (s : C.State) → C.stands asked s check.old places.old
            → is_open self.new.stage ≡ true
            → (t : C.State) × C.stands asked t check.new places.new
            × (length (frame_bytes frame.new) < asked_length self.new.version
            ((C.protocol asked).rules.place t) (frame_bytes frame.new)) }
        ensures fed { (asked : C.Asked) (request : AnyMessage) (block : List ℕ)
            (events : List AnyEvent) → (C.phase check.old).block ≡ block
            → IsFed (C.protocol asked) request block events
            (λ s. C.stands asked s check.old places.old) places.old self.old
            (frame_bytes frame.old)
            → IsFed (C.protocol asked) request block (events ++ ins (take result bytes.now))
            (λ s. C.stands asked s check.new places.new) places.new self.new
            (frame_bytes frame.new) }
    {
        let place = check.place();
        let count = lesser(frame.room(place, self.version()), bytes.len());
        frame.put(place, self.version(), &bytes[..count]);
        self.look(check, places, frame, place);
        count
    }

    /// Takes bytes that came, in any pieces, and answers how many: all of them while a reply is
    /// heard, and none that stands behind a verdict, or behind a whole reply whose challenge is
    /// due.
    ///
    /// Of a frame that is not whole the bytes lie in `frame`, which no other call may change.
    pub fn feed<C: Check>(
        &mut self,
        check: &mut C,
        places: &mut [Entry],
        frame: &mut Frame,
        bytes: &[u8],
    ) -> usize
        requires at { is_hearing self.old.stage ≡ true → IsAt self.old (C.phase check.old) }
        requires stood { is_hearing self.old.stage ≡ true → (asked : C.Asked) × (s : C.State)
            × C.stands asked s check.old places.old
            × (length (frame_bytes frame.old) < asked_length self.old.version
            ((C.protocol asked).rules.place s) (frame_bytes frame.old)) }
        ensures most { result ≤ length bytes.now }
        ensures all { is_hearing self.new.stage ≡ true → result ≡ length bytes.now }
        ensures none { is_hearing self.old.stage ≡ false → result ≡ 0 }
        ensures at { (is_open self.old.stage ≡ true → IsAt self.old (C.phase check.old))
            → is_open self.new.stage ≡ true → IsAt self.new (C.phase check.new) }
        ensures block { is_open self.new.stage ≡ true
            → (C.phase check.new).block ≡ (C.phase check.old).block }
        ensures lent { C.lent check.new ≡ C.lent check.old }
        ensures places { length places.new ≡ length places.old }
        ensures stands { (asked : C.Asked) (s : C.State) → C.stands asked s check.old places.old
            → (length (frame_bytes frame.old) < asked_length self.old.version
            ((C.protocol asked).rules.place s) (frame_bytes frame.old))
            → is_open self.new.stage ≡ true
            → (t : C.State) × C.stands asked t check.new places.new
            × (length (frame_bytes frame.new) < asked_length self.new.version
            ((C.protocol asked).rules.place t) (frame_bytes frame.new)) }
        ensures fed { (asked : C.Asked) (request : AnyMessage) (block : List ℕ)
            (events : List AnyEvent) → (C.phase check.old).block ≡ block
            → IsFed (C.protocol asked) request block events
            (λ s. C.stands asked s check.old places.old) places.old self.old
            (frame_bytes frame.old)
            → IsFed (C.protocol asked) request block (events ++ ins (take result bytes.now))
            (λ s. C.stands asked s check.new places.new) places.new self.new
            (frame_bytes frame.new) }
    {
        let mut taken = 0;
        while taken < bytes.len() {
            if !self.is_hearing() {
                return taken;
            }
            taken += self.piece(check, places, frame, &bytes[taken..]);
        }
        taken
    }

    /// The other end closed. Where a reply is heard, that is its fault.
    pub fn close(&mut self, frame: &mut Frame)
        ensures closed { is_hearing self.old.stage ≡ true
            → self.new ≡ record self.old { stage = stages.Rejected self.old.round Closed } }
        ensures empty { is_hearing self.old.stage ≡ true → frame_bytes frame.new ≡ [] }
        ensures same { is_hearing self.old.stage ≡ false → self.new ≡ self.old }
    {
        if self.is_hearing() {
            self.refused(Reason::Closed);
            frame.clear();
        }
    }
}

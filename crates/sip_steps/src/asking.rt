//! One question, asked without a link.

ghost use Rattle.std.specs.Prelude.{◌≡◌, ◌≤◌, ◌<◌, ◌++◌, [], ℕ, List, false, true, length, take};
ghost use Rattle.std.specs.Prelude.{IfOk, IsTrue, OnOk, OnErr, Ok, Some};
ghost use Rattle.sip_ports.specs.declared.port.TalkEvent.{TalkEvent as AnyEvent};
ghost use Rattle.sip_ports.specs.Ports.{HasCause, SendsWhole, ins, outs};
ghost use Rattle.sip_wire.specs.declared.message.Message.{Message as AnyMessage};
ghost use Rattle.sip_wire.specs.Frames.{frame_bytes};
ghost use Rattle.sip_wire.specs.Spelling.{fits};
ghost use Rattle.sip_wire.specs.Taking.{room_for};
ghost use Rattle.sip_replies.specs.Following.{is_due, is_hearing, verdict_of};
ghost use Rattle.sip_replies.specs.Protocols.{Begins};
ghost use Rattle.sip_steps.specs.Asked.{IsAsked, IsBegun, due_bytes, end_heard, pairs_of};

use sip_field::OutOfMemory;
use sip_ports::{Link, PortStop};
use sip_replies::{AskStop, Check, Request, Said, Turn};
use sip_vector::Entry;
use sip_wire::{Frame, Version};
use std::alloc::Global;

/// One question that is under way, and all that it needs: its check, the places of its answer, room
/// for one frame, and where in its talk it is.
///
/// What is [`due`](Asking::due) is sent, and what comes is [fed](Asking::feed), until there is a
/// [`verdict`](Asking::verdict). A caller sends what is due after `begin` and after each `feed`.
/// Memory is taken by [`begin`](Asking::begin) alone, and the time is that of the bytes.
#[derive(Drop)]
pub struct Asking<C: Check + Drop, Q: Request + Drop> {
    check: C,
    request: Q,
    places: Vec<Entry>,
    frame: Frame,
    turn: Turn,
    // While bytes are to come, how many of them the frame takes before it is looked at: up to the
    // end of its head, and then up to its own.
    lacking: usize,
}

impl<C: Check + Drop, Q: Request + Drop> Asking<C, Q> {
    /// Before anything was said. The places are those that the check needs for its answer. Where
    /// the check knows the answer without a reply, that is the verdict.
    ///
    /// # Errors
    ///
    /// `OutOfMemory` where there is none for a frame of 8,709 bytes.
    pub fn begin(
        alloc: Global,
        check: C,
        version: Version,
        request: Q,
        places: Vec<Entry>,
    ) -> Result<Self, OutOfMemory>
        requires begins { Begins (C.phase check) }
        requires fits { IsTrue (fits version (Q.message request)) }
        requires stood { (asked : C.Asked) × ((C.protocol asked).rules.version ≡ version)
            × C.stands asked (C.protocol asked).rules.start check places.items }
        ensures begun { IfOk result (IsBegun C.protocol C.stands C.phase Q.message) }
        ensures request { IfOk result (λ a. a.request ≡ request) }
        ensures asked { IfOk result (λ a. (asked : C.Asked)
            → (C.protocol asked).rules.version ≡ version
            → C.stands asked (C.protocol asked).rules.start check places.items
            → IsAsked (C.protocol asked) (C.stands asked) C.phase Q.message (Q.message request)
            (C.phase check).block [] a) }
    {
        let frame = Frame::new(alloc)?;
        Ok(Asking::over(check, version, request, places, frame))
    }

    /// The same in a frame that has no bytes, for which no memory is taken.
    pub(crate) fn over(
        check: C,
        version: Version,
        request: Q,
        places: Vec<Entry>,
        frame: Frame,
    ) -> Self
        requires begins { Begins (C.phase check) }
        requires fits { IsTrue (fits version (Q.message request)) }
        requires empty { frame_bytes frame ≡ [] }
        ensures asked { (asked : C.Asked) → (C.protocol asked).rules.version ≡ version
            → C.stands asked (C.protocol asked).rules.start check places.items
            → IsAsked (C.protocol asked) (C.stands asked) C.phase Q.message (Q.message request)
            (C.phase check).block [] result }
        ensures request { result.request ≡ request }
        ensures silent { is_hearing result.turn.stage ≡ false }
    {
        let turn = Turn::begin(&check, version);
        Asking {
            check,
            request,
            places,
            frame,
            turn,
            lacking: 0,
        }
    }

    // How many bytes the frame takes before it is looked at.
    fn room(&self) -> usize
        ensures { (asked : C.Asked) (s : C.State)
            → C.stands asked s self.now.check self.now.places.items
            → result ≡ room_for self.now.turn.version ((C.protocol asked).rules.place s)
            (frame_bytes self.now.frame) }
    {
        self.frame.room(self.check.place(), self.turn.version())
    }

    /// What is asked.
    pub fn request(&self) -> &Q
        ensures { result.now ≡ self.now.request }
    {
        &self.request
    }

    /// Bytes are to be sent.
    pub fn is_due(&self) -> bool
        ensures { result ≡ is_due self.now.turn.stage }
    {
        !self.turn.is_hearing() && self.turn.verdict().is_none()
    }

    /// Bytes are to come.
    pub fn is_waiting(&self) -> bool
        ensures { result ≡ is_hearing self.now.turn.stage }
    {
        self.turn.is_hearing()
    }

    /// Sends what is due, each byte once, and nothing where nothing is due.
    ///
    /// # Errors
    ///
    /// Those of the link, which a front of what is due has then reached that is shorter than it.
    /// All of it is due as before.
    pub fn due<L: Link>(&mut self, out: &mut L) -> Result<(), PortStop>
        requires begun { IsBegun C.protocol C.stands C.phase Q.message self.old }
        ensures begun { IsBegun C.protocol C.stands C.phase Q.message self.new }
        ensures request { self.new.request ≡ self.old.request }
        ensures talk { SendsWhole (L.talk out.old) (L.talk out.new) result
            (due_bytes Q.message self.old) }
        ensures asked { (asked : C.Asked) (request : AnyMessage) (block : List ℕ)
            (events : List AnyEvent) → IsAsked (C.protocol asked) (C.stands asked) C.phase
            Q.message request block events self.old
            → OnOk result (IsAsked (C.protocol asked) (C.stands asked) C.phase Q.message request
            block (events ++ outs (due_bytes Q.message self.old)) self.new) }
        ensures once { OnOk result (is_due self.new.turn.stage ≡ false) }
        ensures same { OnErr result (self.new ≡ self.old) }
        ensures cause { HasCause L.faults L.wants L.is_sure out.old out.new result }
    {
        if !self.is_due() {
            return Ok(());
        }
        self.turn.send(&self.request, out)?;
        self.turn.sent();
        self.lacking = self.room();
        Ok(())
    }

    // Puts bytes behind those of the frame that are there, too few for a look at it.
    #[inline]
    fn gather(&mut self, bytes: &[u8])
        requires begun { IsBegun C.protocol C.stands C.phase Q.message self.old }
        requires hears { is_hearing self.old.turn.stage ≡ true }
        requires few { length bytes.now < self.old.lacking }
        ensures turn { self.new.turn ≡ self.old.turn }
        ensures request { self.new.request ≡ self.old.request }
        ensures asked { (asked : C.Asked) (request : AnyMessage) (block : List ℕ)
            (events : List AnyEvent) → IsAsked (C.protocol asked) (C.stands asked) C.phase
            Q.message request block events self.old
            → IsAsked (C.protocol asked) (C.stands asked) C.phase Q.message request block
            (events ++ ins bytes.now) self.new }
    {
        self.frame
            .put(self.check.place(), self.turn.version(), bytes);
        self.lacking -= bytes.len();
    }

    // Takes bytes of replies, and looks at each frame as far as it came.
    #[inline(never)]
    fn hear(&mut self, bytes: &[u8]) -> usize
        requires begun { IsBegun C.protocol C.stands C.phase Q.message self.old }
        requires hears { is_hearing self.old.turn.stage ≡ true }
        ensures request { self.new.request ≡ self.old.request }
        ensures most { result ≤ length bytes.now }
        ensures all { is_hearing self.new.turn.stage ≡ true → result ≡ length bytes.now }
        ensures asked { (asked : C.Asked) (request : AnyMessage) (block : List ℕ)
            (events : List AnyEvent) → IsAsked (C.protocol asked) (C.stands asked) C.phase
            Q.message request block events self.old
            → IsAsked (C.protocol asked) (C.stands asked) C.phase Q.message request block
            (events ++ ins (take result bytes.now)) self.new }
    {
        let taken = self
            .turn
            .feed(&mut self.check, &mut self.places, &mut self.frame, bytes);
        self.lacking = self.room();
        taken
    }

    /// Takes bytes that came, in any pieces, and answers how many. It takes all of them while it
    /// waits, and none behind a verdict, or behind a whole reply where bytes are due: those stay
    /// with the caller.
    #[inline]
    pub fn feed(&mut self, bytes: &[u8]) -> usize
        requires begun { IsBegun C.protocol C.stands C.phase Q.message self.old }
        ensures begun { IsBegun C.protocol C.stands C.phase Q.message self.new }
        ensures request { self.new.request ≡ self.old.request }
        ensures most { result ≤ length bytes.now }
        ensures all { is_hearing self.new.turn.stage ≡ true → result ≡ length bytes.now }
        ensures none { is_hearing self.old.turn.stage ≡ false → result ≡ 0 }
        ensures asked { (asked : C.Asked) (request : AnyMessage) (block : List ℕ)
            (events : List AnyEvent) → IsAsked (C.protocol asked) (C.stands asked) C.phase
            Q.message request block events self.old
            → IsAsked (C.protocol asked) (C.stands asked) C.phase Q.message request block
            (events ++ ins (take result bytes.now)) self.new }
    {
        if !self.is_waiting() {
            return 0;
        }
        if bytes.len() < self.lacking {
            self.gather(bytes);
            return bytes.len();
        }
        self.hear(bytes)
    }

    /// The other end closed: where bytes were to come, the question is rejected for that.
    pub fn close(&mut self)
        requires begun { IsBegun C.protocol C.stands C.phase Q.message self.old }
        ensures begun { IsBegun C.protocol C.stands C.phase Q.message self.new }
        ensures closed { is_hearing self.new.turn.stage ≡ false }
        ensures request { self.new.request ≡ self.old.request }
        ensures same { is_hearing self.old.turn.stage ≡ false → self.new.turn ≡ self.old.turn }
        ensures asked { (asked : C.Asked) (request : AnyMessage) (block : List ℕ)
            (events : List AnyEvent) → IsAsked (C.protocol asked) (C.stands asked) C.phase
            Q.message request block events self.old
            → IsAsked (C.protocol asked) (C.stands asked) C.phase Q.message request block
            (events ++ end_heard self.old.turn.stage) self.new }
    {
        if self.is_waiting() {
            self.turn.close(&mut self.frame);
        }
    }

    /// What came of the question, once all is known: what is said, or the first fault of the
    /// replies.
    pub fn verdict(&self) -> Option<Result<Said, AskStop>>
        ensures { result ≡ verdict_of self.now.turn.stage }
    {
        self.turn.verdict()
    }

    /// The pairs that are said, rising; none where there is no verdict, or another one.
    pub fn pairs(&self) -> &[Entry]
        ensures { result.now ≡ pairs_of self.now.turn.stage self.now.places.items }
    {
        match self.turn.verdict() {
            Some(Ok(Said::Pairs(found))) if found <= self.places.len() => &self.places[..found],
            Some(Ok(Said::Pairs(_))) => &self.places,
            _ => &[],
        }
    }
}

// A check of the replies to one query.
ghost use Rattle.std.specs.Prelude.{◌≡◌, ◌≢◌, ◌≤◌, ◌<◌, ℕ, List, length, slice_index, Ok, Err};
ghost use Rattle.std.specs.Prelude.{IfOk, IsTrue};
ghost use Rattle.std.specs.Option.{option_map};

use sip_vector::Entry;
use sip_wire::{Message, Place, Reason};

/// Whether a reply goes on behind a frame.
#[derive(Clone, Copy, Debug, PartialEq, Eq)]
pub enum More {
    /// Another frame is due.
    Due,
    /// The reply is complete.
    Complete,
}

/// What accepted replies say.
#[derive(Clone, Copy, Debug, PartialEq, Eq)]
pub enum Said {
    /// This number.
    Number(i64),
    /// The first so many of the places given.
    Pairs(usize),
}

/// A check of the replies to one query, with places for the pairs of an answer.
///
/// The calls come in the order of a talk: `unasked` first; then, for each reply, `take` for each of
/// its frames, with a `reveal` between two replies; and `finish` behind the last one. The places
/// are those of all calls, with nothing changed in between.
pub trait Check {
    ghost use Rattle.sip_field.specs.Moduli.{m61_modulus};
    ghost use Rattle.sip_vector.specs.Limits.{most_depth};
    ghost use Rattle.sip_vector.specs.declared.update.Entry.{Entry as AnyEntry};
    ghost use Rattle.sip_wire.specs.declared.message.Message.{Message as AnyMessage};
    ghost use Rattle.sip_wire.specs.declared.message.Reason.{Reason as AnyReason};
    ghost use Rattle.sip_wire.specs.declared.message.Reason.TheVariants.{Closed};
    ghost use Rattle.sip_wire.specs.declared.version.Version.{Version as AnyVersion};
    ghost use Rattle.sip_wire.specs.Spelling.{fits};
    ghost use Rattle.sip_wire.specs.Values.{InRange};
    ghost use Rattle.sip_replies.specs.Protocols.{Protocol, Phase, Awaits, Reveals, Ends, after};
    ghost use Rattle.sip_replies.specs.Protocols.{revealed_more};
    ghost use Rattle.sip_replies.specs.Checks.{Steps, answered, answer_of};
    ghost use Rattle.sip_replies.specs.declared.check.More.TheVariants.{Due};

    /// What is asked: all that the definitions need.
    ghost Asked: { Type 0 };

    /// What replies state so far.
    ghost State: { Type 0 };

    /// The protocol of the replies.
    ghost protocol: { Asked → Protocol State };

    /// How far the check is.
    ghost phase: { Self → Phase };

    /// How many frames may still come in a reply, at most.
    ghost room: { Self → ℕ };

    /// How much room was lent to the check for its work. No call changes it.
    ghost lent: { Self → ℕ };

    /// The check and the places stand for this state.
    ghost stands: { Asked → State → Self → List AnyEntry → Type 0 };

    /// The number of challenges.
    fn depth(&self) -> usize
        ensures exact { result ≡ length (phase self.now).block }
        ensures few { result ≤ most_depth };

    /// What is said without a reply, where nothing has to be asked.
    fn unasked(&self) -> Option<Said>
        ensures { (asked : Asked) (s : State) (places : List AnyEntry)
            → stands asked s self.now places
            → option_map (answer_of places) result ≡ (protocol asked).unasked };

    /// What frames may come next.
    fn place(&self) -> Place
        ensures { (asked : Asked) (s : State) (places : List AnyEntry)
            → stands asked s self.now places
            → result ≡ (protocol asked).rules.place s };

    /// Takes a frame of a reply.
    fn take(&mut self, message: &Message, places: &mut [Entry]) -> Result<More, Reason>
        requires phase { Awaits (phase self.old) }
        requires stood { (asked : Asked) × (s : State) × stands asked s self.old places.old }
        requires fits { (version : AnyVersion) × IsTrue (fits version message.now) }
        requires range { InRange message.now }
        ensures took { (asked : Asked) (s : State) → stands asked s self.old places.old
            → Steps ((protocol asked).rules.step s message.now)
            (λ t. stands asked t self.new places.new) result }
        ensures phase { IfOk result (λ more. phase self.new ≡ after more (phase self.old)) }
        ensures smaller { result ≡ Ok Due → room self.new < room self.old }
        ensures lent { lent self.new ≡ lent self.old }
        ensures places { length places.new ≡ length places.old };

    /// The next challenge.
    fn reveal(&mut self) -> u64
        requires phase { Reveals (phase self.old) }
        requires stood { (asked : Asked) × (s : State) × (places : List AnyEntry)
            × stands asked s self.old places }
        ensures challenge { result ≡ slice_index (phase self.old).block (phase self.old).revealed }
        ensures below { result < m61_modulus }
        ensures learns { (asked : Asked) (s : State) (places : List AnyEntry)
            → stands asked s self.old places
            → stands asked ((protocol asked).rules.learn s result) self.new places }
        ensures phase { phase self.new ≡ revealed_more (phase self.old) }
        ensures lent { lent self.new ≡ lent self.old };

    /// The tests behind the last reply, which learn the last challenge.
    fn finish(&mut self, places: &[Entry]) -> Result<Said, Reason>
        requires phase { Ends (phase self.old) }
        requires stood { (asked : Asked) × (s : State) × stands asked s self.old places.now }
        ensures says { (asked : Asked) (s : State) → stands asked s self.old places.now
            → answered places.now result ≡ (protocol asked).finish ((protocol asked).rules.learn s
            (slice_index (phase self.old).block (phase self.old).revealed)) }
        ensures lent { lent self.new ≡ lent self.old };

    /// The end of the link is no reason of the tests behind the last reply.
    ghost ends: { (asked : Asked) (s : State) (reason : AnyReason)
        → (protocol asked).finish s ≡ Err reason → reason ≢ Closed };

    /// Nor is it one of a frame's.
    ghost tests: { (asked : Asked) (s : State) (m : AnyMessage) (reason : AnyReason)
        → (protocol asked).rules.step s m ≡ Err reason → reason ≢ Closed };
}

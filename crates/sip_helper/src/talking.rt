//! A talk on a link, for whatever a helper answers in it.

ghost use Rattle.std.specs.Prelude.{◌≡◌, ◌⊎◌, ◌<◌, ◌≤◌, Err, IsTrue, OnOk, false};
ghost use Rattle.sip_ports.specs.Ports.{HasCause, Lasts, Rose, SendsWhole};
ghost use Rattle.sip_wire.specs.declared.message.Message.TheVariants as messages;
ghost use Rattle.sip_wire.specs.Frames.{frame_bytes};
ghost use Rattle.sip_wire.specs.Spelling.{fits, spelling};
ghost use Rattle.sip_wire.specs.declared.version.Version.TheVariants.{Two};
ghost use Rattle.sip_helper.specs.inside.Measures.{most_received, most_turns};
ghost use Rattle.sip_helper.specs.OneTurn.{AnswersTurn, TakesTurn};
ghost use Rattle.sip_helper.specs.Rules.{ServesBy, ServesOn};

use crate::refusal::OUT_OF_TURN;
use crate::{HelpStatus, OutOfTurn};
use sip_ports::{Link, PortStop, Sink};
use sip_wire::{Frame, Message, Place, Version, decode_within, encode};
use std::alloc::Global;

/// What answers in a talk: it hears one message after another, and sends the reply that is owed
/// after each.
///
/// Which message may come, what it does and what is owed then are its `rules`: all that a talk on a
/// link promises ([`talk`]) is said by these.
pub trait Helps {
    ghost use Rattle.std.specs.Prelude.{◌≡◌, ◌<◌, ◌≤◌, ◌↔◌, Bool, ℕ, IsOk, IsTrue, OnErr, OnOk, []};
    ghost use Rattle.std.specs.Prelude.{false, true};
    ghost use Rattle.sip_ports.specs.Ports.{HasCause, SendsWhole};
    ghost use Rattle.sip_wire.specs.Spelling.{fits};
    ghost use Rattle.sip_wire.specs.declared.version.Version.TheVariants.{Two};
    ghost use Rattle.sip_helper.specs.Rules.{TurnRules};

    /// The rules of the talk.
    ghost rules: { TurnRules Self };

    /// How many turns are left at most.
    ghost turns_left: { Self → ℕ };

    /// No reply was cut short.
    ghost is_live: { Self → Bool };

    /// A reply is owed.
    ghost is_owing: { Self → Bool };

    /// The version of the next frame.
    fn version_due(&self) -> Version
        ensures { result ≡ rules.version self.now };

    /// The place of the next frame in the talk.
    fn place_due(&self) -> Place
        ensures { result ≡ rules.place self.now };

    /// Takes a message, where it may come: the reply that is owed, if one is, may be sent then.
    ///
    /// # Errors
    ///
    /// `OutOfTurn` exactly where it may not come: nothing is changed.
    fn take(&mut self, message: &Message) -> Result<(), OutOfTurn>
        requires fits { IsTrue (fits Two message.now) }
        requires live { IsTrue (is_live self.old) }
        requires going { rules.is_done self.old ≡ false }
        ensures turn { IsOk result ↔ IsTrue (rules.is_allowed self.old message.now) }
        ensures heard { OnOk result ((refused : Bool)
            × (self.new ≡ rules.step self.old refused message.now)) }
        ensures same { OnErr result (self.new ≡ self.old) }
        ensures live { OnOk result (IsTrue (is_live self.new)) }
        ensures fewer { OnOk result (rules.is_done self.new ≡ false
            → turns_left self.new < turns_left self.old) }
        ensures last { OnOk result (rules.is_done self.new ≡ true
            → message.now ≡ rules.farewell) };

    /// Whether a reply is owed.
    fn owes_reply(&self) -> bool
        ensures owing { result ≡ is_owing self.now }
        ensures none { result ≡ false → rules.owed self.now ≡ [] }
        ensures same { result ≡ false → rules.after_answer self.now ≡ self.now };

    /// Whether the farewell was heard.
    fn is_over(&self) -> bool
        ensures { result ≡ rules.is_done self.now };

    /// Sends the reply that is owed, one write a frame.
    ///
    /// # Errors
    ///
    /// Those of the sink, which a front of the reply has then reached that is shorter than it.
    fn send_reply<K: Sink>(&mut self, out: &mut K) -> Result<(), PortStop>
        requires owes { IsTrue (is_owing self.old) }
        requires live { IsTrue (is_live self.old) }
        requires going { rules.is_done self.old ≡ false }
        ensures talk { SendsWhole (K.talk out.old) (K.talk out.new) result (rules.owed self.old) }
        ensures given { OnOk result (self.new ≡ rules.after_answer self.old) }
        ensures live { OnOk result (IsTrue (is_live self.new)) }
        ensures going { OnOk result (rules.is_done self.new ≡ false) }
        ensures fewer { OnOk result (turns_left self.new ≤ turns_left self.old) }
        ensures cause { HasCause K.faults K.wants K.is_sure out.old out.new result };
}

/// Sends the refusal of a message out of turn. It is made in a call of its own, since a message is
/// as large as the longest frame's rows: the stack has it no longer than that.
#[inline(never)]
fn refuse<K: Sink>(version: Version, out: &mut K) -> Result<(), PortStop>
    ensures talk { SendsWhole (K.talk out.old) (K.talk out.new) result
        (spelling version (messages.Refuse 4)) }
    ensures cause { HasCause K.faults K.wants K.is_sure out.old out.new result }
{
    encode(&Message::Refuse { code: OUT_OF_TURN }, version, out)
}

/// Answers a message that came, wherever it came from: the reply that is owed is sent, or the
/// refusal of a message out of turn. `offset` is how many bytes of the talk were received before
/// the message.
///
/// # Errors
///
/// Why the talk is over: `Served` where the message was the farewell, to which nothing is sent;
/// `BadFrame` where it was out of turn, once the refusal was sent, which leaves the helper as it
/// was. The others are those of the sink, which a front of the reply or of the refusal has then
/// reached that is shorter than it.
pub fn answer_turn<H: Helps, K: Sink>(
    helper: &mut H,
    message: &Message,
    out: &mut K,
    offset: u64,
) -> Result<(), HelpStatus>
    requires fits { IsTrue (fits Two message.now) }
    requires live { IsTrue (H.is_live helper.old) }
    requires going { H.rules.is_done helper.old ≡ false }
    ensures turn { AnswersTurn H.rules (K.talk out.old) (K.talk out.new) helper.old message.now
        helper.new offset result }
    ensures live { OnOk result (IsTrue (H.is_live helper.new)) }
    ensures fewer { OnOk result (H.turns_left helper.new < H.turns_left helper.old) }
    ensures cause { result ≡ Err HelpStatus.PeerFault
        → Rose (K.faults out.old) (K.faults out.new) }
    ensures memory { result ≡ Err HelpStatus.OutOfMemory
        → Rose (K.wants out.old) (K.wants out.new) }
    ensures lasts { Lasts K.faults K.wants K.is_sure out.old out.new }
{
    let version = helper.version_due();
    if helper.take(message).is_err() {
        refuse(version, out)?;
        return Err(HelpStatus::BadFrame { offset });
    }
    if helper.is_over() {
        return Err(HelpStatus::Served);
    }
    if helper.owes_reply() {
        helper.send_reply(out)?;
    }
    Ok(())
}

/// Receives one frame, hears its message and sends the reply that is owed. The message of the frame
/// before gives its room. `offset` is how many bytes of the talk were received before.
///
/// # Errors
///
/// Why the talk is over, as of [`talk`]: `Served` where the message was the farewell. What the
/// frame has then is what was received of this turn.
pub fn take_turn<H: Helps, L: Link>(
    helper: &mut H,
    link: &mut L,
    frame: &mut Frame,
    offset: u64,
) -> Result<(), HelpStatus>
    requires live { IsTrue (H.is_live helper.old) }
    requires going { H.rules.is_done helper.old ≡ false }
    ensures turn { TakesTurn H.rules (L.talk link.old) (L.talk link.new) helper.old helper.new
        offset (frame_bytes frame.new) result }
    ensures live { OnOk result (IsTrue (H.is_live helper.new)) }
    ensures fewer { OnOk result (H.turns_left helper.new < H.turns_left helper.old) }
    ensures cause { result ≡ Err HelpStatus.PeerFault
        → Rose (L.faults link.old) (L.faults link.new) }
    ensures memory { result ≡ Err HelpStatus.OutOfMemory
        → Rose (L.wants link.old) (L.wants link.new) }
    ensures lasts { Lasts L.faults L.wants L.is_sure link.old link.new }
{
    // A frame is read, and refused, in the version of the talk up to it.
    let version = helper.version_due();
    let place = helper.place_due();
    if let Err(fault) = decode_within(link, place, version, frame) {
        return Err(HelpStatus::of_fault(fault, offset));
    }
    answer_turn(helper, frame.message(), link, offset)
}

/// Goes on with a talk until a farewell, from a state in which it stands: some of it may have been
/// heard, turn by turn ([`take_turn`]), and `offset` bytes were received so far.
///
/// Each reply that is owed goes out before the next frame is taken. A message out of turn is
/// answered by a refusal, and ends the talk, and so is a query of a kind that is not built; a frame
/// without a spelling ends it with no answer. The loop ends, since each turn but a farewell leaves
/// fewer turns.
///
/// It takes no memory but what the helper takes: `OutOfMemory` comes only where the link's count of
/// wants rose, since want of memory for an answer is an answer to the verifier.
pub fn talk_on<H: Helps + Drop, L: Link>(
    helper: H,
    link: &mut L,
    frame: &mut Frame,
    offset: u64,
) -> HelpStatus
    requires live { IsTrue (H.is_live helper) }
    requires going { H.rules.is_done helper ≡ false }
    requires few { H.turns_left helper ≤ most_turns }
    requires short { offset ≤ most_received }
    ensures serves { ServesOn H.rules helper offset (L.talk link.old) (L.talk link.new) result }
    ensures cause { result ≡ HelpStatus.PeerFault
        → Rose (L.faults link.old) (L.faults link.new) }
    ensures memory { result ≡ HelpStatus.OutOfMemory
        → Rose (L.wants link.old) (L.wants link.new) }
    ensures lasts { Lasts L.faults L.wants L.is_sure link.old link.new }
{
    let mut helper = helper;
    let mut offset = offset;
    loop {
        if let Err(status) = take_turn(&mut helper, link, frame, offset) {
            return status;
        }
        offset += frame.bytes().len() as u64;
    }
}

/// Hears a talk and answers, until a farewell, as [`talk_on`] does from its begin on.
///
/// The memory for the frame is taken first. Where that is refused the link is left alone; from then
/// on `OutOfMemory` comes only where the link's count of wants rose.
pub fn talk<H: Helps + Drop, L: Link>(helper: H, alloc: Global, link: &mut L) -> HelpStatus
    requires live { IsTrue (H.is_live helper) }
    requires going { H.rules.is_done helper ≡ false }
    requires few { H.turns_left helper ≤ most_turns }
    ensures serves { ServesBy H.rules helper (L.talk link.old) (L.talk link.new) result }
    ensures cause { result ≡ HelpStatus.PeerFault
        → Rose (L.faults link.old) (L.faults link.new) }
    ensures memory { result ≡ HelpStatus.OutOfMemory
        → (link.new ≡ link.old) ⊎ Rose (L.wants link.old) (L.wants link.new) }
    ensures lasts { Lasts L.faults L.wants L.is_sure link.old link.new }
{
    let Ok(mut frame) = Frame::new(alloc) else {
        return HelpStatus::OutOfMemory;
    };
    talk_on(helper, link, &mut frame, 0)
}

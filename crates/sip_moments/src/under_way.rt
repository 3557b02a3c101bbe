//! A moment that is open, and what its replies are made from.

ghost use Rattle.std.specs.Prelude.{◌≡◌, ◌<◌, ◌≤◌, ◌^◌, [], Bool, IfSome, IsOk, IsTrue, None};
ghost use Rattle.std.specs.Prelude.{OnErr, OnOk, Some, ◌↔◌, false, length, not};
ghost use Rattle.std.specs.List.{flat_map};
ghost use Rattle.std.specs.Option.{option_map};
ghost use Rattle.sip_field.specs.Moduli.{m61_modulus};
ghost use Rattle.sip_ports.specs.Ports.{HasCause, SendsWhole};
ghost use Rattle.sip_vector.specs.Limits.{most_depth};
ghost use Rattle.sip_wire.specs.declared.message.Message.TheVariants as messages;
ghost use Rattle.sip_wire.specs.declared.version.Version.{Version as AnyVersion};
ghost use Rattle.sip_wire.specs.Spelling.{fits, spelling};
ghost use Rattle.sip_wire.specs.Table.{most_claim};
ghost use Rattle.sip_helper.specs.Shown.{shown_vector, weight_of};
ghost use Rattle.sip_helper.specs.Turns.{HelperState as AnyHelper, whole_of};
ghost use Rattle.sip_moments.specs.Honest.{begun, its_polynomial};
ghost use Rattle.sip_moments.specs.Moments.{IsDegree};
ghost use Rattle.sip_moments.specs.Stating.{power_message};
ghost use Rattle.sip_moments.specs.Serving.{after_reply, may_follow, newly_asked, reply_to};
ghost use Rattle.sip_moments.specs.Serving.{with_challenge};
ghost use Rattle.sip_moments.specs.UnderWay.{CanReply, open_of};
ghost use Rattle.sip_moments.specs.inside.Keeping.{its_messages};

use crate::prover::MomentProver;
use arrayvec::ArrayVec;
use sip_field::{Field, M61};
use sip_helper::{HelperCore, OutOfTurn, WANT_OF_MEMORY, put_refusal};
use sip_ports::{PortStop, Sink};
use sip_vector::{CAP, Depth, Side, Vector};
use sip_wire::{Message, Version, encode};
use std::alloc::Global;

/// A moment that was asked, as a helper has it until its last reply was given.
///
/// It is begun by [`begin`](MomentUnderWay::begin), and the reply that is owed goes out by
/// [`put_reply`](MomentUnderWay::put_reply). [`after_reply`](MomentUnderWay::after_reply) says
/// whether it is open still, and [`reveal`](MomentUnderWay::reveal) takes the next challenge.
#[derive(Drop)]
pub struct MomentUnderWay {
    pub(crate) side: Side,
    pub(crate) degree: u8,
    /// What its replies are made from; `None` where memory was refused for it.
    pub(crate) prover: Option<MomentProver<M61>>,
    /// The challenges that were revealed behind it.
    pub(crate) revealed: ArrayVec<u64, CAP>,
    /// Whether its last reply was given; it is owed otherwise.
    pub(crate) given: bool,
}

/// Sends the claim of a moment.
#[inline(never)]
fn put_claim<K: Sink>(
    version: Version,
    prover: &MomentProver<M61>,
    out: &mut K,
) -> Result<(), PortStop>
    ensures talk { SendsWhole (K.talk out.old) (K.talk out.new) result
        (spelling version (messages.Claim prover.now.claim)) }
    ensures cause { HasCause K.faults K.wants K.is_sure out.old out.new result }
{
    let message = Message::Claim {
        value: prover.claim(),
    };
    encode(&message, version, out)
}

/// The message of the polynomial of the present round.
fn polynomial_of(prover: &MomentProver<M61>) -> Message
    requires left { 2 ≤ length prover.now.level }
    ensures message { result ≡ power_message (its_polynomial m61_modulus prover.now) }
    ensures fits { (version : AnyVersion) → IsTrue (fits version result) }
{
    let mut coefficients = ArrayVec::new();
    for place in 0..prover.degree() + 1 {
        coefficients.push(prover.coefficient(place).number());
    }
    Message::Power(coefficients)
}

/// Sends the polynomial of the present round.
#[inline(never)]
fn put_polynomial<K: Sink>(
    version: Version,
    prover: &MomentProver<M61>,
    out: &mut K,
) -> Result<(), PortStop>
    requires left { 2 ≤ length prover.now.level }
    ensures talk { SendsWhole (K.talk out.old) (K.talk out.new) result
        (spelling version (power_message (its_polynomial m61_modulus prover.now))) }
    ensures cause { HasCause K.faults K.wants K.is_sure out.old out.new result }
{
    encode(&polynomial_of(prover), version, out)
}

/// Sends the polynomial of the present round, behind the claim where the reply is the first.
fn put_honest<K: Sink>(
    version: Version,
    prover: &MomentProver<M61>,
    is_first: bool,
    out: &mut K,
) -> Result<(), PortStop>
    requires left { 2 ≤ length prover.now.level }
    ensures talk { SendsWhole (K.talk out.old) (K.talk out.new) result
        (flat_map (spelling version) (its_messages is_first prover.now)) }
    ensures cause { HasCause K.faults K.wants K.is_sure out.old out.new result }
{
    if !is_first {
        return put_polynomial(version, prover, out);
    }
    put_claim(version, prover, out)?;
    put_polynomial(version, prover, out)
}

impl MomentUnderWay {
    /// What the replies about a moment of this side are made from, behind the stream that a helper
    /// heard. Takes the memory that they want, the only that they ever take; where that is refused,
    /// or was refused while the stream was heard, the reply is a refusal.
    pub fn begin(
        alloc: Global,
        core: &HelperCore,
        depth: Depth,
        side: Side,
        degree: u8,
    ) -> MomentUnderWay
        requires whole { whole_of core.now.heard ≡ Some depth }
        requires degree { IsDegree degree }
        requires light { weight_of core.now.weights side ^ degree ≤ most_claim }
        ensures asked { (refused : Bool) × (open_of result ≡ newly_asked side degree refused) }
        ensures ready { CanReply core.now result }
    {
        // The proof wants that there is a level.
        let _ = depth.get();
        match core.vector(side) {
            Some(vector) => MomentUnderWay::start(alloc, vector, side, degree),
            None => MomentUnderWay::refused(side, degree),
        }
    }

    /// Takes the memory that the replies want, the only that they ever take.
    pub(crate) fn start(alloc: Global, vector: &Vector, side: Side, degree: u8) -> MomentUnderWay
        requires degree { IsDegree degree }
        requires light { vector.now.weight ^ degree ≤ most_claim }
        ensures side { result.side ≡ side }
        ensures degree { result.degree ≡ degree }
        ensures revealed { result.revealed.items ≡ [] }
        ensures owed { result.given ≡ false }
        ensures begun { IfSome result.prover (λ prover. prover
            ≡ begun m61_modulus degree vector.now.numbers) }
        ensures level { IfSome result.prover (λ prover.
            length prover.level ≡ 2 ^ vector.now.depth) }
    {
        MomentUnderWay {
            side,
            degree,
            prover: MomentProver::start(alloc, vector, degree).ok(),
            revealed: ArrayVec::new(),
            given: false,
        }
    }

    /// A moment for which memory was refused.
    pub(crate) fn refused(side: Side, degree: u8) -> MomentUnderWay
        ensures side { result.side ≡ side }
        ensures degree { result.degree ≡ degree }
        ensures revealed { result.revealed.items ≡ [] }
        ensures owed { result.given ≡ false }
        ensures none { result.prover ≡ None }
    {
        MomentUnderWay {
            side,
            degree,
            prover: None,
            revealed: ArrayVec::new(),
            given: false,
        }
    }

    /// Whether a reply is owed.
    pub fn is_owed(&self) -> bool
        ensures { result ≡ not (open_of self.now).given }
    {
        !self.given
    }

    /// Takes the challenge of the round that was answered, where one may be revealed. The next
    /// reply is owed then.
    ///
    /// # Errors
    ///
    /// `OutOfTurn` exactly where no reply was given to go on from, or no level is left above it.
    pub fn reveal(&mut self, depth: u8, challenge: u64) -> Result<(), OutOfTurn>
        requires deep { depth ≤ most_depth }
        requires element { challenge < m61_modulus }
        requires stands { (helper : AnyHelper) × (whole_of helper.heard ≡ Some depth)
            × CanReply helper self.old }
        ensures turn { IsOk result
            ↔ IsTrue (may_follow depth (open_of self.old) (messages.Reveal challenge)) }
        ensures revealed { OnOk result (open_of self.new
            ≡ with_challenge challenge (open_of self.old)) }
        ensures stands { (helper : AnyHelper) → whole_of helper.heard ≡ Some depth
            → CanReply helper self.old → CanReply helper self.new }
        ensures same { OnErr result (self.new ≡ self.old) }
    {
        if !self.given || self.revealed.len() + 1 >= depth as usize {
            return Err(OutOfTurn);
        }
        self.revealed.push(challenge);
        self.given = false;
        if let Some(prover) = &mut self.prover {
            prover.learn(M61::of(challenge));
        }
        Ok(())
    }

    /// Sends the reply that is owed, one write a frame. It takes no memory.
    ///
    /// # Errors
    ///
    /// Those of the sink, which a front of the reply has then reached that is shorter than it.
    pub fn put_reply<K: Sink>(&self, version: Version, out: &mut K) -> Result<(), PortStop>
        requires stands { (helper : AnyHelper) × CanReply helper self.now }
        ensures talk { (helper : AnyHelper) → CanReply helper self.now
            → SendsWhole (K.talk out.old) (K.talk out.new) result (flat_map (spelling version)
            (reply_to (shown_vector helper self.now.side) (open_of self.now))) }
        ensures cause { HasCause K.faults K.wants K.is_sure out.old out.new result }
    {
        let Some(prover) = &self.prover else {
            return put_refusal(version, WANT_OF_MEMORY, out);
        };
        put_honest(version, prover, self.revealed.is_empty(), out)
    }

    /// The moment once its reply was given; `None` where that was a refusal or the last one.
    pub fn after_reply(self, depth: u8) -> Option<MomentUnderWay>
        requires owed { (open_of self).given ≡ false }
        ensures after { (helper : AnyHelper) → whole_of helper.heard ≡ Some depth
            → CanReply helper self → option_map open_of result ≡ after_reply helper (open_of self) }
        ensures stands { (helper : AnyHelper) → whole_of helper.heard ≡ Some depth
            → CanReply helper self → IfSome result (CanReply helper) }
    {
        if self.prover.is_none() || self.revealed.len() + 1 >= depth as usize {
            return None;
        }
        let mut question = self;
        question.given = true;
        Some(question)
    }
}

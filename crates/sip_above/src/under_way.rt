//! A question for large entries that is open, and what its replies are made from.

ghost use Rattle.std.specs.Prelude.{◌≡◌, ◌<◌, ◌≤◌, ◌∷◌, ◌++◌, [], ℕ, All, Bool, IsOk};
ghost use Rattle.std.specs.Prelude.{IfSome, IsTrue, None, OnErr, OnOk, Option, Some, ◌↔◌, false};
ghost use Rattle.std.specs.Prelude.{not, true};
ghost use Rattle.std.specs.List.{flat_map};
ghost use Rattle.std.specs.Option.{option_map};
ghost use Rattle.sip_field.specs.Moduli.{m61_modulus};
ghost use Rattle.sip_ports.specs.Ports.{HasCause, SendsWhole};
ghost use Rattle.sip_vector.specs.Limits.{most_depth};
ghost use Rattle.sip_wire.specs.declared.message.Message.TheVariants as messages;
ghost use Rattle.sip_wire.specs.declared.version.Version.TheVariants.{Two};
ghost use Rattle.sip_wire.specs.Spelling.{fits, spelling};
ghost use Rattle.sip_heavy.specs.Honest.{opening_frames};
ghost use Rattle.sip_above.specs.Serving.{Weighed, after_reply, may_follow, newly_asked, reply_to};
ghost use Rattle.sip_above.specs.Serving.{with_challenge};
ghost use Rattle.sip_above.specs.UnderWay.{CanReply, open_of, weighed_by};

use crate::large::Large;
use arrayvec::ArrayVec;
use sip_field::{Field, M61};
use sip_heavy::HeavyProver;
use sip_helper::{OutOfTurn, TOO_MANY, WANT_OF_MEMORY, put_level, put_level_end, put_refusal};
use sip_ports::{PortStop, Sink};
use sip_vector::{CAP, Vector, is_wide};
use sip_wire::Version;
use std::alloc::Global;

/// A question that was asked, as a helper has it until its last reply was given.
///
/// It is begun by [`begin`](LargeUnderWay::begin), and the reply that is owed goes out by
/// [`put_reply`](LargeUnderWay::put_reply). [`after_reply`](LargeUnderWay::after_reply) says whether
/// it is open still, and [`reveal`](LargeUnderWay::reveal) takes the next challenge.
#[derive(Drop)]
pub struct LargeUnderWay {
    pub(crate) large: Large,
    /// What its replies are made from, or the code by which it is refused.
    pub(crate) made: Result<HeavyProver<M61>, u8>,
    /// The challenges that were revealed behind it.
    pub(crate) revealed: ArrayVec<u64, CAP>,
    /// Whether its last reply was given; it is owed otherwise.
    pub(crate) given: bool,
}

// Sends what is shown of a level, and its end.
fn put_shown<K: Sink>(
    prover: &HeavyProver<M61>,
    is_lowest: bool,
    out: &mut K,
) -> Result<(), PortStop>
    requires lowest { prover.now.is_leaf ≡ is_lowest }
    requires fit { All (λ m. IsTrue (fits Two m)) (opening_frames m61_modulus prover.now) }
    ensures talk { SendsWhole (K.talk out.old) (K.talk out.new) result (flat_map (spelling Two)
        (opening_frames m61_modulus prover.now ++ messages.LevelEnd ∷ [])) }
    ensures cause { HasCause K.faults K.wants K.is_sure out.old out.new result }
{
    put_level(Version::Two, prover, is_lowest, out)?;
    put_level_end(Version::Two, out)
}

impl LargeUnderWay {
    /// What the replies about a side are made from, by its entries and their weights, which may be
    /// one vector. Takes the memory that they want, the only that they ever take.
    ///
    /// The reply is a refusal where the weight may have more than 65,536 such entries; and one for
    /// want of memory where it is refused, or the vectors are not of one depth, or a weight is below
    /// the size of its entry.
    pub fn begin(alloc: Global, values: &Vector, weights: &Vector, large: Large) -> LargeUnderWay
        requires some { 1 ≤ large.at_least }
        ensures asked { (refused : Bool) × (open_of result ≡ newly_asked large refused) }
        ensures ready { CanReply values.now.depth (Some (weighed_by values.now weights.now)) result }
    {
        // The proof wants the greatest weights, how long the vectors are, and that there is a level.
        let _ = weights.weight();
        let _ = values.weight();
        let _ = values.depth().get();
        if values.depth() != weights.depth() {
            return LargeUnderWay::refused(large);
        }
        if is_wide(weights.total(), large.at_least) {
            return LargeUnderWay::of(large, Err(TOO_MANY));
        }
        match HeavyProver::start_above(alloc, values, weights, large.at_least) {
            Ok(Some(prover)) => LargeUnderWay::of(large, Ok(prover)),
            Ok(None) | Err(_) => LargeUnderWay::refused(large),
        }
    }

    /// A question that is refused for want of memory.
    pub fn refused(large: Large) -> LargeUnderWay
        ensures asked { open_of result ≡ newly_asked large true }
        ensures ready { (depth : ℕ) (side : Option Weighed) → 1 ≤ depth
            → CanReply depth side result }
    {
        LargeUnderWay::of(large, Err(WANT_OF_MEMORY))
    }

    // A question that was asked now.
    fn of(large: Large, made: Result<HeavyProver<M61>, u8>) -> LargeUnderWay
        ensures large { result.large ≡ large }
        ensures made { result.made ≡ made }
        ensures revealed { result.revealed.items ≡ [] }
        ensures owed { result.given ≡ false }
    {
        LargeUnderWay {
            large,
            made,
            revealed: ArrayVec::new(),
            given: false,
        }
    }

    /// Whether a reply is owed.
    pub fn is_owed(&self) -> bool
        ensures { result ≡ not (open_of self.now).given }
    {
        !self.given
    }

    /// Takes the challenge of the level that was shown, where one may be revealed. The next reply is
    /// owed then.
    ///
    /// # Errors
    ///
    /// `OutOfTurn` exactly where no reply was given to go on from, or no level is left above it.
    pub fn reveal(&mut self, depth: u8, challenge: u64) -> Result<(), OutOfTurn>
        requires deep { depth ≤ most_depth }
        requires element { challenge < m61_modulus }
        requires stands { (side : Option Weighed) × CanReply depth side self.old }
        ensures turn { IsOk result
            ↔ IsTrue (may_follow depth (open_of self.old) (messages.Reveal challenge)) }
        ensures revealed { OnOk result (open_of self.new
            ≡ with_challenge challenge (open_of self.old)) }
        ensures stands { (side : Option Weighed) → CanReply depth side self.old
            → CanReply depth side self.new }
        ensures same { OnErr result (self.new ≡ self.old) }
    {
        if !self.given || self.revealed.len() + 1 >= depth as usize {
            return Err(OutOfTurn);
        }
        self.revealed.push(challenge);
        self.given = false;
        if let Ok(prover) = &mut self.made {
            prover.learn(M61::of(challenge));
        }
        Ok(())
    }

    /// Sends the reply that is owed, one write a frame. It takes no memory.
    ///
    /// # Errors
    ///
    /// Those of the sink, which a front of the reply has then reached that is shorter than it.
    pub fn put_reply<K: Sink>(&self, out: &mut K) -> Result<(), PortStop>
        requires stands { (depth : ℕ) × (side : Option Weighed) × CanReply depth side self.now }
        ensures talk { (depth : ℕ) (side : Option Weighed) → CanReply depth side self.now
            → SendsWhole (K.talk out.old) (K.talk out.new) result
            (flat_map (spelling Two) (reply_to side (open_of self.now))) }
        ensures cause { HasCause K.faults K.wants K.is_sure out.old out.new result }
    {
        match &self.made {
            Ok(prover) => put_shown(prover, self.revealed.is_empty(), out),
            Err(code) => put_refusal(Version::Two, *code, out),
        }
    }

    /// The question once its reply was given; `None` where that was a refusal or the last one.
    pub fn after_reply(self, depth: u8) -> Option<LargeUnderWay>
        requires owed { (open_of self).given ≡ false }
        ensures after { (side : Option Weighed) → CanReply depth side self
            → option_map open_of result ≡ after_reply depth side (open_of self) }
        ensures stands { (side : Option Weighed) → CanReply depth side self
            → IfSome result (CanReply depth side) }
    {
        if self.made.is_err() || self.revealed.len() + 1 >= depth as usize {
            return None;
        }
        let mut question = self;
        question.given = true;
        Some(question)
    }
}

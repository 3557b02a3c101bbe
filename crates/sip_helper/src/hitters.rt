//! The replies about heavy hitters: leaves or nodes, level by level.

ghost use Rattle.std.specs.Prelude.{◌≡◌, ◌≤◌, ℕ, nat_abs};
ghost use Rattle.sip_ports.specs.Ports.{HasCause, SendsWhole};
ghost use Rattle.sip_vector.specs.Answers.{Fits};
ghost use Rattle.sip_vector.specs.Streams.{most_weight};
ghost use Rattle.sip_vector.specs.declared.update.Side.{Side as AnySide};
ghost use Rattle.sip_wire.specs.Spelling.{spelling};
ghost use Rattle.sip_wire.specs.declared.message.Message.TheVariants as messages;
ghost use Rattle.sip_helper.specs.inside.Starting.{StartsProver};
ghost use Rattle.sip_helper.specs.Hitters.{HasNodes, heavy_query, hitters_query, threshold};

use crate::nodes::put_level;
use crate::prover::{NotStarted, Prover};
use crate::refusal::{NOT_STRICT, TOO_MANY};
use crate::vectors::Vectors;
use sip_field::{Field, M61};
use sip_heavy::HeavyProver;
use sip_ports::{PortStop, Sink};
use sip_vector::{Side, is_wide, share_of};
use sip_wire::{Message, Version, encode};
use std::alloc::Global;

/// From which entry on a query for heavy hitters asks.
#[derive(Clone, Copy)]
pub(crate) enum Least {
    /// From this one on.
    Count(u64),
    /// From this share of the side's total on.
    Share { num: u32, den: u32 },
}

impl Least {
    /// The threshold at a total, which is 1 at least.
    fn threshold(self, total: i64) -> u64
        requires total { nat_abs total ≤ most_weight }
        requires fits { (depth : ℕ) × (side : AnySide) × Fits depth (heavy_query side self) }
        ensures same { result ≡ threshold self total }
        ensures some { 1 ≤ result }
    {
        match self {
            Least::Count(at_least) => at_least,
            Least::Share { num, den } => share_of(total, num, den),
        }
    }
}

/// What the replies about the heavy hitters of a side are made from.
#[derive(Drop)]
pub(crate) struct HittersProver {
    side: Side,
    least: Least,
    prover: HeavyProver<M61>,
}

impl HittersProver {
    /// Takes the memory that the replies want, unless an entry of the side is negative or the
    /// answer may be too wide.
    pub(crate) fn start(
        alloc: Global,
        vectors: &Vectors,
        side: Side,
        least: Least,
    ) -> Result<HittersProver, NotStarted>
        requires fits { Fits vectors.now.first.depth (heavy_query side least) }
        ensures { StartsProver hitters_query HasNodes vectors.now (heavy_query side least) result }
    {
        let vector = vectors.of_side(side);
        if !vector.is_strict() {
            return Err(NotStarted::Refused(NOT_STRICT));
        }
        // The proof wants the greatest weight and the length of the numbers.
        let _ = vector.weight();
        let _ = vector.depth();
        let total = vector.total();
        let at_least = least.threshold(total);
        if is_wide(total, at_least) {
            return Err(NotStarted::Refused(TOO_MANY));
        }
        let prover = HeavyProver::start(alloc, vector, at_least)?;
        Ok(HittersProver {
            side,
            least,
            prover,
        })
    }
}

/// Sends the end of a level. Its message is made in a call of its own, so that the stack does not
/// have it while nodes are sent.
#[inline(never)]
pub fn put_level_end<K: Sink>(version: Version, out: &mut K) -> Result<(), PortStop>
    ensures talk { SendsWhole (K.talk out.old) (K.talk out.new) result
        (spelling version messages.LevelEnd) }
    ensures cause { HasCause K.faults K.wants K.is_sure out.old out.new result }
{
    encode(&Message::LevelEnd, version, out)
}

impl Prover for HittersProver {
    ghost query = { hitters_query };

    ghost has_learnt = { HasNodes };

    fn learn(&mut self, challenge: u64) {
        self.prover.learn(M61::of(challenge));
    }

    fn put_reply<K: Sink>(
        &self,
        version: Version,
        _vectors: &Vectors,
        revealed: &[u64],
        out: &mut K,
    ) -> Result<(), PortStop> {
        put_level(version, &self.prover, revealed.is_empty(), out)?;
        put_level_end(version, out)
    }
}

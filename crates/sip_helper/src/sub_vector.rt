//! The replies about a sub-vector: its entries, and siblings level by level.

ghost use Rattle.std.specs.Prelude.{◌≡◌, ◌<◌, ◌≤◌, ◌^◌, IsTrue, length};
ghost use Rattle.sip_field.specs.Moduli.{m61_modulus};
ghost use Rattle.sip_ports.specs.Ports.{HasCause, SendsWhole};
ghost use Rattle.sip_vector.specs.declared.query.Query.TheVariants as queries;
ghost use Rattle.sip_wire.specs.declared.version.Version.{Version as AnyVersion};
ghost use Rattle.sip_wire.specs.Spelling.{fits, spelling};
ghost use Rattle.sip_wire.specs.Versions.{deepest};
ghost use Rattle.sip_subvec.specs.Honest.{honest_reply, its_siblings, proving, siblings_message};
ghost use Rattle.sip_helper.specs.inside.Starting.{StartsProver};
ghost use Rattle.sip_helper.specs.SubVectors.{HasLevel, sub_query};

use crate::entries::put_entries;
use crate::prover::{NotStarted, Prover};
use crate::refusal::TOO_MANY;
use crate::vectors::Vectors;
use sip_field::{Field, M61};
use sip_ports::{PortStop, Sink};
use sip_subvec::{MOST_ENTRIES, SubProver};
use sip_vector::Vector;
use sip_wire::{Message, Version, encode};
use std::alloc::Global;

/// What the replies about the entries from `lo` to `hi` of the first side are made from.
#[derive(Drop)]
pub(crate) struct SubVectorProver {
    lo: u64,
    hi: u64,
    prover: SubProver<M61>,
}

impl SubVectorProver {
    /// Takes the memory that the replies want, unless the answer has too many entries.
    pub(crate) fn start(
        alloc: Global,
        vectors: &Vectors,
        lo: u64,
        hi: u64,
    ) -> Result<SubVectorProver, NotStarted>
        requires order { lo ≤ hi }
        requires within { hi < 2 ^ vectors.now.first.depth }
        ensures { StartsProver sub_query HasLevel vectors.now (queries.Sub lo hi) result }
    {
        if vectors.first.count_in(lo, hi) > MOST_ENTRIES {
            return Err(NotStarted::Refused(TOO_MANY));
        }
        let prover = SubProver::start(alloc, &vectors.first, lo, hi)?;
        Ok(SubVectorProver { lo, hi, prover })
    }
}

impl Prover for SubVectorProver {
    ghost query = { sub_query };

    ghost has_learnt = { HasLevel };

    fn learn(&mut self, challenge: u64) {
        self.prover.learn(M61::of(challenge));
    }

    fn put_reply<K: Sink>(
        &self,
        version: Version,
        vectors: &Vectors,
        revealed: &[u64],
        out: &mut K,
    ) -> Result<(), PortStop> {
        put_honest(
            version,
            &vectors.first,
            self.lo,
            self.hi,
            &self.prover,
            revealed,
            out,
        )
    }
}

/// The siblings of the level that is reached.
fn siblings_of(prover: &SubProver<M61>) -> Message
    requires { 2 ≤ length prover.now.level }
    ensures message { result ≡ siblings_message (its_siblings prover.now) }
    ensures fits { (version : AnyVersion) → IsTrue (fits version result) }
{
    let siblings = prover.siblings();
    Message::Siblings {
        left: siblings.left.map(|x| x.number()),
        right: siblings.right.map(|x| x.number()),
    }
}

/// Sends the siblings of the level that is reached. Their message is made in a call of its own, so
/// that the stack does not have it while entries are sent.
#[inline(never)]
fn put_siblings<K: Sink>(
    version: Version,
    prover: &SubProver<M61>,
    out: &mut K,
) -> Result<(), PortStop>
    requires { 2 ≤ length prover.now.level }
    ensures talk { SendsWhole (K.talk out.old) (K.talk out.new) result
        (spelling version (siblings_message (its_siblings prover.now))) }
    ensures cause { HasCause K.faults K.wants K.is_sure out.old out.new result }
{
    encode(&siblings_of(prover), version, out)
}

/// Sends an honest reply: the entries before any challenge was revealed, and the siblings.
fn put_honest<K: Sink>(
    version: Version,
    vector: &Vector,
    lo: u64,
    hi: u64,
    prover: &SubProver<M61>,
    revealed: &[u64],
    out: &mut K,
) -> Result<(), PortStop>
    requires within { hi < 2 ^ vector.now.depth }
    requires deep { vector.now.depth ≤ deepest version }
    requires level { 2 ≤ length prover.now.level }
    requires proving { prover.now ≡ proving m61_modulus vector.now.numbers lo hi revealed.now }
    ensures talk { SendsWhole (K.talk out.old)
        (K.talk out.new) result
        (honest_reply version m61_modulus vector.now.numbers lo hi revealed.now) }
    ensures cause { HasCause K.faults K.wants K.is_sure out.old out.new result }
{
    if revealed.is_empty() {
        put_entries(version, vector, lo, hi, out)?;
    }
    put_siblings(version, prover, out)
}

//! The replies about a sum of products: its claim, and round polynomials.

ghost use Rattle.std.specs.Prelude.{◌≡◌, ◌≤◌, ◌^◌, IfOk, IsTrue, length};
ghost use Rattle.sip_field.specs.Moduli.{m61_modulus};
ghost use Rattle.sip_vector.specs.Answers.{Fits};
ghost use Rattle.sip_wire.specs.declared.message.Message.TheVariants as messages;
ghost use Rattle.sip_wire.specs.declared.version.Version.{Version as AnyVersion};
ghost use Rattle.sip_wire.specs.Spelling.{fits};
ghost use Rattle.sip_sums.specs.Honest.{begun, its_polynomial, poly_message};
ghost use Rattle.sip_helper.specs.inside.Starting.{StartsProver};
ghost use Rattle.sip_helper.specs.Sums.{HasFolded, asked_for, lists_over, sum_query};

use crate::prover::{NotStarted, Prover};
use crate::vectors::Vectors;
use sip_field::{Field, M61, OutOfMemory};
use sip_ports::{PortStop, Sink};
use sip_sums::{Poly, SumProver};
use sip_vector::Side;
use sip_wire::{Message, Version, encode};
use std::alloc::Global;

/// A query for a sum of products.
#[derive(Clone, Copy)]
pub(crate) enum SumQuery {
    /// The sum of a side's entries from `lo` to `hi`.
    Range { side: Side, lo: u64, hi: u64 },
    /// The sum of the squares of a side's entries.
    F2 { side: Side },
    /// The inner product of the two sides.
    Inner,
}

/// What the replies about a sum of products are made from.
#[derive(Drop)]
pub(crate) struct SumsProver {
    query: SumQuery,
    prover: SumProver<M61>,
}

impl SumsProver {
    /// Takes the memory that the replies want.
    pub(crate) fn start(
        alloc: Global,
        vectors: &Vectors,
        query: SumQuery,
    ) -> Result<SumsProver, NotStarted>
        requires depths { vectors.now.second.depth ≡ vectors.now.first.depth }
        requires fits { Fits vectors.now.first.depth (asked_for query) }
        ensures { StartsProver sum_query HasFolded vectors.now (asked_for query) result }
    {
        let prover = prover_of(alloc, vectors, query)?;
        // The proof wants the length of the second list.
        let _ = prover.rounds_left();
        Ok(SumsProver { query, prover })
    }

    /// What the sum is.
    fn claim(&self) -> Message
        ensures message { result ≡ messages.Claim self.now.prover.claim }
        ensures fits { (version : AnyVersion) → IsTrue (fits version result) }
    {
        Message::Claim {
            value: self.prover.claim(),
        }
    }

    /// The polynomial of the present round.
    fn polynomial(&self) -> Message
        requires { 2 ≤ length self.now.prover.first }
        ensures message { result ≡ poly_message (its_polynomial m61_modulus self.now.prover) }
        ensures fits { (version : AnyVersion) → IsTrue (fits version result) }
    {
        let Poly { c0, c1, c2 } = self.prover.poly();
        Message::Poly {
            c0: c0.number(),
            c1: c1.number(),
            c2: c2.number(),
        }
    }
}

/// The prover of a sum over the vectors.
fn prover_of(
    alloc: Global,
    vectors: &Vectors,
    query: SumQuery,
) -> Result<SumProver<M61>, OutOfMemory>
    requires depths { vectors.now.second.depth ≡ vectors.now.first.depth }
    requires fits { Fits vectors.now.first.depth (asked_for query) }
    ensures begun { IfOk result (λ prover. prover ≡ begun m61_modulus
        (lists_over vectors.now query).first (lists_over vectors.now query).second) }
    ensures length { IfOk result (λ prover. length prover.first ≡ 2 ^ vectors.now.first.depth) }
{
    match query {
        SumQuery::Range { side, lo, hi } => {
            SumProver::start_range(alloc, vectors.of_side(side), lo, hi)
        }
        SumQuery::F2 { side } => SumProver::start_f2(alloc, vectors.of_side(side)),
        SumQuery::Inner => SumProver::start_inner(alloc, &vectors.first, &vectors.second),
    }
}

impl Prover for SumsProver {
    ghost query = { sum_query };

    ghost has_learnt = { HasFolded };

    #[tactic(auto, using(crate::proofs::SubVectors::tall))]
    fn learn(&mut self, challenge: u64) {
        self.prover.learn(M61::of(challenge));
    }

    #[inline(never)]
    fn put_reply<K: Sink>(
        &self,
        version: Version,
        _vectors: &Vectors,
        revealed: &[u64],
        out: &mut K,
    ) -> Result<(), PortStop> {
        let is_first = revealed.is_empty();
        if is_first {
            encode(&self.claim(), version, out)?;
        }
        encode(&self.polynomial(), version, out)
    }
}

//! The kinds of query, a variant for each: how its prover starts, and that it proves.

ghost use Rattle.std.specs.Prelude.{◌≡◌};
ghost use Rattle.sip_vector.specs.Answers.{Fits};
ghost use Rattle.sip_helper.specs.Hitters.{heavy_query};
ghost use Rattle.sip_helper.specs.Kinds.{HasLearnt, query_proved};
ghost use Rattle.sip_helper.specs.inside.Starting.{StartsProver};
ghost use Rattle.sip_helper.specs.Sums.{asked_for};

use crate::hitters::{HittersProver, Least};
use crate::prover::{NotStarted, Prover};
use crate::refusal::OUT_OF_TURN;
use crate::sub_vector::SubVectorProver;
use crate::sums::{SumQuery, SumsProver};
use crate::vectors::Vectors;
use sip_ports::{PortStop, Sink};
use sip_vector::{Query, Side};
use sip_wire::Version;
use std::alloc::Global;

/// The prover of a query, by its kind.
#[derive(Drop)]
pub(crate) enum KindProver {
    Sub(SubVectorProver),
    Sum(SumsProver),
    Heavy(HittersProver),
}

impl KindProver {
    /// The prover of a query that fits the vectors' depth. It takes the memory that the replies
    /// want.
    pub(crate) fn start(
        alloc: Global,
        vectors: &Vectors,
        query: Query,
    ) -> Result<KindProver, NotStarted>
        requires depths { vectors.now.second.depth ≡ vectors.now.first.depth }
        requires fits { Fits vectors.now.first.depth query }
        ensures { StartsProver query_proved HasLearnt vectors.now query result }
    {
        match query {
            Query::Sub { lo, hi } => {
                let prover = SubVectorProver::start(alloc, vectors, lo, hi)?;
                Ok(KindProver::Sub(prover))
            }
            Query::Range { side, lo, hi } => {
                KindProver::start_sum(alloc, vectors, SumQuery::Range { side, lo, hi })
            }
            Query::F2 { side } => KindProver::start_sum(alloc, vectors, SumQuery::F2 { side }),
            Query::Inner => KindProver::start_sum(alloc, vectors, SumQuery::Inner),
            Query::Heavy { side, at_least } => {
                KindProver::start_hitters(alloc, vectors, side, Least::Count(at_least))
            }
            Query::Share { side, num, den } => {
                KindProver::start_hitters(alloc, vectors, side, Least::Share { num, den })
            }
            // It is not built, so no turn comes to it.
            Query::Above { .. } => Err(NotStarted::Refused(OUT_OF_TURN)),
        }
    }

    /// The prover of a query for a sum.
    fn start_sum(
        alloc: Global,
        vectors: &Vectors,
        query: SumQuery,
    ) -> Result<KindProver, NotStarted>
        requires depths { vectors.now.second.depth ≡ vectors.now.first.depth }
        requires fits { Fits vectors.now.first.depth (asked_for query) }
        ensures { StartsProver query_proved HasLearnt vectors.now (asked_for query) result }
    {
        let prover = SumsProver::start(alloc, vectors, query)?;
        Ok(KindProver::Sum(prover))
    }

    /// The prover of a query for heavy hitters.
    fn start_hitters(
        alloc: Global,
        vectors: &Vectors,
        side: Side,
        least: Least,
    ) -> Result<KindProver, NotStarted>
        requires fits { Fits vectors.now.first.depth (heavy_query side least) }
        ensures { StartsProver query_proved HasLearnt vectors.now (heavy_query side least) result }
    {
        let prover = HittersProver::start(alloc, vectors, side, least)?;
        Ok(KindProver::Heavy(prover))
    }
}

impl Prover for KindProver {
    ghost query = { query_proved };

    ghost has_learnt = { HasLearnt };

    fn learn(&mut self, challenge: u64) {
        match self {
            KindProver::Sub(prover) => prover.learn(challenge),
            KindProver::Sum(prover) => prover.learn(challenge),
            KindProver::Heavy(prover) => prover.learn(challenge),
        }
    }

    fn put_reply<K: Sink>(
        &self,
        version: Version,
        vectors: &Vectors,
        revealed: &[u64],
        out: &mut K,
    ) -> Result<(), PortStop> {
        match self {
            KindProver::Sub(prover) => prover.put_reply(version, vectors, revealed, out),
            KindProver::Sum(prover) => prover.put_reply(version, vectors, revealed, out),
            KindProver::Heavy(prover) => prover.put_reply(version, vectors, revealed, out),
        }
    }
}

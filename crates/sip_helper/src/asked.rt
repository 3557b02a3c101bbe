//! A query that is open, and what its replies are made from.

ghost use Rattle.std.specs.Prelude.{◌≡◌, ◌<◌, ◌≤◌, ℕ, [], IfSome, OnOk, OnErr, IsTrue, IsOk};
ghost use Rattle.std.specs.Prelude.{Option, false, true, length, ◌↔◌};
ghost use Rattle.std.specs.List.{flat_map};
ghost use Rattle.std.specs.Option.{option_map};
ghost use Rattle.sip_field.specs.Moduli.{m61_modulus};
ghost use Rattle.sip_ports.specs.Ports.{HasCause, SendsWhole};
ghost use Rattle.sip_vector.specs.Answers.{Fits};
ghost use Rattle.sip_vector.specs.Limits.{most_depth};
ghost use Rattle.sip_wire.specs.Spelling.{spelling};
ghost use Rattle.sip_wire.specs.Versions.{deepest};
ghost use Rattle.sip_helper.specs.Vectors.{Vectors as AnyVectors};
ghost use Rattle.sip_helper.specs.Turns.{after_reply, may_reveal, reply_to, with_challenge};
ghost use Rattle.sip_helper.specs.inside.Answering.{query_of, open_of, IsReady, CanReply};
ghost use Rattle.sip_helper.specs.inside.Legal.{HaveDepth};

use crate::OutOfTurn;
use crate::kinds::KindProver;
use crate::prover::{NotStarted, Prover};
use crate::refusal::{WANT_OF_MEMORY, put_refusal};
use crate::vectors::Vectors;
use arrayvec::ArrayVec;
use sip_ports::{PortStop, Sink};
use sip_vector::{CAP, Query};
use sip_wire::{Message, Version};
use std::alloc::Global;

/// What the replies to a query are made from.
#[derive(Drop)]
pub(crate) enum Answerer {
    /// Memory was refused.
    NoMemory(Query),
    /// The query is refused over the vectors, by this code.
    Refused { query: Query, code: u8 },
    /// The honest replies are given.
    Honest(KindProver),
}

impl Answerer {
    /// Takes the memory that the replies want, the only that they ever take.
    pub(crate) fn start(alloc: Global, vectors: &Option<Vectors>, query: Query) -> Answerer
        requires depths { IfSome vectors.now (λ v. v.second.depth ≡ v.first.depth) }
        requires fits { IfSome vectors.now (λ v. Fits v.first.depth query) }
        ensures query { query_of result ≡ query }
        ensures ready { (depth : ℕ) → IfSome vectors.now (HaveDepth depth)
            → IsReady depth vectors.now [] false result }
    {
        let Some(vectors) = vectors else {
            return Answerer::NoMemory(query);
        };
        match KindProver::start(alloc, vectors, query) {
            Ok(prover) => Answerer::Honest(prover),
            Err(NotStarted::Refused(code)) => Answerer::Refused { query, code },
            Err(NotStarted::NoMemory) => Answerer::NoMemory(query),
        }
    }
}

/// A query that is open.
#[derive(Drop)]
pub(crate) struct QueryUnderWay {
    pub(crate) answerer: Answerer,
    /// The challenges that were revealed behind it.
    pub(crate) revealed: ArrayVec<u64, CAP>,
    /// Whether its last reply was given; it is owed otherwise.
    pub(crate) given: bool,
}

impl QueryUnderWay {
    /// A query whose first reply is owed.
    pub(crate) fn new(answerer: Answerer) -> QueryUnderWay
        ensures answerer { result.answerer ≡ answerer }
        ensures revealed { result.revealed.items ≡ [] }
        ensures owed { result.given ≡ false }
    {
        QueryUnderWay {
            answerer,
            revealed: ArrayVec::new(),
            given: false,
        }
    }

    /// Takes the challenge of the level that was answered, where one may be revealed. The next
    /// reply is owed then.
    pub(crate) fn reveal(&mut self, depth: u8, challenge: u64) -> Result<(), OutOfTurn>
        requires deep { depth ≤ most_depth }
        requires element { challenge < m61_modulus }
        requires stands { (vectors : Option AnyVectors) × CanReply depth vectors self.old }
        ensures turn { IsOk result ↔ IsTrue (may_reveal depth (open_of self.old)) }
        ensures revealed { OnOk result (open_of self.new
            ≡ with_challenge challenge (open_of self.old)) }
        ensures stands { (vectors : Option AnyVectors) → CanReply depth vectors self.old
            → CanReply depth vectors self.new }
        ensures same { OnErr result (self.new ≡ self.old) }
    {
        if !self.given || self.revealed.len() + 1 >= depth as usize {
            return Err(OutOfTurn);
        }
        self.revealed.push(challenge);
        self.given = false;
        if let Answerer::Honest(prover) = &mut self.answerer {
            prover.learn(challenge);
        }
        Ok(())
    }

    /// Sends the reply that is owed.
    pub(crate) fn put_reply<K: Sink>(
        &self,
        version: Version,
        vectors: &Option<Vectors>,
        out: &mut K,
    ) -> Result<(), PortStop>
        requires stands { (depth : ℕ) × (depth ≤ deepest version)
            × IfSome vectors.now (HaveDepth depth) × CanReply depth vectors.now self.now }
        ensures talk { SendsWhole (K.talk out.old)
            (K.talk out.new) result
            (flat_map (spelling version) (reply_to vectors.now (open_of self.now))) }
        ensures cause { HasCause K.faults K.wants K.is_sure out.old out.new result }
    {
        match &self.answerer {
            Answerer::NoMemory(_) => put_refusal(version, WANT_OF_MEMORY, out),
            Answerer::Refused { code, .. } => put_refusal(version, *code, out),
            Answerer::Honest(prover) => match vectors {
                Some(vectors) => prover.put_reply(version, vectors, &self.revealed, out),
                None => put_refusal(version, WANT_OF_MEMORY, out),
            },
        }
    }

    /// The query once its reply was given; `None` where that was a refusal or the last one.
    pub(crate) fn after_reply(self, depth: u8) -> Option<QueryUnderWay>
        requires owed { self.given ≡ false }
        ensures after { (vectors : Option AnyVectors) → CanReply depth vectors self
            → option_map open_of result ≡ after_reply depth vectors (open_of self) }
        ensures stands { (vectors : Option AnyVectors) → CanReply depth vectors self
            → IfSome result (CanReply depth vectors) }
    {
        let Answerer::Honest(_) = &self.answerer else {
            return None;
        };
        if self.revealed.len() + 1 >= depth as usize {
            return None;
        }
        let mut asked = self;
        asked.given = true;
        Some(asked)
    }
}

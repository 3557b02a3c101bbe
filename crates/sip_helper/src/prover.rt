//! What a kind of query brings to the helper.

ghost use Rattle.std.specs.Prelude.{◌≡◌, ◌+◌, ◌<◌, ◌≤◌, ◌∷◌, ◌++◌, ℕ, List, [], length};
ghost use Rattle.std.specs.List.{flat_map};
ghost use Rattle.sip_field.specs.Moduli.{m61_modulus};
ghost use Rattle.sip_ports.specs.Ports.{HasCause, SendsWhole};
ghost use Rattle.sip_vector.specs.declared.query.Query.{Query as AnyQuery};
ghost use Rattle.sip_wire.specs.Spelling.{spelling};
ghost use Rattle.sip_wire.specs.Versions.{deepest};
ghost use Rattle.sip_helper.specs.declared.prover.NotStarted.TheVariants.{NoMemory};
ghost use Rattle.sip_helper.specs.Vectors.{Vectors as AnyVectors};
ghost use Rattle.sip_helper.specs.Kinds.{help_row};
ghost use Rattle.sip_helper.specs.inside.Legal.{HaveDepth};

use crate::vectors::Vectors;
use sip_field::OutOfMemory;
use sip_ports::{PortStop, Sink};
use sip_wire::Version;

/// Why a prover did not start.
#[derive(Clone, Copy, Debug, PartialEq, Eq)]
pub(crate) enum NotStarted {
    /// Memory was refused.
    NoMemory,
    /// The query is refused over these vectors, by this code.
    Refused(u8),
}

impl From<OutOfMemory> for NotStarted {
    ghost from_gives = { λ _ e. e ≡ NoMemory };

    fn from(_: OutOfMemory) -> Self {
        NotStarted::NoMemory
    }
}

/// What the honest replies to a query of one kind are made from. No reply takes memory.
pub(crate) trait Prover {
    /// The query.
    ghost query: { Self → AnyQuery };

    /// It stands for these vectors, of this depth, and has learnt these challenges.
    ghost has_learnt: { ℕ → AnyVectors → List ℕ → Self → Type 0 };

    /// Learns a challenge that was revealed, where a reply is still due behind it.
    fn learn(&mut self, challenge: u64)
        requires element { challenge < m61_modulus }
        requires stands { (depth : ℕ) × (v : AnyVectors) × (revealed : List ℕ)
            × (length revealed + 1 < depth) × has_learnt depth v revealed self.old }
        ensures query { query self.new ≡ query self.old }
        ensures learnt { (depth : ℕ) (v : AnyVectors) (revealed : List ℕ)
            → length revealed + 1 < depth
            → has_learnt depth v revealed self.old
            → has_learnt depth v (revealed ++ challenge ∷ []) self.new };

    /// Sends the honest reply that is due once these challenges are revealed, one write a frame.
    fn put_reply<K: Sink>(
        &self,
        version: Version,
        vectors: &Vectors,
        revealed: &[u64],
        out: &mut K,
    ) -> Result<(), PortStop>
        requires stands { (depth : ℕ) × (depth ≤ deepest version) × HaveDepth depth vectors.now
            × (length revealed.now < depth) × has_learnt depth vectors.now revealed.now self.now }
        ensures talk { SendsWhole (K.talk out.old) (K.talk out.new) result
            (flat_map (spelling version)
            ((help_row (query self.now)).honest vectors.now revealed.now)) }
        ensures cause { HasCause K.faults K.wants K.is_sure out.old out.new result };
}

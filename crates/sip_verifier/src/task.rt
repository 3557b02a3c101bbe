//! What a verifier is to do.

ghost use Rattle.std.specs.Prelude.{◌≡◌};
ghost use Rattle.sip_verifier.specs.Tasks.{version_of};

use arrayvec::ArrayVec;
use sip_stream::Form;
use sip_vector::{Depth, Query};
use sip_wire::{MOST_QUERIES, Version};

/// A stream over 2^depth items in a form, and the queries of a run in their order: 1 to 16, each of
/// which fits the depth.
#[derive(Drop)]
pub struct Task {
    /// The stream has 2^depth items; 1 to 48.
    pub depth: Depth,
    /// How the stream's records are written.
    pub form: Form,
    /// The queries, in the order in which they are asked. A run wants 1 to 16, each of which fits
    /// the depth.
    pub queries: ArrayVec<Query, MOST_QUERIES>,
}

impl Task {
    /// The version of the talk: the least one in which the queries can be asked at the depth.
    pub fn version(&self) -> Version
        ensures { result ≡ version_of self.now }
    {
        Version::needed(self.depth, &self.queries)
    }
}

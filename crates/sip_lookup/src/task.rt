//! What a verifier of lookups is to do.

ghost use Rattle.std.specs.Prelude.{◌≡◌, ◌≤◌, length, replicate};
ghost use Rattle.sip_vector.specs.declared.query.Query.TheVariants as queries;
ghost use Rattle.sip_wire.specs.Table.{most_queries};
ghost use Rattle.sip_lookup.specs.Tasks.{version_of};

use crate::lookup::Lookup;
use arrayvec::ArrayVec;
use sip_stream::Form;
use sip_vector::{Depth, Query};
use sip_verifier::Task;
use sip_wire::{MOST_QUERIES, Version};

/// A stream over 2^depth items in a form, and the lookups of a run in their order: 1 to 16, each at
/// an item below 2^depth.
#[derive(Drop)]
pub struct LookTask {
    /// The stream has 2^depth items; 1 to 48.
    pub depth: Depth,
    /// How the stream's records are written.
    pub form: Form,
    /// The lookups, in the order in which they are asked.
    pub lookups: ArrayVec<Lookup, MOST_QUERIES>,
}

impl LookTask {
    /// The version of the talk: the least one at the depth.
    pub fn version(&self) -> Version
        ensures { result ≡ version_of self.now }
    {
        Version::needed(self.depth, &[])
    }

    /// The task whose stream is the same and whose seats are a root for each lookup: one for a
    /// sub-vector has it, whatever the interval.
    pub(crate) fn rooted(&self) -> Task
        ensures depth { result.depth ≡ self.now.depth }
        ensures form { result.form ≡ self.now.form }
        ensures queries { result.queries.items
            ≡ replicate (length self.now.lookups.items) (queries.Sub 0 0) }
        ensures few { length result.queries.items ≤ most_queries }
    {
        let mut queries = ArrayVec::new();
        for _ in 0..self.lookups.len() {
            queries.push(Query::Sub { lo: 0, hi: 0 });
        }
        Task {
            depth: self.depth,
            form: self.form,
            queries,
        }
    }
}

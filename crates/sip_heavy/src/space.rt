//! Memory for a check, taken before it.
ghost use Rattle.std.specs.Prelude.{◌≡◌, [], IfOk};

use sip_field::OutOfMemory;
use sip_vector::Entry;
use sip_wire::Node;
use std::alloc::Global;
use std::marker::Model;

/// Room for the check of one query after another, and what the last one found.
///
/// It has two lists of nodes and one of entries, each with room for the same number of them: 24
/// bytes a node, 16 an entry. A check that it is lent to takes no more, and gives it back.
#[derive(Drop)]
pub struct HeavySpace {
    pub(crate) nodes: usize,
    // The nodes of a level that are known from the level below.
    pub(crate) known: Vec<Node>,
    // The nodes of the level that were received, and the known ones before the last of these.
    pub(crate) level: Vec<Node>,
    pub(crate) found: Vec<Entry>,
}

impl Model for HeavySpace {
    ghost use Rattle.std.specs.Prelude.{◌≤◌, vec_capacity};
    ghost use Rattle.sip_heavy.specs.Checking.{Space};

    ghost Value = { Space };

    ghost view = { λ s. record { nodes = s.nodes; found = s.found.items } };

    ghost invariant = { λ s. (s.nodes ≤ vec_capacity s.known) × (s.nodes ≤ vec_capacity s.level)
        × (s.nodes ≤ vec_capacity s.found) };
}

impl HeavySpace {
    /// Room for this many nodes in each list. All memory is taken now.
    ///
    /// # Errors
    ///
    /// [`OutOfMemory`] where an allocation is refused.
    pub fn reserve(alloc: Global, nodes: usize) -> Result<HeavySpace, OutOfMemory>
        ensures nodes { IfOk result (λ space. space.nodes ≡ nodes) }
        ensures found { IfOk result (λ space. space.found ≡ []) }
    {
        let known = Vec::with_capacity(alloc, nodes)?;
        let level = Vec::with_capacity(alloc, nodes)?;
        let found = Vec::with_capacity(alloc, nodes)?;
        Ok(HeavySpace {
            nodes,
            known,
            level,
            found,
        })
    }

    /// The leaves of the last check with a count of at least its threshold, in the order in which
    /// they came. They are an answer only where that check was passed to its end.
    pub fn found(&self) -> &[Entry]
        ensures { result.now ≡ self.now.found }
    {
        &self.found
    }
}

//! A question for large entries.
ghost use Rattle.std.specs.Prelude.{◌≡◌, ◌≤◌, pos};
ghost use Rattle.sip_vector.specs.Streams.{most_weight};
ghost use Rattle.sip_vector.specs.Thresholds.{is_wide};
ghost use Rattle.sip_above.specs.Questions.{most_nodes_of, query_of};

use sip_vector::{Query, Side, is_wide};

/// The entries of a side that are at least a threshold, from 1 to 2^63 - 1. Other entries may be
/// below 0.
#[derive(Clone, Copy, Debug, PartialEq, Eq, Default)]
pub struct Large {
    pub side: Side,
    pub at_least: u64,
}

impl Large {
    /// The query that asks for them.
    pub fn query(&self) -> Query
        ensures { result ≡ query_of self.now }
    {
        Query::Above {
            side: self.side,
            at_least: self.at_least,
        }
    }

    /// How many nodes a level of the replies may have, and so how many entries the answer, for a
    /// side of this weight.
    pub fn most_nodes(&self, weight: u64) -> usize
        requires some { 1 ≤ self.now.at_least }
        requires light { weight ≤ most_weight }
        ensures { result ≡ most_nodes_of self.now weight }
    {
        2 * (weight / self.at_least) as usize
    }

    /// Whether a side of this weight may have more such entries than are asked for.
    pub fn is_wide(&self, weight: u64) -> bool
        requires some { 1 ≤ self.now.at_least }
        requires light { weight ≤ most_weight }
        ensures { result ≡ is_wide self.now.at_least (pos weight) }
    {
        is_wide(weight as i64, self.at_least)
    }
}

//! What can be asked of a stream.

ghost use Rattle.std.specs.Prelude.{◌≡◌, ◌↔◌, IsTrue};
ghost use Rattle.sip_questions.specs.Promises.{CanPose};
ghost use Rattle.sip_questions.specs.Sittings.{query_like};

use sip_above::Large;
use sip_lookup::Lookup;
use sip_moments::{LEAST_DEGREE, Moment};
use sip_vector::{Depth, Query};
use sip_wire::{MOST_DEGREE, Version};

/// One question about a stream.
#[derive(Clone, Copy, Debug, PartialEq, Eq)]
pub enum Question {
    /// The entries of an interval, a sum, or the large entries of a side.
    Query(Query),
    /// The entry at an item of side 0, or the nearest one that is not 0.
    Lookup(Lookup),
    /// The sum of a power, 3 to 8, of the numbers of a side.
    Moment(Moment),
    /// The large entries of a side, also where others are below 0.
    Large(Large),
}

/// The lookup of item 0.
impl Default for Question {
    ghost use Rattle.sip_lookup.specs.declared.lookup.Lookup.TheVariants as lookups;
    ghost use Rattle.sip_questions.specs.declared.question.Question.TheVariants as questions;

    ghost is_default = { λ q. q ≡ questions.Lookup (lookups.Index 0) };

    fn default() -> Question {
        Question::Lookup(Lookup::Index(0))
    }
}

impl Question {
    /// Whether the question can be asked at a depth in a version.
    pub fn can_pose(&self, version: Version, depth: Depth) -> bool
        ensures { IsTrue result ↔ CanPose version depth self.now }
    {
        match self {
            Question::Query(query) => {
                query.is_built()
                    && query.fits(depth)
                    && depth.get() <= version.deepest()
                    && version.speaks(query)
            }
            Question::Lookup(lookup) => lookup.item() < 1 << depth.get(),
            Question::Moment(moment) => {
                LEAST_DEGREE <= moment.degree && moment.degree <= MOST_DEGREE
            }
            Question::Large(large) => {
                let query = large.query();
                query.fits(depth) && depth.get() <= version.deepest() && version.speaks(&query)
            }
        }
    }

    /// The query whose running numbers serve the question too: that of an entry for a lookup, of
    /// the second moment of its side for a moment, and its own for large entries. So
    /// [`Running::begin`](sip_verifier::Running) of it begins what is kept of a stream for the
    /// question.
    pub fn query_like(&self) -> Query
        ensures { result ≡ query_like self.now }
    {
        match self {
            Question::Query(query) => *query,
            Question::Lookup(lookup) => {
                let item = lookup.item();
                Query::Sub { lo: item, hi: item }
            }
            Question::Moment(moment) => Query::F2 { side: moment.side },
            Question::Large(large) => large.query(),
        }
    }
}

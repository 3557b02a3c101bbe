//! What can be asked of the vectors.

ghost use Rattle.std.specs.Prelude.{◌≡◌, ◌↔◌, IsTrue};
ghost use Rattle.sip_vector.specs.Answers.{Fits};
ghost use Rattle.sip_vector.specs.Built.{is_built};

use crate::{Depth, Side};

/// A question about the two vectors.
#[derive(Clone, Copy, Debug, PartialEq, Eq)]
pub enum Query {
    /// The entries of side `First` from `lo` to `hi` that are not 0.
    Sub { lo: u64, hi: u64 },
    /// The sum of a side's entries from `lo` to `hi`.
    Range { side: Side, lo: u64, hi: u64 },
    /// The sum of the squares of a side's entries.
    F2 { side: Side },
    /// The inner product of the two vectors.
    Inner,
    /// The entries of a side that are at least `at_least`.
    Heavy { side: Side, at_least: u64 },
    /// The entries of a side that are at least `num`/`den` of its total, none where the total is
    /// not above 0.
    Share { side: Side, num: u32, den: u32 },
    /// The entries of a side that are at least `at_least`, of any stream: also where others are
    /// below 0.
    Above { side: Side, at_least: u64 },
}

impl Query {
    /// The greatest denominator of a share.
    pub const MOST_SHARE: u32 = 1_000_000;

    /// Whether the query can be asked at this depth: an interval is in order and within the items,
    /// a threshold is from 1 to 2^63 - 1, and a share is above 0, 1 at the most, and has a
    /// denominator up to 1,000,000.
    pub fn fits(&self, depth: Depth) -> bool
        ensures { IsTrue result ↔ Fits depth self.now }
    {
        let items = 1u64 << depth.get();
        match self {
            Query::Sub { lo, hi } | Query::Range { lo, hi, .. } => lo <= hi && *hi < items,
            Query::F2 { .. } | Query::Inner => true,
            Query::Heavy { at_least, .. } | Query::Above { at_least, .. } => {
                1 <= *at_least && *at_least < 1 << 63
            }
            Query::Share { num, den, .. } => {
                1 <= *num && num <= den && *den <= Query::MOST_SHARE
            }
        }
    }

    /// Whether the query's kind is built: a verifier can check its answer, and a helper can give
    /// one.
    ///
    /// A query of a kind that is not built is never asked, and one that comes from outside is not
    /// answered, whatever its numbers are.
    pub fn is_built(&self) -> bool
        ensures { result ≡ is_built self.now }
    {
        match self {
            Query::Sub { .. } | Query::Range { .. } | Query::F2 { .. } | Query::Inner => true,
            Query::Heavy { .. } | Query::Share { .. } => true,
            Query::Above { .. } => false,
        }
    }
}

/// The inner product.
impl Default for Query {
    ghost use Rattle.sip_vector.specs.declared.query.Query.TheVariants as queries;

    ghost is_default = { λ q. q ≡ queries.Inner };

    fn default() -> Query {
        Query::Inner
    }
}

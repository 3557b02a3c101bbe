//! Why a part is not added to a sketch, or a sum is not stored.

use sip_vector::Side;
use thiserror::Error;

/// Why a part of a stream was not added to those before it, or why the sum of all parts was not put
/// in the place of a sketch. `absorb` answers only the reasons of a part, all but the last two.
#[derive(Clone, Copy, Debug, PartialEq, Eq, Error)]
pub enum Unlike {
    /// Its depth, its number of parts, or the kinds or the challenges of its seats are others.
    #[error("other seats")]
    Shape,
    /// All parts are in it. A sum of it would be a copy that can be asked.
    #[error("all parts are in")]
    Whole,
    /// A question has used a seat of it.
    #[error("a seat is used")]
    UsedSeat,
    /// Its first part is not the one behind the last part of the sketch.
    #[error("not the next part")]
    NotNext,
    /// With it this side has a weight above 2^30 - 1.
    #[error("a side is too heavy")]
    Heavy(Side),
    /// The sketch has a part in that is not in the sum.
    #[error("a part of the sketch is not in the sum")]
    Missing,
    /// The sum has fewer records than the sketch, or less weight on a side.
    #[error("the sum has less than the sketch")]
    Fewer,
}

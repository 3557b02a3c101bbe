//! Why a run does not begin.

/// Why a run does not begin, in the order of the tests.
#[derive(Clone, Copy, Debug, PartialEq, Eq)]
pub enum RunStart {
    /// There is no question, or there are more than 16.
    Count,
    /// This question, counted from 1, is the first that can't be asked at the depth.
    Unfit(u8),
    /// Eight words of the seed's generator in turn give no challenge.
    SeedSpent,
    /// There is no memory.
    OutOfMemory,
}

//! What queries for heavy hitters ask for, by the total of a side.

ghost use Rattle.std.specs.Prelude.{◌≡◌, ◌≤◌, nat_abs};
ghost use Rattle.sip_vector.specs.Streams.{most_weight};
ghost use Rattle.sip_vector.specs.Thresholds.{is_wide, share_of};

/// How many entries of at least its threshold a total may have, for an answer to be given.
const MOST_HITTERS: u64 = 65_536;

/// The least count that is `num`/`den` of a total, rounded up; 1 where the total is not above 0.
pub fn share_of(total: i64, num: u32, den: u32) -> u64
    requires total { nat_abs total ≤ most_weight }
    requires den { 1 ≤ den }
    ensures { result ≡ share_of num den total }
{
    if total < 1 {
        return 1;
    }
    (u64::from(num) * total as u64 + u64::from(den) - 1) / u64::from(den)
}

/// Whether a total may have more than 65,536 entries of at least a threshold: then no answer is
/// given.
pub fn is_wide(total: i64, at_least: u64) -> bool
    requires total { nat_abs total ≤ most_weight }
    requires some { 1 ≤ at_least }
    ensures { result ≡ is_wide at_least total }
{
    if total < 1 {
        return false;
    }
    let total = total as u64;
    at_least <= total && total / at_least > MOST_HITTERS
}

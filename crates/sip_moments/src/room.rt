//! For which moments a claim has room.

ghost use Rattle.std.specs.Prelude.{◌≡◌};
ghost use Rattle.sip_moments.specs.Moments.{is_too_high};

/// The greatest absolute value of a claim.
const MOST_CLAIM: u64 = (1 << 60) - 1;

/// Whether a claim may have no room for the moment of this degree of a side of this weight.
pub fn is_too_high(weight: u64, degree: u8) -> bool
    ensures { result ≡ is_too_high weight degree }
{
    match weight.checked_pow(u32::from(degree)) {
        Some(power) => power > MOST_CLAIM,
        None => true,
    }
}

//! One decimal number.

ghost use Rattle.std.specs.Prelude.{◌≡◌, ◌≢◌, ℕ, ◌<◌, ◌^◌, MatchOption, decimal};

/// The number below 2^64 that a text writes in decimal digits, without a sign and without a leading
/// zero.
pub fn read_decimal(text: &str) -> Option<u64>
    ensures { MatchOption result
        ((n : ℕ) → n < 2 ^ 64 → text.now ≢ decimal n)
        (λ n. text.now ≡ decimal n) }
{
    sip_stream::read_decimal(text.as_bytes())
}

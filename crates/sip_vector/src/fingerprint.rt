//! The fingerprint of a stream.

ghost use Rattle.std.specs.Prelude.{◌≡◌, ◌<◌, ◌≤◌, ◌+◌, ◌*◌, ◌%◌, ◌^◌};
ghost use Rattle.sip_vector.specs.Fingerprints.{fingerprint, mix, place_of, share, stirred};

use crate::{Side, Update};
use std::marker::Model;

/// Where the items of side 1 begin, once those of both sides are numbered through.
const SECOND: u64 = 1 << 48;

/// The sum modulo 2^64, over the updates of a stream, of the delta times a number that the side and
/// the item give. Contracts see it as the number; that of no stream, the default, is 0.
///
/// It is public and adds up, whatever the order of the updates. It tells honest streams apart, such
/// as a log and the same log cut short. It protects from nobody: whoever wants to can make another
/// stream with the same fingerprint.
///
/// An update costs about three products.
#[derive(Clone, Copy, Debug, PartialEq, Eq)]
pub struct Fingerprint {
    sum: u64,
}

impl Model for Fingerprint {
    ghost use Rattle.std.specs.Prelude.{ℕ};

    ghost Value = { ℕ };

    ghost view = { λ f. f.sum };

    ghost inverse = { λ n. record { sum = n } };
}

/// That of no stream.
impl Default for Fingerprint {
    ghost is_default = { λ f. f ≡ 0 };

    fn default() -> Fingerprint {
        Fingerprint { sum: 0 }
    }
}

impl Fingerprint {
    /// The fingerprint that is kept as this number.
    pub fn of(sum: u64) -> Fingerprint
        ensures { result ≡ sum }
    {
        Fingerprint { sum }
    }

    /// It as a number.
    pub fn get(self) -> u64
        ensures { result ≡ self }
    {
        self.sum
    }

    /// That of the stream with one more update.
    pub fn update(&mut self, update: &Update)
        ensures { self.new ≡ (self.old + share update.now) % 2 ^ 64 }
    {
        self.sum = self.sum.wrapping_add(share_of(update));
    }

    /// That of the stream with these updates behind it.
    pub fn update_all(&mut self, updates: &[Update])
        ensures { self.new ≡ (self.old + fingerprint updates.now) % 2 ^ 64 }
    {
        let mut sum = self.sum;
        for update in updates {
            sum = sum.wrapping_add(share_of(update));
        }
        self.sum = sum;
    }

    /// That of both streams.
    pub fn absorb(&mut self, other: Fingerprint)
        ensures { self.new ≡ (self.old + other) % 2 ^ 64 }
    {
        self.sum = self.sum.wrapping_add(other.sum);
    }
}

// A number of 64 bits whose upper bits are laid over its lower ones, times a factor.
#[inline(always)]
fn stirred(z: u64, shift: u32, factor: u64) -> u64
    requires { shift < 64 }
    ensures { result ≡ stirred z shift factor }
{
    (z ^ (z >> shift)).wrapping_mul(factor)
}

// The finaliser of splitmix64.
#[inline(always)]
#[tactic(auto, unfolding(crate::specs::Fingerprints::mix))]
fn mix(x: u64) -> u64
    ensures { result ≡ mix x }
{
    let begun = x.wrapping_add(0x9e37_79b9_7f4a_7c15);
    let once = stirred(begun, 30, 0xbf58_476d_1ce4_e5b9);
    let twice = stirred(once, 27, 0x94d0_49bb_1331_11eb);
    twice ^ (twice >> 31)
}

// Where an update is among the items of both sides, modulo 2^64.
#[inline(always)]
fn place_of(side: Side, item: u64) -> u64
    ensures { result ≡ place_of side item % 2 ^ 64 }
{
    match side {
        Side::First => item,
        Side::Second => item.wrapping_add(SECOND),
    }
}

// What an update adds, modulo 2^64.
#[inline(always)]
fn share_of(update: &Update) -> u64
    ensures { result ≡ share update.now % 2 ^ 64 }
{
    update
        .delta
        .cast_unsigned()
        .wrapping_mul(mix(place_of(update.side, update.item)))
}

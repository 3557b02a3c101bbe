//! Challenges that are drawn from a generator's words.
ghost use Rattle.std.specs.Prelude.{◌≡◌, ℕ, ◌-◌, ◌≤◌, ◌↔◌, IsErr, length};
ghost use Rattle.sip_field.specs.Draw.{AllMissed, drawn, drawn_list, draw_one, draw_list};
ghost use Rattle.sip_field.specs.Draw.{seed_words, words_left};

use crate::arithmetic::Field;
use crate::mersenne::M61;
use arrayvec::ArrayVec;
use rand_chacha::ChaCha20Rng;
use rand_core::{Rng, SeedableRng};

// The words that one challenge may take.
const TRIES: u32 = 8;

/// Eight words in turn gave no challenge.
#[derive(Clone, Copy, PartialEq, Eq, Debug)]
pub struct SeedSpent;

/// The next challenge: the upper 61 bits of the next word, where these are not 2^61 - 1. Where they
/// are, the word after it is tried, and so on, eight words at most.
///
/// The words up to the challenge's own are taken from the generator, and all eight where the answer
/// is `SeedSpent`.
pub fn draw_one<R: Rng>(rng: &mut R) -> Result<M61, SeedSpent>
    ensures exact { (drawn result, R.stream rng.new) ≡ draw_one (R.stream rng.old) }
    ensures spent { IsErr result ↔ AllMissed 8 (R.stream rng.old) }
{
    for _ in 0..TRIES {
        let challenge = rng.next_u64() >> 3;
        if challenge != M61::MODULUS {
            return Ok(M61::of(challenge));
        }
    }
    Err(SeedSpent)
}

/// The next `count` challenges of a generator, in order.
///
/// The words of these draws are taken from it: up to the draw that is spent, where the answer is
/// `SeedSpent`.
pub fn draw_next<R: Rng, const CAP: usize>(
    rng: &mut R,
    count: usize,
) -> Result<ArrayVec<M61, CAP>, SeedSpent>
    requires { count ≤ CAP }
    ensures drawn { drawn_list result ≡ draw_list count (R.stream rng.old) }
    ensures left { R.stream rng.new ≡ words_left count (R.stream rng.old) }
{
    let mut challenges = ArrayVec::new();
    for _ in 0..count {
        challenges.push(draw_one(rng)?);
    }
    Ok(challenges)
}

/// The first `count` challenges that `ChaCha20Rng::from_seed(seed)` gives, in order.
///
/// `SeedSpent` where one of these draws is.
#[inline(never)]
pub fn draw_challenges<const CAP: usize>(
    seed: [u8; 32],
    count: usize,
) -> Result<ArrayVec<M61, CAP>, SeedSpent>
    requires { count ≤ CAP }
    ensures { drawn_list result ≡ draw_list count (seed_words seed) }
{
    draw_next(&mut ChaCha20Rng::from_seed(seed), count)
}
